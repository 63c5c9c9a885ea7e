//! Result rows whose keys are spelled as in the table's rows.
//!
//! Rows are grouped and sorted by keys that hold texts without case as folds. If a key's columns
//! have such texts, the groups also take the minimum of each key column, before the shown values,
//! and the result row shows these minimums as its key. Otherwise a key holds the rows' own values.
ghost use Rattle.std.specs.Prelude.{◌≡◌, ◌<◌, ◌++◌, All, IsTrue, IfOk, false, length};
ghost use Rattle.std.specs.List.{list_all};
ghost use Rattle.gq_row.specs.Fitting.{fits_columns};
ghost use Rattle.gq_query.specs.Answers.{AreValid, answer, distinct_keys};
ghost use Rattle.gq_query.specs.Keeping.{HasColumns, kept_rows};
ghost use Rattle.gq_query.specs.Outcomes.{Found, IsWorkOf, RowsGrouped};
ghost use Rattle.gq_query.specs.Spelling.{has_spellings as may_differ, least_shown};

use crate::query::Query;
use gq_agg::AggKind;
use gq_cells::Rows;
use gq_group::{Refusal, Spent};
use gq_row::{Column, Key, Kind};
use gq_select::OutputColumn;
use gq_spill::RunStore;
use std::alloc::{AllocError, Global};
use sw_probe::KeyHash;

// Whether a key in these columns can have more than one spelling.
fn has_spellings(columns: &[Column], by: &[usize]) -> bool
    requires { All (λ column. column < length columns.now) by.now }
    ensures { result ≡ may_differ columns.now by.now }
{
    for column in by {
        match columns[*column].kind {
            Kind::Int | Kind::Text => {}
            Kind::NoCase => return true,
        }
    }
    false
}

// The minimum of each key column, then the shown columns.
fn with_least(
    alloc: Global,
    shown: &[OutputColumn],
    by: &[usize],
) -> Result<Vec<OutputColumn>, AllocError>
    ensures { IfOk result (λ all. all.items ≡ least_shown by.now ++ shown.now) }
{
    let mut all = Vec::new(alloc);
    for column in by {
        all.push(OutputColumn::Aggregate(AggKind::Min, *column))?;
    }
    all.extend_from_slice(shown)?;
    Ok(all)
}

impl<'a, H: KeyHash<Key> + Copy> Query<'a, H> {
    /// The result rows of the groups, in the order of their keys, and the work of grouping them.
    pub fn rows<S: RunStore>(
        &self,
        shown: &[OutputColumn],
        store: &mut S,
    ) -> Result<(Rows, Spent), Refusal>
        requires columns { HasColumns self.now }
        requires shown { AreValid self.now.table.now.schema.columns shown.now }
        ensures { RowsGrouped (S.runs store.old) (S.runs store.new) result
            (answer self.now.by.now shown.now (kept_rows self.now)) (IsWorkOf self.now) }
    {
        let _valid = self.table.len();
        if has_spellings(self.table.schema().columns(), self.by) {
            self.rows_spelled(shown, store)
        } else {
            self.rows_alone(shown, store)
        }
    }

    // The same if keys hold the rows' own values.
    fn rows_alone<S: RunStore>(
        &self,
        shown: &[OutputColumn],
        store: &mut S,
    ) -> Result<(Rows, Spent), Refusal>
        requires columns { HasColumns self.now }
        requires shown { AreValid self.now.table.now.schema.columns shown.now }
        requires alone { may_differ self.now.table.now.schema.columns self.now.by.now ≡ false }
        requires fitting { IsTrue (list_all (fits_columns self.now.table.now.schema.columns)
            self.now.table.now.rows) }
        ensures { RowsGrouped (S.runs store.old) (S.runs store.new) result
            (answer self.now.by.now shown.now (kept_rows self.now)) (IsWorkOf self.now) }
    {
        let (groups, spent) = self.show(shown, store)?;
        match groups.into_rows(self.alloc) {
            Ok(rows) => Ok((rows, spent)),
            Err(_) => Err(Refusal::Memory),
        }
    }

    // The same, with the minimum of each key column as the key.
    fn rows_spelled<S: RunStore>(
        &self,
        shown: &[OutputColumn],
        store: &mut S,
    ) -> Result<(Rows, Spent), Refusal>
        requires columns { HasColumns self.now }
        requires shown { AreValid self.now.table.now.schema.columns shown.now }
        ensures { RowsGrouped (S.runs store.old) (S.runs store.new) result
            (answer self.now.by.now shown.now (kept_rows self.now)) (IsWorkOf self.now) }
    {
        let Ok(all) = with_least(self.alloc, shown, self.by) else {
            return Err(Refusal::Memory);
        };
        let (groups, spent) = self.show(all.as_slice(), store)?;
        match groups.into_values(self.alloc) {
            Ok(rows) => Ok((rows, spent)),
            Err(_) => Err(Refusal::Memory),
        }
    }

    /// The distinct keys of the kept rows, in order, each as it is shown.
    pub fn different<S: RunStore>(&self, store: &mut S) -> Result<Rows, Refusal>
        requires columns { HasColumns self.now }
        requires some { 0 < length self.now.by.now }
        ensures { Found (S.runs store.old) (S.runs store.new) result
            (λ rows. rows ≡ distinct_keys self.now.by.now (kept_rows self.now)) }
    {
        let _valid = self.table.len();
        if has_spellings(self.table.schema().columns(), self.by) {
            self.different_spelled(store)
        } else {
            self.different_alone(store)
        }
    }

    fn different_alone<S: RunStore>(&self, store: &mut S) -> Result<Rows, Refusal>
        requires columns { HasColumns self.now }
        requires some { 0 < length self.now.by.now }
        requires alone { may_differ self.now.table.now.schema.columns self.now.by.now ≡ false }
        requires fitting { IsTrue (list_all (fits_columns self.now.table.now.schema.columns)
            self.now.table.now.rows) }
        ensures { Found (S.runs store.old) (S.runs store.new) result
            (λ rows. rows ≡ distinct_keys self.now.by.now (kept_rows self.now)) }
    {
        let mut groups = self.keys(store)?;
        groups.sort();
        match groups.into_rows(self.alloc) {
            Ok(rows) => Ok(rows),
            Err(_) => Err(Refusal::Memory),
        }
    }

    // The keys are groups without shown values.
    fn different_spelled<S: RunStore>(&self, store: &mut S) -> Result<Rows, Refusal>
        requires columns { HasColumns self.now }
        requires some { 0 < length self.now.by.now }
        ensures { Found (S.runs store.old) (S.runs store.new) result
            (λ rows. rows ≡ distinct_keys self.now.by.now (kept_rows self.now)) }
    {
        match self.rows_spelled(&[], store) {
            Ok((rows, _)) => Ok(rows),
            // A minimum is never out of range.
            Err(why) => Err(why.as_damaged()),
        }
    }
}
