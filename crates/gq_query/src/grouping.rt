//! Answers `group`: the result rows of the groups, in the order of their keys.
//!
//! The work of each grouping is added up, without that of counts of distinct values. Whether a
//! query fails or not, the store then has the same live runs as before.
ghost use Rattle.std.specs.Prelude.{◌≡◌, ◌+◌, ◌<◌, All, IsTrue, IfOk, None, ◌++◌, filter, insert, length, slice_index_or, ◌∷◌, []};
ghost use Rattle.gq_row.specs.declared.value.Value.TheVariants.{Null};
ghost use Rattle.gq_select.specs.Truths.{keeps};
ghost use Rattle.gq_select.specs.declared.output_column.OutputColumn.TheVariants.{CountDistinct as Different};
ghost use Rattle.gq_query.specs.Answers.{AreValid};
ghost use Rattle.gq_query.specs.Keeping.{HasColumns, kept_rows};
ghost use Rattle.gq_query.specs.Joining.{AreShown, aggregates_of, so_far, joined, folded_answer};
ghost use Rattle.gq_query.specs.Outcomes.{Answered, Found, Grouped, IsWorkOf};
ghost use Rattle.gq_query.specs.Rollups.{group_answer, grouping_sets};
ghost use Rattle.gq_query.specs.Selecting.{CanSelect, rows_selected};
ghost use Rattle.gq_query.specs.Work.{RisesBy};

use crate::cells::aggs_of;
use crate::group_list::GroupList;
use crate::query::Query;
use crate::row_filter::RowFilter;
use crate::selection::{Selection, deciding_columns, other_keys};
use crate::spending::both_spent;
use gq_cells::Rows;
use gq_group::{Budget, Refusal, Spent};
use gq_row::{Key, Value};
use gq_select::{Condition, OutputColumn, having};
use gq_spill::RunStore;
use std::alloc::{AllocError, Global};
use std::mem::replace;
use sw_probe::KeyHash;

/// The columns that rows are grouped by, the columns shown of each group, the condition on result
/// rows (its columns are those of the key, then the shown ones), and the budget of each grouping.
#[derive(Drop)]
pub struct Grouping<'a> {
    pub by: &'a [usize],
    /// Whether rows are grouped by each prefix of these columns, the empty one first, and not only
    /// by all of them.
    pub rollup: bool,
    pub shown: &'a [OutputColumn],
    pub having: &'a Condition,
    pub budget: Budget,
}

impl<'a, H: KeyHash<Key> + Copy> Query<'a, H> {
    // The groups in the order of their keys, with the aggregates among the shown columns, and the
    // work of grouping them.
    fn aggregates<S: RunStore>(
        &self,
        shown: &[OutputColumn],
        store: &mut S,
    ) -> Result<(GroupList, Spent), Refusal>
        requires columns { HasColumns self.now }
        requires shown { AreValid self.now.table.now.schema.columns shown.now }
        ensures { Grouped (S.runs store.old) (S.runs store.new) result
            (λ found. AreShown self.now.by.now (aggregates_of shown.now)
            (kept_rows self.now) found.0)
            (λ found. IsWorkOf self.now found.1)
            (folded_answer self.now.by.now shown.now (kept_rows self.now) ≡ None) }
    {
        let Ok(aggs) = aggs_of(self.alloc, shown) else {
            return Err(Refusal::Memory);
        };
        let mut groups = GroupList::new(self.alloc);
        let spent = self.groups_into(aggs.as_slice(), &mut groups, store)?;
        groups.sort();
        Ok((groups, spent))
    }

    // The counts of distinct values, in the order of the keys.
    fn counts<S: RunStore>(&self, column: usize, store: &mut S) -> Result<GroupList, Refusal>
        requires columns { HasColumns self.now }
        requires column { column < length self.now.table.now.schema.columns }
        ensures { Found (S.runs store.old) (S.runs store.new) result
            (AreShown self.now.by.now (Different column ∷ []) (kept_rows self.now)) }
    {
        let mut counts = self.counts_of(column, store)?;
        counts.sort();
        Ok(counts)
    }

    // If a count of distinct values is shown at `place`, inserts it into each group. Before that,
    // groups have the values shown before `place`, then the remaining aggregates.
    fn show_next<S: RunStore>(
        &self,
        shown: &[OutputColumn],
        place: usize,
        groups: &mut GroupList,
        store: &mut S,
    ) -> Result<(), Refusal>
        requires columns { HasColumns self.now }
        requires shown { AreValid self.now.table.now.schema.columns shown.now }
        requires within { place < length shown.now }
        requires groups { IsTrue (S.runs store.old).honest → AreShown self.now.by.now
            (so_far place shown.now) (kept_rows self.now) groups.old }
        ensures { Found (S.runs store.old) (S.runs store.new) result
            (λ _. AreShown self.now.by.now (so_far (place + 1) shown.now)
            (kept_rows self.now) groups.new) }
    {
        let OutputColumn::CountDistinct(column) = shown[place] else {
            return Ok(());
        };
        let counts = self.counts(column, store)?;
        if counts.len() != groups.len() {
            return Err(Refusal::Damaged);
        }
        match join_counts(self.alloc, groups, place, &counts) {
            Ok(joined) => {
                *groups = joined;
                Ok(())
            }
            Err(_) => Err(Refusal::Memory),
        }
    }

    // The groups in the order of their keys, with all shown values, and the work of grouping their
    // aggregates. Counts of distinct values are left out of the work.
    pub(crate) fn show<S: RunStore>(
        &self,
        shown: &[OutputColumn],
        store: &mut S,
    ) -> Result<(GroupList, Spent), Refusal>
        requires columns { HasColumns self.now }
        requires shown { AreValid self.now.table.now.schema.columns shown.now }
        ensures { Grouped (S.runs store.old) (S.runs store.new) result
            (λ found. AreShown self.now.by.now shown.now (kept_rows self.now) found.0)
            (λ found. IsWorkOf self.now found.1)
            (folded_answer self.now.by.now shown.now (kept_rows self.now) ≡ None) }
    {
        let (mut groups, spent) = self.aggregates(shown, store)?;
        'shown: for place in 0..shown.len() {
            self.show_next(shown, place, &mut groups, store)?;
        }
        Ok((groups, spent))
    }
}

impl<'a, H: KeyHash<Key> + Copy> Query<'a, H> {
    // The result rows that `having` keeps, and `spent` raised by the work of grouping them.
    fn answer<S: RunStore>(
        &self,
        grouping: &Grouping<'_>,
        store: &mut S,
        spent: Spent,
    ) -> Result<(Rows, Spent), Refusal>
        requires columns { HasColumns self.now }
        requires shown { AreValid self.now.table.now.schema.columns grouping.now.shown.now }
        ensures { Answered (S.runs store.old) (S.runs store.new) result
            (group_answer grouping.now.rollup self.now.by.now grouping.now.shown.now
            grouping.now.having.now.tests (kept_rows self.now))
            (RisesBy (S.runs store.old).honest self.now.budget.entries (kept_rows self.now)
            (grouping_sets grouping.now.rollup self.now.by.now) spent) }
    {
        if grouping.rollup {
            return self.rollup(grouping.shown, grouping.having, store, spent);
        }
        let (rows, work) = self.rows(grouping.shown, store)?;
        let Ok(rows) = rows_having(self.alloc, rows, grouping.having) else {
            return Err(Refusal::Memory);
        };
        Ok((rows, both_spent(spent, work)))
    }
}

// Inserts each count at `place` among the values of its group.
fn join_counts(
    alloc: Global,
    groups: &GroupList,
    place: usize,
    counts: &GroupList,
) -> Result<GroupList, AllocError>
    requires { length groups.now ≡ length counts.now }
    ensures { IfOk result (λ all. all ≡ joined place groups.now counts.now) }
{
    let mut all = GroupList::new(alloc);
    let mut key = Vec::new(alloc);
    let mut values = Vec::new(alloc);
    let mut count = Vec::new(alloc);
    for i in 0..counts.len() {
        groups.copy_key(i, &mut key)?;
        groups.copy_values(i, &mut values)?;
        counts.copy_values(i, &mut count)?;
        let place = place.min(values.len());
        values.insert(place, take_first(&mut count))?;
        all.push_group(&mut key, &mut values)?;
    }
    Ok(all)
}

// Takes the first of some values, or null if there is none.
fn take_first(values: &mut Vec<Value>) -> Value
    ensures { result ≡ slice_index_or values.old.items 0 Null }
{
    if values.is_empty() {
        Value::Null
    } else {
        replace(&mut values[0], Value::Null)
    }
}

// The rows for which a condition is true.
fn rows_having(alloc: Global, rows: Rows, condition: &Condition) -> Result<Rows, AllocError>
    ensures { IfOk result (λ kept. kept ≡ filter (keeps condition.now.tests) rows) }
{
    let mut rows = rows;
    if condition.tests.as_slice().is_empty() {
        return Ok(rows);
    }
    let mut row = Vec::new(alloc);
    let mut kept = 0;
    for i in 0..rows.len() {
        rows.copy_row(alloc, i, &mut row)?;
        if having(condition, row.as_slice()) {
            rows.swap(kept, i);
            kept += 1;
        }
    }
    rows.truncate(kept);
    Ok(rows)
}

/// The result rows of a `group`, and `spent` raised by its work. Fails with `SumRange` whatever
/// `having` says, `Memory`, `StoreFault`, or `Damaged` if spilled rows read back differently.
pub fn group_rows<H: KeyHash<Key> + Copy, S: RunStore>(
    alloc: Global,
    hasher: H,
    selection: &Selection<'_, '_, H>,
    grouping: &Grouping<'_>,
    store: &mut S,
    spent: Spent,
) -> Result<(Rows, Spent), Refusal>
    requires by { All (λ column. column < length selection.now.table.now.schema.columns)
        grouping.now.by.now }
    requires shown { AreValid selection.now.table.now.schema.columns grouping.now.shown.now }
    requires matching { CanSelect selection.now }
    ensures { Answered (S.runs store.old) (S.runs store.new) result
        (group_answer grouping.now.rollup grouping.now.by.now grouping.now.shown.now
        grouping.now.having.now.tests (rows_selected selection.now))
        (RisesBy (S.runs store.old).honest grouping.now.budget.entries (rows_selected selection.now)
        (grouping_sets grouping.now.rollup grouping.now.by.now) spent) }
{
    let Ok(keys) = other_keys(alloc, hasher, selection) else {
        return Err(Refusal::Memory);
    };
    let Ok(columns) = deciding_columns(alloc, selection) else {
        return Err(Refusal::Memory);
    };
    let kept = RowFilter {
        condition: selection.condition,
        matching: selection.matching,
        keys: &keys,
        columns: columns.as_slice(),
    };
    let query = Query {
        alloc,
        hasher,
        table: selection.table,
        kept: &kept,
        by: grouping.by,
        budget: grouping.budget,
    };
    query.answer(grouping, store, spent)
}
