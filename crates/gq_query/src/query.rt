//! Groups the rows that a query is about, over a run store.
ghost use Rattle.std.specs.Prelude.{◌≡◌, ◌<◌, true, IsTrue, IfOk, IsPermutation, [], length};
ghost use Rattle.std.specs.List.{list_all};
ghost use Rattle.gq_group.specs.Distinct.{distinct_groups};
ghost use Rattle.gq_group.specs.Groups.{AreGroups, out_of_range};
ghost use Rattle.gq_select.specs.Distinct.{bare_keys};
ghost use Rattle.gq_select.specs.Asking.{can_take};
ghost use Rattle.gq_query.specs.Cells.{placed};
ghost use Rattle.gq_query.specs.Keeping.{HasColumns, kept_rows};
ghost use Rattle.gq_query.specs.Outcomes.{Found, Grouped, IsWorkOf};

use crate::cells::{columns_used, place_aggs, place_columns, place_of};
use crate::group_list::GroupList;
use crate::match_ahead::MatchAhead;
use crate::row_filter::RowFilter;
use crate::table_rows::TableRows;
use gq_agg::AggKind;
use gq_group::{Budget, GroupSpec, Refusal, Spent, group, group_distinct};
use gq_row::Key;
use gq_select::distinct;
use gq_spill::RunStore;
use gq_table::Table;
use std::alloc::{AllocError, Global};
use sw_probe::KeyHash;

/// What the groupings of one query share: the kept rows of a table, and the columns to group by.
#[derive(Drop)]
pub struct Query<'a, H: KeyHash<Key>> {
    pub alloc: Global,
    pub hasher: H,
    pub table: &'a Table<H>,
    pub kept: &'a RowFilter<'a, H>,
    pub by: &'a [usize],
    pub budget: Budget,
}

impl<'a, H: KeyHash<Key> + Copy> Query<'a, H> {
    /// Writes the groups of the kept rows with these aggregates to an empty list, in any order, and
    /// returns the work that it took.
    pub fn groups_into<S: RunStore>(
        &self,
        aggs: &[(AggKind, usize)],
        groups: &mut GroupList,
        store: &mut S,
    ) -> Result<Spent, Refusal>
        requires columns { HasColumns self.now }
        requires aggs { IsTrue (list_all (can_take self.now.table.now.schema.columns) aggs.now) }
        requires none { groups.old ≡ [] }
        ensures { Grouped (S.runs store.old) (S.runs store.new) result
            (λ _. AreGroups (record { by = self.now.by.now; aggs = aggs.now })
            (kept_rows self.now) groups.new)
            (IsWorkOf self.now)
            (out_of_range (record { by = self.now.by.now; aggs = aggs.now })
            (kept_rows self.now) ≡ true) }
    {
        let Ok(columns) = columns_used(self.alloc, self.by, aggs) else {
            return Err(Refusal::Memory);
        };
        let Ok(spec) = place_spec(self.alloc, columns.as_slice(), self.by, aggs) else {
            return Err(Refusal::Memory);
        };
        let mut source = TableRows {
            rows: self.table.rows(),
            ahead: MatchAhead::new(self.table.rows()),
            kept: self.kept,
            columns: columns.as_slice(),
        };
        group(
            self.alloc,
            self.hasher,
            &spec,
            &mut source,
            groups,
            store,
            self.budget,
        )
    }

    /// For each key, the number of distinct values that its rows have in a column; in any order.
    pub fn counts_of<S: RunStore>(&self, column: usize, store: &mut S) -> Result<GroupList, Refusal>
        requires columns { HasColumns self.now }
        requires column { column < length self.now.table.now.schema.columns }
        ensures { Found (S.runs store.old) (S.runs store.new) result
            (IsPermutation (distinct_groups self.now.by.now column (kept_rows self.now))) }
    {
        let Ok(columns) = columns_used(self.alloc, self.by, &[(AggKind::Count, column)]) else {
            return Err(Refusal::Memory);
        };
        let Ok(by) = place_columns(self.alloc, columns.as_slice(), self.by) else {
            return Err(Refusal::Memory);
        };
        let place = place_of(columns.as_slice(), column);
        let mut source = TableRows {
            rows: self.table.rows(),
            ahead: MatchAhead::new(self.table.rows()),
            kept: self.kept,
            columns: columns.as_slice(),
        };
        let mut sink = GroupList::new(self.alloc);
        group_distinct(
            self.alloc,
            self.hasher,
            by.as_slice(),
            place,
            &mut source,
            &mut sink,
            store,
            self.budget,
        )?;
        Ok(sink)
    }

    /// The distinct keys of the kept rows, in any order, as groups that show only their keys.
    pub fn keys<S: RunStore>(&self, store: &mut S) -> Result<GroupList, Refusal>
        requires columns { HasColumns self.now }
        requires some { 0 < length self.now.by.now }
        ensures { Found (S.runs store.old) (S.runs store.new) result
            (IsPermutation (bare_keys self.now.by.now (kept_rows self.now))) }
    {
        let Ok(columns) = columns_used(self.alloc, self.by, &[]) else {
            return Err(Refusal::Memory);
        };
        let Ok(by) = place_columns(self.alloc, columns.as_slice(), self.by) else {
            return Err(Refusal::Memory);
        };
        let mut source = TableRows {
            rows: self.table.rows(),
            ahead: MatchAhead::new(self.table.rows()),
            kept: self.kept,
            columns: columns.as_slice(),
        };
        let mut sink = GroupList::of_keys(self.alloc);
        distinct(
            self.alloc,
            self.hasher,
            by,
            &mut source,
            &mut sink,
            store,
            self.budget,
        )?;
        Ok(sink)
    }
}

// The same grouping, over rows that hold only the cells of these columns.
fn place_spec(
    alloc: Global,
    columns: &[usize],
    by: &[usize],
    aggs: &[(AggKind, usize)],
) -> Result<GroupSpec, AllocError>
    ensures { IfOk result (λ spec. spec ≡
        placed columns.now (record { by = by.now; aggs = aggs.now })) }
{
    let by = place_columns(alloc, columns, by)?;
    let aggs = place_aggs(alloc, columns, aggs)?;
    Ok(GroupSpec::new(by, aggs))
}
