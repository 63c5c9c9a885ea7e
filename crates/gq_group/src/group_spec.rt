//! What is asked of the groups of rows.
ghost use Rattle.std.specs.Prelude.{◌≡◌, ◌≤◌, ◌&&◌, ℕ, true, List, IfOk, IsTrue, drop, length, nat_lt};
ghost use Rattle.std.specs.List.{list_all};
ghost use Rattle.gq_row.specs.declared.value.Value.{Value as Cell};
ghost use Rattle.gq_group.specs.Fitting.{has_all_asked, has_asked, has_no_sum, is_sum, reaches as does_reach};
ghost use Rattle.gq_group.specs.Groups.{counts_all as is_count, fits_cell as cell_fits, has_columns};
ghost use Rattle.gq_group.specs.KeptAggs.{kept_spec, others};

use gq_agg::AggKind;
use gq_row::Row;
use std::alloc::{AllocError, Global};
use std::marker::Model;

/// By which columns rows are grouped, and which aggregates are asked of each group, each of a
/// column. The column of `CountAll` is ignored.
#[derive(Drop)]
pub struct GroupSpec {
    by: Vec<usize>,
    aggs: Vec<(AggKind, usize)>,
    // The largest column that is named, if any is.
    last: Option<usize>,
    // How many aggregates there are up to the last sum: only sums refuse a value.
    sums: usize,
}

impl Model for GroupSpec {
    ghost use Rattle.std.specs.Prelude.{◌≡◌, ◌&&◌, ◌≤◌, List, IsTrue, length, drop};
    ghost use Rattle.gq_row.specs.declared.value.Value.{Value as Cell};
    ghost use Rattle.gq_group.specs.Fitting.{has_all_asked, has_no_sum, reaches};
    ghost use Rattle.gq_group.specs.Groups.{Spec, has_columns};

    ghost Value = { Spec };

    ghost view = { λ s. record { by = s.by.items; aggs = s.aggs.items } };

    ghost invariant = { λ s. ((row : List Cell) → reaches s.last (length row) ≡
        (has_columns s.by.items row && has_all_asked s.aggs.items row)) ×
        (s.sums ≤ length s.aggs.items) × IsTrue (has_no_sum (drop s.sums s.aggs.items)) };
}

impl GroupSpec {
    ghost use Rattle.gq_group.specs.Groups.{fits_spec};

    pub fn new(by: Vec<usize>, aggs: Vec<(AggKind, usize)>) -> GroupSpec
        ensures by { result.by ≡ by.items }
        ensures aggs { result.aggs ≡ aggs.items }
    {
        let last = last_asked(last_of(by.as_slice()), aggs.as_slice());
        let sums = sums_end(aggs.as_slice());
        GroupSpec {
            by,
            aggs,
            last,
            sums,
        }
    }

    /// The columns to group by.
    #[inline]
    pub fn by(&self) -> &[usize]
        ensures { result.now ≡ self.now.by }
    {
        self.by.as_slice()
    }

    /// The aggregates and their columns.
    #[inline]
    pub fn aggs(&self) -> &[(AggKind, usize)]
        ensures { result.now ≡ self.now.aggs }
    {
        self.aggs.as_slice()
    }

    // The same grouping, of the aggregates that are kept for each group: all but `count(*)`, since each
    // of them counts its values, nulls too. If there are no others, one `count(*)` is kept.
    pub(crate) fn kept(&self, alloc: Global) -> Result<GroupSpec, AllocError>
        ensures { IfOk result (λ spec. spec ≡ kept_spec self.now) }
    {
        let by = Vec::from_slice(alloc, self.by())?;
        let mut aggs = others(alloc, self.aggs())?;
        if aggs.is_empty() {
            aggs.extend_from_slice(&self.aggs()[..self.aggs().len().min(1)])?;
        }
        Ok(GroupSpec::new(by, aggs))
    }

    /// Whether a row can be grouped: the columns that are named are there, with no text in a sum.
    #[inline]
    pub fn fits(&self, row: &Row) -> bool
        ensures { result ≡ fits_spec self.now row.now }
    {
        reaches(self.last, row.len()) && fit_cells(&self.aggs()[..self.sums], row)
    }
}

// The largest of some columns, if there is one.
fn last_of(columns: &[usize]) -> Option<usize>
    ensures { (row : List Cell) →
        does_reach result (length row) ≡ has_columns columns.now row }
{
    let mut last = None;
    for column in columns {
        last = Some(later(last, *column));
    }
    last
}

// The largest of `before`, if it is there, and of the columns that aggregates are asked of.
fn last_asked(before: Option<usize>, aggs: &[(AggKind, usize)]) -> Option<usize>
    ensures { (row : List Cell) → does_reach result (length row) ≡
        (does_reach before (length row) && has_all_asked aggs.now row) }
{
    let mut last = before;
    for agg in aggs {
        if !counts_all(agg.0) {
            last = Some(later(last, agg.1));
        }
    }
    last
}

// How many aggregates there are up to the last sum.
fn sums_end(aggs: &[(AggKind, usize)]) -> usize
    ensures within { result ≤ length aggs.now }
    ensures rest { IsTrue (has_no_sum (drop result aggs.now)) }
{
    let mut end = aggs.len();
    while end > 0 && !is_sum(aggs[end - 1].0) {
        end -= 1;
    }
    end
}

fn is_sum(kind: AggKind) -> bool
    ensures { result ≡ is_sum kind }
{
    match kind {
        AggKind::Sum => true,
        AggKind::CountAll | AggKind::Count | AggKind::Min | AggKind::Max => false,
    }
}

// The larger of a column that may be missing and another.
fn later(last: Option<usize>, column: usize) -> usize
    ensures { (n : ℕ) → nat_lt result n ≡ (does_reach last n && nat_lt column n) }
{
    match last {
        Some(last) => last.max(column),
        None => column,
    }
}

// Whether a row of `values` values has a column, if there is one, and so all columns before it.
#[inline]
fn reaches(last: Option<usize>, values: usize) -> bool
    ensures { result ≡ does_reach last values }
{
    match last {
        Some(last) => last < values,
        None => true,
    }
}

// The aggregates that aren't `count(*)`.
fn others(alloc: Global, asked: &[(AggKind, usize)]) -> Result<Vec<(AggKind, usize)>, AllocError>
    ensures { IfOk result (λ aggs. aggs.items ≡ others asked.now) }
{
    let mut aggs = Vec::with_capacity(alloc, asked.len())?;
    for agg in asked {
        if !counts_all(agg.0) {
            aggs.push(*agg)?;
        }
    }
    Ok(aggs)
}

// Whether it is `count(*)`.
#[inline]
pub(crate) fn counts_all(kind: AggKind) -> bool
    ensures { result ≡ is_count kind }
{
    matches!(kind, AggKind::CountAll)
}

// Whether no sum is asked of a text, in a row that has all columns that aggregates are asked of.
#[inline]
fn fit_cells(aggs: &[(AggKind, usize)], row: &Row) -> bool
    requires { has_all_asked aggs.now row.now ≡ true }
    ensures { result ≡ list_all (cell_fits row.now) aggs.now }
{
    for agg in aggs {
        if !fits_cell(agg.0, agg.1, row) {
            return false;
        }
    }
    true
}

#[inline]
fn fits_cell(kind: AggKind, column: usize, row: &Row) -> bool
    requires { has_asked row.now (kind, column) ≡ true }
    ensures { result ≡ cell_fits row.now (kind, column) }
{
    match kind {
        AggKind::Sum => kind.takes(row.cell(column)),
        AggKind::CountAll | AggKind::Count | AggKind::Min | AggKind::Max => true,
    }
}
