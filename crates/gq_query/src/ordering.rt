//! Rows in the order in which queries return them.
//!
//! Sorting moves spans and no cells. It compares the prefixes of up to three values first, which
//! are computed once. They leave the rows mostly in order, so the sort by whole rows after it is
//! about one pass, and moves only spans whose prefixes tie. Groups are sorted in place, by prefixes
//! of more columns.
ghost use Rattle.std.specs.Prelude.{◌≡◌, IfOk, IsPermutation, OnOk};
ghost use Rattle.std.specs.List.Sorted.{IsSortedByKey};
ghost use Rattle.gq_row.specs.Laws.{IsArranged};
ghost use Rattle.gq_row.specs.Order.{compare_keys, folded_order};
ghost use Rattle.gq_row.specs.Rows.{cell, key_of};
ghost use Rattle.gq_query.specs.Answers.{ordered_by};
ghost use Rattle.gq_query.specs.Spans.{row_in};

use crate::sort_prefix::{next_prefixes, prefix_in};
use gq_cells::{Cells, RowSpan, Rows};
use gq_row::{Value, compare_cells, compare_folded};
use std::alloc::{AllocError, Global};
use std::cmp::Ordering;

/// Sorts rows by their keys in some columns, or by all of their values if no column is given.
pub fn sort_rows(alloc: Global, rows: Rows, columns: &[usize]) -> Result<Rows, AllocError>
    ensures { IfOk result (IsArranged (ordered_by columns.now) rows) }
{
    let (cells, mut spans) = rows.into_parts();
    let cells = cells.into_values(alloc)?;
    sort_spans(cells.as_slice(), &mut spans, columns)?;
    Ok(Rows::of(Cells::of(cells), spans))
}

// Sorts the spans of rows in the same way.
fn sort_spans(
    cells: &[Value],
    spans: &mut Vec<RowSpan>,
    columns: &[usize],
) -> Result<(), AllocError>
    ensures moved { IsPermutation spans.old.items spans.new.items }
    ensures ascending { OnOk result (IsSortedByKey
        (λ span. ordered_by columns.now (row_in cells.now span)) compare_keys spans.new.items) }
{
    sort_by_prefixes(cells, spans, columns)?;
    spans.sort_by(|a, b| compare_rows(columns, row_in(cells, a), row_in(cells, b)))
}

// Sorts the spans by the prefixes of the rows' first three values. Both sorts are stable, and two take
// less memory than one with longer keys.
fn sort_by_prefixes(
    cells: &[Value],
    spans: &mut Vec<RowSpan>,
    columns: &[usize],
) -> Result<(), AllocError>
    ensures { IsPermutation spans.old.items spans.new.items }
{
    if columns.len() != 1 {
        spans.sort_by_cached_key(|span| next_prefixes(columns, row_in(cells, span)))?;
    }
    spans.sort_by_cached_key(|span| prefix_in(columns, row_in(cells, span), 0))
}

// The row at a span, or an empty one if the span isn't within the list.
#[inline]
fn row_in<'a>(cells: &'a [Value], span: &RowSpan) -> &'a [Value]
    ensures { result.now ≡ row_in cells.now span.now }
{
    let span = span.get();
    if span.start <= span.end && span.end <= cells.len() {
        &cells[span.start..span.end]
    } else {
        &[]
    }
}

fn compare_rows(columns: &[usize], a: &[Value], b: &[Value]) -> Ordering
    ensures { result ≡ compare_keys (ordered_by columns.now a.now) (ordered_by columns.now b.now) }
{
    if columns.is_empty() {
        compare_cells(a, b)
    } else {
        compare_in(columns, a, b)
    }
}

// The order of two rows by their keys in some columns. Keys hold folds, so rows that tie in all of
// these columns are equal, whatever their bytes.
fn compare_in(columns: &[usize], a: &[Value], b: &[Value]) -> Ordering
    ensures { result ≡ compare_keys (key_of columns.now a.now) (key_of columns.now b.now) }
{
    for column in columns {
        match compare_cell(*column, a, b) {
            Ordering::Equal => {}
            other => return other,
        }
    }
    Ordering::Equal
}

// A row that is too short counts as null there.
fn compare_cell(column: usize, a: &[Value], b: &[Value]) -> Ordering
    ensures { result ≡ folded_order (cell a.now column) (cell b.now column) }
{
    match (a.get(column), b.get(column)) {
        (Some(x), Some(y)) => compare_folded(x, y),
        (Some(x), None) => compare_folded(x, &Value::Null),
        (None, Some(y)) => compare_folded(&Value::Null, y),
        (None, None) => Ordering::Equal,
    }
}
