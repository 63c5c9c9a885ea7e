//! References to rows.
ghost use Rattle.std.specs.Prelude.{◌≡◌, ◌<◌, ◌==◌, length, slice_index_or};
ghost use Rattle.gq_row.specs.Rows.{cell};
ghost use Rattle.gq_cells.specs.Cells.{slice_values, value_of};
ghost use Rattle.gq_cells.specs.Lists.{IsPart, row_at};

use crate::cell_ref::CellRef;
use crate::cells::Cells;
use crate::rows::Span;
use crate::tagged_cells::lend_word;
use gq_row::Value;
use std::marker::Model;

/// A reference to a row of a list, seen as the list of its values.
#[derive(Drop)]
pub struct RowRef<'a> {
    cells: CellSlice<'a>,
}

// A range of a list of values, borrowed; the variant says how all of them are stored.
#[derive(Clone, Copy)]
pub(crate) enum CellSlice<'a> {
    Narrow(&'a [i32]),
    Numbers(&'a [i64]),
    Nullable(&'a [Option<i64>]),
    Values(&'a [Value]),
    // Words and their overflow.
    Tagged(&'a [u64], &'a [Value]),
}

impl<'a> Model for RowRef<'a> {
    ghost use Rattle.std.specs.Prelude.{List};
    ghost use Rattle.gq_row.specs.declared.value.Value.{Value as Cell};
    ghost use Rattle.gq_cells.specs.Cells.{HaveUtf8, slice_values};

    ghost Value = { List Cell };

    ghost view = { λ r. slice_values r.cells };

    ghost invariant = { λ r. HaveUtf8 r.cells };
}

impl<'a> RowRef<'a> {
    // The row at a span of a list of values.
    #[inline(always)]
    pub(crate) fn new(cells: &'a Cells, span: Span) -> RowRef<'a>
        requires { IsPart cells.now span }
        ensures { result ≡ row_at cells.now span }
    {
        RowRef {
            cells: cells.lend(span),
        }
    }

    /// The number of values.
    #[inline(always)]
    pub fn len(&self) -> usize
        ensures { result ≡ length self.now }
    {
        match self.cells {
            CellSlice::Narrow(numbers) => numbers.len(),
            CellSlice::Numbers(numbers) => numbers.len(),
            CellSlice::Nullable(numbers) => numbers.len(),
            CellSlice::Values(values) => values.len(),
            CellSlice::Tagged(words, _) => words.len(),
        }
    }

    #[inline(always)]
    pub fn is_empty(&self) -> bool
        ensures { result ≡ (length self.now == 0) }
    {
        self.len() == 0
    }

    /// The value in the column at a position, counted from 0.
    #[inline(always)]
    pub fn cell(&self, position: usize) -> CellRef<'a>
        requires { position < length self.now }
        ensures { value_of result ≡ cell self.now position }
    {
        match self.cells {
            CellSlice::Narrow(numbers) => CellRef::Int(i64::from(*at(numbers, position))),
            CellSlice::Numbers(numbers) => CellRef::Int(*at(numbers, position)),
            CellSlice::Nullable(numbers) => CellRef::of_number(*at(numbers, position)),
            CellSlice::Values(values) => CellRef::of(at(values, position)),
            CellSlice::Tagged(words, overflow) => lend_word(*at(words, position), overflow),
        }
    }
}

#[inline(always)]
fn at<T>(items: &[T], position: usize) -> &T
    requires { position < length items.now }
    ensures { slice_index_or items.now position result.now ≡ result.now }
{
    &items[position]
}
