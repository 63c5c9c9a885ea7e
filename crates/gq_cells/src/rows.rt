//! Many rows in one list.
ghost use Rattle.std.specs.Prelude.{◌≡◌, ◌<◌, ◌≤◌, ◌==◌, ◌+◌, ◌^◌, ◌++◌, ◌∷◌, [], All, IfOk, IsOk, OnOk, OnErr, length, map, take, slice_index_or};
ghost use Rattle.std.specs.List.{swap};
ghost use Rattle.gq_row.specs.Written.{IsInPlace};
ghost use Rattle.gq_cells.specs.Lists.{IsPart, moved, row_at};

use crate::cells::Cells;
use crate::row_ref::RowRef;
use gq_row::Value;
use std::alloc::{AllocError, Global};
use std::marker::Model;

/// The range of a row's cells in a list: `start` is included, `end` isn't.
#[derive(Clone, Copy)]
pub struct Span {
    pub start: usize,
    pub end: usize,
}

/// The range of a row's cells as [`Rows`] store it, in eight bytes, seen as that range.
#[derive(Clone, Copy)]
pub struct RowSpan {
    start: u32,
    end: u32,
}

impl Model for RowSpan {
    ghost use Rattle.gq_cells.specs.declared.rows.Span.{Span as Range};

    ghost Value = { Range };

    ghost view = { λ s. record { start = s.start; end = s.end } };

    ghost inverse = { λ span. record { start = span.start; end = span.end } };
}

impl RowSpan {
    /// A range that ends after 2^32 cells (32 GiB or more) counts as out of memory.
    #[inline]
    pub fn new(span: Span) -> Result<RowSpan, AllocError>
        ensures made { IfOk result (λ s. s ≡ span) }
        ensures fits { span.start < 2 ^ 32 → span.end < 2 ^ 32 → IsOk result }
    {
        match (u32::try_from(span.start), u32::try_from(span.end)) {
            (Ok(start), Ok(end)) => Ok(RowSpan { start, end }),
            _ => Err(AllocError),
        }
    }

    /// The range.
    #[inline]
    pub fn get(self) -> Span
        ensures { result ≡ self }
    {
        Span {
            start: self.start as usize,
            end: self.end as usize,
        }
    }

    // The range after `cells` more cells.
    #[inline]
    fn after(self, cells: usize) -> Result<RowSpan, AllocError>
        ensures moved { IfOk result (λ s. s ≡ moved cells self) }
        ensures fits { cells + self.start < 2 ^ 32 → cells + self.end < 2 ^ 32 → IsOk result }
    {
        let Ok(cells) = u32::try_from(cells) else {
            return Err(AllocError);
        };
        match (self.start.checked_add(cells), self.end.checked_add(cells)) {
            (Some(start), Some(end)) => Ok(RowSpan { start, end }),
            _ => Err(AllocError),
        }
    }
}

/// Rows whose cells are stored one after the other in one list, seen as the list of rows. They take two blocks
/// of memory in all; a list of [`Row`](gq_row::Row)s takes one for each row. Swapping or removing rows moves
/// spans, and no cell.
#[derive(Drop)]
pub struct Rows {
    cells: Cells,
    spans: Vec<RowSpan>,
}

impl Model for Rows {
    ghost use Rattle.std.specs.Prelude.{List, All, map};
    ghost use Rattle.gq_row.specs.declared.value.Value.{Value as Cell};
    ghost use Rattle.gq_cells.specs.Lists.{IsPart, row_at};

    ghost Value = { List (List Cell) };

    ghost view = { λ r. map (row_at r.cells) r.spans.items };

    ghost invariant = { λ r. All (IsPart r.cells) r.spans.items };
}

impl Rows {
    /// An empty list. It takes no memory.
    pub fn new(alloc: Global) -> Rows
        ensures { result ≡ [] }
    {
        Rows {
            cells: Cells::of(Vec::new(alloc)),
            spans: Vec::new(alloc),
        }
    }

    /// The rows at these spans of a list of cells, without a copy.
    pub fn of(cells: Cells, spans: Vec<RowSpan>) -> Rows
        requires { All (IsPart cells) spans.items }
        ensures { result ≡ map (row_at cells) spans.items }
    {
        Rows { cells, spans }
    }

    /// The list of all cells, and the span of each row, without a copy.
    pub fn into_parts(self) -> (Cells, Vec<RowSpan>)
        ensures rows { map (row_at result.0) result.1.items ≡ self }
        ensures within { All (IsPart result.0) result.1.items }
    {
        (self.cells, self.spans)
    }

    /// Reserves room for `rows` more rows of `width` cells each.
    pub fn reserve(&mut self, rows: usize, width: usize) -> Result<(), AllocError>
        ensures { self.new ≡ self.old }
    {
        self.spans.reserve(rows)?;
        self.cells.reserve(rows.saturating_mul(width))
    }

    /// The number of rows.
    #[inline]
    pub fn len(&self) -> usize
        ensures { result ≡ length self.now }
    {
        self.spans.len()
    }

    #[inline]
    pub fn is_empty(&self) -> bool
        ensures { result ≡ (length self.now == 0) }
    {
        self.spans.is_empty()
    }

    /// Returns a reference to the row at a position, counted from 0.
    #[inline]
    pub fn row(&self, position: usize) -> RowRef<'_>
        requires { position < length self.now }
        ensures { result ≡ slice_index_or self.now position [] }
    {
        RowRef::new(&self.cells, self.spans[position].get())
    }

    /// Whether all rows from `start` up to `end` are known to begin and end with numbers. It reads both ends of each
    /// in so short a loop that many of these reads of memory overlap. No contract covers it.
    pub fn have_number_ends(&self, start: usize, end: usize) -> bool {
        match self.spans.get(start..end) {
            Some(rows) => self.cells.have_number_ends(rows),
            None => false,
        }
    }

    /// Whether all rows from `start` up to `end` are known to have, in a column, a text out of line that doesn't end
    /// with a quote. As above, the loop over their last bytes is so short that these reads overlap. No contract covers it.
    pub fn have_texts_apart(&self, start: usize, end: usize, column: usize) -> bool {
        match self.spans.get(start..end) {
            Some(rows) => self.cells.have_texts_apart(rows, column),
            None => false,
        }
    }

    /// Overwrites `row` with the row at a position. If both have one length, only texts longer than 22 bytes may
    /// allocate.
    pub fn copy_row(
        &self,
        alloc: Global,
        position: usize,
        row: &mut Vec<Value>,
    ) -> Result<(), AllocError>
        requires { position < length self.now }
        ensures copied { OnOk result (row.new.items ≡ slice_index_or self.now position []) }
        ensures in_place { length row.old.items ≡ length (slice_index_or self.now position []) →
            All IsInPlace (slice_index_or self.now position []) → IsOk result }
    {
        self.cells.copy_part(alloc, self.spans[position].get(), row)
    }

    /// Appends a row, and leaves `row` empty.
    pub fn push(&mut self, alloc: Global, row: &mut Vec<Value>) -> Result<(), AllocError>
        ensures pushed { OnOk result (self.new ≡ self.old ++ row.old.items ∷ []) }
        ensures moved { OnOk result (row.new.items ≡ []) }
        ensures unchanged { OnErr result (self.new ≡ self.old) }
    {
        let start = self.cells.len();
        self.cells.push_all(alloc, row.as_mut_slice())?;
        row.clear();
        let end = self.cells.len();
        self.spans.push(RowSpan::new(Span { start, end })?)?;
        Ok(())
    }

    /// Appends a copy of a row.
    pub fn push_copy(&mut self, alloc: Global, row: &[Value]) -> Result<(), AllocError>
        ensures pushed { OnOk result (self.new ≡ self.old ++ row.now ∷ []) }
        ensures unchanged { OnErr result (self.new ≡ self.old) }
    {
        let start = self.cells.len();
        for value in row {
            self.cells.push(alloc, &mut value.copy(alloc)?)?;
        }
        let end = self.cells.len();
        self.spans.push(RowSpan::new(Span { start, end })?)?;
        Ok(())
    }

    /// Appends all rows of another list. They move, as by [`Cells::append`].
    pub fn append(&mut self, alloc: Global, more: Rows) -> Result<(), AllocError>
        ensures appended { OnOk result (self.new ≡ self.old ++ more) }
        ensures unchanged { OnErr result (self.new ≡ self.old) }
    {
        let Rows { cells, mut spans } = more;
        self.spans.reserve(spans.len())?;
        let start = self.cells.len();
        for i in 0..spans.len() {
            spans[i] = spans[i].after(start)?;
        }
        self.cells.append(alloc, cells)?;
        self.spans.append(&mut spans)?;
        Ok(())
    }

    /// Swaps two rows.
    pub fn swap(&mut self, a: usize, b: usize)
        requires { (a < length self.old) × (b < length self.old) }
        ensures { self.new ≡ swap self.old a b }
    {
        self.spans.swap(a, b);
    }

    /// Keeps the first `rows` rows.
    pub fn truncate(&mut self, rows: usize)
        ensures { self.new ≡ take rows self.old }
    {
        self.spans.truncate(rows);
    }
}
