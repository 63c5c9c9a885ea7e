//! Rows of one width, stored row by row in one list.
ghost use Rattle.std.specs.Prelude.{◌≡◌, ◌<◌, ◌≤◌, ◌==◌, ◌+◌, ◌-◌, ◌++◌, ◌∷◌, [], List, All, OnOk, OnErr, length, take, drop, slice_set, slice_index_or};
ghost use Rattle.std.specs.Borrow.{sem};
ghost use Rattle.std.specs.List.{swap_remove};
ghost use Rattle.gq_row.specs.declared.value.Value.{Value as Cell};
ghost use Rattle.gq_table.specs.Lending.{lends_row};
ghost use Rattle.gq_table.specs.RowStores.{with_row, written_over};

use gq_row::Value;
use std::alloc::{AllocError, Global};
use std::marker::Model;
use std::mem;

/// Rows of one width whose cells are stored row by row in one list, seen as the list of rows. A row takes no
/// more than its cells, and can be changed in place.
#[derive(Drop)]
pub struct RowStore {
    cells: Vec<Value>,
    width: usize,
    rows: usize,
}

impl Model for RowStore {
    ghost use Rattle.std.specs.Prelude.{◌≡◌, ◌*◌, List, length};
    ghost use Rattle.gq_row.specs.declared.value.Value.{Value as Cell};
    ghost use Rattle.gq_table.specs.RowStores.{rows_along};

    ghost Value = { List (List Cell) };

    ghost view = { λ s. rows_along s.width s.rows s.cells.items };

    ghost invariant = { λ s. length s.cells.items ≡ s.rows * s.width };
}

impl RowStore {
    /// An empty store. It takes no memory.
    pub fn new(alloc: Global) -> RowStore
        ensures { result ≡ [] }
    {
        RowStore {
            cells: Vec::new(alloc),
            width: 0,
            rows: 0,
        }
    }

    /// Reserves room for `rows` more rows, if there is one already.
    pub fn reserve(&mut self, rows: usize) -> Result<(), AllocError>
        ensures { self.new ≡ self.old }
    {
        self.cells.reserve(rows.saturating_mul(self.width))
    }

    /// The number of rows.
    #[inline]
    pub fn len(&self) -> usize
        ensures { result ≡ length self.now }
    {
        self.rows
    }

    #[inline]
    pub fn is_empty(&self) -> bool
        ensures { result ≡ (length self.now == 0) }
    {
        self.rows == 0
    }

    /// A reference to the row at a position, counted from 0.
    #[inline]
    pub fn row(&self, position: usize) -> &[Value]
        requires { position < length self.now }
        ensures { result.now ≡ slice_index_or self.now position [] }
    {
        let start = position * self.width;
        &self.cells[start..start + self.width]
    }

    /// A mutable reference to the row at a position.
    #[inline]
    pub fn row_mut(&mut self, position: usize) -> &mut [Value]
        requires { position < length self.old }
        ensures* writes_back { sem 𝓛 (lends_row self.entry position result) }
        ensures value { result.now ≡ slice_index_or self.old position [] }
        ensures written { (cells : List Cell) → length cells ≡ length result.now →
            with_row self.old position cells ≡ slice_set self.old position cells }
    {
        let start = position * self.width;
        let end = start + self.width;
        self.cells.slice_mut(start..end)
    }

    /// Appends a row of the same width as all others. Its values move.
    pub fn push(&mut self, row: &mut [Value]) -> Result<(), AllocError>
        requires { All (λ other. length other ≡ length row.old) self.old }
        ensures pushed { OnOk result (self.new ≡ self.old ++ row.old ∷ []) }
        ensures unchanged { OnErr result (self.new ≡ self.old) }
    {
        // Can't overflow: the rows would not fit in memory.
        let Some(rows) = self.rows.checked_add(1) else {
            return Err(AllocError);
        };
        push_cells(&mut self.cells, row)?;
        self.width = row.len();
        self.rows = rows;
        Ok(())
    }

    /// Swaps `row` with the row at a position, which is as long.
    #[inline]
    pub fn exchange(&mut self, position: usize, row: &mut [Value])
        requires within { position < length self.old }
        requires long { length row.old ≡ length (slice_index_or self.old position []) }
        ensures put { self.new ≡ slice_set self.old position row.old }
        ensures taken { row.new ≡ slice_index_or self.old position [] }
    {
        exchange_values(self.row_mut(position), row);
    }

    /// Removes the row at a position. The last row takes its place.
    pub fn swap_remove(&mut self, position: usize)
        requires { position < length self.old }
        ensures { self.new ≡ swap_remove self.old position (slice_index_or self.old position []) }
    {
        let last = self.rows - 1;
        let end = last * self.width;
        if position < last {
            exchange_last(self.cells.as_mut_slice(), position * self.width, end);
        }
        self.cells.truncate(end);
        self.rows = last;
    }

    /// Keeps the first `rows` rows.
    pub fn truncate(&mut self, rows: usize)
        ensures { self.new ≡ take rows self.old }
    {
        if rows < self.rows {
            self.cells.truncate(rows * self.width);
            self.rows = rows;
        }
    }
}

// Swaps two slices of one length.
#[inline]
fn exchange_values(values: &mut [Value], others: &mut [Value])
    requires { length values.old ≡ length others.old }
    ensures values { values.new ≡ others.old }
    ensures others { others.new ≡ values.old }
{
    for i in 0..values.len() {
        exchange_value(&mut values[i], &mut others[i]);
    }
}

// Swaps two values; of two numbers, only the numbers.
#[inline]
fn exchange_value(value: &mut Value, other: &mut Value)
    ensures value { value.new ≡ other.old }
    ensures other { other.new ≡ value.old }
{
    if let (Value::Int(a), Value::Int(b)) = (&mut *value, &mut *other) {
        mem::swap(a, b);
        return;
    }
    mem::swap(value, other);
}

// Swaps the cells from `end` on with those from `start` on, which all are before `end`.
#[inline]
fn exchange_last(cells: &mut [Value], start: usize, end: usize)
    requires within { end ≤ length cells.old }
    requires apart { start + (length cells.old - end) ≤ end }
    ensures { take end cells.new ≡ written_over (take end cells.old) start (drop end cells.old) }
{
    let (others, last) = cells.split_at_mut(end);
    others[start..start + last.len()].swap_with_slice(last);
}

// Appends the cells of a row; on error none of them.
#[inline]
fn push_cells(cells: &mut Vec<Value>, row: &mut [Value]) -> Result<(), AllocError>
    ensures pushed { OnOk result (cells.new.items ≡ cells.old.items ++ row.old) }
    ensures unchanged { OnErr result (cells.new.items ≡ cells.old.items) }
{
    cells.reserve(row.len())?;
    for value in row {
        cells.push_reserved(mem::replace(value, Value::Null));
    }
    Ok(())
}
