//! Rows of one width, stored by columns.
ghost use Rattle.std.specs.Prelude.{◌≡◌, ◌<◌, ◌==◌, ◌++◌, ◌∷◌, [], ℕ, All, IfOk, IsOk, OnOk, OnErr, length, map, replicate, take, slice_index_or};
ghost use Rattle.gq_row.specs.declared.value.Value.TheVariants.{Null};
ghost use Rattle.gq_row.specs.Rows.{cell, cells_in};
ghost use Rattle.gq_row.specs.Written.{IsInPlace};
ghost use Rattle.gq_table.specs.Columns.{AreAsLong, alone, columns_behind, rows_across};
ghost use Rattle.gq_table.specs.Walking.{AgreeIn};

use gq_cells::Cells;
use gq_row::Value;
use std::alloc::{AllocError, Global};
use std::marker::Model;
use std::mem;

/// Rows of one width, seen as the list of rows. Their cells are stored by columns: a row takes no more than its
/// cells, and a column of numbers of 32 bits an eighth of what it takes as values; one of other numbers, or of texts of
/// up to seven bytes, a quarter, and of numbers with nulls half.
#[derive(Drop)]
pub struct ColumnStore {
    columns: Vec<Cells>,
    rows: usize,
}

impl Model for ColumnStore {
    ghost use Rattle.std.specs.Prelude.{List};
    ghost use Rattle.gq_row.specs.declared.value.Value.{Value as Cell};
    ghost use Rattle.gq_table.specs.Columns.{AreAsLong, rows_across};

    ghost Value = { List (List Cell) };

    ghost view = { λ g. rows_across g.rows g.columns.items };

    ghost invariant = { λ g. AreAsLong g.rows g.columns.items };
}

impl ColumnStore {
    /// An empty store. It takes no memory.
    pub fn new(alloc: Global) -> ColumnStore
        ensures { result ≡ [] }
    {
        ColumnStore {
            columns: Vec::new(alloc),
            rows: 0,
        }
    }

    /// Reserves room for `rows` more rows, if there is one already.
    pub fn reserve(&mut self, rows: usize) -> Result<(), AllocError>
        ensures { self.new ≡ self.old }
    {
        reserve_cells(self.columns.as_mut_slice(), rows)
    }

    /// The number of rows.
    #[inline]
    pub fn len(&self) -> usize
        ensures { result ≡ length self.now }
    {
        self.rows
    }

    #[inline]
    pub fn is_empty(&self) -> bool
        ensures { result ≡ (length self.now == 0) }
    {
        self.rows == 0
    }

    /// Overwrites `row` with the row at a position, counted from 0. If both have one length, only texts longer
    /// than 22 bytes may allocate.
    #[inline]
    pub fn copy_row(
        &self,
        alloc: Global,
        position: usize,
        row: &mut Vec<Value>,
    ) -> Result<(), AllocError>
        requires { position < length self.now }
        ensures { OnOk result (row.new.items ≡ slice_index_or self.now position []) }
    {
        if row.len() != self.columns.len() {
            fit(row, self.columns.len())?;
        }
        write_cells(alloc, self.columns.as_slice(), position, row.as_mut_slice())
    }

    /// Overwrites the values of `row` in some columns with those of the row at a position. What `row` has in other
    /// columns is unspecified. If both have one length, only texts longer than 22 bytes may allocate.
    #[inline]
    pub fn copy_some(
        &self,
        alloc: Global,
        position: usize,
        columns: &[usize],
        row: &mut Vec<Value>,
    ) -> Result<(), AllocError>
        requires { position < length self.now }
        ensures { OnOk result (AgreeIn columns.now row.new.items (slice_index_or self.now position [])) }
    {
        if row.len() != self.columns.len() {
            fit(row, self.columns.len())?;
        }
        write_some(
            alloc,
            self.columns.as_slice(),
            position,
            columns,
            row.as_mut_slice(),
        )
    }

    /// Overwrites `cells` with the values of a row in some columns. Only texts longer than 22 bytes may
    /// allocate.
    #[inline(always)]
    pub fn copy_cells(
        &self,
        alloc: Global,
        position: usize,
        columns: &[usize],
        cells: &mut [Value],
    ) -> Result<(), AllocError>
        requires within { All (λ column. column < length (slice_index_or self.now position []))
            columns.now }
        requires all { length cells.old ≡ length columns.now }
        ensures copied { OnOk result (cells.new ≡
            cells_in columns.now (slice_index_or self.now position [])) }
        ensures in_place { All IsInPlace (cells_in columns.now (slice_index_or self.now position []))
            → IsOk result }
    {
        pick_cells(alloc, self.columns.as_slice(), position, columns, cells)
    }

    /// Appends a row of the same width as all others. Its texts move.
    #[inline]
    pub fn push(&mut self, alloc: Global, row: &mut [Value]) -> Result<(), AllocError>
        requires { All (λ other. length other ≡ length row.old) self.old }
        ensures pushed { OnOk result (self.new ≡ self.old ++ row.old ∷ []) }
        ensures unchanged { OnErr result (self.new ≡ self.old) }
    {
        // Can't overflow: the rows would not fit in memory.
        let Some(rows) = self.rows.checked_add(1) else {
            return Err(AllocError);
        };
        start_columns(alloc, &mut self.columns, self.rows, row.len())?;
        match push_cells(alloc, self.columns.as_mut_slice(), row) {
            Ok(()) => {
                self.rows = rows;
                Ok(())
            }
            Err(e) => {
                truncate_columns(self.columns.as_mut_slice(), self.rows);
                Err(e)
            }
        }
    }

    /// Appends all rows of another store, all of one width. They move.
    pub fn append(&mut self, alloc: Global, more: ColumnStore) -> Result<(), AllocError>
        requires { All (λ row. All (λ other. length other ≡ length row) self.old) more }
        ensures appended { OnOk result (self.new ≡ self.old ++ more) }
        ensures unchanged { OnErr result (self.new ≡ self.old) }
    {
        if self.rows == 0 {
            *self = more;
            return Ok(());
        }
        let ColumnStore { mut columns, rows } = more;
        if rows == 0 {
            return Ok(());
        }
        let Some(rows) = self.rows.checked_add(rows) else {
            return Err(AllocError);
        };
        match append_columns(alloc, self.columns.as_mut_slice(), columns.as_mut_slice()) {
            Ok(()) => {
                self.rows = rows;
                Ok(())
            }
            Err(e) => {
                truncate_columns(self.columns.as_mut_slice(), self.rows);
                Err(e)
            }
        }
    }
}

// Makes `width` empty columns, if there are no rows yet.
#[inline]
fn start_columns(
    alloc: Global,
    columns: &mut Vec<Cells>,
    rows: usize,
    width: usize,
) -> Result<(), AllocError>
    requires long { AreAsLong rows columns.old.items }
    requires even { All (λ row. length row ≡ width) (rows_across rows columns.old.items) }
    ensures long { AreAsLong rows columns.new.items }
    ensures same { rows_across rows columns.new.items ≡ rows_across rows columns.old.items }
    ensures wide { OnOk result (length columns.new.items ≡ width) }
{
    if rows == 0 {
        *columns = no_cells(alloc, width)?;
    }
    Ok(())
}

// `columns` empty columns.
fn no_cells(alloc: Global, columns: usize) -> Result<Vec<Cells>, AllocError>
    ensures { IfOk result (λ made. made.items ≡ replicate columns []) }
{
    let mut made = Vec::with_capacity(alloc, columns)?;
    for _ in 0..columns {
        made.push(Cells::with_narrow_numbers(alloc))?;
    }
    Ok(made)
}

// Reserves room for `cells` more cells in each column.
fn reserve_cells(columns: &mut [Cells], cells: usize) -> Result<(), AllocError>
    ensures { columns.new ≡ columns.old }
{
    for i in 0..columns.len() {
        columns[i].reserve(cells)?;
    }
    Ok(())
}

// Resizes a row; its values are unspecified.
#[cold]
pub(crate) fn fit(row: &mut Vec<Value>, width: usize) -> Result<(), AllocError>
    ensures { OnOk result (length row.new.items ≡ width) }
{
    row.resize_with(width, || Value::Null)
}

// Overwrites `row` with the cells at a position of all columns.
#[inline]
fn write_cells(
    alloc: Global,
    columns: &[Cells],
    position: usize,
    row: &mut [Value],
) -> Result<(), AllocError>
    requires within { All (λ column. position < length column) columns.now }
    requires all { length row.old ≡ length columns.now }
    ensures { OnOk result (row.new ≡ map (λ column. slice_index_or column position Null) columns.now) }
{
    for i in 0..columns.len() {
        columns[i].copy_to(alloc, position, &mut row[i])?;
    }
    Ok(())
}

// Overwrites the cells of `row` in some columns with those at a position of these columns.
#[inline]
fn write_some(
    alloc: Global,
    all: &[Cells],
    position: usize,
    columns: &[usize],
    row: &mut [Value],
) -> Result<(), AllocError>
    requires within { All (λ column. position < length column) all.now }
    requires long { length row.old ≡ length all.now }
    ensures long { length row.new ≡ length row.old }
    ensures cells { OnOk result (All (λ column. cell row.new column ≡
        cell (map (λ cells. slice_index_or cells position Null) all.now) column) columns.now) }
{
    for i in 0..columns.len() {
        write_cell(alloc, all, position, columns[i], row)?;
    }
    Ok(())
}

// Overwrites the cell of `row` in a column, if there is one, with that at a position of the column.
#[inline(always)]
fn write_cell(
    alloc: Global,
    all: &[Cells],
    position: usize,
    column: usize,
    row: &mut [Value],
) -> Result<(), AllocError>
    requires within { All (λ column. position < length column) all.now }
    requires long { length row.old ≡ length all.now }
    ensures long { length row.new ≡ length row.old }
    ensures cell { OnOk result (cell row.new column ≡
        cell (map (λ cells. slice_index_or cells position Null) all.now) column) }
    ensures others { (other : ℕ) → (other ≡ column → ⊥) → cell row.new other ≡ cell row.old other }
{
    if column < row.len() {
        all[column].copy_to(alloc, position, &mut row[column])?;
    }
    Ok(())
}

// Overwrites `cells` with those at a position of some columns.
#[inline(always)]
fn pick_cells(
    alloc: Global,
    all: &[Cells],
    position: usize,
    columns: &[usize],
    cells: &mut [Value],
) -> Result<(), AllocError>
    requires columns { All (λ column. column < length all.now) columns.now }
    requires within { All (λ column. position < length (slice_index_or all.now column []))
        columns.now }
    requires all { length cells.old ≡ length columns.now }
    ensures copied { OnOk result (cells.new ≡
        map (λ column. slice_index_or (slice_index_or all.now column []) position Null) columns.now) }
    ensures in_place { All IsInPlace
        (map (λ column. slice_index_or (slice_index_or all.now column []) position Null) columns.now)
        → IsOk result }
{
    for i in 0..columns.len() {
        all[columns[i]].copy_to(alloc, position, &mut cells[i])?;
    }
    Ok(())
}

// Appends each cell of a row to its column. On error some columns may have theirs.
#[inline]
fn push_cells(alloc: Global, columns: &mut [Cells], row: &mut [Value]) -> Result<(), AllocError>
    requires all { length row.old ≡ length columns.old }
    ensures pushed { OnOk result (columns.new ≡ columns_behind columns.old (map alone row.old)) }
    ensures kept { (n : ℕ) → AreAsLong n columns.old → map (take n) columns.new ≡ columns.old }
{
    for i in 0..columns.len() {
        columns[i].push(alloc, &mut row[i])?;
    }
    Ok(())
}

// Appends to each column the cells of another. On error some columns may have theirs.
fn append_columns(
    alloc: Global,
    columns: &mut [Cells],
    more: &mut [Cells],
) -> Result<(), AllocError>
    requires all { length more.old ≡ length columns.old }
    ensures appended { OnOk result (columns.new ≡ columns_behind columns.old more.old) }
    ensures kept { (n : ℕ) → AreAsLong n columns.old → map (take n) columns.new ≡ columns.old }
{
    for i in 0..columns.len() {
        let cells = mem::replace(&mut more[i], Cells::new(alloc));
        columns[i].append(alloc, cells)?;
    }
    Ok(())
}

// Keeps the first `cells` cells of each column.
#[cold]
fn truncate_columns(columns: &mut [Cells], cells: usize)
    ensures { columns.new ≡ map (take cells) columns.old }
{
    for i in 0..columns.len() {
        columns[i].truncate(cells);
    }
}
