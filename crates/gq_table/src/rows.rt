//! How the rows of a table are stored, and a cursor over them.
ghost use Rattle.std.specs.Prelude.{◌≡◌, ◌<◌, ◌∷◌, [], true, false, All, IsOk, OnOk, length};
ghost use Rattle.gq_row.specs.Rows.{cells_in};
ghost use Rattle.gq_row.specs.Written.{IsInPlace};
ghost use Rattle.gq_table.specs.Walking.{AgreeIn};

use crate::column_store::{ColumnStore, fit};
use crate::keyed::KeyedRows;
use crate::row_store::RowStore;
use gq_row::{Key, Row, Value};
use std::alloc::{AllocError, Global};
use std::marker::Model;
use std::mem;
use sw_probe::KeyHash;

/// The rows of a table: with a key row by row, next to an index of the keys, and without by columns.
#[derive(Drop)]
pub enum Storage<H: KeyHash<Key>> {
    Keyed(KeyedRows<H>),
    Columnar(ColumnStore),
}

/// A reference to the rows of a table, in either layout.
#[derive(Clone, Copy)]
pub enum RowsRef<'a> {
    Rows(&'a RowStore),
    Columns(&'a ColumnStore),
}

/// A cursor over the rows of a table. A row of a table with a key is read in place; one of a table without,
/// which is stored by columns, is copied by [`RowCursor::read`].
#[derive(Drop)]
pub struct RowCursor<'a> {
    alloc: Global,
    rows: RowsRef<'a>,
    // How many rows the cursor has entered.
    from: usize,
    // The row that was read last, if rows are stored by columns.
    copy: Vec<Value>,
}

impl<'a> Model for RowCursor<'a> {
    ghost use Rattle.gq_table.specs.Walking.{Walk, row_of, read_of, rest_of};

    ghost Value = { Walk };

    ghost view = { λ w. record { row = row_of w.rows w.from; read = read_of w.rows w.from w.copy.items; rest = rest_of w.rows w.from } };
}

impl<'a> RowsRef<'a> {
    ghost use Rattle.gq_table.specs.Walking.{rows_in};

    #[inline]
    fn len(&self) -> usize
        ensures { result ≡ length (rows_in self.now) }
    {
        match self {
            RowsRef::Rows(rows) => rows.len(),
            RowsRef::Columns(rows) => rows.len(),
        }
    }
}

impl<'a> RowCursor<'a> {
    ghost use Rattle.gq_table.specs.Stored.{rows_of};

    /// A cursor before the first row.
    pub(crate) fn new<H: KeyHash<Key>>(alloc: Global, rows: &'a Storage<H>) -> RowCursor<'a>
        ensures { result.rest ≡ rows_of rows.now }
    {
        let rows = match rows {
            Storage::Keyed(keyed) => RowsRef::Rows(&keyed.rows),
            Storage::Columnar(rows) => RowsRef::Columns(rows),
        };
        RowCursor {
            alloc,
            rows,
            from: 0,
            copy: Vec::new(alloc),
        }
    }

    /// The number of rows after the current one.
    pub fn len(&self) -> usize
        ensures { result ≡ length self.now.rest }
    {
        self.rows.len().saturating_sub(self.from)
    }

    /// Moves to the next row, and returns whether there is one.
    #[inline]
    pub fn advance(&mut self) -> bool
        ensures next { result ≡ true → self.old.rest ≡ self.new.row ∷ self.new.rest }
        ensures end { result ≡ false → (self.old.rest ≡ []) × (self.new.rest ≡ []) }
    {
        if self.rows.len() <= self.from {
            return false;
        }
        self.from += 1;
        true
    }

    /// Reads the current row. One that is stored by columns is copied over the one read before, and may
    /// allocate if it is the first, and for texts longer than 22 bytes.
    #[inline]
    pub fn read(&mut self) -> Result<(), AllocError>
        ensures read { OnOk result (self.new.read ≡ self.old.row) }
        ensures row { self.new.row ≡ self.old.row }
        ensures rest { self.new.rest ≡ self.old.rest }
    {
        let RowsRef::Columns(rows) = self.rows else {
            return Ok(());
        };
        let place = self.from.saturating_sub(1);
        if place < rows.len() {
            return rows.copy_row(self.alloc, place, &mut self.copy);
        }
        self.copy.clear();
        Ok(())
    }

    /// As [`RowCursor::read`], in some columns alone. What the row that was read has in others is unspecified.
    #[inline]
    pub fn read_columns(&mut self, columns: &[usize]) -> Result<(), AllocError>
        ensures read { OnOk result (AgreeIn columns.now self.new.read self.old.row) }
        ensures row { self.new.row ≡ self.old.row }
        ensures rest { self.new.rest ≡ self.old.rest }
    {
        let RowsRef::Columns(rows) = self.rows else {
            return Ok(());
        };
        let place = self.from.saturating_sub(1);
        if place < rows.len() {
            return rows.copy_some(self.alloc, place, columns, &mut self.copy);
        }
        self.copy.clear();
        Ok(())
    }

    /// The row that was read last.
    #[inline]
    pub fn row(&self) -> &[Value]
        ensures { result.now ≡ self.now.read }
    {
        let RowsRef::Rows(rows) = self.rows else {
            return self.copy.as_slice();
        };
        let place = self.from.saturating_sub(1);
        if place < rows.len() {
            return rows.row(place);
        }
        &[]
    }

    /// Overwrites `row` with the current row's values in some columns, and copies no other. On error what `row`
    /// holds is unspecified.
    #[inline(always)]
    pub fn write_cells(&self, columns: &[usize], row: &mut Row) -> Result<(), AllocError>
        requires { All (λ column. column < length self.now.row) columns.now }
        ensures copied { OnOk result (row.new ≡ cells_in columns.now self.now.row) }
        ensures in_place { length row.old ≡ length columns.now →
            All IsInPlace (cells_in columns.now self.now.row) → IsOk result }
    {
        if row.len() != columns.len() {
            fit_row(self.alloc, row, columns.len())?;
        }
        self.write_values(columns, row.cells_mut())
    }

    // Overwrites `cells` with the current row's values in some columns.
    #[inline(always)]
    fn write_values(&self, columns: &[usize], cells: &mut [Value]) -> Result<(), AllocError>
        requires within { All (λ column. column < length self.now.row) columns.now }
        requires all { length cells.old ≡ length columns.now }
        ensures copied { OnOk result (cells.new ≡ cells_in columns.now self.now.row) }
        ensures in_place { All IsInPlace (cells_in columns.now self.now.row) → IsOk result }
    {
        match self.rows {
            RowsRef::Rows(_) => write_cells(self.alloc, cells, self.row(), columns),
            RowsRef::Columns(rows) => {
                rows.copy_cells(self.alloc, self.from.saturating_sub(1), columns, cells)
            }
        }
    }
}

// Resizes a row; its values are unspecified.
#[cold]
fn fit_row(alloc: Global, row: &mut Row, width: usize) -> Result<(), AllocError>
    ensures { OnOk result (length row.new ≡ width) }
{
    let mut cells = mem::replace(row, Row::new(Vec::new(alloc))).into_cells();
    fit(&mut cells, width)?;
    *row = Row::new(cells);
    Ok(())
}

// Overwrites `cells` with a row's values in some columns. Not inlined, since only columns are copied in line.
#[inline(never)]
fn write_cells(
    alloc: Global,
    cells: &mut [Value],
    row: &[Value],
    columns: &[usize],
) -> Result<(), AllocError>
    requires within { All (λ column. column < length row.now) columns.now }
    requires all { length cells.old ≡ length columns.now }
    ensures copied { OnOk result (cells.new ≡ cells_in columns.now row.now) }
    ensures in_place { All IsInPlace (cells_in columns.now row.now) → IsOk result }
{
    for i in 0..columns.len() {
        cells[i].copy_from(alloc, &row[columns[i]])?;
    }
    Ok(())
}
