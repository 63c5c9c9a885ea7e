//! Rows whose fields need no quotes, as records.
//!
//! The rows of a sorted answer are anywhere among its cells, so reading a row waits for memory.
//! Here the ends of a block of rows are read before its first row is written: such short reads
//! don't wait for one another.
ghost use Rattle.std.specs.Prelude.{◌≡◌, ◌≤◌, ◌<◌, ◌+◌, ◌++◌, ◌∷◌, ◌==◌, [], List, ℕ, IfOk, IfSome, codes, false, true, length, take};
ghost use Rattle.std.specs.Fmt.{decimal, signed_decimal};
ghost use Rattle.csv.specs.Writing.{default_writer, field_text, needs_byte, needs_quotes};
ghost use Rattle.gq_row.specs.Rows.{cell};
ghost use Rattle.gq_cells.specs.Cells.{value_of};
ghost use Rattle.gq_reply.specs.Bare.{is_plain, row_record};
ghost use Rattle.gq_reply.specs.Replies.{cell_text};

use crate::buffer::CAPACITY;
use crate::digits::write_number;
use crate::plain::{MOST, copy_plain, is_plain, needs_byte};
use gq_cells::{CellRef, RowRef, Rows, TextRef};

// How many rows are looked at before the first of them is written.
const AHEAD: usize = 64;

// Where the block of rows ends that begins at `start`.
pub(crate) fn block_end(start: usize, rows: usize) -> usize
    requires { start ≤ rows }
    ensures order { start ≤ result }
    ensures more { start < rows → start < result }
    ensures within { result ≤ rows }
{
    if rows - start <= AHEAD {
        rows
    } else {
        start + AHEAD
    }
}

// Whether the rows from `start` up to `end` are probably bare, by some of their values. Reading these first saves
// time: both ends of all rows, and then one text of each that is out of line. No contract covers it.
pub(crate) fn may_be_bare(rows: &Rows, start: usize, end: usize) -> bool
    requires { end ≤ length rows.now }
{
    let have_number_ends = rows.have_number_ends(start, end);
    match borrowed_column(rows, start, end) {
        Some(column) => {
            rows.have_texts_apart(start, end, column)
                || all_may_be_bare(rows, start, end, Checked::At(column))
        }
        None => have_number_ends || all_may_be_bare(rows, start, end, Checked::Ends),
    }
}

// Which values of a row are checked.
#[derive(Clone, Copy)]
enum Checked {
    Ends,
    At(usize),
}

#[inline(always)]
fn all_may_be_bare(rows: &Rows, start: usize, end: usize, checked: Checked) -> bool
    requires { end ≤ length rows.now }
{
    for i in start..end {
        if !row_may_be_bare(&rows.row(i), checked) {
            return false;
        }
    }
    true
}

#[inline(always)]
fn row_may_be_bare(row: &RowRef<'_>, checked: Checked) -> bool {
    let Some(last) = row.len().checked_sub(1) else {
        return false;
    };
    match checked {
        Checked::Ends => cell_may_be_bare(row.cell(0)) && cell_may_be_bare(row.cell(last)),
        Checked::At(column) => cell_may_be_bare(row.cell(column.min(last))),
    }
}

// The column of the first borrowed text in the first of these rows; most others have one there, too.
#[inline(always)]
fn borrowed_column(rows: &Rows, start: usize, end: usize) -> Option<usize>
    requires { end ≤ length rows.now }
{
    if start >= end {
        return None;
    }
    let row = rows.row(start);
    for column in 0..row.len() {
        if is_borrowed(row.cell(column)) {
            return Some(column);
        }
    }
    None
}

#[inline(always)]
fn is_borrowed(cell: CellRef<'_>) -> bool {
    match cell {
        CellRef::Text(TextRef::Stored(_)) | CellRef::NoCase(TextRef::Stored(_)) => true,
        CellRef::Text(TextRef::Short(_)) | CellRef::NoCase(TextRef::Short(_)) => false,
        CellRef::Null | CellRef::Int(_) => false,
    }
}

// Whether a cell is probably bare; of a text only the last byte is checked.
#[inline(always)]
fn cell_may_be_bare(cell: CellRef<'_>) -> bool {
    match cell {
        CellRef::Null => true,
        // The comparison reads the number. The minimum is left to the CSV writer.
        CellRef::Int(n) => n != i64::MIN,
        CellRef::Text(text) | CellRef::NoCase(text) => ends_plainly(text.as_str().as_bytes()),
    }
}

// Whether a field has a last byte, and that byte needs no quotes.
#[inline(always)]
fn ends_plainly(field: &[u8]) -> bool {
    match field.last() {
        Some(byte) => !needs_byte(*byte),
        None => false,
    }
}

// Writes the record of a row at a position of the buffer, and returns the position after it.
#[inline(always)]
pub(crate) fn write_row(buffer: &mut [u8; CAPACITY], at: usize, row: &RowRef<'_>) -> Option<usize>
    requires { at ≤ CAPACITY }
    ensures kept { take at buffer.new ≡ take at buffer.old }
    ensures within { IfSome result (λ next. next ≤ CAPACITY) }
    ensures written { IfSome result (λ next. take next buffer.new ≡ take at buffer.old ++ row_record row.now) }
{
    if row.is_empty() {
        return None;
    }
    let mut next = at;
    for column in 0..row.len() {
        next = write_cell(buffer, next, row, column)?;
    }
    // The comma after the last field becomes the end of the line.
    buffer[next - 1] = b'\n';
    Some(next)
}

// Writes the field of the cell in a column, and a comma. Returns none if the cell isn't bare, or
// doesn't fit; then bytes from `at` on may be overwritten.
#[inline(always)]
fn write_cell(
    buffer: &mut [u8; CAPACITY],
    at: usize,
    row: &RowRef<'_>,
    column: usize,
) -> Option<usize>
    requires at { at ≤ CAPACITY }
    requires column { column < length row.now }
    ensures kept { take at buffer.new ≡ take at buffer.old }
    ensures within { IfSome result (λ next. (at < next) × (next ≤ CAPACITY)) }
    ensures field { IfSome result (λ next. take next buffer.new ≡
        take at buffer.old ++ field_text default_writer (cell_text (cell row.now column)) ++ 44 ∷ []) }
    ensures shown { IfSome result (λ _. (length (field_text default_writer (cell_text (cell row.now column))) == 0) ≡ false) }
{
    // Tested before the cell is read, so that each kind of cell goes straight to its own code.
    if at >= CAPACITY - MOST {
        return None;
    }
    let next = write_field(buffer, at, row.cell(column))?;
    buffer[next] = b',';
    Some(next + 1)
}

// Writes the field of a cell. Leaves room for the byte after it.
#[inline(always)]
fn write_field(buffer: &mut [u8; CAPACITY], at: usize, cell: CellRef<'_>) -> Option<usize>
    requires { at + MOST < CAPACITY }
    ensures kept { take at buffer.new ≡ take at buffer.old }
    ensures within { IfSome result (λ next. (at ≤ next) × (next < CAPACITY)) }
    ensures written { IfSome result (λ next. take next buffer.new ≡ take at buffer.old ++ cell_text (value_of cell.entry)) }
    ensures plain { IfSome result (λ _. is_plain (cell_text (value_of cell.entry)) ≡ true) }
{
    match cell {
        CellRef::Null => Some(write_null(buffer, at)),
        CellRef::Int(n) => Some(write_number(buffer, at, n)),
        CellRef::Text(field) | CellRef::NoCase(field) => {
            write_text(buffer, at, field.as_str().as_bytes())
        }
    }
}

#[inline(always)]
fn write_null(buffer: &mut [u8], at: usize) -> usize
    requires { at + 2 ≤ length buffer.old }
    ensures written { take result buffer.new ≡ take at buffer.old ++ codes "\\N" }
    ensures end { result ≡ at + 2 }
{
    buffer[at] = b'\\';
    buffer[at + 1] = b'N';
    at + 2
}

// Writes a plain field. Leaves room for the byte after it.
#[inline(always)]
fn write_text(buffer: &mut [u8], at: usize, field: &[u8]) -> Option<usize>
    requires { at + MOST < length buffer.old }
    ensures kept { take at buffer.new ≡ take at buffer.old }
    ensures within { IfSome result (λ next. (at ≤ next) × (next < length buffer.old)) }
    ensures written { IfSome result (λ next. take next buffer.new ≡ take at buffer.old ++ field.now) }
    ensures plain { IfSome result (λ _. is_plain field.now ≡ true) }
{
    if field.len() > MOST {
        return write_long_text(buffer, at, field);
    }
    if !copy_plain(&mut buffer[at..], field) {
        return None;
    }
    Some(at + field.len())
}

// Writes a plain field of any length.
#[inline(never)]
fn write_long_text(buffer: &mut [u8], at: usize, field: &[u8]) -> Option<usize>
    requires { at ≤ length buffer.old }
    ensures kept { take at buffer.new ≡ take at buffer.old }
    ensures within { IfSome result (λ next. (at ≤ next) × (next < length buffer.old)) }
    ensures written { IfSome result (λ next. take next buffer.new ≡ take at buffer.old ++ field.now) }
    ensures plain { IfSome result (λ _. is_plain field.now ≡ true) }
{
    if field.len() >= buffer.len() - at || !is_plain(field) {
        return None;
    }
    let next = at + field.len();
    buffer[at..next].copy_from_slice(field);
    Some(next)
}
