//! Names and rows as CSV records, written without an allocation.
ghost use Rattle.std.specs.Prelude.{◌≡◌, ◌≤◌, ◌++◌, ◌==◌, IfErr, OnOk, drop, length, map, take};
ghost use Rattle.std.specs.Io.KnownBytes.{Appends};
ghost use Rattle.csv.specs.Writing.{default_writer, field_text, is_blank, next_sep};
ghost use Rattle.gq_cells.specs.Cells.{value_of};
ghost use Rattle.gq_reply.specs.Bare.{ending, records, row_record};
ghost use Rattle.gq_reply.specs.Replies.{cell_text, record_text, records_text};
ghost use Rattle.gq_reply.specs.Sending.{AppendsPrefix, Passes};

use crate::bare::{block_end, may_be_bare};
use crate::buffer::Buffer;
use crate::sending::{WriteFault, flush};
use gq_cells::{CellRef, RowRef, Rows};
use gq_row::{Sequence, Text};
use itoa::Buffer as Digits;
use std::io::Write;

/// Writes the header and the rows of a query as CSV records, and flushes. It takes no memory but `buffer`, whose bytes are
/// lost. After a fault a prefix of the records was written.
pub fn send_records<W: Write>(
    buffer: &mut Buffer,
    writer: &mut W,
    header: &Sequence<Text>,
    rows: &Rows,
) -> Result<(), WriteFault>
    ensures ok { OnOk result (Appends (W.contents writer.old) (W.contents writer.new)
        (records_text header.now rows.now)) }
    ensures err { IfErr result (λ _. AppendsPrefix (W.contents writer.old) (W.contents writer.new)
        (records_text header.now rows.now)) }
{
    buffer.clear();
    push_names(buffer, writer, header.as_slice())?;
    push_rows(buffer, writer, rows, 0)?;
    buffer.empty(writer)?;
    flush(writer)
}

/// Appends the record of a header.
pub(crate) fn push_names<W: Write>(
    buffer: &mut Buffer,
    writer: &mut W,
    names: &[Text],
) -> Result<(), WriteFault>
    ensures ok { OnOk result (Passes (W.contents writer.old) (W.contents writer.new) buffer.old buffer.new
        (record_text names.now)) }
    ensures err { IfErr result (λ _. AppendsPrefix (W.contents writer.old) (W.contents writer.new)
        (buffer.old ++ record_text names.now)) }
{
    for i in 0..names.len() {
        push_next(buffer, writer, i, names[i].as_str().as_bytes())?;
    }
    push_end(buffer, writer, is_blank_header(names))
}

/// Appends the records of the rows from a position on.
pub(crate) fn push_rows<W: Write>(
    buffer: &mut Buffer,
    writer: &mut W,
    rows: &Rows,
    from: usize,
) -> Result<(), WriteFault>
    requires { from ≤ length rows.now }
    ensures ok { OnOk result (Passes (W.contents writer.old) (W.contents writer.new) buffer.old buffer.new
        (records (drop from rows.now))) }
    ensures err { IfErr result (λ _. AppendsPrefix (W.contents writer.old) (W.contents writer.new)
        (buffer.old ++ records (drop from rows.now))) }
{
    let mut at = from;
    while at < rows.len() {
        let end = block_end(at, rows.len());
        push_block(buffer, writer, rows, at, end)?;
        at = end;
    }
    Ok(())
}

/// Appends the records of the rows from `start` up to `end`.
#[inline(always)]
pub(crate) fn push_block<W: Write>(
    buffer: &mut Buffer,
    writer: &mut W,
    rows: &Rows,
    start: usize,
    end: usize,
) -> Result<(), WriteFault>
    requires order { start ≤ end }
    requires within { end ≤ length rows.now }
    ensures ok { OnOk result (Passes (W.contents writer.old) (W.contents writer.new) buffer.old buffer.new
        (records (drop start (take end rows.now)))) }
    ensures err { IfErr result (λ _. AppendsPrefix (W.contents writer.old) (W.contents writer.new)
        (buffer.old ++ records (drop start (take end rows.now)))) }
{
    let bare = may_be_bare(rows, start, end);
    for i in start..end {
        push_row(buffer, writer, bare, &rows.row(i))?;
    }
    Ok(())
}

// Appends the record of a row, which may be bare.
#[inline(always)]
fn push_row<W: Write>(
    buffer: &mut Buffer,
    writer: &mut W,
    bare: bool,
    row: &RowRef<'_>,
) -> Result<(), WriteFault>
    ensures ok { OnOk result (Passes (W.contents writer.old) (W.contents writer.new) buffer.old buffer.new
        (row_record row.now)) }
    ensures err { IfErr result (λ _. AppendsPrefix (W.contents writer.old) (W.contents writer.new)
        (buffer.old ++ row_record row.now)) }
{
    if bare && buffer.append_bare(row) {
        return Ok(());
    }
    push_other(buffer, writer, row)
}

// As `push_row`, of a row that isn't bare, or for which there is no room.
#[inline(never)]
fn push_other<W: Write>(
    buffer: &mut Buffer,
    writer: &mut W,
    row: &RowRef<'_>,
) -> Result<(), WriteFault>
    ensures ok { OnOk result (Passes (W.contents writer.old) (W.contents writer.new) buffer.old buffer.new
        (row_record row.now)) }
    ensures err { IfErr result (λ _. AppendsPrefix (W.contents writer.old) (W.contents writer.new)
        (buffer.old ++ row_record row.now)) }
{
    if !buffer.is_half_full() {
        return push_cells(buffer, writer, row);
    }
    buffer.empty(writer)?;
    if buffer.append_bare(row) {
        return Ok(());
    }
    push_cells(buffer, writer, row)
}

// Appends the record of a row field by field.
fn push_cells<W: Write>(
    buffer: &mut Buffer,
    writer: &mut W,
    row: &RowRef<'_>,
) -> Result<(), WriteFault>
    ensures ok { OnOk result (Passes (W.contents writer.old) (W.contents writer.new) buffer.old buffer.new
        (row_record row.now)) }
    ensures err { IfErr result (λ _. AppendsPrefix (W.contents writer.old) (W.contents writer.new)
        (buffer.old ++ row_record row.now)) }
{
    for column in 0..row.len() {
        push_cell(buffer, writer, column, row.cell(column))?;
    }
    push_end(buffer, writer, is_blank_row(row))
}

// Appends the field of a cell in a column, after a comma unless the column is the first.
fn push_cell<W: Write>(
    buffer: &mut Buffer,
    writer: &mut W,
    column: usize,
    cell: CellRef<'_>,
) -> Result<(), WriteFault>
    ensures ok { OnOk result (Passes (W.contents writer.old) (W.contents writer.new) buffer.old buffer.new
        (next_sep default_writer column ++ field_text default_writer (cell_text (value_of cell.entry)))) }
    ensures err { IfErr result (λ _. AppendsPrefix (W.contents writer.old) (W.contents writer.new)
        (buffer.old ++ (next_sep default_writer column ++ field_text default_writer (cell_text (value_of cell.entry))))) }
{
    match cell {
        CellRef::Null => push_next(buffer, writer, column, b"\\N"),
        CellRef::Int(n) => {
            let mut digits = Digits::new();
            push_next(buffer, writer, column, digits.format(n).as_bytes())
        }
        CellRef::Text(text) | CellRef::NoCase(text) => {
            push_next(buffer, writer, column, text.as_str().as_bytes())
        }
    }
}

// Appends the field at a place, after a comma unless the place is the first.
fn push_next<W: Write>(
    buffer: &mut Buffer,
    writer: &mut W,
    place: usize,
    field: &[u8],
) -> Result<(), WriteFault>
    ensures ok { OnOk result (Passes (W.contents writer.old) (W.contents writer.new) buffer.old buffer.new
        (next_sep default_writer place ++ field_text default_writer field.now)) }
    ensures err { IfErr result (λ _. AppendsPrefix (W.contents writer.old) (W.contents writer.new)
        (buffer.old ++ (next_sep default_writer place ++ field_text default_writer field.now))) }
{
    if place == 0 {
        return buffer.push_field(writer, field);
    }
    buffer.push(writer, b",")?;
    buffer.push_field(writer, field)
}

// Appends the end of a record. One that shows no byte gets two quotes, since a reader skips empty lines.
fn push_end<W: Write>(buffer: &mut Buffer, writer: &mut W, blank: bool) -> Result<(), WriteFault>
    ensures ok { OnOk result (Passes (W.contents writer.old) (W.contents writer.new) buffer.old buffer.new
        (ending blank)) }
    ensures err { IfErr result (λ _. AppendsPrefix (W.contents writer.old) (W.contents writer.new)
        (buffer.old ++ ending blank)) }
{
    if blank {
        buffer.push(writer, b"\"\"\n")
    } else {
        buffer.push(writer, b"\n")
    }
}

// Whether the record of names shows no byte.
fn is_blank_header(names: &[Text]) -> bool
    ensures { result ≡ is_blank default_writer names.now }
{
    match names {
        [] => true,
        [name] => name.as_str().is_empty(),
        _ => false,
    }
}

// Whether the record of a row shows no byte.
fn is_blank_row(row: &RowRef<'_>) -> bool
    ensures { result ≡ is_blank default_writer (map cell_text row.now) }
{
    match row.len() {
        0 => true,
        1 => is_empty_text(row.cell(0)),
        _ => false,
    }
}

fn is_empty_text(cell: CellRef<'_>) -> bool
    ensures { result ≡ (length (cell_text (value_of cell.entry)) == 0) }
{
    match cell {
        CellRef::Null => false,
        CellRef::Int(n) => {
            // A value of the type is one of 64 bits.
            let _n = n;
            false
        }
        CellRef::Text(text) | CellRef::NoCase(text) => text.as_str().is_empty(),
    }
}
