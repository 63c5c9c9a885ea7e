//! Results in a box.
ghost use Rattle.std.specs.Prelude.{◌≡◌, ◌++◌, ◌∷◌, [], List, ℕ, IfOk, OnOk, codes, encode_utf8_all, flat_map, map, replicate, string_bytes, ◌+◌};
ghost use Rattle.gq_cells.specs.Cells.{value_of};
ghost use Rattle.gq_format.specs.Boxes.{aligned, box_text, count_text, is_right, line, text_of, value_part};
ghost use Rattle.gq_format.specs.Parts.{part_of};

use crate::column::{Column, cell_at, columns_of};
use crate::shown::{push_repeated, show, show_text, width_of};
use gq_cells::{CellRef, RowRef, Rows};
use gq_row::{Sequence, Text};
use itoa::Buffer;
use std::alloc::{AllocError, Global};

// What a line has in each column.
#[derive(Clone, Copy)]
pub(crate) enum Part<'a> {
    Bars,
    Name,
    Cell(&'a RowRef<'a>),
}

// The marks of a line: before its first column, between two columns, and after its last.
#[derive(Clone, Copy)]
struct Marks {
    left: char,
    between: char,
    right: char,
}

const TOP: Marks = Marks {
    left: '┌',
    between: '┬',
    right: '┐',
};

const SIDES: Marks = Marks {
    left: '│',
    between: '│',
    right: '│',
};

const MIDDLE: Marks = Marks {
    left: '├',
    between: '┼',
    right: '┤',
};

const BOTTOM: Marks = Marks {
    left: '└',
    between: '┴',
    right: '┘',
};

pub(crate) fn box_text(
    alloc: Global,
    header: &Sequence<Text>,
    rows: &Rows,
) -> Result<Vec<u8>, AllocError>
    ensures { IfOk result (λ bytes. bytes.items ≡ box_text header.now rows.now) }
{
    let columns = columns_of(alloc, header.as_slice(), rows)?;
    let mut text = String::new(alloc);
    let mut buffer = String::new(alloc);
    let columns = columns.as_slice();
    push_line(&mut text, &mut buffer, columns, TOP, Part::Bars)?;
    push_line(&mut text, &mut buffer, columns, SIDES, Part::Name)?;
    push_line(&mut text, &mut buffer, columns, MIDDLE, Part::Bars)?;
    push_rows(&mut text, &mut buffer, columns, rows)?;
    push_line(&mut text, &mut buffer, columns, BOTTOM, Part::Bars)?;
    push_count(&mut text, rows.len())?;
    Ok(text.into_bytes())
}

fn push_rows(
    text: &mut String,
    buffer: &mut String,
    columns: &[Column<'_>],
    rows: &Rows,
) -> Result<(), AllocError>
    ensures { OnOk result (string_bytes text.new ≡ string_bytes text.old
        ++ text_of (map (λ row. line 0x2502 0x2502 0x2502 (value_part row) columns.now) rows.now)) }
{
    for i in 0..rows.len() {
        let row = rows.row(i);
        push_line(text, buffer, columns, SIDES, Part::Cell(&row))?;
    }
    Ok(())
}

// Appends a line, with its end.
fn push_line(
    text: &mut String,
    buffer: &mut String,
    columns: &[Column<'_>],
    marks: Marks,
    part: Part<'_>,
) -> Result<(), AllocError>
    ensures { OnOk result (string_bytes text.new ≡ string_bytes text.old
        ++ (encode_utf8_all (line marks.left marks.between marks.right (part_of part.entry) columns.now) ++ codes "\n")) }
{
    let mut mark = marks.left;
    for column in columns {
        text.push(mark)?;
        push_part(text, buffer, column, part)?;
        mark = marks.between;
    }
    text.push(marks.right)?;
    text.push('\n')?;
    Ok(())
}

fn push_part(
    text: &mut String,
    buffer: &mut String,
    column: &Column<'_>,
    part: Part<'_>,
) -> Result<(), AllocError>
    ensures { OnOk result (string_bytes text.new ≡ string_bytes text.old ++ encode_utf8_all (part_of part.entry column.now)) }
{
    match part {
        Part::Bars => push_bars(text, column.width),
        Part::Name => {
            show_text(buffer, column.name.as_str())?;
            push_aligned(text, buffer, column.is_numeric, column.width)
        }
        Part::Cell(row) => {
            let cell = cell_at(row, column.place);
            show(buffer, cell)?;
            push_aligned(text, buffer, is_right(column, cell), column.width)
        }
    }
}

fn push_bars(text: &mut String, width: usize) -> Result<(), AllocError>
    ensures { OnOk result (string_bytes text.new ≡ string_bytes text.old ++ encode_utf8_all (replicate (width + 2) 0x2500)) }
{
    push_repeated(text, '─', width)?;
    push_repeated(text, '─', 2)?;
    Ok(())
}

fn is_right(column: &Column<'_>, cell: CellRef<'_>) -> bool
    ensures { result ≡ is_right column.now (value_of cell.entry) }
{
    match cell {
        CellRef::Null => column.is_numeric,
        CellRef::Int(_) => true,
        CellRef::Text(_) | CellRef::NoCase(_) => false,
    }
}

// Appends the buffer's text in a column of this width.
fn push_aligned(
    text: &mut String,
    buffer: &String,
    right: bool,
    width: usize,
) -> Result<(), AllocError>
    ensures { (shown : List ℕ) → string_bytes buffer.now ≡ encode_utf8_all shown
        → OnOk result (string_bytes text.new ≡ string_bytes text.old ++ encode_utf8_all (aligned right width shown)) }
{
    let blanks = width.saturating_sub(width_of(buffer));
    if right {
        push_right(text, buffer, blanks)
    } else {
        push_left(text, buffer, blanks)
    }
}

fn push_right(text: &mut String, buffer: &String, blanks: usize) -> Result<(), AllocError>
    ensures { (shown : List ℕ) → string_bytes buffer.now ≡ encode_utf8_all shown
        → OnOk result (string_bytes text.new ≡ string_bytes text.old ++ encode_utf8_all (32 ∷ replicate blanks 32 ++ shown ++ 32 ∷ [])) }
{
    text.push(' ')?;
    push_repeated(text, ' ', blanks)?;
    text.push_str(buffer.as_str())?;
    text.push(' ')?;
    Ok(())
}

fn push_left(text: &mut String, buffer: &String, blanks: usize) -> Result<(), AllocError>
    ensures { (shown : List ℕ) → string_bytes buffer.now ≡ encode_utf8_all shown
        → OnOk result (string_bytes text.new ≡ string_bytes text.old ++ encode_utf8_all (32 ∷ shown ++ replicate blanks 32 ++ 32 ∷ [])) }
{
    text.push(' ')?;
    text.push_str(buffer.as_str())?;
    push_repeated(text, ' ', blanks)?;
    text.push(' ')?;
    Ok(())
}

fn push_count(text: &mut String, rows: usize) -> Result<(), AllocError>
    ensures { OnOk result (string_bytes text.new ≡ string_bytes text.old ++ count_text rows) }
{
    let mut digits = Buffer::new();
    text.push('(')?;
    text.push_str(digits.format(rows))?;
    text.push_str(if rows == 1 { " row)\n" } else { " rows)\n" })
}
