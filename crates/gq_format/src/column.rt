//! The columns of a box.
ghost use Rattle.std.specs.Prelude.{◌≡◌, IfOk, length};
ghost use Rattle.gq_cells.specs.Cells.{value_of};
ghost use Rattle.gq_row.specs.Rows.{cell};
ghost use Rattle.gq_format.specs.Columns.{column_of, columns_of, is_number};

use crate::shown::{show, show_text, width_of};
use gq_cells::{CellRef, RowRef, Rows};
use gq_row::Text;
use std::alloc::{AllocError, Global};
use std::marker::Model;

// A column of a box.
#[derive(Drop)]
pub(crate) struct Column<'a> {
    pub(crate) name: &'a Text,
    pub(crate) place: usize,
    // The width of its widest text.
    pub(crate) width: usize,
    pub(crate) is_numeric: bool,
}

impl<'a> Model for Column<'a> {
    ghost use Rattle.gq_format.specs.Columns.{Column as BoxColumn};

    ghost Value = { BoxColumn };

    ghost view = { λ c. record { name = c.name.now; place = c.place; width = c.width; is_numeric = c.is_numeric } };
}

pub(crate) fn columns_of<'a>(
    alloc: Global,
    header: &'a [Text],
    rows: &Rows,
) -> Result<Vec<Column<'a>>, AllocError>
    ensures { IfOk result (λ columns. columns.items ≡ columns_of header.now rows.now) }
{
    let mut columns = Vec::new(alloc);
    let mut buffer = String::new(alloc);
    for (place, name) in header.iter().enumerate() {
        columns.push(column_of(&mut buffer, name, place, rows)?)?;
    }
    Ok(columns)
}

fn column_of<'a>(
    buffer: &mut String,
    name: &'a Text,
    place: usize,
    rows: &Rows,
) -> Result<Column<'a>, AllocError>
    ensures { IfOk result (λ column. column ≡ column_of rows.now (place, name.now)) }
{
    show_text(buffer, name.as_str())?;
    let mut width = width_of(buffer);
    let mut is_numeric = false;
    for i in 0..rows.len() {
        let cell = cell_at(&rows.row(i), place);
        is_numeric = is_numeric || is_number(cell);
        show(buffer, cell)?;
        width = width.max(width_of(buffer));
    }
    Ok(Column {
        name,
        place,
        width,
        is_numeric,
    })
}

// The value at a position of a row. A row that is too short has null there.
pub(crate) fn cell_at<'a>(row: &RowRef<'a>, place: usize) -> CellRef<'a>
    ensures { value_of result ≡ cell row.now place }
{
    if place < row.len() {
        row.cell(place)
    } else {
        CellRef::Null
    }
}

fn is_number(cell: CellRef<'_>) -> bool
    ensures { result ≡ is_number (value_of cell.entry) }
{
    match cell {
        CellRef::Int(_) => true,
        CellRef::Null | CellRef::Text(_) | CellRef::NoCase(_) => false,
    }
}
