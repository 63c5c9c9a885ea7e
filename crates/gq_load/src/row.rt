//! Data records as rows.
ghost use Rattle.std.specs.Prelude.{◌≡◌, ◌≤◌, ◌==◌, OnOk, length, slice_index_or};
ghost use Rattle.gq_load.specs.Answers.{Gives};
ghost use Rattle.gq_load.specs.Fields.{null_field};
ghost use Rattle.gq_load.specs.Payloads.{cells_of, completed, row_of};

use crate::field::{NULL, write_plain, write_value};
use crate::load_refusal::LoadRefusal;
use crate::row_format::RowFormat;
use crate::short_records::Short;
use gq_csv::Record;
use gq_row::{Row, Value};
use std::alloc::{AllocError, Global};
use std::mem;

/// Overwrites `row` with the row of the data record with this number. On error what it holds is unspecified.
#[tactic(auto, unfolding(crate::specs::Payloads::row_of, crate::specs::Payloads::keyed))]
#[inline(always)]
pub(crate) fn write_row(
    alloc: Global,
    format: &RowFormat<'_>,
    number: u64,
    byte_record: &Record<'_>,
    row: &mut Row,
) -> Result<(), LoadRefusal>
    requires { length format.now.header ≡ length format.now.schema.now.columns }
    ensures { Gives (λ _. row.new) result
        (row_of format.now.schema.now format.now.limits.now.bounds.text format.now.header number
        (completed format.now.short (length format.now.header) byte_record.now)) }
{
    let places = format.header.places();
    if !is_whole(format.short, places.len(), byte_record) {
        return Err(LoadRefusal::FieldCount(number));
    }
    let columns = format.schema.columns();
    if row.len() != columns.len() {
        fit_row(alloc, row, columns.len())?;
    }
    write_cells(alloc, format, number, byte_record, row.cells_mut())?;
    if row.has_null(format.schema.key()) {
        Err(LoadRefusal::NullKey(number))
    } else {
        Ok(())
    }
}

/// Whether a record has a field for each of the header's, once it is completed.
#[inline(always)]
fn is_whole(short: Short, count: usize, byte_record: &Record<'_>) -> bool
    ensures { result ≡ (length (completed short count byte_record.now) == count) }
{
    if byte_record.len() == count {
        return true;
    }
    match short {
        Short::Refused => false,
        Short::Completed => byte_record.len() < count,
    }
}

/// Overwrites `cells` with the values of a record's fields, each in its column's place; null if the record has
/// no such field. A header names all columns, so each cell is overwritten. Most records have all fields, and for
/// these the compiler then leaves out that question for each field.
#[inline(always)]
fn write_cells(
    alloc: Global,
    format: &RowFormat<'_>,
    number: u64,
    byte_record: &Record<'_>,
    cells: &mut [Value],
) -> Result<(), LoadRefusal>
    requires whole { length format.now.header ≡ length format.now.schema.now.columns }
    requires count { length byte_record.now ≤ length format.now.header }
    requires size { length cells.old ≡ length format.now.schema.now.columns }
    ensures { Gives (λ _. cells.new) result
        (cells_of format.now.limits.now.bounds.text number format.now.schema.now.columns
        format.now.header
        (completed Short.Completed (length format.now.header) byte_record.now)) }
{
    if byte_record.len() == format.header.places().len() {
        write_each(alloc, format, number, byte_record, cells)
    } else {
        write_short(alloc, format, number, byte_record, cells)
    }
}

// The same of a record that has fewer fields than the header.
#[cold]
fn write_short(
    alloc: Global,
    format: &RowFormat<'_>,
    number: u64,
    byte_record: &Record<'_>,
    cells: &mut [Value],
) -> Result<(), LoadRefusal>
    requires whole { length format.now.header ≡ length format.now.schema.now.columns }
    requires count { length byte_record.now ≤ length format.now.header }
    requires size { length cells.old ≡ length format.now.schema.now.columns }
    ensures { Gives (λ _. cells.new) result
        (cells_of format.now.limits.now.bounds.text number format.now.schema.now.columns
        format.now.header
        (completed Short.Completed (length format.now.header) byte_record.now)) }
{
    write_each(alloc, format, number, byte_record, cells)
}

// The same, field by field.
#[inline(always)]
fn write_each(
    alloc: Global,
    format: &RowFormat<'_>,
    number: u64,
    byte_record: &Record<'_>,
    cells: &mut [Value],
) -> Result<(), LoadRefusal>
    requires whole { length format.now.header ≡ length format.now.schema.now.columns }
    requires count { length byte_record.now ≤ length format.now.header }
    requires size { length cells.old ≡ length format.now.schema.now.columns }
    ensures { Gives (λ _. cells.new) result
        (cells_of format.now.limits.now.bounds.text number format.now.schema.now.columns
        format.now.header
        (completed Short.Completed (length format.now.header) byte_record.now)) }
{
    let columns = format.schema.columns();
    let places = format.header.places();
    let longest = format.limits.bounds.text;
    for i in 0..places.len() {
        let place = places[i];
        let kind = columns[place].kind;
        let field = field_or_null(byte_record, i);
        if !write_plain(alloc, longest, kind, field, &mut cells[place]) {
            write_value(alloc, longest, number, kind, field, &mut cells[place])?;
        }
    }
    Ok(())
}

/// A field of a record; the null field if the record has no such field.
#[inline(always)]
fn field_or_null<'a>(byte_record: &'a Record<'_>, i: usize) -> &'a [u8]
    ensures { result.now ≡ slice_index_or byte_record.now i null_field }
{
    match byte_record.get(i) {
        Some(field) => field,
        None => NULL,
    }
}

// Resizes a row; its values are unspecified.
#[cold]
fn fit_row(alloc: Global, row: &mut Row, width: usize) -> Result<(), AllocError>
    ensures { OnOk result (length row.new ≡ width) }
{
    let mut cells = mem::replace(row, Row::new(Vec::new(alloc))).into_cells();
    cells.resize_with(width, || Value::Null)?;
    *row = Row::new(cells);
    Ok(())
}
