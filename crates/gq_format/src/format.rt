//! The formats, and the text of a result in each.
ghost use Rattle.std.specs.Prelude.{◌≡◌, IfOk};
ghost use Rattle.gq_format.specs.Formats.{result_text, separator_of};

use crate::boxes::box_text;
use crate::objects::json_text;
use gq_cells::Rows;
use gq_reply::records_text;
use gq_row::{Sequence, Text};
use std::alloc::{AllocError, Global};

/// A format for results.
#[derive(Clone, Copy, Debug, PartialEq, Eq)]
pub enum Format {
    /// The header and the rows as CSV records.
    Csv,
    /// A JSON object for each row, on a line of its own.
    Json,
    /// A box of columns, for people.
    Box,
}

/// The text of a result in a format. The only error is that an allocation failed.
pub fn result_text(
    alloc: Global,
    format: Format,
    header: &Sequence<Text>,
    rows: &Rows,
) -> Result<Vec<u8>, AllocError>
    ensures { IfOk result (λ bytes. bytes.items ≡ result_text format header.now rows.now) }
{
    match format {
        Format::Csv => records_text(alloc, header, rows),
        Format::Json => json_text(alloc, header, rows),
        Format::Box => box_text(alloc, header, rows),
    }
}

/// What comes between two results: an empty line, or nothing between lines of JSON.
pub fn separator(format: Format) -> &'static [u8]
    ensures { result.now ≡ separator_of format }
{
    match format {
        Format::Csv | Format::Box => b"\n",
        Format::Json => b"",
    }
}
