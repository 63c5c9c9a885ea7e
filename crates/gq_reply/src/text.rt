//! The text of replies, rows as CSV records.
ghost use Rattle.std.specs.Prelude.{◌≡◌, ◌++◌, [], IfOk, OnOk};
ghost use Rattle.gq_reply.specs.Replies.{text, records_text};

use crate::bare::block_end;
use crate::buffer::Buffer;
use crate::records::{push_block, push_names, push_rows};
use crate::reply::Reply;
use crate::reply_line::{accepted_line, line_of};
use crate::sending::WriteFault;
use gq_cells::Rows;
use gq_row::{Sequence, Text};
use std::alloc::{AllocError, Global};

/// The bytes of a reply; each line ends with LF.
pub fn reply_text(alloc: Global, reply: &Reply) -> Result<Vec<u8>, AllocError>
    ensures { IfOk result (λ bytes. bytes.items ≡ text reply.now) }
{
    match reply {
        Reply::Done(_) => Vec::from_slice(alloc, line_of(reply).as_slice()),
        Reply::Rows { header, rows } => rows_text(alloc, &mut Buffer::new(), header, rows),
        Reply::Refused { code: _, number: _ } => Vec::from_slice(alloc, line_of(reply).as_slice()),
    }
}

/// The text of a query's reply: `ok` with the number of rows, the header, and the rows. The bytes of `buffer` are lost.
pub fn rows_text(
    alloc: Global,
    buffer: &mut Buffer,
    header: &Sequence<Text>,
    rows: &Rows,
) -> Result<Vec<u8>, AllocError>
    ensures { IfOk result (λ bytes. bytes.items ≡ text (Reply.Rows header.now rows.now)) }
{
    let head = accepted_line(rows.len() as u64);
    with_records(
        buffer,
        Vec::from_slice(alloc, head.as_slice())?,
        header,
        rows,
    )
}

/// The header and the rows of a query as CSV records: the text of its reply after the line `ok`.
pub fn records_text(
    alloc: Global,
    header: &Sequence<Text>,
    rows: &Rows,
) -> Result<Vec<u8>, AllocError>
    ensures { IfOk result (λ bytes. bytes.items ≡ records_text header.now rows.now) }
{
    with_records(&mut Buffer::new(), Vec::new(alloc), header, rows)
}

// Appends the records of the header and of the rows.
fn with_records(
    buffer: &mut Buffer,
    front: Vec<u8>,
    header: &Sequence<Text>,
    rows: &Rows,
) -> Result<Vec<u8>, AllocError>
    ensures { IfOk result (λ bytes. bytes.items ≡ front.items ++ records_text header.now rows.now) }
{
    let mut text = front;
    match append_records(buffer, &mut text, header, rows) {
        Ok(()) => Ok(text),
        Err(WriteFault) => Err(AllocError),
    }
}

// The same in place. The only fault of a vector is that an allocation failed.
fn append_records(
    buffer: &mut Buffer,
    text: &mut Vec<u8>,
    header: &Sequence<Text>,
    rows: &Rows,
) -> Result<(), WriteFault>
    ensures { OnOk result (text.new.items ≡ text.old.items ++ records_text header.now rows.now) }
{
    buffer.clear();
    push_names(buffer, text, header.as_slice())?;
    let first = block_end(0, rows.len());
    push_block(buffer, text, rows, 0, first)?;
    make_room(text, buffer.len(), first, rows.len());
    push_rows(buffer, text, rows, first)?;
    buffer.empty(text)
}

// Reserves room for all rows, if memory allows, in the proportion of those that are written. A text that doubles
// is copied, or its pages are moved.
fn make_room(text: &mut Vec<u8>, waiting: usize, written: usize, rows: usize)
    ensures { text.new.items ≡ text.old.items }
{
    let each = text.len().saturating_add(waiting) / written.max(1);
    let _ = text.reserve(each.saturating_mul(rows));
}
