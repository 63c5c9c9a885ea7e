//! Payloads as rows.
//!
//! One UTF-8 byte-order mark at the start is dropped. Two bounds of the limits are kept: the bytes of a
//! text, and the number of data records, equal keys or not. Faults come in this order: the header; in
//! the first faulty record the number of its fields, its fields in the payload's order, and null in a
//! key column; too many records.
ghost use Rattle.std.specs.Prelude.{◌≡◌, IfOk, IfSome};
ghost use Rattle.gq_load.specs.Answers.{Gives};
ghost use Rattle.gq_load.specs.Coming.{refusal_in};
ghost use Rattle.gq_load.specs.Fitting.{AreFit};
ghost use Rattle.gq_load.specs.Payloads.{load};

use crate::load_refusal::LoadRefusal;
use crate::row_fault::RowFault;
use crate::row_reader::RowReader;
use crate::short_records::Short;
use gq_row::{Limits, Row, Schema, Sequence, line_ends};
use std::alloc::Global;

/// The rows of a payload for a table of this schema, in the order of its records, or its first fault.
/// `Memory` may be returned instead.
pub fn load_rows(
    alloc: Global,
    bytes: &[u8],
    schema: &Schema,
    limits: &Limits,
) -> Result<Sequence<Row>, LoadRefusal>
    ensures loads { Gives (λ rows. rows) result (load Short.Refused schema.now limits.now.bounds bytes.now) }
    ensures fit { IfOk result (λ rows. AreFit schema.now limits.now.bounds rows) }
{
    let mut reader = match RowReader::new(alloc, bytes, Short::Refused, schema, limits) {
        Ok(reader) => reader,
        Err(fault) => return Err(refusal_of(fault)),
    };
    // A record takes a line at least.
    let room = line_ends(bytes).min(limits.bounds.rows);
    rows_of(alloc, room, &mut reader)
}

/// All rows that are yet to come, in a list that has room for `room` rows from the start.
fn rows_of(
    alloc: Global,
    room: usize,
    reader: &mut RowReader<'_, &[u8]>,
) -> Result<Sequence<Row>, LoadRefusal>
    ensures { IfSome reader.old.rows (λ read. Gives (λ rows. rows) result read) }
{
    let mut rows = Vec::with_capacity(alloc, room)?;
    for _ in 0..u64::MAX {
        let mut row = Row::new(Vec::new(alloc));
        match reader.read(&mut row) {
            Ok(true) => rows.push(row)?,
            Ok(false) => return Ok(Sequence::new(rows)),
            Err(fault) => return Err(refusal_of(fault)),
        }
    }
    Err(LoadRefusal::Memory)
}

/// The refusal for a fault. A read of bytes in memory fails only if memory runs out.
fn refusal_of(fault: RowFault) -> LoadRefusal
    ensures { result ≡ refusal_in fault }
{
    match fault {
        RowFault::Refused(why) => why,
        RowFault::Read => LoadRefusal::Memory,
    }
}
