//! The rows that a load's payload gives, in a table of their own, or the refusal that its first
//! fault is.
ghost use Rattle.std.specs.Prelude.{◌≡◌, ◌⊎◌, [], Err, IfOk, IfErr, IfSome, OnOk, IsTrue, false, option_map};
ghost use Rattle.gq_row.specs.Fitting.{fits_columns, has_null};
ghost use Rattle.gq_table.specs.Changes.{IsPut};
ghost use Rattle.gq_table.specs.Refusing.{WhyNotPut};
ghost use Rattle.gq_reply.specs.Refusals.{unnumbered};
ghost use Rattle.gq_reply.specs.declared.refusal.Refusal.TheVariants.{Memory};
ghost use Rattle.gq_command.specs.declared.command.Payload.TheVariants as payload;
ghost use Rattle.gq_engine.specs.Loading.{IsTold, payload_bytes, fault_refusal, is_lost, numbered, refused_by, csv_rows};
ghost use Rattle.gq_engine.specs.Staging.{HasStaged, IsStagedFor, IsStagedFrom};
ghost use Rattle.gq_engine.specs.Steps.{load_table};

use crate::catalog::Catalog;
use crate::csv_fault::{CsvFault, fault_of_text, refused_in};
use gq_command::Payload;
use gq_load::{LoadRefusal, RowReader, Short};
use gq_reply::{Refusal, Refused};
use gq_row::{Key, Limits, Row, Schema, Sequence, line_ends};
use gq_table::{Table, TableRefusal};
use std::alloc::Global;
use std::io::Read;
use sw_index::expects_new_keys;
use sw_probe::KeyHash;

// With fewer rows, a column of numbers has less than a megabyte.
const MANY_ROWS: u64 = 1 << 17;

// Whether there was no memory for a payload.
fn is_lost(payload: &Payload) -> bool
    ensures { result ≡ is_lost payload.now }
{
    matches!(payload, Payload::NoMemory)
}

// The bytes of a payload, or why there are none.
fn bytes_of(payload: Payload) -> Result<Sequence<u8>, Refused>
    ensures { result ≡ payload_bytes payload }
{
    match payload {
        Payload::Bytes(bytes) => Ok(bytes),
        Payload::Open => Err(Refused::from(Refusal::LoadOpen)),
        Payload::TooLong => Err(Refused::from(Refusal::Limit)),
        Payload::NoMemory => Err(Refused::from(Refusal::Memory)),
    }
}

/// Stages the rows of a payload for the table of a name: puts them into a table of their own, and
/// returns it with their number; or the refusal of the load.
pub fn stage_for<H: KeyHash<Key> + Copy>(
    alloc: Global,
    catalog: &Catalog<H>,
    name: &str,
    payload: Payload,
    limits: &Limits,
) -> Result<(Table<H>, u64), Refused>
    ensures staged { IfOk result (λ staged. IsStagedFor limits.now.bounds catalog.now name.now payload
        staged.0 staged.1) }
    ensures refused { IfErr result (λ why. (why ≡ unnumbered Memory)
        ⊎ (load_table Short.Refused limits.now.bounds catalog.now name.now payload ≡ Err why)) }
{
    if is_lost(&payload) {
        return Err(Refused::from(Refusal::Memory));
    }
    let table = catalog.get(name).ok_or(Refusal::NoTable)?;
    let bytes = bytes_of(payload)?;
    // A record takes a line at least.
    let lines = line_ends(bytes.as_slice()).min(limits.bounds.rows);
    match stage(
        alloc,
        bytes.as_slice(),
        Short::Refused,
        lines,
        table,
        limits,
    ) {
        Ok(staged) => Ok(staged),
        Err(fault) => Err(refused_in(fault)),
    }
}

/// The same of a CSV text, from any reader.
pub fn stage_text<H: KeyHash<Key> + Copy, R: Read + Drop>(
    alloc: Global,
    catalog: &Catalog<H>,
    name: &str,
    text: R,
    short: Short,
    limits: &Limits,
) -> Result<(Table<H>, u64), CsvFault>
    ensures staged { IfOk result (λ staged. IsStagedFrom short limits.now.bounds catalog.now name.now
        (R.remaining text) staged.0 staged.1) }
    ensures fault { IfErr result (λ fault. IsTold (option_map (λ bytes.
        load_table short limits.now.bounds catalog.now name.now (payload.Bytes bytes)) (R.remaining text)) fault) }
{
    match catalog.get(name) {
        Some(table) => stage(alloc, text, short, 0, table, limits),
        None => Err(CsvFault::Refused(Refused::from(Refusal::NoTable))),
    }
}

// The rows of a text, put into a table of their own, and their number; or the first fault. `lines` is
// the text's number of lines, or 0 if that is unknown.
fn stage<H: KeyHash<Key> + Copy, R: Read + Drop>(
    alloc: Global,
    text: R,
    short: Short,
    lines: usize,
    table: &Table<H>,
    limits: &Limits,
) -> Result<(Table<H>, u64), CsvFault>
    ensures staged { IfOk result (λ staged. HasStaged (option_map
        (csv_rows short limits.now.bounds table.now.schema) (R.remaining text))
        table.now.schema staged.0 staged.1) }
    ensures fault { IfErr result (λ fault. IsTold (option_map
        (csv_rows short limits.now.bounds table.now.schema) (R.remaining text)) fault) }
{
    // It grows as keys come, as records may share theirs: rows that lie close are found faster.
    let Ok(mut staged) = table.new_like() else {
        return Err(CsvFault::Refused(Refused::from(Refusal::Memory)));
    };
    let mut reader = match RowReader::new(alloc, text, short, table.schema(), limits) {
        Ok(reader) => reader,
        Err(fault) => return Err(fault_of_text(fault)),
    };
    match stage_rows(alloc, &mut reader, &mut staged, lines, limits) {
        Ok(count) => Ok((staged, count)),
        Err(fault) => Err(fault),
    }
}

// Makes room for all lines of a payload if their rows are expected to have new keys, or for more rows if its
// lines weren't counted. If there is no memory for that, the table grows on its own.
#[cold]
fn make_room<H: KeyHash<Key> + Copy>(staged: &mut Table<H>, count: u64, lines: usize)
    ensures { staged.new ≡ staged.old }
{
    if lines == 0 {
        return grow_columns(staged, count);
    }
    if 4_096 <= count && expects_new_keys(count, staged.len() as u64, lines as u64) {
        let _ = staged.reserve(lines);
    }
}

// Reserves room for eight times the rows at each third power of two, so that most pages of the columns are
// large ones. Pages that are never written take addresses alone.
fn grow_columns<H: KeyHash<Key> + Copy>(staged: &mut Table<H>, count: u64)
    ensures { staged.new ≡ staged.old }
{
    if count < MANY_ROWS || !staged.schema().key().is_empty() {
        return;
    }
    if count.trailing_zeros() % 3 == MANY_ROWS.trailing_zeros() % 3 {
        let _ = staged.reserve(count.saturating_mul(8) as usize);
    }
}

// Puts the row of the record at this index, of a payload with this number of lines.
#[inline]
fn put_row<H: KeyHash<Key> + Copy>(
    staged: &mut Table<H>,
    row: &mut Row,
    count: u64,
    lines: usize,
    limits: &Limits,
) -> Result<(), TableRefusal>
    requires fits { IsTrue (fits_columns staged.old.schema.columns row.old) }
    requires keyed { has_null staged.old.schema.key row.old ≡ false }
    ensures put { OnOk result (IsPut staged.old row.old staged.new) }
    ensures refused { IfErr result (WhyNotPut limits.now.bounds staged.old row.old) }
{
    staged.put(row, limits)?;
    if count.is_power_of_two() {
        make_room(staged, count, lines);
    }
    Ok(())
}

// Puts the remaining rows, and returns their number. They are within the limit, so a row is refused
// only if an allocation fails. The memory of a replaced or moved row is used for the next row.
fn stage_rows<H: KeyHash<Key> + Copy, R: Read + Drop>(
    alloc: Global,
    reader: &mut RowReader<'_, R>,
    staged: &mut Table<H>,
    lines: usize,
    limits: &Limits,
) -> Result<u64, CsvFault>
    requires schema { reader.old.schema ≡ staged.old.schema }
    requires empty { staged.old.rows ≡ [] }
    ensures staged { IfOk result (λ count.
        HasStaged (option_map refused_by reader.old.rows) staged.old.schema staged.new count) }
    ensures fault { IfErr result (λ fault. IsTold (option_map refused_by reader.old.rows) fault) }
{
    let mut row = Row::new(Vec::new(alloc));
    for count in 0..u64::MAX {
        match reader.read(&mut row) {
            Err(fault) => return Err(fault_of_text(fault)),
            Ok(false) => return Ok(count),
            Ok(true) => {
                if put_row(staged, &mut row, count, lines, limits).is_err() {
                    return Err(CsvFault::Refused(Refused::from(Refusal::Memory)));
                }
            }
        }
    }
    Err(CsvFault::Refused(Refused::from(Refusal::Memory)))
}

// The refusal for a payload's fault, with the number of the faulty record where there is one.
pub(crate) fn refused_by(fault: LoadRefusal) -> Refused
    ensures { result ≡ fault_refusal fault }
{
    match fault {
        LoadRefusal::NullKey(number) => in_record(Refusal::NullKey, number),
        LoadRefusal::Header => Refused::from(Refusal::Header),
        LoadRefusal::FieldCount(number) => in_record(Refusal::FieldCount, number),
        LoadRefusal::BadInt(number) => in_record(Refusal::BadInt, number),
        LoadRefusal::BadText(number) => in_record(Refusal::BadText, number),
        LoadRefusal::Limit => Refused::from(Refusal::Limit),
        LoadRefusal::Memory => Refused::from(Refusal::Memory),
    }
}

fn in_record(why: Refusal, number: u64) -> Refused
    ensures { result ≡ numbered why number }
{
    Refused {
        why,
        number: Some(number),
    }
}
