//! What the fields of columns are, in one pass over a file's records.
ghost use Rattle.std.specs.Prelude.{◌≡◌, Some, IfOk, IfErr, IfSome, OnOk, length, map};
ghost use Rattle.csv.specs.Records.{field_at};
ghost use Rattle.gq_csv.specs.Records.{Took};
ghost use Rattle.gq_infer.specs.Files.{IsFailure, place_of, records_of};
ghost use Rattle.gq_infer.specs.Guesses.{WithFirst};
ghost use Rattle.gq_infer.specs.Scanning.{with_record, with_records, with_some};

use crate::fault::InferFault;
use crate::header::places_of;
use crate::seen::{Seen, with_field};
use gq_csv::{ReadError, Record, RecordReader};
use gq_row::Text;
use std::alloc::Global;
use std::io::Read;

/// A reader of the records of a file.
pub(crate) fn file_reader<R: Read + Drop>(
    alloc: Global,
    text: R,
) -> Result<RecordReader<R>, InferFault>
    ensures rest { IfOk result (λ reader. IfSome (R.remaining text) (λ file.
        reader.rest ≡ Some (records_of file))) }
    ensures failed { IfErr result (λ why. IsFailure why) }
{
    match RecordReader::new(alloc, text) {
        Ok(reader) => Ok(reader),
        Err(error) => Err(read_fault(error)),
    }
}

/// Reads the next record, and returns whether there was one.
pub(crate) fn read_record<R: Read>(reader: &mut RecordReader<R>) -> Result<bool, InferFault>
    ensures took { IfOk result (λ found. Took reader.old.rest found reader.new.fields reader.new.rest) }
    ensures failed { IfErr result (λ why. IsFailure why) }
{
    match reader.read() {
        Ok(found) => Ok(found),
        Err(error) => Err(read_fault(error)),
    }
}

// Why no record was read, as a fault.
fn read_fault(error: ReadError) -> InferFault
    ensures { IsFailure result }
{
    match error {
        ReadError::Memory => InferFault::Memory,
        ReadError::Source => InferFault::Read,
    }
}

/// Reads the records after a header, which was read last, and updates what the fields of each column
/// are.
pub(crate) fn read_fields<R: Read>(
    alloc: Global,
    names: &[Text],
    reader: &mut RecordReader<R>,
    seen: &mut [Seen],
) -> Result<(), InferFault>
    requires { length names.now ≡ length seen.old }
    ensures seen { OnOk result (IfSome reader.old.rest (λ records.
        seen.new ≡ with_records records
        (map (λ name. place_of reader.old.fields name) names.now) seen.old)) }
    ensures failed { IfErr result (λ why. IsFailure why) }
{
    let places = places_of(alloc, names, &reader.record())?;
    read_records(reader, places.as_slice(), seen)
}

fn read_records<R: Read>(
    reader: &mut RecordReader<R>,
    places: &[usize],
    seen: &mut [Seen],
) -> Result<(), InferFault>
    requires { length places.now ≡ length seen.old }
    ensures seen { OnOk result (IfSome reader.old.rest (λ records.
        seen.new ≡ with_records records places.now seen.old)) }
    ensures failed { IfErr result (λ why. IsFailure why) }
{
    for _ in 0..u64::MAX {
        if !read_record(reader)? {
            return Ok(());
        }
        add_record(&reader.record(), places, seen);
    }
    Err(InferFault::Read)
}

/// The same of at most `most` records.
pub(crate) fn read_first_fields<R: Read>(
    alloc: Global,
    names: &[Text],
    reader: &mut RecordReader<R>,
    seen: &mut [Seen],
    most: u64,
) -> Result<(), InferFault>
    requires { length names.now ≡ length seen.old }
    ensures seen { OnOk result (IfSome reader.old.rest (λ records.
        WithFirst records (map (λ name. place_of reader.old.fields name) names.now)
        seen.old seen.new)) }
{
    let places = places_of(alloc, names, &reader.record())?;
    read_first_records(reader, places.as_slice(), seen, most)
}

fn read_first_records<R: Read>(
    reader: &mut RecordReader<R>,
    places: &[usize],
    seen: &mut [Seen],
    most: u64,
) -> Result<(), InferFault>
    requires { length places.now ≡ length seen.old }
    ensures seen { OnOk result (IfSome reader.old.rest (λ records.
        WithFirst records places.now seen.old seen.new)) }
{
    for _ in 0..most {
        if !read_record(reader)? {
            return Ok(());
        }
        add_record(&reader.record(), places, seen);
    }
    Ok(())
}

fn add_record(record: &Record<'_>, places: &[usize], seen: &mut [Seen])
    requires { length places.now ≡ length seen.old }
    ensures { seen.new ≡ with_record record.now places.now seen.old }
{
    for i in 0..places.len() {
        seen[i] = with_field_at(seen[i], record, places[i]);
    }
}

/// What the fields of a column are with its field in one more record, which may lack it. One that is
/// of texts already isn't looked at.
fn with_field_at(seen: Seen, record: &Record<'_>, place: usize) -> Seen
    ensures { result ≡ with_some seen (field_at record.now place) }
{
    if seen == Seen::Texts {
        return seen;
    }
    match record.get(place) {
        Some(field) => with_field(seen, field),
        None => seen,
    }
}
