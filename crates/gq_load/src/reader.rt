//! The records of a payload, one after the other.
ghost use Rattle.std.specs.Prelude.{◌≡◌, Some, IfOk, IfErr, IfSome};
ghost use Rattle.csv.specs.Reading.{records, default_config, strip_bom};
ghost use Rattle.gq_csv.specs.Records.{Took};
ghost use Rattle.gq_load.specs.Coming.{Faulted};

use crate::load_refusal::LoadRefusal;
use crate::row_fault::RowFault;
use gq_csv::{ReadError, RecordReader};
use std::alloc::Global;
use std::io::Read;

/// A reader of a payload's records, the header among them.
pub(crate) fn payload_reader<R: Read + Drop>(
    alloc: Global,
    payload: R,
) -> Result<RecordReader<R>, RowFault>
    ensures rest { IfOk result (λ reader. IfSome (R.remaining payload) (λ bytes.
        reader.rest ≡ Some (records default_config (strip_bom bytes)))) }
    ensures fault { IfErr result (λ fault. Faulted (λ _. ⊥) fault) }
{
    match RecordReader::new(alloc, payload) {
        Ok(reader) => Ok(reader),
        Err(error) => Err(read_fault(error)),
    }
}

/// Reads the next record, and returns whether there was one.
#[inline(always)]
pub(crate) fn read_next<R: Read>(reader: &mut RecordReader<R>) -> Result<bool, RowFault>
    ensures took { IfOk result (λ found. Took reader.old.rest found reader.new.fields reader.new.rest) }
    ensures fault { IfErr result (λ fault. Faulted (λ _. ⊥) fault) }
{
    match reader.read() {
        Ok(found) => Ok(found),
        Err(error) => Err(read_fault(error)),
    }
}

// Why no record was read, as a fault.
fn read_fault(error: ReadError) -> RowFault
    ensures { Faulted (λ _. ⊥) result }
{
    match error {
        ReadError::Memory => RowFault::Refused(LoadRefusal::Memory),
        ReadError::Source => RowFault::Read,
    }
}
