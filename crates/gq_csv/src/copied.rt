//! A record that is copied: special bytes go through the state machine, and those between them at once.
ghost use Rattle.std.specs.Prelude.{◌≡◌, ◌<◌, ◌++◌, true, false, IfOk, OnOk, length, take, drop};
ghost use Rattle.std.specs.Io.KnownBytes.{IsAtEnd, Keeps};
ghost use Rattle.std.specs.List.{position_or_len};
ghost use Rattle.gq_csv.specs.Bytes.{is_special};
ghost use Rattle.gq_csv.specs.Inputs.{known};
ghost use Rattle.gq_csv.specs.Reads.{EndsAs, Gave, Reads};

use crate::find::find_special;
use crate::input::Input;
use crate::read_error::ReadError;
use crate::record::Record;
use crate::span::FieldSpan;
use crate::state::{State, Step, ends_record, next_step};
use std::alloc::Global;
use std::io::Read;
use std::marker::Model;

/// A record that is copied. Seen as the fields that ended, and the bytes of the next one so
/// far.
#[derive(Drop)]
pub(crate) struct CopiedRecord {
    bytes: Vec<u8>,
    spans: Vec<FieldSpan>,
    start: usize,
}

impl Model for CopiedRecord {
    ghost use Rattle.std.specs.Prelude.{◌≤◌, drop, length};
    ghost use Rattle.gq_csv.specs.Copies.{Copied};
    ghost use Rattle.gq_csv.specs.Fields.{AreWithin, fields_in};

    ghost Value = { Copied };

    ghost view = { λ r. record {
      fields = fields_in r.bytes.items r.spans.items;
      field = drop r.start r.bytes.items;
    } };

    ghost invariant = { λ r. AreWithin r.start r.spans.items × (r.start ≤ length r.bytes.items) };
}

impl CopiedRecord {
    ghost use Rattle.std.specs.Prelude.{◌≡◌, ◌++◌, ◌∷◌, [], OnOk, option_map, length};
    ghost use Rattle.csv.specs.Records.{field_at};

    /// A record without fields. It takes no memory.
    pub(crate) fn new(alloc: Global) -> CopiedRecord
        ensures { result ≡ record { fields = []; field = [] } }
    {
        CopiedRecord {
            bytes: Vec::new(alloc),
            spans: Vec::new(alloc),
            start: 0,
        }
    }

    /// The record of the fields that ended.
    pub(crate) fn record(&self) -> Record<'_>
        ensures { result ≡ self.now.fields }
    {
        Record::new(self.bytes.as_slice(), self.spans.as_slice())
    }

    fn clear(&mut self)
        ensures { self.new ≡ record { fields = []; field = [] } }
    {
        self.bytes.clear();
        self.spans.clear();
        self.start = 0;
    }

    fn push(&mut self, byte: u8) -> Result<(), ReadError>
        ensures fields { OnOk result (self.new.fields ≡ self.old.fields) }
        ensures field { OnOk result (self.new.field ≡ self.old.field ++ byte ∷ []) }
    {
        self.bytes.push(byte)?;
        Ok(())
    }

    fn push_all(&mut self, bytes: &[u8]) -> Result<(), ReadError>
        ensures fields { OnOk result (self.new.fields ≡ self.old.fields) }
        ensures field { OnOk result (self.new.field ≡ self.old.field ++ bytes.now) }
    {
        self.bytes.extend_from_slice(bytes)?;
        Ok(())
    }

    fn end_field(&mut self) -> Result<(), ReadError>
        ensures fields { OnOk result (self.new.fields ≡ self.old.fields ++ self.old.field ∷ []) }
        ensures field { OnOk result (self.new.field ≡ []) }
    {
        let end = self.bytes.len();
        self.spans.push(FieldSpan {
            start: self.start,
            end,
        })?;
        self.start = end;
        Ok(())
    }
}

/// Reads the next record into `copied`, and returns whether there was one.
#[cold]
pub(crate) fn copy_record<R: Read>(
    input: &mut Input<R>,
    copied: &mut CopiedRecord,
) -> Result<bool, ReadError>
    ensures { IfOk result (λ found. Reads (known input.old) (known input.new) found copied.new.fields) }
{
    copied.clear();
    let mut state = State::StartRecord;
    'bytes: for _ in 0..u64::MAX {
        let Some(byte) = next_byte(input)? else {
            return end_record(state, copied);
        };
        match next_step(state, byte) {
            Step::Skip(next) => state = next,
            Step::Copy(next) => {
                copied.push(byte)?;
                copy_plain(input, copied)?;
                state = next;
            }
            Step::EndField => {
                copied.end_field()?;
                state = State::StartField;
            }
            Step::EndRecord => {
                copied.end_field()?;
                return Ok(true);
            }
        }
    }
    Err(ReadError::Source)
}

// Copies the bytes up to the next special one, if they are read ahead already.
fn copy_plain<R: Read>(input: &mut Input<R>, copied: &mut CopiedRecord) -> Result<(), ReadError>
    ensures ahead { OnOk result (input.new.ahead
        ≡ drop (position_or_len is_special input.old.ahead) input.old.ahead) }
    ensures after { OnOk result (input.new.after ≡ input.old.after) }
    ensures fields { OnOk result (copied.new.fields ≡ copied.old.fields) }
    ensures field { OnOk result (copied.new.field ≡ copied.old.field
        ++ take (position_or_len is_special input.old.ahead) input.old.ahead) }
{
    let plain = find_special(input.ahead(), 0);
    copied.push_all(&input.ahead()[..plain])?;
    input.take(plain);
    Ok(())
}

// Ends the record at the end of the text, and returns whether there is one.
fn end_record(state: State, copied: &mut CopiedRecord) -> Result<bool, ReadError>
    ensures { IfOk result (λ found. EndsAs state copied.old.fields copied.old.field found copied.new.fields) }
{
    if !ends_record(state) {
        return Ok(false);
    }
    copied.end_field()?;
    Ok(true)
}

// The next byte of an input; `None` at its end.
fn next_byte<R: Read>(input: &mut Input<R>) -> Result<Option<u8>, ReadError>
    ensures { IfOk result (Gave (known input.old) (known input.new)) }
{
    if !read_ahead(input)? {
        return Ok(None);
    }
    let byte = input.ahead()[0];
    input.take(1);
    Ok(Some(byte))
}

// Returns whether bytes are read ahead, once it has read more if there were none.
#[inline(always)]
fn read_ahead<R: Read>(input: &mut Input<R>) -> Result<bool, ReadError>
    ensures bytes { OnOk result (Keeps (known input.old) (known input.new)) }
    ensures some { IfOk result (λ some. some ≡ true → 0 < length input.new.ahead) }
    ensures none { IfOk result (λ some. some ≡ false → IsAtEnd (known input.old)) }
{
    if input.ahead().is_empty() {
        Ok(input.refill()?)
    } else {
        Ok(true)
    }
}
