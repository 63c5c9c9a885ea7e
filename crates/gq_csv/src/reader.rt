//! The records of a source, one after the other.
ghost use Rattle.std.specs.Prelude.{◌≡◌, true, false, IfOk, OnOk, option_map, drop, length};
ghost use Rattle.std.specs.Io.KnownBytes.{Keeps};
ghost use Rattle.csv.specs.Reading.{is_bom, strip_bom};
ghost use Rattle.std.specs.List.{prefix_len};
ghost use Rattle.gq_csv.specs.Bytes.{ends_line};
ghost use Rattle.gq_csv.specs.Fields.{AreWithin, fields_in};
ghost use Rattle.gq_csv.specs.Inputs.{known};
ghost use Rattle.gq_csv.specs.Masks.{Covers};
ghost use Rattle.gq_csv.specs.Reads.{Reads, SameRecords};
ghost use Rattle.gq_csv.specs.Scanning.{Found};

use crate::copied::{CopiedRecord, copy_record};
use crate::find::{count_line_ends, starts_with_line_end};
use crate::input::Input;
use crate::read_error::ReadError;
use crate::record::Record;
use crate::scan::{Scan, scan_record};
use crate::span::FieldSpan;
use crate::special_mask::SpecialMask;
use std::alloc::Global;
use std::io::Read;
use std::marker::Model;

// The length of the UTF-8 byte-order mark.
const MARK: usize = 3;

/// A reader of the records of a CSV text. Seen as the fields of the record that it read last, and the
/// records that it has yet to read, if the source's bytes are known.
#[derive(Drop)]
pub struct RecordReader<R: Read> {
    input: Input<R>,
    spans: Vec<FieldSpan>,
    mask: SpecialMask,
    copied: CopiedRecord,
    is_copied: bool,
}

impl<R: Read> Model for RecordReader<R> {
    ghost use Rattle.std.specs.Prelude.{◌≡◌, false, length, if◌then◌else◌};
    ghost use Rattle.gq_csv.specs.Fields.{AreWithin, fields_in};
    ghost use Rattle.gq_csv.specs.Inputs.{known};
    ghost use Rattle.gq_csv.specs.Masks.{Covers};
    ghost use Rattle.gq_csv.specs.Records.{Reading, records_of};

    ghost Value = { Reading };

    ghost view = { λ r. record {
      fields = if r.is_copied then r.copied.fields else fields_in r.input.taken r.spans.items;
      rest = records_of (known r.input);
    } };

    ghost invariant = { λ r. (r.is_copied ≡ false → AreWithin (length r.input.taken) r.spans.items)
        × Covers r.input.ahead r.mask };
}

impl<R: Read + Drop> RecordReader<R> {
    ghost use Rattle.std.specs.Prelude.{◌≡◌, Some, IfOk, IfSome};
    ghost use Rattle.csv.specs.Reading.{default_config, records, strip_bom};

    /// A reader of the records of a source. A byte-order mark at its start is dropped.
    pub fn new(alloc: Global, source: R) -> Result<RecordReader<R>, ReadError>
        ensures { IfOk result (λ reader. IfSome (R.remaining source) (λ bytes.
            reader.rest ≡ Some (records default_config (strip_bom bytes)))) }
    {
        let mut input = Input::new(alloc, source)?;
        drop_mark(&mut input)?;
        Ok(RecordReader {
            input,
            spans: Vec::new(alloc),
            mask: SpecialMask::none(),
            copied: CopiedRecord::new(alloc),
            is_copied: true,
        })
    }
}

impl<R: Read> RecordReader<R> {
    ghost use Rattle.std.specs.Prelude.{◌≡◌, IfOk, option_map, length};
    ghost use Rattle.csv.specs.Records.{field_at};
    ghost use Rattle.gq_csv.specs.Records.{Took};

    /// Reads the next record, and returns whether there was one. After an error the records that
    /// are left are unspecified.
    #[inline(always)]
    pub fn read(&mut self) -> Result<bool, ReadError>
        ensures { IfOk result (λ found. Took self.old.rest found self.new.fields self.new.rest) }
    {
        self.is_copied = true;
        if find_record(&mut self.input, &mut self.mask, &mut self.spans)? {
            self.is_copied = false;
            return Ok(true);
        }
        self.mask = SpecialMask::none();
        copy_record(&mut self.input, &mut self.copied)
    }

    /// The record that was read last.
    #[inline(always)]
    pub fn record(&self) -> Record<'_>
        ensures { result ≡ self.now.fields }
    {
        if self.is_copied {
            self.copied.record()
        } else {
            Record::new(self.input.taken(), self.spans.as_slice())
        }
    }
}

// Drops the byte-order mark at the start of an input.
fn drop_mark<R: Read>(input: &mut Input<R>) -> Result<(), ReadError>
    ensures { OnOk result (Keeps (option_map strip_bom (known input.old)) (known input.new)) }
{
    'bytes: while input.ahead().len() < MARK {
        if !input.refill()? {
            return Ok(());
        }
    }
    let ahead = input.ahead();
    if !is_mark(ahead[0], ahead[1], ahead[2]) {
        return Ok(());
    }
    input.take(MARK);
    Ok(())
}

fn is_mark(a: u8, b: u8, c: u8) -> bool
    ensures { result ≡ is_bom a b c }
{
    a == 0xEF && b == 0xBB && c == 0xBF
}

// Finds the next record in place, if it has no quote and ends within the buffer. Else only line ends
// before it are taken. `mask` covers the bytes that are read ahead, before and after.
#[inline(always)]
fn find_record<R: Read>(
    input: &mut Input<R>,
    mask: &mut SpecialMask,
    spans: &mut Vec<FieldSpan>,
) -> Result<bool, ReadError>
    requires { Covers input.old.ahead mask.old }
    ensures mask { Covers input.new.ahead mask.new }
    ensures found { IfOk result (λ found. found ≡ true →
        Reads (known input.old) (known input.new) true (fields_in input.new.taken spans.new.items)) }
    ensures within { IfOk result (λ found. found ≡ true →
        AreWithin (length input.new.taken) spans.new.items) }
    ensures none { IfOk result (λ found. found ≡ false →
        SameRecords (known input.old) (known input.new)) }
{
    match take_record(input, mask, spans)? {
        Scan::Record(_) => Ok(true),
        Scan::Quoted | Scan::Cut => Ok(false),
    }
}

// Takes line ends, and then the next record if it is found in place.
#[inline(always)]
fn take_record<R: Read>(
    input: &mut Input<R>,
    mask: &mut SpecialMask,
    spans: &mut Vec<FieldSpan>,
) -> Result<Scan, ReadError>
    requires { Covers input.old.ahead mask.old }
    ensures found { IfOk result (Found (known input.old) (known input.new) input.new.taken spans.new.items) }
    ensures mask { Covers input.new.ahead mask.new }
{
    skip_line_ends(input, mask);
    let found = scan_record(input.ahead(), mask, spans)?;
    if let Scan::Record(len) = found {
        input.take(len);
    }
    Ok(found)
}

// Takes the line ends before a record: after a line that ends by CR and LF, or a blank line, there are some.
#[inline(always)]
fn skip_line_ends<R: Read>(input: &mut Input<R>, mask: &mut SpecialMask)
    requires { Covers input.old.ahead mask.old }
    ensures ahead { input.new.ahead ≡ drop (prefix_len ends_line input.old.ahead) input.old.ahead }
    ensures after { input.new.after ≡ input.old.after }
    ensures mask { Covers input.new.ahead mask.new }
{
    if starts_with_line_end(input.ahead()) {
        take_line_ends(input, mask);
    }
}

// Takes the line ends that are read ahead.
#[inline(always)]
fn take_line_ends<R: Read>(input: &mut Input<R>, mask: &mut SpecialMask)
    requires { Covers input.old.ahead mask.old }
    ensures ahead { input.new.ahead ≡ drop (prefix_len ends_line input.old.ahead) input.old.ahead }
    ensures after { input.new.after ≡ input.old.after }
    ensures mask { Covers input.new.ahead mask.new }
{
    let line_ends = count_line_ends(input.ahead());
    input.take(line_ends);
    mask.skip(line_ends);
}
