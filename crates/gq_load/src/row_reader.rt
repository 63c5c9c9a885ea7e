//! The rows of a payload, one after the other.
ghost use Rattle.std.specs.Prelude.{◌≡◌, ◌+◌, ◌≤◌, IfOk, IfSome, OnOk, IfErr, None, Some, length, option_map};
ghost use Rattle.gq_row.specs.declared.limits.Bounds.{Bounds};
ghost use Rattle.gq_load.specs.declared.short_records.Short.{Short};
ghost use Rattle.gq_load.specs.Coming.{Faulted, IsFaultOf, IsNext, data_left, fault_of, rows_left};
ghost use Rattle.gq_load.specs.Payloads.{rows_from, rows_of};

use crate::header::Header;
use crate::load_refusal::LoadRefusal;
use crate::reader::{payload_reader, read_next};
use crate::row::write_row;
use crate::row_fault::RowFault;
use crate::row_format::RowFormat;
use crate::short_records::Short;
use gq_csv::RecordReader;
use gq_row::{Limits, Row, Schema};
use std::alloc::Global;
use std::io::Read;
use std::marker::Model;

/// A reader that gives a row for each data record of a payload, piece by piece, and keeps none. Seen as
/// the rows that are yet to come or their first fault, if the payload's bytes are known, and as the
/// number of rows that may come at most.
#[derive(Drop)]
pub struct RowReader<'a, R: Read> {
    alloc: Global,
    format: RowFormat<'a>,
    reader: RecordReader<R>,
    given: u64,
    is_over: bool,
}

impl<'a, R: Read> Model for RowReader<'a, R> {
    ghost use Rattle.std.specs.Prelude.{◌≡◌, ◌-◌, length, if◌then◌else◌};
    ghost use Rattle.gq_load.specs.Coming.{Coming, IsUnder, rows_coming, unless_over};

    ghost Value = { Coming };

    ghost view = { λ r. record {
      schema = r.format.schema.now;
      rows = unless_over r.is_over
          (rows_coming r.format.short r.format.schema.now r.format.limits.now.bounds r.format.header r.given r.reader.rest);
      room = if r.is_over then 0 else r.format.limits.now.bounds.rows - r.given;
    } };

    ghost invariant = { λ r. (length r.format.header ≡ length r.format.schema.now.columns)
        × IsUnder r.is_over r.given r.format.limits.now.bounds.rows };
}

impl<'a, R: Read + Drop> RowReader<'a, R> {
    ghost use Rattle.std.specs.Prelude.{◌≡◌, ◌+◌, [], true, false, IfOk, IfErr, IfSome, OnErr, IsTrue, Ok, Some, option_map};
    ghost use Rattle.gq_row.specs.Fitting.{fits_columns, has_null};
    ghost use Rattle.gq_load.specs.Coming.{BeginWith, IsFaultOf};
    ghost use Rattle.gq_load.specs.Payloads.{load};

    /// A reader of the rows of a payload for a table of this schema. `Header` if the first record
    /// doesn't name each column once, or there is no record.
    pub fn new(
        alloc: Global,
        payload: R,
        short: Short,
        schema: &'a Schema,
        limits: &'a Limits,
    ) -> Result<RowReader<'a, R>, RowFault>
        ensures of_schema { IfOk result (λ reader. reader.schema ≡ schema.entry.now) }
        ensures room { IfOk result (λ reader. reader.room ≡ limits.entry.now.bounds.rows) }
        ensures rows { IfOk result (λ reader. IfSome (R.remaining payload) (λ bytes.
            reader.rows ≡ Some (load short schema.entry.now limits.entry.now.bounds bytes))) }
        ensures fault { IfErr result (λ fault. IsFaultOf (option_map
            (load short schema.entry.now limits.entry.now.bounds) (R.remaining payload)) fault) }
    {
        let mut reader = payload_reader(alloc, payload)?;
        let header = read_header(alloc, schema, &mut reader)?;
        let format = RowFormat {
            schema,
            limits,
            short,
            header,
        };
        Ok(RowReader {
            alloc,
            format,
            reader,
            given: 0,
            is_over: false,
        })
    }

    /// Reads the next row into `row`, whose memory it reuses, and returns whether there was one. A
    /// refusal is the payload's first fault, or `Memory`. After a fault no more rows come.
    pub fn read(&mut self, row: &mut Row) -> Result<bool, RowFault>
        ensures schema { self.new.schema ≡ self.old.schema }
        ensures given { IfOk result (λ found. found ≡ true →
            BeginWith self.old.rows row.new self.new.rows) }
        ensures room { IfOk result (λ found. found ≡ true → self.new.room + 1 ≡ self.old.room) }
        ensures fits { IfOk result (λ found. found ≡ true →
            IsTrue (fits_columns self.old.schema.columns row.new)) }
        ensures keyed { IfOk result (λ found. found ≡ true →
            has_null self.old.schema.key row.new ≡ false) }
        ensures end { IfOk result (λ found. found ≡ false →
            IfSome self.old.rows (λ read. read ≡ Ok [])) }
        ensures over { IfOk result (λ found. found ≡ false →
            (self.new.rows ≡ Some (Ok [])) × (self.new.room ≡ 0)) }
        ensures fault { IfErr result (λ fault. IsFaultOf self.old.rows fault) }
        ensures ended { OnErr result ((self.new.rows ≡ Some (Ok [])) × (self.new.room ≡ 0)) }
    {
        if self.is_over {
            return Ok(false);
        }
        self.is_over = true;
        if !next_row(self.alloc, &self.format, self.given, &mut self.reader, row)? {
            return Ok(false);
        }
        self.given += 1;
        self.is_over = false;
        Ok(true)
    }
}

// Reads the first record, whose fields name the columns. `Header` if they don't name each once, or there
// is no record.
#[tactic(auto, unfolding(crate::specs::Payloads::rows_of, crate::specs::Headers::places_of, crate::specs::Payloads::data_rows, crate::specs::Coming::rows_left))]
fn read_header<R: Read>(
    alloc: Global,
    schema: &Schema,
    reader: &mut RecordReader<R>,
) -> Result<Header, RowFault>
    ensures whole { IfOk result (λ header. length header ≡ length schema.now.columns) }
    ensures opened { IfOk result (λ header. (short : Short) (bounds : Bounds) →
        IfSome reader.old.rest (λ records.
        option_map (rows_left schema.now bounds.text bounds.rows header 1)
        (data_left short (length header) reader.new.rest)
        ≡ Some (rows_of short schema.now bounds records))) }
    ensures fault { IfErr result (λ fault. (short : Short) (bounds : Bounds) →
        IsFaultOf (option_map (rows_of short schema.now bounds) reader.old.rest) fault) }
{
    if !read_next(reader)? {
        return Err(RowFault::Refused(LoadRefusal::Header));
    }
    match Header::of(alloc, schema.columns(), &reader.record()) {
        Ok(header) => Ok(header),
        Err(why) => Err(RowFault::Refused(why)),
    }
}

// Reads the next record's row into `row`, after `given` rows, and returns whether there was one.
fn next_row<R: Read>(
    alloc: Global,
    format: &RowFormat<'_>,
    given: u64,
    reader: &mut RecordReader<R>,
    row: &mut Row,
) -> Result<bool, RowFault>
    requires whole { length format.now.header ≡ length format.now.schema.now.columns }
    requires under { given ≤ format.now.limits.now.bounds.rows }
    ensures { IsNext format.now.short format.now.schema.now format.now.limits.now.bounds
        format.now.header given reader.old.rest row.new reader.new.rest result }
{
    if !read_next(reader)? {
        return Ok(false);
    }
    let Some(number) = given.checked_add(1) else {
        return Err(RowFault::Refused(LoadRefusal::Memory));
    };
    write_row(alloc, format, number, &reader.record(), row)?;
    if number > format.limits.bounds.rows as u64 {
        check_rest(alloc, format, number, reader)?;
        return Err(RowFault::Refused(LoadRefusal::Limit));
    }
    Ok(true)
}

// Reads all records after the first `number` for their first fault.
#[cold]
fn check_rest<R: Read>(
    alloc: Global,
    format: &RowFormat<'_>,
    number: u64,
    reader: &mut RecordReader<R>,
) -> Result<(), RowFault>
    requires whole { length format.now.header ≡ length format.now.schema.now.columns }
    ensures none { OnOk result
        (IfSome (data_left format.now.short (length format.now.header) reader.old.rest) (λ records.
        fault_of (rows_from format.now.schema.now format.now.limits.now.bounds.text format.now.header
        (number + 1) records) ≡ None)) }
    ensures fault { IfErr result (λ fault. Faulted (λ why.
        IfSome (data_left format.now.short (length format.now.header) reader.old.rest) (λ records.
        fault_of (rows_from format.now.schema.now format.now.limits.now.bounds.text format.now.header
        (number + 1) records) ≡ Some why)) fault) }
{
    let mut row = Row::new(Vec::new(alloc));
    for last in number..u64::MAX {
        if !read_next(reader)? {
            return Ok(());
        }
        write_row(alloc, format, last + 1, &reader.record(), &mut row)?;
    }
    Err(RowFault::Refused(LoadRefusal::Memory))
}
