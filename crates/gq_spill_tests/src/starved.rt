//! Runs and records while memory runs out: first with none left, then with a little more each time, so that
//! each allocation is the first to fail in some run.
ghost use Rattle.std.specs.Prelude.{IsTrue};

use crate::expected::expect;
use crate::reading::push_result;
use crate::records::with_record;
use crate::rows::{no_case, no_values, spelled, text, worked};
use crate::whole::{read_rows, write_rows};
use gq_row::{Row, Value};
use gq_spill::{
    MemStore, RunMark, RunReader, RunStore, RunWriter, SpillRefusal, decode_row, encode_row,
    is_storable,
};
use starved_tests::{POOLS, Starved};
use std::alloc::{AllocError, Global};
use std::process::Abort;
use std::test::Fail;

// By how many bytes the free memory grows with each step.
const STEP: usize = 16;

const DUE: &str = "null,-1,'Oslo';1,null,'a city of a name that takes a block of its own';2,7,'';\
     ~'Rome',3,~'A CITY that takes a block of its own, too';";

fn rows(alloc: Global) -> Result<Vec<Row>, AllocError> {
    let long = text(alloc, "a city of a name that takes a block of its own")?;
    let second = Row::new(vec![in alloc; Value::Int(1), Value::Null, long]?);
    let third = Row::new(vec![in alloc; Value::Int(2), Value::Int(7), text(alloc, "")?]?);
    let long = no_case(alloc, "A CITY that takes a block of its own, too")?;
    let fourth = Row::new(vec![in alloc; no_case(alloc, "Rome")?, Value::Int(3), long]?);
    Ok(vec![in alloc; worked(alloc)?, second, third, fourth]?)
}

/// Writes rows to a run in memory, and reads them.
fn through_memory(alloc: Global, rows: &[Row]) -> Result<Vec<Row>, SpillRefusal> {
    let mut store = MemStore::new(alloc);
    let mark = write_rows(alloc, &mut store, rows)?;
    read_rows(alloc, &mut store, mark, 3)
}

// Expects all rows, or `Memory`, and returns whether it is the rows.
fn is_whole(
    rt: &impl Abort,
    alloc: Global,
    answer: Result<Vec<Row>, SpillRefusal>,
) -> Result<bool, AllocError> {
    match answer {
        Ok(read) => {
            let found = spelled(alloc, read.as_slice())?;
            assert_eq!(rt; found.as_str(), DUE);
            Ok(true)
        }
        Err(why) => {
            expect(rt, why, SpillRefusal::Memory);
            Ok(false)
        }
    }
}

// Leaves `bytes` bytes for a run of these rows, and returns whether they are read back.
fn comes_back_with(
    rt: &impl Abort,
    alloc: Global,
    starved: &mut Starved,
    rows: &[Row],
    bytes: usize,
) -> Result<bool, AllocError> {
    let kept = starved.leave(alloc, bytes)?;
    let answer = through_memory(alloc, rows);
    drop(kept);
    let whole = is_whole(rt, alloc, answer)?;
    starved.end(alloc, Vec::new(alloc));
    Ok(whole)
}

// How many runs had an allocation fail before one had none.
fn refused_runs(rt: &impl Abort, alloc: Global, rows: &[Row]) -> Result<usize, AllocError> {
    let mut starved = Starved::new(alloc)?;
    for step in 0..POOLS {
        if comes_back_with(rt, alloc, &mut starved, rows, STEP.saturating_mul(step))? {
            return Ok(step);
        }
    }
    Ok(POOLS)
}

#[test]
fn each_request_refused_in_turn(rt: HostRuntime) -> Result<(), Fail> {
    let rows = rows(rt.alloc())?;
    // Once with enough memory, so that the stack has grown as far as runs need it.
    assert!(rt; through_memory(rt.alloc(), rows.as_slice()).is_ok());
    let refused = refused_runs(&rt, rt.alloc(), rows.as_slice())?;
    // The allocations grow from a few bytes to some hundred, so more than ten steps fail.
    assert!(rt; 10 < refused && refused < POOLS, "{refused} refused");
    Ok(())
}

// Whether a row is neither written nor read.
fn refuses(alloc: Global, row: &Row, bytes: &mut Vec<u8>, record: &[u8]) -> bool {
    is_storable(row) && encode_row(row, bytes).is_err() && decode_row(alloc, record).is_err()
}

#[test]
fn records_without_memory(rt: HostRuntime) -> Result<(), Fail> {
    let row = worked(rt.alloc())?;
    let record = with_record(rt.alloc(), b"", &row)?;
    let mut bytes = Vec::from_slice(rt.alloc(), b"ab")?;
    let starved = Starved::new(rt.alloc())?;
    // What is there stays, and neither call finds memory elsewhere.
    expect(
        &rt,
        refuses(rt.alloc(), &row, &mut bytes, record.as_slice()),
        true,
    );
    expect(&rt, bytes.as_slice(), b"ab".as_slice());
    // Bytes that are no record are reported without memory for their row.
    assert!(rt; matches!(decode_row(rt.alloc(), b"\0\0\0\x01"), Ok(None)));
    drop(starved);
    Ok(())
}

type Refusals = [Option<SpillRefusal>; 2];

// The errors of a writer without memory, and then with it.
fn write_twice<S: RunStore>(alloc: Global, store: &mut S, row: &Row) -> Result<Refusals, Fail> {
    let Ok(mut writer) = RunWriter::begin(alloc, store) else {
        return Err(Fail::from("no run"));
    };
    if !is_storable(row) {
        return Err(Fail::from("it has no record"));
    }
    let starved = Starved::new(alloc)?;
    let first = writer.write(store, row).err();
    drop(starved);
    let again = writer.write(store, row).err();
    store.discard(writer.finish().id);
    Ok([first, again])
}

// The errors of a reader without memory, and then with it.
fn read_twice<S: RunStore>(alloc: Global, store: &mut S, mark: RunMark) -> Result<Refusals, Fail>
    requires { IsTrue ((S.runs store.old).live mark.id.number) }
{
    let mut reader = RunReader::open(alloc, mark, 3);
    let starved = Starved::new(alloc)?;
    let first = reader.next(alloc, store, &mut no_values(alloc)).err();
    drop(starved);
    let again = reader.next(alloc, store, &mut no_values(alloc)).err();
    store.discard(mark.id);
    Ok([first, again])
}

#[test]
fn refusals_for_memory_repeat(rt: HostRuntime) -> Result<(), Fail> {
    let rows = rows(rt.alloc())?;
    let mut store = MemStore::new(rt.alloc());
    let Ok(mark) = write_rows(rt.alloc(), &mut store, rows.as_slice()) else {
        return Err(Fail::from("not written"));
    };
    let refused = [Some(SpillRefusal::Memory); 2];
    expect(&rt, read_twice(rt.alloc(), &mut store, mark)?, refused);
    let row = worked(rt.alloc())?;
    expect(&rt, write_twice(rt.alloc(), &mut store, &row)?, refused);
    Ok(())
}

fn long_rows(alloc: Global) -> Result<Vec<Row>, AllocError> {
    let mut rows = Vec::new(alloc);
    for chars in [
        "a city of a name that takes a block of its own",
        "a town of a name that takes one too",
        "a village that takes one, too",
    ] {
        rows.push(Row::new(vec![in alloc; text(alloc, chars)?, Value::Int(7)]?))?;
    }
    Ok(rows)
}

// The results of a reader without memory, first over a row that it has read, and then over an empty one.
fn results_over<S: RunStore>(alloc: Global, store: &mut S, mark: RunMark) -> Result<String, Fail>
    requires { IsTrue ((S.runs store.old).live mark.id.number) }
{
    let mut reader = RunReader::open(alloc, mark, 2);
    let (mut row, mut other) = (no_values(alloc), no_values(alloc));
    let Ok(true) = reader.next(alloc, store, &mut row) else {
        return Err(Fail::from("no row"));
    };
    let starved = Starved::new(alloc)?;
    let second = reader.next(alloc, store, &mut row);
    let third = reader.next(alloc, store, &mut other);
    drop(starved);
    let mut out = String::new(alloc);
    push_result(alloc, &mut out, second, &row)?;
    push_result(alloc, &mut out, third, &other)?;
    Ok(out)
}

#[test]
fn a_row_over_another_takes_no_memory(rt: HostRuntime) -> Result<(), Fail> {
    let rows = long_rows(rt.alloc())?;
    let mut store = MemStore::new(rt.alloc());
    let Ok(mark) = write_rows(rt.alloc(), &mut store, rows.as_slice()) else {
        return Err(Fail::from("not written"));
    };
    let found = results_over(rt.alloc(), &mut store, mark)?;
    assert_eq!(rt;
        found.as_str(),
        "'a town of a name that takes one too',7;out of memory;"
    );
    Ok(())
}
