//! Readers of runs: their results, and in how many pieces they read.
ghost use Rattle.std.specs.Prelude.{IsTrue};

use crate::expected::{expect, expect_at};
use crate::rows::{no_values, number, numbers, spelled, spelled_row, text};
use crate::stores::with_trouble;
use crate::whole::{read_rows, write_rows};
use gq_row::Row;
use gq_spill::{MemStore, RunMark, RunReader, RunStore, SpillRefusal, Trouble};
use std::alloc::{AllocError, Global};
use std::process::Abort;
use std::test::Fail;

/// The result of a reader as text: the row that it read, that there is none, or the error.
pub(crate) fn push_result(
    alloc: Global,
    out: &mut String,
    answer: Result<bool, SpillRefusal>,
    row: &Row,
) -> Result<(), AllocError> {
    match answer {
        Ok(true) => out.push_str(spelled_row(alloc, row)?.as_str()),
        Ok(false) => out.push_str("none;"),
        Err(why) => out.push_str(format!(in alloc; "{why};")?.as_str()),
    }
}

/// The first four results of a reader.
pub(crate) fn four_results<S: RunStore>(
    alloc: Global,
    store: &mut S,
    mark: RunMark,
    columns: usize,
) -> Result<String, AllocError>
    requires { IsTrue ((S.runs store.old).live mark.id.number) }
    ensures { IsTrue ((S.runs store.new).live mark.id.number) }
{
    let mut reader = RunReader::open(alloc, mark, columns);
    let mut out = String::new(alloc);
    let mut row = no_values(alloc);
    let first = reader.next(alloc, store, &mut row);
    push_result(alloc, &mut out, first, &row)?;
    let second = reader.next(alloc, store, &mut row);
    push_result(alloc, &mut out, second, &row)?;
    let third = reader.next(alloc, store, &mut row);
    push_result(alloc, &mut out, third, &row)?;
    let fourth = reader.next(alloc, store, &mut row);
    push_result(alloc, &mut out, fourth, &row)?;
    Ok(out)
}

/// Expects the first four results of a reader.
pub(crate) fn expect_answers<S: RunStore>(
    rt: &impl Abort,
    alloc: Global,
    store: &mut S,
    mark: RunMark,
    columns: usize,
    due: &str,
) -> Result<(), Fail>
    requires { IsTrue ((S.runs store.old).live mark.id.number) }
    ensures { IsTrue ((S.runs store.new).live mark.id.number) }
{
    let found = four_results(alloc, store, mark, columns)?;
    assert_eq!(rt; found.as_str(), due);
    Ok(())
}

/// The four results of a reader that finds at once that its run is damaged.
pub(crate) const DAMAGED: &str =
    "a run is damaged;a run is damaged;a run is damaged;a run is damaged;";

/// Reads two rows by marks with another number of rows or of bytes, and as rows of other columns.
fn expect_by_marks<S: RunStore>(
    rt: &impl Abort,
    alloc: Global,
    store: &mut S,
    mark: RunMark,
) -> Result<(), Fail>
    requires { IsTrue ((S.runs store.old).live mark.id.number) }
    ensures { IsTrue ((S.runs store.new).live mark.id.number) }
{
    let longer = RunMark { records: 3, ..mark };
    expect_answers(
        rt,
        alloc,
        store,
        longer,
        1,
        "1;2;a run is damaged;a run is damaged;",
    )?;
    let fewer = RunMark { records: 1, ..mark };
    expect_answers(rt, alloc, store, fewer, 1, "1;none;none;none;")?;
    let shorter = RunMark { bytes: 25, ..mark };
    expect_answers(
        rt,
        alloc,
        store,
        shorter,
        1,
        "1;a run is damaged;a run is damaged;a run is damaged;",
    )?;
    let past = RunMark { bytes: 27, ..mark };
    expect_answers(rt, alloc, store, past, 1, DAMAGED)?;
    expect_answers(rt, alloc, store, mark, 2, DAMAGED)
}

#[test]
fn rows_read_are_the_rows_written(rt: HostRuntime) -> Result<(), Fail> {
    let rows = numbers(rt.alloc(), 2)?;
    let mut store = MemStore::new(rt.alloc());
    let Ok(mark) = write_rows(rt.alloc(), &mut store, rows.as_slice()) else {
        return Err(Fail::from("not written"));
    };
    expect(&rt, (mark.bytes, mark.records), (26, 2));
    expect_answers(&rt, rt.alloc(), &mut store, mark, 1, "1;2;none;none;")?;
    expect_by_marks(&rt, rt.alloc(), &mut store, mark)?;
    store.discard(mark.id);
    Ok(())
}

/// Writes rows of one column, and returns whether they are read back from a store whose calls fail from a
/// number on.
fn comes_back(alloc: Global, rows: &[Row], fails_at: u64) -> Result<bool, AllocError> {
    let mut store = MemStore::new(alloc);
    let Ok(mark) = write_rows(alloc, &mut store, rows) else {
        return Ok(false);
    };
    let mut failing = with_trouble(store, mark.id, Trouble::Fail(fails_at));
    let Ok(read) = read_rows(alloc, &mut failing, mark, 1) else {
        return Ok(false);
    };
    let due = spelled(alloc, rows)?;
    Ok(spelled(alloc, read.as_slice())?.as_str() == due.as_str())
}

// Expects that `last` rows are read in `reads` pieces.
fn expect_reads(rt: &impl Abort, alloc: Global, last: i64, reads: u64) -> Result<(), Fail> {
    let rows = numbers(alloc, last)?;
    for k in 1..=reads {
        expect_at(rt, k, comes_back(alloc, rows.as_slice(), k)?, false);
    }
    expect(
        rt,
        comes_back(alloc, rows.as_slice(), reads.saturating_add(1))?,
        true,
    );
    Ok(())
}

#[test]
fn pieces_of_64_kib(rt: HostRuntime) -> Result<(), Fail> {
    // 13 bytes a row: one piece, and two.
    expect_reads(&rt, rt.alloc(), 5_041, 1)?;
    expect_reads(&rt, rt.alloc(), 5_042, 2)?;
    expect_reads(&rt, rt.alloc(), 10_000, 2)
}

// A row of a text of 200,000 bytes.
fn long_row(alloc: Global) -> Result<Row, AllocError> {
    let mut chars = String::new(alloc);
    for _ in 0..40_000 {
        chars.push_str("abcde")?;
    }
    Ok(Row::new(vec![in alloc; text(alloc, chars.as_str())?]?))
}

fn with_long_row(alloc: Global) -> Result<Vec<Row>, AllocError> {
    let mut rows = numbers(alloc, 6_000)?;
    rows.push(long_row(alloc)?)?;
    for n in 0..6_000i64 {
        rows.push(number(alloc, n)?)?;
    }
    Ok(rows)
}

#[test]
fn a_record_longer_than_a_piece(rt: HostRuntime) -> Result<(), Fail> {
    let rows = with_long_row(rt.alloc())?;
    expect(&rt, comes_back(rt.alloc(), rows.as_slice(), 1_000)?, true);
    Ok(())
}
