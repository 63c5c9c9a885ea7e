//! Stores in which one call goes wrong.
ghost use Rattle.std.specs.Prelude.{IsTrue};

use crate::expected::{expect, expect_at};
use crate::reading::{DAMAGED, four_results};
use crate::rows::{numbers, spelled};
use crate::whole::{read_rows, write_rows};
use gq_row::Row;
use gq_spill::{FuseStore, MemStore, RunId, RunStore, SpillRefusal, Trouble};
use std::alloc::{AllocError, Global};
use std::process::Abort;
use std::test::Fail;

/// A store in which one call goes wrong from now on. A live run stays live.
pub(crate) fn with_trouble<S: RunStore>(store: S, run: RunId, trouble: Trouble) -> FuseStore<S>
    requires { IsTrue ((S.runs store).live run.number) }
    ensures { IsTrue ((⟦<FuseStore<S> as RunStore>⟧.runs result).live run.number) }
{
    let _ = run;
    FuseStore::new(store, trouble)
}

/// Writes rows to a run of a store in which one call fails, and reads them.
fn through_failing(alloc: Global, rows: &[Row], call: u64) -> Result<Vec<Row>, SpillRefusal> {
    let mut store = FuseStore::new(MemStore::new(alloc), Trouble::Fail(call));
    let mark = write_rows(alloc, &mut store, rows)?;
    read_rows(alloc, &mut store, mark, 1)
}

fn expect_fault(rt: &impl Abort, alloc: Global, rows: &[Row], call: u64) {
    let found = through_failing(alloc, rows, call).err();
    expect_at(rt, call, found, Some(SpillRefusal::StoreFault));
}

// Expects that three rows are read back.
fn expect_three(rt: &impl Abort, alloc: Global, rows: &[Row], call: u64) -> Result<(), Fail> {
    let Ok(read) = through_failing(alloc, rows, call) else {
        return Err(Fail::from("no rows came back"));
    };
    let found = spelled(alloc, read.as_slice())?;
    assert_eq!(rt; found.as_str(), "1;2;3;", "call {call}");
    Ok(())
}

#[test]
fn each_call_fails_in_turn(rt: HostRuntime) -> Result<(), Fail> {
    let rows = numbers(rt.alloc(), 3)?;
    // A run is made, three records are appended, and one piece is read.
    for call in 1..=5u64 {
        expect_fault(&rt, rt.alloc(), rows.as_slice(), call);
    }
    for call in [0, 6, u64::MAX] {
        expect_three(&rt, rt.alloc(), rows.as_slice(), call)?;
    }
    Ok(())
}

/// The results of a reader of two rows if a call goes wrong after they were written.
fn results_after(alloc: Global, trouble: Trouble) -> Result<String, AllocError> {
    let rows = numbers(alloc, 2)?;
    let mut store = MemStore::new(alloc);
    let Ok(mark) = write_rows(alloc, &mut store, rows.as_slice()) else {
        return String::from_str(alloc, "not written");
    };
    let mut failing = with_trouble(store, mark.id, trouble);
    four_results(alloc, &mut failing, mark, 1)
}

fn expect_after(rt: &impl Abort, alloc: Global, trouble: Trouble, due: &str) -> Result<(), Fail> {
    let found = results_after(alloc, trouble)?;
    assert_eq!(rt; found.as_str(), due);
    Ok(())
}

#[test]
fn refusals_repeat(rt: HostRuntime) -> Result<(), Fail> {
    let alloc = rt.alloc();
    expect_after(
        &rt,
        alloc,
        Trouble::Fail(1),
        "the store failed;the store failed;the store failed;the store failed;",
    )?;
    expect_after(&rt, alloc, Trouble::Short(1), DAMAGED)?;
    expect_after(&rt, alloc, Trouble::Fail(2), "1;2;none;none;")?;
    expect_after(&rt, alloc, Trouble::Short(2), "1;2;none;none;")
}

// Reads a run of `Oslo`; the second read that returns bytes returns one less.
fn read_short<S: RunStore>(rt: &impl Abort, store: &mut S, run: RunId)
    requires { IsTrue ((S.runs store.old).live run.number) }
{
    let mut buffer = [b'.'; 10];
    // Reads that would return no byte aren't counted.
    expect(rt, store.read(run, 4, &mut buffer).ok(), Some(0));
    expect(rt, store.read(run, 0, &mut buffer).ok(), Some(4));
    expect(rt, store.read(run, 9, &mut buffer).ok(), Some(0));
    expect(rt, store.read(run, 1, &mut buffer).ok(), Some(2));
    expect(rt, store.read(run, 1, &mut buffer).ok(), Some(3));
    store.discard(run);
}

#[test]
fn a_short_read_gives_one_byte_less(rt: HostRuntime) -> Result<(), Fail> {
    let mut store = FuseStore::new(MemStore::new(rt.alloc()), Trouble::Short(2));
    let Ok(run) = store.make() else {
        return Err(Fail::from("no run"));
    };
    expect(&rt, store.append(run, b"Oslo").is_ok(), true);
    read_short(&rt, &mut store, run);
    Ok(())
}
