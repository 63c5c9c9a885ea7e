//! Groups over stores in which one call goes wrong.
use crate::counting::Counting;
use crate::distinct::{CountedColumns, counted_over};
use crate::distinct_keys::keys_over;
use crate::groups::{Rows, counts_and_sums, fifty_text, grouped_over, rows_of, spec, text_of};
use gq_agg::AggKind;
use gq_row::Key;
use gq_spill::{FuseStore, MemStore, Trouble};
use std::alloc::{AllocError, Global};
use std::process::Abort;
use std::test::Fail;
use sw_probe::{Constant, Fnv1a, KeyHash};

const FAILED: &str = "the store failed";

const DAMAGED: &str = "a run is damaged";

// The result of counting rows over a store with some trouble.
fn over(alloc: Global, by: &[usize], rows: Rows, trouble: Trouble) -> Result<String, AllocError> {
    let spec = spec(alloc, by, &[(AggKind::CountAll, 0)])?;
    let mut store = FuseStore::new(MemStore::new(alloc), trouble);
    let rows = rows_of(alloc, rows)?;
    text_of(
        alloc,
        grouped_over(alloc, Fnv1a { seed: 0 }, &spec, rows, &mut store, 2),
    )
}

#[test]
fn each_call_of_the_store_fails_in_turn(rt: HostRuntime) -> Result<(), Fail> {
    let alloc = rt.alloc();
    let mut last = 0u64;
    for call in 1..20u64 {
        let found = over(alloc, &[1, 0], Rows::Worked, Trouble::Fail(call))?;
        if found.as_str() == "4 rows, 3 groups; 5,1:2; 7,2:1; null,1:1" {
            break;
        }
        assert_eq!(rt; found.as_str(), FAILED);
        last = call;
    }
    // A run is made, written to and read.
    assert_eq!(rt; last, 3);
    Ok(())
}

/// The result of grouping 500 rows within a budget of ten over a store with some trouble, and the number of
/// runs that are left.
fn remainders_over<H: KeyHash<Key> + Copy>(
    alloc: Global,
    hasher: H,
    trouble: Trouble,
) -> Result<(String, u64), AllocError> {
    let spec = counts_and_sums(alloc)?;
    let rows = rows_of(alloc, Rows::Remainders)?;
    let mut store = Counting::new(alloc, FuseStore::new(MemStore::new(alloc), trouble));
    let found = grouped_over(alloc, hasher, &spec, rows, &mut store, 10);
    Ok((text_of(alloc, found)?, store.live))
}

/// Asserts that there are no groups if a call from the first to the last fails, each in turn, and that no run
/// is left.
fn assert_fails<H: KeyHash<Key> + Copy>(
    rt: &impl Abort,
    alloc: Global,
    hasher: H,
    first: u64,
    last: u64,
) -> Result<(), Fail> {
    for call in first..=last {
        let (found, live) = remainders_over(alloc, hasher, Trouble::Fail(call))?;
        assert_eq!(rt; found.as_str(), FAILED, "call {call}");
        assert_eq!(rt; live, 0, "call {call}");
    }
    Ok(())
}

/// Asserts that all groups are there if no earlier call than this one fails, and that no run is left.
fn assert_ends_before<H: KeyHash<Key> + Copy>(
    rt: &impl Abort,
    alloc: Global,
    hasher: H,
    trouble: Trouble,
) -> Result<(), Fail> {
    let (found, live) = remainders_over(alloc, hasher, trouble)?;
    assert_eq!(rt; found.as_str(), fifty_text(alloc)?.as_str());
    assert_eq!(rt; live, 0);
    Ok(())
}

/// The first pass makes a run and writes the ten rows of each of forty keys there, and the second
/// reads it at once.
#[test]
fn each_call_of_a_pass_fails(rt: HostRuntime) -> Result<(), Fail> {
    let alloc = rt.alloc();
    assert_fails(&rt, alloc, Constant(0), 1, 1 + 400 + 1)?;
    assert_fails(&rt, alloc, Fnv1a { seed: 0 }, 1, 1 + 400 + 1)
}

/// Four passes write the rows of forty, thirty, twenty and ten keys, and each of their runs is made, and read
/// at once.
#[test]
fn calls_of_later_passes_fail(rt: HostRuntime) -> Result<(), Fail> {
    let alloc = rt.alloc();
    let last = 4 + 1_000 + 4;
    assert_fails(&rt, alloc, Constant(0), 403, last)?;
    assert_ends_before(&rt, alloc, Constant(0), Trouble::Fail(last + 1))
}

/// Asserts that there are no groups if a read is cut short, and that no run is left.
fn assert_damaged<H: KeyHash<Key> + Copy>(
    rt: &impl Abort,
    alloc: Global,
    hasher: H,
    reads: &[u64],
) -> Result<(), Fail> {
    for read in reads {
        let (found, live) = remainders_over(alloc, hasher, Trouble::Short(*read))?;
        assert_eq!(rt; found.as_str(), DAMAGED, "read {read}");
        assert_eq!(rt; live, 0, "read {read}");
    }
    Ok(())
}

/// Under one hash for all there are four reads, so a fifth is never cut short.
#[test]
fn a_read_cut_short_is_no_groups(rt: HostRuntime) -> Result<(), Fail> {
    let alloc = rt.alloc();
    assert_damaged(&rt, alloc, Constant(0), &[1, 2, 3, 4])?;
    assert_damaged(&rt, alloc, Fnv1a { seed: 0 }, &[1, 2])?;
    assert_ends_before(&rt, alloc, Constant(0), Trouble::Short(5))
}

/// What is computed of four rows: how many values each key has, how many distinct ones, and the keys.
#[derive(Clone, Copy)]
enum Asked {
    Values,
    DifferentValues,
    Keys,
}

/// The result of four rows, one group at a time, over a store with a failing call, and the number of runs that
/// are left.
fn worked_over(alloc: Global, asked: Asked, call: u64) -> Result<(String, u64), AllocError> {
    let rows = rows_of(alloc, Rows::Worked)?;
    let spec = spec(alloc, &[0], &[(AggKind::Count, 1)])?;
    let failing = FuseStore::new(MemStore::new(alloc), Trouble::Fail(call));
    let mut store = Counting::new(alloc, failing);
    let found = match asked {
        Asked::Values => grouped_over(alloc, Constant(0), &spec, rows, &mut store, 1),
        Asked::DifferentValues => {
            let columns = CountedColumns {
                by: &[0],
                counted: 1,
            };
            counted_over(alloc, Constant(0), columns, rows, &mut store, 1)
        }
        Asked::Keys => keys_over(alloc, Constant(0), &[0], rows, &mut store, 1),
    };
    Ok((text_of(alloc, found)?, store.live))
}

/// Lets each call of the store fail in turn until none does and the result is as expected, and returns how many
/// did. No run is left in any case.
fn failing(rt: &impl Abort, alloc: Global, asked: Asked, due: &str) -> Result<u64, Fail> {
    for call in 1..100u64 {
        let (found, live) = worked_over(alloc, asked, call)?;
        assert_eq!(rt; live, 0, "call {call}");
        if found.as_str() == due {
            return Ok(call - 1);
        }
        assert_eq!(rt; found.as_str(), FAILED, "call {call}");
    }
    Err(Fail::new("calls failed to the end"))
}

/// A run is made, written to and read; for distinct values more than one.
#[test]
fn each_call_of_each_grouping_fails(rt: HostRuntime) -> Result<(), Fail> {
    let alloc = rt.alloc();
    let values = failing(&rt, alloc, Asked::Values, "4 rows, 2 groups; 1:2; 2:1")?;
    assert_eq!(rt; values, 3);
    let keys = failing(&rt, alloc, Asked::Keys, "4 rows, 2 groups; 1:; 2:")?;
    assert_eq!(rt; keys, 3);
    let different = failing(
        &rt,
        alloc,
        Asked::DifferentValues,
        "4 rows, 2 groups; 1:1; 2:1",
    )?;
    assert!(rt; 3 < different, "{different} calls");
    Ok(())
}
