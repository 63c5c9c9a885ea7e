//! How many rows are written to runs for groups past the budget, and to how many runs.
use crate::counting::Counting;
use crate::groups::{
    Answer, Rows, counts_and_sums, fifty_text, grouped_over, row, rows_of, spec, text_of,
};
use gq_agg::AggKind;
use gq_group::{GroupSpec, Refusal};
use gq_row::{Key, Row};
use gq_spill::MemStore;
use std::alloc::{AllocError, Global};
use std::collections::VecDeque;
use std::process::Abort;
use std::test::Fail;
use sw_probe::{Constant, Fnv1a, KeyHash, Keyed, LowBits, Names, Step};

/// A hash that is the last eight bytes of a key as a number, big-endian: of a key of one number, that number.
#[derive(Clone, Copy)]
struct LastBytes;

impl<K: Keyed> KeyHash<K> for LastBytes {
    ghost use Rattle.sw_probe.specs.Hashes.{number_of};

    ghost hash_of = { λ _ class. number_of (K.bytes class) };

    fn hash<Q: Names<K>>(&self, key: &Q) -> u64 {
        key.fold(0, &Digit)
    }
}

// Appends a byte to a number, big-endian.
struct Digit;

impl Step for Digit {
    ghost use Rattle.sw_probe.specs.Hashes.{read_step};

    ghost next = { λ _. read_step };

    fn step(&self, acc: u64, byte: u8) -> u64 {
        acc.wrapping_mul(256).wrapping_add(u64::from(byte))
    }
}

/// The result of a grouping, and what it took.
#[derive(Drop)]
struct Work {
    groups: String,
    spent: String,
}

/// What a grouping reports that it took, with the records that the store got and the runs that it has.
fn spent_text(
    alloc: Global,
    found: &Result<Answer, Refusal>,
    store: &Counting<MemStore>,
) -> Result<String, AllocError> {
    let Ok(answer) = found else {
        return String::from_str(alloc, "refused");
    };
    let (read, written) = (answer.spent.rows_read, answer.spent.rows_written);
    let (groups, runs) = (answer.spent.groups, answer.spent.runs);
    let (records, live) = (store.records, store.live);
    format!(in alloc;
        "{read} read, {written} written, {groups} groups, {runs} runs; {records} records, {live} live"
    )
}

/// The groups of rows within a budget, and what they took.
fn work_of<H: KeyHash<Key> + Copy>(
    alloc: Global,
    hasher: H,
    spec: &GroupSpec,
    rows: VecDeque<Row>,
    entries: u32,
) -> Result<Work, AllocError> {
    let mut store = Counting::new(alloc, MemStore::new(alloc));
    let found = grouped_over(alloc, hasher, spec, rows, &mut store, entries);
    let spent = spent_text(alloc, &found, &store)?;
    Ok(Work {
        groups: text_of(alloc, found)?,
        spent,
    })
}

/// Asserts the counts of some numbers within a budget of one, each number being its own hash.
fn assert_counts(
    rt: &impl Abort,
    alloc: Global,
    numbers: &[i64],
    groups: &str,
    spent: &str,
) -> Result<(), Fail> {
    let mut rows = VecDeque::new(alloc);
    for number in numbers {
        rows.push_back(row(alloc, &[Some(*number)])?)?;
    }
    let spec = spec(alloc, &[0], &[(AggKind::CountAll, 0)])?;
    let work = work_of(alloc, LastBytes, &spec, rows, 1)?;
    assert_eq!(rt; work.groups.as_str(), groups);
    assert_eq!(rt; work.spent.as_str(), spent);
    Ok(())
}

/// The first key stays, and the others are partitioned by their four highest bits into two runs.
#[test]
fn keys_that_part_at_once(rt: HostRuntime) -> Result<(), Fail> {
    assert_counts(
        &rt,
        rt.alloc(),
        &[0, 1 << 60, 1 << 61, 1 << 61],
        "4 rows, 3 groups; 0:1; 1152921504606846976:1; 2305843009213693952:2",
        "4 read, 3 written, 3 groups, 2 runs; 3 records, 0 live",
    )
}

/// One key stays in each of the first four passes: of six rows five, four, three and two are written, and the
/// last two are partitioned by their sixteen highest bits.
#[test]
fn keys_that_part_late(rt: HostRuntime) -> Result<(), Fail> {
    assert_counts(
        &rt,
        rt.alloc(),
        &[0, 1, 2, 3, 1 << 48, 1 << 49],
        "6 rows, 6 groups; 0:1; 1:1; 281474976710656:1; 2:1; 3:1; 562949953421312:1",
        "6 read, 14 written, 6 groups, 5 runs; 14 records, 0 live",
    )
}

/// Asserts what the counts and sums of 500 rows in 50 groups take within a budget.
fn assert_fifty<H: KeyHash<Key> + Copy>(
    rt: &impl Abort,
    alloc: Global,
    hasher: H,
    entries: u32,
    spent: &str,
) -> Result<(), Fail> {
    let spec = counts_and_sums(alloc)?;
    let rows = rows_of(alloc, Rows::Remainders)?;
    let work = work_of(alloc, hasher, &spec, rows, entries)?;
    assert_eq!(rt; work.groups.as_str(), fifty_text(alloc)?.as_str());
    assert_eq!(rt; work.spent.as_str(), spent);
    Ok(())
}

/// Forty-nine passes write the ten rows of each remaining key: ten times 49 + 48 + .. + 1.
#[test]
fn one_group_a_pass(rt: HostRuntime) -> Result<(), Fail> {
    let due = "500 read, 12250 written, 50 groups, 49 runs; 12250 records, 0 live";
    assert_fifty(&rt, rt.alloc(), Constant(0), 1, due)?;
    assert_fifty(&rt, rt.alloc(), Constant(u64::MAX), 1, due)
}

/// Asserts that for one group past the budget ten rows are written, and for none no row.
fn assert_edge<H: KeyHash<Key> + Copy>(
    rt: &impl Abort,
    alloc: Global,
    hasher: H,
) -> Result<(), Fail> {
    let past = "500 read, 10 written, 50 groups, 1 runs; 10 records, 0 live";
    let within = "500 read, 0 written, 50 groups, 0 runs; 0 records, 0 live";
    assert_fifty(rt, alloc, hasher, 49, past)?;
    assert_fifty(rt, alloc, hasher, 50, within)
}

#[test]
fn a_group_past_the_budget(rt: HostRuntime) -> Result<(), Fail> {
    let alloc = rt.alloc();
    assert_edge(&rt, alloc, Fnv1a { seed: 0 })?;
    assert_edge(&rt, alloc, Constant(0))?;
    assert_edge(&rt, alloc, Constant(u64::MAX))?;
    assert_edge(&rt, alloc, LowBits(0))?;
    assert_edge(&rt, alloc, LowBits(7))?;
    assert_edge(&rt, alloc, LowBits(11))?;
    assert_edge(&rt, alloc, LastBytes)
}
