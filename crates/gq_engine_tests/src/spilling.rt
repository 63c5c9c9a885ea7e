//! Groups past an engine's budget: what is answered over stores that fail or lie, and that the
//! tables stay the same; and that the engine uses the budget that it was given.
use crate::engines::{engine_over, written_to};
use crate::expected::expect_at;
use crate::lying::{Altered, Swapped};
use gq_engine::{Engine, MemStore, RunStore};
use gq_row::Key;
use gq_spill::{FuseStore, Trouble};
use std::alloc::{AllocError, Global};
use std::process::Abort;
use std::test::Fail;
use sw_probe::{Constant, Fnv1a, KeyHash, LowBits};

const FAILED: &[u8] = b"err 16 StoreFault\n";

const DAMAGED: &[u8] = b"err 17 Damaged\n";

/// Five hundred rows, each of a number and its remainder by 50: the commands that create them, the
/// reply to `show`, and the reply to `GROUPS`.
#[derive(Drop)]
struct Fifty {
    script: Vec<u8>,
    shown: Vec<u8>,
    groups: Vec<u8>,
}

const LOADED: &[u8] = b"ok 0\nok 500\n";

const GROUPS: &[u8] = b"group b by g show count(*), sum(n)\n";

/// The rows as lines of CSV.
fn lines(alloc: Global) -> Result<String, AllocError> {
    let mut out = String::new(alloc);
    for n in 0..500u64 {
        let g = n % 50;
        out.push_str(format!(in alloc; "{n},{g}\n")?.as_str())?;
    }
    Ok(out)
}

/// The commands that create the rows with these lines.
fn script_of(alloc: Global, lines: &str) -> Result<String, AllocError> {
    format!(in alloc; "create b (n int, g int, key (n))\nload b\nn,g\n{lines}\\.\n")
}

fn shown_of(alloc: Global, lines: &str) -> Result<String, AllocError> {
    format!(in alloc; "ok 500\nn,g\n{lines}")
}

fn groups(alloc: Global) -> Result<String, AllocError> {
    let mut groups = String::from_str(alloc, "ok 50\ng,count(*),sum(n)\n")?;
    for g in 0..50u64 {
        let sum = 10 * g + 2250;
        groups.push_str(format!(in alloc; "{g},10,{sum}\n")?.as_str())?;
    }
    Ok(groups)
}

impl Fifty {
    fn new(alloc: Global) -> Result<Fifty, AllocError> {
        let lines = lines(alloc)?;
        let script = script_of(alloc, lines.as_str())?;
        let shown = shown_of(alloc, lines.as_str())?;
        Ok(Fifty {
            script: script.into_bytes(),
            shown: shown.into_bytes(),
            groups: groups(alloc)?.into_bytes(),
        })
    }
}

/// What an engine without tables answers to `GROUPS`. The rows are the same after that.
fn answer_by<H: KeyHash<Key> + Copy, S: RunStore>(
    rt: &impl Abort,
    alloc: Global,
    fifty: &Fifty,
    engine: &mut Engine<H, S>,
) -> Vec<u8> {
    let made = written_to(alloc, engine, fifty.script.as_slice());
    assert!(rt; made.as_slice() == LOADED);
    let answer = written_to(alloc, engine, GROUPS);
    let shown = written_to(alloc, engine, b"show b\n");
    assert!(rt; shown.as_slice() == fifty.shown.as_slice());
    answer
}

/// What is answered to `GROUPS` over this store within this budget. The rows are the same after
/// that.
fn answer<H: KeyHash<Key> + Copy, S: RunStore + Drop>(
    rt: &impl Abort,
    alloc: Global,
    fifty: &Fifty,
    hasher: H,
    store: S,
    groups: u32,
) -> Result<Vec<u8>, Fail> {
    let mut engine = engine_over(alloc, hasher, store, groups)?;
    Ok(answer_by(rt, alloc, fifty, &mut engine))
}

/// Asserts that the groups are right within each budget.
fn assert_groups<H: KeyHash<Key> + Copy>(
    rt: &impl Abort,
    alloc: Global,
    fifty: &Fifty,
    hasher: H,
) -> Result<(), Fail> {
    for groups in [1, 2, 49, 50, 65_536, 1_048_576] {
        let answer = answer(rt, alloc, fifty, hasher, MemStore::new(alloc), groups)?;
        assert!(rt; answer.as_slice() == fifty.groups.as_slice(), "{groups}");
    }
    Ok(())
}

#[test]
fn fifty_groups_within_each_budget(rt: HostRuntime) -> Result<(), Fail> {
    let alloc = rt.alloc();
    let fifty = Fifty::new(alloc)?;
    assert_groups(&rt, alloc, &fifty, Fnv1a { seed: 0 })?;
    assert_groups(&rt, alloc, &fifty, Constant(0))?;
    assert_groups(&rt, alloc, &fifty, Constant(u64::MAX))?;
    assert_groups(&rt, alloc, &fifty, LowBits(0))?;
    assert_groups(&rt, alloc, &fifty, LowBits(7))?;
    assert_groups(&rt, alloc, &fifty, LowBits(11))
}

/// What is answered within a budget of ten over a store with this trouble.
fn answer_troubled<H: KeyHash<Key> + Copy>(
    rt: &impl Abort,
    alloc: Global,
    fifty: &Fifty,
    hasher: H,
    trouble: Trouble,
) -> Result<Vec<u8>, Fail> {
    let store = FuseStore::new(MemStore::new(alloc), trouble);
    answer(rt, alloc, fifty, hasher, store, 10)
}

/// Expects that answer.
fn expect_troubled<H: KeyHash<Key> + Copy>(
    rt: &impl Abort,
    alloc: Global,
    fifty: &Fifty,
    hasher: H,
    trouble: Trouble,
    due: &[u8],
) -> Result<(), Fail> {
    let answer = answer_troubled(rt, alloc, fifty, hasher, trouble)?;
    assert!(rt; answer.as_slice() == due, "{trouble:?}");
    Ok(())
}

/// Asserts that `StoreFault` is answered if a call from the first to the last fails, each in turn.
fn assert_fails<H: KeyHash<Key> + Copy>(
    rt: &impl Abort,
    alloc: Global,
    hasher: H,
    first: u64,
    last: u64,
) -> Result<(), Fail> {
    let fifty = Fifty::new(alloc)?;
    for call in first..=last {
        expect_troubled(rt, alloc, &fifty, hasher, Trouble::Fail(call), FAILED)?;
    }
    Ok(())
}

/// The first pass makes a run and writes the ten rows of each of forty keys to it, and the second
/// pass reads it in one call.
#[test]
fn calls_of_a_pass_fail(rt: HostRuntime) -> Result<(), Fail> {
    let alloc = rt.alloc();
    assert_fails(&rt, alloc, Constant(0), 1, 402)
}

/// The first pass writes the ten rows of each of forty keys.
#[test]
fn calls_fail_under_fnv_1a(rt: HostRuntime) -> Result<(), Fail> {
    assert_fails(&rt, rt.alloc(), Fnv1a { seed: 0 }, 1, 401)
}

/// Four passes write the rows of forty, thirty, twenty and ten keys; each of the four runs is made,
/// and read in one call.
#[test]
fn calls_of_later_passes_fail(rt: HostRuntime) -> Result<(), Fail> {
    let alloc = rt.alloc();
    let last = 4 + 1_000 + 4;
    assert_fails(&rt, alloc, Constant(0), 403, last)?;
    let fifty = Fifty::new(alloc)?;
    let none = Trouble::Fail(last + 1);
    expect_troubled(
        &rt,
        alloc,
        &fifty,
        Constant(0),
        none,
        fifty.groups.as_slice(),
    )
}

#[test]
fn a_read_cut_short_is_damage(rt: HostRuntime) -> Result<(), Fail> {
    let alloc = rt.alloc();
    let fifty = Fifty::new(alloc)?;
    let spread = Fnv1a { seed: 0 };
    expect_troubled(&rt, alloc, &fifty, Constant(0), Trouble::Short(1), DAMAGED)?;
    expect_troubled(&rt, alloc, &fifty, spread, Trouble::Short(1), DAMAGED)
}

/// What is answered within a budget of one if a byte of the first run reads as another.
fn answer_altered(rt: &impl Abort, alloc: Global, at: u64, by: u8) -> Result<Vec<u8>, Fail> {
    let fifty = Fifty::new(alloc)?;
    let store = Altered {
        inner: MemStore::new(alloc),
        run: 1,
        at,
        by,
    };
    answer(rt, alloc, &fifty, Constant(0), store, 1)
}

fn expect_damage(rt: &impl Abort, alloc: Global, at: u64, by: u8) -> Result<(), Fail> {
    let answer = answer_altered(rt, alloc, at, by)?;
    assert!(rt; answer.as_slice() == DAMAGED);
    Ok(())
}

/// Whether the answer is a reply.
fn is_reply(answer: &[u8]) -> bool {
    answer.starts_with(b"ok ") || answer.starts_with(b"err ")
}

/// A record begins with its length in four bytes, and the kind of its first value in one. No record
/// has that length, and no value that kind. Then comes a number, which may be any.
#[test]
fn a_byte_that_reads_as_another(rt: HostRuntime) -> Result<(), Fail> {
    expect_damage(&rt, rt.alloc(), 0, 128)?;
    expect_damage(&rt, rt.alloc(), 4, 64)?;
    let other = answer_altered(&rt, rt.alloc(), 12, 1)?;
    assert!(rt; is_reply(other.as_slice()));
    Ok(())
}

#[test]
fn runs_that_read_as_each_other(rt: HostRuntime) -> Result<(), Fail> {
    let alloc = rt.alloc();
    let fifty = Fifty::new(alloc)?;
    let swapped = answer(&rt, alloc, &fifty, Constant(0), Swapped::new(alloc), 1)?;
    assert!(rt; is_reply(swapped.as_slice()));
    Ok(())
}

const THREE: &[u8] = b"create a (k int, x int)\nload a\nk,x\n1,1\n2,1\n3,1\n\\.\n";

/// What is answered to a query of three rows within a budget, over a store of which this call
/// fails.
fn of_three(alloc: Global, query: &[u8], groups: u32, call: u64) -> Result<Vec<u8>, Fail> {
    let store = FuseStore::new(MemStore::new(alloc), Trouble::Fail(call));
    let mut engine = engine_over(alloc, Constant(0), store, groups)?;
    let _ = written_to(alloc, &mut engine, THREE);
    Ok(written_to(alloc, &mut engine, query))
}

fn expect_of_three(
    rt: &impl Abort,
    alloc: Global,
    query: &[u8],
    groups: u32,
    call: u64,
    due: &[u8],
) -> Result<(), Fail> {
    let answer = of_three(alloc, query, groups, call)?;
    expect_at(rt, groups, answer.as_slice(), due);
    Ok(())
}

/// Asserts that a query of three rows makes fewer than `call` calls of the store within a budget of
/// three groups or more, and at least that many within one and two.
fn assert_budget_counts(
    rt: &impl Abort,
    alloc: Global,
    query: &[u8],
    reply: &[u8],
    call: u64,
) -> Result<(), Fail> {
    for groups in [3, 65_536, 1_048_576] {
        expect_of_three(rt, alloc, query, groups, call, reply)?;
    }
    for groups in [1, 2] {
        expect_of_three(rt, alloc, query, groups, call, FAILED)?;
    }
    Ok(())
}

/// Three groups need no run if the budget holds them, and otherwise do. The values that are counted
/// always go to a run: it is made, three pairs are written, and it is read.
#[test]
fn three_groups_within_a_budget_and_past_it(rt: HostRuntime) -> Result<(), Fail> {
    let alloc = rt.alloc();
    let counts = b"ok 3\nk,count(*)\n1,1\n2,1\n3,1\n";
    assert_budget_counts(&rt, alloc, b"group a by k show count(*)\n", counts, 1)?;
    assert_budget_counts(&rt, alloc, b"distinct a on k\n", b"ok 3\nk\n1\n2\n3\n", 1)?;
    let values = b"ok 3\nk,count(distinct x)\n1,1\n2,1\n3,1\n";
    assert_budget_counts(
        &rt,
        alloc,
        b"group a by k show count(distinct x)\n",
        values,
        1 + 3 + 1 + 1,
    )
}
