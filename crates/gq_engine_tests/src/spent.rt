//! The work that an engine reports for its groupings.
use crate::engines::{engine, engine_over, replies_to};
use crate::expected::expect_at;
use gq_engine::{Engine, MemStore, Spent};
use gq_row::{Key, Limits};
use std::alloc::{AllocError, Global};
use std::process::Abort;
use std::test::Fail;
use sw_probe::{Constant, Fnv1a, KeyHash, LowBits};

const NOTHING: Spent = Spent {
    rows_read: 0,
    rows_written: 0,
    groups: 0,
    runs: 0,
};

fn spent(rows_read: u64, rows_written: u64, groups: u64, runs: u64) -> Spent {
    Spent {
        rows_read,
        rows_written,
        groups,
        runs,
    }
}

/// A table of 500 rows in fifty groups of ten.
fn rows_in_groups(alloc: Global) -> Result<Vec<u8>, AllocError> {
    let mut script = Vec::new(alloc);
    script.extend_from_slice(b"create b (id int, n int)\n")?;
    for id in 0..500u64 {
        let row = format!(in alloc; "upsert b ({id}, {})\n", id % 50)?;
        script.extend_from_slice(row.as_bytes())?;
    }
    Ok(script)
}

/// Groups that table's rows, and expects the work that was spent by then.
fn expect_grouped<H: KeyHash<Key> + Copy>(
    rt: &impl Abort,
    alloc: Global,
    engine: &mut Engine<H, MemStore>,
    budget: u32,
    due: Spent,
) -> Result<(), Fail> {
    let replies = replies_to(alloc, engine, b"group b by n show count(*)")?;
    let prefix: &[u8] = b"ok 50\nn,count(*)\n0,10\n1,10\n";
    assert!(rt; replies.as_slice().starts_with(prefix));
    expect_at(rt, budget, engine.spent(), due);
    Ok(())
}

fn twice(took: Spent) -> Spent {
    spent(
        took.rows_read.saturating_mul(2),
        took.rows_written.saturating_mul(2),
        took.groups.saturating_mul(2),
        took.runs.saturating_mul(2),
    )
}

/// Asserts the work of one grouping of that table within a budget, and that a second one adds the
/// same.
fn assert_takes<H: KeyHash<Key> + Copy>(
    rt: &impl Abort,
    alloc: Global,
    hasher: H,
    budget: u32,
    due: Spent,
) -> Result<(), Fail> {
    let script = rows_in_groups(alloc)?;
    let mut engine = engine_over(alloc, hasher, MemStore::new(alloc), budget)?;
    replies_to(alloc, &mut engine, script.as_slice())?;
    expect_at(rt, budget, engine.spent(), NOTHING);
    expect_grouped(rt, alloc, &mut engine, budget, due)?;
    expect_grouped(rt, alloc, &mut engine, budget, twice(due))
}

/// With one group at a time and one hash, each pass writes all rows but those of one group to a
/// run. One group more than the budget takes one run; no more groups than the budget take none.
#[test]
fn five_hundred_rows_in_fifty_groups(rt: HostRuntime) -> Result<(), Fail> {
    let alloc = rt.alloc();
    assert_takes(&rt, alloc, Constant(0), 1, spent(500, 12_250, 50, 49))?;
    for (budget, due) in [(49, spent(500, 10, 50, 1)), (50, spent(500, 0, 50, 0))] {
        assert_takes(&rt, alloc, Constant(0), budget, due)?;
        assert_takes(&rt, alloc, Fnv1a { seed: 0 }, budget, due)?;
        assert_takes(&rt, alloc, Fnv1a { seed: 5 }, budget, due)?;
        assert_takes(&rt, alloc, LowBits(3), budget, due)?;
    }
    Ok(())
}

/// A table of forty rows, each with a key of its own.
fn forty_keys(alloc: Global) -> Result<Vec<u8>, AllocError> {
    let mut script = Vec::new(alloc);
    script.extend_from_slice(b"create k (n int, v int)\n")?;
    for n in 0..40u64 {
        let row = format!(in alloc; "upsert k ({n}, {})\n", n % 3)?;
        script.extend_from_slice(row.as_bytes())?;
    }
    Ok(script)
}

/// Groupings of that table, and how many rows each reads and how many groups it makes.
const OF_FORTY: [(&[u8], (u64, u64)); 6] = [
    (b"group k by n show count(*)", (40, 40)),
    (b"group k by n show count(distinct v)", (40, 40)),
    (b"group k by n show count(*), count(distinct v)", (40, 40)),
    (b"group k by rollup (n) show count(*)", (80, 41)),
    (b"group k by rollup (n) show count(distinct v)", (80, 41)),
    (
        b"group k by rollup (n) show count(*), count(distinct v)",
        (80, 41),
    ),
];

/// Expects the work of each grouping, within a budget of one group.
fn expect_forty(
    rt: &impl Abort,
    alloc: Global,
    groupings: &[(&[u8], (u64, u64))],
) -> Result<(), Fail> {
    let script = forty_keys(alloc)?;
    for (line, (rows_read, groups)) in groupings {
        let mut engine = engine_over(alloc, Constant(0), MemStore::new(alloc), 1)?;
        replies_to(alloc, &mut engine, script.as_slice())?;
        replies_to(alloc, &mut engine, line)?;
        let due = spent(*rows_read, 780, *groups, 39);
        expect_at(rt, *line, engine.spent(), due);
    }
    Ok(())
}

/// All keys have one hash, so each pass writes all rows but one to a run: 39 + 38 + .. + 1 rows, 39
/// runs. The total of a rollup is one group, without runs; counts of distinct values are left out.
#[test]
fn forty_keys_one_at_a_time(rt: HostRuntime) -> Result<(), Fail> {
    expect_forty(&rt, rt.alloc(), &OF_FORTY)
}

/// Lines, their replies, and how many rows were read and groups made by then.
const LINES: [(&[u8], &[u8], (u64, u64)); 20] = [
    (b"create t (a int, b int, c text)", b"ok 0\n", (0, 0)),
    (b"upsert t (1, 9223372036854775807, 'x')", b"ok 1\n", (0, 0)),
    (b"upsert t (1, 1, 'y')", b"ok 1\n", (0, 0)),
    (b"upsert t (2, 5, null)", b"ok 1\n", (0, 0)),
    (b"group t by a show sum(b)", b"err 13 SumRange\n", (0, 0)),
    (b"distinct t on a", b"ok 2\na\n1\n2\n", (0, 0)),
    (
        b"group t by a show count(*)",
        b"ok 2\na,count(*)\n1,2\n2,1\n",
        (3, 2),
    ),
    (b"group t by a show sum(b)", b"err 13 SumRange\n", (3, 2)),
    (
        b"group t by a show count(distinct c)",
        b"ok 2\na,count(distinct c)\n1,2\n2,0\n",
        (6, 4),
    ),
    (
        b"group t by a show count(distinct b), min(c), count(distinct c) where b < 9",
        b"ok 2\na,count(distinct b),min(c),count(distinct c)\n1,1,y,1\n2,1,\\N,0\n",
        (8, 6),
    ),
    (
        b"group t by a show count(*) having a > 7",
        b"ok 0\na,count(*)\n",
        (11, 8),
    ),
    (
        b"group t show count(*) where a = 7",
        b"ok 1\ncount(*)\n0\n",
        (11, 9),
    ),
    (
        b"group t by b show count(*) not exists t (a) = (a)",
        b"ok 0\nb,count(*)\n",
        (11, 9),
    ),
    (b"group t by d show count(*)", b"err 5 NoColumn\n", (11, 9)),
    (
        b"group t by rollup (a, c) show count(*), count(distinct b) where b < 9",
        b"ok 5\nlevel,a,c,count(*),count(distinct b)\n0,\\N,\\N,2,2\n1,1,\\N,1,1\n1,2,\\N,1,1\n2,1,y,1,1\n2,2,\\N,1,1\n",
        (17, 14),
    ),
    (
        b"group t by rollup (a) show sum(b)",
        b"err 13 SumRange\n",
        (17, 14),
    ),
    (b"upsert t (3, -9, null)", b"ok 1\n", (17, 14)),
    // The total is within range now, but a group isn't.
    (
        b"group t by rollup (a) show sum(b)",
        b"err 13 SumRange\n",
        (17, 14),
    ),
    (
        b"group t by rollup (a) show count(*) having a is null",
        b"ok 1\nlevel,a,count(*)\n0,\\N,4\n",
        (25, 18),
    ),
    (b"drop t", b"ok 0\n", (25, 18)),
];

/// Expects the reply to each line, and the work that was spent by then.
fn expect_lines(
    rt: &impl Abort,
    alloc: Global,
    engine: &mut Engine<Fnv1a, MemStore>,
    lines: &[(&[u8], &[u8], (u64, u64))],
) -> Result<(), Fail> {
    for (line, reply, (rows_read, groups)) in lines {
        let replies = replies_to(alloc, engine, line)?;
        expect_at(rt, *line, replies.as_slice(), *reply);
        let due = spent(*rows_read, 0, *groups, 0);
        expect_at(rt, *line, engine.spent(), due);
    }
    Ok(())
}

/// Work counts the rows that `where` and `exists` keep, whatever `having` says, once for each level
/// of a rollup, without counts of distinct values. Other commands and refused ones add none.
#[test]
fn only_groups_that_are_answered(rt: HostRuntime) -> Result<(), Fail> {
    let mut engine = engine(rt.alloc(), Limits::greatest());
    expect_lines(&rt, rt.alloc(), &mut engine, &LINES)
}
