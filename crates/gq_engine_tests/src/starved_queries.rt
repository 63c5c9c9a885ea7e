//! Queries of forty rows while memory runs out: each is answered as with ample memory, or `Memory`,
//! and the tables stay the same.
use crate::engines::{engine_over, run, written_to};
use crate::expected::expect;
use gq_engine::{Engine, MemStore};
use gq_row::Key;
use starved_tests::{POOL, POOLS, Starved};
use std::alloc::{AllocError, Global};
use std::process::Abort;
use std::test::Fail;
use sw_probe::{Constant, Fnv1a, KeyHash};

// By how many bytes the available memory grows with each step.
const STEP: usize = 96;

// More bytes than all replies have.
const REPLIES: usize = 4_000;

// The reply if an allocation failed.
const WANTING: &[u8] = b"err 15 Memory\n";

const EMPTY: &[u8] = b"create t (n int, g int, x int, city text, key (n))\nload t\nn,g,x,city\n";

const OTHERS: &[u8] =
    b"\\.\ncreate u (m int, k int, key (m))\nload u\nm,k\n1,1\n2,\n3,4\n4,9\n\\.\n";

const LOADED: &[u8] = b"ok 0\nok 40\nok 0\nok 4\n";

const SHOWS: &[u8] = b"show t\nshow u\n";

/// A command and its reply.
type Query<'a> = (&'a [u8], &'a [u8]);

const QUERIES: [Query; 10] = [
    (
        b"group t by n show count(*), sum(n)\n",
        b"ok 40\nn,count(*),sum(n)\n0,1,0\n1,1,1\n2,1,2\n3,1,3\n4,1,4\n5,1,5\n6,1,6\n7,1,7\n8,1,8\n9,1,9\n10,1,10\n11,1,11\n12,1,12\n13,1,13\n14,1,14\n15,1,15\n16,1,16\n17,1,17\n18,1,18\n19,1,19\n20,1,20\n21,1,21\n22,1,22\n23,1,23\n24,1,24\n25,1,25\n26,1,26\n27,1,27\n28,1,28\n29,1,29\n30,1,30\n31,1,31\n32,1,32\n33,1,33\n34,1,34\n35,1,35\n36,1,36\n37,1,37\n38,1,38\n39,1,39\n",
    ),
    (
        b"group t by g show count(*), sum(n), max(city), count(distinct city), min(city)\n",
        b"ok 7\ng,count(*),sum(n),max(city),count(distinct city),min(city)\n0,6,105,a city whose name is long 2,3,a city whose name is long 0\n1,6,111,a city whose name is long 2,3,a city whose name is long 0\n2,6,117,a city whose name is long 2,3,a city whose name is long 0\n3,6,123,a city whose name is long 2,3,a city whose name is long 0\n4,6,129,a city whose name is long 2,3,a city whose name is long 0\n5,5,95,a city whose name is long 2,3,a city whose name is long 0\n6,5,100,a city whose name is long 2,3,a city whose name is long 0\n",
    ),
    (
        b"group t by g show count(*), sum(x), min(x), max(city) where n >= 10 and x is not null\n",
        b"ok 7\ng,count(*),sum(x),min(x),max(city)\n0,3,-33,-18,a city whose name is long 2\n1,3,-57,-26,a city whose name is long 2\n2,3,-46,-27,a city whose name is long 2\n3,4,-70,-28,a city whose name is long 2\n4,4,-60,-29,a city whose name is long 2\n5,4,-50,-23,a city whose name is long 2\n6,3,-44,-24,a city whose name is long 1\n",
    ),
    (
        b"group t by g show count(*), sum(n) having count(*) > 5 and sum(n) <> 105\n",
        b"ok 4\ng,count(*),sum(n)\n1,6,111\n2,6,117\n3,6,123\n4,6,129\n",
    ),
    (
        b"group t by city show count(*), count(distinct g) exists u (k) = (g)\n",
        b"ok 3\ncity,count(*),count(distinct g)\na city whose name is long 0,4,2\na city whose name is long 1,4,2\na city whose name is long 2,4,2\n",
    ),
    (
        b"group t show count(*), sum(n), min(city) where x < 0 not exists u (k) = (g)\n",
        b"ok 1\ncount(*),sum(n),min(city)\n17,413,a city whose name is long 0\n",
    ),
    (
        b"group t show count(*) having count(*) > 100\n",
        b"ok 0\ncount(*)\n",
    ),
    (
        b"distinct t on city\n",
        b"ok 3\ncity\na city whose name is long 0\na city whose name is long 1\na city whose name is long 2\n",
    ),
    (
        b"distinct t on g where n > 30 and x <= -24\n",
        b"ok 5\ng\n1\n2\n3\n4\n6\n",
    ),
    (
        b"group t by rollup (city, g) show count(*), sum(n), count(distinct x) where n < 9 having sum(n) > 4\n",
        b"ok 8\nlevel,city,g,count(*),sum(n),count(distinct x)\n0,\\N,\\N,9,36,7\n1,a city whose name is long 0,\\N,3,9,2\n1,a city whose name is long 1,\\N,3,12,3\n1,a city whose name is long 2,\\N,3,15,2\n2,a city whose name is long 0,6,1,6,1\n2,a city whose name is long 1,0,1,7,1\n2,a city whose name is long 2,1,1,8,1\n2,a city whose name is long 2,5,1,5,0\n",
    ),
];

/// A row of a number, its remainder by 7, ten less the number, or null if 5 divides it, and one of
/// three texts that have a block of their own.
fn row(alloc: Global, n: i64) -> Result<String, AllocError> {
    let (g, city) = (n % 7, n % 3);
    let mut x = String::new(alloc);
    if n % 5 != 0 {
        let less = 10i64.saturating_sub(n);
        x = format!(in alloc; "{less}")?;
    }
    let x = x.as_str();
    format!(in alloc; "{n},{g},{x},a city whose name is long {city}\n")
}

/// The commands that create the tables.
fn tables(alloc: Global) -> Result<Vec<u8>, AllocError> {
    let mut script = Vec::from_slice(alloc, EMPTY)?;
    for n in 0..40i64 {
        script.extend_from_slice(row(alloc, n)?.as_bytes())?;
    }
    script.extend_from_slice(OTHERS)?;
    Ok(script)
}

/// The queries, one after the other.
fn script_of(alloc: Global, queries: &[Query]) -> Result<Vec<u8>, AllocError> {
    let mut script = Vec::new(alloc);
    for (query, _reply) in queries {
        script.extend_from_slice(query)?;
    }
    Ok(script)
}

/// How many of the queries are answered `Memory`; `None` if another answer is wrong.
fn refused_of(queries: &[Query], answers: &[u8]) -> Option<usize> {
    let mut left = answers;
    let mut refused = 0usize;
    for (_query, reply) in queries {
        left = match left.strip_prefix(reply) {
            Some(rest) => rest,
            None => {
                refused = refused.saturating_add(1);
                left.strip_prefix(WANTING)?
            }
        };
    }
    if left.is_empty() { Some(refused) } else { None }
}

/// Asks all queries, and returns how many are answered `Memory`; `None` if another answer is wrong.
fn ask<H: KeyHash<Key> + Copy>(
    rt: &impl Abort,
    engine: &mut Engine<H, MemStore>,
    script: &[u8],
    answers: &mut Vec<u8>,
) -> Option<usize> {
    answers.clear();
    let ended = run(engine, script, answers);
    assert!(rt; ended.is_ok());
    refused_of(&QUERIES, answers.as_slice())
}

/// The rows of the tables.
fn shown_by<H: KeyHash<Key> + Copy>(alloc: Global, engine: &mut Engine<H, MemStore>) -> Vec<u8> {
    written_to(alloc, engine, SHOWS)
}

fn expect_shown<H: KeyHash<Key> + Copy>(
    rt: &impl Abort,
    alloc: Global,
    engine: &mut Engine<H, MemStore>,
    due: &[u8],
) {
    let shown = shown_by(alloc, engine);
    assert!(rt; shown.as_slice() == due);
}

/// Asks with a little memory, then with more and more, until every query is answered. Returns how
/// often there was too little memory before that.
fn starve<H: KeyHash<Key> + Copy>(
    rt: &impl Abort,
    alloc: Global,
    engine: &mut Engine<H, MemStore>,
    script: &[u8],
    answers: &mut Vec<u8>,
) -> Result<usize, Fail> {
    let shown = shown_by(alloc, engine);
    // A first time with ample memory, so that the stack has grown to its full size.
    expect(rt, ask(rt, engine, script, answers), Some(0));
    expect_shown(rt, alloc, engine, shown.as_slice());
    let mut starved = Starved::new(alloc)?;
    for step in 0..POOLS / 2 {
        let left = starved.leave(alloc, STEP.saturating_mul(step))?;
        let refused = ask(rt, engine, script, answers);
        let spare = starved.leave(alloc, POOL)?;
        expect_shown(rt, alloc, engine, shown.as_slice());
        match refused {
            Some(0) => return Ok(step),
            Some(_) => {}
            None => return Err(Fail::new("a query has a wrong answer")),
        }
        starved.end(alloc, spare);
        starved.end(alloc, left);
    }
    Err(Fail::new("memory was wanting to the end"))
}

fn make_tables<H: KeyHash<Key> + Copy>(
    rt: &impl Abort,
    alloc: Global,
    engine: &mut Engine<H, MemStore>,
) -> Result<(), Fail> {
    let script = tables(alloc)?;
    let made = written_to(alloc, engine, script.as_slice());
    assert!(rt; made.as_slice() == LOADED);
    Ok(())
}

fn expect_starved<H: KeyHash<Key> + Copy>(
    rt: &impl Abort,
    alloc: Global,
    hasher: H,
    groups: u32,
) -> Result<(), Fail> {
    let script = script_of(alloc, &QUERIES)?;
    let mut answers = Vec::with_capacity(alloc, REPLIES)?;
    let mut engine = engine_over(alloc, hasher, MemStore::new(alloc), groups)?;
    make_tables(rt, alloc, &mut engine)?;
    let steps = starve(rt, alloc, &mut engine, script.as_slice(), &mut answers)?;
    assert!(rt; 10 < steps, "{steps} steps");
    Ok(())
}

#[test]
fn one_group_at_once_under_fnv_1a(rt: HostRuntime) -> Result<(), Fail> {
    expect_starved(&rt, rt.alloc(), Fnv1a { seed: 0 }, 1)
}

#[test]
fn one_group_at_once_under_one_hash_for_all(rt: HostRuntime) -> Result<(), Fail> {
    expect_starved(&rt, rt.alloc(), Constant(0), 1)
}

#[test]
fn seven_groups_at_once_under_fnv_1a(rt: HostRuntime) -> Result<(), Fail> {
    expect_starved(&rt, rt.alloc(), Fnv1a { seed: 0 }, 7)
}

#[test]
fn seven_groups_at_once_under_one_hash_for_all(rt: HostRuntime) -> Result<(), Fail> {
    expect_starved(&rt, rt.alloc(), Constant(0), 7)
}
