//! Queries of four rows, one group at a time, over a store of which each call fails in turn: one
//! query is answered `StoreFault`, and the others as expected.
use crate::engines::{engine_over, written_to};
use gq_engine::MemStore;
use gq_row::Key;
use gq_spill::{FuseStore, Trouble};
use std::alloc::{AllocError, Global};
use std::process::Abort;
use std::test::Fail;
use sw_probe::{Constant, Fnv1a, KeyHash};

const FAILED: &[u8] = b"err 16 StoreFault\n";

const MADE: &[u8] =
    b"create c (n int, x int, key (n))\nupsert c (1, 5)\nupsert c (2, 5)\nupsert c (3, null)\nupsert c (4, 7)\n";

const SHOWN: &[u8] = b"ok 4\nn,x\n1,5\n2,5\n3,\\N\n4,7\n";

/// Queries, each with its reply.
const QUERIES: [(&[u8], &[u8]); 4] = [
    (
        b"group c show count(distinct x), count(x), count(*)\n",
        b"ok 1\ncount(distinct x),count(x),count(*)\n2,3,4\n",
    ),
    (
        b"group c show count(distinct x), max(x), count(*) where x is null\n",
        b"ok 1\ncount(distinct x),max(x),count(*)\n0,\\N,1\n",
    ),
    (b"distinct c on x\n", b"ok 3\nx\n\\N\n5\n7\n"),
    (
        b"group c by rollup (x, n) show count(*), count(distinct n) where n < 4\n",
        b"ok 6\nlevel,x,n,count(*),count(distinct n)\n0,\\N,\\N,3,3\n1,\\N,\\N,1,1\n1,5,\\N,2,2\n2,\\N,3,1,1\n2,5,1,1,1\n2,5,2,1,1\n",
    ),
];

/// The queries, one after the other.
fn script_of(alloc: Global, queries: &[(&[u8], &[u8])]) -> Result<Vec<u8>, AllocError> {
    let mut script = Vec::new(alloc);
    for (query, _reply) in queries {
        script.extend_from_slice(query)?;
    }
    Ok(script)
}

/// How many of the queries are answered `StoreFault`; `None` if another answer is wrong.
fn failed_of(queries: &[(&[u8], &[u8])], answers: &[u8]) -> Option<usize> {
    let mut left = answers;
    let mut failed = 0usize;
    for (_query, reply) in queries {
        left = match left.strip_prefix(reply) {
            Some(rest) => rest,
            None => {
                failed = failed.saturating_add(1);
                left.strip_prefix(FAILED)?
            }
        };
    }
    if left.is_empty() { Some(failed) } else { None }
}

/// How many of the queries are answered `StoreFault` if this call of the store fails.
fn failed_at<H: KeyHash<Key> + Copy>(
    rt: &impl Abort,
    alloc: Global,
    hasher: H,
    call: u64,
) -> Result<Option<usize>, Fail> {
    let store = FuseStore::new(MemStore::new(alloc), Trouble::Fail(call));
    let mut engine = engine_over(alloc, hasher, store, 1)?;
    let _ = written_to(alloc, &mut engine, MADE);
    let script = script_of(alloc, &QUERIES)?;
    let answers = written_to(alloc, &mut engine, script.as_slice());
    let shown = written_to(alloc, &mut engine, b"show c\n");
    assert!(rt; shown.as_slice() == SHOWN, "call {call}");
    Ok(failed_of(&QUERIES, answers.as_slice()))
}

/// Lets each call fail in turn until none does, and returns how many did.
fn failing<H: KeyHash<Key> + Copy>(rt: &impl Abort, alloc: Global, hasher: H) -> Result<u64, Fail> {
    for call in 1..1_000u64 {
        match failed_at(rt, alloc, hasher, call)? {
            Some(0) => return Ok(call - 1),
            Some(1) => {}
            _ => return Err(Fail::new("a query has a wrong answer")),
        }
    }
    Err(Fail::new("calls failed to the end"))
}

/// Each query makes at least one run, writes to it and reads it.
#[test]
fn each_call_fails_in_turn(rt: HostRuntime) -> Result<(), Fail> {
    let spread = failing(&rt, rt.alloc(), Fnv1a { seed: 0 })?;
    assert!(rt; 12 <= spread, "{spread} calls");
    let alike = failing(&rt, rt.alloc(), Constant(0))?;
    assert!(rt; 12 <= alike, "{alike} calls");
    Ok(())
}
