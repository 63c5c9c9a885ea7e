//! A script of changes while memory runs out. Each command is answered and carried out as over
//! plain lists, or is answered `Memory` and leaves the tables as they were.
use crate::engines::{engine_with, joined, run, written_to};
use gq_engine::{Engine, MemStore};
use gq_row::{Key, Limits};
use starved_tests::{POOL, POOLS, Starved};
use std::alloc::{AllocError, Global};
use std::process::Abort;
use std::test::Fail;
use sw_probe::{Constant, Fnv1a, KeyHash};

// By how many bytes the available memory grows with each step.
const STEP: usize = 96;

// Commands whose replies are one line each.
const COMMANDS: [&[u8]; 12] = [
    b"create s (id int, city text, key (id))\n",
    b"create l (a text, b int)\n",
    b"load s\nid,city\n1,a\n2,\"a city of a name that takes a block of its own\"\n\\.\n",
    b"load l\na,b\nx,1\ny,2\n\\.\n",
    b"load s\ncity,id\nx,1\ny,3\nz,3\n\\.\n",
    b"upsert l ('a text that takes a block of its own', 3)\n",
    b"load l\nb,a\n4,p\n5,q\n6,r\n7,s\n8,t\n9,u\n\\.\n",
    b"upsert s (3, 'w')\n",
    b"upsert s (4, 'v')\n",
    b"delete s (2)\n",
    b"load s\nid,city\n5,a\n6,b\n7,c\n8,d\n9,e\n10,f\n11,g\n12,h\n13,i\n14,j\n15,k\n16,l\n\\.\n",
    b"drop l\n",
];

// The commands that show the tables at the end.
const SHOWS: &[u8] = b"show s\nshow l\n";

// More bytes than all replies have.
const REPLIES: usize = 1_000;

const REFUSED: &[u8] = b"err 15 Memory";

fn is_refused(line: &[u8]) -> bool {
    line == REFUSED
}

/// The commands that were not answered `Memory`, as a script.
fn carried_out(alloc: Global, commands: &[&[u8]], answers: &[u8]) -> Result<Vec<u8>, AllocError> {
    let mut script = Vec::new(alloc);
    for (command, line) in commands.iter().zip(answers.split(|byte| *byte == b'\n')) {
        if !is_refused(line) {
            script.extend_from_slice(command)?;
        }
    }
    Ok(script)
}

/// The replies other than `Memory`.
fn kept(alloc: Global, answers: &[u8]) -> Result<Vec<u8>, AllocError> {
    let mut lines = Vec::new(alloc);
    for line in answers.split(|byte| *byte == b'\n') {
        if !line.is_empty() && !is_refused(line) {
            lines.extend_from_slice(line)?;
            lines.push(b'\n')?;
        }
    }
    Ok(lines)
}

/// Whether an engine without tables gives these answers to a script, and then has the same tables
/// as another engine.
fn comes_to<H: KeyHash<Key> + Copy>(
    alloc: Global,
    hasher: H,
    script: &[u8],
    answers: &[u8],
    tables: &mut Engine<H, MemStore>,
) -> bool {
    let mut engine = engine_with(alloc, hasher, Limits::greatest());
    let written = written_to(alloc, &mut engine, script);
    let shown = written_to(alloc, &mut engine, SHOWS);
    written.as_slice() == answers && shown.as_slice() == written_to(alloc, tables, SHOWS).as_slice()
}

/// Whether the answers are those over plain lists, or `Memory`, and the tables are those of the
/// commands that were carried out.
fn are_right<H: KeyHash<Key> + Copy>(
    alloc: Global,
    hasher: H,
    engine: &mut Engine<H, MemStore>,
    answers: &[u8],
) -> Result<bool, AllocError> {
    let script = carried_out(alloc, &COMMANDS, answers)?;
    let kept = kept(alloc, answers)?;
    Ok(comes_to(alloc, hasher, script.as_slice(), kept.as_slice(), engine))
}

fn expect_right<H: KeyHash<Key> + Copy>(
    rt: &impl Abort,
    alloc: Global,
    hasher: H,
    mut engine: Engine<H, MemStore>,
    answers: &[u8],
) -> Result<(), AllocError> {
    let are_right = are_right(alloc, hasher, &mut engine, answers)?;
    assert!(rt; are_right);
    Ok(())
}

/// Runs the commands without tables, and returns the engine.
fn ran<H: KeyHash<Key> + Copy>(
    rt: &impl Abort,
    alloc: Global,
    hasher: H,
    script: &[u8],
    answers: &mut Vec<u8>,
) -> Engine<H, MemStore> {
    let mut engine = engine_with(alloc, hasher, Limits::greatest());
    answers.clear();
    let ended = run(&mut engine, script, answers);
    assert!(rt; ended.is_ok());
    engine
}

/// Whether no command was answered `Memory`.
fn are_all_carried_out(answers: &[u8]) -> bool {
    !answers.split(|byte| *byte == b'\n').any(is_refused)
}

/// Runs the commands with a little memory, then with more and more, until all are carried out.
/// Returns the number of runs before that.
fn starve<H: KeyHash<Key> + Copy>(
    rt: &impl Abort,
    alloc: Global,
    hasher: H,
    script: &[u8],
    answers: &mut Vec<u8>,
) -> Result<usize, Fail> {
    // A first run with ample memory, so that the stack has grown to its full size.
    let first = ran(rt, alloc, hasher, script, answers);
    expect_right(rt, alloc, hasher, first, answers.as_slice())?;
    let mut starved = Starved::new(alloc)?;
    for step in 0..POOLS / 2 {
        let left = starved.leave(alloc, STEP.saturating_mul(step))?;
        let engine = ran(rt, alloc, hasher, script, answers);
        let spare = starved.leave(alloc, POOL)?;
        expect_right(rt, alloc, hasher, engine, answers.as_slice())?;
        if are_all_carried_out(answers.as_slice()) {
            return Ok(step);
        }
        starved.end(alloc, spare);
        starved.end(alloc, left);
    }
    Err(Fail::new("memory was wanting to the end"))
}

fn expect_starved<H: KeyHash<Key> + Copy>(
    rt: &impl Abort,
    alloc: Global,
    hasher: H,
) -> Result<(), Fail> {
    let script = joined(alloc, &COMMANDS)?;
    let mut answers = Vec::with_capacity(alloc, REPLIES)?;
    let steps = starve(rt, alloc, hasher, script.as_slice(), &mut answers)?;
    assert!(rt; 10 < steps, "{steps} steps");
    Ok(())
}

#[test]
fn under_fnv_1a(rt: HostRuntime) -> Result<(), Fail> {
    expect_starved(&rt, rt.alloc(), Fnv1a { seed: 0 })
}

#[test]
fn under_one_hash_for_all(rt: HostRuntime) -> Result<(), Fail> {
    expect_starved(&rt, rt.alloc(), Constant(0))
}
