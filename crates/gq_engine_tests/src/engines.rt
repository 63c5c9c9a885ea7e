//! Engines to test.
use gq_engine::{Budget, Engine, Fault, MemStore, RunStore, Summary};
use gq_row::{Key, Limits};
use std::alloc::{AllocError, Global};
use std::io::{Read, Write};
use std::test::Fail;
use sw_probe::{Fnv1a, KeyHash};

/// An engine without tables, with a run store in memory and a budget of 65,536 groups.
pub fn engine_with<H: KeyHash<Key> + Copy>(
    alloc: Global,
    hasher: H,
    limits: Limits,
) -> Engine<H, MemStore> {
    match Budget::new(65_536) {
        Some(budget) => Engine::new(alloc, hasher, MemStore::new(alloc), budget, limits),
        None => unreachable!(),
    }
}

/// The same with FNV-1a.
pub fn engine(alloc: Global, limits: Limits) -> Engine<Fnv1a, MemStore> {
    engine_with(alloc, Fnv1a { seed: 0 }, limits)
}

/// An engine without tables, with the largest limits, this run store, and a budget of `groups`.
pub fn engine_over<H: KeyHash<Key> + Copy, S: RunStore + Drop>(
    alloc: Global,
    hasher: H,
    store: S,
    groups: u32,
) -> Result<Engine<H, S>, Fail> {
    let Some(budget) = Budget::new(groups) else {
        return Err(Fail::new("no such budget"));
    };
    Ok(Engine::new(alloc, hasher, store, budget, Limits::greatest()))
}

/// Runs a script. It has no contract, as the proofs of tests need none.
pub fn run<H: KeyHash<Key> + Copy, S: RunStore, R: Read + Drop, W: Write>(
    engine: &mut Engine<H, S>,
    reader: R,
    writer: &mut W,
) -> Result<Summary, Fault> {
    engine.run(reader, writer)
}

/// What an engine writes for a script.
pub fn written_to<H: KeyHash<Key> + Copy, S: RunStore>(
    alloc: Global,
    engine: &mut Engine<H, S>,
    script: &[u8],
) -> Vec<u8> {
    let mut written = Vec::new(alloc);
    let _ = run(engine, script, &mut written);
    written
}

/// What an engine writes for a script, which must run without a fault.
pub fn replies_to<H: KeyHash<Key> + Copy, S: RunStore>(
    alloc: Global,
    engine: &mut Engine<H, S>,
    script: &[u8],
) -> Result<Vec<u8>, Fail> {
    let mut written = Vec::new(alloc);
    match run(engine, script, &mut written) {
        Ok(_) => Ok(written),
        Err(_) => Err(Fail::new("a fault")),
    }
}

/// What an engine without tables writes for a script under limits, and how the run ends.
pub fn run_alone<R: Read + Drop>(
    alloc: Global,
    limits: Limits,
    reader: R,
) -> (Vec<u8>, Result<Summary, Fault>) {
    let mut engine = engine(alloc, limits);
    let mut written = Vec::new(alloc);
    let ended = run(&mut engine, reader, &mut written);
    (written, ended)
}

/// Commands, one after the other.
pub fn joined(alloc: Global, commands: &[&[u8]]) -> Result<Vec<u8>, AllocError> {
    let mut script = Vec::new(alloc);
    for command in commands {
        script.extend_from_slice(command)?;
    }
    Ok(script)
}
