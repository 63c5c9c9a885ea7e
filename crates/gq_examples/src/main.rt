//! Worked scripts and their replies. Each name in `data/names` is a script `NAME.gq`, which an
//! engine runs with the largest limits, and the bytes `NAME.out` that it must write: with FNV-1a
//! and with `WordHash` under two seeds each, with one hash for all keys (0 and 2^64 - 1), and with
//! 0, 7 and 11 bits of a hash; each within a budget of 1, 2, 7 and 65,536. A new example is two
//! files and a name in the list.
//!
//! The standard output has a line `NAME ok` for each script, or `NAME WRONG` if the bytes differ.
#![tactic(auto)]

use gq_engine::{Budget, Engine, MemStore};
use gq_row::{Key, Limits};
use std::alloc::Global;
use std::rt::Files;
use std::{fs, io};
use sw_probe::{Constant, Fnv1a, KeyHash, LowBits, WordHash};

/// Whether a script writes these bytes, with a hasher and a budget.
fn writes_within<H: KeyHash<Key> + Copy>(
    alloc: Global,
    hasher: H,
    budget: Budget,
    script: &[u8],
    due: &[u8],
) -> bool {
    let mut engine = Engine::new(
        alloc,
        hasher,
        MemStore::new(alloc),
        budget,
        Limits::greatest(),
    );
    let mut written = Vec::new(alloc);
    let _ended = engine.run(script, &mut written);
    written.as_slice() == due
}

/// The same, within each budget.
fn writes<H: KeyHash<Key> + Copy>(alloc: Global, hasher: H, script: &[u8], due: &[u8]) -> bool {
    [1, 2, 7, 65_536]
        .into_iter()
        .all(|entries| match Budget::new(entries) {
            Some(budget) => writes_within(alloc, hasher, budget, script, due),
            None => false,
        })
}

fn is_right(rt: &(impl Files + AllocGlobal), name: &str) -> io::Result<bool> {
    let alloc = rt.alloc();
    let script = fs::read(rt, format!(in alloc; "{name}.gq")?.as_str())?;
    let due = fs::read(rt, format!(in alloc; "{name}.out")?.as_str())?;
    let (script, due) = (script.as_slice(), due.as_slice());
    Ok(
        writes(alloc, Fnv1a { seed: 0 }, script, due)
            && writes(alloc, Fnv1a { seed: u64::MAX }, script, due)
            && writes(alloc, WordHash { seed: 0 }, script, due)
            && writes(alloc, WordHash { seed: u64::MAX }, script, due)
            && writes(alloc, Constant(0), script, due)
            && writes(alloc, Constant(u64::MAX), script, due)
            && writes(alloc, LowBits(0), script, due)
            && writes(alloc, LowBits(7), script, due)
            && writes(alloc, LowBits(11), script, due),
    )
}

fn main(rt: HostRuntime) -> io::Result<()> {
    let names = fs::read_to_string(&rt, "names")?;
    for name in names.as_str().lines() {
        if is_right(&rt, name)? {
            println!(rt; "{name} ok")?;
        } else {
            println!(rt; "{name} WRONG")?;
        }
    }
    Ok(())
}
