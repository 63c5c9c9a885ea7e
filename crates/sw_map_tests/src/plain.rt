//! What random runs are compared with: a plain list of entries; and pseudo-random numbers for the calls.
ghost use Rattle.std.specs.Prelude.{◌<◌};

use std::alloc::{AllocError, Global};

/// The number of calls of a random run.
pub(crate) const CALLS: u64 = 100_000;

/// The number of keys that a call draws from: by turns few and many, so that the map is crowded and grows.
pub(crate) fn keys_at(call: u64) -> u64 {
    match call / 5_000 % 3 {
        0 => 24,
        1 => 60,
        _ => 300,
    }
}

/// A list of entries with distinct keys, searched from its start.
#[derive(Drop)]
pub(crate) struct PlainList {
    entries: Vec<(u64, u64)>,
}

impl PlainList {
    pub(crate) fn new(alloc: Global) -> PlainList {
        PlainList {
            entries: Vec::new(alloc),
        }
    }

    pub(crate) fn len(&self) -> usize {
        self.entries.len()
    }

    pub(crate) fn get(&self, key: u64) -> Option<u64> {
        let (_, value) = self.entries.iter().find(|entry| entry.0 == key)?;
        Some(*value)
    }

    /// Adds the entry, or assigns the value to a key that is there and returns the old one.
    pub(crate) fn put(&mut self, key: u64, value: u64) -> Result<Option<u64>, AllocError> {
        for entry in &mut self.entries {
            if entry.0 == key {
                let old = entry.1;
                entry.1 = value;
                return Ok(Some(old));
            }
        }
        self.entries.push((key, value))?;
        Ok(None)
    }

    pub(crate) fn take(&mut self, key: u64) -> Option<(u64, u64)> {
        let i = self.entries.iter().position(|entry| entry.0 == key)?;
        Some(self.entries.swap_remove(i))
    }

    pub(crate) fn clear(&mut self) {
        self.entries.clear();
    }
}

/// Pseudo-random numbers, the same for the same start: a linear congruential generator modulo 2^64 with the
/// multiplier and the increment of Knuth's MMIX, whose upper bits are used.
#[derive(Drop)]
pub(crate) struct Draws {
    state: u64,
}

impl Draws {
    pub(crate) fn from(start: u64) -> Draws {
        Draws { state: start }
    }

    pub(crate) fn below(&mut self, bound: u64) -> u64
        requires { 0 < bound }
    {
        self.state = self
            .state
            .wrapping_mul(6_364_136_223_846_793_005)
            .wrapping_add(1_442_695_040_888_963_407);
        (self.state >> 33) % bound
    }
}
