//! All memory of a process but a little, for tests in which allocations fail: first with none left, then with a
//! little more each time, so that each allocation is the first to fail in some run.
//!
//! The memory is allocated in blocks that are held and never written to. A test that does so has a process of
//! its own, so no other is affected.
//!
//! If no addresses are left a stack can't grow, and a process whose stack has to is ended by a signal. So a
//! test first does once, with enough memory, what it will do without.
#![tactic(auto)]

use std::alloc::{AllocError, Global};

/// The most bytes that a run can have, few enough for the allocator to take them from its heap.
pub const POOL: usize = 100_000;

/// How many runs there can be.
pub const POOLS: usize = 1_000;

// More blocks than are ever held.
const BLOCKS: usize = 500_000;

// The first size of blocks, in bytes: half of what a process can address.
const GREATEST: usize = 1 << 46;

/// All memory that there was, some of it in pools that can be freed.
#[derive(Drop)]
pub struct Starved {
    held: Vec<Vec<u8>>,
    pools: Vec<Vec<u8>>,
}

impl Starved {
    /// Allocates the pools, and then blocks of the largest size until that fails, then of half the size, down
    /// to one byte.
    pub fn new(alloc: Global) -> Result<Starved, AllocError> {
        let mut pools = Vec::with_capacity(alloc, POOLS)?;
        for _ in 0..POOLS {
            pools.push(Vec::with_capacity(alloc, POOL)?)?;
        }
        let mut starved = Starved {
            held: Vec::with_capacity(alloc, BLOCKS)?,
            pools,
        };
        for halvings in 0..=46u32 {
            starved.take_all(alloc, GREATEST >> halvings);
        }
        Ok(starved)
    }

    // Allocates blocks of one size until that fails.
    fn take_all(&mut self, alloc: Global, size: usize) {
        for _ in self.held.len()..self.held.capacity() {
            let Ok(block) = Vec::with_capacity(alloc, size) else {
                return;
            };
            let _ = self.held.push(block);
        }
    }

    // Allocates what little there is: blocks of each small size, then of half the size each time, then of each
    // small size.
    fn take_rest(&mut self, alloc: Global) {
        for k in 0..64usize {
            self.take_all(alloc, 24 + 16 * k);
        }
        for halvings in 0..=17u32 {
            self.take_all(alloc, (1 << 17) >> halvings);
        }
        for k in 0..64usize {
            self.take_all(alloc, 24 + 16 * k);
        }
    }

    /// Leaves `bytes` bytes for one run, or none if no pool is left.
    pub fn leave(&mut self, alloc: Global, bytes: usize) -> Result<Vec<u8>, AllocError> {
        drop(self.pools.pop());
        Vec::with_capacity(alloc, POOL.saturating_sub(bytes))
    }

    /// Allocates again what a run had, and takes over what was kept from it.
    pub fn end(&mut self, alloc: Global, kept: Vec<u8>) {
        if self.held.len() < self.held.capacity() {
            let _ = self.held.push(kept);
        }
        self.take_rest(alloc);
    }
}
