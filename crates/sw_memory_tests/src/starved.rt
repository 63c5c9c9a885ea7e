//! A process without memory.
use std::alloc::{AllocError, Global};
use std::process::Abort;

// More blocks than are ever held.
const BLOCKS: usize = 500_000;

// The first size of blocks, in bytes: half of what a process can address.
const GREATEST: usize = 1 << 46;

/// All memory that there was. While this is held, every allocation fails.
#[derive(Drop)]
pub(crate) struct Starved {
    held: Vec<Vec<u8>>,
}

impl Starved {
    /// Allocates blocks of the largest size until that fails, then of half the size, down to one byte. Then an
    /// allocation of one byte has to fail.
    pub(crate) fn new(rt: &impl Abort, alloc: Global) -> Result<Starved, AllocError> {
        let mut starved = Starved {
            held: Vec::with_capacity(alloc, BLOCKS)?,
        };
        for halvings in 0..=46u32 {
            starved.take_all(alloc, GREATEST >> halvings);
        }
        assert!(rt; refuses(alloc));
        Ok(starved)
    }

    /// Allocates all memory but a block of `size` bytes, which is free then.
    pub(crate) fn leaving(
        rt: &impl Abort,
        alloc: Global,
        size: usize,
    ) -> Result<Starved, AllocError> {
        let spare: Vec<u8> = Vec::with_capacity(alloc, size)?;
        let starved = Starved::new(rt, alloc)?;
        drop(spare);
        Ok(starved)
    }

    // Allocates blocks of one size until that fails.
    fn take_all(&mut self, alloc: Global, size: usize) {
        for _ in self.held.len()..self.held.capacity() {
            let Ok(block) = Vec::with_capacity(alloc, size) else {
                return;
            };
            let _ = self.held.push(block);
        }
    }
}

// Whether an allocation of one byte fails.
fn refuses(alloc: Global) -> bool {
    let block: Result<Vec<u8>, AllocError> = Vec::with_capacity(alloc, 1);
    block.is_err()
}
