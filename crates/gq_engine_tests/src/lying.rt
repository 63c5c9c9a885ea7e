//! Stores that lie: they keep what is written, and read back something else.
ghost use Rattle.std.specs.Prelude.{◌≤◌, length};

use gq_engine::{MemStore, RunStore};
use gq_spill::{RunId, StoreError};
use std::alloc::Global;

/// A store in memory, but one byte of one run reads back xor `by`. Runs are counted from 1, in the
/// order in which they are made.
#[derive(Drop)]
pub struct Altered {
    pub inner: MemStore,
    pub run: u64,
    pub at: u64,
    pub by: u8,
}

impl RunStore for Altered {
    ghost use Rattle.gq_engine_tests.specs.Lying.{lying};
    ghost use Rattle.gq_spill.specs.Memory.{mem_runs};

    ghost runs = { λ store. lying (mem_runs store.inner) };

    fn make(&mut self) -> Result<RunId, StoreError> {
        self.inner.make()
    }

    fn append(&mut self, id: RunId, bytes: &[u8]) -> Result<(), StoreError> {
        self.inner.append(id, bytes)
    }

    fn read(&mut self, id: RunId, at: u64, buffer: &mut [u8]) -> Result<usize, StoreError> {
        let count = self.inner.read(id, at, buffer)?;
        // A store in memory numbers its runs from 0.
        if id.number < self.run && self.run - id.number == 1 && at <= self.at {
            let place = self.at - at;
            if place < count as u64 {
                buffer[place as usize] ^= self.by;
            }
        }
        Ok(count)
    }

    fn discard(&mut self, id: RunId) {
        self.inner.discard(id);
    }
}

/// A store in memory, but the first two runs read back as each other. A run that doesn't exist
/// reads as no bytes.
#[derive(Drop)]
pub struct Swapped {
    inner: MemStore,
    first: Vec<u8>,
    second: Vec<u8>,
}

impl Swapped {
    /// A store without runs.
    pub fn new(alloc: Global) -> Swapped {
        Swapped {
            inner: MemStore::new(alloc),
            first: Vec::new(alloc),
            second: Vec::new(alloc),
        }
    }
}

// Copies bytes from position `at` on to the start of the buffer, and returns how many fit.
fn read_from(bytes: &[u8], at: u64, buffer: &mut [u8]) -> usize
    ensures { result ≤ length buffer.old }
{
    let start = if at < bytes.len() as u64 {
        at as usize
    } else {
        bytes.len()
    };
    let (_read, left) = bytes.split_at(start);
    let count = left.len().min(buffer.len());
    buffer[..count].copy_from_slice(&left[..count]);
    count
}

impl RunStore for Swapped {
    ghost use Rattle.gq_engine_tests.specs.Lying.{lying};
    ghost use Rattle.gq_spill.specs.Memory.{mem_runs};

    ghost runs = { λ store. lying (mem_runs store.inner) };

    fn make(&mut self) -> Result<RunId, StoreError> {
        self.inner.make()
    }

    fn append(&mut self, id: RunId, bytes: &[u8]) -> Result<(), StoreError> {
        self.inner.append(id, bytes)?;
        let kept = match id.number {
            0 => self.first.extend_from_slice(bytes),
            1 => self.second.extend_from_slice(bytes),
            _ => Ok(()),
        };
        match kept {
            Ok(()) => Ok(()),
            Err(_) => Err(StoreError::Memory),
        }
    }

    fn read(&mut self, id: RunId, at: u64, buffer: &mut [u8]) -> Result<usize, StoreError> {
        match id.number {
            0 => Ok(read_from(self.second.as_slice(), at, buffer)),
            1 => Ok(read_from(self.first.as_slice(), at, buffer)),
            _ => self.inner.read(id, at, buffer),
        }
    }

    fn discard(&mut self, id: RunId) {
        match id.number {
            0 => self.first.clear(),
            1 => self.second.clear(),
            _ => {}
        }
        self.inner.discard(id);
    }
}
