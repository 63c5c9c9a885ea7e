//! A store that counts its calls.
use gq_spill::{RunId, RunStore, StoreError, decode_row};
use std::alloc::{AllocError, Global};

/// A store that passes each call to its inner store, and counts the appended records and the live runs.
#[derive(Drop)]
pub(crate) struct Counting<S> {
    pub(crate) alloc: Global,
    pub(crate) inner: S,
    pub(crate) records: u64,
    pub(crate) live: u64,
}

impl<S> Counting<S> {
    /// Counts the calls of `inner`, which has no live runs.
    pub(crate) fn new(alloc: Global, inner: S) -> Counting<S> {
        Counting {
            alloc,
            inner,
            records: 0,
            live: 0,
        }
    }
}

/// The number of records that the bytes begin with.
fn records_in(alloc: Global, bytes: &[u8]) -> Result<u64, AllocError> {
    let mut left = bytes;
    let mut count = 0u64;
    for _ in 0..bytes.len() {
        let Some((_row, size)) = decode_row(alloc, left)? else {
            break;
        };
        left = &left[size..];
        count = count.saturating_add(1);
    }
    Ok(count)
}

impl<S: RunStore> RunStore for Counting<S> {
    ghost runs = { λ store. S.runs store.inner };

    fn make(&mut self) -> Result<RunId, StoreError> {
        let run = self.inner.make()?;
        self.live = self.live.saturating_add(1);
        Ok(run)
    }

    fn append(&mut self, id: RunId, bytes: &[u8]) -> Result<(), StoreError> {
        let Ok(count) = records_in(self.alloc, bytes) else {
            return Err(StoreError::Memory);
        };
        self.inner.append(id, bytes)?;
        self.records = self.records.saturating_add(count);
        Ok(())
    }

    fn read(&mut self, id: RunId, at: u64, buffer: &mut [u8]) -> Result<usize, StoreError> {
        self.inner.read(id, at, buffer)
    }

    fn discard(&mut self, id: RunId) {
        self.live = self.live.saturating_sub(1);
        self.inner.discard(id);
    }
}
