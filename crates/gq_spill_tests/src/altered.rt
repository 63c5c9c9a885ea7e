//! A store that isn't honest: one byte of each run is read as another.
use crate::reading::{DAMAGED, expect_answers};
use crate::rows::numbers;
use crate::whole::write_rows;
use gq_spill::{MemStore, RunId, RunStore, StoreError};
use std::alloc::Global;
use std::process::Abort;
use std::test::Fail;

/// A store in memory whose runs have the byte at position `at` read xor `by`.
#[derive(Drop)]
pub(crate) struct Altered {
    pub(crate) inner: MemStore,
    pub(crate) at: u64,
    pub(crate) by: u8,
}

impl RunStore for Altered {
    ghost use Rattle.gq_spill_tests.specs.Lying.{lying};
    ghost use Rattle.gq_spill.specs.Memory.{mem_runs};

    ghost runs = { λ store. lying (mem_runs store.inner) };

    fn make(&mut self) -> Result<RunId, StoreError> {
        self.inner.make()
    }

    fn append(&mut self, id: RunId, bytes: &[u8]) -> Result<(), StoreError> {
        self.inner.append(id, bytes)
    }

    fn read(&mut self, id: RunId, at: u64, buffer: &mut [u8]) -> Result<usize, StoreError> {
        let count = self.inner.read(id, at, buffer)?;
        if at <= self.at {
            let place = self.at - at;
            if place < count as u64 {
                buffer[place as usize] ^= self.by;
            }
        }
        Ok(count)
    }

    fn discard(&mut self, id: RunId) {
        self.inner.discard(id);
    }
}

// Expects the results of reading two rows if the byte at a position is read as another.
fn expect_altered(rt: &impl Abort, alloc: Global, at: u64, by: u8, due: &str) -> Result<(), Fail> {
    let rows = numbers(alloc, 2)?;
    let inner = MemStore::new(alloc);
    let mut store = Altered { inner, at, by };
    let Ok(mark) = write_rows(alloc, &mut store, rows.as_slice()) else {
        return Err(Fail::from("not written"));
    };
    expect_answers(rt, alloc, &mut store, mark, 1, due)?;
    store.discard(mark.id);
    Ok(())
}

#[test]
fn what_a_lie_comes_to(rt: HostRuntime) -> Result<(), Fail> {
    let alloc = rt.alloc();
    // The first byte of a length, the byte of a tag, and bytes of a number.
    expect_altered(&rt, alloc, 0, 128, DAMAGED)?;
    expect_altered(&rt, alloc, 4, 64, DAMAGED)?;
    expect_altered(&rt, alloc, 12, 2, "3;2;none;none;")?;
    expect_altered(&rt, alloc, 18, 128, "1;-9223372036854775806;none;none;")?;
    expect_altered(
        &rt,
        alloc,
        17,
        1,
        "1;a run is damaged;a run is damaged;a run is damaged;",
    )?;
    expect_altered(&rt, alloc, 26, 1, "1;2;none;none;")
}
