//! A run store in memory.
ghost use Rattle.std.specs.Prelude.{◌≡◌, ◌++◌, ◌∷◌, [], Some, OnOk, OnErr};

use crate::content::{Content, copy_from};
use crate::store::{RunId, RunStore};
use crate::store_error::StoreError;
use std::alloc::{AllocError, Global};
use std::marker::Model;

/// Runs in memory, numbered from 0 in the order in which they are made. Contracts see a list: the content of
/// each run, or none once it was discarded. It is honest, and fails only if memory is refused.
#[derive(Drop)]
pub struct MemStore {
    alloc: Global,
    kept: Vec<Option<Content>>,
}

impl Model for MemStore {
    ghost use Rattle.std.specs.Prelude.{List, ℕ, Option};

    ghost Value = { List (Option (List ℕ)) };

    ghost view = { λ m. m.kept.items };
}

impl MemStore {
    /// An empty store. It takes no memory.
    pub fn new(alloc: Global) -> MemStore
        ensures { result ≡ [] }
    {
        MemStore {
            alloc,
            kept: Vec::new(alloc),
        }
    }
}

// Adds an empty run.
fn add(alloc: Global, kept: &mut Vec<Option<Content>>) -> Result<(), AllocError>
    ensures ok { OnOk result (kept.new.items ≡ kept.old.items ++ Some [] ∷ []) }
    ensures err { OnErr result (kept.new.items ≡ kept.old.items) }
{
    kept.push(Some(Content::new(alloc)))?;
    Ok(())
}

impl RunStore for MemStore {
    ghost use Rattle.gq_spill.specs.Memory.{mem_runs};

    ghost runs = { mem_runs };

    fn make(&mut self) -> Result<RunId, StoreError> {
        let number = self.kept.len() as u64;
        if add(self.alloc, &mut self.kept).is_err() {
            return Err(StoreError::Memory);
        }
        Ok(RunId { number })
    }

    fn append(&mut self, id: RunId, bytes: &[u8]) -> Result<(), StoreError> {
        match &mut self.kept[id.number as usize] {
            Some(run) => match run.append(bytes) {
                Ok(()) => Ok(()),
                Err(_) => Err(StoreError::Memory),
            },
            None => unreachable!(),
        }
    }

    fn read(&mut self, id: RunId, at: u64, buffer: &mut [u8]) -> Result<usize, StoreError> {
        match &self.kept[id.number as usize] {
            Some(run) => Ok(copy_from(run.as_slice(), at as usize, buffer)),
            None => unreachable!(),
        }
    }

    fn discard(&mut self, id: RunId) {
        self.kept[id.number as usize] = None;
    }
}
