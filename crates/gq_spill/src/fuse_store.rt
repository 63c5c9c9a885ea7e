//! A store in which one call goes wrong, for tests.
ghost use Rattle.std.specs.Prelude.{◌≡◌};
ghost use Rattle.gq_spill.specs.Fuses.{fuse_of, fused};

use crate::fuse::Fuse;
use crate::store::{RunId, RunStore};
use crate::store_error::StoreError;

/// The call that goes wrong.
#[derive(Clone, Copy, Debug, PartialEq, Eq)]
pub enum Trouble {
    /// The call of this number returns `Fault` and does nothing; `make`, `append` and `read` are counted
    /// together, from 1.
    Fail(u64),
    /// The read of this number returns one byte less. Only reads that return bytes are counted, from 1.
    Short(u64),
}

/// A store that passes each call to its inner store, but for the one that goes wrong.
///
/// With a failing call it is as honest as the inner store; with a short read it isn't honest.
#[derive(Drop)]
pub struct FuseStore<S> {
    inner: S,
    fuse: Fuse,
}

impl<S: RunStore> FuseStore<S> {
    /// A store over `inner`, with the trouble that it makes.
    pub fn new(inner: S, trouble: Trouble) -> FuseStore<S>
        ensures { ⟦<FuseStore<S> as RunStore>⟧.runs result ≡ fused (S.runs inner) (fuse_of trouble) }
    {
        let fuse = match trouble {
            Trouble::Fail(call) => Fuse::Fails(call),
            Trouble::Short(read) => Fuse::Shortens(read),
        };
        FuseStore { inner, fuse }
    }
}

impl<S: RunStore> RunStore for FuseStore<S> {
    ghost use Rattle.gq_spill.specs.Fuses.{fused};

    ghost runs = { λ store. fused (S.runs store.inner) store.fuse };

    fn make(&mut self) -> Result<RunId, StoreError> {
        if self.fuse.fails() {
            return Err(StoreError::Fault);
        }
        self.inner.make()
    }

    fn append(&mut self, id: RunId, bytes: &[u8]) -> Result<(), StoreError> {
        if self.fuse.fails() {
            return Err(StoreError::Fault);
        }
        self.inner.append(id, bytes)
    }

    fn read(&mut self, id: RunId, at: u64, buffer: &mut [u8]) -> Result<usize, StoreError> {
        if self.fuse.fails() {
            return Err(StoreError::Fault);
        }
        let count = self.inner.read(id, at, buffer)?;
        if count > 0 && self.fuse.shortens() {
            return Ok(count - 1);
        }
        Ok(count)
    }

    fn discard(&mut self, id: RunId) {
        self.inner.discard(id);
    }
}
