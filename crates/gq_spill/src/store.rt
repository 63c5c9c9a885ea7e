//! The interface of run stores.
ghost use Rattle.std.specs.Prelude.{IfOk, OnErr, OnOk, IsTrue};
ghost use Rattle.gq_spill.specs.Runs.{Runs, Makes, Appends, Loses, Reads, Kept, Discards};
ghost use Rattle.gq_spill.specs.Runs.{Counts, CountsMade};

use crate::store_error::StoreError;

/// The number of a run.
#[derive(Clone, Copy, Debug, PartialEq, Eq)]
pub struct RunId {
    pub number: u64,
}

/// A store of runs: lists of bytes that are appended to, read, and discarded.
pub trait RunStore {
    /// The plain data that contracts see of the store.
    ghost runs: { Self → Runs };

    /// Makes an empty run, whose number no live run has.
    fn make(&mut self) -> Result<RunId, StoreError>
        ensures ok { IfOk result (λ id. Makes id.number (runs self.old) (runs self.new)) }
        ensures err { OnErr result (Kept (runs self.old) (runs self.new)) }
        ensures counts { CountsMade result (runs self.old) (runs self.new) };

    /// Appends bytes to a live run. After an error the run may only be discarded.
    fn append(&mut self, id: RunId, bytes: &[u8]) -> Result<(), StoreError>
        requires { IsTrue ((runs self.old).live id.number) }
        ensures ok { OnOk result (Appends id.number bytes.now (runs self.old) (runs self.new)) }
        ensures err { OnErr result (Loses id.number (runs self.old) (runs self.new)) }
        ensures counts { Counts result (runs self.old) (runs self.new) };

    /// Reads as many bytes of a live run as fit into the buffer, from position `at` on, and returns how many.
    /// The rest of the buffer is unspecified.
    fn read(&mut self, id: RunId, at: u64, buffer: &mut [u8]) -> Result<usize, StoreError>
        requires { IsTrue ((runs self.old).live id.number) }
        ensures ok { IfOk result (λ count.
            Reads id.number at count buffer.old buffer.new (runs self.old)) }
        ensures kept { Kept (runs self.old) (runs self.new) }
        ensures counts { Counts result (runs self.old) (runs self.new) };

    /// Discards a live run. It never fails.
    fn discard(&mut self, id: RunId)
        requires { IsTrue ((runs self.old).live id.number) }
        ensures { Discards id.number (runs self.old) (runs self.new) };
}
