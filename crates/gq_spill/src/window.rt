//! A run's bytes, read ahead in pieces.
ghost use Rattle.std.specs.Prelude.{◌≡◌, ◌++◌, ◌+◌, ◌-◌, ◌<◌, ◌≤◌, ◌^◌, [], List, ℕ, length, take, drop, Some, OnOk, OnErr, IsErrOf};
ghost use Rattle.std.specs.Prelude.{IsTrue};
ghost use Rattle.gq_spill.specs.Refusals.{ReportsFaults};
ghost use Rattle.gq_spill.specs.Runs.{OnlyReads};

use crate::spill_refusal::SpillRefusal;
use crate::store::{RunId, RunStore};
use std::alloc::{AllocError, Global};
use std::marker::Model;

// Fills a buffer with a run's bytes from position `at` on.
fn read_piece<S: RunStore>(
    store: &mut S,
    id: RunId,
    at: u64,
    buffer: &mut [u8],
) -> Result<(), SpillRefusal>
    requires { IsTrue ((S.runs store.old).live id.number) }
    ensures bytes { IsTrue (S.runs store.old).honest → OnOk result ((c : List ℕ) →
        (S.runs store.old).content id.number ≡ Some c →
        buffer.new ≡ take (length buffer.old) (drop at c)) }
    ensures sound { IsTrue (S.runs store.old).honest → IsErrOf result SpillRefusal.Damaged →
        (c : List ℕ) → (S.runs store.old).content id.number ≡ Some c →
        length (drop at c) < length buffer.old }
    ensures store { OnlyReads (S.runs store.old) (S.runs store.new) }
    ensures faults { ReportsFaults result (S.runs store.old) (S.runs store.new) }
{
    let wanted = buffer.len();
    match store.read(id, at, buffer) {
        Ok(count) if count < wanted => Err(SpillRefusal::Damaged),
        Ok(_) => Ok(()),
        Err(error) => Err(SpillRefusal::of(error)),
    }
}

// Moves a range of the bytes to the start.
fn move_to_start(bytes: &mut Vec<u8>, start: usize, end: usize)
    requires ordered { start ≤ end }
    requires within { end ≤ length bytes.old.items }
    ensures kept { take (end - start) bytes.new.items ≡ take (end - start) (drop start
        bytes.old.items) }
    ensures len { length bytes.new.items ≡ length bytes.old.items }
{
    if start > 0 {
        bytes.as_mut_slice().copy_within(start..end, 0);
    }
}

// Extends the bytes to `len`, unless there are as many.
fn lengthen(bytes: &mut Vec<u8>, len: usize) -> Result<(), AllocError>
    ensures kept { take (length bytes.old.items) bytes.new.items ≡ bytes.old.items }
    ensures len { OnOk result (len ≤ length bytes.new.items) }
{
    if bytes.len() < len {
        bytes.resize(len, 0)?;
    }
    Ok(())
}

// Reads `more` bytes of a run from position `at` on, and stores them after the first `held`.
fn read_after<S: RunStore>(
    store: &mut S,
    id: RunId,
    at: u64,
    bytes: &mut [u8],
    held: usize,
    more: usize,
) -> Result<(), SpillRefusal>
    requires live { IsTrue ((S.runs store.old).live id.number) }
    requires within { held + more ≤ length bytes.old }
    ensures bytes { IsTrue (S.runs store.old).honest → OnOk result ((c : List ℕ) →
        (S.runs store.old).content id.number ≡ Some c →
        take (held + more) bytes.new ≡ take held bytes.old ++ take more (drop at c)) }
    ensures kept { take held bytes.new ≡ take held bytes.old }
    ensures sound { IsTrue (S.runs store.old).honest → IsErrOf result SpillRefusal.Damaged →
        (c : List ℕ) → (S.runs store.old).content id.number ≡ Some c → length (drop at c) < more }
    ensures store { OnlyReads (S.runs store.old) (S.runs store.new) }
    ensures faults { ReportsFaults result (S.runs store.old) (S.runs store.new) }
{
    read_piece(store, id, at, &mut bytes[held..held + more])
}

/// Bytes of a run that were read and not yet used, seen as their list. Used bytes stay in the buffer until the
/// next read.
#[derive(Drop)]
pub struct Window {
    bytes: Vec<u8>,
    start: usize,
    end: usize,
}

impl Model for Window {
    ghost use Rattle.std.specs.Prelude.{List, ℕ, take, drop, length, ◌-◌, ◌≤◌};

    ghost Value = { List ℕ };

    ghost view = { λ w. take (w.end - w.start) (drop w.start w.bytes.items) };

    ghost invariant = { λ w. (w.start ≤ w.end) × (w.end ≤ length w.bytes.items) };
}

impl Window {
    /// An empty window. It takes no memory.
    pub fn new(alloc: Global) -> Window
        ensures { result ≡ [] }
    {
        Window {
            bytes: Vec::new(alloc),
            start: 0,
            end: 0,
        }
    }

    pub fn as_slice(&self) -> &[u8]
        ensures { result.now ≡ self.now }
    {
        &self.bytes[self.start..self.end]
    }

    pub fn len(&self) -> usize
        ensures { result ≡ length self.now }
    {
        self.end - self.start
    }

    /// Drops the first `count` bytes.
    pub fn skip(&mut self, count: usize)
        requires { count ≤ length self.old }
        ensures { self.new ≡ drop count self.old }
    {
        self.start += count;
    }

    /// Appends `more` bytes of a run, from position `at` on. On error the window doesn't change.
    pub fn grow<S: RunStore>(
        &mut self,
        store: &mut S,
        id: RunId,
        at: u64,
        more: usize,
    ) -> Result<(), SpillRefusal>
        requires live { IsTrue ((S.runs store.old).live id.number) }
        requires small { more < 2 ^ 33 }
        ensures len { OnOk result (length self.new ≡ length self.old + more) }
        ensures bytes { IsTrue (S.runs store.old).honest → OnOk result ((c : List ℕ) →
            (S.runs store.old).content id.number ≡ Some c →
            self.new ≡ self.old ++ take more (drop at c)) }
        ensures sound { IsTrue (S.runs store.old).honest → IsErrOf result SpillRefusal.Damaged →
            (c : List ℕ) → (S.runs store.old).content id.number ≡ Some c →
            length (drop at c) < more }
        ensures err { OnErr result (self.new ≡ self.old) }
        ensures store { OnlyReads (S.runs store.old) (S.runs store.new) }
        ensures faults { ReportsFaults result (S.runs store.old) (S.runs store.new) }
    {
        let held = self.len();
        move_to_start(&mut self.bytes, self.start, self.end);
        self.start = 0;
        self.end = held;
        if lengthen(&mut self.bytes, held + more).is_err() {
            return Err(SpillRefusal::Memory);
        }
        read_after(store, id, at, self.bytes.as_mut_slice(), held, more)?;
        self.end = held + more;
        Ok(())
    }
}
