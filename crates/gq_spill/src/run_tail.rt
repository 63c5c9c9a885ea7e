//! The rest of a run.
ghost use Rattle.std.specs.Prelude.{◌≡◌, ◌++◌, ◌+◌, ◌<◌, ◌≤◌, ◌^◌, List, ℕ, length, OnOk, OnErr, IsErrOf, IsTrue};
ghost use Rattle.gq_row.specs.declared.value.Value.{Value as Cell};
ghost use Rattle.gq_record.specs.Records.{IsStorable, record_of};
ghost use Rattle.gq_spill.specs.Reading.{Unread};
ghost use Rattle.gq_spill.specs.Refusals.{ReportsFaults};
ghost use Rattle.gq_spill.specs.Runs.{OnlyReads};

use crate::spill_refusal::SpillRefusal;
use crate::store::{RunId, RunStore};
use crate::window::Window;
use gq_record::{decode_row_over, take_length};
use gq_row::Row;
use std::alloc::Global;

// How many bytes are read ahead, unless the run has fewer or a record is longer.
const PIECE: u64 = 65_536;

// The size of a length, in bytes.
const LENGTH: usize = 4;

/// The rest of a run: its bytes from `at` to `end`, the first of which are read ahead.
#[derive(Drop)]
pub struct RunTail {
    pub id: RunId,
    pub at: u64,
    pub end: u64,
    pub ahead: Window,
}

impl RunTail {
    // Reads ahead until `need` bytes are there.
    fn fetch<S: RunStore>(&mut self, store: &mut S, need: usize) -> Result<(), SpillRefusal>
        requires live { IsTrue ((S.runs store.old).live self.old.id.number) }
        requires within { self.old.at + length self.old.ahead ≤ self.old.end }
        requires small { need < 2 ^ 33 }
        ensures enough { OnOk result (need ≤ length self.new.ahead) }
        ensures rest { IsTrue (S.runs store.old).honest → (rest : List ℕ) →
            Unread self.old (S.runs store.old) rest → Unread self.new (S.runs store.new) rest }
        ensures sound { IsTrue (S.runs store.old).honest → IsErrOf result SpillRefusal.Damaged →
            (rest : List ℕ) →
            Unread self.old (S.runs store.old) rest → length rest < need }
        ensures same { (self.new.id ≡ self.old.id) × (self.new.at ≡ self.old.at) ×
            (self.new.end ≡ self.old.end) }
        ensures within { self.new.at + length self.new.ahead ≤ self.new.end }
        ensures store { OnlyReads (S.runs store.old) (S.runs store.new) }
        ensures faults { ReportsFaults result (S.runs store.old) (S.runs store.new) }
    {
        let held = self.ahead.len();
        if need <= held {
            return Ok(());
        }
        let place = self.at + held as u64;
        let left = self.end - place;
        let missing = (need - held) as u64;
        if left < missing {
            return Err(SpillRefusal::Damaged);
        }
        let piece = PIECE.saturating_sub(held as u64);
        let more = left.min(missing.max(piece)) as usize;
        self.ahead.grow(store, self.id, place, more)
    }

    // Decodes the first row of the bytes that were read ahead, over `row`.
    fn use_row(&mut self, alloc: Global, columns: usize, row: &mut Row) -> Result<(), SpillRefusal>
        requires { self.old.at + length self.old.ahead ≤ self.old.end }
        ensures row { OnOk result ((self.old.ahead ≡ record_of row.new ++ self.new.ahead) ×
            (self.new.at ≡ self.old.at + length (record_of row.new)) × IsStorable row.new) }
        ensures sound { IsErrOf result SpillRefusal.Damaged → (row : List Cell) (behind : List ℕ) →
            IsStorable row → self.old.ahead ≡ record_of row ++ behind → ⊥ }
        ensures own { IsErrOf result SpillRefusal.StoreFault → ⊥ }
        ensures err { OnErr result (self.new ≡ self.old) }
        ensures same { (self.new.id ≡ self.old.id) × (self.new.end ≡ self.old.end) }
        ensures within { self.new.at + length self.new.ahead ≤ self.new.end }
    {
        match decode_row_over(alloc, self.ahead.as_slice(), columns, row) {
            Ok(Some(len)) => {
                self.ahead.skip(len);
                self.at += len as u64;
                Ok(())
            }
            Ok(None) => Err(SpillRefusal::Damaged),
            Err(_) => Err(SpillRefusal::Memory),
        }
    }

    // Reads ahead until the next row is there, and reads it. Cold, since a piece has many rows.
    #[cold]
    fn fetch_row<S: RunStore>(
        &mut self,
        alloc: Global,
        store: &mut S,
        columns: usize,
        row: &mut Row,
    ) -> Result<(), SpillRefusal>
        requires live { IsTrue ((S.runs store.old).live self.old.id.number) }
        requires within { self.old.at + length self.old.ahead ≤ self.old.end }
        ensures row { IsTrue (S.runs store.old).honest → OnOk result ((rest : List ℕ) →
            Unread self.old (S.runs store.old) rest → (behind : List ℕ) ×
            (rest ≡ record_of row.new ++ behind) × Unread self.new (S.runs store.new) behind) }
        ensures storable { OnOk result (IsStorable row.new) }
        ensures sound { IsTrue (S.runs store.old).honest → IsErrOf result SpillRefusal.Damaged →
            (row : List Cell) (behind : List ℕ) → IsStorable row →
            Unread self.old (S.runs store.old) (record_of row ++ behind) → ⊥ }
        ensures same { (self.new.id ≡ self.old.id) × (self.new.end ≡ self.old.end) }
        ensures within { self.new.at + length self.new.ahead ≤ self.new.end }
        ensures store { OnlyReads (S.runs store.old) (S.runs store.new) }
        ensures faults { ReportsFaults result (S.runs store.old) (S.runs store.new) }
    {
        if let Err(why) = self.fetch(store, LENGTH) {
            return Err(why);
        }
        let Some((len, _)) = take_length(self.ahead.as_slice()) else {
            unreachable!()
        };
        if let Err(why) = self.fetch(store, LENGTH + len as usize) {
            return Err(why);
        }
        self.use_row(alloc, columns, row)
    }

    /// Reads the next row, over `row`. The number of columns is a hint.
    #[inline]
    pub fn take<S: RunStore>(
        &mut self,
        alloc: Global,
        store: &mut S,
        columns: usize,
        row: &mut Row,
    ) -> Result<(), SpillRefusal>
        requires live { IsTrue ((S.runs store.old).live self.old.id.number) }
        requires within { self.old.at + length self.old.ahead ≤ self.old.end }
        ensures row { IsTrue (S.runs store.old).honest → OnOk result ((rest : List ℕ) →
            Unread self.old (S.runs store.old) rest → (behind : List ℕ) ×
            (rest ≡ record_of row.new ++ behind) × Unread self.new (S.runs store.new) behind) }
        ensures storable { OnOk result (IsStorable row.new) }
        ensures sound { IsTrue (S.runs store.old).honest → IsErrOf result SpillRefusal.Damaged →
            (row : List Cell) (behind : List ℕ) → IsStorable row →
            Unread self.old (S.runs store.old) (record_of row ++ behind) → ⊥ }
        ensures same { (self.new.id ≡ self.old.id) × (self.new.end ≡ self.old.end) }
        ensures within { self.new.at + length self.new.ahead ≤ self.new.end }
        ensures store { OnlyReads (S.runs store.old) (S.runs store.new) }
        ensures faults { ReportsFaults result (S.runs store.old) (S.runs store.new) }
    {
        match self.use_row(alloc, columns, row) {
            Ok(()) => Ok(()),
            // No whole record was read ahead.
            Err(SpillRefusal::Damaged) => self.fetch_row(alloc, store, columns, row),
            Err(why) => Err(why),
        }
    }
}
