//! Writing rows to a run.
ghost use Rattle.std.specs.Prelude.{◌≡◌, ◌+◌, ◌++◌, ◌∷◌, [], List, None, IfOk, IfErr, IfSome, OnOk, OnErr, Err, IsErrOf, IsTrue, is_ok};
ghost use Rattle.gq_row.specs.declared.value.Value.{Value as Cell};
ghost use Rattle.gq_record.specs.Records.{IsStorable};
ghost use Rattle.gq_spill.specs.Refusals.{ReportsFaults};
ghost use Rattle.gq_spill.specs.Runs.{Makes, Kept, OnlyWrites, one_if};
ghost use Rattle.gq_spill.specs.Writing.{Wrote, begun, with_row, refusing};

use crate::run_mark::RunMark;
use crate::spill_refusal::SpillRefusal;
use crate::store::{RunId, RunStore};
use gq_record::encode_row_over;
use gq_row::Row;
use std::alloc::Global;
use std::marker::Model;

/// Writes rows to a run of its own, as records. Contracts see the run's mark so far, and the error that is
/// returned from now on, if there was one.
#[derive(Drop)]
pub struct RunWriter {
    mark: RunMark,
    refused: Option<SpillRefusal>,
    // Begins with the record of the row that is being written.
    buffer: Vec<u8>,
}

impl Model for RunWriter {
    ghost use Rattle.gq_spill.specs.Writing.{Writing};

    ghost Value = { Writing };

    ghost view = { λ w. record { mark = w.mark; refused = w.refused } };
}

impl RunWriter {
    /// Makes a run, and a writer of it.
    pub fn begin<S: RunStore>(alloc: Global, store: &mut S) -> Result<RunWriter, SpillRefusal>
        ensures begun { IfOk result (λ w. w ≡ begun w.mark.id.number) }
        ensures made { IfOk result (λ w. Makes w.mark.id.number (S.runs store.old) (S.runs
            store.new)) }
        // Over an honest store the run has no rows yet.
        ensures wrote { IsTrue (S.runs store.old).honest →
            IfOk result (λ w. Wrote w (S.runs store.new) []) }
        ensures err { OnErr result (Kept (S.runs store.old) (S.runs store.new)) }
        ensures count { (S.runs store.new).made ≡ (S.runs store.old).made + one_if (is_ok result) }
        ensures faults { ReportsFaults result (S.runs store.old) (S.runs store.new) }
        ensures sound { IsErrOf result SpillRefusal.Damaged → ⊥ }
    {
        match store.make() {
            Ok(id) => Ok(RunWriter {
                mark: RunMark {
                    id,
                    bytes: 0,
                    records: 0,
                },
                refused: None,
                buffer: Vec::new(alloc),
            }),
            Err(error) => Err(SpillRefusal::of(error)),
        }
    }

    // Appends the record of a row to the run.
    fn put<S: RunStore>(&mut self, store: &mut S, row: &Row) -> Result<(), SpillRefusal>
        requires live { IsTrue ((S.runs store.old).live self.old.mark.id.number) }
        requires storable { IsStorable row.now }
        ensures ok { OnOk result (self.new ≡ with_row self.old row.now) }
        ensures wrote { IsTrue (S.runs store.old).honest → OnOk result ((rows : List (List Cell)) →
            Wrote self.old (S.runs store.old) rows →
            Wrote self.new (S.runs store.new) (rows ++ row.now ∷ [])) }
        ensures err { OnErr result (self.new ≡ self.old) }
        ensures store { OnlyWrites self.old.mark.id.number (S.runs store.old) (S.runs store.new) }
        ensures faults { ReportsFaults result (S.runs store.old) (S.runs store.new) }
        ensures sound { IsErrOf result SpillRefusal.Damaged → ⊥ }
    {
        let Ok(len) = encode_row_over(row, &mut self.buffer) else {
            return Err(SpillRefusal::Memory);
        };
        // A mark has counts of 64 bits.
        let Some(bytes) = self.mark.bytes.checked_add(len as u64) else {
            return Err(SpillRefusal::Memory);
        };
        let Some(records) = self.mark.records.checked_add(1) else {
            return Err(SpillRefusal::Memory);
        };
        match store.append(self.mark.id, &self.buffer[..len]) {
            Ok(()) => {
                self.mark.bytes = bytes;
                self.mark.records = records;
                Ok(())
            }
            Err(error) => Err(SpillRefusal::of(error)),
        }
    }

    /// Writes a row. After an error it returns the same error from then on, and doesn't call the store.
    pub fn write<S: RunStore>(&mut self, store: &mut S, row: &Row) -> Result<(), SpillRefusal>
        requires live { IsTrue ((S.runs store.old).live self.old.mark.id.number) }
        requires storable { IsStorable row.now }
        ensures ok { OnOk result (self.new ≡ with_row self.old row.now) }
        // Over an honest store the run has the rows so far and this one.
        ensures wrote { IsTrue (S.runs store.old).honest → OnOk result ((rows : List (List Cell)) →
            Wrote self.old (S.runs store.old) rows →
            Wrote self.new (S.runs store.new) (rows ++ row.now ∷ [])) }
        ensures going { OnOk result (self.old.refused ≡ None) }
        ensures err { IfErr result (λ why. self.new ≡ refusing self.old why) }
        ensures again { IfSome self.old.refused (λ why. (result ≡ Err why) ×
            (store.new ≡ store.old)) }
        ensures store { OnlyWrites self.old.mark.id.number (S.runs store.old) (S.runs store.new) }
        ensures faults { self.old.refused ≡ None →
            ReportsFaults result (S.runs store.old) (S.runs store.new) }
        ensures sound { self.old.refused ≡ None → IsErrOf result SpillRefusal.Damaged → ⊥ }
    {
        if let Some(why) = self.refused {
            return Err(why);
        }
        match self.put(store, row) {
            Ok(()) => Ok(()),
            Err(why) => {
                self.refused = Some(why);
                Err(why)
            }
        }
    }

    /// The run that is written.
    #[inline]
    pub fn run(&self) -> RunId
        ensures { result ≡ self.now.mark.id }
    {
        self.mark.id
    }

    /// The mark of the run, for a reader. After an error it is of use only to discard the run.
    pub fn finish(self) -> RunMark
        ensures { result ≡ self.mark }
    {
        self.mark
    }
}
