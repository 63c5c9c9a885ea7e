//! Rows from a run.
ghost use Rattle.std.specs.Prelude.{◌≡◌, ◌+◌, ◌-◌, ◌<◌, ◌≤◌, false, true, List, length, Some, None, IfOk, IfErr, IfSome, OnOk, Err, IsErrOf, IsTrue};
ghost use Rattle.gq_row.specs.declared.value.Value.{Value as Cell};
ghost use Rattle.gq_record.specs.Records.{IsStorable};
ghost use Rattle.gq_spill.specs.Handing.{Gave, came, taken};
ghost use Rattle.gq_spill.specs.Reading.{opened, Left};
ghost use Rattle.gq_spill.specs.Refusals.{ReportsFaults};
ghost use Rattle.gq_spill.specs.Runs.{OnlyReads};

use crate::run_mark::RunMark;
use crate::run_tail::RunTail;
use crate::spill_refusal::SpillRefusal;
use crate::store::RunStore;
use crate::window::Window;
use gq_row::Row;
use std::alloc::Global;
use std::marker::Model;

/// Reads the rows of a run in order, in pieces of 64 KiB. Contracts see the rest of the run, how many rows it
/// has by the mark and how many were read, and the error that is returned from now on, if there was one.
#[derive(Drop)]
pub struct RunReader {
    tail: RunTail,
    records: u64,
    columns: usize,
    given: u64,
    refused: Option<SpillRefusal>,
}

impl Model for RunReader {
    ghost use Rattle.std.specs.Prelude.{◌+◌, ◌≤◌, length};
    ghost use Rattle.gq_spill.specs.Reading.{Reading};

    ghost Value = { Reading };

    ghost view = { λ r. record { tail = r.tail; records = r.records; columns = r.columns; given = r.given; refused = r.refused } };

    ghost invariant = { λ r. (r.given ≤ r.records) × (r.tail.at + length r.tail.ahead ≤ r.tail.end) };
}

impl RunReader {
    /// A reader of a run whose rows have `columns` columns. It takes no memory yet.
    pub fn open(alloc: Global, mark: RunMark, columns: usize) -> RunReader
        ensures { result ≡ opened mark columns }
    {
        RunReader {
            tail: RunTail {
                id: mark.id,
                at: 0,
                end: mark.bytes,
                ahead: Window::new(alloc),
            },
            records: mark.records,
            columns,
            given: 0,
            refused: None,
        }
    }

    /// How many rows are left, by the mark.
    #[inline]
    pub fn left(&self) -> u64
        ensures { result ≡ self.now.records - self.now.given }
    {
        self.records - self.given
    }

    // Reads the next row, and overwrites `row` with it.
    fn take_row<S: RunStore>(
        &mut self,
        alloc: Global,
        store: &mut S,
        row: &mut Row,
    ) -> Result<(), SpillRefusal>
        requires live { IsTrue ((S.runs store.old).live self.old.tail.id.number) }
        requires more { self.old.given < self.old.records }
        ensures row { IsTrue (S.runs store.old).honest →
            OnOk result ((rows : List (List Cell)) → Left self.old (S.runs store.old) rows →
            Gave (Some row.new) rows (Left self.new (S.runs store.new))) }
        ensures width { OnOk result ((length row.new ≡ self.old.columns) × IsStorable row.new) }
        ensures sound { IsTrue (S.runs store.old).honest → IsErrOf result SpillRefusal.Damaged →
            (rows : List (List Cell)) → Left self.old (S.runs store.old) rows → ⊥ }
        ensures count { OnOk result (self.new.given ≡ self.old.given + 1) }
        ensures same { (self.new.tail.id ≡ self.old.tail.id) ×
            (self.new.tail.end ≡ self.old.tail.end) × (self.new.records ≡ self.old.records) ×
            (self.new.columns ≡ self.old.columns) × (self.new.refused ≡ self.old.refused) }
        ensures store { OnlyReads (S.runs store.old) (S.runs store.new) }
        ensures faults { ReportsFaults result (S.runs store.old) (S.runs store.new) }
    {
        match self.tail.take(alloc, store, self.columns, row) {
            Ok(()) => {
                if row.len() != self.columns {
                    return Err(SpillRefusal::Damaged);
                }
                self.given += 1;
                Ok(())
            }
            Err(why) => Err(why),
        }
    }

    /// Overwrites `row` with the next row, and returns whether there was one. It reuses the memory of `row`.
    /// After an error it returns the same error from then on, and doesn't call the store.
    pub fn next<S: RunStore>(
        &mut self,
        alloc: Global,
        store: &mut S,
        row: &mut Row,
    ) -> Result<bool, SpillRefusal>
        requires live { IsTrue ((S.runs store.old).live self.old.tail.id.number) }
        // Over an honest store the rows are those that were written, in order,
        ensures rows { IsTrue (S.runs store.old).honest →
            IfOk result (λ more. (rows : List (List Cell)) → Left self.old (S.runs store.old) rows →
            Gave (came more row.new) rows (Left self.new (S.runs store.new))) }
        // and their run is never reported as damaged.
        ensures sound { IsTrue (S.runs store.old).honest → IsErrOf result SpillRefusal.Damaged →
            (rows : List (List Cell)) → Left self.old (S.runs store.old) rows → ⊥ }
        // Over any store the end is reported only after as many rows as the mark says.
        ensures end { IfOk result (λ more. more ≡ false → self.new.given ≡ self.old.records) }
        ensures count { IfOk result (λ more.
            self.new.given ≡ self.old.given + taken (came more row.new)) }
        ensures few { OnOk result (self.new.given ≤ self.old.records) }
        ensures width { IfOk result (λ more. more ≡ true →
            (length row.new ≡ self.old.columns) × IsStorable row.new) }
        ensures going { OnOk result ((self.old.refused ≡ None) × (self.new.refused ≡ None)) }
        ensures err { IfErr result (λ why. self.new.refused ≡ Some why) }
        ensures again { IfSome self.old.refused (λ why. (result ≡ Err why) ×
            (store.new ≡ store.old)) }
        ensures same { (self.new.tail.id ≡ self.old.tail.id) ×
            (self.new.tail.end ≡ self.old.tail.end) × (self.new.records ≡ self.old.records) ×
            (self.new.columns ≡ self.old.columns) }
        ensures store { OnlyReads (S.runs store.old) (S.runs store.new) }
        ensures faults { self.old.refused ≡ None →
            ReportsFaults result (S.runs store.old) (S.runs store.new) }
    {
        if let Some(why) = self.refused {
            return Err(why);
        }
        if self.given == self.records {
            return Ok(false);
        }
        match self.take_row(alloc, store, row) {
            Ok(()) => Ok(true),
            Err(why) => {
                self.refused = Some(why);
                Err(why)
            }
        }
    }
}
