//! A run as a source of rows.
use crate::refusal::Refusal;
use crate::row_source::RowSource;
use gq_row::Row;
use gq_spill::{RunReader, RunStore};
use std::alloc::Global;

// The remaining rows of a run.
#[derive(Drop)]
pub(crate) struct RunSource {
    pub(crate) alloc: Global,
    pub(crate) reader: RunReader,
}

impl<S: RunStore> RowSource<S> for RunSource {
    ghost use Rattle.std.specs.Prelude.{◌-◌, false};
    ghost use Rattle.gq_spill.specs.Reading.{Left};
    ghost use Rattle.gq_group.specs.RunSources.{only, IsReady, ready_live, ready_stays, rows_stay};

    ghost owns = { λ s run. only s.reader.tail.id.number run };

    ghost is_ready = { λ s runs. IsReady s.reader runs };

    ghost gives = { λ s runs rows. Left s.reader runs rows };

    ghost bound = { λ s. s.reader.records - s.reader.given };

    ghost makes_runs = { false };

    fn next(&mut self, store: &mut S, row: &mut Row) -> Result<bool, Refusal> {
        match self.reader.next(self.alloc, store, row) {
            Ok(more) => Ok(more),
            Err(why) => Err(Refusal::of(why)),
        }
    }

    fn rows_hint(&self) -> usize {
        self.reader.left() as usize
    }

    ghost own_live = { λ s runs ready run own. ready_live s.reader runs ready run own };

    ghost has_rows = { λ s runs ready honest. ready.rows honest };

    ghost stays_ready = { λ s old new kept ready. ready_stays s.reader old new kept ready };

    ghost keeps_rows = { λ s old new kept ready honest rows left.
        rows_stay s.reader old new kept ready honest rows left };
}
