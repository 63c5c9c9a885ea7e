//! A run as a sink of groups.
ghost use Rattle.std.specs.Prelude.{◌≡◌, ◌+◌, [], false, IsTrue, IfOk, IfErr, OnErr};
ghost use Rattle.gq_spill.specs.Writing.{Wrote};
ghost use Rattle.gq_group.specs.Access.{LeavesOthers, HasCause};
ghost use Rattle.gq_group.specs.Phases.{CanWrite};
ghost use Rattle.gq_group.specs.RunSources.{only};

use crate::group_sink::GroupSink;
use crate::refusal::Refusal;
use gq_record::is_storable;
use gq_row::{Key, Value};
use gq_spill::{RunId, RunMark, RunStore, RunWriter};
use std::alloc::Global;

// Writes the key of each group to a run of its own, as a row.
#[derive(Drop)]
pub(crate) struct KeyRun {
    alloc: Global,
    writer: RunWriter,
}

impl KeyRun {
    // Makes a run, which holds no key yet.
    pub(crate) fn begin<S: RunStore>(alloc: Global, store: &mut S) -> Result<KeyRun, Refusal>
        ensures ready { IfOk result (λ keys. CanWrite keys.writer (S.runs store.new)) }
        ensures empty { IsTrue (S.runs store.old).honest →
            IfOk result (λ keys. Wrote keys.writer (S.runs store.new) []) }
        ensures others { IfOk result (λ keys. LeavesOthers (λ run. false)
            (only keys.writer.mark.id.number) (S.runs store.old) (S.runs store.new)) }
        ensures fresh { IfOk result (λ keys.
            (S.runs store.old).live keys.writer.mark.id.number ≡ false) }
        ensures made { IfOk result (λ keys.
            (S.runs store.new).made ≡ (S.runs store.old).made + 1) }
        ensures err { OnErr result (LeavesOthers (λ run. false) (λ run. false) (S.runs store.old)
            (S.runs store.new)) }
        ensures cause { IfErr result (λ e. HasCause e (S.runs store.old) (S.runs store.new)) }
    {
        match RunWriter::begin(alloc, store) {
            Ok(writer) => Ok(KeyRun { alloc, writer }),
            Err(why) => Err(Refusal::of(why)),
        }
    }

    // Its run.
    pub(crate) fn run(&self) -> RunId
        ensures { result ≡ self.now.writer.mark.id }
    {
        self.writer.run()
    }

    // The mark of its run, for a reader.
    pub(crate) fn finish(self) -> RunMark
        ensures { result ≡ self.writer.mark }
    {
        self.writer.finish()
    }
}

impl<S: RunStore> GroupSink<S> for KeyRun {
    ghost use Rattle.std.specs.Prelude.{false};
    ghost use Rattle.gq_spill.specs.Writing.{Wrote};
    ghost use Rattle.gq_group.specs.RunSources.{only};
    ghost use Rattle.gq_group.specs.Phases.{CanWrite, keys_in, write_live, write_stays, keys_stay};

    ghost owns = { λ s run. only s.writer.mark.id.number run };

    ghost is_ready = { λ s runs. CanWrite s.writer runs };

    ghost holds = { λ s runs groups. Wrote s.writer runs (keys_in groups) };

    ghost makes_runs = { false };

    fn make_room(&mut self, groups: usize) {
        let _ = groups;
    }

    fn push(&mut self, store: &mut S, key: Key, values: &mut Vec<Value>) -> Result<(), Refusal> {
        let _ = values;
        let Ok(row) = key.into_row(self.alloc) else {
            return Err(Refusal::Memory);
        };
        if !is_storable(&row) {
            return Err(Refusal::Memory);
        }
        match self.writer.write(store, &row) {
            Ok(()) => Ok(()),
            Err(why) => Err(Refusal::of(why)),
        }
    }

    ghost own_live = { λ s runs ready run own. write_live s.writer runs ready run own };

    ghost stays_ready = { λ s old new kept ready. write_stays s.writer old new kept ready };

    ghost keeps_groups = { λ s old new kept ready honest groups wrote.
        keys_stay s.writer old new kept ready honest groups wrote };
}
