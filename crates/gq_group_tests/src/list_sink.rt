//! A sink that is a list of groups.
use crate::spelled::spelled_group;
use gq_group::{GroupSink, Refusal};
use gq_row::{Key, Value};
use gq_spill::RunStore;
use std::alloc::Global;

/// The groups so far, spelled out.
#[derive(Drop)]
pub struct ListSink {
    pub alloc: Global,
    pub groups: Vec<String>,
}

impl<S: RunStore> GroupSink<S> for ListSink {
    ghost use Rattle.std.specs.Prelude.{false};
    ghost use Rattle.gq_group_tests.specs.Lists.{none_live};

    ghost owns = { λ s run. false };

    ghost is_ready = { λ s runs. Unit {0} };

    ghost holds = { λ s runs groups. Unit {0} };

    ghost makes_runs = { false };

    fn make_room(&mut self, groups: usize) {
        let _ = groups;
    }

    fn push(&mut self, store: &mut S, key: Key, values: &mut Vec<Value>) -> Result<(), Refusal> {
        let _ = store;
        let Ok(group) = spelled_group(self.alloc, &key, values.as_slice()) else {
            return Err(Refusal::Memory);
        };
        match self.groups.push(group) {
            Ok(()) => Ok(()),
            Err(_) => Err(Refusal::Memory),
        }
    }

    ghost own_live = { λ s runs ready run own. none_live runs run own };

    ghost stays_ready = { λ s old new kept ready. tt };

    ghost keeps_groups = { λ s old new kept ready honest groups holds. tt };
}
