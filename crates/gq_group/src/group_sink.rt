//! Where groups go.
ghost use Rattle.std.specs.Prelude.{◌≡◌, ◌+◌, ◌<◌, ◌++◌, ◌∷◌, [], ℕ, Bool, false, IsTrue, List, OnOk, IfErr, drop, length, slice_index_or};
ghost use Rattle.gq_spill.specs.Runs.{Runs};
ghost use Rattle.gq_group.specs.Access.{RunSet, LeavesOthers, KeepsOwn, HasCause};
ghost use Rattle.gq_group.specs.Groups.{Group};

use crate::refusal::Refusal;
use gq_cells::KeysLeft;
use gq_row::{Key, Value};
use gq_spill::RunStore;

/// Takes groups, one by one.
pub trait GroupSink<S: RunStore> {
    /// Its runs. Others leave them alone.
    ghost owns: { Self → RunSet };

    /// Nothing was refused so far, and its runs are as it left them.
    ghost is_ready: { Self → Runs → Type 0 };

    /// Over an honest store these groups were pushed.
    ghost holds: { Self → Runs → List Group → Type 0 };

    /// Whether it may make runs.
    ghost makes_runs: { Bool };

    /// Says that this number of groups may come. The sink may reserve memory for them; nothing else
    /// changes.
    fn make_room(&mut self, groups: usize)
        ensures { self.new ≡ self.old };

    /// Takes a group: its key, folded, and the values of its aggregates. It may move these out of the
    /// list, and what it leaves there is dropped. After a refusal the sink's state is unspecified.
    fn push(&mut self, store: &mut S, key: Key, values: &mut Vec<Value>) -> Result<(), Refusal>
        requires { is_ready self.old (S.runs store.old) }
        ensures groups { IsTrue (S.runs store.old).honest →
            OnOk result ((groups : List Group) → holds self.old (S.runs store.old) groups →
            holds self.new (S.runs store.new) (groups ++ (key, values.old.items) ∷ [])) }
        ensures ready { OnOk result (is_ready self.new (S.runs store.new)) }
        ensures cause { IfErr result (λ e. HasCause e (S.runs store.old) (S.runs store.new)) }
        ensures others { LeavesOthers (owns self.old) (owns self.new) (S.runs store.old)
            (S.runs store.new) }
        ensures made { makes_runs ≡ false → (S.runs store.new).made ≡ (S.runs store.old).made };

    /// As [`GroupSink::push`]; the key is the first of those that leave a list, and is taken from it. After a
    /// refusal the other keys are unspecified too.
    fn push_first(
        &mut self,
        store: &mut S,
        keys: &mut KeysLeft,
        values: &mut Vec<Value>,
    ) -> Result<(), Refusal>
        requires sink { is_ready self.old (S.runs store.old) }
        requires some { 0 < length keys.old }
        ensures groups { IsTrue (S.runs store.old).honest →
            OnOk result ((groups : List Group) → holds self.old (S.runs store.old) groups →
            holds self.new (S.runs store.new)
            (groups ++ (slice_index_or keys.old 0 [], values.old.items) ∷ [])) }
        ensures left { OnOk result (keys.new ≡ drop 1 keys.old) }
        ensures fewer { length keys.new + 1 ≡ length keys.old }
        ensures ready { OnOk result (is_ready self.new (S.runs store.new)) }
        ensures cause { IfErr result (λ e. HasCause e (S.runs store.old) (S.runs store.new)) }
        ensures others { LeavesOthers (owns self.old) (owns self.new) (S.runs store.old)
            (S.runs store.new) }
        ensures made { makes_runs ≡ false → (S.runs store.new).made ≡ (S.runs store.old).made }
    {
        let Ok(key) = keys.take() else {
            return Err(Refusal::Memory);
        };
        self.push(store, key, values)
    }

    /// Its runs are live.
    ghost own_live: { (s : Self) (runs : Runs) → is_ready s runs → (run : ℕ) →
        IsTrue (owns s run) → IsTrue (runs.live run) };

    /// What others do with other runs doesn't matter to it.
    ghost stays_ready: { (s : Self) (old new : Runs) → KeepsOwn (owns s) old new →
        is_ready s old → is_ready s new };

    ghost keeps_groups: { (s : Self) (old new : Runs) → KeepsOwn (owns s) old new →
        is_ready s old → IsTrue old.honest → (groups : List Group) → holds s old groups →
        holds s new groups };
}
