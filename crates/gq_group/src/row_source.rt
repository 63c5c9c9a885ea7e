//! Where rows come from.
ghost use Rattle.std.specs.Prelude.{◌≡◌, ◌+◌, ◌≤◌, ℕ, Bool, false, IsTrue, List, IfOk, OnOk, IfErr};
ghost use Rattle.gq_spill.specs.Runs.{Runs};
ghost use Rattle.gq_row.specs.declared.value.Value.{Value as Cell};
ghost use Rattle.gq_group.specs.Access.{RunSet, LeavesOthers, KeepsOwn, HasCause};
ghost use Rattle.gq_spill.specs.Handing.{Gave, came, taken};

use crate::refusal::Refusal;
use gq_row::Row;
use gq_spill::RunStore;

/// Gives rows, one by one.
pub trait RowSource<S: RunStore> {
    /// Its runs. Others leave them alone.
    ghost owns: { Self → RunSet };

    /// Nothing was refused so far, and its runs are as it left them.
    ghost is_ready: { Self → Runs → Type 0 };

    /// Over an honest store it still gives these rows.
    ghost gives: { Self → Runs → List (List Cell) → Type 0 };

    /// Over any store it still gives at most this many.
    ghost bound: { Self → ℕ };

    /// Whether it may make runs.
    ghost makes_runs: { Bool };

    /// Writes the next row over `row`, whose values are dropped and whose memory it may use, and returns
    /// whether there was one. After a refusal the source's state is unspecified.
    fn next(&mut self, store: &mut S, row: &mut Row) -> Result<bool, Refusal>
        requires { is_ready self.old (S.runs store.old) }
        ensures rows { IsTrue (S.runs store.old).honest →
            IfOk result (λ more. (rows : List (List Cell)) →
            gives self.old (S.runs store.old) rows →
            Gave (came more row.new) rows (gives self.new (S.runs store.new))) }
        ensures bound { IfOk result (λ more.
            taken (came more row.new) + bound self.new ≤ bound self.old) }
        ensures ready { OnOk result (is_ready self.new (S.runs store.new)) }
        ensures cause { IfErr result (λ e. HasCause e (S.runs store.old) (S.runs store.new)) }
        ensures others { LeavesOthers (owns self.old) (owns self.new) (S.runs store.old)
            (S.runs store.new) }
        ensures made { makes_runs ≡ false → (S.runs store.new).made ≡ (S.runs store.old).made }
        ensures owned { makes_runs ≡ false → (run : ℕ) → IsTrue (owns self.new run) →
            IsTrue (owns self.old run) };

    /// How many rows are left at most, or 0 if that is unknown. Only speed depends on it.
    fn rows_hint(&self) -> usize
        ensures { result ≤ bound self.now };

    /// Its runs are live.
    ghost own_live: { (s : Self) (runs : Runs) → is_ready s runs → (run : ℕ) →
        IsTrue (owns s run) → IsTrue (runs.live run) };

    /// Over an honest store there are rows that it gives.
    ghost has_rows: { (s : Self) (runs : Runs) → is_ready s runs → IsTrue runs.honest →
        (rows : List (List Cell)) × gives s runs rows };

    /// What others do with other runs doesn't matter to it.
    ghost stays_ready: { (s : Self) (old new : Runs) → KeepsOwn (owns s) old new →
        is_ready s old → is_ready s new };

    ghost keeps_rows: { (s : Self) (old new : Runs) → KeepsOwn (owns s) old new →
        is_ready s old → IsTrue old.honest → (rows : List (List Cell)) → gives s old rows →
        gives s new rows };
}
