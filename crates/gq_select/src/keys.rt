//! The distinct keys of rows.
ghost use Rattle.std.specs.Prelude.{◌≡◌, ◌+◌, ◌<◌, ◌≤◌, ◌^◌, ◌++◌, false, List, length, IsTrue, IfOk, OnOk, IfErr};
ghost use Rattle.std.specs.List.{list_all};
ghost use Rattle.gq_row.specs.declared.value.Value.{Value as Cell};
ghost use Rattle.gq_row.specs.Tables.{keys};
ghost use Rattle.gq_group.specs.Access.{Apart, either, LeavesOthers, HasCause};
ghost use Rattle.gq_group.specs.Groups.{Group, OneWidth, has_columns};
ghost use Rattle.gq_group.specs.Work.{Spills};
ghost use Rattle.gq_select.specs.Distinct.{PushesKeys};

use gq_group::{Budget, GroupSink, GroupSpec, Refusal, RowSource, Spent, group};
use gq_row::Key;
use gq_spill::RunStore;
use std::alloc::Global;
use sw_probe::KeyHash;

/// Pushes each distinct key of the source's rows by its fold, in some order, with an empty list of values.
/// Errors are those of [`group`] but for `SumRange`, and leave the source and the sink part way.
pub fn distinct<H: KeyHash<Key> + Copy, S: RunStore, R: RowSource<S>, K: GroupSink<S>>(
    alloc: Global,
    hasher: H,
    columns: Vec<usize>,
    source: &mut R,
    sink: &mut K,
    store: &mut S,
    budget: Budget,
) -> Result<Spent, Refusal>
    requires some { 0 < length columns.items }
    requires source { R.is_ready source.old (S.runs store.old) }
    requires sink { K.is_ready sink.old (S.runs store.old) }
    requires apart { Apart (R.owns source.old) (K.owns sink.old) }
    requires few { R.bound source.old ≤ 2 ^ 31 }
    requires rows { IsTrue (S.runs store.old).honest → (rows : List (List Cell)) →
        R.gives source.old (S.runs store.old) rows →
        IsTrue (list_all (has_columns columns.items) rows) }
    requires widths { IsTrue (S.runs store.old).honest → (rows : List (List Cell)) →
        R.gives source.old (S.runs store.old) rows → OneWidth rows }
    ensures keys { IsTrue (S.runs store.old).honest →
        OnOk result ((rows : List (List Cell)) → R.gives source.old (S.runs store.old) rows
        → (before : List Group) → K.holds sink.old (S.runs store.old) before
        → PushesKeys columns.items rows
        (λ out. K.holds sink.new (S.runs store.new) (before ++ out))) }
    ensures counts { IsTrue (S.runs store.old).honest →
        IfOk result (λ spent. (rows : List (List Cell)) →
        R.gives source.old (S.runs store.old) rows
        → (spent.rows_read ≡ length rows)
        × (spent.groups ≡ length (keys columns.items rows))) }
    ensures spills { IsTrue (S.runs store.old).honest →
        IfOk result (λ spent. Spills budget.entries spent) }
    ensures made { R.makes_runs ≡ false → K.makes_runs ≡ false →
        IfOk result (λ spent. (S.runs store.new).made ≡ (S.runs store.old).made + spent.runs) }
    ensures others { LeavesOthers (either (R.owns source.old) (K.owns sink.old)) (either
        (R.owns source.new) (K.owns sink.new)) (S.runs store.old) (S.runs store.new) }
    ensures source { OnOk result (R.is_ready source.new (S.runs store.new)) }
    ensures sink { OnOk result (K.is_ready sink.new (S.runs store.new)) }
    ensures cause { IfErr result (λ e. HasCause e (S.runs store.old) (S.runs store.new)) }
{
    let spec = GroupSpec::new(columns, Vec::new(alloc));
    match group(alloc, hasher, &spec, source, sink, store, budget) {
        Ok(spent) => {
            return Ok(spent);
        }
        // Without sums none is out of range, unless the store isn't honest.
        Err(Refusal::SumRange) => {
            return Err(Refusal::Damaged);
        }
        Err(refusal) => {
            return Err(refusal);
        }
    }
}
