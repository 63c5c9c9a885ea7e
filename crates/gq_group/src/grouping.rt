//! Groups of the rows of a source.
//!
//! At most the budget's number of groups is in memory, and rows of other keys are spilled. Keys are
//! folded: a text without case is in small letters, however its rows spell it.
ghost use Rattle.std.specs.Prelude.{◌≡◌, ◌+◌, ◌≤◌, ◌^◌, ◌++◌, [], ℕ, true, false, List, length, IsTrue, IfOk, OnOk, IfErr, IsErrOf};
ghost use Rattle.std.specs.FinMap.{len};
ghost use Rattle.gq_row.specs.declared.value.Value.{Value as Cell};
ghost use Rattle.gq_row.specs.Classes.{class_of};
ghost use Rattle.gq_group.specs.Access.{Apart, either, LeavesOthers, HasCause, GroupCause};
ghost use Rattle.gq_group.specs.Entries.{Grouped, listed};
ghost use Rattle.gq_group.specs.Groups.{Group, keys_of, Pushes, all_fit, out_of_range, OneWidth};
ghost use Rattle.gq_group.specs.KeptAggs.{kept_spec};
ghost use Rattle.gq_group.specs.Work.{Spills};

use crate::budget::Budget;
use crate::context::GroupContext;
use crate::group_map::GroupMap;
use crate::group_sink::GroupSink;
use crate::group_spec::GroupSpec;
use crate::partition::discard_all;
use crate::refusal::Refusal;
use crate::row_source::RowSource;
use crate::stack::run_passes;
use gq_row::Key;
use gq_spill::RunStore;
use std::alloc::Global;
use sw_probe::KeyHash;

/// What a grouping took. Over an honest store `rows_read` and `groups` are exact; `rows_written` and
/// `runs` are only proved to be within the bounds of `Spills` (`specs/Work.antt`).
#[derive(Clone, Copy, Debug, PartialEq, Eq)]
pub struct Spent {
    /// How many rows came from the source.
    pub rows_read: u64,
    /// How many rows were written to runs.
    pub rows_written: u64,
    /// How many groups there are.
    pub groups: u64,
    /// How many runs were made.
    pub runs: u64,
}

// Pushes all groups to the sink, each as it leaves the map. Each of the `waiting` rows in runs may be
// the first of a group.
pub(crate) fn push_all<H: KeyHash<Key> + Copy, S: RunStore, K: GroupSink<S>>(
    alloc: Global,
    spec: &GroupSpec,
    all: GroupMap<H>,
    waiting: u64,
    sink: &mut K,
    store: &mut S,
) -> Result<u64, Refusal>
    requires sink { K.is_ready sink.old (S.runs store.old) }
    requires each { all.each ≡ length (kept_spec spec.now).aggs }
    ensures sent { OnOk result ((rows : List (List Cell)) →
        Grouped (kept_spec spec.now) rows all.pairs → Pushes spec.now rows (λ out.
        IsTrue (S.runs store.old).honest → (before : List Group) →
        K.holds sink.old (S.runs store.old) before →
        K.holds sink.new (S.runs store.new) (before ++ out))) }
    ensures count { IfOk result (λ n. (rows : List (List Cell)) →
        Grouped (kept_spec spec.now) rows all.pairs → n ≡ length (keys_of spec.now.by rows)) }
    ensures entries { IfOk result (λ n. n ≡ len (listed all.pairs)) }
    ensures no_overflow { OnOk result ((rows : List (List Cell)) →
        Grouped (kept_spec spec.now) rows all.pairs → out_of_range spec.now rows ≡ false) }
    ensures overflow { IsErrOf result Refusal.SumRange → (rows : List (List Cell)) →
        Grouped (kept_spec spec.now) rows all.pairs → out_of_range spec.now rows ≡ true }
    ensures sink { OnOk result (K.is_ready sink.new (S.runs store.new)) }
    ensures others { LeavesOthers (K.owns sink.old) (K.owns sink.new) (S.runs store.old)
        (S.runs store.new) }
    ensures made { K.makes_runs ≡ false → (S.runs store.new).made ≡ (S.runs store.old).made }
    ensures cause { IfErr result (λ e. GroupCause e (S.runs store.old) (S.runs store.new)) }
{
    let groups = all.len();
    sink.make_room(groups.saturating_add(waiting as usize));
    let mut left = all.drain(spec.aggs());
    let mut values = Vec::new(alloc);
    'groups: while !left.is_empty() {
        left.send(&mut values, sink, store)?;
    }
    Ok(groups as u64)
}

/// Pushes a group for each key of the source's rows, in some order, with the key folded. After a
/// refusal some rows were read and some groups pushed; runs are discarded whatever the outcome.
pub fn group<H: KeyHash<Key> + Copy, S: RunStore, R: RowSource<S>, K: GroupSink<S>>(
    alloc: Global,
    hasher: H,
    spec: &GroupSpec,
    source: &mut R,
    sink: &mut K,
    store: &mut S,
    budget: Budget,
) -> Result<Spent, Refusal>
    requires source { R.is_ready source.old (S.runs store.old) }
    requires sink { K.is_ready sink.old (S.runs store.old) }
    requires apart { Apart (R.owns source.old) (K.owns sink.old) }
    requires few { R.bound source.old ≤ 2 ^ 31 }
    requires rows { IsTrue (S.runs store.old).honest → (rows : List (List Cell)) →
        R.gives source.old (S.runs store.old) rows → IsTrue (all_fit spec.now rows) }
    requires widths { IsTrue (S.runs store.old).honest → (rows : List (List Cell)) →
        R.gives source.old (S.runs store.old) rows → OneWidth rows }
    ensures groups { IsTrue (S.runs store.old).honest →
        OnOk result ((rows : List (List Cell)) → R.gives source.old (S.runs store.old) rows
        → (before : List Group) → K.holds sink.old (S.runs store.old) before
        → Pushes spec.now rows (λ out. K.holds sink.new (S.runs store.new) (before ++ out))) }
    ensures counts { IsTrue (S.runs store.old).honest →
        IfOk result (λ spent. (rows : List (List Cell)) →
        R.gives source.old (S.runs store.old) rows
        → (spent.rows_read ≡ length rows) × (spent.groups ≡ length (keys_of spec.now.by rows))) }
    ensures spills { IsTrue (S.runs store.old).honest →
        IfOk result (λ spent. Spills budget.entries spent) }
    ensures no_overflow { IsTrue (S.runs store.old).honest →
        OnOk result ((rows : List (List Cell)) → R.gives source.old (S.runs store.old) rows →
        out_of_range spec.now rows ≡ false) }
    ensures overflow { IsTrue (S.runs store.old).honest → IsErrOf result Refusal.SumRange →
        (rows : List (List Cell)) → R.gives source.old (S.runs store.old) rows →
        out_of_range spec.now rows ≡ true }
    ensures made { R.makes_runs ≡ false → K.makes_runs ≡ false →
        IfOk result (λ spent. (S.runs store.new).made ≡ (S.runs store.old).made + spent.runs) }
    ensures others { LeavesOthers (either (R.owns source.old) (K.owns sink.old)) (either
        (R.owns source.new) (K.owns sink.new)) (S.runs store.old) (S.runs store.new) }
    ensures read { IfOk result (λ spent. spent.rows_read ≤ R.bound source.old) }
    ensures apart { Apart (R.owns source.new) (K.owns sink.new) }
    ensures grows_source { (run : ℕ) → IsTrue (R.owns source.old run) →
        IsTrue (R.owns source.new run) }
    ensures grows_sink { (run : ℕ) → IsTrue (K.owns sink.old run) → IsTrue (K.owns sink.new run) }
    ensures source { OnOk result (R.is_ready source.new (S.runs store.new)) }
    ensures sink { OnOk result (K.is_ready sink.new (S.runs store.new)) }
    ensures cause { IfErr result (λ e. GroupCause e (S.runs store.old) (S.runs store.new)) }
{
    let context = GroupContext {
        alloc,
        hasher,
        budget,
    };
    let mut stack = Vec::new(alloc);
    let outcome = run_passes(context, spec, source, sink, store, &mut stack);
    discard_all(stack, store);
    outcome
}
