//! How many distinct values the rows of each key have in a column.
//!
//! These are two groupings as by [`group`], each within the budget: of the pairs of a key and a value,
//! all of which are written to a run, and of that run by the key. A refusal is never `SumRange`.
ghost use Rattle.std.specs.Prelude.{◌≡◌, ◌+◌, ◌≤◌, ◌<◌, ◌^◌, ◌++◌, [], ℕ, false, List, length, IsTrue, IfOk, OnOk, IfErr};
ghost use Rattle.gq_row.specs.declared.value.Value.{Value as Cell};
ghost use Rattle.gq_spill.specs.Reading.{Left, opened};
ghost use Rattle.gq_spill.specs.Writing.{Wrote};
ghost use Rattle.gq_group.specs.Access.{Apart, either, LeavesOthers, HasCause};
ghost use Rattle.gq_group.specs.Counting.{CountedInRun};
ghost use Rattle.gq_group.specs.Distinct.{PushesDistinct, with_column, all_have};
ghost use Rattle.gq_group.specs.Groups.{Group, keys_of, Pushes, OneWidth};
ghost use Rattle.gq_group.specs.Phases.{pairs_of, counts_of, CanWrite};
ghost use Rattle.gq_group.specs.RunSources.{only};
ghost use Rattle.gq_group.specs.Work.{Spills, SpillsTwice};

use crate::budget::Budget;
use crate::context::GroupContext;
use crate::group_sink::GroupSink;
use crate::group_spec::GroupSpec;
use crate::grouping::{Spent, group};
use crate::key_run::KeyRun;
use crate::refusal::Refusal;
use crate::row_source::RowSource;
use crate::run_source::RunSource;
use gq_agg::AggKind;
use gq_row::Key;
use gq_spill::{RunMark, RunReader, RunStore};
use std::alloc::{AllocError, Global};
use sw_probe::KeyHash;

// The column whose distinct values are counted, for each key of the columns `by`.
#[derive(Clone, Copy)]
struct DistinctSpec<'a> {
    by: &'a [usize],
    column: usize,
}

// Groups rows by their key and their value in a column.
fn pairs_spec(alloc: Global, by: &[usize], column: usize) -> Result<GroupSpec, AllocError>
    ensures { IfOk result (λ spec. spec ≡ pairs_of by.now column) }
{
    let mut columns = Vec::from_slice(alloc, by)?;
    columns.push(column)?;
    Ok(GroupSpec::new(columns, Vec::new(alloc)))
}

// Groups such pairs by all columns but their value, which is counted if it isn't null.
fn counts_spec(alloc: Global, columns: usize) -> Result<GroupSpec, AllocError>
    ensures { IfOk result (λ spec. spec ≡ counts_of columns) }
{
    let mut by = Vec::new(alloc);
    'columns: for column in 0..columns {
        by.push(column)?;
    }
    let aggs = vec![in alloc; (AggKind::Count, columns)]?;
    Ok(GroupSpec::new(by, aggs))
}

// What both phases took, with the run between them. `Memory` if a count doesn't fit 64 bits.
fn in_all(first: Spent, second: Spent) -> Result<Spent, Refusal>
    ensures read { IfOk result (λ spent. spent.rows_read ≡ first.rows_read) }
    ensures written { IfOk result (λ spent. spent.rows_written ≡
        first.rows_written + second.rows_read + second.rows_written) }
    ensures groups { IfOk result (λ spent. spent.groups ≡ second.groups) }
    ensures runs { IfOk result (λ spent. spent.runs ≡ 1 + first.runs + second.runs) }
    ensures cause { IfErr result (λ e. e ≡ Refusal.Memory) }
{
    let pairs = second.rows_read;
    let Some(written) = first.rows_written.checked_add(pairs) else {
        return Err(Refusal::Memory);
    };
    let Some(rows_written) = written.checked_add(second.rows_written) else {
        return Err(Refusal::Memory);
    };
    let Some(made) = first.runs.checked_add(1) else {
        return Err(Refusal::Memory);
    };
    let Some(runs) = made.checked_add(second.runs) else {
        return Err(Refusal::Memory);
    };
    Ok(Spent {
        rows_read: first.rows_read,
        rows_written,
        groups: second.groups,
        runs,
    })
}

// Groups the pairs of a run, each of `columns` columns and a value, and counts their values.
fn count_pairs<H: KeyHash<Key> + Copy, S: RunStore, K: GroupSink<S>>(
    context: GroupContext<H>,
    columns: usize,
    mark: RunMark,
    sink: &mut K,
    store: &mut S,
) -> Result<Spent, Refusal>
    requires live { IsTrue ((S.runs store.old).live mark.id.number) }
    requires sink { K.is_ready sink.old (S.runs store.old) }
    requires apart { Apart (only mark.id.number) (K.owns sink.old) }
    requires few { mark.records ≤ 2 ^ 31 }
    requires short { columns < 2 ^ 63 }
    requires pairs { IsTrue (S.runs store.old).honest → (pairs : List (List Cell)) ×
        Left (opened mark (columns + 1)) (S.runs store.old) pairs }
    ensures groups { IsTrue (S.runs store.old).honest →
        OnOk result ((pairs : List (List Cell)) →
        Left (opened mark (columns + 1)) (S.runs store.old) pairs → (before : List Group) →
        K.holds sink.old (S.runs store.old) before → Pushes (counts_of columns) pairs
        (λ out. K.holds sink.new (S.runs store.new) (before ++ out))) }
    ensures count { IsTrue (S.runs store.old).honest →
        IfOk result (λ spent. (pairs : List (List Cell)) →
        Left (opened mark (columns + 1)) (S.runs store.old) pairs →
        (spent.rows_read ≡ length pairs)
        × (spent.groups ≡ length (keys_of (counts_of columns).by pairs))) }
    ensures spills { IsTrue (S.runs store.old).honest →
        IfOk result (λ spent. Spills context.budget.entries spent) }
    ensures made { K.makes_runs ≡ false →
        IfOk result (λ spent. (S.runs store.new).made ≡ (S.runs store.old).made + spent.runs) }
    ensures others { LeavesOthers (either (only mark.id.number) (K.owns sink.old)) (either
        (only mark.id.number) (K.owns sink.new)) (S.runs store.old) (S.runs store.new) }
    ensures apart { Apart (only mark.id.number) (K.owns sink.new) }
    ensures grows { (run : ℕ) → IsTrue (K.owns sink.old run) → IsTrue (K.owns sink.new run) }
    ensures sink { OnOk result (K.is_ready sink.new (S.runs store.new)) }
    ensures cause { IfErr result (λ e. HasCause e (S.runs store.old) (S.runs store.new)) }
{
    let GroupContext {
        alloc,
        hasher,
        budget,
    } = context;
    let Ok(spec) = counts_spec(alloc, columns) else {
        return Err(Refusal::Memory);
    };
    let mut source = RunSource {
        alloc,
        reader: RunReader::open(alloc, mark, columns + 1),
    };
    match group(alloc, hasher, &spec, &mut source, sink, store, budget) {
        Ok(spent) => Ok(spent),
        Err(refusal) => Err(refusal.as_damaged()),
    }
}

// Writes the distinct pairs of a key and a value to a run, and counts the values there. The caller
// discards the run.
fn count_in_run<H: KeyHash<Key> + Copy, S: RunStore, R: RowSource<S>, K: GroupSink<S>>(
    context: GroupContext<H>,
    asked: &DistinctSpec<'_>,
    keys: KeyRun,
    source: &mut R,
    sink: &mut K,
    store: &mut S,
) -> Result<Spent, Refusal>
    requires keys { CanWrite keys.writer (S.runs store.old) }
    requires empty { IsTrue (S.runs store.old).honest →
        Wrote keys.writer (S.runs store.old) [] }
    requires source { R.is_ready source.old (S.runs store.old) }
    requires sink { K.is_ready sink.old (S.runs store.old) }
    requires apart { Apart (R.owns source.old) (K.owns sink.old) }
    requires apart_source { Apart (R.owns source.old) (only keys.writer.mark.id.number) }
    requires apart_sink { Apart (only keys.writer.mark.id.number) (K.owns sink.old) }
    requires few { R.bound source.old ≤ 2 ^ 31 }
    requires rows { IsTrue (S.runs store.old).honest → (rows : List (List Cell)) →
        R.gives source.old (S.runs store.old) rows →
        IsTrue (all_have (with_column asked.now.by.now asked.now.column) rows) }
    requires widths { IsTrue (S.runs store.old).honest → (rows : List (List Cell)) →
        R.gives source.old (S.runs store.old) rows → OneWidth rows }
    ensures { CountedInRun asked.now.by.now asked.now.column context.budget.entries
        keys.writer.mark.id.number (R.gives source.old (S.runs store.old)) (K.holds sink.old (S.runs
        store.old)) (K.holds sink.new (S.runs store.new)) (R.owns source.old) (R.owns source.new)
        (K.owns sink.old) (K.owns sink.new) (R.is_ready source.new (S.runs store.new)) (K.is_ready
        sink.new (S.runs store.new)) R.makes_runs K.makes_runs (S.runs store.old) (S.runs store.new)
        result }
{
    let GroupContext {
        alloc,
        hasher,
        budget,
    } = context;
    let Ok(spec) = pairs_spec(alloc, asked.by, asked.column) else {
        return Err(Refusal::Memory);
    };
    let mut keys = keys;
    let first = match group(alloc, hasher, &spec, source, &mut keys, store, budget) {
        Ok(first) => first,
        Err(refusal) => return Err(refusal.as_damaged()),
    };
    let mark = keys.finish();
    if mark.records > first.rows_read {
        return Err(Refusal::Damaged);
    }
    let second = count_pairs(context, asked.by.len(), mark, sink, store)?;
    in_all(first, second)
}

/// Pushes a group for each key of the columns `by`, in some order: the key, folded, and the number of
/// distinct values in `column`, not counting null. Without columns there is one group.
pub fn group_distinct<H: KeyHash<Key> + Copy, S: RunStore, R: RowSource<S>, K: GroupSink<S>>(
    alloc: Global,
    hasher: H,
    by: &[usize],
    column: usize,
    source: &mut R,
    sink: &mut K,
    store: &mut S,
    budget: Budget,
) -> Result<Spent, Refusal>
    requires source { R.is_ready source.old (S.runs store.old) }
    requires sink { K.is_ready sink.old (S.runs store.old) }
    requires apart { Apart (R.owns source.old) (K.owns sink.old) }
    requires few { R.bound source.old ≤ 2 ^ 31 }
    requires rows { IsTrue (S.runs store.old).honest → (rows : List (List Cell)) →
        R.gives source.old (S.runs store.old) rows →
        IsTrue (all_have (with_column by.now column) rows) }
    requires widths { IsTrue (S.runs store.old).honest → (rows : List (List Cell)) →
        R.gives source.old (S.runs store.old) rows → OneWidth rows }
    ensures groups { IsTrue (S.runs store.old).honest →
        OnOk result ((rows : List (List Cell)) → R.gives source.old (S.runs store.old) rows
        → (before : List Group) → K.holds sink.old (S.runs store.old) before
        → PushesDistinct by.now column rows
        (λ out. K.holds sink.new (S.runs store.new) (before ++ out))) }
    ensures counts { IsTrue (S.runs store.old).honest →
        IfOk result (λ spent. (rows : List (List Cell)) →
        R.gives source.old (S.runs store.old) rows
        → (spent.rows_read ≡ length rows) × (spent.groups ≡ length (keys_of by.now rows))) }
    ensures spills { IsTrue (S.runs store.old).honest →
        IfOk result (λ spent. SpillsTwice budget.entries spent) }
    ensures made { R.makes_runs ≡ false → K.makes_runs ≡ false →
        IfOk result (λ spent. (S.runs store.new).made ≡ (S.runs store.old).made + spent.runs) }
    ensures others { LeavesOthers (either (R.owns source.old) (K.owns sink.old)) (either
        (R.owns source.new) (K.owns sink.new)) (S.runs store.old) (S.runs store.new) }
    ensures source { OnOk result (R.is_ready source.new (S.runs store.new)) }
    ensures sink { OnOk result (K.is_ready sink.new (S.runs store.new)) }
    ensures cause { IfErr result (λ e. HasCause e (S.runs store.old) (S.runs store.new)) }
{
    let keys = KeyRun::begin(alloc, store)?;
    let run = keys.run();
    let context = GroupContext {
        alloc,
        hasher,
        budget,
    };
    let asked = DistinctSpec { by, column };
    let outcome = count_in_run(context, &asked, keys, source, sink, store);
    store.discard(run);
    outcome
}
