//! Partitions of rows, each with a run.
ghost use Rattle.std.specs.Prelude.{◌≡◌, ◌+◌, ◌<◌, ◌≤◌, ◌++◌, ◌∷◌, [], None, ℕ, List, length, IsTrue, IfOk, OnOk, IfErr};
ghost use Rattle.std.specs.List.{sum_by};
ghost use Rattle.gq_row.specs.declared.value.Value.{Value as Cell};
ghost use Rattle.gq_record.specs.Records.{IsStorable};
ghost use Rattle.gq_group.specs.Access.{LeavesOthers, HasCause};
ghost use Rattle.gq_group.specs.Partitioning.{one_if_some};
ghost use Rattle.gq_group.specs.Partitions.{is_run, among, Ours, PartitionHolds, AllHeld, AreEmpty, push_at, Gone};

use crate::refusal::Refusal;
use gq_row::Row;
use gq_spill::{RunStore, RunWriter};
use std::alloc::{AllocError, Global};

// The run of the keys that have this partition at a depth.
#[derive(Drop)]
pub(crate) struct Partition {
    // The depth at which its rows are to be read.
    pub(crate) depth: u32,
    // None if no row came.
    pub(crate) writer: Option<RunWriter>,
}

// Adds `count` empty partitions.
pub(crate) fn add_partitions(
    depth: u32,
    count: usize,
    partitions: &mut Vec<Partition>,
) -> Result<(), AllocError>
    requires none { partitions.old.items ≡ [] }
    ensures empty { AreEmpty partitions.new.items }
    ensures places { OnOk result (length partitions.new.items ≡ count) }
    ensures few { length partitions.new.items ≤ count }
{
    'places: for i in 0..count {
        partitions.push(Partition {
            depth,
            writer: None,
        })?;
    }
    Ok(())
}

// Begins a run if none is held, and writes its first row. Returns 1.
#[cold]
fn begin_with<S: RunStore>(
    alloc: Global,
    held: &mut Option<RunWriter>,
    row: &Row,
    store: &mut S,
) -> Result<u64, Refusal>
    requires none { held.old ≡ None }
    requires storable { IsStorable row.now }
    ensures holds { OnOk result (PartitionHolds (S.runs store.new) held.new (row.now ∷ [])) }
    ensures began { IfOk result (λ began. began ≡ 1) }
    ensures live { (run : ℕ) → IsTrue (is_run held.new run) → IsTrue ((S.runs store.new).live run) }
    ensures others { LeavesOthers (is_run None) (is_run held.new) (S.runs store.old) (S.runs
        store.new) }
    ensures made { OnOk result ((S.runs store.new).made ≡ (S.runs store.old).made + 1) }
    ensures cause { IfErr result (λ e. HasCause e (S.runs store.old) (S.runs store.new)) }
{
    match RunWriter::begin(alloc, store) {
        Ok(writer) => match held.insert(writer).write(store, row) {
            Ok(()) => Ok(1),
            Err(why) => Err(Refusal::of(why)),
        },
        Err(why) => Err(Refusal::of(why)),
    }
}

// Writes a row to the run that is held, or to one that is begun for it. Returns 1 if it began one.
// The writer isn't moved.
fn write_to<S: RunStore>(
    alloc: Global,
    held: &mut Option<RunWriter>,
    row: &Row,
    store: &mut S,
) -> Result<u64, Refusal>
    requires live { (run : ℕ) → IsTrue (is_run held.old run) → IsTrue ((S.runs store.old).live run) }
    requires storable { IsStorable row.now }
    ensures holds { OnOk result ((rows : List (List Cell)) →
        PartitionHolds (S.runs store.old) held.old rows →
        PartitionHolds (S.runs store.new) held.new (rows ++ row.now ∷ [])) }
    ensures began { IfOk result (λ began. (rows : List (List Cell)) →
        PartitionHolds (S.runs store.old) held.old rows → one_if_some rows + began ≡ 1) }
    ensures one { IfOk result (λ began. began ≤ 1) }
    ensures live { (run : ℕ) → IsTrue (is_run held.new run) → IsTrue ((S.runs store.new).live run) }
    ensures others { LeavesOthers (is_run held.old) (is_run held.new) (S.runs store.old) (S.runs
        store.new) }
    ensures made { IfOk result (λ began.
        (S.runs store.new).made ≡ (S.runs store.old).made + began) }
    ensures cause { (rows : List (List Cell)) → PartitionHolds (S.runs store.old) held.old rows →
        IfErr result (λ e. HasCause e (S.runs store.old) (S.runs store.new)) }
{
    match held {
        Some(writer) => match writer.write(store, row) {
            Ok(()) => Ok(0),
            Err(why) => Err(Refusal::of(why)),
        },
        None => begin_with(alloc, held, row, store),
    }
}

// Writes a row to the run of a partition, or to one that is begun there. Returns 1 if it began one.
pub(crate) fn spill<S: RunStore>(
    alloc: Global,
    partitions: &mut Vec<Partition>,
    place: usize,
    row: &Row,
    store: &mut S,
) -> Result<u64, Refusal>
    requires within { place < length partitions.old.items }
    requires storable { IsStorable row.now }
    requires ours { Ours partitions.old.items (S.runs store.old) }
    ensures holds { OnOk result ((parts : List (List (List Cell))) →
        AllHeld (S.runs store.old) partitions.old.items parts →
        AllHeld (S.runs store.new) partitions.new.items (push_at place row.now parts)) }
    ensures began { IfOk result (λ began. (parts : List (List (List Cell))) →
        AllHeld (S.runs store.old) partitions.old.items parts →
        sum_by one_if_some (push_at place row.now parts) ≡ sum_by one_if_some parts + began) }
    ensures one { IfOk result (λ began. began ≤ 1) }
    ensures same_length { length partitions.new.items ≡ length partitions.old.items }
    ensures ours { Ours partitions.new.items (S.runs store.new) }
    ensures others { LeavesOthers (among partitions.old.items) (among partitions.new.items) (S.runs
        store.old) (S.runs store.new) }
    ensures made { IfOk result (λ began.
        (S.runs store.new).made ≡ (S.runs store.old).made + began) }
    ensures cause { (parts : List (List (List Cell))) →
        AllHeld (S.runs store.old) partitions.old.items parts →
        IfErr result (λ e. HasCause e (S.runs store.old) (S.runs store.new)) }
{
    write_to(alloc, &mut partitions[place].writer, row, store)
}

// Discards the runs of all partitions.
pub(crate) fn discard_all<S: RunStore>(partitions: Vec<Partition>, store: &mut S)
    requires ours { Ours partitions.items (S.runs store.old) }
    ensures gone { Gone (among partitions.items) (S.runs store.old) (S.runs store.new) }
{
    let mut left = partitions;
    'partitions: while let Some(partition) = left.pop() {
        let Partition { depth: _, writer } = partition;
        if let Some(writer) = writer {
            store.discard(writer.finish().id);
        }
    }
}
