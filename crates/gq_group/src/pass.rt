//! One pass over a source: groups of some keys to the sink, rows of other keys to runs.
ghost use Rattle.std.specs.Prelude.{◌≡◌, ◌+◌, ◌<◌, ◌≤◌, ◌^◌, [], List, length, IsTrue, IfOk, OnOk, IfErr, cond, ◌==◌};
ghost use Rattle.gq_row.specs.declared.value.Value.{Value as Cell};
ghost use Rattle.gq_group.specs.Access.{Apart, LeavesOthers, HasCause};
ghost use Rattle.gq_group.specs.Blocks.{IsHashed};
ghost use Rattle.gq_group.specs.PassResults.{RowsRead, PassRan};
ghost use Rattle.gq_group.specs.Partitioning.{partition_of, partition_by, fan_out};
ghost use Rattle.gq_group.specs.Passes.{AreRows, Places, written_of, began_of};
ghost use Rattle.gq_group.specs.Residents.{Resident};
ghost use Rattle.gq_group.specs.Partitions.{among, Ours, AllHeld, AreEmpty};

use crate::context::GroupContext;
use crate::group_map::Hint;
use crate::group_sink::GroupSink;
use crate::group_spec::GroupSpec;
use crate::grouping::push_all;
use crate::partition::{Partition, add_partitions, spill};
use crate::refusal::Refusal;
use crate::resident_table::{Offered, ResidentTable};
use crate::row_block::{Ahead, RowBlock};
use crate::row_source::RowSource;
use gq_row::{Key, Row};
use gq_spill::{RunStore, is_storable};
use std::alloc::AllocError;
use sw_probe::KeyHash;

// A pass over rows: what is asked of their groups, and at which depth their keys are partitioned.
#[derive(Clone, Copy)]
pub(crate) struct Pass<'a, H> {
    pub(crate) context: GroupContext<H>,
    pub(crate) spec: &'a GroupSpec,
    pub(crate) depth: u32,
}

// What a pass did.
#[derive(Clone, Copy)]
pub(crate) struct PassStats {
    pub(crate) rows_read: u64,
    pub(crate) rows_written: u64,
    pub(crate) groups: u64,
    pub(crate) runs: u64,
    // The length of the first row.
    pub(crate) columns: usize,
}

// What became of a row.
#[derive(Clone, Copy)]
enum Placed {
    // It is in its group.
    Grouped,
    // It was written to a run, and this number of runs, 0 or 1, was begun for it.
    Spilled { began: u64 },
}

// What was read, and what became of it.
#[derive(Clone, Copy)]
struct Taken {
    rows_read: u64,
    rows_written: u64,
    runs: u64,
    columns: usize,
}

// Partition fan-out at this depth: sixteen, and from depth 4 on one.
fn fan_out(depth: u32) -> usize
    ensures { result ≡ fan_out depth }
{
    if depth < 4 { 16 } else { 1 }
}

// The partition of a key, by its hash.
fn partition_of(depth: u32, hash: u64) -> usize
    ensures { result ≡ partition_of depth hash }
{
    if depth < 4 {
        ((hash >> (60 - 4 * depth)) % 16) as usize
    } else {
        0
    }
}

// Puts a row into its group, or into the run of its partition.
#[inline(always)]
fn place_row<H: KeyHash<Key> + Copy, S: RunStore>(
    pass: &Pass<'_, H>,
    ahead: &Ahead,
    hint: Hint,
    store: &mut S,
    table: &mut ResidentTable<H>,
    partitions: &mut Vec<Partition>,
) -> Result<Placed, Refusal>
    requires ahead { IsHashed pass.now.spec.now (H.hash_of table.old.groups.hasher) ahead.now }
    requires each { table.old.groups.each ≡ length pass.now.spec.now.aggs }
    requires resident { (rows : List (List Cell)) × (length rows < 2 ^ 32) ×
        Resident pass.now.spec.now table.old.budget.entries rows table.old.groups.pairs }
    requires places { length partitions.old.items ≡ fan_out pass.now.depth }
    requires ours { Ours partitions.old.items (S.runs store.old) }
    ensures places { IfOk result (λ placed. Places pass.now.spec.now table.old.budget.entries
        (partition_by (H.hash_of table.old.groups.hasher) pass.now.depth)
        (fan_out pass.now.depth) ahead.now.row (S.runs store.old) (S.runs store.new) table.old.groups.pairs table.new.groups.pairs partitions.old.items partitions.new.items
        (written_of placed) (began_of placed)) }
    ensures budget { table.new.budget ≡ table.old.budget }
    ensures each { table.new.groups.each ≡ table.old.groups.each }
    ensures hasher { OnOk result (table.new.groups.hasher ≡ table.old.groups.hasher) }
    ensures same_length { length partitions.new.items ≡ fan_out pass.now.depth }
    ensures ours { Ours partitions.new.items (S.runs store.new) }
    ensures others { LeavesOthers (among partitions.old.items) (among partitions.new.items) (S.runs
        store.old) (S.runs store.new) }
    ensures made { IfOk result (λ placed.
        (S.runs store.new).made ≡ (S.runs store.old).made + began_of placed) }
    ensures cause { (parts : List (List (List Cell))) →
        AllHeld (S.runs store.old) partitions.old.items parts →
        IfErr result (λ e. HasCause e (S.runs store.old) (S.runs store.new)) }
{
    let alloc = pass.context.alloc;
    let Ok(offered) = table.offer(alloc, pass.spec, ahead, hint) else {
        return Err(Refusal::Memory);
    };
    let Offered::Left(hash) = offered else {
        return Ok(Placed::Grouped);
    };
    if !is_storable(&ahead.row) {
        return Err(Refusal::Memory);
    }
    let place = partition_of(pass.depth, hash);
    let began = spill(alloc, partitions, place, &ahead.row, store)?;
    Ok(Placed::Spilled { began })
}

// The length of the first row.
fn width(count: u64, columns: usize, row: &Row) -> usize
    ensures { result ≡ cond (count == 0) (length row.now) columns }
{
    if count == 0 { row.len() } else { columns }
}

// Reads all rows of the source: each into its group, or if the table is full into the run of its
// partition.
fn read_rows<H: KeyHash<Key> + Copy, S: RunStore, R: RowSource<S>>(
    pass: &Pass<'_, H>,
    source: &mut R,
    store: &mut S,
    table: &mut ResidentTable<H>,
    partitions: &mut Vec<Partition>,
) -> Result<Taken, Refusal>
    requires source { R.is_ready source.old (S.runs store.old) }
    requires few { R.bound source.old ≤ 2 ^ 31 }
    requires rows { IsTrue (S.runs store.old).honest → (rows : List (List Cell)) ×
        R.gives source.old (S.runs store.old) rows × AreRows pass.now.spec.now rows }
    requires each { table.old.groups.each ≡ length pass.now.spec.now.aggs }
    requires start { Resident pass.now.spec.now table.old.budget.entries []
        table.old.groups.pairs }
    requires places { length partitions.old.items ≡ fan_out pass.now.depth }
    requires empty { AreEmpty partitions.old.items }
    ensures read { RowsRead pass.now.spec.now table.old.budget.entries (partition_by (H.hash_of
        table.old.groups.hasher) pass.now.depth) (fan_out pass.now.depth) (R.bound source.old) (R.gives source.old
        (S.runs store.old)) (R.owns source.old) (R.owns source.new) (R.is_ready source.new (S.runs
        store.new)) R.makes_runs (S.runs store.old) (S.runs store.new) table.new.groups.pairs
        partitions.new.items result }
    ensures each { table.new.groups.each ≡ table.old.groups.each }
{
    let mut rows_read: u64 = 0;
    let mut rows_written: u64 = 0;
    let mut runs: u64 = 0;
    let mut columns: usize = 0;
    let Ok(mut block) = RowBlock::new(pass.context.alloc) else {
        return Err(Refusal::Memory);
    };
    'rows: loop {
        let found = block.next(pass, source, store, table)?;
        let Some(place) = found else {
            break;
        };
        let ahead = block.row(place);
        let placed = place_row(pass, ahead, block.hint(place), store, table, partitions)?;
        if let Placed::Spilled { began } = placed {
            rows_written += 1;
            runs += began;
        }
        columns = width(rows_read, columns, &ahead.row);
        rows_read += 1;
    }
    Ok(Taken {
        rows_read,
        rows_written,
        runs,
        columns,
    })
}

// Empty partitions for the runs of a pass, and the groups of no row.
fn start_pass<H: KeyHash<Key> + Copy>(
    pass: &Pass<'_, H>,
    expected: usize,
    partitions: &mut Vec<Partition>,
) -> Result<ResidentTable<H>, AllocError>
    requires none { partitions.old.items ≡ [] }
    ensures empty { AreEmpty partitions.new.items }
    ensures few { length partitions.new.items ≤ 16 }
    ensures places { OnOk result (length partitions.new.items ≡ fan_out pass.now.depth) }
    ensures resident { IfOk result (λ table.
        Resident pass.now.spec.now pass.now.context.budget.entries [] table.groups.pairs) }
    ensures each { IfOk result (λ table. table.groups.each ≡ length pass.now.spec.now.aggs) }
    ensures budget { IfOk result (λ table. table.budget ≡ pass.now.context.budget) }
    ensures hasher { IfOk result (λ table. table.groups.hasher ≡ pass.now.context.hasher) }
{
    add_partitions(
        pass.depth.saturating_add(1),
        fan_out(pass.depth),
        partitions,
    )?;
    ResidentTable::start(pass.context, pass.spec, expected)
}

// Sends the groups of some of a source's keys to the sink, at most the budget's number, and writes the
// rows of its other keys to runs in new partitions. At every exit the runs that were begun are there.
pub(crate) fn run_pass<H: KeyHash<Key> + Copy, S: RunStore, R: RowSource<S>, K: GroupSink<S>>(
    pass: &Pass<'_, H>,
    source: &mut R,
    sink: &mut K,
    store: &mut S,
    partitions: &mut Vec<Partition>,
) -> Result<PassStats, Refusal>
    requires source { R.is_ready source.old (S.runs store.old) }
    requires sink { K.is_ready sink.old (S.runs store.old) }
    requires apart { Apart (R.owns source.old) (K.owns sink.old) }
    requires few { R.bound source.old ≤ 2 ^ 31 }
    requires rows { IsTrue (S.runs store.old).honest → (rows : List (List Cell)) ×
        R.gives source.old (S.runs store.old) rows × AreRows pass.now.spec.now rows }
    requires none { partitions.old.items ≡ [] }
    ensures { PassRan pass.now.spec.now pass.now.context.budget.entries (R.bound source.old) (R.gives
        source.old (S.runs store.old)) (K.holds sink.old (S.runs store.old)) (K.holds sink.new (S.runs
        store.new)) (R.owns source.old) (R.owns source.new) (K.owns sink.old) (K.owns sink.new)
        (R.is_ready source.new (S.runs store.new)) (K.is_ready sink.new (S.runs store.new))
        R.makes_runs K.makes_runs (S.runs store.old) (S.runs store.new) partitions.new.items result }
{
    let alloc = pass.context.alloc;
    let Ok(kept) = pass.spec.kept(alloc) else {
        return Err(Refusal::Memory);
    };
    let of_kept = Pass {
        context: pass.context,
        spec: &kept,
        depth: pass.depth,
    };
    let hint = source.rows_hint();
    let Ok(mut table) = start_pass(&of_kept, hint, partitions) else {
        return Err(Refusal::Memory);
    };
    let taken = read_rows(&of_kept, source, store, &mut table, partitions)?;
    let waiting = taken.rows_written;
    let groups = push_all(alloc, pass.spec, table.into_groups(), waiting, sink, store)?;
    Ok(PassStats {
        rows_read: taken.rows_read,
        rows_written: taken.rows_written,
        groups,
        runs: taken.runs,
        columns: taken.columns,
    })
}
