//! One pass after another: over a source, and then over each run that was begun.
ghost use Rattle.std.specs.Prelude.{◌≡◌, ◌+◌, ◌<◌, ◌≤◌, ◌^◌, [], false, List, IsTrue};
ghost use Rattle.gq_row.specs.declared.value.Value.{Value as Cell};
ghost use Rattle.gq_group.specs.Access.{Apart};
ghost use Rattle.gq_group.specs.PassResults.{RunRead, PassesRan};
ghost use Rattle.gq_group.specs.Passes.{AreRows, Fit};
ghost use Rattle.gq_group.specs.Partitions.{HasRun};

use crate::context::GroupContext;
use crate::group_sink::GroupSink;
use crate::group_spec::GroupSpec;
use crate::grouping::Spent;
use crate::partition::Partition;
use crate::pass::{Pass, PassStats, run_pass};
use crate::refusal::Refusal;
use crate::row_source::RowSource;
use crate::run_source::RunSource;
use gq_row::Key;
use gq_spill::{RunReader, RunStore, RunWriter};
use sw_probe::KeyHash;

// Reads a run as a source, and discards it. At every exit the runs that were begun are in the partitions.
fn read_run<H: KeyHash<Key> + Copy, S: RunStore, K: GroupSink<S>>(
    pass: &Pass<'_, H>,
    columns: usize,
    writer: RunWriter,
    sink: &mut K,
    store: &mut S,
    partitions: &mut Vec<Partition>,
) -> Result<PassStats, Refusal>
    requires live { IsTrue ((S.runs store.old).live writer.mark.id.number) }
    requires few { writer.mark.records ≤ 2 ^ 31 }
    requires sink { K.is_ready sink.old (S.runs store.old) }
    requires apart { K.owns sink.old writer.mark.id.number ≡ false }
    requires rows { IsTrue (S.runs store.old).honest → (rows : List (List Cell)) ×
        HasRun writer (S.runs store.old) rows × Fit pass.now.spec.now columns rows }
    requires none { partitions.old.items ≡ [] }
    ensures { RunRead pass.now.spec.now pass.now.context.budget.entries columns writer
        (K.holds sink.old (S.runs store.old)) (K.holds sink.new (S.runs store.new)) (K.owns sink.old)
        (K.owns sink.new) (K.is_ready sink.new (S.runs store.new)) K.makes_runs (S.runs store.old)
        (S.runs store.new) partitions.new.items result }
{
    let alloc = pass.context.alloc;
    let mark = writer.finish();
    let mut source = RunSource {
        alloc,
        reader: RunReader::open(alloc, mark, columns),
    };
    let outcome = run_pass(pass, &mut source, sink, store, partitions);
    store.discard(mark.id);
    outcome
}

// Pushes the groups of a source's rows to the sink: those of a first pass, and then those of each run,
// which is discarded once it was read. At every exit all runs that remain are on the stack.
pub(crate) fn run_passes<H: KeyHash<Key> + Copy, S: RunStore, R: RowSource<S>, K: GroupSink<S>>(
    context: GroupContext<H>,
    spec: &GroupSpec,
    source: &mut R,
    sink: &mut K,
    store: &mut S,
    stack: &mut Vec<Partition>,
) -> Result<Spent, Refusal>
    requires source { R.is_ready source.old (S.runs store.old) }
    requires sink { K.is_ready sink.old (S.runs store.old) }
    requires apart { Apart (R.owns source.old) (K.owns sink.old) }
    requires few { R.bound source.old ≤ 2 ^ 31 }
    requires rows { IsTrue (S.runs store.old).honest → (rows : List (List Cell)) ×
        R.gives source.old (S.runs store.old) rows × AreRows spec.now rows }
    requires none { stack.old.items ≡ [] }
    ensures { PassesRan spec.now context.budget.entries (R.bound source.old) (R.gives source.old
        (S.runs store.old)) (K.holds sink.old (S.runs store.old)) (K.holds sink.new (S.runs store.new))
        (R.owns source.old) (R.owns source.new) (K.owns sink.old) (K.owns sink.new) (R.is_ready
        source.new (S.runs store.new)) (K.is_ready sink.new (S.runs store.new)) R.makes_runs
        K.makes_runs (S.runs store.old) (S.runs store.new) stack.new.items result }
{
    let pass = Pass {
        context,
        spec,
        depth: 0,
    };
    let first = run_pass(&pass, source, sink, store, stack)?;
    let mut rows_written = first.rows_written;
    let mut groups = first.groups;
    let mut runs = first.runs;
    'runs: loop {
        // Room for the partitions of the next pass.
        let Ok(()) = stack.reserve(16) else {
            return Err(Refusal::Memory);
        };
        let Some(partition) = stack.pop() else {
            break;
        };
        let Partition { depth, writer } = partition;
        if let Some(writer) = writer {
            let pass = Pass {
                context,
                spec,
                depth,
            };
            let mut partitions = Vec::new(context.alloc);
            let outcome = read_run(&pass, first.columns, writer, sink, store, &mut partitions);
            // There is room, so that all of them get on the stack, whatever the outcome.
            let _ = stack.append(&mut partitions);
            let done = outcome?;
            rows_written += done.rows_written;
            groups += done.groups;
            runs += done.runs;
        }
    }
    Ok(Spent {
        rows_read: first.rows_read,
        rows_written,
        groups,
        runs,
    })
}
