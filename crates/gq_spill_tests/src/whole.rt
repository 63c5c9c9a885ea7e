//! Whole runs: writing a list of rows, and reading a list of rows.
ghost use Rattle.std.specs.Prelude.{◌≡◌, All, List, ℕ, length, IfOk, IsTrue};
ghost use Rattle.gq_row.specs.declared.value.Value.{Value as Cell};
ghost use Rattle.gq_spill.specs.Reading.{Left, opened};

use gq_row::Row;
use gq_spill::{RunMark, RunReader, RunStore, RunWriter, SpillRefusal, is_storable};
use std::alloc::Global;

/// Writes rows to a run of their own; a row that has no record is `Damaged`.
pub fn write_rows<S: RunStore>(
    alloc: Global,
    store: &mut S,
    rows: &[Row],
) -> Result<RunMark, SpillRefusal>
    ensures live { IfOk result (λ mark. IsTrue ((S.runs store.new).live mark.id.number)) }
    ensures honest { (S.runs store.new).honest ≡ (S.runs store.old).honest }
    ensures wrote { IsTrue (S.runs store.old).honest → IfOk result (λ mark. (columns : ℕ) →
        All (λ row. length row ≡ columns) rows.now →
        Left (opened mark columns) (S.runs store.new) rows.now) }
{
    let mut writer = RunWriter::begin(alloc, store)?;
    for row in rows {
        if !is_storable(row) {
            return Err(SpillRefusal::Damaged);
        }
        writer.write(store, row)?;
    }
    Ok(writer.finish())
}

/// Reads a run to its end.
pub fn read_rows<S: RunStore>(
    alloc: Global,
    store: &mut S,
    mark: RunMark,
    columns: usize,
) -> Result<Vec<Row>, SpillRefusal>
    requires { IsTrue ((S.runs store.old).live mark.id.number) }
    ensures live { IsTrue ((S.runs store.new).live mark.id.number) }
    ensures read { IsTrue (S.runs store.old).honest →
        IfOk result (λ read. (rows : List (List Cell)) →
        Left (opened mark columns) (S.runs store.old) rows → read.items ≡ rows) }
{
    let mut reader = RunReader::open(alloc, mark, columns);
    let mut rows = Vec::new(alloc);
    for _ in 0..mark.records {
        let mut row = Row::new(Vec::new(alloc));
        let more = reader.next(alloc, store, &mut row)?;
        if !more {
            return Ok(rows);
        }
        if rows.push(row).is_err() {
            return Err(SpillRefusal::Memory);
        }
    }
    Ok(rows)
}

/// Writes rows of `columns` columns to a run, reads it and discards it: the rows read are the rows written.
pub fn through_a_run<S: RunStore>(
    alloc: Global,
    store: &mut S,
    rows: &[Row],
    columns: usize,
) -> Result<Vec<Row>, SpillRefusal>
    requires { All (λ row. length row ≡ columns) rows.now }
    ensures { IsTrue (S.runs store.old).honest → IfOk result (λ read. read.items ≡ rows.now) }
{
    let mark = write_rows(alloc, store, rows)?;
    let read = read_rows(alloc, store, mark, columns);
    store.discard(mark.id);
    read
}
