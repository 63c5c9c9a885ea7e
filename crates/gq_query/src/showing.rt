//! All rows of a table, in order.
ghost use Rattle.std.specs.Prelude.{◌≡◌, IfOk};
ghost use Rattle.gq_query.specs.Answers.{rows_shown};

use crate::ordering::sort_rows;
use gq_cells::Rows;
use gq_row::Key;
use gq_table::Table;
use std::alloc::{AllocError, Global};
use sw_probe::KeyHash;

/// The rows of a table in the order of their keys, or of all their values if it has no key.
pub fn show_rows<H: KeyHash<Key> + Copy>(
    alloc: Global,
    table: &Table<H>,
) -> Result<Rows, AllocError>
    ensures { IfOk result (λ rows. rows ≡ rows_shown table.now) }
{
    let _valid = table.len();
    let rows = rows_of(alloc, table)?;
    sort_rows(alloc, rows, table.schema().key())
}

// Copies of the rows of a table, in one list.
fn rows_of<H: KeyHash<Key> + Copy>(alloc: Global, table: &Table<H>) -> Result<Rows, AllocError>
    ensures { IfOk result (λ rows. rows ≡ table.now.rows) }
{
    let mut copies = Rows::new(alloc);
    copies.reserve(table.len(), table.schema().columns().len())?;
    let mut rows = table.rows();
    'rows: while rows.advance() {
        rows.read()?;
        copies.push_copy(alloc, rows.row())?;
    }
    Ok(copies)
}
