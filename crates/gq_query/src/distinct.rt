//! The distinct keys of the rows that a query is about, in order.
//!
//! Null is one key value. A text without case is shown by its least spelling among these rows.
//! Whether a query fails or not, the store then has the same live runs as before.
ghost use Rattle.std.specs.Prelude.{◌≡◌, ◌<◌, All, length};
ghost use Rattle.gq_query.specs.Answers.{distinct_keys};
ghost use Rattle.gq_query.specs.Outcomes.{Found};
ghost use Rattle.gq_query.specs.Selecting.{CanSelect, rows_selected};

use crate::query::Query;
use crate::row_filter::RowFilter;
use crate::selection::{Selection, deciding_columns, other_keys};
use gq_cells::Rows;
use gq_group::{Budget, Refusal};
use gq_row::Key;
use gq_spill::RunStore;
use std::alloc::Global;
use sw_probe::KeyHash;

/// The distinct keys of the selected rows in the columns `on`, in ascending order. Fails with
/// `Memory`, `StoreFault`, or `Damaged` if the store doesn't read back what was written.
pub fn distinct_rows<H: KeyHash<Key> + Copy, S: RunStore>(
    alloc: Global,
    hasher: H,
    selection: &Selection<'_, '_, H>,
    on: &[usize],
    store: &mut S,
    budget: Budget,
) -> Result<Rows, Refusal>
    requires some { 0 < length on.now }
    requires on { All (λ column. column < length selection.now.table.now.schema.columns) on.now }
    requires matching { CanSelect selection.now }
    ensures { Found (S.runs store.old) (S.runs store.new) result
        (λ rows. rows ≡ distinct_keys on.now (rows_selected selection.now)) }
{
    let Ok(keys) = other_keys(alloc, hasher, selection) else {
        return Err(Refusal::Memory);
    };
    let Ok(columns) = deciding_columns(alloc, selection) else {
        return Err(Refusal::Memory);
    };
    let kept = RowFilter {
        condition: selection.condition,
        matching: selection.matching,
        keys: &keys,
        columns: columns.as_slice(),
    };
    let query = Query {
        alloc,
        hasher,
        table: selection.table,
        kept: &kept,
        by: on,
        budget,
    };
    query.different(store)
}
