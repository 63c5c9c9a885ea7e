//! The rows that a query is about.
ghost use Rattle.std.specs.Prelude.{◌≡◌, ◌<◌, All, IfOk, Some, length, option_copied};
ghost use Rattle.gq_select.specs.KeySets.{AreKeysOf};
ghost use Rattle.gq_select.specs.declared.matching.Matching.{Matching as Match};
ghost use Rattle.gq_query.specs.Keeping.{columns_read};
ghost use Rattle.gq_query.specs.Selecting.{CanSelect, other_rows};

use crate::match_ahead::MatchAhead;
use gq_row::Key;
use gq_select::{Condition, KeySet, Matching};
use gq_table::Table;
use std::alloc::{AllocError, Global};
use sw_probe::KeyHash;

/// The rows of a table that a query is about: those for which a condition is true and, if a match
/// is asked for, which have one among the rows of another table, or with `negated` have none.
/// Without another table there is no match.
#[derive(Drop)]
pub struct Selection<'t, 'q, H: KeyHash<Key>> {
    pub table: &'t Table<H>,
    pub condition: &'q Condition,
    pub matching: Option<&'q Matching>,
    pub others: Option<&'t Table<H>>,
}

/// The columns of a row that decide whether it is selected.
pub fn deciding_columns<H: KeyHash<Key>>(
    alloc: Global,
    selection: &Selection<'_, '_, H>,
) -> Result<Vec<usize>, AllocError>
    ensures { IfOk result (λ columns. columns.items ≡
        columns_read selection.now.condition.now (option_copied selection.now.matching)) }
{
    let mut columns = selection.condition.columns(alloc)?;
    if let Some(matching) = selection.matching {
        columns.extend_from_slice(matching.ours.as_slice())?;
    }
    Ok(columns)
}

/// The keys of the other table's rows in the columns that a match compares. An empty set, which
/// allocates nothing, if no match is asked for.
pub fn other_keys<H: KeyHash<Key> + Copy>(
    alloc: Global,
    hasher: H,
    selection: &Selection<'_, '_, H>,
) -> Result<KeySet<H>, AllocError>
    requires { CanSelect selection.now }
    ensures { IfOk result (λ keys. (matching : Match) →
        option_copied selection.now.matching ≡ Some matching →
        AreKeysOf matching.theirs (other_rows (option_copied selection.now.others)) keys) }
{
    let Some(matching) = selection.matching else {
        return Ok(KeySet::new(alloc, hasher));
    };
    let Some(others) = selection.others else {
        return Ok(KeySet::new(alloc, hasher));
    };
    keys_of(alloc, hasher, others, matching.theirs.as_slice())
}

// The keys of a table's rows in some columns, without those that contain null.
fn keys_of<H: KeyHash<Key> + Copy>(
    alloc: Global,
    hasher: H,
    table: &Table<H>,
    columns: &[usize],
) -> Result<KeySet<H>, AllocError>
    requires { All (λ column. column < length table.now.schema.columns) columns.now }
    ensures { IfOk result (AreKeysOf columns.now table.now.rows) }
{
    let mut keys = KeySet::new(alloc, hasher);
    let mut rows = table.rows();
    let mut ahead = MatchAhead::new(table.rows());
    'rows: while rows.advance() {
        rows.read_columns(columns)?;
        keys.add_at(rows.row(), columns, ahead.next(&keys, columns))?;
    }
    Ok(keys)
}
