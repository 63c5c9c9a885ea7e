//! Matches of rows with those of another table, as data.
use gq_row::Sequence;

/// Which rows are kept: those that match a row of another table, or with `negated` those that don't. A row's
/// match has in its columns `theirs` what the row has in `ours`, one by one, none of that null. Columns are
/// positions in a row.
#[derive(Drop)]
pub struct Matching {
    pub negated: bool,
    pub theirs: Sequence<usize>,
    pub ours: Sequence<usize>,
}
