//! Plans, as data.
use gq_row::Sequence;
use gq_select::{Condition, Matching, OutputColumn};

/// A `group`, by positions in rows.
#[derive(Drop)]
pub struct GroupPlan {
    pub by: Sequence<usize>,
    /// Whether rows are grouped by each prefix of these columns, and not only by all of them.
    pub rollup: bool,
    pub shown: Sequence<OutputColumn>,
    /// On the rows of the table.
    pub condition: Condition,
    /// On the rows of the table and those of another.
    pub matching: Option<Matching>,
    /// On the result rows: the values of the `by` columns, null where a level of a rollup has none,
    /// and then the shown values.
    pub having: Condition,
}

/// A `distinct`, by positions in rows.
#[derive(Drop)]
pub struct DistinctPlan {
    pub on: Sequence<usize>,
    pub condition: Condition,
}
