//! Queries on tables: from a table's rows to the result rows, in the order in which they are shown.
//!
//! - A [`Selection`] says which rows of a table a query is about: those for which a condition is
//!   true and which have a match among the rows of another table, or have none, as it asks.
//! - [`group_rows`] returns a row for each distinct key that these rows have in some columns: the
//!   key, and then each [`OutputColumn`] of the rows that have it. A text without case is shown in
//!   the key by its least spelling among these rows. `having` keeps the finished rows for which it
//!   is true.
//! - With `rollup` it groups by each prefix of the columns: by none, the first, the first two, and
//!   so on. These rows have null in the other columns, which `having` sees, and then get their
//!   level as the first value: the number of columns that they are grouped by.
//! - [`distinct_rows`] returns only the distinct keys, and [`show_rows`] all rows of a table.
//!
//! ```text
//! let selection = Selection { table: &table, condition: &condition, matching: None, others: None };
//! let shown = [OutputColumn::Aggregate(AggKind::Sum, 1), OutputColumn::CountDistinct(2)];
//! let grouping = Grouping { by: &[0], rollup: false, shown: &shown, having: &having, budget };
//! let (rows, spent) = group_rows(alloc, hasher, &selection, &grouping, &mut store, spent)?;
//! ```
//!
//! Rows that aren't kept are skipped before any of their cells is copied. The keys of the other
//! table's rows are put into a set once for each query, and each row is looked up there.
//!
//! # The contract above this crate
//!
//! The outcome of [`group_rows`] is `Answered`, and that of [`distinct_rows`] is `Found`, both of
//! `specs/Outcomes.antt`. Over an honest store the rows of the first are `group_answer` of
//! `specs/Rollups.antt`, and those of the second are `distinct_keys` of `specs/Answers.antt`, each
//! of the `rows_kept` there: these definitions use only lists, filters and aggregates. `SumRange`
//! is returned only if a sum is out of range, whatever `having` says. The work of each grouping
//! raises `spent`, by `RisesBy` of `specs/Work.antt`: the numbers of rows read and of groups are
//! exact, and those of rows written and of runs are within bounds. Counts of distinct values are
//! left out. Over every store no new run remains, no other run is touched, and both functions fail
//! only for a cause. The laws in [`laws`] say that the order of rows, in either table, doesn't
//! change these answers, and that each level of a rollup is a `group`.
#![tactic(auto)]

mod cells;
mod distinct;
mod frames;
mod group_list;
mod grouping;
pub mod laws;
mod match_ahead;
mod ordering;
mod query;
mod rollup;
mod row_filter;
mod selection;
mod showing;
mod sort_prefix;
mod spelling;
mod spending;
mod table_rows;
mod tie_sort;

pub use distinct::distinct_rows;
pub use gq_select::OutputColumn;
pub use grouping::{Grouping, group_rows};
pub use selection::Selection;
pub use showing::show_rows;
