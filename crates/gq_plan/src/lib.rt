//! Plans of queries: the names of a `group` or a `distinct`, resolved to positions in rows.
//!
//! - [`plan_group`] looks up each name of a `group` once: the columns that its rows are grouped by,
//!   those of its aggregates, those that its conditions compare, and the columns of both tables of
//!   an `exists`. After `having` the names are those of a result row, which has the values of the
//!   `by` columns, and then the shown aggregates. [`plan_distinct`] does the same for a `distinct`.
//! - A query is refused with `NoColumn` if a name is none of these, and else with `TypeMismatch` if
//!   kinds are incompatible: in a sum of texts, a comparison of a number with a text, or an
//!   `exists` over columns of different kinds. Texts without case are compared with texts, but an
//!   `exists` needs columns of one kind. No row is read for that, so a query of an empty table is
//!   refused as well.
//! - [`header_of`] and [`names_of`] return the headers of replies.
//!
//! ```text
//! group s by city show count(*), max(id) where id > 3 having max(id) < 9
//!
//! by         [1]                                   city is column 1 of s
//! shown      [count(*), max of column 0]
//! condition  column 0 > 3                          id is column 0 of s
//! having     column 2 < 9                          city, count(*), max(id)
//! ```
//!
//! # The contract above this crate
//!
//! [`plan_group`] and [`plan_distinct`] return the plan, or the refusal, that `group_plan` and
//! `distinct_plan` of `specs/Plans.antt` define by positions in lists; only `Memory` may replace
//! either. The positions of a plan are those of columns.
#![tactic(auto)]

mod clauses;
mod distinct;
mod found;
mod grouping;
mod header;
mod kinds;
mod matching;
mod places;
mod plan;
mod shown;

pub use clauses::GroupClauses;
pub use distinct::plan_distinct;
pub use grouping::plan_group;
pub use header::{header_of, names_of};
pub use plan::{DistinctPlan, GroupPlan};
