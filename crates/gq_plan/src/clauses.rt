//! The clauses of a `group`, by names.
use gq_clause::{Aggregate, Test};
use gq_command::{By, Exists};
use gq_row::Sequence;

/// The clauses of a `group`, as parsed from its line.
#[derive(Drop)]
pub struct GroupClauses {
    pub by: By,
    pub shown: Sequence<Aggregate>,
    pub tests: Sequence<Test>,
    pub exists: Option<Exists>,
    pub having: Sequence<Test>,
}
