//! Clauses of commands (names, literals, aggregates and tests) as data, and their parsers. They
//! follow the rules `names`, `literal`, `agg` and `tests` of the grammar in `docs/LANGUAGE.md`.
//!
//! The contract of each parser: it takes the tokens that its rule of the grammar reads, and no
//! more, or returns [`ParseError::Syntax`] if the rule reads none. Lists are parsed in one pass.
//! `specs/Words.antt` defines how each clause is written, and the laws in [`laws`] say that parsing
//! and writing agree. [`names_fit`] and its like say whether each name and each text is within its
//! limit.
//!
//! [`ParseError::Syntax`]: gq_token::ParseError::Syntax
#![tactic(auto)]

mod aggregate;
mod condition;
pub mod laws;
mod limits;
mod reading;

pub use aggregate::Aggregate;
pub use condition::{Operand, Test};
pub use gq_row::Comparison;
pub use limits::{aggregates_fit, names_fit, tests_fit, values_fit};
pub use reading::{
    aggregates_of, enclosed_literals, enclosed_names, expect, name_of, names_after, names_of,
    tests_after,
};
