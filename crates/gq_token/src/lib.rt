//! Splits a line into tokens, and holds the remaining tokens of a line.
//!
//! A token is a reserved word or a sign, a name, a number or a text. Spaces and tabs are between
//! tokens. A bare name is an ASCII letter or an underscore, and then letters, digits and
//! underscores; a reserved word, in any ASCII case, isn't a name. A quoted name is in double quotes
//! and isn't empty, a text is in single quotes; a quote in either is doubled. A number is an
//! optional `+` or `-` directly before its digits, within 64 bits, with no letter, digit or
//! underscore directly after it.
//!
//! The contracts: [`lex`] returns the tokens that a text spells, by longest match, or an error if
//! it spells none; [`Tokens`] is a list whose first token can be taken. The laws in [`laws`] say
//! the same in the field's terms.
#![tactic(auto)]

pub mod laws;
mod lexing;
mod parse_error;
mod queue;
mod token;

pub use lexing::lex;
pub use parse_error::ParseError;
pub use queue::Tokens;
pub use token::{Terminal, Token};
