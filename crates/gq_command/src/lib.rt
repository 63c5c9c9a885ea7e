//! Parses lines as commands, and scripts as items.
//!
//! A script is split into lines at LF; one CR before the LF belongs to the line's end. Lines of
//! spaces and tabs are skipped, and so are comments: lines that begin with `--`, after any spaces
//! and tabs. Each other line is an item: the command that it says, or why it is refused.
//!
//! If the first word of a line is `load`, in any case, the following lines up to the first that is
//! exactly `\.` are its payload, whether the line is a command or not. Without such a line the
//! payload is open, and takes the rest of the script.
//!
//! A line is split into tokens by longest match, with spaces and tabs between them. The grammar of
//! commands is in `docs/LANGUAGE.md`.
//!
//! Keywords are in any ASCII case, and reserved: none is a bare name. A bare name is an ASCII
//! letter or an underscore, and then letters, digits and underscores. A quoted name is in double
//! quotes and isn't empty, a string is in single quotes; a quote in either is doubled. Names are
//! the same if their bytes are, quoted or not. An int is an optional `+` or `-` directly before its
//! digits, within 64 bits, with no letter, digit or underscore directly after it. No name occurs
//! twice among the columns of a table, in a key, or after `by` or `on`; aggregates may repeat. An
//! aggregate is an operand only after `having`, and the two lists of `exists` have the same length.
//!
//! The contract of [`CommandReader::next`] covers the items of a script: they come in order, in
//! whatever pieces the bytes come. A command is one that its line says, within the limits. A load
//! has its payload, or why it has none: [`Payload::Open`] if and only if no line ends it,
//! [`Payload::TooLong`] only if it exceeds the limit, [`Payload::NoMemory`] only if a line ends it.
//! [`LineRefusal::Syntax`] is returned only if the line isn't a command, and [`LineRefusal::Limit`]
//! only if it is one past a limit; [`LineRefusal::LineTooLong`] depends only on the line's length,
//! which is checked first. The laws in [`laws`] add that no line says two commands, that each item
//! is read in only one way, and that each token is the longest that the text spells.
#![tactic(auto)]

mod command;
pub mod laws;
mod lines;
mod parsing;
mod reader;

pub use command::{By, Command, Exists, Payload};
pub use gq_clause::{Aggregate, Comparison, Operand, Test};
pub use gq_script::{OpenLine, ReadFault};
pub use lines::{LineRefusal, parse_line};
pub use reader::{CommandReader, Item};
