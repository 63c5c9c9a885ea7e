//! The text of a query's result in other formats than a reply, and the text on a refused command.
//!
//! [`result_text`] returns a header and rows as CSV records, as a JSON object for each row, or in a
//! box for people. [`refusal_text`] is what standard error says of a refusal: its line, its reply,
//! and a line in plain words.
//!
//! # The contract above this crate
//!
//! Each text is the one that `specs/` defines, or an allocation failed; `specs/Formats.antt` names
//! the three formats. The laws in [`laws`] say that CSV and JSON read back as the cells, that
//! columns have distinct names in JSON, and that all lines of a box have the same width in a
//! terminal.
#![tactic(auto)]

mod boxes;
mod column;
mod format;
pub mod laws;
mod names;
mod objects;
mod refusal;
mod shown;

pub use format::{Format, result_text, separator};
pub use refusal::{RefusalText, diagnosis_text, refusal_text};
