//! Splits a script into lines and payloads, in whatever pieces a reader returns its bytes.
//!
//! A script is split into lines at LF; one CR before the LF belongs to the line's end. Lines of
//! spaces and tabs are skipped, and so are comments: lines that begin with `--`, after any spaces
//! and tabs. Each other line is an item. If its first word is `load`, in any case, the following
//! lines up to the first that is exactly `\.` are its payload; without such a line the payload is
//! open, and takes the rest of the script. A byte-order mark at the start of a script belongs to no
//! line, but counts as bytes.
//!
//! The contracts: [`take_line`] takes the first line of the remaining bytes of a [`Source`], and
//! [`take_payload`] the payload at their start. Each says which bytes were taken, and what was kept
//! of them. Bytes past a limit, and bytes that aren't needed, are skipped without memory.
#![tactic(auto)]

mod first_word;
mod gather;
mod payload;
mod source;

pub use first_word::FirstWord;
pub use gather::{OpenLine, Opening, take_line};
pub use payload::{Kept, take_payload, take_payload_line};
pub use source::{ReadFault, Source};
