//! Replies to commands: their results, the refusals with their numbers and names, and the bytes of
//! each reply.
//!
//! [`Reply`] is the result of a command, [`Refusal`] is why it was refused, and [`reply_text`]
//! returns the bytes that are written: a line `ok` or `err`, and after `ok` the rows of a query as
//! CSV records under their header. Replies of one line are made without allocation ([`line_of`]),
//! and [`send_records`] writes such records without one.
//!
//! # The contract above this crate
//!
//! [`reply_text`] returns the text of the reply as `specs/Replies.antt` defines it, or an
//! allocation failed: `ok` and the number of rows, then the records of the CSV writer, null as
//! `\N`; or `err`, the number and the name of the refusal, and the number of a payload's record if
//! there is one. What [`send_records`] leaves a writer is all records, or after a fault a prefix.
#![tactic(auto)]

mod bare;
mod buffer;
mod digits;
mod plain;
mod records;
mod refusal;
mod reply;
mod reply_line;
mod sending;
mod text;

pub use buffer::Buffer;
pub use records::send_records;
pub use refusal::{Refusal, Refused};
pub use reply::Reply;
pub use reply_line::{ReplyLine, accepted_line, line_of};
pub use sending::{WriteFault, send};
pub use text::{records_text, reply_text, rows_text};
