//! The records of a CSV text, read in place.
//!
//! What the records of a text are is defined by the `csv` crate, with its default settings: fields are
//! separated by commas and may be quoted, a line ends by CR, LF or both, and blank lines are dropped.
//! So is a UTF-8 byte-order mark at the start.
//!
//! A [`RecordReader`] finds the ends of fields sixty-four bytes at a time, and a record's fields are
//! borrowed from its buffer. Only a record with a quote, one that the buffer's end cuts, and a last one
//! without a line end are copied.
#![tactic(auto)]

mod copied;
mod find;
mod input;
mod lanes;
mod placed_mask;
mod read_error;
mod reader;
mod record;
mod scan;
mod span;
mod special_mask;
mod state;

pub use read_error::ReadError;
pub use reader::RecordReader;
pub use record::Record;
