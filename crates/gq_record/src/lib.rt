//! Records of rows: the bytes that are written to runs, and read back.
//!
//! ```text
//! let mut bytes = Vec::new(alloc);
//! encode_row(&row, &mut bytes)?;               // null, -1, `Oslo`: 23 bytes
//! decode_row(alloc, bytes.as_slice())?;        // the row, and 23
//! decode_row(alloc, &bytes[..22])?;            // None: no record is whole
//! ```
//!
//! # The contract above this crate
//!
//! [`encode_row`] appends the record of a row, as `specs/Records.antt` defines it, or on error leaves the bytes
//! unchanged; [`encode_row_over`] writes it over the first bytes. [`decode_row`] returns a row only if the bytes
//! begin with its record, and `None` only if they begin with no row's; so does [`decode_row_over`], which
//! overwrites a row. A row has a record if its body takes fewer than 2^32 bytes, as [`is_storable`] says. A text
//! without case has its own tag, and is written as it is spelled, not as its fold. By a law no record begins
//! with another, and none is of two rows.
#![tactic(auto)]

mod decoding;
mod encoding;
mod kinds;
pub mod laws;

pub use decoding::{decode_row, decode_row_over, take_length};
pub use encoding::{encode_row, encode_row_over, is_storable};
