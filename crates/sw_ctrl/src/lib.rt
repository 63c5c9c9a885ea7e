//! Control bytes: one byte for each slot of a hash table, compared sixteen at a time.
//!
//! The bytes of a table are in one array, apart from its slots, so that a look-up reads sixteen of them before
//! it reads any key:
//!
//! ```text
//! group 0             group 1             ..
//! byte 0 .. byte 15   byte 16 .. byte 31  ..
//! ```
//!
//! | Byte | The slot |
//! |---|---|
//! | `1000_0000` | is empty, and no look-up goes past its group ([`EMPTY`]) |
//! | `1111_1110` | is deleted: free, but look-ups go on past it ([`DELETED`]) |
//! | `0hhh_hhhh` | is full, and `hhh_hhhh` are the seven low bits of its key's hash ([`is_full`]) |
//!
//! The top bit alone says whether a slot is full, so a comparison with seven bits of a hash never matches a
//! free slot.
//!
//! - [`Ctrl`] is the array: contracts see the list of its bytes. Its length is a multiple of sixteen, and each
//!   byte is one of the three above.
//! - [`Group`] is sixteen bytes, [`WIDTH`], in a register: contracts see the list of these bytes.
//! - [`Mask16`] is the result of a comparison: contracts see a list of sixteen truth values, in the order of
//!   the bytes.
//!
//! The contract above the crate: a mask is set exactly where a byte matches.
#![tactic(auto)]

mod control;
mod ctrl;
mod group;
mod mask16;

pub use control::{DELETED, EMPTY, is_full};
pub use ctrl::Ctrl;
pub use group::{Group, WIDTH};
pub use mask16::Mask16;
