//! Hashes of keys, and the probe sequence: the order in which a look-up visits the groups of a table.
//!
//! A hash has 64 bits. The seven lowest, [`h2`], are in the control byte of a slot; the others, [`h1`], the
//! hash shifted right by seven, select the first group. A table has a power of two of groups, at most 2^24.
//! From its first group on a look-up goes 1, then 2, then 3 groups further, and so on, and wraps around:
//!
//! ```text
//! the i-th group is (start + i * (i + 1) / 2) mod groups
//! ```
//!
//! As the number of groups is a power of two, this visits each group exactly once.
//!
//! - [`Probe`] is such a sequence. [`comes_once`] and [`comes_everywhere`] are its laws.
//! - [`Keyed`] is a type of keys. Each key belongs to a class, and two keys are the same if their classes are.
//!   [`Names`] is a value that names a class: a key itself, or a borrowed form of it, so that a look-up needs
//!   no owned key.
//! - [`KeyHash`] hashes a class, by its bytes or by its words of eight. By the contracts of these traits a hash
//!   depends only on the hasher's value and the class, so whatever names the same class has the same hash, for
//!   every hasher: [`hash_both`] is the law.
//! - Keys here are `u64` and `Vec<u8>`, whose borrowed form is [`ByteKey`]. The hashers are [`Fnv1a`],
//!   [`WordHash`], [`Constant`], [`LowBits`] and [`Direct`]. [`same_bytes`] compares keys of bytes.
//!
//! The contract above the crate: each group is visited once, and equal keys have equal hashes.
#![tactic(auto)]

mod byte_strings;
mod hash_parts;
mod hashers;
mod keyed;
mod keys;
mod laws;
mod probe;
mod words;

pub use byte_strings::same_bytes;
pub use hash_parts::{h1, h2};
pub use hashers::{Constant, Direct, FNV_START, Fnv1a, FnvStep, LowBits, WordHash};
pub use keyed::{KeyHash, Keyed, Names, Step, WordStep};
pub use keys::ByteKey;
pub use laws::{comes_everywhere, comes_once, direct_is_the_key, group_counts, hash_both};
pub use probe::Probe;
pub use words::{AsItIs, ByteMap, fold_byte_words};
