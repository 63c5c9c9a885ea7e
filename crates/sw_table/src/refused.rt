//! Errors of insertions and of `reserve`.
use thiserror::Error;

/// The reason of an error.
#[derive(Clone, Copy, PartialEq, Eq, Debug, Error)]
pub enum Why {
    /// An allocation failed.
    #[error("out of memory")]
    Memory,
    /// The capacity would pass 2^28.
    #[error("the table would pass its greatest capacity")]
    Limit,
}

/// The error of an insertion: the pair that was not inserted, and the reason.
#[derive(Debug, Drop, Error)]
#[error("the entry was not placed: {why}")]
pub struct Refused<K, V> {
    pub key: K,
    pub value: V,
    pub why: Why,
}
