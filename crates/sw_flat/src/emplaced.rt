//! Results of insertions.
use sw_table::Why;
use thiserror::Error;

/// The result of an insertion that keeps a stored key.
#[derive(Drop)]
pub enum Emplaced<K, V> {
    /// The key was new, and the pair was inserted.
    Inserted,
    /// The key is there already, so the pair is returned.
    Present(K, V),
}

/// The error of an insertion into a set: the key that was not inserted, and the reason.
#[derive(Debug, Drop, Error)]
#[error("the key was not added: {why}")]
pub struct RefusedKey<K> {
    pub key: K,
    pub why: Why,
}
