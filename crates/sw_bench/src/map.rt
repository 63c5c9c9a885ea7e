//! What is measured of a map.
use crate::keys::Key;
use std::alloc::{AllocError, Global};

/// A map from keys to numbers, with the calls that are measured.
pub(crate) trait Map: Sized + Drop {
    type Key: Key;

    fn new(alloc: Global) -> Self;

    fn with_room(alloc: Global, n: usize) -> Result<Self, AllocError>;

    fn len(&self) -> usize;

    fn insert(&mut self, key: Self::Key, value: u64) -> Result<(), AllocError>;

    fn get(&self, key: &Self::Key) -> Option<u64>;

    /// Adds one to the value of a key, which is copied only if it is new.
    fn count(&mut self, alloc: Global, key: &Self::Key) -> Result<(), AllocError>;

    fn remove(&mut self, key: &Self::Key) -> Option<u64>;

    /// The sum of the numbers of all keys and of all values, modulo 2^64.
    fn sum(&self) -> u64;

    fn clear(&mut self);
}
