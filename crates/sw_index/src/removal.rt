//! Removals.
ghost use Rattle.std.specs.Prelude.{◌≡◌, ◌<◌, ◌-◌, Some, length, take, swap_remove};
ghost use Rattle.std.specs.List.{slice_get};

use crate::index::Index;
use crate::numbered::{Numbered, forget, renumber};
use sw_probe::{KeyHash, Keyed};

impl<K: Keyed, H: KeyHash<K>> Index<K, H> {
    /// Removes and returns the last key. It doesn't allocate.
    pub fn pop(&mut self) -> Option<K>
        ensures key { result ≡ slice_get self.old.keys (length self.old.keys - 1) }
        ensures keys { self.new.keys ≡ take (length self.old.keys - 1) self.old.keys }
        ensures hasher { self.new.hasher ≡ self.old.hasher }
    {
        let key = self.keys.pop()?;
        let hash = self.hasher.hash(&key);
        let number = self.keys.len();
        forget(&mut self.numbers, Numbered { hash, number });
        Some(key)
    }

    /// Removes and returns the key with a number, which the last key then gets. It doesn't allocate.
    pub fn swap_remove(&mut self, number: usize) -> K
        requires { number < length self.old.keys }
        ensures key { slice_get self.old.keys number ≡ Some result }
        ensures keys { self.new.keys ≡ swap_remove self.old.keys number result }
        ensures hasher { self.new.hasher ≡ self.old.hasher }
    {
        let key = self.keys.swap_remove(number);
        let hash = self.hasher.hash(&key);
        forget(&mut self.numbers, Numbered { hash, number });
        if let Some(moved) = self.keys.get(number) {
            let hash = self.hasher.hash(moved);
            let last = Numbered {
                hash,
                number: self.keys.len(),
            };
            renumber(&mut self.numbers, last, Numbered { hash, number });
        }
        key
    }

    /// Keeps the first `keys` keys. It doesn't allocate.
    pub fn truncate(&mut self, keys: usize)
    where
        K: Drop,
        ensures keys { self.new.keys ≡ take keys self.old.keys }
        ensures hasher { self.new.hasher ≡ self.old.hasher }
    {
        while keys < self.len() {
            let _ = self.pop();
        }
    }
}
