//! Iteration over the keys of a map.
ghost use Rattle.std.specs.Prelude.{◌≡◌, Some, length, map, IfSome};
ghost use Rattle.std.specs.Iterator.{YieldsFirstRef, item_count, at_most, UpTo};
ghost use Rattle.std.specs.Iterator.SizeHint.{IsWithinCount};

use std::iter::{ExactSizeIterator, FusedIterator};
use std::marker::Model;
use sw_probe::{KeyHash, Keyed};
use sw_table::Iter;

/// The remaining keys in slot order, seen as their list.
#[derive(Drop)]
pub struct Keys<'a, K: Keyed, V, H: KeyHash<K>> {
    entries: Iter<'a, K, V, H>,
}

impl<'a, K: Keyed, V, H: KeyHash<K>> Model for Keys<'a, K, V, H> {
    ghost use Rattle.std.specs.Prelude.{List, map};

    ghost Value = { List K };

    ghost view = { λ it. map (λ p. p.0) it.entries };
}

impl<'a, K: Keyed, V, H: KeyHash<K>> Keys<'a, K, V, H> {
    /// The keys of these entries.
    #[inline]
    pub(crate) fn new(entries: Iter<'a, K, V, H>) -> Keys<'a, K, V, H>
        ensures { result ≡ map (λ p. p.0) entries.entry }
    {
        Keys { entries }
    }
}

impl<'a, K: Keyed, V, H: KeyHash<K>> Iterator for Keys<'a, K, V, H> {
    type Item = &'a K;

    ghost next_gives = { YieldsFirstRef (λ rest. rest) };

    ghost remaining = { item_count (λ rest. rest) };

    #[inline]
    fn next(&mut self) -> Option<&'a K> {
        let (key, _) = self.entries.next()?;
        Some(key)
    }

    #[inline]
    fn size_hint(&self) -> (usize, Option<usize>)
        ensures lower { IsWithinCount result.0 (at_most (length self.now)) }
        ensures upper { IfSome result.1 (UpTo (at_most (length self.now))) }
        ensures exact { result ≡ (length self.now, Some (length self.now)) }
    {
        let left = self.entries.len();
        (left, Some(left))
    }
}

impl<'a, K: Keyed, V, H: KeyHash<K>> ExactSizeIterator for Keys<'a, K, V, H> {
    #[inline]
    fn len(&self) -> usize {
        self.entries.len()
    }
}

impl<'a, K: Keyed, V, H: KeyHash<K>> FusedIterator for Keys<'a, K, V, H> {}
