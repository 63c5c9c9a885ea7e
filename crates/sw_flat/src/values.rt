//! Iteration over the values of a map.
ghost use Rattle.std.specs.Prelude.{◌≡◌, Some, length, map, IfSome};
ghost use Rattle.std.specs.Iterator.{YieldsFirstRef, item_count, at_most, UpTo};
ghost use Rattle.std.specs.Iterator.SizeHint.{IsWithinCount};

use std::iter::{ExactSizeIterator, FusedIterator};
use std::marker::Model;
use sw_probe::{KeyHash, Keyed};
use sw_table::Iter;

/// The remaining values in slot order, seen as their list.
#[derive(Drop)]
pub struct Values<'a, K: Keyed, V, H: KeyHash<K>> {
    entries: Iter<'a, K, V, H>,
}

impl<'a, K: Keyed, V, H: KeyHash<K>> Model for Values<'a, K, V, H> {
    ghost use Rattle.std.specs.Prelude.{List, map};

    ghost Value = { List V };

    ghost view = { λ it. map (λ p. p.1) it.entries };
}

impl<'a, K: Keyed, V, H: KeyHash<K>> Values<'a, K, V, H> {
    /// The values of these entries.
    #[inline]
    pub(crate) fn new(entries: Iter<'a, K, V, H>) -> Values<'a, K, V, H>
        ensures { result ≡ map (λ p. p.1) entries.entry }
    {
        Values { entries }
    }
}

impl<'a, K: Keyed, V, H: KeyHash<K>> Iterator for Values<'a, K, V, H> {
    type Item = &'a V;

    ghost next_gives = { YieldsFirstRef (λ rest. rest) };

    ghost remaining = { item_count (λ rest. rest) };

    #[inline]
    fn next(&mut self) -> Option<&'a V> {
        let (_, value) = self.entries.next()?;
        Some(value)
    }

    #[inline]
    fn size_hint(&self) -> (usize, Option<usize>)
        ensures lower { IsWithinCount result.0 (at_most (length self.now)) }
        ensures upper { IfSome result.1 (UpTo (at_most (length self.now))) }
        ensures exact { result ≡ (length self.now, Some (length self.now)) }
    {
        let left = self.entries.len();
        (left, Some(left))
    }
}

impl<'a, K: Keyed, V, H: KeyHash<K>> ExactSizeIterator for Values<'a, K, V, H> {
    #[inline]
    fn len(&self) -> usize {
        self.entries.len()
    }
}

impl<'a, K: Keyed, V, H: KeyHash<K>> FusedIterator for Values<'a, K, V, H> {}
