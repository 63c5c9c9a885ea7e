//! Iteration over the entries of a table.
ghost use Rattle.std.specs.Prelude.{◌≡◌, Some, length, IfSome};
ghost use Rattle.std.specs.Iterator.{YieldsFirstBy, item_count, at_most, UpTo};
ghost use Rattle.std.specs.Iterator.SizeHint.{IsWithinCount};
ghost use Rattle.sw_table.specs.Walks.{filled};

use crate::table::Table;
use crate::walk::Walk;
use std::iter::{ExactSizeIterator, FusedIterator};
use std::marker::Model;
use sw_probe::{KeyHash, Keyed};

/// The remaining entries of a table in slot order, seen as their list.
#[derive(Drop)]
pub struct Iter<'a, K: Keyed, V, H: KeyHash<K>> {
    table: &'a Table<K, V, H>,
    walk: Walk,
    // The number of remaining entries.
    left: usize,
}

impl<'a, K: Keyed, V, H: KeyHash<K>> Model for Iter<'a, K, V, H> {
    ghost use Rattle.std.specs.Prelude.{◌≡◌, List, length, drop};
    ghost use Rattle.sw_table.specs.Walks.{IsWalking, filled};

    ghost Value = { List (K × V) };

    ghost view = { λ it. filled (drop it.walk.from it.table.now.places) };

    ghost invariant = { λ it. IsWalking it.table.now.bytes it.walk ×
        (it.left ≡ length (filled (drop it.walk.from it.table.now.places))) };
}

impl<K: Keyed, V, H: KeyHash<K>> Table<K, V, H> {
    /// The entries, each once, in slot order.
    #[inline]
    pub fn iter(&self) -> Iter<'_, K, V, H>
        ensures { result ≡ filled self.now.places }
    {
        Iter {
            table: self,
            walk: Walk::new(),
            left: self.len,
        }
    }
}

impl<'a, K: Keyed, V, H: KeyHash<K>> Iterator for Iter<'a, K, V, H> {
    type Item = (&'a K, &'a V);

    ghost next_gives = { YieldsFirstBy (λ item. (item.0.now, item.1.now)) (λ rest. rest) };

    ghost remaining = { item_count (λ rest. rest) };

    #[inline]
    fn next(&mut self) -> Option<(&'a K, &'a V)> {
        let slot = self.table.advance(&mut self.walk)?;
        self.left -= 1;
        Some(self.table.at(slot))
    }

    #[inline]
    fn size_hint(&self) -> (usize, Option<usize>)
        ensures lower { IsWithinCount result.0 (at_most (length self.now)) }
        ensures upper { IfSome result.1 (UpTo (at_most (length self.now))) }
        ensures exact { result ≡ (length self.now, Some (length self.now)) }
    {
        (self.left, Some(self.left))
    }
}

impl<'a, K: Keyed, V, H: KeyHash<K>> ExactSizeIterator for Iter<'a, K, V, H> {
    #[inline]
    fn len(&self) -> usize {
        self.left
    }
}

impl<'a, K: Keyed, V, H: KeyHash<K>> FusedIterator for Iter<'a, K, V, H> {}
