//! Iteration over maps and sets.
ghost use Rattle.std.specs.Prelude.{◌≡◌, map};
ghost use Rattle.sw_table.specs.Entries.{entries};
ghost use Rattle.sw_table.specs.Walks.{filled};
ghost use Rattle.sw_flat.specs.Maps.{ListsAll};

use crate::keys::Keys;
use crate::map::FlatMap;
use crate::set::FlatSet;
use crate::values::Values;
use std::iter::IntoIterator;
use sw_probe::{KeyHash, Keyed};
use sw_table::Iter;

impl<K: Keyed, V, H: KeyHash<K>> FlatMap<K, V, H> {
    /// The entries, each once, in slot order.
    #[inline]
    pub fn iter(&self) -> Iter<'_, K, V, H>
        ensures all { ListsAll K.class result (entries K.class self.now) }
        ensures slots { result ≡ filled self.now.places }
    {
        let _ = self.table.capacity();
        self.table.iter()
    }

    /// The stored keys in slot order.
    #[inline]
    pub fn keys(&self) -> Keys<'_, K, V, H>
        ensures all { ListsAll K.class (filled self.now.places) (entries K.class self.now) }
        ensures keys { result ≡ map (λ p. p.0) (filled self.now.places) }
    {
        Keys::new(self.iter())
    }

    /// The values in slot order.
    #[inline]
    pub fn values(&self) -> Values<'_, K, V, H>
        ensures all { ListsAll K.class (filled self.now.places) (entries K.class self.now) }
        ensures values { result ≡ map (λ p. p.1) (filled self.now.places) }
    {
        Values::new(self.iter())
    }
}

impl<'a, K: Keyed, V, H: KeyHash<K>> IntoIterator for &'a FlatMap<K, V, H> {
    type Item = (&'a K, &'a V);

    type IntoIter = Iter<'a, K, V, H>;

    ghost into_iter_gives = { λ map it. ListsAll K.class it (entries K.class map.now) ×
        (it ≡ filled map.now.places) };

    #[inline]
    fn into_iter(self) -> Iter<'a, K, V, H> {
        self.iter()
    }
}

impl<K: Keyed, H: KeyHash<K>> FlatSet<K, H> {
    /// The keys, each once, in slot order.
    #[inline]
    pub fn iter(&self) -> Keys<'_, K, (), H>
        ensures all { ListsAll K.class (map (λ k. (k, tt)) result) (entries K.class self.now) }
        ensures slots { map (λ k. (k, tt)) result ≡ filled self.now.places }
    {
        self.map.keys()
    }
}

impl<'a, K: Keyed, H: KeyHash<K>> IntoIterator for &'a FlatSet<K, H> {
    type Item = &'a K;

    type IntoIter = Keys<'a, K, (), H>;

    ghost into_iter_gives = { λ set it.
        ListsAll K.class (map (λ k. (k, tt)) it) (entries K.class set.now) };

    #[inline]
    fn into_iter(self) -> Keys<'a, K, (), H> {
        self.iter()
    }
}
