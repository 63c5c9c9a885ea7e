//! Draining maps and sets.
ghost use Rattle.std.specs.Prelude.{◌≡◌, [], ◌∷◌, IfSome, IfNone};
ghost use Rattle.std.specs.FinMap.{remove};
ghost use Rattle.sw_table.specs.View.{slot_count, fresh};
ghost use Rattle.sw_table.specs.Entries.{entries};
ghost use Rattle.sw_table.specs.Walks.{IsDraining, filled};

use crate::map::FlatMap;
use crate::set::FlatSet;
use sw_probe::{KeyHash, Keyed};
use sw_table::Walk;

impl<K: Keyed, V, H: KeyHash<K>> FlatMap<K, V, H> {
    /// A walk before the first entry.
    #[inline]
    pub fn walk(&self) -> Walk
        ensures { IsDraining self.now result }
    {
        Walk::new()
    }

    /// Removes and returns the next entry of a walk that has removed all before it. From [`FlatMap::walk`] on
    /// it returns each entry once, in slot order, without allocating; then all slots are empty.
    #[inline]
    pub fn drain_next(&mut self, walk: &mut Walk) -> Option<(K, V)>
        requires { IsDraining self.old walk.old }
        ensures entry { IfSome result (λ p. filled self.old.places ≡ p ∷ filled self.new.places) }
        ensures entries { IfSome result (λ p. entries K.class self.new ≡
            remove (entries K.class self.old) (K.class p.0)) }
        ensures end { IfNone result ((filled self.old.places ≡ []) ×
            (self.new ≡ fresh (slot_count self.old) self.old.hasher)) }
        ensures slots { slot_count self.new ≡ slot_count self.old }
        ensures hasher { self.new.hasher ≡ self.old.hasher }
        ensures draining { IsDraining self.new walk.new }
    {
        self.table.drain_next(walk)
    }
}

impl<K: Keyed, H: KeyHash<K>> FlatSet<K, H> {
    /// A walk before the first key.
    #[inline]
    pub fn walk(&self) -> Walk
        ensures { IsDraining self.now result }
    {
        self.map.walk()
    }

    /// Removes and returns the next key of a walk that has removed all before it. From [`FlatSet::walk`] on it
    /// returns each key once, in slot order, without allocating; then all slots are empty.
    #[inline]
    pub fn drain_next(&mut self, walk: &mut Walk) -> Option<K>
        requires { IsDraining self.old walk.old }
        ensures key { IfSome result (λ k. filled self.old.places ≡
            (k, tt) ∷ filled self.new.places) }
        ensures entries { IfSome result (λ k. entries K.class self.new ≡
            remove (entries K.class self.old) (K.class k)) }
        ensures end { IfNone result ((filled self.old.places ≡ []) ×
            (self.new ≡ fresh (slot_count self.old) self.old.hasher)) }
        ensures slots { slot_count self.new ≡ slot_count self.old }
        ensures hasher { self.new.hasher ≡ self.old.hasher }
        ensures draining { IsDraining self.new walk.new }
    {
        match self.map.drain_next(walk) {
            Some((key, ())) => Some(key),
            None => None,
        }
    }
}
