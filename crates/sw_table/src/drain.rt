//! Draining a table.
ghost use Rattle.std.specs.Prelude.{◌≡◌, [], ◌∷◌, IfSome, IfNone};
ghost use Rattle.std.specs.FinMap.{remove};
ghost use Rattle.sw_table.specs.View.{View, slot_count, fresh};
ghost use Rattle.sw_table.specs.Entries.{entries};
ghost use Rattle.sw_table.specs.Walks.{IsDraining, filled};

use crate::drops::blank;
use crate::table::Table;
use crate::walk::Walk;
use sw_probe::{KeyHash, Keyed};

impl<K: Keyed, V, H: KeyHash<K>> Table<K, V, H> {
    /// Removes and returns the next entry of a walk that has removed all entries before it. From [`Walk::new`]
    /// on it returns each entry once, in slot order, and never allocates; at the end all slots are empty.
    #[inline]
    pub fn drain_next(&mut self, walk: &mut Walk) -> Option<(K, V)>
        requires { IsDraining self.old walk.old }
        ensures entry { IfSome result (λ p. filled self.old.places ≡ p ∷ filled self.new.places) }
        ensures entries { IfSome result (λ p. entries K.class self.new ≡
            remove (entries K.class self.old) (K.class p.0)) }
        ensures end { IfNone result ((filled self.old.places ≡ []) ×
            (self.new ≡ fresh (slot_count self.old) self.old.hasher)) }
        ensures slots { slot_count self.new ≡ slot_count self.old }
        ensures hasher { self.new.hasher ≡ self.old.hasher }
        ensures draining { IsDraining self.new walk.new }
    {
        let Some(slot) = self.advance(walk) else {
            if self.used > 0 {
                blank(&mut self.ctrl);
                self.used = 0;
            }
            return None;
        };
        Some(self.remove(slot))
    }
}
