//! Replacing the key of an entry.
ghost use Rattle.std.specs.Prelude.{◌≡◌, Some, None};
ghost use Rattle.std.specs.Option.{option_map};
ghost use Rattle.std.specs.FinMap.{get, insert, remove};
ghost use Rattle.sw_table.specs.View.{View, entry_at, with_key, IsFull};
ghost use Rattle.sw_table.specs.Entries.{entries};

use crate::table::{SlotNo, Table};
use std::mem;
use sw_probe::{KeyHash, Keyed};

impl<K: Keyed, V, H: KeyHash<K>> Table<K, V, H> {
    /// Replaces the key of a full slot by one with the same hash, and returns the old key. The value stays, and
    /// no entry moves.
    #[inline]
    pub fn rekey(&mut self, slot: SlotNo, key: K) -> K
        requires full { IsFull self.old slot.index }
        requires hash { (p : K × V) → entry_at self.old slot.index ≡ Some p →
            H.hash_of self.old.hasher (K.class key) ≡
            H.hash_of self.old.hasher (K.class p.0) }
        // No other entry has a key of its class.
        requires absent { (p : K × V) → entry_at self.old slot.index ≡ Some p →
            get (remove (entries K.class self.old) (K.class p.0)) (K.class key) ≡ None }
        ensures key { option_map (λ p. p.0) (entry_at self.old slot.index) ≡ Some result }
        ensures table { self.new ≡ with_key self.old slot.index key }
        ensures entries { (v : V) → entry_at self.old slot.index ≡ Some (result, v) →
            entries K.class self.new ≡
            insert (remove (entries K.class self.old) (K.class result)) (K.class key) (key, v) }
    {
        let pair = self.slots.get_mut(slot.index);
        mem::replace(&mut pair.0, key)
    }
}
