//! Equality of maps and sets.
ghost use Rattle.std.specs.Cmp.{on_per};
ghost use Rattle.sw_table.specs.Entries.{entries};
ghost use Rattle.sw_flat.specs.Equality.{same_entries, same_entries_laws, same_keys, same_keys_laws};

use crate::map::FlatMap;
use crate::set::FlatSet;
use sw_probe::{KeyHash, Keyed};

/// Two maps are equal if each key of one is in the other, with an equal value. Which key of a class is stored,
/// the slots and the hashers don't matter.
impl<K: Keyed, V: PartialEq, H: KeyHash<K>> PartialEq for FlatMap<K, V, H> {
    ghost eq = { λ m n. same_entries V.eq (entries K.class m) (entries K.class n) };

    ghost laws = { on_per (entries K.class) (same_entries_laws V.eq V.laws) };

    fn eq(&self, other: &FlatMap<K, V, H>) -> bool {
        let _ = (self.table.capacity(), other.table.capacity());
        if self.len() != other.len() {
            return false;
        }
        let mut rest = self.iter();
        'entries: while let Some((key, value)) = rest.next() {
            let Some(theirs) = other.get(key) else {
                return false;
            };
            if value != theirs {
                return false;
            }
        }
        true
    }
}

/// Two sets are equal if each key of one is in the other.
impl<K: Keyed, H: KeyHash<K>> PartialEq for FlatSet<K, H> {
    ghost eq = { λ s t. same_keys (entries K.class s) (entries K.class t) };

    ghost laws = { on_per (entries K.class) same_keys_laws };

    fn eq(&self, other: &FlatSet<K, H>) -> bool {
        self.map == other.map
    }
}
