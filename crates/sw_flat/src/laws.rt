//! Laws: what the definitions imply. Each is the contract of a function that does nothing.
ghost use Rattle.std.specs.Prelude.{◌≡◌, ℕ, List, Some};
ghost use Rattle.std.specs.FinMap.{get};
ghost use Rattle.sw_table.specs.Entries.{entries};

use crate::map::FlatMap;
use sw_probe::{KeyHash, Keyed};

/// The entry of a class has a key of that class.
pub fn keys_are_of_their_class<K: Keyed, V, H: KeyHash<K>>(map: &FlatMap<K, V, H>)
    ensures { (c : List ℕ) (p : K × V) → get (entries K.class map.now) c ≡ Some p →
        c ≡ K.class p.0 }
{
    let _ = map;
}
