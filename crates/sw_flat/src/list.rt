//! A map's entries, and a set's keys, as a list.
ghost use Rattle.std.specs.Prelude.{◌≡◌, IfOk, IfErr, map};
ghost use Rattle.sw_table.specs.Entries.{entries};
ghost use Rattle.sw_flat.specs.Maps.{ListsAll};

use crate::map::FlatMap;
use crate::set::FlatSet;
use sw_probe::{KeyHash, Keyed};
use sw_table::Walk;

impl<K: Keyed + Drop, V: Drop, H: KeyHash<K> + Drop> FlatMap<K, V, H> {
    /// The entries as a list, each once, in unspecified order. If the list can't be allocated, the map is
    /// returned.
    pub fn into_list(self) -> Result<Vec<(K, V)>, FlatMap<K, V, H>>
        ensures list { IfOk result (λ list. ListsAll K.class list.items (entries K.class self)) }
        ensures handed_back { IfErr result (λ map. map ≡ self) }
    {
        let FlatMap { mut table } = self;
        let Ok(mut list) = Vec::with_capacity(table.allocator(), table.len()) else {
            return Err(FlatMap { table });
        };
        let _ = table.capacity();
        let mut walk = Walk::new();
        'entries: while let Some(entry) = table.drain_next(&mut walk) {
            let Ok(()) = list.push(entry) else {
                unreachable!();
            };
        }
        Ok(list)
    }
}

impl<K: Keyed + Drop, H: KeyHash<K> + Drop> FlatSet<K, H> {
    /// The keys as a list, each once, in unspecified order. If the list can't be allocated, the set is
    /// returned.
    pub fn into_list(self) -> Result<Vec<K>, FlatSet<K, H>>
        ensures list { IfOk result (λ list.
            ListsAll K.class (map (λ k. (k, tt)) list.items) (entries K.class self)) }
        ensures handed_back { IfErr result (λ set. set ≡ self) }
    {
        let FlatSet { map } = self;
        let FlatMap { mut table } = map;
        let Ok(mut list) = Vec::with_capacity(table.allocator(), table.len()) else {
            return Err(FlatSet {
                map: FlatMap { table },
            });
        };
        let _ = table.capacity();
        let mut walk = Walk::new();
        'entries: while let Some(entry) = table.drain_next(&mut walk) {
            let Ok(()) = list.push(entry.0) else {
                unreachable!();
            };
        }
        Ok(list)
    }
}
