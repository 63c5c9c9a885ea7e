//! The flat map.
ghost use Rattle.std.specs.Prelude.{◌≡◌, ◌↔◌, ℕ, ◌<◌, ◌≤◌, ◌^◌, IsTrue, IsOk, OnOk, OnErr, IfOk, Err};
ghost use Rattle.std.specs.Option.{option_copied, option_copied_mut};
ghost use Rattle.std.specs.FinMap.{empty, len, contains_key};
ghost use Rattle.sw_table.specs.View.{slot_count, fresh, NoneDeleted};
ghost use Rattle.sw_table.specs.Entries.{entries};
ghost use Rattle.sw_table.specs.Sizes.{room_of, IsCapacity};
ghost use Rattle.sw_table.specs.Room.{IsMadeFor, GrowsFor, RefusesPast, RefusesRoom};
ghost use Rattle.sw_flat.specs.Maps.{value_at};

use std::alloc::Global;
use std::marker::Model;
use sw_probe::{KeyHash, Keyed, Names};
use sw_table::{Table, Why};

/// A map from keys to values, in one Swiss table. Contracts see of it what they see of the table: what each
/// slot holds, the control bytes and the hasher. `entries` of these is the finite map.
#[derive(Drop)]
pub struct FlatMap<K: Keyed, V, H: KeyHash<K>> {
    pub(crate) table: Table<K, V, H>,
}

impl<K: Keyed, V, H: KeyHash<K>> Model for FlatMap<K, V, H> {
    ghost use Rattle.sw_table.specs.View.{View, view_code};

    ghost Value = { View K V H };

    ghost coded = { view_code K.code V.code H.code };

    ghost view = { λ m. m.table };
}

impl<K: Keyed, V, H: KeyHash<K>> FlatMap<K, V, H> {
    ghost use Rattle.std.specs.Borrow.{sem};
    ghost use Rattle.sw_flat.specs.MapLends.{lends_value};

    /// An empty map without slots. It takes no memory.
    pub fn new(alloc: Global, hasher: H) -> FlatMap<K, V, H>
        ensures table { result ≡ fresh 0 hasher }
        ensures entries { entries K.class result ≡ empty }
    {
        FlatMap {
            table: Table::new(alloc, hasher),
        }
    }

    /// An empty map with room for `n` entries, in the smallest capacity that has it. Without entries it takes
    /// no memory. Errors: `Limit` if the capacity would pass 2^28, else `Memory`.
    pub fn with_room(alloc: Global, hasher: H, n: usize) -> Result<FlatMap<K, V, H>, Why>
    where
        H: Drop,
        ensures made { IfOk result (IsMadeFor K.class hasher n) }
        ensures no_memory { n ≡ 0 → IsOk result }
        ensures limit { RefusesPast n result }
    {
        Ok(FlatMap {
            table: Table::with_room(alloc, hasher, n)?,
        })
    }

    /// The number of entries.
    #[inline]
    pub fn len(&self) -> usize
        ensures { result ≡ len (entries K.class self.now) }
    {
        self.table.len()
    }

    /// Whether there are no entries.
    #[inline]
    pub fn is_empty(&self) -> bool
        ensures { IsTrue result ↔ (entries K.class self.now ≡ empty) }
    {
        self.table.len() == 0
    }

    /// The number of slots.
    #[inline]
    pub fn capacity(&self) -> usize
        ensures { result ≡ slot_count self.now }
    {
        self.table.capacity()
    }

    /// How many entries there may be before an insertion may allocate, however many were erased.
    #[inline]
    pub fn room(&self) -> usize
        ensures { result ≡ room_of (slot_count self.now) }
    {
        self.table.room()
    }

    /// A reference to the table.
    #[inline]
    pub fn table(&self) -> &Table<K, V, H>
        ensures { result.now ≡ self.now }
    {
        &self.table
    }

    /// Makes room for `n` entries in total, in the smallest capacity that has it; does nothing if the room is
    /// there. On error the map doesn't change: `Limit` if the capacity would pass 2^28, else `Memory`.
    pub fn reserve(&mut self, n: usize) -> Result<(), Why>
        ensures entries { entries K.class self.new ≡ entries K.class self.old }
        ensures room { OnOk result (n ≤ room_of (slot_count self.new)) }
        ensures grows { GrowsFor n self.old self.new }
        ensures hasher { self.new.hasher ≡ self.old.hasher }
        ensures refused { RefusesRoom n result self.old self.new }
    {
        self.table.reserve(n)
    }

    /// Rehashes all entries in place, so that no slot is marked as deleted. It doesn't allocate.
    pub fn rehash(&mut self)
        ensures entries { entries K.class self.new ≡ entries K.class self.old }
        ensures slots { slot_count self.new ≡ slot_count self.old }
        ensures none_deleted { NoneDeleted self.new }
        ensures hasher { self.new.hasher ≡ self.old.hasher }
    {
        self.table.rehash();
    }

    /// Drops all entries, and keeps the capacity.
    pub fn clear(&mut self)
    where
        K: Drop,
        V: Drop,
        ensures table { self.new ≡ fresh (slot_count self.old) self.old.hasher }
        ensures entries { entries K.class self.new ≡ empty }
    {
        self.table.clear();
    }

    /// A reference to the value of the key that `q` names.
    #[inline]
    pub fn get<Q: Names<K>>(&self, q: &Q) -> Option<&V>
        ensures { option_copied result ≡ value_at (entries K.class self.now) (Q.named q.now) }
    {
        let slot = self.table.find(q)?;
        Some(self.table.at(slot).1)
    }

    /// A mutable reference to the value of the key that `q` names. The stored key stays.
    #[inline]
    pub fn get_mut<Q: Names<K>>(&mut self, q: &Q) -> Option<&mut V>
        ensures* writes_back { sem 𝓛
            (lends_value K.row V.row H.row K.Keyed H.KeyHash self.entry (Q.named q.now) result) }
        ensures value { option_copied_mut result ≡
            value_at (entries K.class self.old) (Q.named q.now) }
    {
        let slot = self.table.find(q)?;
        Some(self.table.at_mut(slot))
    }

    /// Whether the key that `q` names is there.
    #[inline]
    pub fn contains<Q: Names<K>>(&self, q: &Q) -> bool
        ensures { result ≡ contains_key (entries K.class self.now) (Q.named q.now) }
    {
        self.table.find(q).is_some()
    }
}
