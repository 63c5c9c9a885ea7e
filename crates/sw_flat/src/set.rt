//! The flat set.
ghost use Rattle.std.specs.Prelude.{◌≡◌, ◌↔◌, ℕ, ◌<◌, ◌≤◌, ◌^◌, not, IsTrue, IsOk, OnOk, OnErr, IfOk, IfErr, Err, None};
ghost use Rattle.std.specs.Bool.{OnFalse};
ghost use Rattle.std.specs.Option.{option_map};
ghost use Rattle.std.specs.FinMap.{empty, get, insert, remove, len, contains_key};
ghost use Rattle.sw_table.specs.View.{slot_count, fresh, NoneDeleted};
ghost use Rattle.sw_table.specs.Entries.{entries};
ghost use Rattle.sw_table.specs.Sizes.{room_of, SameOrGrown, IsCapacity};
ghost use Rattle.sw_table.specs.Insertion.{HasSpace, InPlace, RefusesGrowth};
ghost use Rattle.sw_table.specs.Room.{IsMadeFor, GrowsFor, RefusesPast, RefusesRoom};
ghost use Rattle.sw_flat.specs.Maps.{added};
ghost use Rattle.sw_flat.specs.Vacancies.{IsOccupied, IsVacant, IsVacancy};

use crate::emplaced::{Emplaced, RefusedKey};
use crate::entry::{Entry, Vacancy};
use crate::map::FlatMap;
use std::alloc::Global;
use std::marker::Model;
use sw_probe::{KeyHash, Keyed, Names};
use sw_table::{Refused, Table, Why};

/// A set of keys, in one Swiss table. Contracts see it as the map of these keys to nothing.
#[derive(Drop)]
pub struct FlatSet<K: Keyed, H: KeyHash<K>> {
    pub(crate) map: FlatMap<K, (), H>,
}

impl<K: Keyed, H: KeyHash<K>> Model for FlatSet<K, H> {
    ghost use base.Stored.{coded_unit};
    ghost use Rattle.sw_table.specs.View.{View, view_code};

    ghost Value = { View K (Unit {0}) H };

    ghost coded = { view_code K.code coded_unit H.code };

    ghost view = { λ s. s.map };
}

impl<K: Keyed, H: KeyHash<K>> FlatSet<K, H> {
    /// An empty set without slots. It takes no memory.
    pub fn new(alloc: Global, hasher: H) -> FlatSet<K, H>
        ensures table { result ≡ fresh 0 hasher }
        ensures entries { entries K.class result ≡ empty }
    {
        FlatSet {
            map: FlatMap::new(alloc, hasher),
        }
    }

    /// An empty set with room for `n` keys, in the smallest capacity that has it. Without keys it takes no
    /// memory. Errors: `Limit` if the capacity would pass 2^28, else `Memory`.
    pub fn with_room(alloc: Global, hasher: H, n: usize) -> Result<FlatSet<K, H>, Why>
    where
        H: Drop,
        ensures made { IfOk result (IsMadeFor K.class hasher n) }
        ensures no_memory { n ≡ 0 → IsOk result }
        ensures limit { RefusesPast n result }
    {
        Ok(FlatSet {
            map: FlatMap::with_room(alloc, hasher, n)?,
        })
    }

    /// The number of keys.
    #[inline]
    pub fn len(&self) -> usize
        ensures { result ≡ len (entries K.class self.now) }
    {
        self.map.len()
    }

    /// Whether there are no keys.
    #[inline]
    pub fn is_empty(&self) -> bool
        ensures { IsTrue result ↔ (entries K.class self.now ≡ empty) }
    {
        self.map.is_empty()
    }

    /// The number of slots.
    #[inline]
    pub fn capacity(&self) -> usize
        ensures { result ≡ slot_count self.now }
    {
        self.map.capacity()
    }

    /// How many keys there may be before an insertion may allocate, however many were erased.
    #[inline]
    pub fn room(&self) -> usize
        ensures { result ≡ room_of (slot_count self.now) }
    {
        self.map.room()
    }

    /// A reference to the table.
    #[inline]
    pub fn table(&self) -> &Table<K, (), H>
        ensures { result.now ≡ self.now }
    {
        self.map.table()
    }

    /// Makes room for `n` keys in total, in the smallest capacity that has it; does nothing if the room is
    /// there. On error the set doesn't change: `Limit` if the capacity would pass 2^28, else `Memory`.
    pub fn reserve(&mut self, n: usize) -> Result<(), Why>
        ensures entries { entries K.class self.new ≡ entries K.class self.old }
        ensures room { OnOk result (n ≤ room_of (slot_count self.new)) }
        ensures grows { GrowsFor n self.old self.new }
        ensures hasher { self.new.hasher ≡ self.old.hasher }
        ensures refused { RefusesRoom n result self.old self.new }
    {
        self.map.reserve(n)
    }

    /// Rehashes all keys in place, so that no slot is marked as deleted. It doesn't allocate.
    pub fn rehash(&mut self)
        ensures entries { entries K.class self.new ≡ entries K.class self.old }
        ensures slots { slot_count self.new ≡ slot_count self.old }
        ensures none_deleted { NoneDeleted self.new }
        ensures hasher { self.new.hasher ≡ self.old.hasher }
    {
        self.map.rehash();
    }

    /// Drops all keys, and keeps the capacity.
    pub fn clear(&mut self)
    where
        K: Drop,
        ensures table { self.new ≡ fresh (slot_count self.old) self.old.hasher }
        ensures entries { entries K.class self.new ≡ empty }
    {
        self.map.clear();
    }

    /// Whether the key that `q` names is there.
    #[inline]
    pub fn contains<Q: Names<K>>(&self, q: &Q) -> bool
        ensures { result ≡ contains_key (entries K.class self.now) (Q.named q.now) }
    {
        self.map.contains(q)
    }

    /// Adds a key, or returns `false` if it is there already: the stored key stays, and nothing is allocated.
    /// On error (`Limit` at 2^28 slots, else `Memory`) the key is returned and the set doesn't change.
    #[inline]
    pub fn insert(&mut self, key: K) -> Result<bool, RefusedKey<K>>
    where
        K: Drop,
        ensures answer { IfOk result
            (λ new. new ≡ not (contains_key (entries K.class self.old) (K.class key))) }
        ensures entries { OnOk result (entries K.class self.new ≡
            added (entries K.class self.old) (K.class key) (key, tt)) }
        ensures present { IsTrue (contains_key (entries K.class self.old) (K.class key)) →
            IsOk result × (self.new ≡ self.old) }
        ensures in_place { HasSpace K.class self.old
            (H.hash_of self.old.hasher (K.class key)) →
            InPlace result self.old self.new }
        ensures slots { SameOrGrown (slot_count self.old) (slot_count self.new) }
        ensures hasher { self.new.hasher ≡ self.old.hasher }
        ensures handed_back { IfErr result (λ r. r.key ≡ key) }
        ensures refused { IfErr result (λ r. RefusesGrowth self.old self.new r.why) }
    {
        match self.map.try_emplace(key, ()) {
            Ok(Emplaced::Inserted) => Ok(true),
            Ok(Emplaced::Present(_, ())) => Ok(false),
            Err(refused) => Err(RefusedKey {
                key: refused.key,
                why: refused.why,
            }),
        }
    }

    /// The slot of the key that `q` names; or a vacancy, with which [`FlatSet::fill`] adds the key without
    /// hashing again.
    #[inline]
    pub fn entry<Q: Names<K>>(&self, q: &Q) -> Entry
        ensures occupied { IsOccupied K.class self.now (Q.named q.now) result }
        ensures vacant { IsVacant K.class (H.hash_of self.now.hasher) self.now
            (Q.named q.now) result }
    {
        self.map.entry(q)
    }

    /// Adds a key that [`FlatSet::entry`] reported absent, by its hash. Errors are those of
    /// [`FlatSet::insert`].
    #[inline]
    pub fn fill(&mut self, vacancy: Vacancy, key: K) -> Result<(), RefusedKey<K>>
        requires { IsVacancy K.class (H.hash_of self.old.hasher) self.old
            (K.class key) vacancy }
        ensures entries { OnOk result (entries K.class self.new ≡
            insert (entries K.class self.old) (K.class key) (key, tt)) }
        ensures in_place { HasSpace K.class self.old
            (H.hash_of self.old.hasher (K.class key)) →
            InPlace result self.old self.new }
        ensures slots { SameOrGrown (slot_count self.old) (slot_count self.new) }
        ensures hasher { self.new.hasher ≡ self.old.hasher }
        ensures handed_back { IfErr result (λ r. r.key ≡ key) }
        ensures refused { IfErr result (λ r. RefusesGrowth self.old self.new r.why) }
    {
        let Err(refused) = self.map.fill(vacancy, key, ()) else {
            return Ok(());
        };
        let Refused { key, why, .. } = refused;
        Err(RefusedKey { key, why })
    }

    /// Drops the key that `q` names, and returns whether it was there.
    #[inline]
    pub fn erase<Q: Names<K>>(&mut self, q: &Q) -> bool
    where
        K: Drop,
        ensures answer { result ≡ contains_key (entries K.class self.old) (Q.named q.now) }
        ensures entries { entries K.class self.new ≡
            remove (entries K.class self.old) (Q.named q.now) }
        ensures slots { slot_count self.new ≡ slot_count self.old }
        ensures hasher { self.new.hasher ≡ self.old.hasher }
        ensures unchanged { OnFalse result (self.new ≡ self.old) }
    {
        self.map.erase(q)
    }

    /// Removes and returns the stored key that `q` names.
    #[inline]
    pub fn extract<Q: Names<K>>(&mut self, q: &Q) -> Option<K>
        ensures answer { result ≡
            option_map (λ p. p.0) (get (entries K.class self.old) (Q.named q.now)) }
        ensures entries { entries K.class self.new ≡
            remove (entries K.class self.old) (Q.named q.now) }
        ensures slots { slot_count self.new ≡ slot_count self.old }
        ensures hasher { self.new.hasher ≡ self.old.hasher }
        ensures unchanged { result ≡ None → self.new ≡ self.old }
    {
        let (key, ()) = self.map.extract(q)?;
        Some(key)
    }
}
