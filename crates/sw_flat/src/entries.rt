//! Adding and removing entries.
ghost use Rattle.std.specs.Prelude.{◌≡◌, IsTrue, IsOk, OnOk, IfOk, IfErr, None, if◌then◌else◌};
ghost use Rattle.std.specs.Bool.{OnFalse};
ghost use Rattle.std.specs.FinMap.{insert, get, remove, contains_key};
ghost use Rattle.sw_table.specs.View.{slot_count};
ghost use Rattle.sw_table.specs.Entries.{entries};
ghost use Rattle.sw_table.specs.Sizes.{SameOrGrown};
ghost use Rattle.sw_table.specs.Insertion.{HasSpace, InPlace, RefusesGrowth};
ghost use Rattle.sw_flat.specs.declared.emplaced.Emplaced.TheVariants.{Inserted, Present};
ghost use Rattle.sw_flat.specs.Maps.{value_at, stored_key, added};

use crate::emplaced::Emplaced;
use crate::map::FlatMap;
use sw_probe::{KeyHash, Keyed, Names};
use sw_table::Refused;

impl<K: Keyed, V, H: KeyHash<K>> FlatMap<K, V, H> {
    /// Inserts an entry if its key is new, and else returns the pair. On error (`Limit` at 2^28 slots, else
    /// `Memory`) the pair is returned and the map doesn't change. No error occurs while the table has space.
    #[inline]
    pub fn try_emplace(&mut self, key: K, value: V) -> Result<Emplaced<K, V>, Refused<K, V>>
        ensures answer { IfOk result (λ e. e ≡
            (if contains_key (entries K.class self.old) (K.class key)
            then Present key value else Inserted)) }
        ensures entries { OnOk result (entries K.class self.new ≡
            added (entries K.class self.old) (K.class key) (key, value)) }
        ensures present { IsTrue (contains_key (entries K.class self.old) (K.class key)) →
            IsOk result × (self.new ≡ self.old) }
        ensures in_place { HasSpace K.class self.old
            (H.hash_of self.old.hasher (K.class key)) →
            InPlace result self.old self.new }
        ensures slots { SameOrGrown (slot_count self.old) (slot_count self.new) }
        ensures hasher { self.new.hasher ≡ self.old.hasher }
        ensures handed_back { IfErr result (λ r. (r.key ≡ key) × (r.value ≡ value)) }
        ensures refused { IfErr result (λ r. RefusesGrowth self.old self.new r.why) }
    {
        let hash = self.table.hash(&key);
        if self.table.find_hashed(&key, hash).is_some() {
            return Ok(Emplaced::Present(key, value));
        }
        self.table.place_hashed(key, value, hash)?;
        Ok(Emplaced::Inserted)
    }

    /// Inserts an entry, or assigns the value to a key that is there and returns the old value. The stored key
    /// then stays, and nothing is allocated. Errors are those of [`FlatMap::try_emplace`].
    #[inline]
    pub fn insert_or_assign(&mut self, key: K, value: V) -> Result<Option<V>, Refused<K, V>>
    where
        K: Drop,
        ensures answer { IfOk result
            (λ old. old ≡ value_at (entries K.class self.old) (K.class key)) }
        ensures entries { OnOk result (entries K.class self.new ≡
            insert (entries K.class self.old) (K.class key)
            (stored_key (entries K.class self.old) (K.class key) key, value)) }
        ensures present { IsTrue (contains_key (entries K.class self.old) (K.class key)) →
            InPlace result self.old self.new }
        ensures in_place { HasSpace K.class self.old
            (H.hash_of self.old.hasher (K.class key)) →
            InPlace result self.old self.new }
        ensures slots { SameOrGrown (slot_count self.old) (slot_count self.new) }
        ensures hasher { self.new.hasher ≡ self.old.hasher }
        ensures handed_back { IfErr result (λ r. (r.key ≡ key) × (r.value ≡ value)) }
        ensures refused { IfErr result (λ r. RefusesGrowth self.old self.new r.why) }
    {
        let hash = self.table.hash(&key);
        if let Some(slot) = self.table.find_hashed(&key, hash) {
            let stored = self.table.at_mut(slot);
            return Ok(Some(std::mem::replace(stored, value)));
        }
        self.table.place_hashed(key, value, hash)?;
        Ok(None)
    }

    /// Drops the entry of the key that `q` names, and returns whether there was one.
    #[inline]
    pub fn erase<Q: Names<K>>(&mut self, q: &Q) -> bool
    where
        K: Drop,
        V: Drop,
        ensures answer { result ≡ contains_key (entries K.class self.old) (Q.named q.now) }
        ensures entries { entries K.class self.new ≡
            remove (entries K.class self.old) (Q.named q.now) }
        ensures slots { slot_count self.new ≡ slot_count self.old }
        ensures hasher { self.new.hasher ≡ self.old.hasher }
        ensures unchanged { OnFalse result (self.new ≡ self.old) }
    {
        self.extract(q).is_some()
    }

    /// Removes and returns the entry of the key that `q` names, with the stored key.
    #[inline]
    pub fn extract<Q: Names<K>>(&mut self, q: &Q) -> Option<(K, V)>
        ensures answer { result ≡ get (entries K.class self.old) (Q.named q.now) }
        ensures entries { entries K.class self.new ≡
            remove (entries K.class self.old) (Q.named q.now) }
        ensures slots { slot_count self.new ≡ slot_count self.old }
        ensures hasher { self.new.hasher ≡ self.old.hasher }
        ensures unchanged { result ≡ None → self.new ≡ self.old }
    {
        let slot = self.table.find(q)?;
        Some(self.table.remove(slot))
    }
}
