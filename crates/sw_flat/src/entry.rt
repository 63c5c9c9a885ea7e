//! Entries by borrowed keys.
ghost use Rattle.std.specs.Prelude.{◌≡◌, Some, IfOk, IfErr, OnOk};
ghost use Rattle.std.specs.Option.{option_map};
ghost use Rattle.std.specs.FinMap.{insert};
ghost use Rattle.sw_table.specs.View.{slot_count, entry_at, with_value, IsFull};
ghost use Rattle.sw_table.specs.Entries.{entries};
ghost use Rattle.sw_table.specs.Sizes.{SameOrGrown};
ghost use Rattle.sw_table.specs.Insertion.{HasSpace, InPlace, RefusesGrowth};

use crate::map::FlatMap;
use sw_probe::{KeyHash, Keyed, Names};
use sw_table::{Refused, SlotNo};

/// The slot of a key's entry, or that there is none. It borrows nothing, and is valid until entries are added,
/// removed or moved.
#[derive(Clone, Copy)]
pub enum Entry {
    /// The slot of the entry.
    Occupied(SlotNo),
    /// The key has no entry.
    Vacant(Vacancy),
}

/// A key without an entry, as its hash.
#[derive(Clone, Copy)]
pub struct Vacancy {
    hash: u64,
}

impl Vacancy {
    /// The key's hash.
    #[inline]
    pub fn hash(self) -> u64
        ensures { result ≡ self.hash }
    {
        self.hash
    }
}

impl<K: Keyed, V, H: KeyHash<K>> FlatMap<K, V, H> {
    ghost use Rattle.std.specs.Borrow.{sem};
    ghost use Rattle.sw_flat.specs.MapLends.{lends_slot};
    ghost use Rattle.sw_flat.specs.Vacancies.{IsOccupied, IsVacant, IsVacancy};

    /// The entry of the key that `q` names: its slot, for [`FlatMap::entry_at`] and [`FlatMap::value_mut`]; or
    /// a vacancy, with which [`FlatMap::fill`] adds an entry without hashing again.
    #[inline]
    pub fn entry<Q: Names<K>>(&self, q: &Q) -> Entry
        ensures occupied { IsOccupied K.class self.now (Q.named q.now) result }
        ensures vacant { IsVacant K.class (H.hash_of self.now.hasher) self.now
            (Q.named q.now) result }
    {
        let hash = self.table.hash(q);
        match self.table.find_hashed(q, hash) {
            Some(slot) => Entry::Occupied(slot),
            None => Entry::Vacant(Vacancy { hash }),
        }
    }

    /// The entry in a full slot.
    #[inline]
    pub fn entry_at(&self, slot: SlotNo) -> (&K, &V)
        requires { IsFull self.now slot.index }
        ensures { entry_at self.now slot.index ≡ Some (result.0.now, result.1.now) }
    {
        self.table.at(slot)
    }

    /// A mutable reference to the value in a full slot. The stored key stays.
    #[inline]
    pub fn value_mut(&mut self, slot: SlotNo) -> &mut V
        requires { IsFull self.old slot.index }
        ensures* writes_back { sem 𝓛
            (lends_slot K.row V.row H.row K.Keyed H.KeyHash self.entry slot.index result) }
        ensures value { option_map (λ p. p.1) (entry_at self.old slot.index) ≡ Some result.now }
        ensures entries { (p : K × V) (w : V) → entry_at self.old slot.index ≡ Some p →
            entries K.class (with_value self.old slot.index w) ≡
            insert (entries K.class self.old) (K.class p.0) (p.0, w) }
    {
        self.table.at_mut(slot)
    }

    /// Adds the entry of a key that [`FlatMap::entry`] reported absent, by its hash, and returns its slot.
    /// Errors are those of [`FlatMap::try_emplace`].
    #[inline]
    pub fn fill(&mut self, vacancy: Vacancy, key: K, value: V) -> Result<SlotNo, Refused<K, V>>
        requires { IsVacancy K.class (H.hash_of self.old.hasher) self.old
            (K.class key) vacancy }
        ensures full { IfOk result (λ s. IsFull self.new s.index) }
        ensures entry { IfOk result (λ s. entry_at self.new s.index ≡ Some (key, value)) }
        ensures entries { OnOk result (entries K.class self.new ≡
            insert (entries K.class self.old) (K.class key) (key, value)) }
        ensures in_place { HasSpace K.class self.old
            (H.hash_of self.old.hasher (K.class key)) →
            InPlace result self.old self.new }
        ensures slots { SameOrGrown (slot_count self.old) (slot_count self.new) }
        ensures hasher { self.new.hasher ≡ self.old.hasher }
        ensures handed_back { IfErr result (λ r. (r.key ≡ key) × (r.value ≡ value)) }
        ensures refused { IfErr result (λ r. RefusesGrowth self.old self.new r.why) }
    {
        self.table.place_hashed(key, value, vacancy.hash)
    }
}
