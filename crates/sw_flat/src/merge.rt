//! Merging maps and sets.
ghost use Rattle.std.specs.Prelude.{◌≡◌, ◌↔◌, ◌+◌, ◌<◌, ◌≤◌, ◌^◌, IsTrue, IsOk, OnOk, OnErr, Err};
ghost use Rattle.std.specs.FinMap.{len};
ghost use Rattle.sw_table.specs.View.{slot_count};
ghost use Rattle.sw_table.specs.Entries.{entries};
ghost use Rattle.sw_table.specs.Room.{GrowsFor};
ghost use Rattle.sw_table.specs.Sizes.{room_of};
ghost use Rattle.sw_table.specs.declared.refused.Why.TheVariants.{Limit};
ghost use Rattle.sw_flat.specs.Maps.{lacked};
ghost use Rattle.sw_flat.specs.Merging.{MovesLacked, KeepsHashers, union_size};

use crate::map::FlatMap;
use crate::set::FlatSet;
use sw_probe::{KeyHash, Keyed};
use sw_table::{Walk, Why};

impl<K: Keyed, V, H: KeyHash<K>> FlatMap<K, V, H> {
    /// Moves all entries of `other` whose keys this map lacks, after it has made room for them; the others
    /// stay. On error (`Limit` past 2^28 slots, else `Memory`) both maps are unchanged.
    pub fn merge(&mut self, other: &mut FlatMap<K, V, H>) -> Result<(), Why>
    where
        K: Drop,
        V: Drop,
        ensures merged { OnOk result (MovesLacked K.class self.old other.old self.new other.new) }
        ensures nothing { len (lacked (entries K.class self.old) (entries K.class other.old)) ≡ 0 →
            IsOk result × (self.new ≡ self.old) × (other.new ≡ other.old) }
        ensures enough { union_size K.class self.old other.old ≤ room_of (slot_count self.old) →
            IsOk result × (slot_count self.new ≡ slot_count self.old) }
        ensures grows { GrowsFor (union_size K.class self.old other.old) self.old self.new }
        ensures room { OnOk result (
            0 < len (lacked (entries K.class self.old) (entries K.class other.old)) →
            union_size K.class self.old other.old ≤ room_of (slot_count self.new)) }
        ensures other_slots { slot_count other.new ≡ slot_count other.old }
        ensures hashers { KeepsHashers self.old other.old self.new other.new }
        ensures unchanged { OnErr result ((self.new ≡ self.old) × (other.new ≡ other.old)) }
        ensures limit { (result ≡ Err Limit) ↔
            ((0 < len (lacked (entries K.class self.old) (entries K.class other.old))) ×
            (room_of (2 ^ 28) < union_size K.class self.old other.old)) }
    {
        if !self.has_room_for(other) {
            let more = self.count_lacked(other);
            if more == 0 {
                return Ok(());
            }
            self.table.reserve(self.table.len() + more)?;
        }
        self.take_lacked(other);
        Ok(())
    }

    // Whether there is room for the entries of both maps, if all their keys are distinct.
    fn has_room_for(&self, other: &FlatMap<K, V, H>) -> bool
        ensures fits { IsTrue result →
            union_size K.class self.now other.now ≤ room_of (slot_count self.now) }
        ensures most { room_of (slot_count self.now) ≤ room_of (2 ^ 28) }
    {
        let _ = (self.table.capacity(), other.table.capacity());
        let room = self.table.room();
        let more = other.table.len();
        if room < more {
            return false;
        }
        if room - more < self.table.len() {
            return false;
        }
        true
    }

    // The number of entries of the other map whose keys this one lacks.
    fn count_lacked(&self, other: &FlatMap<K, V, H>) -> usize
        ensures count { result ≡
            len (lacked (entries K.class self.now) (entries K.class other.now)) }
        ensures small { (result < 2 ^ 60) × (len (entries K.class self.now) < 2 ^ 60) }
    {
        let _ = (self.table.capacity(), other.table.capacity());
        let mut count = 0;
        let mut rest = other.table.iter();
        'entries: while let Some(entry) = rest.next() {
            count += !self.contains(entry.0) as usize;
        }
        count
    }

    // Moves the entries whose keys this map lacks, for which there is room.
    fn take_lacked(&mut self, other: &mut FlatMap<K, V, H>)
    where
        K: Drop,
        V: Drop,
        requires { union_size K.class self.old other.old ≤ room_of (slot_count self.old) }
        ensures merged { MovesLacked K.class self.old other.old self.new other.new }
        ensures nothing { len (lacked (entries K.class self.old) (entries K.class other.old)) ≡ 0 →
            (self.new ≡ self.old) × (other.new ≡ other.old) }
        ensures slots { slot_count self.new ≡ slot_count self.old }
        ensures other_slots { slot_count other.new ≡ slot_count other.old }
        ensures hashers { KeepsHashers self.old other.old self.new other.new }
    {
        let _ = other.table.capacity();
        let mut walk = Walk::new();
        'slots: while let Some(slot) = other.table.advance(&mut walk) {
            let asked = other.table.at(slot).0;
            let hash = self.table.hash(asked);
            if self.table.find_hashed(asked, hash).is_some() {
                continue;
            }
            let (key, value) = other.table.remove(slot);
            let Ok(_) = self.table.place_hashed(key, value, hash) else {
                unreachable!();
            };
        }
    }
}

impl<K: Keyed, H: KeyHash<K>> FlatSet<K, H> {
    /// Moves all keys of `other` that this set lacks, after it has made room for them; the others stay. On
    /// error (`Limit` past 2^28 slots, else `Memory`) both sets are unchanged.
    pub fn merge(&mut self, other: &mut FlatSet<K, H>) -> Result<(), Why>
    where
        K: Drop,
        ensures merged { OnOk result (MovesLacked K.class self.old other.old self.new other.new) }
        ensures nothing { len (lacked (entries K.class self.old) (entries K.class other.old)) ≡ 0 →
            IsOk result × (self.new ≡ self.old) × (other.new ≡ other.old) }
        ensures enough { union_size K.class self.old other.old ≤ room_of (slot_count self.old) →
            IsOk result × (slot_count self.new ≡ slot_count self.old) }
        ensures grows { GrowsFor (union_size K.class self.old other.old) self.old self.new }
        ensures room { OnOk result (
            0 < len (lacked (entries K.class self.old) (entries K.class other.old)) →
            union_size K.class self.old other.old ≤ room_of (slot_count self.new)) }
        ensures other_slots { slot_count other.new ≡ slot_count other.old }
        ensures hashers { KeepsHashers self.old other.old self.new other.new }
        ensures unchanged { OnErr result ((self.new ≡ self.old) × (other.new ≡ other.old)) }
        ensures limit { (result ≡ Err Limit) ↔
            ((0 < len (lacked (entries K.class self.old) (entries K.class other.old))) ×
            (room_of (2 ^ 28) < union_size K.class self.old other.old)) }
    {
        self.map.merge(&mut other.map)
    }
}
