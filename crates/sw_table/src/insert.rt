//! Insertions.
ghost use Rattle.std.specs.Prelude.{◌≡◌, Some, None, IfSome, IfNone, IfOk, IfErr, OnOk, ◌<◌};
ghost use Rattle.std.specs.FinMap.{insert, get, len};
ghost use Rattle.sw_table.specs.View.{View, slot_count, entry_at, IsFull};
ghost use Rattle.sw_table.specs.Entries.{entries};
ghost use Rattle.sw_table.specs.Sizes.{SameOrGrown, room_of, load_of};
ghost use Rattle.sw_table.specs.LaidOut.{used_count};
ghost use Rattle.sw_table.specs.Free.{IsFree, KeepsLoad, IsAtLoad};
ghost use Rattle.sw_table.specs.Insertion.{HasSpace, InPlace, RefusesGrowth};

use crate::free::first_free;
use crate::refused::Refused;
use crate::sizes::GROUP_LOAD;
use crate::table::{SlotNo, Table};
use sw_ctrl::{EMPTY, WIDTH};
use sw_probe::{KeyHash, Keyed, h2};

impl<K: Keyed, V, H: KeyHash<K>> Table<K, V, H> {
    /// Inserts an absent key into the first free slot of its probe sequence, and returns the slot. On error
    /// (`Limit` at 2^28 slots, else `Memory`) the pair is returned and the table doesn't change.
    #[inline(always)]
    pub fn place(&mut self, key: K, value: V) -> Result<SlotNo, Refused<K, V>>
        requires absent { get (entries K.class self.old) (K.class key) ≡ None }
        ensures full { IfOk result (λ s. IsFull self.new s.index) }
        ensures entry { IfOk result (λ s. entry_at self.new s.index ≡ Some (key, value)) }
        ensures entries { OnOk result (entries K.class self.new ≡
            insert (entries K.class self.old) (K.class key) (key, value)) }
        ensures slots { SameOrGrown (slot_count self.old) (slot_count self.new) }
        ensures in_place { HasSpace K.class self.old
            (H.hash_of self.old.hasher (K.class key)) →
            InPlace result self.old self.new }
        ensures hasher { self.new.hasher ≡ self.old.hasher }
        ensures handed_back { IfErr result (λ r. (r.key ≡ key) × (r.value ≡ value)) }
        ensures refused { IfErr result (λ r. RefusesGrowth self.old self.new r.why) }
    {
        let hash = self.hasher.hash(&key);
        self.place_hashed(key, value, hash)
    }

    /// As [`Table::place`], with the hash of the key.
    #[inline(always)]
    pub fn place_hashed(&mut self, key: K, value: V, hash: u64) -> Result<SlotNo, Refused<K, V>>
        requires absent { get (entries K.class self.old) (K.class key) ≡ None }
        requires hash { hash ≡ H.hash_of self.old.hasher (K.class key) }
        ensures full { IfOk result (λ s. IsFull self.new s.index) }
        ensures entry { IfOk result (λ s. entry_at self.new s.index ≡ Some (key, value)) }
        ensures entries { OnOk result (entries K.class self.new ≡
            insert (entries K.class self.old) (K.class key) (key, value)) }
        ensures slots { SameOrGrown (slot_count self.old) (slot_count self.new) }
        ensures in_place { HasSpace K.class self.old hash → InPlace result self.old self.new }
        ensures hasher { self.new.hasher ≡ self.old.hasher }
        ensures handed_back { IfErr result (λ r. (r.key ≡ key) × (r.value ≡ value)) }
        ensures refused { IfErr result (λ r. RefusesGrowth self.old self.new r.why) }
    {
        let index = match self.free_slot(hash) {
            Some(index) => index,
            None => {
                if let Err(why) = self.make_space() {
                    return Err(Refused { key, value, why });
                }
                self.slot_within_load(hash)
            }
        };
        self.fill(index, hash, key, value);
        Ok(SlotNo { index })
    }

    // The first free slot for the hash, if the load isn't reached. A function of its own, since `place_hashed`
    // is inlined into its callers.
    #[cold]
    #[inline(never)]
    fn slot_within_load(&self, hash: u64) -> usize
        requires { used_count self.now.bytes < load_of (slot_count self.now) }
        ensures free { IsFree self.now.bytes hash result }
        ensures load { KeepsLoad self.now.bytes result }
    {
        match self.free_slot(hash) {
            Some(index) => index,
            None => unreachable!(),
        }
    }

    // The first free slot for the hash, unless filling it would pass the load.
    #[inline]
    fn free_slot(&self, hash: u64) -> Option<usize>
        ensures free { IfSome result
            (λ i. IsFree self.now.bytes hash i × KeepsLoad self.now.bytes i) }
        ensures none { IfNone result (IsAtLoad self.now.bytes hash) }
    {
        // As in a look-up, so that the compiler shares the test and the number.
        let groups = self.ctrl.len() / WIDTH;
        if groups == 0 {
            return None;
        }
        let index = first_free(&self.ctrl, hash);
        if self.ctrl.get(index) == EMPTY && self.used == GROUP_LOAD * groups {
            return None;
        }
        Some(index)
    }

    // Stores a new entry in its free slot.
    #[inline]
    fn fill(&mut self, index: usize, hash: u64, key: K, value: V)
        requires absent { get (entries K.class self.old) (K.class key) ≡ None }
        requires free { IsFree self.old.bytes hash index × KeepsLoad self.old.bytes index }
        requires hash { hash ≡ H.hash_of self.old.hasher (K.class key) }
        ensures full { IsFull self.new index }
        ensures entry { entry_at self.new index ≡ Some (key, value) }
        ensures entries { entries K.class self.new ≡
            insert (entries K.class self.old) (K.class key) (key, value) }
        ensures slots { slot_count self.new ≡ slot_count self.old }
        ensures hasher { self.new.hasher ≡ self.old.hasher }
    {
        self.used += (self.ctrl.get(index) == EMPTY) as usize;
        self.slots.put(index, (key, value));
        self.ctrl.set(index, h2(hash));
        self.len += 1;
    }
}
