//! The table, and its sizes.
ghost use Rattle.std.specs.Prelude.{◌≡◌, ◌↔◌, ℕ, ◌<◌, ◌≤◌, ◌^◌, Option, Some, length, slice_index, IfOk, IsOk};
ghost use Rattle.std.specs.FinMap.{empty, len};
ghost use Rattle.sw_table.specs.View.{View, slot_count, fresh, IsFull};
ghost use Rattle.sw_table.specs.Entries.{entries};
ghost use Rattle.sw_table.specs.Sizes.{room_of, IsCapacity};
ghost use Rattle.sw_table.specs.LaidOut.{IsLaidOut};
ghost use Rattle.sw_table.specs.Room.{IsMadeFor, RefusesPast};

use crate::blocks::new_blocks;
use crate::drops::empty_out;
use crate::refused::Why;
use crate::sizes::{capacity_for, room_of};
use std::alloc::Global;
use std::marker::Model;
use sw_ctrl::Ctrl;
use sw_probe::{KeyHash, Keyed};
use sw_slots::Slots;

/// The number of a slot, below the table's capacity. It is valid until entries move: until the next `place`,
/// `remove`, `reserve`, `rehash` or `clear`.
#[derive(Clone, Copy)]
pub struct SlotNo {
    pub index: usize,
}

/// A map from keys to values in an array of slots. Contracts see what each slot holds, its control byte, and
/// the hasher; `entries` of these is the finite map.
pub struct Table<K: Keyed, V, H: KeyHash<K>> {
    pub(crate) slots: Slots<(K, V)>,
    pub(crate) ctrl: Ctrl,
    pub(crate) hasher: H,
    // The number of full slots.
    pub(crate) len: usize,
    // The number of full or deleted slots.
    pub(crate) used: usize,
    pub(crate) alloc: Global,
}

impl<K: Keyed, V, H: KeyHash<K>> Model for Table<K, V, H> {
    ghost use Rattle.sw_table.specs.View.{View, view_code, table_view};
    ghost use Rattle.sw_table.specs.LaidOut.{IsTable};

    ghost Value = { View K V H };

    ghost coded = { view_code K.code V.code H.code };

    ghost view = { λ t. table_view t.slots t.ctrl t.hasher };

    ghost invariant = { λ t. IsTable K.class (H.hash_of t.hasher)
        t.slots t.ctrl t.len t.used };
}

impl<K: Keyed + Drop, V: Drop, H: KeyHash<K> + Drop> Drop for Table<K, V, H> {
    fn drop(self) {
        let Table {
            mut slots,
            ctrl,
            hasher: _,
            len,
            used: _,
            alloc: _,
        } = self;
        empty_out(&mut slots, &ctrl, len);
        slots.release();
    }
}

impl<K: Keyed, V, H: KeyHash<K>> Table<K, V, H> {
    /// A table without slots. It takes no memory.
    pub fn new(alloc: Global, hasher: H) -> Table<K, V, H>
        ensures table { result ≡ fresh 0 hasher }
        ensures entries { entries K.class result ≡ empty }
    {
        let Ok((slots, ctrl)) = new_blocks(alloc, 0) else {
            unreachable!();
        };
        Table {
            slots,
            ctrl,
            hasher,
            len: 0,
            used: 0,
            alloc,
        }
    }

    /// A table with room for `n` entries, in the smallest capacity that has it. Without entries it takes no
    /// memory. Errors: `Limit` if the capacity would pass 2^28, else `Memory`.
    pub fn with_room(alloc: Global, hasher: H, n: usize) -> Result<Table<K, V, H>, Why>
    where
        H: Drop,
        ensures made { IfOk result (IsMadeFor K.class hasher n) }
        ensures no_memory { n ≡ 0 → IsOk result }
        ensures limit { RefusesPast n result }
    {
        let Some(capacity) = capacity_for(n) else {
            return Err(Why::Limit);
        };
        let Ok((slots, ctrl)) = new_blocks(alloc, capacity) else {
            return Err(Why::Memory);
        };
        Ok(Table {
            slots,
            ctrl,
            hasher,
            len: 0,
            used: 0,
            alloc,
        })
    }

    /// The number of entries.
    #[inline]
    pub fn len(&self) -> usize
        ensures { result ≡ len (entries K.class self.now) }
    {
        self.len
    }

    /// The number of slots. Its contract states their layout.
    #[inline]
    pub fn capacity(&self) -> usize
        ensures slots { result ≡ slot_count self.now }
        ensures laid_out { IsLaidOut K.class (H.hash_of self.now.hasher)
            self.now.places self.now.bytes }
    {
        self.ctrl.len()
    }

    /// How many entries there may be before an insertion may allocate, however many were removed.
    #[inline]
    pub fn room(&self) -> usize
        ensures { result ≡ room_of (slot_count self.now) }
    {
        room_of(self.ctrl.len())
    }

    /// The table's allocator.
    #[inline]
    pub fn allocator(&self) -> Global {
        self.alloc
    }

    /// The control byte of slot `i`: below 128 if the slot is full, and then the seven low bits of its key's
    /// hash.
    #[inline]
    pub fn byte(&self, i: usize) -> u8
        requires { i < slot_count self.now }
        ensures value { result ≡ slice_index self.now.bytes i }
        ensures full { (result < 128) ↔ IsFull self.now i }
    {
        // So that the proof has the invariant.
        let _ = &self.ctrl;
        self.ctrl.get(i)
    }
}
