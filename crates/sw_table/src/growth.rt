//! Growth.
ghost use Rattle.std.specs.Prelude.{◌≡◌, ◌↔◌, ℕ, IfOk, IfErr, OnOk, OnErr, IsOk, ◌<◌, ◌≤◌, ◌^◌};
ghost use Rattle.std.specs.FinMap.{len};
ghost use Rattle.sw_table.specs.View.{View, slot_count};
ghost use Rattle.sw_table.specs.Entries.{entries};
ghost use Rattle.sw_table.specs.Sizes.{SameOrGrown, grown, room_of, load_of, IsCapacity};
ghost use Rattle.sw_table.specs.LaidOut.{used_count};
ghost use Rattle.sw_table.specs.Insertion.{InPlace, RefusesGrowth};
ghost use Rattle.sw_table.specs.Room.{GrowsFor, RefusesRoom};

use crate::blocks::new_blocks;
use crate::moves::move_all;
use crate::refused::Why;
use crate::sizes::{MAX_CAPACITY, capacity_for};
use crate::table::Table;
use std::alloc::AllocError;
use sw_ctrl::WIDTH;
use sw_probe::{KeyHash, Keyed};

impl<K: Keyed, V, H: KeyHash<K>> Table<K, V, H> {
    /// Makes room for `n` entries in total, in the smallest capacity that has it; does nothing if the room is
    /// there. On error the table doesn't change: `Limit` if the capacity would pass 2^28, else `Memory`.
    pub fn reserve(&mut self, n: usize) -> Result<(), Why>
        ensures entries { entries K.class self.new ≡ entries K.class self.old }
        ensures room { OnOk result (n ≤ room_of (slot_count self.new)) }
        ensures grows { GrowsFor n self.old self.new }
        ensures hasher { self.new.hasher ≡ self.old.hasher }
        ensures refused { RefusesRoom n result self.old self.new }
    {
        // So that the proof has the invariant.
        let _ = &self.ctrl;
        if n <= self.room() {
            return Ok(());
        }
        let Some(capacity) = capacity_for(n) else {
            return Err(Why::Limit);
        };
        match self.resize(capacity) {
            Ok(()) => Ok(()),
            Err(_) => Err(Why::Memory),
        }
    }

    // Makes space for one more entry: by a rehash if there are fewer entries than the room, else by growth.
    #[cold]
    #[inline(never)]
    pub(crate) fn make_space(&mut self) -> Result<(), Why>
        ensures entries { OnOk result (entries K.class self.new ≡ entries K.class self.old) }
        ensures slots { OnOk result (SameOrGrown (slot_count self.old) (slot_count self.new)) }
        ensures in_place { len (entries K.class self.old) < room_of (slot_count self.old) →
            InPlace result self.old self.new }
        ensures hasher { self.new.hasher ≡ self.old.hasher }
        ensures load { OnOk result (used_count self.new.bytes < load_of (slot_count self.new)) }
        ensures refused { IfErr result (RefusesGrowth self.old self.new) }
    {
        // So that the proof has the invariant.
        let _ = &self.ctrl;
        if self.len() < self.room() {
            self.rehash();
            return Ok(());
        }
        self.grow()
    }

    // Doubles the capacity.
    fn grow(&mut self) -> Result<(), Why>
        ensures entries { OnOk result (entries K.class self.new ≡ entries K.class self.old) }
        ensures slots { OnOk result (slot_count self.new ≡ grown (slot_count self.old)) }
        ensures hasher { self.new.hasher ≡ self.old.hasher }
        ensures load { OnOk result (used_count self.new.bytes < load_of (slot_count self.new)) }
        ensures refused { IfErr result (RefusesGrowth self.old self.new) }
    {
        let capacity = self.ctrl.len();
        if capacity == MAX_CAPACITY {
            return Err(Why::Limit);
        }
        match self.resize(if capacity == 0 { WIDTH } else { 2 * capacity }) {
            Ok(()) => Ok(()),
            Err(_) => Err(Why::Memory),
        }
    }

    // Moves all entries to new blocks. Both are allocated before any entry moves.
    fn resize(&mut self, capacity: usize) -> Result<(), AllocError>
        requires { IsCapacity capacity × (slot_count self.old < capacity) }
        ensures entries { OnOk result (entries K.class self.new ≡ entries K.class self.old) }
        ensures slots { OnOk result (slot_count self.new ≡ capacity) }
        ensures hasher { self.new.hasher ≡ self.old.hasher }
        ensures load { OnOk result (used_count self.new.bytes < load_of capacity) }
        ensures unchanged { OnErr result (self.new ≡ self.old) }
    {
        let (mut slots, mut ctrl) = new_blocks(self.alloc, capacity)?;
        move_all(
            &mut self.slots,
            &self.ctrl,
            &self.hasher,
            &mut slots,
            &mut ctrl,
        );
        let left = std::mem::replace(&mut self.slots, slots);
        left.release();
        self.ctrl = ctrl;
        self.used = self.len;
        Ok(())
    }
}
