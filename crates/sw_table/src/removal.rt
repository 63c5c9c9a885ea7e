//! Removals.
ghost use Rattle.std.specs.Prelude.{◌≡◌, ◌/◌, Some, None, slice_set};
ghost use Rattle.std.specs.FinMap.{empty, remove};
ghost use Rattle.sw_ctrl.specs.declared.control.TheConstants.{EMPTY, DELETED};
ghost use Rattle.sw_table.specs.View.{View, slot_count, entry_at, fresh, IsFull};
ghost use Rattle.sw_table.specs.Entries.{entries};
ghost use Rattle.sw_table.specs.LaidOut.{NoEmpty};

use crate::drops::{blank, empty_out};
use crate::table::{SlotNo, Table};
use sw_ctrl::{DELETED, EMPTY, WIDTH};
use sw_probe::{KeyHash, Keyed};

impl<K: Keyed, V, H: KeyHash<K>> Table<K, V, H> {
    /// Removes and returns the entry of a full slot. No other entry moves.
    #[inline]
    pub fn remove(&mut self, slot: SlotNo) -> (K, V)
        requires { IsFull self.old slot.index }
        ensures entry { entry_at self.old slot.index ≡ Some result }
        ensures entries { entries K.class self.new ≡
            remove (entries K.class self.old) (K.class result.0) }
        ensures places { self.new.places ≡ slice_set self.old.places slot.index None }

        // A byte becomes deleted only if look-ups may pass through its group.
        ensures emptied { ¬ NoEmpty self.old.bytes (slot.index / 16) →
            self.new.bytes ≡ slice_set self.old.bytes slot.index EMPTY }
        ensures deleted { NoEmpty self.old.bytes (slot.index / 16) →
            self.new.bytes ≡ slice_set self.old.bytes slot.index DELETED }
        ensures slots { slot_count self.new ≡ slot_count self.old }
        ensures hasher { self.new.hasher ≡ self.old.hasher }
    {
        let i = slot.index;
        let pair = self.slots.take(i);
        let emptied = self.ctrl.group(i / WIDTH).match_empty().any();
        self.ctrl.set(i, if emptied { EMPTY } else { DELETED });
        self.used -= emptied as usize;
        self.len -= 1;
        pair
    }

    /// Drops all entries, and keeps the capacity. It does nothing if all slots are empty.
    pub fn clear(&mut self)
    where
        K: Drop,
        V: Drop,
        ensures table { self.new ≡ fresh (slot_count self.old) self.old.hasher }
        ensures entries { entries K.class self.new ≡ empty }
    {
        if self.used == 0 {
            return;
        }
        empty_out(&mut self.slots, &self.ctrl, self.len);
        blank(&mut self.ctrl);
        self.len = 0;
        self.used = 0;
    }
}
