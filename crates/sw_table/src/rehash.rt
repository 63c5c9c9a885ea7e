//! The rehash in place.
ghost use Rattle.std.specs.Prelude.{◌≡◌, ◌≢◌, ℕ, ◌+◌, ◌<◌, length, slice_index};
ghost use Rattle.sw_ctrl.specs.declared.control.TheConstants.{DELETED};
ghost use Rattle.std.specs.FinMap.{len};
ghost use Rattle.sw_table.specs.View.{View, slot_count, NoneDeleted};
ghost use Rattle.sw_table.specs.Entries.{entries, entries_in};
ghost use Rattle.sw_table.specs.LaidOut.{full_count, used_count, IsLaidOut};
ghost use Rattle.sw_table.specs.Settling.{IsSettling, deleted_count};

use crate::free::first_free;
use crate::table::Table;
use sw_ctrl::{Ctrl, DELETED, EMPTY, WIDTH};
use sw_probe::{KeyHash, Keyed, Probe, h2};
use sw_slots::Slots;

impl<K: Keyed, V, H: KeyHash<K>> Table<K, V, H> {
    /// Rehashes all entries in place, so that no byte is deleted. It doesn't allocate.
    pub fn rehash(&mut self)
        ensures entries { entries K.class self.new ≡ entries K.class self.old }
        ensures slots { slot_count self.new ≡ slot_count self.old }
        ensures none_deleted { NoneDeleted self.new }
        ensures load { used_count self.new.bytes ≡ len (entries K.class self.old) }
        ensures hasher { self.new.hasher ≡ self.old.hasher }
    {
        settle_all(&mut self.slots, &mut self.ctrl, &self.hasher);
        self.used = self.len;
    }
}

// Moves every entry to its place.
fn settle_all<K: Keyed, V, H: KeyHash<K>>(slots: &mut Slots<(K, V)>, ctrl: &mut Ctrl, hasher: &H)
    requires laid { IsLaidOut K.class (H.hash_of hasher.now) slots.old ctrl.old }
    ensures laid { IsLaidOut K.class (H.hash_of hasher.now) slots.new ctrl.new }
    ensures entries { entries_in K.class slots.new ≡ entries_in K.class slots.old }
    ensures size { length ctrl.new ≡ length ctrl.old }
    ensures used { used_count ctrl.new ≡ full_count ctrl.old }
    ensures placed { (k : ℕ) → k < length ctrl.new → slice_index ctrl.new k ≢ DELETED }
{
    ctrl.mark_for_rehash();
    for i in 0..ctrl.len() {
        'slot: while ctrl.get(i) == DELETED {
            settle_one(slots, ctrl, hasher, i);
        }
    }
}

// Moves the entry of slot `i` to its place; an entry that it displaces is then in slot `i`. It remains if its
// group is the first of its probe sequence, or the first with a free slot.
fn settle_one<K: Keyed, V, H: KeyHash<K>>(
    slots: &mut Slots<(K, V)>,
    ctrl: &mut Ctrl,
    hasher: &H,
    i: usize,
)
    requires settling { IsSettling K.class (H.hash_of hasher.now)
        slots.old ctrl.old }
    requires deleted { (i < length ctrl.old) × (slice_index ctrl.old i ≡ DELETED) }
    ensures settling { IsSettling K.class (H.hash_of hasher.now)
        slots.new ctrl.new }
    ensures entries { entries_in K.class slots.new ≡ entries_in K.class slots.old }
    ensures size { length ctrl.new ≡ length ctrl.old }
    ensures used { used_count ctrl.new ≡ used_count ctrl.old }
    ensures fewer { deleted_count ctrl.new + 1 ≡ deleted_count ctrl.old }
    ensures others { (k : ℕ) → k ≢ i → slice_index ctrl.old k ≢ DELETED →
        slice_index ctrl.new k ≢ DELETED }
{
    let hash = hasher.hash(&slots.get(i).0);
    let h2 = h2(hash);
    let home = Probe::new(hash, ctrl.len() / WIDTH).group();
    if home == i / WIDTH {
        ctrl.set(i, h2);
        return;
    }
    let at = first_free(ctrl, hash);
    if at / WIDTH == i / WIDTH {
        ctrl.set(i, h2);
        return;
    }
    let byte = ctrl.get(at);
    if byte == EMPTY {
        let pair = slots.take(i);
        slots.put(at, pair);
    } else {
        slots.swap(i, at);
    }
    ctrl.set(i, byte);
    ctrl.set(at, h2);
}
