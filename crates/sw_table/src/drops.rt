//! Clearing slots and bytes.
ghost use Rattle.std.specs.Prelude.{◌≡◌, ℕ, ◌<◌, ◌≤◌, None, length, replicate, slice_index, IsSome};
ghost use Rattle.sw_ctrl.specs.declared.control.TheConstants.{EMPTY};
ghost use Rattle.sw_slots.specs.Place.{place};
ghost use Rattle.sw_table.specs.LaidOut.{full_count};

use sw_ctrl::{Ctrl, EMPTY, is_full};
use sw_slots::Slots;

/// Drops the values of the full slots, `len` in all.
pub(crate) fn empty_out<T: Drop>(slots: &mut Slots<T>, ctrl: &Ctrl, len: usize)
    requires len { length slots.old ≡ length ctrl.now }
    requires full { (i : ℕ) → i < length ctrl.now → slice_index ctrl.now i < 128 →
        IsSome (place slots.old i) }
    requires vacant { (i : ℕ) → 128 ≤ slice_index ctrl.now i → place slots.old i ≡ None }
    requires count { len ≡ full_count ctrl.now }
    ensures { slots.new ≡ replicate (length ctrl.now) None }
{
    if len == 0 {
        return;
    }
    // Byte by byte: if values need no drop, the compiler removes this loop.
    for i in 0..ctrl.len() {
        if is_full(ctrl.get(i)) {
            let _value = slots.take(i);
        }
    }
}

/// Sets every byte to empty.
pub(crate) fn blank(ctrl: &mut Ctrl)
    ensures { ctrl.new ≡ replicate (length ctrl.old) EMPTY }
{
    for i in 0..ctrl.len() {
        ctrl.set(i, EMPTY);
    }
}
