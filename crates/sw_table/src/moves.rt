//! Moving entries to new slots.
ghost use Rattle.std.specs.Prelude.{◌≡◌, ◌<◌, None, length, replicate};
ghost use Rattle.sw_ctrl.specs.declared.control.TheConstants.{EMPTY};
ghost use Rattle.sw_table.specs.Entries.{entries_in};
ghost use Rattle.sw_table.specs.Sizes.{IsCapacity};
ghost use Rattle.sw_table.specs.LaidOut.{full_count, IsLaidOut, IsTable};

use crate::free::first_free;
use sw_ctrl::{Ctrl, is_full};
use sw_probe::{KeyHash, Keyed, h2};
use sw_slots::Slots;

/// Moves all entries to a larger number of empty slots.
pub(crate) fn move_all<K: Keyed, V, H: KeyHash<K>>(
    from: &mut Slots<(K, V)>,
    bytes: &Ctrl,
    hasher: &H,
    to: &mut Slots<(K, V)>,
    ctrl: &mut Ctrl,
)
    requires laid { IsLaidOut K.class (H.hash_of hasher.now) from.old bytes.now }
    requires size { IsCapacity (length ctrl.old) × (length bytes.now < length ctrl.old) }
    requires vacant { (to.old ≡ replicate (length ctrl.old) None) ×
        (ctrl.old ≡ replicate (length ctrl.old) EMPTY) }
    ensures left { from.new ≡ replicate (length from.new) None }
    ensures laid { let full = full_count bytes.now in
        IsTable K.class (H.hash_of hasher.now) to.new ctrl.new full full }
    ensures entries { entries_in K.class to.new ≡ entries_in K.class from.old }
    ensures size { length ctrl.new ≡ length ctrl.old }
{
    for i in 0..bytes.len() {
        if is_full(bytes.get(i)) {
            let pair = from.take(i);
            let hash = hasher.hash(&pair.0);
            let at = first_free(ctrl, hash);
            to.put(at, pair);
            ctrl.set(at, h2(hash));
        }
    }
}
