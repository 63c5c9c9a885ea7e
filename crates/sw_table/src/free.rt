//! The search for a free slot.
ghost use Rattle.std.specs.Prelude.{◌<◌, ◌≤◌, length};
ghost use Rattle.sw_table.specs.Sizes.{IsCapacity, load_of};
ghost use Rattle.sw_table.specs.LaidOut.{used_count};
ghost use Rattle.sw_table.specs.Free.{IsFree, IsFirstFree};

use sw_ctrl::{Ctrl, WIDTH};
use sw_probe::Probe;

/// The first free slot on the probe sequence of the hash.
#[inline]
pub(crate) fn first_free(ctrl: &Ctrl, hash: u64) -> usize
    requires size { IsCapacity (length ctrl.now) × (0 < length ctrl.now) }
    requires load { used_count ctrl.now ≤ load_of (length ctrl.now) }
    ensures free { IsFree ctrl.now hash result }
    ensures first { IsFirstFree ctrl.now hash result }
{
    let groups = ctrl.len() / WIDTH;
    let mut probe = Probe::new(hash, groups);
    'probe: loop {
        let at = probe.group();
        if let Some(lane) = ctrl.group(at).match_free().lowest() {
            return WIDTH * at + lane as usize;
        }
        if !probe.advance() {
            unreachable!();
        }
    }
}
