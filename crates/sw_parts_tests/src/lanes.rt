//! The functions on sixteen lanes in calls that aren't inlined, so that their machine code can be read in the
//! program of these tests. Each is a few instructions on all lanes at once, without a loop over lanes or a
//! bounds check; only marking has a loop, over groups.
ghost use Rattle.std.specs.Prelude.{◌≡◌, ◌*◌, ◌<◌, length};

use crate::expected::expect;
use std::process::Abort;
use std::test::Fail;
use sw_ctrl::{Ctrl, Mask16};

#[inline(never)]
fn match_h2(ctrl: &Ctrl, g: usize, h2: u8) -> u16
    requires group { 16 * g < length ctrl.now }
    requires seven_bits { h2 < 128 }
{
    ctrl.group(g).match_h2(h2).bits()
}

#[inline(never)]
fn match_free(ctrl: &Ctrl, g: usize) -> u16
    requires { 16 * g < length ctrl.now }
{
    ctrl.group(g).match_free().bits()
}

#[inline(never)]
fn match_full(ctrl: &Ctrl, g: usize) -> u16
    requires { 16 * g < length ctrl.now }
{
    ctrl.group(g).match_full().bits()
}

#[inline(never)]
fn lowest(mask: Mask16) -> Option<u32> {
    mask.lowest()
}

#[inline(never)]
fn mark_for_rehash(ctrl: &mut Ctrl) {
    ctrl.mark_for_rehash();
}

fn expect_lanes(rt: &impl Abort, ctrl: &Ctrl)
    requires { length ctrl.now ≡ 32 }
{
    expect(rt, match_h2(ctrl, 0, 0x11), 1 << 3);
    expect(rt, match_h2(ctrl, 1, 0x12), 1 << 15);
    expect(rt, match_free(ctrl, 0), 0xfff7);
    expect(rt, match_free(ctrl, 1), 0x7fff);
    expect(rt, match_full(ctrl, 0), 1 << 3);
    expect(rt, match_full(ctrl, 1), 1 << 15);
    expect(rt, lowest(ctrl.group(0).match_h2(0x11)), Some(3));
    expect(rt, lowest(ctrl.group(1).match_h2(0x11)), None);
    expect(rt, ctrl.group(0).match_free().lowest_from(3), Some(4));
    expect(rt, ctrl.group(1).match_full().lowest_from(15), Some(15));
    expect(rt, ctrl.group(0).match_full().lowest_from(4), None);
}

#[test]
fn lanes_of_two_groups(rt: HostRuntime) -> Result<(), Fail> {
    let mut ctrl = Ctrl::new(rt.alloc(), 32)?;
    ctrl.set(3, 0x11);
    ctrl.set(9, 0xfe);
    ctrl.set(31, 0x12);
    expect_lanes(&rt, &ctrl);
    mark_for_rehash(&mut ctrl);
    if ctrl.len() == 32 {
        expect(&rt, ctrl.group(0).match_empty().bits(), 0xfff7);
        expect(&rt, ctrl.group(1).match_empty().bits(), 0x7fff);
    }
    Ok(())
}
