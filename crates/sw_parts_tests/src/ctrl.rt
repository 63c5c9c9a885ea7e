//! Control bytes and masks.
use crate::expected::{expect, expect_at};
use std::process::Abort;
use std::test::Fail;
use sw_ctrl::{Ctrl, Group};

// A group that begins with 5, a deleted byte and 5, and is empty from there on.
fn expect_masks(rt: &impl Abort, group: Group) {
    let found = group.match_h2(5);
    expect(rt, found.bits(), 0x0005);
    expect(rt, found.count(), 2);
    expect(rt, found.lowest(), Some(0));
    expect(rt, found.any(), true);
    expect(rt, found.without_lowest().bits(), 0x0004);
    expect(rt, found.without_lowest().lowest(), Some(2));
    expect(rt, group.match_empty().bits(), 0xfff8);
    expect(rt, group.match_free().bits(), 0xfffa);
    expect(rt, group.match_full().bits(), 0x0005);
    let none = group.match_h2(6);
    expect(rt, none.any(), false);
    expect(rt, none.lowest(), None);
    expect(rt, none.without_lowest().bits(), 0);
}

#[test]
fn masks_of_one_group(rt: HostRuntime) -> Result<(), Fail> {
    let mut ctrl = Ctrl::new(rt.alloc(), 16)?;
    ctrl.set(0, 0x05);
    ctrl.set(1, 0xfe);
    ctrl.set(2, 0x05);
    expect_masks(&rt, ctrl.group(0));
    ctrl.mark_for_rehash();
    for i in 0..ctrl.len() {
        let due = if i == 0 || i == 2 { 0xfe } else { 0x80 };
        expect_at(&rt, i as u64, ctrl.get(i), due);
    }
    Ok(())
}

// The mask of a lane if its byte passes, and else of none.
fn mask_if(here: u16, holds: bool) -> u16 {
    if holds { here } else { 0 }
}

// Expects the masks of a group with this byte in one lane, and deleted bytes in all others.
fn expect_lane(rt: &impl Abort, group: Group, byte: u8, here: u16) {
    let empty = mask_if(here, byte == 0x80);
    let deleted = mask_if(here, byte == 0xfe);
    let full = mask_if(here, byte < 0x80);
    let number = u64::from(byte);
    expect_at(rt, number, group.match_empty().bits(), empty);
    expect_at(
        rt,
        number,
        group.match_free().bits(),
        empty | deleted | !here,
    );
    expect_at(rt, number, group.match_full().bits(), full);
    for h2 in 0..128u8 {
        let due = mask_if(here, byte == h2);
        expect_at(rt, number, group.match_h2(h2).bits(), due);
    }
}

#[test]
fn each_byte_in_each_lane(rt: HostRuntime) {
    for byte in 0..=255u8 {
        for lane in 0..16usize {
            let mut bytes = [0xfe; 16];
            bytes[lane] = byte;
            expect_lane(&rt, Group::of(&bytes), byte, 1u16 << lane);
        }
    }
}

#[test]
fn each_control_byte_is_marked(rt: HostRuntime) -> Result<(), Fail> {
    let mut ctrl = Ctrl::new(rt.alloc(), 144)?;
    for i in 0..128u8 {
        let at = usize::from(i);
        if at < ctrl.len() {
            ctrl.set(at, i);
        }
    }
    if ctrl.len() == 144 {
        ctrl.set(129, 0xfe);
        ctrl.set(143, 0xfe);
    }
    ctrl.mark_for_rehash();
    expect(&rt, ctrl.len(), 144);
    for i in 0..ctrl.len() {
        let due = if i < 128 { 0xfe } else { 0x80 };
        expect_at(&rt, i as u64, ctrl.get(i), due);
    }
    Ok(())
}

#[test]
fn no_bytes_at_all(rt: HostRuntime) -> Result<(), Fail> {
    let mut ctrl = Ctrl::new(rt.alloc(), 0)?;
    ctrl.mark_for_rehash();
    expect(&rt, ctrl.is_empty(), true);
    Ok(())
}
