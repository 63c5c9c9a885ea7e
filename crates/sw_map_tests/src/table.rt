//! The table.
use crate::expected::{expect, expect_at};
use crate::loaded::{
    FIRST, GONE, Keys, LATER, SECOND, byte_of, expect_kinds, expect_sizes, kinds, load, sizes,
};
use std::alloc::Global;
use std::process::Abort;
use std::test::Fail;
use sw_probe::{Constant, Direct, Fnv1a, KeyHash};
use sw_table::{Table, Why};

pub(crate) type Numbers<H> = Table<u64, u64, H>;

/// Adds an entry whose key is absent, and reads it from its slot.
pub(crate) fn adds<H: KeyHash<u64>>(table: &mut Numbers<H>, key: u64, value: u64) -> bool {
    if table.find(&key).is_some() {
        return false;
    }
    match table.place(key, value) {
        Ok(slot) => {
            let (stored, held) = table.at(slot);
            *stored == key && *held == value
        }
        Err(_) => false,
    }
}

fn add<H: KeyHash<u64>>(rt: &impl Abort, table: &mut Numbers<H>, key: u64, value: u64) {
    assert!(rt; adds(table, key, value), "key {key}");
}

pub(crate) fn value_of<H: KeyHash<u64>>(table: &Numbers<H>, key: u64) -> Option<u64> {
    let slot = table.find(&key)?;
    Some(*table.at(slot).1)
}

fn expect_value<H: KeyHash<u64>>(rt: &impl Abort, table: &Numbers<H>, key: u64, due: Option<u64>) {
    expect_at(rt, key, value_of(table, key), due);
}

pub(crate) fn take<H: KeyHash<u64>>(table: &mut Numbers<H>, key: u64) -> Option<(u64, u64)> {
    let slot = table.find(&key)?;
    Some(table.remove(slot))
}

impl Keys for Numbers<Direct> {
    type Value = u64;

    fn add(&mut self, key: u64, value: u64) -> bool {
        adds(self, key, value)
    }

    fn take(&mut self, key: u64) -> bool {
        take(self, key).is_some()
    }

    fn table(&self) -> &Numbers<Direct> {
        self
    }
}

#[test]
fn room_for_thirteen(rt: HostRuntime) -> Result<(), Fail> {
    let mut table = Table::with_room(rt.alloc(), Fnv1a { seed: 0 }, 13)?;
    expect(&rt, sizes(&table), [0, 32, 25]);
    add(&rt, &mut table, 1, 10);
    table.reserve(26)?;
    expect(&rt, sizes(&table), [1, 64, 50]);
    expect_value(&rt, &table, 1, Some(10));
    Ok(())
}

// Numbers of entries, and the sizes of a table with room for them.
const LEAST: [(usize, [usize; 3]); 8] = [
    (0, [0, 0, 0]),
    (1, [0, 16, 12]),
    (12, [0, 16, 12]),
    (13, [0, 32, 25]),
    (25, [0, 32, 25]),
    (26, [0, 64, 50]),
    (50, [0, 64, 50]),
    (51, [0, 128, 100]),
];

fn expect_room(rt: &impl Abort, alloc: Global, n: usize, due: [usize; 3]) -> Result<(), Fail> {
    let table: Numbers<Direct> = Table::with_room(alloc, Direct, n)?;
    expect_at(rt, n as u64, sizes(&table), due);
    Ok(())
}

#[test]
fn least_capacities(rt: HostRuntime) -> Result<(), Fail> {
    for (n, due) in LEAST {
        expect_room(&rt, rt.alloc(), n, due)?;
    }
    Ok(())
}

#[test]
fn past_the_greatest_capacity(rt: HostRuntime) {
    let alloc = rt.alloc();
    let made: Result<Numbers<Direct>, Why> = Table::with_room(alloc, Direct, 209_715_201);
    assert!(rt; matches!(made, Err(Why::Limit)));
    let mut table: Numbers<Direct> = Table::new(alloc, Direct);
    for n in [209_715_201, usize::MAX] {
        expect(&rt, table.reserve(n), Err(Why::Limit));
    }
    expect(&rt, table.capacity(), 0);
}

// The entries of a table in slot order.
fn by_slots(alloc: Global, table: &Numbers<Direct>) -> Result<Vec<(u64, u64)>, Fail> {
    let (mut from, mut entries) = (0usize, Vec::new(alloc));
    for _ in 0..table.capacity() {
        let Some(slot) = table.next_full(from) else {
            break;
        };
        let (key, value) = table.at(slot);
        entries.push((*key, *value))?;
        from = slot.index.saturating_add(1);
    }
    Ok(entries)
}

fn expect_by_slots(
    rt: &impl Abort,
    alloc: Global,
    table: &Numbers<Direct>,
    due: &[(u64, u64)],
) -> Result<(), Fail> {
    expect(rt, by_slots(alloc, table)?.as_slice(), due);
    Ok(())
}

// Under `Direct` the probe of a key n begins at group n / 128, modulo the number of groups: of four groups, the
// keys 7, 128 * 3 + 5 and 128 * 2 + 6 have the groups 0, 3 and 2.
#[test]
fn from_slot_to_slot(rt: HostRuntime) -> Result<(), Fail> {
    let mut table = Table::new(rt.alloc(), Direct);
    assert!(rt; table.next_full(0).is_none());
    for (key, value) in [(7, 14), (389, 778), (262, 524)] {
        add(&rt, &mut table, key, value);
    }
    table.reserve(50)?;
    expect(&rt, table.capacity(), 64);
    for (i, byte) in [(0, 7), (16, 0x80), (32, 6), (48, 5)] {
        expect_at(&rt, i as u64, byte_of(&table, i), Some(byte));
    }
    expect_by_slots(&rt, rt.alloc(), &table, &[(7, 14), (262, 524), (389, 778)])
}

/// Assigns a value to a key that is there, and returns the old one.
pub(crate) fn write<H: KeyHash<u64>>(table: &mut Numbers<H>, key: u64, value: u64) -> Option<u64> {
    let slot = table.find(&key)?;
    let held = table.at_mut(slot);
    let old = *held;
    *held = value;
    Some(old)
}

#[test]
fn a_value_written_in_place(rt: HostRuntime) -> Result<(), Fail> {
    let mut table = Table::with_room(rt.alloc(), Constant(0), 12)?;
    for key in 0..3u64 {
        add(&rt, &mut table, key, 5);
    }
    expect(&rt, write(&mut table, 1, 9), Some(5));
    for (key, value) in [(0, 5), (1, 9), (2, 5)] {
        expect_value(&rt, &table, key, Some(value));
    }
    Ok(())
}

// Whether a key is absent, and is placed by the same hash.
fn places_by_hash(table: &mut Numbers<Fnv1a>, key: u64) -> bool {
    let hash = table.hash(&key);
    table.find_hashed(&key, hash).is_none() && table.place_hashed(key, key, hash).is_ok()
}

#[test]
fn one_hash_for_two_calls(rt: HostRuntime) {
    let mut table: Numbers<Fnv1a> = Table::new(rt.alloc(), Fnv1a { seed: 3 });
    for key in 0..100u64 {
        assert!(rt; places_by_hash(&mut table, key), "key {key}");
    }
    expect(&rt, table.len(), 100);
    for key in 0..100u64 {
        expect_value(&rt, &table, key, Some(key));
    }
}

// Removes one of twelve entries.
fn take_one(rt: &impl Abort, table: &mut Numbers<Direct>) {
    for key in 0..12u64 {
        add(rt, table, key, key);
    }
    expect(rt, take(table, 5), Some((5, 5)));
    expect(rt, take(table, 5), None);
    expect(rt, kinds(table), [11, 0, 5]);
}

#[test]
fn a_slot_in_a_group_with_an_empty_byte_becomes_empty(rt: HostRuntime) -> Result<(), Fail> {
    let mut table = Table::with_room(rt.alloc(), Direct, 12)?;
    take_one(&rt, &mut table);
    table.clear();
    expect(&rt, kinds(&table), [0, 0, 16]);
    expect(&rt, table.len(), 0);
    expect_value(&rt, &table, 6, None);
    Ok(())
}

// Expects each of these keys n, with the value n / 256.
fn expect_held(rt: &impl Abort, table: &Numbers<Direct>, keys: &[u64]) {
    for key in keys {
        expect_value(rt, table, *key, Some(*key / 256));
    }
}

fn expect_gone(rt: &impl Abort, table: &Numbers<Direct>, keys: &[u64]) {
    for key in keys {
        expect_value(rt, table, *key, None);
    }
}

// A fourth key is removed from a table at full load, and another added.
fn sweep(rt: &impl Abort, table: &mut Numbers<Direct>) {
    assert!(rt; take(table, 768).is_some());
    expect_kinds(rt, table, [24, 4, 4]);
    add(rt, table, 3200, 12);
    expect_kinds(rt, table, [25, 0, 7]);
    expect_sizes(rt, table, [25, 32, 25]);
}

#[test]
fn deleted_bytes_are_swept_before_the_table_grows(rt: HostRuntime) -> Result<(), Fail> {
    let mut table = Table::with_room(rt.alloc(), Direct, 25)?;
    expect(&rt, table.capacity(), 32);
    load(&rt, &mut table);
    sweep(&rt, &mut table);
    expect_held(&rt, &table, &FIRST[4..]);
    expect_held(&rt, &table, &SECOND);
    expect_held(&rt, &table, &LATER);
    expect_held(&rt, &table, &[3200]);
    expect_gone(&rt, &table, &GONE);
    expect_gone(&rt, &table, &[768]);
    Ok(())
}

#[test]
fn a_rehash_that_is_called(rt: HostRuntime) -> Result<(), Fail> {
    let mut table = Table::with_room(rt.alloc(), Direct, 25)?;
    load(&rt, &mut table);
    table.rehash();
    expect_kinds(&rt, &table, [25, 0, 7]);
    add(&rt, &mut table, 3200, 12);
    expect_sizes(&rt, &table, [26, 32, 25]);
    Ok(())
}
