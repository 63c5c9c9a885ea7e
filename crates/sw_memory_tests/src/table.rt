//! The table without memory.
use crate::counted::Counted;
use crate::expected::{expect, expect_at};
use crate::loaded::{FIRST, Keys, LATER, SECOND, load};
use crate::starved::Starved;
use std::alloc::Global;
use std::cell::Cell;
use std::process::Abort;
use std::test::Fail;
use sw_probe::{Constant, Direct, Fnv1a, KeyHash, LowBits};
use sw_table::{Table, Why};

type Numbers<H> = Table<u64, u64, H>;

fn adds<H: KeyHash<u64>>(table: &mut Numbers<H>, key: u64, value: u64) -> bool {
    table.find(&key).is_none() && table.place(key, value).is_ok()
}

// Adds a key that is new.
fn add<H: KeyHash<u64>>(rt: &impl Abort, table: &mut Numbers<H>, key: u64, value: u64) {
    assert!(rt; adds(table, key, value), "key {key}");
}

// Whether a key is new, and is returned with its value, since memory is refused.
fn refuses<H: KeyHash<u64>>(table: &mut Numbers<H>, key: u64, value: u64) -> bool {
    if table.find(&key).is_some() {
        return false;
    }
    match table.place(key, value) {
        Err(back) => back.key == key && back.value == value && back.why == Why::Memory,
        Ok(_) => false,
    }
}

fn refuse<H: KeyHash<u64>>(rt: &impl Abort, table: &mut Numbers<H>, key: u64, value: u64) {
    assert!(rt; refuses(table, key, value), "key {key}");
}

fn take<H: KeyHash<u64>>(table: &mut Numbers<H>, key: u64) -> Option<(u64, u64)> {
    let slot = table.find(&key)?;
    Some(table.remove(slot))
}

fn value_of<H: KeyHash<u64>>(table: &Numbers<H>, key: u64) -> Option<u64> {
    let slot = table.find(&key)?;
    Some(*table.at(slot).1)
}

// Expects these numbers of entries and of slots.
fn expect_sizes<H: KeyHash<u64>>(rt: &impl Abort, table: &Numbers<H>, due: [usize; 2]) {
    expect(rt, [table.len(), table.capacity()], due);
}

// A table of the keys 0 to 11 with room for twelve.
fn twelve<H: KeyHash<u64> + Drop>(
    rt: &impl Abort,
    alloc: Global,
    hasher: H,
) -> Result<Numbers<H>, Fail> {
    let mut table = Table::with_room(alloc, hasher, 12)?;
    expect(rt, table.capacity(), 16);
    for key in 0..12u64 {
        add(rt, &mut table, key, key);
    }
    Ok(table)
}

// One thousand times a key is removed and a new one added.
fn take_turns<H: KeyHash<u64>>(rt: &impl Abort, table: &mut Numbers<H>) {
    for key in 0..1_000u64 {
        expect_at(rt, key, take(table, key), Some((key, key)));
        add(rt, table, key + 12, key + 12);
    }
}

// Two more are added, and then no other.
fn fill<H: KeyHash<u64>>(rt: &impl Abort, table: &mut Numbers<H>) {
    expect(rt, table.len(), 12);
    for key in [1_012, 1_013] {
        add(rt, table, key, key);
    }
    refuse(rt, table, 1_014, 7);
    expect_sizes(rt, table, [14, 16]);
    expect(rt, table.reserve(13), Err(Why::Memory));
    expect(rt, table.reserve(12), Ok(()));
    expect(rt, value_of(table, 1_014), None);
    for key in 1_000..1_014u64 {
        expect_at(rt, key, value_of(table, key), Some(key));
    }
}

fn crowd<H: KeyHash<u64> + Drop>(rt: &impl Abort, alloc: Global, hasher: H) -> Result<(), Fail> {
    let mut table = twelve(rt, alloc, hasher)?;
    let starved = Starved::new(rt, alloc)?;
    take_turns(rt, &mut table);
    fill(rt, &mut table);
    drop(starved);
    Ok(())
}

#[test]
fn entries_come_and_go_within_the_room(rt: HostRuntime) -> Result<(), Fail> {
    crowd(&rt, rt.alloc(), Fnv1a { seed: 0 })?;
    crowd(&rt, rt.alloc(), Constant(0))?;
    crowd(&rt, rt.alloc(), LowBits(7))?;
    crowd(&rt, rt.alloc(), Direct)
}

impl Keys for Numbers<Direct> {
    fn add(&mut self, key: u64, value: u64) -> bool {
        adds(self, key, value)
    }

    fn take(&mut self, key: u64) -> bool {
        take(self, key) == Some((key, key / 256))
    }
}

// A table of 25 entries and three deleted bytes.
fn loaded(rt: &impl Abort, alloc: Global) -> Result<Numbers<Direct>, Fail> {
    let mut table = Table::with_room(alloc, Direct, 25)?;
    expect(rt, table.capacity(), 32);
    load(rt, &mut table);
    Ok(table)
}

// Expects each of these keys n, with the value n / 256.
fn expect_held(rt: &impl Abort, table: &Numbers<Direct>, keys: &[u64]) {
    for key in keys {
        expect_at(rt, *key, value_of(table, *key), Some(*key / 256));
    }
}

// An entry is added only after another was removed.
fn sweep(rt: &impl Abort, table: &mut Numbers<Direct>) {
    refuse(rt, table, 3200, 12);
    expect(rt, table.len(), 25);
    expect(rt, take(table, 768), Some((768, 3)));
    add(rt, table, 3200, 12);
    expect_sizes(rt, table, [25, 32]);
    expect_held(rt, table, &FIRST[4..]);
    expect_held(rt, table, &SECOND);
    expect_held(rt, table, &LATER);
    expect_held(rt, table, &[3200]);
}

#[test]
fn deleted_bytes_are_swept_without_memory(rt: HostRuntime) -> Result<(), Fail> {
    let mut table = loaded(&rt, rt.alloc())?;
    let starved = Starved::new(&rt, rt.alloc())?;
    sweep(&rt, &mut table);
    drop(starved);
    Ok(())
}

fn rehash(rt: &impl Abort, table: &mut Numbers<Direct>) {
    refuse(rt, table, 3200, 12);
    table.rehash();
    add(rt, table, 3200, 12);
    expect_sizes(rt, table, [26, 32]);
}

#[test]
fn a_rehash_that_is_called_makes_space(rt: HostRuntime) -> Result<(), Fail> {
    let mut table = loaded(&rt, rt.alloc())?;
    let starved = Starved::new(&rt, rt.alloc())?;
    rehash(&rt, &mut table);
    drop(starved);
    Ok(())
}

// Calls of a table without slots.
fn use_none(rt: &impl Abort, table: &mut Numbers<Direct>) {
    expect(rt, value_of(table, 1), None);
    refuse(rt, table, 1, 2);
    expect(rt, table.reserve(1), Err(Why::Memory));
    expect(rt, table.reserve(209_715_201), Err(Why::Limit));
    table.rehash();
    table.clear();
    expect(rt, table.capacity(), 0);
}

fn makes_none(alloc: Global) -> bool {
    let made: Result<Numbers<Direct>, Why> = Table::with_room(alloc, Direct, 1);
    matches!(made, Err(Why::Memory))
}

#[test]
fn a_table_of_no_slots(rt: HostRuntime) -> Result<(), Fail> {
    let starved = Starved::new(&rt, rt.alloc())?;
    let mut table = Table::with_room(rt.alloc(), Direct, 0)?;
    use_none(&rt, &mut table);
    expect(&rt, makes_none(rt.alloc()), true);
    drop(starved);
    Ok(())
}

type CountedTable<'a> = Table<u64, Counted<'a>, Direct>;

fn fill_counted<'a>(rt: &impl Abort, table: &mut CountedTable<'a>, drops: &'a Cell<u64>) {
    for key in 0..14u64 {
        if table.find(&key).is_none() {
            assert!(rt; table.place(key, Counted::new(drops)).is_ok(), "key {key}");
        }
    }
}

// An entry too many is returned, and its value is dropped only with it.
fn refuse_counted<'a>(rt: &impl Abort, table: &mut CountedTable<'a>, drops: &'a Cell<u64>) {
    assert!(rt; table.find(&14).is_none());
    let back = table.place(14, Counted::new(drops));
    assert!(rt; back.is_err(), "an entry too many");
    expect(rt, drops.get(), 0);
    drop(back);
    expect(rt, drops.get(), 1);
}

#[test]
fn a_refused_value_is_dropped_by_its_owner(rt: HostRuntime) -> Result<(), Fail> {
    let (kept, refused) = (Cell::new(0), Cell::new(0));
    let mut table = Table::with_room(rt.alloc(), Direct, 12)?;
    fill_counted(&rt, &mut table, &kept);
    let starved = Starved::new(&rt, rt.alloc())?;
    refuse_counted(&rt, &mut table, &refused);
    expect(&rt, kept.get(), 0);
    drop(table);
    drop(starved);
    expect(&rt, (refused.get(), kept.get()), (1, 14));
    Ok(())
}
