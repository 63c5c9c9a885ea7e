//! A map that is loaded with entries and deleted bytes.
use crate::expected::{expect, expect_at};
use crate::loaded::{FIRST, Keys, LATER, SECOND, expect_kinds, load};
use crate::numbers::{Call, Numbers, play};
use std::alloc::Global;
use std::process::Abort;
use std::test::Fail;
use sw_flat::{Emplaced, FlatMap};
use sw_probe::Direct;
use sw_table::Table;

impl Keys for Numbers<Direct> {
    type Value = u64;

    fn add(&mut self, key: u64, value: u64) -> bool {
        matches!(self.try_emplace(key, value), Ok(Emplaced::Inserted))
    }

    fn take(&mut self, key: u64) -> bool {
        self.erase(&key)
    }

    fn table(&self) -> &Table<u64, u64, Direct> {
        FlatMap::table(self)
    }
}

// A map of 25 entries and three deleted bytes.
fn loaded(rt: &impl Abort, alloc: Global) -> Result<Numbers<Direct>, Fail> {
    let mut map = FlatMap::with_room(alloc, Direct, 25)?;
    expect(rt, map.capacity(), 32);
    load(rt, &mut map);
    Ok(map)
}

// Expects the map's contents after 768 was removed and 3200 added.
fn expect_all(rt: &impl Abort, map: &Numbers<Direct>) {
    expect_held(rt, map, &FIRST[4..]);
    expect_held(rt, map, &SECOND);
    expect_held(rt, map, &LATER);
    expect_held(rt, map, &[3200]);
    expect(rt, map.len(), 25);
}

fn expect_held(rt: &impl Abort, map: &Numbers<Direct>, keys: &[u64]) {
    for key in keys {
        expect_at(rt, *key, map.get(key).copied(), Some(*key / 256));
    }
}

#[test]
fn an_insertion_sweeps(rt: HostRuntime) -> Result<(), Fail> {
    let mut map = loaded(&rt, rt.alloc())?;
    play(
        &rt,
        &mut map,
        &[
            Call::Erase(768, true),
            Call::Insert(3200, 12),
            Call::Sizes(25, 32, 25),
        ],
    );
    expect_kinds(&rt, &map, [25, 0, 7]);
    expect_all(&rt, &map);
    Ok(())
}

#[test]
fn a_merge_sweeps(rt: HostRuntime) -> Result<(), Fail> {
    let mut map = loaded(&rt, rt.alloc())?;
    let mut other: Numbers<Direct> = FlatMap::new(rt.alloc(), Direct);
    play(&rt, &mut map, &[Call::Erase(768, true)]);
    play(&rt, &mut other, &[Call::Insert(3200, 12)]);
    map.merge(&mut other)?;
    expect(&rt, map.capacity(), 32);
    expect(&rt, other.is_empty(), true);
    expect_all(&rt, &map);
    Ok(())
}

#[test]
fn a_rehash_that_is_called_sweeps(rt: HostRuntime) -> Result<(), Fail> {
    let mut map = loaded(&rt, rt.alloc())?;
    map.rehash();
    expect_kinds(&rt, &map, [25, 0, 7]);
    play(
        &rt,
        &mut map,
        &[Call::Insert(3200, 12), Call::Sizes(26, 32, 25)],
    );
    Ok(())
}

#[test]
fn with_no_entry_to_lose_it_grows(rt: HostRuntime) -> Result<(), Fail> {
    let mut map = loaded(&rt, rt.alloc())?;
    play(
        &rt,
        &mut map,
        &[Call::Insert(3200, 12), Call::Sizes(26, 64, 50)],
    );
    expect_kinds(&rt, &map, [26, 0, 38]);
    Ok(())
}
