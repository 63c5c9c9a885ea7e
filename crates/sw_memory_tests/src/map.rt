//! The map and the set without memory.
use crate::counted::Counted;
use crate::expected::{expect, expect_at};
use crate::loaded::{Keys, load};
use crate::numbers::{Call, Numbers, expect_as_values, insert_as_values, play};
use crate::starved::Starved;
use std::alloc::Global;
use std::cell::Cell;
use std::process::Abort;
use std::test::Fail;
use sw_flat::{Emplaced, FlatMap, FlatSet, Why};
use sw_probe::{Constant, Direct, Fnv1a, KeyHash, LowBits};

// A map of the keys 0 to 11 with room for twelve.
fn twelve<H: KeyHash<u64> + Drop>(
    rt: &impl Abort,
    alloc: Global,
    hasher: H,
) -> Result<Numbers<H>, Fail> {
    let mut map = FlatMap::with_room(alloc, hasher, 12)?;
    expect(rt, map.capacity(), 16);
    insert_as_values(rt, &mut map, 0..12);
    Ok(map)
}

// One thousand times a key is removed and a new one added.
fn take_turns<H: KeyHash<u64>>(rt: &impl Abort, map: &mut Numbers<H>) {
    for key in 0..1_000u64 {
        play(
            rt,
            map,
            &[Call::Erase(key), Call::Insert(key + 12, key + 12)],
        );
    }
}

// Two more are added, and then no other.
fn fill<H: KeyHash<u64>>(rt: &impl Abort, map: &mut Numbers<H>) {
    play(
        rt,
        map,
        &[
            Call::Sizes(12, 16),
            Call::Insert(1_012, 1_012),
            Call::Insert(1_013, 1_013),
            Call::Refused(1_014, 7),
            Call::Sizes(14, 16),
            Call::Present(1_013, 7),
            Call::Assign(1_013, 8, 1_013),
            Call::RefusedAssign(1_014, 8),
            Call::Reserve(13, Err(Why::Memory)),
            Call::Get(1_014, None),
            Call::Get(1_013, Some(8)),
        ],
    );
    expect_as_values(rt, map, 1_000..1_013);
}

fn crowd<H: KeyHash<u64> + Drop>(rt: &impl Abort, alloc: Global, hasher: H) -> Result<(), Fail> {
    let mut map = twelve(rt, alloc, hasher)?;
    let starved = Starved::new(rt, alloc)?;
    take_turns(rt, &mut map);
    fill(rt, &mut map);
    drop(starved);
    Ok(())
}

#[test]
fn entries_come_and_go_within_the_room(rt: HostRuntime) -> Result<(), Fail> {
    crowd(&rt, rt.alloc(), Fnv1a { seed: 0 })?;
    crowd(&rt, rt.alloc(), Constant(0))?;
    crowd(&rt, rt.alloc(), LowBits(7))?;
    crowd(&rt, rt.alloc(), Direct)
}

impl Keys for Numbers<Direct> {
    fn add(&mut self, key: u64, value: u64) -> bool {
        matches!(self.try_emplace(key, value), Ok(Emplaced::Inserted))
    }

    fn take(&mut self, key: u64) -> bool {
        self.erase(&key)
    }
}

// A map of 25 entries and three deleted bytes.
fn loaded(rt: &impl Abort, alloc: Global) -> Result<Numbers<Direct>, Fail> {
    let mut map = FlatMap::with_room(alloc, Direct, 25)?;
    expect(rt, map.capacity(), 32);
    load(rt, &mut map);
    Ok(map)
}

// Makes calls of a loaded map without memory.
fn play_loaded(rt: &impl Abort, alloc: Global, calls: &[Call]) -> Result<(), Fail> {
    let mut map = loaded(rt, alloc)?;
    let starved = Starved::new(rt, alloc)?;
    play(rt, &mut map, calls);
    drop(starved);
    Ok(())
}

#[test]
fn an_insertion_sweeps(rt: HostRuntime) -> Result<(), Fail> {
    play_loaded(
        &rt,
        rt.alloc(),
        &[
            Call::Refused(3200, 12),
            Call::Sizes(25, 32),
            Call::Erase(768),
            Call::Insert(3200, 12),
            Call::Sizes(25, 32),
        ],
    )
}

#[test]
fn a_rehash_that_is_called_makes_space(rt: HostRuntime) -> Result<(), Fail> {
    play_loaded(
        &rt,
        rt.alloc(),
        &[
            Call::Refused(3200, 12),
            Call::Rehash,
            Call::Insert(3200, 12),
            Call::Sizes(26, 32),
        ],
    )
}

// A merge of one entry fails, and succeeds once another was removed.
fn merge(rt: &impl Abort, map: &mut Numbers<Direct>, other: &mut Numbers<Direct>) {
    expect(rt, map.merge(other), Err(Why::Memory));
    expect(rt, (map.len(), other.len()), (25, 1));
    play(rt, map, &[Call::Erase(768)]);
    expect(rt, map.merge(other), Ok(()));
    play(rt, map, &[Call::Sizes(25, 32), Call::Get(3200, Some(12))]);
    expect(rt, other.is_empty(), true);
}

fn merge_without_memory(
    rt: &impl Abort,
    alloc: Global,
    map: &mut Numbers<Direct>,
) -> Result<(), Fail> {
    let mut other = FlatMap::new(alloc, Direct);
    play(rt, &mut other, &[Call::Insert(3200, 12)]);
    let starved = Starved::new(rt, alloc)?;
    merge(rt, map, &mut other);
    drop(starved);
    Ok(())
}

#[test]
fn a_merge_sweeps(rt: HostRuntime) -> Result<(), Fail> {
    let mut map = loaded(&rt, rt.alloc())?;
    merge_without_memory(&rt, rt.alloc(), &mut map)
}

// Keeps six of twelve entries.
fn keep_half(rt: &impl Abort, map: &mut Numbers<LowBits>) {
    map.retain(|key, _| *key >= 6);
    expect(rt, map.len(), 6);
    for key in 0..12u64 {
        expect_at(rt, key, map.contains(&key), key >= 6);
    }
}

fn compare_and_keep(rt: &impl Abort, map: &mut Numbers<LowBits>, other: &Numbers<LowBits>) {
    expect(rt, *map == *other, true);
    keep_half(rt, map);
    expect(rt, *map != *other, true);
}

#[test]
fn entries_that_do_not_stay_and_maps_that_are_compared(rt: HostRuntime) -> Result<(), Fail> {
    let mut map = twelve(&rt, rt.alloc(), LowBits(3))?;
    let other = twelve(&rt, rt.alloc(), LowBits(64))?;
    let starved = Starved::new(&rt, rt.alloc())?;
    compare_and_keep(&rt, &mut map, &other);
    drop(starved);
    Ok(())
}

// Returns the map, since no list is made without memory.
fn refused_list(map: Numbers<LowBits>) -> Result<Numbers<LowBits>, Fail> {
    match map.into_list() {
        Ok(_) => Err(Fail::from("a list without memory")),
        Err(back) => Ok(back),
    }
}

fn list_len(map: Numbers<LowBits>) -> Result<usize, Fail> {
    match map.into_list() {
        Ok(list) => Ok(list.len()),
        Err(_) => Err(Fail::from("no list with memory")),
    }
}

#[test]
fn a_map_comes_back_where_its_list_is_refused(rt: HostRuntime) -> Result<(), Fail> {
    let map = twelve(&rt, rt.alloc(), LowBits(3))?;
    let starved = Starved::new(&rt, rt.alloc())?;
    let back = refused_list(map)?;
    expect(&rt, back.len(), 12);
    expect_as_values(&rt, &back, 0..12);
    drop(starved);
    expect(&rt, list_len(back)?, 12);
    Ok(())
}

fn refuse_key(rt: &impl Abort, set: &mut FlatSet<u64, Direct>, key: u64) {
    let refused = set.insert(key);
    assert!(rt; matches!(refused, Err(back) if back.key == key && back.why == Why::Memory));
    expect(rt, set.is_empty(), true);
}

#[test]
fn a_set_hands_the_key_back(rt: HostRuntime) -> Result<(), Fail> {
    let starved = Starved::new(&rt, rt.alloc())?;
    let mut set = FlatSet::with_room(rt.alloc(), Direct, 0)?;
    refuse_key(&rt, &mut set, 9);
    drop(starved);
    assert!(rt; matches!(set.insert(9), Ok(true)));
    Ok(())
}

type CountedMap<'a> = FlatMap<u64, Counted<'a>, LowBits>;

fn fill_counted<'a>(rt: &impl Abort, map: &mut CountedMap<'a>, drops: &'a Cell<u64>) {
    for key in 0..14u64 {
        let added = map.try_emplace(key, Counted::new(drops));
        assert!(rt; matches!(added, Ok(Emplaced::Inserted)), "key {key}");
    }
}

// An entry too many is returned, and its value is dropped only with it.
fn refuse<'a>(rt: &impl Abort, map: &mut CountedMap<'a>, drops: &'a Cell<u64>) {
    let back = map.try_emplace(14, Counted::new(drops));
    assert!(rt; back.is_err(), "an entry too many");
    expect(rt, drops.get(), 0);
    drop(back);
    expect(rt, drops.get(), 1);
}

fn refuse_assign<'a>(rt: &impl Abort, map: &mut CountedMap<'a>, drops: &'a Cell<u64>) {
    let back = map.insert_or_assign(14, Counted::new(drops));
    assert!(rt; back.is_err(), "an entry too many");
    expect(rt, drops.get(), 1);
    drop(back);
    expect(rt, drops.get(), 2);
}

#[test]
fn refused_values_are_dropped_by_their_owner(rt: HostRuntime) -> Result<(), Fail> {
    let (kept, refused) = (Cell::new(0), Cell::new(0));
    let mut map = FlatMap::with_room(rt.alloc(), LowBits(2), 12)?;
    fill_counted(&rt, &mut map, &kept);
    let starved = Starved::new(&rt, rt.alloc())?;
    refuse(&rt, &mut map, &refused);
    refuse_assign(&rt, &mut map, &refused);
    expect(&rt, kept.get(), 0);
    drop(map);
    drop(starved);
    expect(&rt, (refused.get(), kept.get()), (2, 14));
    Ok(())
}
