//! Iterating, and draining entries one by one.
ghost use Rattle.sw_table.specs.Walks.{IsDraining};

use crate::expected::expect;
use crate::numbers::{Numbers, assigns};
use std::alloc::Global;
use std::process::Abort;
use std::test::Fail;
use sw_flat::{FlatMap, FlatSet, Walk};
use sw_probe::{Direct, Fnv1a, KeyHash};

// A map of keys to their doubles.
fn doubled<H: KeyHash<u64> + Drop>(
    rt: &impl Abort,
    alloc: Global,
    hasher: H,
    keys: u64,
) -> Numbers<H> {
    let mut map = FlatMap::new(alloc, hasher);
    for key in 0..keys {
        assert!(rt;
            assigns(&mut map, key, key.wrapping_mul(2), None),
            "key {key}"
        );
    }
    map
}

fn is_in(shape: u64, key: u64) -> bool {
    (shape >> (key % 64)) % 2 == 1
}

// Adds or removes the keys 0 to 13 by the bits of `shape`, and returns the entries that are then there.
fn reshape(
    rt: &impl Abort,
    alloc: Global,
    map: &mut Numbers<Direct>,
    shape: u64,
) -> Result<Vec<(u64, u64)>, Fail> {
    let mut wanted = Vec::new(alloc);
    for key in 0..14u64 {
        let value = key.wrapping_mul(2);
        if is_in(shape, key) {
            wanted.push((key, value))?;
        }
        if map.contains(&key) != is_in(shape, key) {
            assert!(rt;
                map.erase(&key) || assigns(map, key, value, None),
                "key {key}"
            );
        }
    }
    Ok(wanted)
}

fn expect_walked(
    rt: &impl Abort,
    alloc: Global,
    map: &Numbers<Direct>,
    wanted: &[(u64, u64)],
) -> Result<(), Fail> {
    expect(
        rt,
        map.iter().size_hint(),
        (wanted.len(), Some(wanted.len())),
    );
    expect(rt, map.keys().len(), wanted.len());
    let mut seen = Vec::new(alloc);
    for (key, value) in map {
        seen.push((*key, *value))?;
    }
    seen.sort()?;
    expect(rt, seen.as_slice(), wanted);
    Ok(())
}

// Under `Direct` the keys 0 to 13 are in the first slots of a table of sixteen, in order.
#[test]
fn each_shape_of_a_group_is_gone_over(rt: HostRuntime) -> Result<(), Fail> {
    let mut map = doubled(&rt, rt.alloc(), Direct, 14);
    expect(&rt, map.capacity(), 16);
    for shape in 0..1u64 << 14 {
        let wanted = reshape(&rt, rt.alloc(), &mut map, shape)?;
        expect_walked(&rt, rt.alloc(), &map, wanted.as_slice())?;
    }
    Ok(())
}

// Expects `due` keys, each with its double.
fn expect_doubled(rt: &impl Abort, map: &Numbers<Fnv1a>, due: u64) {
    let mut count = 0u64;
    for (key, value) in map.keys().zip(map.values()) {
        expect(rt, *value, key.wrapping_mul(2));
        count = count.wrapping_add(1);
    }
    expect(rt, count, due);
}

fn sum_of(set: &FlatSet<u64, Fnv1a>) -> u64 {
    let mut sum = 0u64;
    for key in set {
        sum = sum.wrapping_add(*key);
    }
    sum
}

#[test]
fn keys_and_values_come_side_by_side(rt: HostRuntime) {
    let map = doubled(&rt, rt.alloc(), Fnv1a { seed: 7 }, 1_000);
    expect_doubled(&rt, &map, 1_000);
    let mut set = FlatSet::new(rt.alloc(), Fnv1a { seed: 7 });
    for key in map.keys() {
        assert!(rt; matches!(set.insert(*key), Ok(true)));
    }
    expect(&rt, sum_of(&set), 499_500);
}

// At most `most` entries of a map, drained by a walk.
fn take<H: KeyHash<u64>>(
    alloc: Global,
    map: &mut Numbers<H>,
    walk: &mut Walk,
    most: usize,
) -> Result<Vec<(u64, u64)>, Fail>
    requires { IsDraining map.old walk.old }
    ensures { IsDraining map.new walk.new }
{
    let mut taken = Vec::new(alloc);
    'entries: for _ in 0..most {
        let Some(entry) = map.drain_next(walk) else {
            break;
        };
        taken.push(entry)?;
    }
    Ok(taken)
}

// Expects that drained entries are absent, and that each had its double.
fn expect_gone<H: KeyHash<u64>>(rt: &impl Abort, map: &Numbers<H>, taken: &[(u64, u64)]) {
    for (key, value) in taken {
        expect(rt, *value, key.wrapping_mul(2));
        assert!(rt; !map.contains(key));
    }
}

// Expects the keys 0 to 99 in two parts, each once.
fn expect_hundred(
    rt: &impl Abort,
    alloc: Global,
    first: &[(u64, u64)],
    second: &[(u64, u64)],
) -> Result<(), Fail> {
    let mut keys = Vec::new(alloc);
    for (key, _) in first.iter().chain(second.iter()) {
        keys.push(*key)?;
    }
    keys.sort()?;
    expect(rt, keys.len(), 100);
    for (key, wanted) in keys.iter().zip(0..100u64) {
        expect(rt, *key, wanted);
    }
    Ok(())
}

// Expects that drained entries are absent and all others there, and at the end that the slots are empty.
fn drain<H: KeyHash<u64>>(
    rt: &impl Abort,
    alloc: Global,
    map: &mut Numbers<H>,
) -> Result<(), Fail> {
    let mut walk = map.walk();
    let first = take(alloc, map, &mut walk, 40)?;
    expect(rt, (first.len(), map.len()), (40, 60));
    expect_gone(rt, map, first.as_slice());
    let second = take(alloc, map, &mut walk, 1_000)?;
    expect(rt, (second.len(), map.len()), (60, 0));
    expect_gone(rt, map, second.as_slice());
    expect_hundred(rt, alloc, first.as_slice(), second.as_slice())
}

fn drain_in_parts<H: KeyHash<u64> + Drop>(
    rt: &impl Abort,
    alloc: Global,
    hasher: H,
) -> Result<(), Fail> {
    let mut map = doubled(rt, alloc, hasher, 100);
    let capacity = map.capacity();
    drain(rt, alloc, &mut map)?;
    assert!(rt; map.is_empty());
    expect(rt, map.capacity(), capacity);
    assert!(rt; assigns(&mut map, 7, 7, None));
    expect(rt, map.len(), 1);
    Ok(())
}

#[test]
fn entries_leave_one_by_one(rt: HostRuntime) -> Result<(), Fail> {
    drain_in_parts(&rt, rt.alloc(), Fnv1a { seed: 0 })?;
    drain_in_parts(&rt, rt.alloc(), Direct)
}
