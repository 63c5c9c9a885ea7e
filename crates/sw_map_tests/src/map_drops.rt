//! A map drops what it holds exactly once.
use crate::counted::{Counted, CountedKey, Counters, Number};
use crate::expected::expect;
use std::ops::Range;
use std::process::Abort;
use std::test::Fail;
use sw_flat::{Emplaced, FlatMap};
use sw_probe::LowBits;

pub(crate) type CountedMap<'a> = FlatMap<CountedKey<'a>, Counted<'a>, LowBits>;

// From all keys in one chain to all keys apart.
pub(crate) const BITS: [u32; 3] = [0, 8, 64];

// Adds the entry of a number, which counts in the cells of `id`.
fn add<'a>(
    rt: &impl Abort,
    map: &mut CountedMap<'a>,
    counters: &'a Counters,
    number: u64,
    id: usize,
) {
    let added = map.try_emplace(counters.key(rt, number, id), counters.value(rt, id));
    assert!(rt; matches!(added, Ok(Emplaced::Inserted)), "{id}");
}

/// Adds entries that count in these cells, with the numbers from `first` on.
pub(crate) fn add_each<'a>(
    rt: &impl Abort,
    map: &mut CountedMap<'a>,
    counters: &'a Counters,
    ids: Range<usize>,
    first: u64,
) {
    let mut number = first;
    for id in ids {
        add(rt, map, counters, number, id);
        number = number.wrapping_add(1);
    }
}

fn erase(rt: &impl Abort, map: &mut CountedMap, counters: &Counters, id: usize) {
    assert!(rt; map.erase(&Number(id as u64)), "{id}");
    counters.expect(rt, id, (1, 1));
}

// What is extracted is dropped only when the caller drops it.
fn extract(rt: &impl Abort, map: &mut CountedMap, counters: &Counters, id: usize) {
    let taken = map.extract(&Number(id as u64));
    assert!(rt; taken.is_some(), "{id}");
    counters.expect(rt, id, (0, 0));
    drop(taken);
    counters.expect(rt, id, (1, 1));
}

// Of sixty entries, twenty are erased, twenty extracted and twenty cleared.
fn erase_and_extract<'a>(
    rt: &impl Abort,
    map: &mut CountedMap<'a>,
    counters: &'a Counters,
) -> Result<(), Fail> {
    add_each(rt, map, counters, 0..60, 0);
    for id in 0..20usize {
        erase(rt, map, counters, id);
    }
    for id in 20..40usize {
        extract(rt, map, counters, id);
    }
    map.rehash();
    map.reserve(500)?;
    counters.expect_each(rt, 40..60, (0, 0));
    map.clear();
    counters.expect_all(rt, 1);
    Ok(())
}

#[test]
fn erased_and_extracted_once(rt: HostRuntime) -> Result<(), Fail> {
    for bits in BITS {
        let counters = Counters::new(rt.alloc(), 60)?;
        let mut map = FlatMap::new(rt.alloc(), LowBits(bits));
        erase_and_extract(&rt, &mut map, &counters)?;
        drop(map);
        counters.expect_all(&rt, 1);
    }
    Ok(())
}

// Assigns a new value to the number of `id`, which counts thirty cells on, and returns the old one.
fn replace<'a>(rt: &impl Abort, map: &mut CountedMap<'a>, counters: &'a Counters, id: usize) {
    let new = id.wrapping_add(30);
    let replaced = map.insert_or_assign(counters.key(rt, id as u64, new), counters.value(rt, new));
    assert!(rt; matches!(&replaced, Ok(Some(_))), "{id}");
    counters.expect(rt, id, (0, 0));
    counters.expect(rt, new, (1, 0));
    drop(replaced);
    counters.expect(rt, id, (0, 1));
}

#[test]
fn a_value_replaced_is_handed_out(rt: HostRuntime) -> Result<(), Fail> {
    for bits in BITS {
        let counters = Counters::new(rt.alloc(), 60)?;
        let mut map = FlatMap::new(rt.alloc(), LowBits(bits));
        add_each(&rt, &mut map, &counters, 0..30, 0);
        for id in 0..30usize {
            replace(&rt, &mut map, &counters, id);
        }
        drop(map);
        counters.expect_all(&rt, 1);
    }
    Ok(())
}

fn emplace_again<'a>(rt: &impl Abort, map: &mut CountedMap<'a>, counters: &'a Counters) {
    let back = map.try_emplace(counters.key(rt, 5, 1), counters.value(rt, 1));
    assert!(rt; matches!(&back, Ok(Emplaced::Present(_, _))));
    counters.expect(rt, 1, (0, 0));
    drop(back);
    counters.expect(rt, 1, (1, 1));
}

#[test]
fn arguments_come_back(rt: HostRuntime) -> Result<(), Fail> {
    for bits in BITS {
        let counters = Counters::new(rt.alloc(), 2)?;
        let mut map = FlatMap::new(rt.alloc(), LowBits(bits));
        add(&rt, &mut map, &counters, 5, 0);
        emplace_again(&rt, &mut map, &counters);
        drop(map);
        counters.expect_all(&rt, 1);
    }
    Ok(())
}

// Both maps have entries of their own for the numbers 20 to 29.
fn merge<'a>(
    rt: &impl Abort,
    one: &mut CountedMap<'a>,
    mut other: CountedMap<'a>,
    counters: &'a Counters,
) -> Result<(), Fail> {
    add_each(rt, one, counters, 0..30, 0);
    add_each(rt, &mut other, counters, 30..60, 20);
    one.merge(&mut other)?;
    counters.expect_all(rt, 0);
    expect(rt, (one.len(), other.len()), (50, 10));
    Ok(())
}

#[test]
fn merged_once(rt: HostRuntime) -> Result<(), Fail> {
    for bits in BITS {
        let counters = Counters::new(rt.alloc(), 60)?;
        let mut one = FlatMap::new(rt.alloc(), LowBits(bits));
        merge(
            &rt,
            &mut one,
            FlatMap::new(rt.alloc(), LowBits(64)),
            &counters,
        )?;
        counters.expect_each(&rt, 0..30, (0, 0));
        counters.expect_each(&rt, 30..40, (1, 1));
        counters.expect_each(&rt, 40..60, (0, 0));
        drop(one);
        counters.expect_all(&rt, 1);
    }
    Ok(())
}

fn list(rt: &impl Abort, map: CountedMap, counters: &Counters) -> Result<(), Fail> {
    let Ok(list) = map.into_list() else {
        return Err(Fail::from("no memory"));
    };
    expect(rt, list.len(), 60);
    counters.expect_all(rt, 0);
    Ok(())
}

#[test]
fn listed_once(rt: HostRuntime) -> Result<(), Fail> {
    for bits in BITS {
        let counters = Counters::new(rt.alloc(), 60)?;
        let mut map = FlatMap::with_room(rt.alloc(), LowBits(bits), 60)?;
        add_each(&rt, &mut map, &counters, 0..60, 0);
        list(&rt, map, &counters)?;
        counters.expect_all(&rt, 1);
    }
    Ok(())
}
