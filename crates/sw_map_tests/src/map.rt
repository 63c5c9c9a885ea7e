//! The map.
use crate::counted::Asked;
use crate::expected::{expect, expect_at};
use crate::loaded::byte_of;
use crate::numbers::{Call, Numbers, expect_entries, expect_list, insert_each, map_of, play};
use std::alloc::Global;
use std::cell::Cell;
use std::process::Abort;
use std::test::Fail;
use sw_flat::{Emplaced, FlatMap, Why};
use sw_probe::{ByteKey, Constant, Direct, Fnv1a, KeyHash, LowBits};

type Words = FlatMap<Vec<u8>, u64, Fnv1a>;

// The key 2 is in both maps, and 3 only in the other.
fn merge(
    rt: &impl Abort,
    alloc: Global,
    one: &mut Numbers<Fnv1a>,
    mut other: Numbers<Fnv1a>,
) -> Result<(), Fail> {
    one.merge(&mut other)?;
    expect_entries(rt, alloc, one, &[(1, 10), (2, 20), (3, 30)])?;
    expect_entries(rt, alloc, &other, &[(2, 21)])
}

#[test]
fn each_call_of_a_small_map(rt: HostRuntime) -> Result<(), Fail> {
    let (alloc, hasher) = (rt.alloc(), Fnv1a { seed: 0 });
    let mut one = map_of(&rt, alloc, hasher, &[(1, 10), (2, 20)]);
    let other = map_of(&rt, alloc, hasher, &[(2, 21), (3, 30)]);
    merge(&rt, alloc, &mut one, other)?;
    play(
        &rt,
        &mut one,
        &[
            Call::Present(2, 99),
            Call::Assign(2, 22, Some(20)),
            Call::Extract(1, Some((1, 10))),
            Call::Erase(1, false),
        ],
    );
    expect_list(&rt, one, &[(2, 22), (3, 30)])
}

/// The example in the head of the map's crate.
#[test]
fn the_example_of_the_stock(rt: HostRuntime) -> Result<(), Fail> {
    let mut stock = FlatMap::with_room(rt.alloc(), Fnv1a { seed: 0 }, 12)?;
    play(
        &rt,
        &mut stock,
        &[
            Call::Sizes(0, 16, 12),
            Call::Insert(7, 70),
            Call::Present(7, 71),
            Call::Assign(7, 72, Some(70)),
            Call::Get(7, Some(72)),
            Call::Extract(7, Some((7, 72))),
            Call::Erase(7, false),
        ],
    );
    expect_list(&rt, stock, &[])
}

#[test]
fn a_map_of_no_slots(rt: HostRuntime) -> Result<(), Fail> {
    let mut map = FlatMap::with_room(rt.alloc(), Fnv1a { seed: 0 }, 0)?;
    play(
        &rt,
        &mut map,
        &[
            Call::Sizes(0, 0, 0),
            Call::Get(5, None),
            Call::Erase(5, false),
            Call::Rehash,
            Call::Clear,
            Call::Reserve(1, Ok(())),
            Call::Sizes(0, 16, 12),
            Call::Insert(5, 6),
            Call::Sizes(1, 16, 12),
        ],
    );
    Ok(())
}

#[test]
fn an_empty_map_as_a_list(rt: HostRuntime) -> Result<(), Fail> {
    let map: Numbers<Direct> = FlatMap::new(rt.alloc(), Direct);
    expect_list(&rt, map, &[])
}

// Looks a number up, and expects how often it is compared.
fn ask(rt: &impl Abort, map: &Numbers<Direct>, number: u64, there: bool, times: u64) {
    let compared = Cell::new(0);
    let asked = Asked {
        number,
        compared: &compared,
    };
    expect_at(rt, number, map.contains(&asked), there);
    expect_at(rt, number, compared.get(), times);
}

#[test]
fn keys_are_compared_where_their_bytes_are_equal(rt: HostRuntime) {
    let mut map: Numbers<Direct> = FlatMap::new(rt.alloc(), Direct);
    insert_each(&rt, &mut map, 0, 12);
    expect(&rt, map.capacity(), 16);
    for (i, byte) in [(3, 0x03), (12, 0x80)] {
        expect_at(&rt, i as u64, byte_of(map.table(), i), Some(byte));
    }
    for (number, there, times) in [(12, false, 0), (3, true, 1), (131, false, 1)] {
        ask(&rt, &map, number, there, times);
    }
}

// Writes a value, and returns whether the key was there.
fn writes(map: &mut Numbers<LowBits>, key: u64, value: u64) -> bool {
    match map.get_mut(&key) {
        Some(held) => {
            *held = value;
            true
        }
        None => false,
    }
}

#[test]
fn a_value_written_in_place(rt: HostRuntime) -> Result<(), Fail> {
    let alloc = rt.alloc();
    let mut map = map_of(&rt, alloc, LowBits(3), &[(1, 10), (2, 20), (3, 30)]);
    assert!(rt; writes(&mut map, 2, 25));
    assert!(rt; !writes(&mut map, 4, 25));
    expect_entries(&rt, alloc, &map, &[(1, 10), (2, 25), (3, 30)])
}

// Erases the even ones of forty keys.
fn erase_even<H: KeyHash<u64>>(rt: &impl Abort, map: &mut Numbers<H>) {
    for half in 0..20u64 {
        expect_at(rt, half, map.erase(&(2 * half)), true);
    }
    for key in 0..40u64 {
        let due = if key % 2 == 0 { None } else { Some(key) };
        expect_at(rt, key, map.get(&key).copied(), due);
    }
}

// The keys that remain: the odd ones, and twenty others.
fn odd_and_others(alloc: Global) -> Result<Vec<(u64, u64)>, Fail> {
    let mut due = Vec::new(alloc);
    for key in 0..120u64 {
        if key >= 100 || key < 40 && key % 2 == 1 {
            due.push((key, key))?;
        }
    }
    Ok(due)
}

// Adds forty keys, erases the even ones, and adds twenty others.
fn forty<H: KeyHash<u64> + Drop>(rt: &impl Abort, alloc: Global, hasher: H) -> Result<(), Fail> {
    let mut map = FlatMap::new(alloc, hasher);
    insert_each(rt, &mut map, 0, 40);
    erase_even(rt, &mut map);
    insert_each(rt, &mut map, 100, 120);
    let due = odd_and_others(alloc)?;
    expect_forty(rt, alloc, &map, due.as_slice())?;
    map.rehash();
    expect_forty(rt, alloc, &map, due.as_slice())
}

fn expect_forty<H: KeyHash<u64>>(
    rt: &impl Abort,
    alloc: Global,
    map: &Numbers<H>,
    due: &[(u64, u64)],
) -> Result<(), Fail> {
    expect(rt, (map.len(), map.capacity()), (40, 64));
    expect_entries(rt, alloc, map, due)
}

#[test]
fn forty_keys_under_hashes_that_clash(rt: HostRuntime) -> Result<(), Fail> {
    forty(&rt, rt.alloc(), Constant(0))?;
    forty(&rt, rt.alloc(), Constant(u64::MAX))?;
    forty(&rt, rt.alloc(), LowBits(7))?;
    forty(&rt, rt.alloc(), LowBits(0))?;
    forty(&rt, rt.alloc(), Direct)
}

// Adds a word, or returns the arguments if it is there.
fn emplace(map: &mut Words, key: Vec<u8>, value: u64) -> Result<Option<(Vec<u8>, u64)>, Fail> {
    match map.try_emplace(key, value) {
        Ok(Emplaced::Present(key, value)) => Ok(Some((key, value))),
        Ok(Emplaced::Inserted) => Ok(None),
        Err(_) => Err(Fail::from("no memory")),
    }
}

// The word "ab" is new.
fn emplace_new(rt: &impl Abort, map: &mut Words, word: Vec<u8>) -> Result<(), Fail> {
    let back = emplace(map, word, 1)?;
    expect(rt, back.is_none(), true);
    expect(rt, map.get(&ByteKey(b"ab")).copied(), Some(1));
    expect(rt, map.get(&ByteKey(b"a")).copied(), None);
    Ok(())
}

// The word "ab" is there: the arguments are returned, and the value stays.
fn emplace_again(rt: &impl Abort, map: &mut Words, word: Vec<u8>) -> Result<(), Fail> {
    expect(rt, map.contains(&word), true);
    let back = emplace(map, word, 2)?;
    assert!(rt; matches!(&back, Some((key, 2)) if key.as_slice() == b"ab".as_slice()));
    expect(rt, map.get(&ByteKey(b"ab")).copied(), Some(1));
    Ok(())
}

#[test]
fn byte_strings_by_their_borrowed_form(rt: HostRuntime) -> Result<(), Fail> {
    let alloc = rt.alloc();
    let mut map: Words = FlatMap::new(alloc, Fnv1a { seed: 7 });
    emplace_new(&rt, &mut map, Vec::from_slice(alloc, b"ab")?)?;
    emplace_again(&rt, &mut map, Vec::from_slice(alloc, b"ab")?)?;
    expect(&rt, map.erase(&ByteKey(b"ab")), true);
    expect(&rt, map.is_empty(), true);
    Ok(())
}

#[test]
fn past_the_greatest_capacity(rt: HostRuntime) {
    let mut map: Numbers<Direct> = FlatMap::new(rt.alloc(), Direct);
    play(
        &rt,
        &mut map,
        &[Call::Reserve(209_715_201, Err(Why::Limit))],
    );
    let made: Result<Numbers<Direct>, Why> = FlatMap::with_room(rt.alloc(), Direct, 209_715_201);
    assert!(rt; matches!(made, Err(Why::Limit)));
}
