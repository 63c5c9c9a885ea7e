//! Comparing and formatting maps and sets.
use crate::expected::expect;
use crate::numbers::{Call, Numbers, map_of, play};
use std::alloc::Global;
use std::fmt::Debug;
use std::process::Abort;
use std::test::Fail;
use sw_flat::{FlatMap, FlatSet};
use sw_probe::{Constant, Direct, Fnv1a, KeyHash, LowBits};

// Expects that two maps are equal, or unequal, from either side.
fn expect_equal<H: KeyHash<u64>>(rt: &impl Abort, one: &Numbers<H>, other: &Numbers<H>, due: bool) {
    assert!(rt; (*one == *other) == due);
    assert!(rt; (*other != *one) != due);
}

// Equal whatever the order, the seed and earlier calls; unequal by a value, a key or a size.
#[test]
fn maps(rt: HostRuntime) {
    let alloc = rt.alloc();
    let one = map_of(&rt, alloc, Fnv1a { seed: 0 }, &[(1, 10), (2, 20), (3, 30)]);
    let mut other = map_of(
        &rt,
        alloc,
        Fnv1a { seed: 9 },
        &[(3, 30), (4, 40), (1, 10), (2, 20)],
    );
    expect_equal(&rt, &one, &other, false);
    for (call, due) in [
        (Call::Erase(4, true), true),
        (Call::Reserve(1_000, Ok(())), true),
        (Call::Assign(2, 21, Some(20)), false),
    ] {
        play(&rt, &mut other, &[call]);
        expect_equal(&rt, &one, &other, due);
    }
}

#[test]
fn maps_of_other_keys(rt: HostRuntime) {
    let alloc = rt.alloc();
    let one = map_of(&rt, alloc, Fnv1a { seed: 0 }, &[(1, 10), (2, 20), (3, 30)]);
    let third = map_of(&rt, alloc, Fnv1a { seed: 0 }, &[(1, 10), (2, 20), (5, 30)]);
    let none = FlatMap::new(alloc, Fnv1a { seed: 3 });
    expect_equal(&rt, &one, &third, false);
    expect_equal(&rt, &none, &one, false);
    expect_equal(
        &rt,
        &none,
        &map_of(&rt, alloc, Fnv1a { seed: 4 }, &[]),
        true,
    );
}

#[test]
fn maps_of_keys_that_hash_alike(rt: HostRuntime) {
    let alloc = rt.alloc();
    let one = map_of(&rt, alloc, Constant(0), &[(1, 10), (2, 20), (3, 30)]);
    let other = map_of(&rt, alloc, Constant(5), &[(3, 30), (2, 20), (1, 10)]);
    expect_equal(&rt, &one, &other, true);
}

#[test]
fn maps_of_keys_that_have_few_hashes(rt: HostRuntime) {
    let alloc = rt.alloc();
    let low = map_of(&rt, alloc, LowBits(0), &[(1, 10), (2, 20)]);
    let same = map_of(&rt, alloc, LowBits(7), &[(2, 20), (1, 10)]);
    let swapped = map_of(&rt, alloc, LowBits(7), &[(2, 10), (1, 20)]);
    expect_equal(&rt, &low, &same, true);
    expect_equal(&rt, &low, &swapped, false);
}

fn set_of(rt: &impl Abort, alloc: Global, seed: u64, keys: &[u64]) -> FlatSet<u64, Fnv1a> {
    let mut set = FlatSet::new(alloc, Fnv1a { seed });
    for key in keys {
        assert!(rt; matches!(set.insert(*key), Ok(true)), "{key}");
    }
    set
}

// Whether two sets are equal; both sides must agree.
fn are_equal(rt: &impl Abort, one: &FlatSet<u64, Fnv1a>, other: &FlatSet<u64, Fnv1a>) -> bool {
    let equal = *one == *other;
    assert!(rt; (*other != *one) != equal);
    equal
}

// Expects that the sets of these keys, the second under another seed, are equal, or unequal.
fn expect_equal_sets(rt: &impl Abort, alloc: Global, seed: u64, keys: [&[u64]; 2], due: bool) {
    let one = set_of(rt, alloc, seed, keys[0]);
    let other = set_of(rt, alloc, seed.wrapping_add(1), keys[1]);
    expect(rt, are_equal(rt, &one, &other), due);
}

#[test]
fn sets(rt: HostRuntime) {
    let alloc = rt.alloc();
    expect_equal_sets(&rt, alloc, 0, [&[1, 2, 3], &[3, 1, 2]], true);
    expect_equal_sets(&rt, alloc, 0, [&[1, 2, 3], &[3, 1, 4]], false);
    expect_equal_sets(&rt, alloc, 0, [&[1, 2, 3], &[3, 1]], false);
    expect_equal_sets(&rt, alloc, 1, [&[], &[]], true);
}

// Expects the text of a value, on one line.
fn expect_text<T: Debug>(rt: &impl Abort, alloc: Global, shown: &T, due: &str) -> Result<(), Fail> {
    let text = format!(in alloc; "{shown:?}")?;
    expect(rt, text.as_str(), due);
    Ok(())
}

fn expect_lines<T: Debug>(
    rt: &impl Abort,
    alloc: Global,
    shown: &T,
    due: &str,
) -> Result<(), Fail> {
    let lines = format!(in alloc; "{shown:#?}")?;
    expect(rt, lines.as_str(), due);
    Ok(())
}

// Under `Direct` small keys are in slot order.
#[test]
fn as_text(rt: HostRuntime) -> Result<(), Fail> {
    let alloc = rt.alloc();
    let map = map_of(&rt, alloc, Direct, &[(0, 10), (128, 20), (256, 30)]);
    expect_text(&rt, alloc, &map, "{0: 10, 128: 20, 256: 30}")?;
    expect_lines(
        &rt,
        alloc,
        &map,
        "{\n    0: 10,\n    128: 20,\n    256: 30,\n}",
    )
}

#[test]
fn an_empty_map_as_text(rt: HostRuntime) -> Result<(), Fail> {
    let alloc = rt.alloc();
    let none: Numbers<Direct> = FlatMap::new(alloc, Direct);
    expect_text(&rt, alloc, &none, "{}")
}

#[test]
fn a_set_as_text(rt: HostRuntime) -> Result<(), Fail> {
    let mut set = FlatSet::new(rt.alloc(), Direct);
    assert!(rt; matches!(set.insert(5u64), Ok(true)));
    expect_text(&rt, rt.alloc(), &set, "{5}")
}
