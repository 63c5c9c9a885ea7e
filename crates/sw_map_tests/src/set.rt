//! The set.
use crate::expected::{expect, expect_at};
use std::alloc::Global;
use std::process::Abort;
use std::test::Fail;
use sw_flat::{FlatSet, Why};
use sw_probe::{ByteKey, Constant, Direct, Fnv1a, KeyHash, LowBits};

type Words = FlatSet<Vec<u8>, Fnv1a>;

fn insert<H: KeyHash<u64>>(rt: &impl Abort, set: &mut FlatSet<u64, H>, key: u64, new: bool) {
    assert!(rt;
        matches!(set.insert(key), Ok(answer) if answer == new),
        "key {key}"
    );
}

// Expects these numbers of keys, of slots, and of keys that there is room for.
fn expect_sizes<H: KeyHash<u64>>(rt: &impl Abort, set: &FlatSet<u64, H>, due: [usize; 3]) {
    let len = set.len();
    expect(rt, [len, set.capacity(), set.room()], due);
    assert!(rt; set.is_empty() == (len == 0) && set.table().len() == len);
}

// Expects these keys of a set, ascending.
fn expect_keys<H: KeyHash<u64>>(
    rt: &impl Abort,
    alloc: Global,
    set: &FlatSet<u64, H>,
    due: &[u64],
) -> Result<(), Fail> {
    let mut keys = Vec::new(alloc);
    for key in set.iter() {
        keys.push(*key)?;
    }
    keys.sort()?;
    expect(rt, keys.as_slice(), due);
    Ok(())
}

// Expects these keys of the list that a set becomes, ascending.
fn expect_list<H: KeyHash<u64> + Drop>(
    rt: &impl Abort,
    set: FlatSet<u64, H>,
    due: &[u64],
) -> Result<(), Fail> {
    let Ok(mut list) = set.into_list() else {
        return Err(Fail::from("no memory"));
    };
    list.sort()?;
    expect(rt, list.as_slice(), due);
    Ok(())
}

// A set of one group of slots grows to two.
fn grow<H: KeyHash<u64>>(rt: &impl Abort, set: &mut FlatSet<u64, H>) -> Result<(), Fail> {
    expect_sizes(rt, set, [0, 16, 12]);
    insert(rt, set, 4, true);
    insert(rt, set, 4, false);
    set.reserve(13)?;
    expect_sizes(rt, set, [1, 32, 25]);
    Ok(())
}

// The key 4 is in both sets, and 5 only in the other.
fn merge<H: KeyHash<u64>>(
    rt: &impl Abort,
    alloc: Global,
    set: &mut FlatSet<u64, H>,
    other: &mut FlatSet<u64, H>,
) -> Result<(), Fail> {
    insert(rt, other, 4, true);
    insert(rt, other, 5, true);
    set.merge(other)?;
    expect_keys(rt, alloc, set, &[4, 5])?;
    expect_keys(rt, alloc, other, &[4])?;
    expect(rt, other.extract(&4), Some(4));
    expect(rt, other.extract(&4), None);
    Ok(())
}

fn each_call<H: KeyHash<u64> + Drop>(
    rt: &impl Abort,
    alloc: Global,
    hasher: H,
    mut other: FlatSet<u64, H>,
) -> Result<(), Fail> {
    let mut set = FlatSet::with_room(alloc, hasher, 1)?;
    grow(rt, &mut set)?;
    merge(rt, alloc, &mut set, &mut other)?;
    set.rehash();
    expect(rt, set.contains(&5), true);
    expect_list(rt, set, &[4, 5])
}

#[test]
fn each_call_of_a_small_set(rt: HostRuntime) -> Result<(), Fail> {
    let alloc = rt.alloc();
    let fnv = Fnv1a { seed: 0 };
    each_call(&rt, alloc, fnv, FlatSet::new(alloc, fnv))?;
    each_call(&rt, alloc, Constant(0), FlatSet::new(alloc, Constant(0)))?;
    each_call(&rt, alloc, LowBits(7), FlatSet::new(alloc, LowBits(7)))?;
    each_call(&rt, alloc, Direct, FlatSet::new(alloc, Direct))
}

// Erases the even ones of a hundred keys.
fn erase_even(rt: &impl Abort, set: &mut FlatSet<u64, Constant>) {
    for key in 0..100u64 {
        insert(rt, set, key, true);
    }
    for half in 0..50u64 {
        expect_at(rt, half, set.erase(&(2 * half)), true);
        expect_at(rt, half, set.erase(&(2 * half)), false);
    }
    for key in 0..100u64 {
        expect_at(rt, key, set.contains(&key), key % 2 == 1);
    }
}

#[test]
fn erased_and_cleared(rt: HostRuntime) {
    let mut set: FlatSet<u64, Constant> = FlatSet::new(rt.alloc(), Constant(0));
    erase_even(&rt, &mut set);
    expect_sizes(&rt, &set, [50, 128, 100]);
    set.clear();
    expect_sizes(&rt, &set, [0, 128, 100]);
    expect(&rt, set.reserve(209_715_201), Err(Why::Limit));
}

fn insert_word(
    rt: &impl Abort,
    alloc: Global,
    set: &mut Words,
    word: &str,
    new: bool,
) -> Result<(), Fail> {
    let key = Vec::from_slice(alloc, word.as_bytes())?;
    assert!(rt;
        matches!(set.insert(key), Ok(answer) if answer == new),
        "{word}"
    );
    Ok(())
}

#[test]
fn words(rt: HostRuntime) -> Result<(), Fail> {
    let mut set: Words = FlatSet::new(rt.alloc(), Fnv1a { seed: 1 });
    for (word, new) in [("Oslo", true), ("Rome", true), ("Oslo", false), ("", true)] {
        insert_word(&rt, rt.alloc(), &mut set, word, new)?;
    }
    expect(&rt, set.contains(&ByteKey(b"Rome")), true);
    expect(&rt, set.contains(&ByteKey(b"rome")), false);
    extract_the_empty_word(&rt, &mut set);
    Ok(())
}

fn extract_the_empty_word(rt: &impl Abort, set: &mut Words) {
    let taken = set.extract(&ByteKey(b""));
    assert!(rt; taken.is_some_and(|word| word.is_empty()));
    expect(rt, set.len(), 2);
}
