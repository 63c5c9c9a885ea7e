//! Maps of numbers, and lists of calls with their expected results.
use crate::expected::expect;
use std::alloc::Global;
use std::process::Abort;
use std::test::Fail;
use sw_flat::{Emplaced, FlatMap, Why};
use sw_probe::KeyHash;

pub(crate) type Numbers<H> = FlatMap<u64, u64, H>;

/// A call of a map, and its expected result.
#[derive(Clone, Copy)]
pub(crate) enum Call {
    /// Adds an entry whose key is new.
    Insert(u64, u64),
    /// Adds an entry whose key is there, and gets it back.
    Present(u64, u64),
    /// Assigns a value to a key, and gets the old one.
    Assign(u64, u64, Option<u64>),
    Get(u64, Option<u64>),
    Erase(u64, bool),
    Extract(u64, Option<(u64, u64)>),
    Reserve(usize, Result<(), Why>),
    Rehash,
    Clear,
    /// The map has these numbers of entries and of slots, and room for this number.
    Sizes(usize, usize, usize),
}

/// Makes each call of a list, and expects its result.
pub(crate) fn play<H: KeyHash<u64>>(rt: &impl Abort, map: &mut Numbers<H>, calls: &[Call]) {
    for (i, call) in calls.iter().enumerate() {
        assert!(rt; is_expected(map, *call), "call {i}");
    }
}

// Makes a call, and returns whether its result is the expected one.
fn is_expected<H: KeyHash<u64>>(map: &mut Numbers<H>, call: Call) -> bool {
    match call {
        Call::Insert(key, value) => inserts(map, key, value),
        Call::Present(key, value) => gives_back(map, key, value),
        Call::Assign(key, value, due) => assigns(map, key, value, due),
        Call::Get(key, due) => map.get(&key).copied() == due,
        Call::Erase(key, due) => map.erase(&key) == due,
        Call::Extract(key, due) => map.extract(&key) == due,
        Call::Reserve(n, due) => map.reserve(n) == due,
        Call::Rehash => {
            map.rehash();
            true
        }
        Call::Clear => {
            map.clear();
            true
        }
        Call::Sizes(len, capacity, room) => has_sizes(map, [len, capacity, room]),
    }
}

fn inserts<H: KeyHash<u64>>(map: &mut Numbers<H>, key: u64, value: u64) -> bool {
    matches!(map.try_emplace(key, value), Ok(Emplaced::Inserted))
}

/// Whether the arguments of an entry are returned, since its key is there.
pub(crate) fn gives_back<H: KeyHash<u64>>(map: &mut Numbers<H>, key: u64, value: u64) -> bool {
    match map.try_emplace(key, value) {
        Ok(Emplaced::Present(back, unused)) => back == key && unused == value,
        _ => false,
    }
}

/// Assigns a value, and returns whether the old one is the expected one.
pub(crate) fn assigns<H: KeyHash<u64>>(
    map: &mut Numbers<H>,
    key: u64,
    value: u64,
    due: Option<u64>,
) -> bool {
    match map.insert_or_assign(key, value) {
        Ok(old) => old == due,
        Err(_) => false,
    }
}

fn has_sizes<H: KeyHash<u64>>(map: &Numbers<H>, due: [usize; 3]) -> bool {
    let len = map.len();
    [len, map.capacity(), map.room()] == due
        && map.is_empty() == (len == 0)
        && map.iter().next().is_none() == (len == 0)
        && map.table().len() == len
}

/// Adds an entry whose key is new.
pub(crate) fn insert<H: KeyHash<u64>>(rt: &impl Abort, map: &mut Numbers<H>, key: u64, value: u64) {
    assert!(rt; inserts(map, key, value), "key {key}");
}

/// Adds each of these keys, with itself as its value.
pub(crate) fn insert_each<H: KeyHash<u64>>(
    rt: &impl Abort,
    map: &mut Numbers<H>,
    from: u64,
    to: u64,
) {
    for key in from..to {
        insert(rt, map, key, key);
    }
}

/// A map of these entries, added in their order.
pub(crate) fn map_of<H: KeyHash<u64> + Drop>(
    rt: &impl Abort,
    alloc: Global,
    hasher: H,
    entries: &[(u64, u64)],
) -> Numbers<H> {
    let mut map = FlatMap::new(alloc, hasher);
    for (key, value) in entries {
        insert(rt, &mut map, *key, *value);
    }
    map
}

// The entries of a map, in ascending order of keys.
fn sorted<H: KeyHash<u64>>(alloc: Global, map: &Numbers<H>) -> Result<Vec<(u64, u64)>, Fail> {
    let mut entries = Vec::new(alloc);
    for (key, value) in map.iter() {
        entries.push((*key, *value))?;
    }
    entries.sort()?;
    Ok(entries)
}

/// Expects these entries of a map, in ascending order of keys.
pub(crate) fn expect_entries<H: KeyHash<u64>>(
    rt: &impl Abort,
    alloc: Global,
    map: &Numbers<H>,
    due: &[(u64, u64)],
) -> Result<(), Fail> {
    expect(rt, sorted(alloc, map)?.as_slice(), due);
    Ok(())
}

/// Expects these entries of the list that a map becomes, in ascending order of keys.
pub(crate) fn expect_list<H: KeyHash<u64> + Drop>(
    rt: &impl Abort,
    map: Numbers<H>,
    due: &[(u64, u64)],
) -> Result<(), Fail> {
    let Ok(mut list) = map.into_list() else {
        return Err(Fail::from("no memory"));
    };
    list.sort()?;
    expect(rt, list.as_slice(), due);
    Ok(())
}
