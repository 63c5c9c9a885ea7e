//! Maps of numbers, and lists of calls with their expected results.
use crate::expected::expect_at;
use std::ops::Range;
use std::process::Abort;
use sw_flat::{Emplaced, FlatMap, Why};
use sw_probe::KeyHash;

pub(crate) type Numbers<H> = FlatMap<u64, u64, H>;

/// A call of a map, and its expected result.
#[derive(Clone, Copy)]
pub(crate) enum Call {
    /// Adds an entry whose key is new.
    Insert(u64, u64),
    /// Adds an entry whose key is there, and gets it back.
    Present(u64, u64),
    /// Adds an entry without memory, and gets it back.
    Refused(u64, u64),
    /// Assigns a value to a key that is there, and gets the old one.
    Assign(u64, u64, u64),
    /// Assigns a value without memory, and gets the key and the value back.
    RefusedAssign(u64, u64),
    Get(u64, Option<u64>),
    /// Erases a key that is there.
    Erase(u64),
    Reserve(usize, Result<(), Why>),
    Rehash,
    /// The map has these numbers of entries and of slots.
    Sizes(usize, usize),
}

/// Makes each call of a list, and expects its result.
pub(crate) fn play<H: KeyHash<u64>>(rt: &impl Abort, map: &mut Numbers<H>, calls: &[Call]) {
    for (i, call) in calls.iter().enumerate() {
        assert!(rt; is_expected(map, *call), "call {i}");
    }
}

// Makes a call, and returns whether its result is the expected one.
fn is_expected<H: KeyHash<u64>>(map: &mut Numbers<H>, call: Call) -> bool {
    match call {
        Call::Insert(key, value) => inserts(map, key, value),
        Call::Present(key, value) => gives_back(map, key, value),
        Call::Refused(key, value) => refuses(map, key, value),
        Call::Assign(key, value, due) => assigns(map, key, value, due),
        Call::RefusedAssign(key, value) => refuses_assign(map, key, value),
        Call::Get(key, due) => map.get(&key).copied() == due,
        Call::Erase(key) => map.erase(&key),
        Call::Reserve(n, due) => map.reserve(n) == due,
        Call::Rehash => {
            map.rehash();
            true
        }
        Call::Sizes(len, capacity) => [map.len(), map.capacity()] == [len, capacity],
    }
}

fn inserts<H: KeyHash<u64>>(map: &mut Numbers<H>, key: u64, value: u64) -> bool {
    matches!(map.try_emplace(key, value), Ok(Emplaced::Inserted))
}

fn gives_back<H: KeyHash<u64>>(map: &mut Numbers<H>, key: u64, value: u64) -> bool {
    match map.try_emplace(key, value) {
        Ok(Emplaced::Present(back, unused)) => back == key && unused == value,
        _ => false,
    }
}

fn refuses<H: KeyHash<u64>>(map: &mut Numbers<H>, key: u64, value: u64) -> bool {
    match map.try_emplace(key, value) {
        Err(back) => back.key == key && back.value == value && back.why == Why::Memory,
        Ok(_) => false,
    }
}

fn assigns<H: KeyHash<u64>>(map: &mut Numbers<H>, key: u64, value: u64, due: u64) -> bool {
    match map.insert_or_assign(key, value) {
        Ok(old) => old == Some(due),
        Err(_) => false,
    }
}

fn refuses_assign<H: KeyHash<u64>>(map: &mut Numbers<H>, key: u64, value: u64) -> bool {
    match map.insert_or_assign(key, value) {
        Err(back) => back.key == key && back.value == value && back.why == Why::Memory,
        Ok(_) => false,
    }
}

/// Adds each of these keys, which are new, with this value.
pub(crate) fn insert_each<H: KeyHash<u64>>(
    rt: &impl Abort,
    map: &mut Numbers<H>,
    keys: Range<u64>,
    value: u64,
) {
    for key in keys {
        assert!(rt; inserts(map, key, value), "key {key}");
    }
}

/// Adds each of these keys, which are new, with itself as its value.
pub(crate) fn insert_as_values<H: KeyHash<u64>>(
    rt: &impl Abort,
    map: &mut Numbers<H>,
    keys: Range<u64>,
) {
    for key in keys {
        assert!(rt; inserts(map, key, key), "key {key}");
    }
}

/// Expects each of these keys, with itself as its value.
pub(crate) fn expect_as_values<H: KeyHash<u64>>(
    rt: &impl Abort,
    map: &Numbers<H>,
    keys: Range<u64>,
) {
    for key in keys {
        expect_at(rt, key, map.get(&key).copied(), Some(key));
    }
}
