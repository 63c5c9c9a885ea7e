//! Calls of a map, a set and a table while memory runs out: first with none left, then with a little more each
//! time, so that each allocation of more than is free is the first to fail in some run. A plain list skips the
//! calls that fail, and after each call the contents are the list's.
use crate::expected::{expect, expect_at};
use crate::loaded::{FIRST, GONE, LATER, SECOND};
use starved_tests::{POOLS, Starved};
use std::alloc::{AllocError, Global};
use std::ops::Range;
use std::process::Abort;
use std::test::Fail;
use sw_flat::{Emplaced, FlatMap, FlatSet, Why};
use sw_probe::{Constant, Direct, Fnv1a, KeyHash, LowBits};
use sw_table::Table;

// By how many bytes the free memory grows with each step.
const STEP: usize = 16;

// More entries than any run has.
const MOST: usize = 100;

type Numbers<H> = FlatMap<u64, u64, H>;

// A list of entries with distinct keys that has its memory from the start.
#[derive(Drop)]
struct Plain {
    entries: Vec<(u64, u64)>,
}

impl Plain {
    fn new(alloc: Global) -> Result<Plain, AllocError> {
        Ok(Plain {
            entries: Vec::with_capacity(alloc, MOST)?,
        })
    }

    fn get(&self, key: u64) -> Option<u64> {
        let (_, value) = self.entries.iter().find(|entry| entry.0 == key)?;
        Some(*value)
    }

    // Adds the entry, or assigns the value to a key that is there and returns the old one.
    fn put(&mut self, key: u64, value: u64) -> Option<u64> {
        let old = self.get(key);
        let _ = self.take(key);
        let _ = self.entries.push((key, value));
        old
    }

    fn take(&mut self, key: u64) -> Option<(u64, u64)> {
        let i = self.entries.iter().position(|entry| entry.0 == key)?;
        Some(self.entries.swap_remove(i))
    }
}

// A call of a map.
#[derive(Clone, Copy)]
enum Call {
    Add(u64, u64),
    Assign(u64, u64),
    Erase(u64),
    Extract(u64),
    Reserve(usize),
    Rehash,
}

// The result of a call.
#[derive(Clone, Copy, PartialEq, Eq)]
enum Came {
    // As a list has it.
    Right,
    // Memory was refused, and the arguments were returned.
    Refused,
    Wrong,
}

fn right_if(is_right: bool) -> Came {
    if is_right { Came::Right } else { Came::Wrong }
}

fn refused_if(is_right: bool) -> Came {
    if is_right { Came::Refused } else { Came::Wrong }
}

fn add<H: KeyHash<u64>>(map: &mut Numbers<H>, list: &mut Plain, key: u64, value: u64) -> Came {
    let held = list.get(key);
    match map.try_emplace(key, value) {
        Ok(Emplaced::Inserted) => {
            let _ = list.put(key, value);
            right_if(held.is_none())
        }
        Ok(Emplaced::Present(back, unused)) => {
            right_if(held.is_some() && back == key && unused == value)
        }
        Err(back) => refused_if(
            held.is_none() && back.key == key && back.value == value && back.why == Why::Memory,
        ),
    }
}

fn assign<H: KeyHash<u64>>(map: &mut Numbers<H>, list: &mut Plain, key: u64, value: u64) -> Came {
    let held = list.get(key);
    match map.insert_or_assign(key, value) {
        Ok(old) => {
            let _ = list.put(key, value);
            right_if(old == held)
        }
        Err(back) => refused_if(
            held.is_none() && back.key == key && back.value == value && back.why == Why::Memory,
        ),
    }
}

fn reserve<H: KeyHash<u64>>(map: &mut Numbers<H>, n: usize) -> Came {
    match map.reserve(n) {
        Ok(()) => right_if(n <= map.room()),
        Err(why) => refused_if(why == Why::Memory),
    }
}

fn make<H: KeyHash<u64>>(map: &mut Numbers<H>, list: &mut Plain, call: Call) -> Came {
    match call {
        Call::Add(key, value) => add(map, list, key, value),
        Call::Assign(key, value) => assign(map, list, key, value),
        Call::Erase(key) => right_if(map.erase(&key) == list.take(key).is_some()),
        Call::Extract(key) => right_if(map.extract(&key) == list.take(key)),
        Call::Reserve(n) => reserve(map, n),
        Call::Rehash => {
            map.rehash();
            Came::Right
        }
    }
}

// Whether a map has the entries of a list, and no others.
fn is_as<H: KeyHash<u64>>(map: &Numbers<H>, list: &Plain) -> bool {
    map.len() == list.entries.len()
        && list
            .entries
            .iter()
            .all(|entry| map.get(&entry.0).copied() == Some(entry.1))
}

// Makes each call, and returns how many failed.
fn make_each<H: KeyHash<u64>>(
    rt: &impl Abort,
    map: &mut Numbers<H>,
    list: &mut Plain,
    calls: &[Call],
) -> usize {
    let mut refused = 0usize;
    for (i, call) in calls.iter().enumerate() {
        let came = make(map, list, *call);
        assert!(rt; came != Came::Wrong && is_as(map, list), "call {i}");
        if came == Came::Refused {
            refused = refused.saturating_add(1);
        }
    }
    refused
}

// Expects the entries of a list that a map became.
fn expect_list(rt: &impl Abort, entries: &[(u64, u64)], list: &Plain) {
    expect(rt, entries.len(), list.entries.len());
    for (key, value) in entries {
        expect_at(rt, *key, list.get(*key), Some(*value));
    }
}

// Makes a map into a list, or gets the map back, and returns how many calls failed.
fn list_of<H: KeyHash<u64> + Drop>(rt: &impl Abort, map: Numbers<H>, list: &Plain) -> usize {
    match map.into_list() {
        Ok(entries) => {
            expect_list(rt, entries.as_slice(), list);
            0
        }
        Err(back) => {
            assert!(rt; is_as(&back, list));
            1
        }
    }
}

// What is run with no memory, then with a little more each time.
trait Turn {
    // Runs once, and returns how many calls failed.
    fn run(&mut self, rt: &impl Abort, alloc: Global) -> usize;
}

// Leaves `bytes` bytes for one run, and returns how many calls failed.
fn run_with<T: Turn>(
    rt: &impl Abort,
    alloc: Global,
    starved: &mut Starved,
    bytes: usize,
    turn: &mut T,
) -> Result<usize, AllocError> {
    let left = starved.leave(alloc, bytes)?;
    let refused = turn.run(rt, alloc);
    starved.end(alloc, left);
    Ok(refused)
}

// Runs until no call fails, which takes more than ten steps. The first run has enough memory, so that the stack
// has grown.
fn starve<T: Turn>(rt: &impl Abort, alloc: Global, turn: &mut T) -> Result<(), Fail> {
    expect(rt, turn.run(rt, alloc), 0);
    let mut starved = Starved::new(alloc)?;
    for step in 0..POOLS / 2 {
        if run_with(rt, alloc, &mut starved, STEP.saturating_mul(step), turn)? == 0 {
            assert!(rt; 10 < step, "{step} steps");
            return Ok(());
        }
    }
    Err(Fail::new("memory was wanting to the end"))
}

// Calls of a map with room for some entries, which is made into a list at the end.
#[derive(Drop)]
struct OfMap<'a, H> {
    hasher: H,
    room: usize,
    calls: &'a [Call],
    list: Plain,
}

impl<H: KeyHash<u64> + Copy + Drop> Turn for OfMap<'_, H> {
    fn run(&mut self, rt: &impl Abort, alloc: Global) -> usize {
        self.list.entries.clear();
        match FlatMap::with_room(alloc, self.hasher, self.room) {
            Ok(mut map) => {
                let refused = make_each(rt, &mut map, &mut self.list, self.calls);
                refused.saturating_add(list_of(rt, map, &self.list))
            }
            Err(why) => {
                expect(rt, why, Why::Memory);
                1
            }
        }
    }
}

fn starve_map<H: KeyHash<u64> + Copy + Drop>(
    rt: &impl Abort,
    alloc: Global,
    hasher: H,
    room: usize,
    calls: &[Call],
) -> Result<(), Fail> {
    let list = Plain::new(alloc)?;
    let mut turn = OfMap {
        hasher,
        room,
        calls,
        list,
    };
    starve(rt, alloc, &mut turn)
}

fn add_each(calls: &mut Vec<Call>, keys: Range<u64>) -> Result<(), AllocError> {
    for key in keys {
        calls.push(Call::Add(key, key))?;
    }
    Ok(())
}

// Forty keys, of which the even ones are erased, and twenty more; then a rehash.
fn forty(calls: &mut Vec<Call>) -> Result<(), AllocError> {
    add_each(calls, 0..40)?;
    for key in 0..20u64 {
        calls.push(Call::Erase(2 * key))?;
    }
    add_each(calls, 100..120)?;
    calls.push(Call::Rehash)?;
    Ok(())
}

fn starve_forty<H: KeyHash<u64> + Copy + Drop>(
    rt: &impl Abort,
    alloc: Global,
    hasher: H,
) -> Result<(), Fail> {
    let mut calls = Vec::new(alloc);
    forty(&mut calls)?;
    starve_map(rt, alloc, hasher, 0, calls.as_slice())
}

#[test]
fn forty_keys_of_one_hash(rt: HostRuntime) -> Result<(), Fail> {
    starve_forty(&rt, rt.alloc(), Constant(0))
}

#[test]
fn forty_keys_of_seven_bits(rt: HostRuntime) -> Result<(), Fail> {
    starve_forty(&rt, rt.alloc(), LowBits(7))
}

// Adds each of these keys n, with the value n / 256.
fn add_parts(calls: &mut Vec<Call>, keys: &[u64]) -> Result<(), AllocError> {
    for key in keys {
        calls.push(Call::Add(*key, *key / 256))?;
    }
    Ok(())
}

// Two groups of sixteen slots filled up to the load, and one more key: first with no entry erased before it,
// then after one was.
fn loaded(calls: &mut Vec<Call>) -> Result<(), AllocError> {
    add_parts(calls, &FIRST)?;
    add_parts(calls, &SECOND)?;
    for key in GONE {
        calls.push(Call::Erase(key))?;
    }
    add_parts(calls, &LATER)?;
    calls.push(Call::Add(3200, 12))?;
    calls.push(Call::Erase(768))?;
    calls.push(Call::Add(3200, 12))?;
    Ok(())
}

#[test]
fn two_groups_loaded_to_the_last_slot(rt: HostRuntime) -> Result<(), Fail> {
    let mut calls = Vec::new(rt.alloc());
    loaded(&mut calls)?;
    starve_map(&rt, rt.alloc(), Direct, 25, calls.as_slice())
}

const EACH: [Call; 10] = [
    Call::Reserve(1),
    Call::Add(5, 6),
    Call::Add(5, 7),
    Call::Assign(1, 10),
    Call::Assign(1, 11),
    Call::Reserve(13),
    Call::Extract(1),
    Call::Erase(1),
    Call::Reserve(26),
    Call::Add(2, 20),
];

#[test]
fn each_call_of_a_small_map(rt: HostRuntime) -> Result<(), Fail> {
    starve_map(&rt, rt.alloc(), Fnv1a { seed: 0 }, 0, &EACH)
}

// Adds keys from `from` on, each with this value, and returns how many calls failed.
fn fill(
    rt: &impl Abort,
    map: &mut Numbers<Fnv1a>,
    list: &mut Plain,
    from: u64,
    value: u64,
) -> usize {
    let mut refused = 0usize;
    for key in from..from.saturating_add(12) {
        let came = add(map, list, key, value);
        assert!(rt; came != Came::Wrong, "key {key}");
        if came == Came::Refused {
            refused = refused.saturating_add(1);
        }
    }
    refused
}

// Two maps of twelve entries that share two keys, and the lists of what a merge makes of them.
#[derive(Drop)]
struct OfMerge {
    one: Plain,
    other: Plain,
}

impl OfMerge {
    // What the lists become if one is merged into the other.
    fn merge_lists(&mut self) {
        for key in 0..50u64 {
            if let (None, Some(value)) = (self.one.get(key), self.other.get(key)) {
                let _ = self.other.take(key);
                let _ = self.one.put(key, value);
            }
        }
    }

    // A merge that fails leaves both maps unchanged.
    fn merge(
        &mut self,
        rt: &impl Abort,
        map: &mut Numbers<Fnv1a>,
        second: &mut Numbers<Fnv1a>,
    ) -> usize {
        let merged = map.merge(second);
        match merged {
            Ok(()) => self.merge_lists(),
            Err(why) => expect(rt, why, Why::Memory),
        }
        assert!(rt; is_as(map, &self.one) && is_as(second, &self.other));
        usize::from(merged.is_err())
    }
}

impl Turn for OfMerge {
    fn run(&mut self, rt: &impl Abort, alloc: Global) -> usize {
        self.one.entries.clear();
        self.other.entries.clear();
        let mut map = FlatMap::new(alloc, Fnv1a { seed: 0 });
        let mut second = FlatMap::new(alloc, Fnv1a { seed: 7 });
        let first = fill(rt, &mut map, &mut self.one, 0, 1);
        let both = first.saturating_add(fill(rt, &mut second, &mut self.other, 10, 2));
        both.saturating_add(self.merge(rt, &mut map, &mut second))
    }
}

#[test]
fn a_merge_of_two_maps(rt: HostRuntime) -> Result<(), Fail> {
    let one = Plain::new(rt.alloc())?;
    let other = Plain::new(rt.alloc())?;
    starve(&rt, rt.alloc(), &mut OfMerge { one, other })
}

type Keys = FlatSet<u64, Fnv1a>;

// Adds a key to a set that lacks it, and returns whether that failed; the key was returned then.
fn is_refused(rt: &impl Abort, set: &mut Keys, key: u64) -> bool {
    match set.insert(key) {
        Ok(is_new) => {
            assert!(rt; is_new && set.contains(&key));
            false
        }
        Err(back) => {
            assert!(rt; back.key == key && back.why == Why::Memory && !set.contains(&key));
            true
        }
    }
}

// Merges two sets that share a key, and returns how many calls failed. A failed one leaves both unchanged.
fn merge_sets(rt: &impl Abort, set: &mut Keys, other: &mut Keys) -> usize {
    let (len, other_len) = (set.len(), other.len());
    let shared = set.contains(&4) && other.contains(&4);
    match set.merge(other) {
        Ok(()) => {
            let both = len.saturating_add(other_len);
            expect(rt, set.len().saturating_add(other.len()), both);
            expect(rt, other.len(), usize::from(shared));
            0
        }
        Err(_) => {
            expect(rt, (set.len(), other.len()), (len, other_len));
            1
        }
    }
}

// Makes a set into a list, or gets the set back, and returns how many calls failed.
fn keys_of(rt: &impl Abort, set: Keys) -> usize {
    let len = set.len();
    match set.into_list() {
        Ok(keys) => {
            expect(rt, keys.len(), len);
            0
        }
        Err(back) => {
            expect(rt, back.len(), len);
            1
        }
    }
}

// Adds a key to one set and two to another, merges both, and returns how many calls failed.
fn call_sets(rt: &impl Abort, set: &mut Keys, other: &mut Keys) -> usize {
    let mut refused = usize::from(is_refused(rt, set, 4));
    for key in [4, 5] {
        refused = refused.saturating_add(usize::from(is_refused(rt, other, key)));
    }
    refused = refused.saturating_add(usize::from(set.reserve(13).is_err()));
    refused.saturating_add(merge_sets(rt, set, other))
}

// Two sets, the first with room for a key.
#[derive(Drop)]
struct OfSets;

impl Turn for OfSets {
    fn run(&mut self, rt: &impl Abort, alloc: Global) -> usize {
        let hasher = Fnv1a { seed: 0 };
        match FlatSet::with_room(alloc, hasher, 1) {
            Ok(mut set) => {
                let refused = call_sets(rt, &mut set, &mut FlatSet::new(alloc, hasher));
                refused.saturating_add(keys_of(rt, set))
            }
            Err(why) => {
                expect(rt, why, Why::Memory);
                1
            }
        }
    }
}

#[test]
fn each_call_of_a_small_set(rt: HostRuntime) -> Result<(), Fail> {
    starve(&rt, rt.alloc(), &mut OfSets)
}

// A set of these keys.
fn set_of(rt: &impl Abort, alloc: Global, keys: Range<u64>) -> Keys {
    let mut set = FlatSet::new(alloc, Fnv1a { seed: 0 });
    for key in keys {
        assert!(rt; !is_refused(rt, &mut set, key), "key {key}");
    }
    set
}

// Returns a set, since no list is made without memory.
fn refused_list(set: Keys) -> Result<Keys, Fail> {
    match set.into_list() {
        Ok(_) => Err(Fail::new("a list without memory")),
        Err(back) => Ok(back),
    }
}

fn expect_full(rt: &impl Abort, set: &mut Keys, other: &mut Keys) {
    expect(rt, set.reserve(13), Err(Why::Memory));
    expect(rt, set.merge(other), Err(Why::Memory));
    expect(rt, (set.len(), other.len()), (12, 1));
    expect(rt, other.contains(&12), true);
}

fn expect_back(rt: &impl Abort, set: Keys) -> Result<(), Fail> {
    let back = refused_list(set)?;
    expect(rt, back.len(), 12);
    expect(rt, back.contains(&11), true);
    Ok(())
}

// A set that is as full as its room, and one of another key.
#[test]
fn a_set_that_may_not_grow(rt: HostRuntime) -> Result<(), Fail> {
    let mut set = set_of(&rt, rt.alloc(), 0..12);
    let mut other = set_of(&rt, rt.alloc(), 12..13);
    let starved = Starved::new(rt.alloc())?;
    expect_full(&rt, &mut set, &mut other);
    let came = expect_back(&rt, set);
    drop(starved);
    came
}

// Grows a table of one entry, and returns how many calls failed. A failed one leaves the table unchanged.
fn grow(rt: &impl Abort, table: &mut Table<u64, u64, Direct>) -> usize {
    assert!(rt; table.find(&1).is_none() && table.place(1, 10).is_ok());
    let grown = table.reserve(26);
    let room = if grown.is_ok() { 50 } else { 25 };
    expect(rt, (table.room(), table.len()), (room, 1));
    expect(rt, value_of(table, 1), Some(10));
    usize::from(grown.is_err())
}

fn value_of(table: &Table<u64, u64, Direct>, key: u64) -> Option<u64> {
    let slot = table.find(&key)?;
    Some(*table.at(slot).1)
}

// Past the largest capacity nothing is allocated.
fn is_past(alloc: Global) -> bool {
    let past: Result<Table<u64, u64, Direct>, Why> = Table::with_room(alloc, Direct, 209_715_201);
    matches!(past, Err(Why::Limit))
}

// A table with room for thirteen entries.
#[derive(Drop)]
struct OfTable;

impl Turn for OfTable {
    fn run(&mut self, rt: &impl Abort, alloc: Global) -> usize {
        expect(rt, is_past(alloc), true);
        match Table::with_room(alloc, Direct, 13) {
            Ok(mut table) => grow(rt, &mut table),
            Err(_) => 1,
        }
    }
}

#[test]
fn each_call_of_a_small_table(rt: HostRuntime) -> Result<(), Fail> {
    starve(&rt, rt.alloc(), &mut OfTable)
}
