//! Random runs of a table's calls.
use crate::expected::{expect, expect_at};
use crate::plain::{CALLS, Draws, PlainList, keys_at};
use crate::table::{Numbers, adds, take, value_of, write};
use std::alloc::Global;
use std::process::Abort;
use std::test::Fail;
use sw_probe::{Constant, Direct, Fnv1a, KeyHash, LowBits, WordHash};
use sw_table::Table;

// Adds a key that is absent; only a full table grows.
fn places<H: KeyHash<u64>>(table: &mut Numbers<H>, key: u64, value: u64) -> bool {
    let (full, slots) = (table.len() >= table.room(), table.capacity());
    adds(table, key, value) && (full || table.capacity() == slots)
}

// A table under a hasher, and a list that has the same entries.
#[derive(Drop)]
struct Pair<H: KeyHash<u64>> {
    table: Numbers<H>,
    list: PlainList,
    draws: Draws,
}

impl<H: KeyHash<u64>> Pair<H> {
    fn add(&mut self, rt: &impl Abort, key: u64, value: u64) -> Result<(), Fail> {
        if self.table.find(&key).is_none() {
            assert!(rt; places(&mut self.table, key, value), "key {key}");
            expect_at(rt, key, None, self.list.put(key, value)?);
        }
        Ok(())
    }

    fn write(&mut self, rt: &impl Abort, key: u64, value: u64) -> Result<(), Fail> {
        if let Some(old) = write(&mut self.table, key, value) {
            expect_at(rt, key, Some(old), self.list.put(key, value)?);
        }
        Ok(())
    }

    fn remove(&mut self, rt: &impl Abort, key: u64) {
        expect_at(rt, key, take(&mut self.table, key), self.list.take(key));
    }

    fn look_up(&self, rt: &impl Abort, key: u64) {
        expect_at(rt, key, value_of(&self.table, key), self.list.get(key));
    }

    // Expects that each entry of the table is in the list, and that there are as many.
    fn compare_all(&self, rt: &impl Abort) {
        let (mut from, mut count) = (0usize, 0usize);
        for _ in 0..self.table.capacity() {
            let Some(slot) = self.table.next_full(from) else {
                break;
            };
            let (key, value) = self.table.at(slot);
            expect_at(rt, *key, Some(*value), self.list.get(*key));
            from = slot.index.saturating_add(1);
            count = count.saturating_add(1);
        }
        expect(rt, [self.table.len(), count], [self.list.len(); 2]);
    }

    // Most calls add and remove, some look up, few visit all entries.
    fn call(&mut self, rt: &impl Abort, keys: u64) -> Result<(), Fail> {
        let key = self.draws.below(keys.max(1));
        let value = self.draws.below(1 << 30);
        match self.draws.below(2_400) {
            0 => {
                self.table.clear();
                self.list.clear();
            }
            1..=4 => self.compare_all(rt),
            5..=9 => self.table.rehash(),
            10..=14 => self.table.reserve(self.table.len().saturating_add(20))?,
            15..=199 => self.look_up(rt, key),
            200..=399 => self.write(rt, key, value)?,
            400..=1399 => self.add(rt, key, value)?,
            _ => self.remove(rt, key),
        }
        Ok(())
    }
}

// Many calls.
fn run<H: KeyHash<u64> + Drop>(rt: &impl Abort, alloc: Global, hasher: H) -> Result<(), Fail> {
    let mut pair = Pair {
        table: Table::new(alloc, hasher),
        list: PlainList::new(alloc),
        draws: Draws::from(1),
    };
    for i in 0..CALLS {
        pair.call(rt, keys_at(i))?;
    }
    pair.compare_all(rt);
    Ok(())
}

#[test]
fn under_fnv_1a(rt: HostRuntime) -> Result<(), Fail> {
    run(&rt, rt.alloc(), Fnv1a { seed: 0 })
}

#[test]
fn under_words(rt: HostRuntime) -> Result<(), Fail> {
    run(&rt, rt.alloc(), WordHash { seed: 0 })
}

#[test]
fn under_the_number_itself(rt: HostRuntime) -> Result<(), Fail> {
    run(&rt, rt.alloc(), Direct)
}

#[test]
fn under_one_hash_for_all(rt: HostRuntime) -> Result<(), Fail> {
    run(&rt, rt.alloc(), Constant(0))?;
    run(&rt, rt.alloc(), Constant(u64::MAX))
}

#[test]
fn under_few_bits(rt: HostRuntime) -> Result<(), Fail> {
    for bits in [0, 7, 8, 11] {
        run(&rt, rt.alloc(), LowBits(bits))?;
    }
    Ok(())
}
