//! Random runs of a map's calls.
use crate::expected::{expect, expect_at};
use crate::numbers::{Numbers, assigns, gives_back, insert};
use crate::plain::{CALLS, Draws, PlainList, keys_at};
use std::alloc::Global;
use std::process::Abort;
use std::test::Fail;
use sw_flat::FlatMap;
use sw_probe::{Constant, Direct, Fnv1a, KeyHash, LowBits, WordHash};

// A map under a hasher, and a list that has the same entries.
#[derive(Drop)]
struct Pair<H: KeyHash<u64>> {
    map: Numbers<H>,
    list: PlainList,
    draws: Draws,
}

impl<H: KeyHash<u64> + Copy + Drop> Pair<H> {
    fn try_emplace(&mut self, rt: &impl Abort, key: u64, value: u64) -> Result<(), Fail> {
        if self.list.get(key).is_some() {
            assert!(rt; gives_back(&mut self.map, key, value), "key {key}");
        } else {
            insert(rt, &mut self.map, key, value);
            let _ = self.list.put(key, value)?;
        }
        Ok(())
    }

    fn assign(&mut self, rt: &impl Abort, key: u64, value: u64) -> Result<(), Fail> {
        let due = self.list.put(key, value)?;
        assert!(rt; assigns(&mut self.map, key, value, due), "key {key}");
        Ok(())
    }

    // Assigns a value to a key that is there, and returns the old one.
    fn write(&mut self, key: u64, value: u64) -> Option<u64> {
        let held = self.map.get_mut(&key)?;
        let old = *held;
        *held = value;
        Some(old)
    }

    fn write_both(&mut self, rt: &impl Abort, key: u64, value: u64) -> Result<(), Fail> {
        expect_at(rt, key, self.write(key, value), self.list.get(key));
        if self.list.get(key).is_some() {
            let _ = self.list.put(key, value)?;
        }
        Ok(())
    }

    fn look_up(&self, rt: &impl Abort, key: u64) {
        let due = self.list.get(key);
        expect_at(rt, key, self.map.contains(&key), due.is_some());
        expect_at(rt, key, self.map.get(&key).copied(), due);
    }

    // Expects that each entry of the map is in the list, and that there are as many.
    fn compare_all(&self, rt: &impl Abort) {
        let mut count = 0usize;
        for (key, value) in self.map.iter() {
            expect_at(rt, *key, Some(*value), self.list.get(*key));
            count = count.saturating_add(1);
        }
        expect(rt, [self.map.len(), count], [self.list.len(); 2]);
    }

    // Expects that the list that the map becomes has the same entries.
    fn compare_list(self, rt: &impl Abort) -> Result<(), Fail> {
        let Pair { map, mut list, .. } = self;
        let Ok(entries) = map.into_list() else {
            return Err(Fail::from("no memory"));
        };
        for (key, value) in &entries {
            expect_at(rt, *key, Some(*value), list.get(*key));
            let _ = list.take(*key);
        }
        expect(rt, list.len(), 0);
        Ok(())
    }

    // Draws a key for a map to be merged, with the value that the list has for absent keys.
    fn draw_other(
        &mut self,
        rt: &impl Abort,
        other: &mut Numbers<H>,
        keys: u64,
    ) -> Result<(), Fail> {
        let key = self.draws.below(keys.max(1));
        if !other.contains(&key) {
            assert!(rt; other.try_emplace(key, key).is_ok(), "key {key}");
            if self.list.get(key).is_none() {
                let _ = self.list.put(key, key)?;
            }
        }
        Ok(())
    }

    // Merges a map of some keys: those that both have stay in the other map.
    fn merge(&mut self, rt: &impl Abort, other: &mut Numbers<H>, keys: u64) -> Result<(), Fail> {
        for _ in 0..10u32 {
            self.draw_other(rt, other, keys)?;
        }
        let both = self.map.len().saturating_add(other.len());
        self.map.merge(other)?;
        expect(rt, self.map.len(), self.list.len());
        expect(rt, self.map.len().saturating_add(other.len()), both);
        self.expect_shared(rt, other);
        Ok(())
    }

    // Expects that what stays in a merged map has its own value, and a key of this map.
    fn expect_shared(&self, rt: &impl Abort, other: &Numbers<H>) {
        for (key, value) in other.iter() {
            expect_at(rt, *key, (*value, self.map.contains(key)), (*key, true));
        }
    }

    fn extract(&mut self, rt: &impl Abort, key: u64) {
        expect_at(rt, key, self.map.extract(&key), self.list.take(key));
    }

    fn erase(&mut self, rt: &impl Abort, key: u64) {
        expect_at(rt, key, self.map.erase(&key), self.list.take(key).is_some());
    }

    // Most calls add and remove, some look up, few visit all entries.
    fn call(&mut self, rt: &impl Abort, keys: u64) -> Result<(), Fail> {
        let key = self.draws.below(keys.max(1));
        let value = self.draws.below(1 << 30);
        match self.draws.below(2_400) {
            0 => {
                self.map.clear();
                self.list.clear();
            }
            1..=4 => self.compare_all(rt),
            5..=9 => self.map.rehash(),
            10..=14 => self.map.reserve(self.map.len().saturating_add(20))?,
            15..=199 => self.look_up(rt, key),
            200..=399 => self.write_both(rt, key, value)?,
            400..=899 => self.try_emplace(rt, key, value)?,
            900..=1399 => self.assign(rt, key, value)?,
            1400..=1899 => self.extract(rt, key),
            _ => self.erase(rt, key),
        }
        Ok(())
    }
}

// Many calls, and sometimes a merge.
fn run<H>(rt: &impl Abort, alloc: Global, hasher: H) -> Result<(), Fail>
where
    H: KeyHash<u64> + Copy + Drop,
{
    let mut pair = Pair {
        map: FlatMap::new(alloc, hasher),
        list: PlainList::new(alloc),
        draws: Draws::from(2),
    };
    for i in 0..CALLS {
        if i % 500 == 0 {
            pair.merge(rt, &mut FlatMap::new(alloc, hasher), keys_at(i))?;
        }
        pair.call(rt, keys_at(i))?;
    }
    pair.compare_all(rt);
    pair.compare_list(rt)
}

#[test]
fn under_fnv_1a(rt: HostRuntime) -> Result<(), Fail> {
    run(&rt, rt.alloc(), Fnv1a { seed: 0 })
}

#[test]
fn under_words(rt: HostRuntime) -> Result<(), Fail> {
    run(&rt, rt.alloc(), WordHash { seed: 0 })
}

#[test]
fn under_the_number_itself(rt: HostRuntime) -> Result<(), Fail> {
    run(&rt, rt.alloc(), Direct)
}

#[test]
fn under_one_hash_for_all(rt: HostRuntime) -> Result<(), Fail> {
    run(&rt, rt.alloc(), Constant(0))?;
    run(&rt, rt.alloc(), Constant(u64::MAX))
}

#[test]
fn under_few_bits(rt: HostRuntime) -> Result<(), Fail> {
    for bits in [0, 7, 8, 11] {
        run(&rt, rt.alloc(), LowBits(bits))?;
    }
    Ok(())
}
