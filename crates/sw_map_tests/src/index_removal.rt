//! Removing keys from an index, compared with a plain list that takes the same calls.
use crate::expected::{expect, expect_at};
use std::alloc::{AllocError, Global};
use std::process::Abort;
use std::test::Fail;
use sw_index::{Found, Index};
use sw_probe::{Constant, Fnv1a, KeyHash, LowBits};

// An index under a hasher, and a list of the same keys.
#[derive(Drop)]
struct Pair<H: KeyHash<u64>> {
    index: Index<u64, H>,
    list: Vec<u64>,
}

impl<H: KeyHash<u64>> Pair<H> {
    fn new(alloc: Global, hasher: H) -> Pair<H> {
        Pair {
            index: Index::new(alloc, hasher),
            list: Vec::new(alloc),
        }
    }

    // Adds the keys below `end` that are absent.
    fn add(&mut self, end: u64) -> Result<(), AllocError> {
        for key in 0..end {
            if let Found::Absent(absence) = self.index.find(&key) {
                self.index.add(absence, key)?;
                self.list.push(key)?;
            }
        }
        Ok(())
    }

    // Removes the key with a number, or the last key if there is none; that key is then absent.
    fn remove(&mut self, rt: &impl Abort, number: usize) {
        let gone = if number < self.index.len() {
            Some(self.index.swap_remove(number))
        } else {
            self.index.pop()
        };
        let due = if number < self.list.len() {
            Some(self.list.swap_remove(number))
        } else {
            self.list.pop()
        };
        expect(rt, gone, due);
        if let Some(key) = gone {
            expect_at(rt, key, self.number_of(key), None);
        }
    }

    // Keeps the first `keys` keys.
    fn truncate(&mut self, keys: usize) {
        self.index.truncate(keys);
        self.list.truncate(keys);
    }

    fn number_of(&self, key: u64) -> Option<usize> {
        match self.index.find(&key) {
            Found::At(number) => Some(number),
            Found::Absent(_) => None,
        }
    }

    // Expects as many keys as in the list, each with its number.
    fn compare(&self, rt: &impl Abort) {
        expect(rt, self.index.len(), self.list.len());
        for (number, key) in self.list.iter().enumerate() {
            expect_at(rt, *key, self.number_of(*key), Some(number));
        }
    }
}

// Removes `count` keys in a mixed order, and adds them again.
fn goes_and_comes<H: KeyHash<u64> + Drop>(
    rt: &impl Abort,
    alloc: Global,
    hasher: H,
    count: u64,
) -> Result<(), Fail> {
    let mut pair = Pair::new(alloc, hasher);
    pair.add(count)?;
    for call in 0..count as usize {
        pair.remove(rt, call.wrapping_mul(7_919) % (count as usize).max(1));
        pair.compare(rt);
    }
    expect(rt, pair.index.len(), 0);
    pair.add(count)?;
    pair.compare(rt);
    Ok(())
}

#[test]
fn all_keys_in_a_mixed_order(rt: HostRuntime) -> Result<(), Fail> {
    goes_and_comes(&rt, rt.alloc(), Fnv1a { seed: 7 }, 300)?;
    goes_and_comes(&rt, rt.alloc(), LowBits(2), 300)
}

#[test]
fn all_keys_of_one_hash(rt: HostRuntime) -> Result<(), Fail> {
    goes_and_comes(&rt, rt.alloc(), Constant(0), 100)
}

// The first key, one in the middle, the last and the only one.
#[test]
fn a_key_here_and_there(rt: HostRuntime) -> Result<(), Fail> {
    let mut pair = Pair::new(rt.alloc(), Fnv1a { seed: 0 });
    pair.add(5)?;
    for number in [0, 1, 2, 0, 0] {
        expect(&rt, number < pair.index.len(), true);
        pair.remove(&rt, number);
        pair.compare(&rt);
    }
    expect(&rt, pair.index.pop(), None);
    Ok(())
}

// The first keys stay, and all others are absent.
#[test]
fn the_first_keys_stay(rt: HostRuntime) -> Result<(), Fail> {
    let mut pair = Pair::new(rt.alloc(), LowBits(3));
    pair.add(40)?;
    for keys in [50, 40, 17, 1, 0] {
        pair.truncate(keys);
        pair.compare(&rt);
        expect_at(&rt, keys as u64, pair.number_of(keys as u64), None);
    }
    pair.add(40)?;
    pair.compare(&rt);
    Ok(())
}
