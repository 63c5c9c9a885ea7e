//! Keys and values that count their drops, and a key that counts its comparisons.
ghost use Rattle.std.specs.Prelude.{◌≡◌, ◌∷◌, [], fold};
ghost use Rattle.std.specs.Int.{bytes_high_first};
ghost use Rattle.sw_probe.specs.Hashes.{number_of};

use crate::expected::expect_at;
use std::alloc::{AllocError, Global};
use std::cell::Cell;
use std::ops::Range;
use std::process::Abort;
use sw_probe::{Keyed, Names, Step, WordStep};

/// A value that counts its drop in its own cell.
pub(crate) struct Counted<'a> {
    drops: &'a Cell<u64>,
}

impl Drop for Counted<'_> {
    fn drop(self) {
        let Counted { drops } = self;
        drops.set(drops.get().wrapping_add(1));
    }
}

/// A number as a key that counts its drop in its own cell.
#[derive(Drop)]
pub(crate) struct CountedKey<'a> {
    pub(crate) number: u64,
    drops: Counted<'a>,
}

impl Keyed for CountedKey<'_> {
    ghost class = { λ key. bytes_high_first 8 key.number };

    ghost bytes = { λ bytes. bytes };

    ghost words = { λ bytes. number_of bytes ∷ [] };

    fn same_key(&self, key: &Self) -> bool {
        self.number.same_key(&key.number)
    }

    fn fold_key<F: Step>(&self, start: u64, f: &F) -> u64 {
        self.number.fold_key(start, f)
    }

    fn fold_key_words<F: WordStep>(&self, start: u64, f: &F) -> u64 {
        self.number.fold_key_words(start, f)
    }
}

/// The borrowed form of a `CountedKey`: its number.
#[derive(Clone, Copy)]
pub(crate) struct Number(pub(crate) u64);

impl Names<CountedKey<'_>> for Number {
    ghost named = { λ q. bytes_high_first 8 q.0 };

    fn same(&self, key: &CountedKey<'_>) -> bool {
        self.0.same_key(&key.number)
    }

    fn fold<F: Step>(&self, start: u64, f: &F) -> u64
        ensures { result ≡ fold (F.next f.now) start (bytes_high_first 8 self.now.0) }
    {
        self.0.fold_key(start, f)
    }

    fn fold_words<F: WordStep>(&self, start: u64, f: &F) -> u64
        ensures { result ≡ F.next f.now start (number_of (bytes_high_first 8 self.now.0)) }
    {
        self.0.fold_key_words(start, f)
    }
}

/// A number as a key for look-ups, which counts its comparisons in its cell.
#[derive(Drop)]
pub(crate) struct Asked<'a> {
    pub(crate) number: u64,
    pub(crate) compared: &'a Cell<u64>,
}

impl Names<u64> for Asked<'_> {
    ghost named = { λ q. bytes_high_first 8 q.number };

    fn same(&self, key: &u64) -> bool {
        self.compared.set(self.compared.get().wrapping_add(1));
        self.number.same_key(key)
    }

    fn fold<F: Step>(&self, start: u64, f: &F) -> u64 {
        self.number.fold_key(start, f)
    }

    fn fold_words<F: WordStep>(&self, start: u64, f: &F) -> u64 {
        self.number.fold_key_words(start, f)
    }
}

/// The cells of some keys and of their values.
#[derive(Drop)]
pub(crate) struct Counters {
    keys: Vec<Cell<u64>>,
    values: Vec<Cell<u64>>,
}

impl Counters {
    pub(crate) fn new(alloc: Global, n: u64) -> Result<Counters, AllocError> {
        let (mut keys, mut values) = (Vec::new(alloc), Vec::new(alloc));
        for _ in 0..n {
            keys.push(Cell::new(0))?;
            values.push(Cell::new(0))?;
        }
        Ok(Counters { keys, values })
    }

    /// The key of a number, which counts in the cell of `id`.
    pub(crate) fn key(&self, rt: &impl Abort, number: u64, id: usize) -> CountedKey<'_> {
        assert!(rt; id < self.keys.len());
        CountedKey {
            number,
            drops: Counted {
                drops: &self.keys[id],
            },
        }
    }

    pub(crate) fn value(&self, rt: &impl Abort, id: usize) -> Counted<'_> {
        assert!(rt; id < self.values.len());
        Counted {
            drops: &self.values[id],
        }
    }

    /// Expects how often the key and the value of `id` were dropped.
    pub(crate) fn expect(&self, rt: &impl Abort, id: usize, due: (u64, u64)) {
        let found = (times(&self.keys, id), times(&self.values, id));
        expect_at(rt, id as u64, found, (Some(due.0), Some(due.1)));
    }

    /// Expects these numbers of drops of each `id` in a range.
    pub(crate) fn expect_each(&self, rt: &impl Abort, ids: Range<usize>, due: (u64, u64)) {
        for id in ids {
            self.expect(rt, id, due);
        }
    }

    /// Expects that each key and each value was dropped `times` times.
    pub(crate) fn expect_all(&self, rt: &impl Abort, times: u64) {
        self.expect_each(rt, 0..self.keys.len(), (times, times));
    }
}

// The count of a cell, if there is such a cell.
fn times(cells: &[Cell<u64>], id: usize) -> Option<u64> {
    Some(cells.get(id)?.get())
}
