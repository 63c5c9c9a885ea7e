//! The numbers of keys, as the keys of a table.
ghost use Rattle.std.specs.Prelude.{◌≡◌, ◌∷◌, [], Some, None};
ghost use Rattle.std.specs.FinMap.{get, insert, remove};
ghost use Rattle.sw_probe.specs.Hashes.{number_of, read_step};
ghost use Rattle.sw_table.specs.Entries.{entries};
ghost use Rattle.sw_table.specs.View.{entry_at, IsFull};
ghost use Rattle.sw_index.specs.Index.{class_of_number, hash_bytes, hash_word, numbers_of};

use crate::numbers::Numbers;
use sw_probe::{KeyHash, Keyed, Names, Step, WordStep};
use sw_table::{SlotNo, Table};

/// The number of a key, and its hash.
#[derive(Clone, Copy)]
pub(crate) struct Numbered {
    pub(crate) hash: u64,
    pub(crate) number: usize,
}

/// Two are the same if both words are. The bytes that are hashed are those of the hash, so that it is never
/// computed again.
impl Keyed for Numbered {
    ghost class = { λ n. n.hash ∷ n.number ∷ [] };

    ghost bytes = { hash_bytes };

    ghost words = { hash_word };

    #[inline]
    fn same_key(&self, key: &Numbered) -> bool {
        self.hash == key.hash && self.number == key.number
    }

    #[inline]
    fn fold_key<F: Step>(&self, start: u64, f: &F) -> u64 {
        self.hash.fold_key(start, f)
    }

    #[inline]
    fn fold_key_words<F: WordStep>(&self, start: u64, f: &F) -> u64 {
        f.step(start, self.hash)
    }
}

/// A hasher that returns the stored hash.
#[derive(Clone, Copy)]
pub(crate) struct Known;

impl KeyHash<Numbered> for Known {
    ghost hash_of = { λ _ class. number_of (hash_bytes class) };

    #[inline]
    fn hash<Q: Names<Numbered>>(&self, key: &Q) -> u64 {
        key.fold(0, &ReadStep)
    }
}

// Appends a byte to a number, big-endian.
struct ReadStep;

impl Step for ReadStep {
    ghost next = { λ _. read_step };

    #[inline]
    fn step(&self, acc: u64, byte: u8) -> u64 {
        acc.wrapping_mul(256).wrapping_add(u64::from(byte))
    }
}

/// Removes a number that is in the table.
#[inline]
pub(crate) fn forget(numbers: &mut Numbers, numbered: Numbered)
    requires { get (numbers_of numbers.old) (class_of_number numbered) ≡ Some (numbered, tt) }
    ensures { numbers_of numbers.new ≡ remove (numbers_of numbers.old) (class_of_number numbered) }
{
    let slot = slot_of(&numbers.table, &numbered);
    numbers.table.remove(slot);
}

/// Replaces a number that is in the table by another with the same hash.
#[inline]
pub(crate) fn renumber(numbers: &mut Numbers, from: Numbered, to: Numbered)
    requires there { get (numbers_of numbers.old) (class_of_number from) ≡ Some (from, tt) }
    requires free { get (remove (numbers_of numbers.old) (class_of_number from)) (class_of_number to) ≡ None }
    requires hash { to.hash ≡ from.hash }
    ensures { numbers_of numbers.new ≡
        insert (remove (numbers_of numbers.old) (class_of_number from)) (class_of_number to) (to, tt) }
{
    let slot = slot_of(&numbers.table, &from);
    numbers.table.rekey(slot, to);
}

// The slot of a number that is in the table.
#[inline]
fn slot_of(numbers: &Table<Numbered, (), Known>, numbered: &Numbered) -> SlotNo
    requires { get (entries class_of_number numbers.now) (class_of_number numbered.now) ≡
        Some (numbered.now, tt) }
    ensures full { IsFull numbers.now result.index }
    ensures entry { entry_at numbers.now result.index ≡ Some (numbered.now, tt) }
{
    match numbers.find(numbered) {
        Some(slot) => slot,
        None => unreachable!(),
    }
}
