//! An index of keys that are stored in one list of cells.
ghost use Rattle.std.specs.Prelude.{◌≡◌, ◌↔◌, ◌++◌, ◌∷◌, [], IsTrue, OnErr, OnOk, length};
ghost use Rattle.gq_row.specs.Classes.{class_of};
ghost use Rattle.sw_index.specs.Index.{IsFound, IsAbsent, IsAbsence, AreDifferent};

use gq_cells::{Keys, KeysLeft};
use gq_row::{Key, KeyRef};
use std::alloc::{AllocError, Global};
use std::marker::Model;
use sw_index::{Absence, Found, Numbers, Seeks};
use sw_probe::KeyHash;

/// As an [`Index`](sw_index::Index), but a key has no memory of its own. The first key says how many values each has;
/// one of another width is refused as out of memory.
#[derive(Drop)]
pub struct KeyIndex<H: KeyHash<Key>> {
    keys: Keys,
    numbers: Numbers,
    hasher: H,
}

impl<H: KeyHash<Key>> Model for KeyIndex<H> {
    ghost use Rattle.std.specs.Prelude.{List};
    ghost use Rattle.gq_row.specs.declared.value.Value.{Value as Cell};
    ghost use Rattle.gq_row.specs.Classes.{class_of};
    ghost use Rattle.sw_index.specs.Index.{IndexView, IsIndexed, numbers_of};

    ghost Value = { IndexView (List Cell) H };

    ghost view = { λ x. record { keys = x.keys; hasher = x.hasher } };

    ghost invariant = { λ x. IsIndexed class_of (H.hash_of x.hasher) x.keys (numbers_of x.numbers) };
}

impl<H: KeyHash<Key>> KeyIndex<H> {
    /// An empty index. `width` is the expected number of values of a key. It takes no memory.
    pub fn new(alloc: Global, width: usize, hasher: H) -> KeyIndex<H>
        ensures keys { result.keys ≡ [] }
        ensures hasher { result.hasher ≡ hasher }
    {
        KeyIndex {
            keys: Keys::new(alloc, width),
            numbers: Numbers::new(alloc),
            hasher,
        }
    }

    /// The number of keys.
    #[inline]
    pub fn len(&self) -> usize
        ensures { result ≡ length self.now.keys }
    {
        self.keys.len()
    }

    /// How many keys there may be before the table of numbers grows. No contract covers it.
    #[inline]
    pub fn room(&self) -> usize {
        self.numbers.room()
    }

    /// The hash of a key.
    #[inline(always)]
    pub fn hash(&self, key: &KeyRef<'_>) -> u64
        ensures { result ≡ H.hash_of self.now.hasher (class_of key.now) }
    {
        self.hasher.hash(key)
    }

    /// The number of a key, or its absence.
    #[inline]
    pub fn find(&self, key: &KeyRef<'_>) -> Found
        ensures found { IsFound class_of self.now.keys (class_of key.now) result }
        ensures absent { IsAbsent class_of (H.hash_of self.now.hasher) self.now.keys
            (class_of key.now) result }
    {
        self.find_hashed(key, self.hash(key))
    }

    /// As [`KeyIndex::find`], with the hash of the key.
    #[inline]
    pub fn find_hashed(&self, key: &KeyRef<'_>, hash: u64) -> Found
        requires { hash ≡ H.hash_of self.now.hasher (class_of key.now) }
        ensures found { IsFound class_of self.now.keys (class_of key.now) result }
        ensures absent { IsAbsent class_of (H.hash_of self.now.hasher) self.now.keys
            (class_of key.now) result }
    {
        let sought = InKeys {
            keys: &self.keys,
            key,
        };
        self.numbers.find::<Key, InKeys<'_>>(&sought, hash)
    }

    /// The number that a look-up with this hash reads first. No contract covers it.
    #[inline(always)]
    pub fn candidate(&self, hash: u64) -> Option<usize> {
        self.numbers.candidate(hash)
    }

    /// Whether a key has this number.
    #[inline(always)]
    pub fn is_at(&self, number: usize, key: &KeyRef<'_>) -> bool
        ensures { IsTrue result ↔ IsFound class_of self.now.keys (class_of key.now) (Found.At number) }
    {
        self.keys.is_at(number, key)
    }

    /// Appends a key that [`KeyIndex::find`] reported absent. On error the index doesn't change.
    #[inline]
    pub fn add(&mut self, absence: Absence, key: &KeyRef<'_>) -> Result<(), AllocError>
        requires { IsAbsence class_of (H.hash_of self.old.hasher) self.old.keys
            (class_of key.now) absence }
        ensures added { OnOk result (self.new.keys ≡ self.old.keys ++ key.now ∷ []) }
        ensures unchanged { OnErr result (self.new ≡ self.old) }
        ensures hasher { self.new.hasher ≡ self.old.hasher }
    {
        let number = self.keys.len();
        self.numbers.add(absence, number)?;
        let Ok(()) = self.keys.push(key) else {
            self.numbers.take_back(absence, number);
            return Err(AllocError);
        };
        Ok(())
    }

    /// Makes room for the numbers of `keys` keys in total, as far as there is memory.
    pub fn make_room(&mut self, keys: usize)
        ensures { self.new ≡ self.old }
    {
        self.numbers.make_room(keys);
    }

    /// Reserves room for the values of `keys` more keys of the expected width, if memory allows.
    pub fn expect(&mut self, keys: usize)
        ensures { self.new ≡ self.old }
    {
        self.keys.expect(keys);
    }

    /// The keys, which leave one by one.
    pub fn leave(self) -> KeysLeft
    where
        H: Drop,
        ensures list { result ≡ self.keys }
        ensures different { AreDifferent class_of self.keys }
    {
        self.keys.leave()
    }
}

// A key, and the list in which it is sought.
#[derive(Drop)]
struct InKeys<'a> {
    keys: &'a Keys,
    key: &'a KeyRef<'a>,
}

impl Seeks<Key> for InKeys<'_> {
    ghost keys = { λ s. s.keys.now };

    ghost sought = { λ s. class_of s.key.now };

    #[inline(always)]
    fn is_at(&self, number: usize) -> bool {
        self.keys.is_at(number, self.key)
    }
}
