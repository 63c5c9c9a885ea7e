//! The index.
ghost use Rattle.std.specs.Prelude.{◌≡◌, ◌↔◌, ◌<◌, ◌++◌, ◌∷◌, [], Some, IsTrue, length, OnOk, OnErr};
ghost use Rattle.std.specs.List.{slice_get};
ghost use Rattle.sw_index.specs.Index.{IsFound, IsAbsent, IsAbsence, AreDifferent};

use crate::found::{Absence, Found};
use crate::numbers::Numbers;
use crate::sought::InList;
use std::alloc::{AllocError, Global};
use std::marker::Model;
use sw_probe::{KeyHash, Keyed, Names};

/// Distinct keys in insertion order, each found by its hash. Contracts see the list of keys, and the hasher.
#[derive(Drop)]
pub struct Index<K: Keyed, H: KeyHash<K>> {
    pub(crate) keys: Vec<K>,
    pub(crate) numbers: Numbers,
    pub(crate) hasher: H,
}

impl<K: Keyed, H: KeyHash<K>> Model for Index<K, H> {
    ghost use Rattle.sw_index.specs.Index.{IndexView, IsIndexed, numbers_of};

    ghost Value = { IndexView K H };

    ghost view = { λ x. record { keys = x.keys.items; hasher = x.hasher } };

    ghost invariant = { λ x. IsIndexed K.class (H.hash_of x.hasher)
        x.keys.items (numbers_of x.numbers) };
}

impl<K: Keyed, H: KeyHash<K>> Index<K, H> {
    /// An empty index. It takes no memory.
    pub fn new(alloc: Global, hasher: H) -> Index<K, H>
        ensures keys { result.keys ≡ [] }
        ensures hasher { result.hasher ≡ hasher }
    {
        Index {
            keys: Vec::new(alloc),
            numbers: Numbers::new(alloc),
            hasher,
        }
    }

    /// The number of keys.
    #[inline]
    pub fn len(&self) -> usize
        ensures { result ≡ length self.now.keys }
    {
        self.keys.len()
    }

    /// How many keys there may be before the table of numbers grows. No contract covers it.
    #[inline]
    pub fn room(&self) -> usize {
        self.numbers.room()
    }

    /// The keys in insertion order.
    #[inline]
    pub fn keys(&self) -> &[K]
        ensures list { result.now ≡ self.now.keys }
        ensures different { AreDifferent K.class self.now.keys }
    {
        self.keys.as_slice()
    }

    /// The hash of the key that `q` names, for the calls that take a hash.
    #[inline]
    pub fn hash<Q: Names<K>>(&self, q: &Q) -> u64
        ensures { result ≡ H.hash_of self.now.hasher (Q.named q.now) }
    {
        self.hasher.hash(q)
    }

    /// The number of the key that `q` names; or its absence, with which [`Index::add`] adds a key of its class.
    #[inline]
    pub fn find<Q: Names<K>>(&self, q: &Q) -> Found
        ensures found { IsFound K.class self.now.keys (Q.named q.now) result }
        ensures absent { IsAbsent K.class (H.hash_of self.now.hasher) self.now.keys
            (Q.named q.now) result }
    {
        self.find_hashed(q, self.hash(q))
    }

    /// As [`Index::find`], with the hash of the key.
    #[inline]
    pub fn find_hashed<Q: Names<K>>(&self, q: &Q, hash: u64) -> Found
        requires { hash ≡ H.hash_of self.now.hasher (Q.named q.now) }
        ensures found { IsFound K.class self.now.keys (Q.named q.now) result }
        ensures absent { IsAbsent K.class (H.hash_of self.now.hasher) self.now.keys
            (Q.named q.now) result }
    {
        let sought = InList {
            keys: self.keys.as_slice(),
            key: q,
        };
        self.numbers.find::<K, InList<'_, K, Q>>(&sought, hash)
    }

    /// The number that a look-up with this hash reads first, if that is the hash of its key: probably the number
    /// of the key. No contract covers it.
    #[inline]
    pub fn candidate(&self, hash: u64) -> Option<usize> {
        self.numbers.candidate(hash)
    }

    /// Whether the key that `q` names has this number.
    #[inline]
    pub fn is_at<Q: Names<K>>(&self, number: usize, q: &Q) -> bool
        ensures { IsTrue result ↔ IsFound K.class self.now.keys (Q.named q.now) (Found.At number) }
    {
        match self.keys.get(number) {
            Some(key) => q.same(key),
            None => false,
        }
    }

    /// Appends a key of a class that [`Index::find`] reported absent. If an allocation fails, or the table of
    /// numbers has its largest capacity and is full, the index doesn't change and the key is dropped.
    #[inline]
    pub fn add(&mut self, absence: Absence, key: K) -> Result<(), AllocError>
    where
        K: Drop,
        requires { IsAbsence K.class (H.hash_of self.old.hasher) self.old.keys
            (K.class key) absence }
        ensures added { OnOk result (self.new.keys ≡ self.old.keys ++ key ∷ []) }
        ensures unchanged { OnErr result (self.new ≡ self.old) }
        ensures hasher { self.new.hasher ≡ self.old.hasher }
    {
        let number = self.keys.len();
        self.keys.push(key)?;
        let Ok(()) = self.numbers.add(absence, number) else {
            let _ = self.keys.pop();
            return Err(AllocError);
        };
        Ok(())
    }

    /// Makes room for `keys` keys in total, as far as there is memory.
    pub fn make_room(&mut self, keys: usize)
        ensures { self.new ≡ self.old }
    {
        self.numbers.make_room(keys);
        let _ = self.keys.reserve(keys.saturating_sub(self.keys.len()));
    }

    /// The vector of the keys.
    pub fn into_keys(self) -> Vec<K>
    where
        H: Drop,
        ensures list { result.items ≡ self.keys }
        ensures different { AreDifferent K.class self.keys }
    {
        self.keys
    }
}
