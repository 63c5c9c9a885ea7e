//! A key that is looked up in an index, as the number that it may have.
ghost use Rattle.std.specs.Prelude.{◌≡◌, ◌↔◌, IsTrue, List, ℕ};
ghost use Rattle.sw_index.specs.Index.{AreDifferent, IsFound, named_number};

use crate::found::Found;
use crate::numbered::Numbered;
use std::marker::PhantomData;
use sw_probe::{Keyed, Names, Step, WordStep};

/// A key that is sought in a list of keys.
pub trait Seeks<K: Keyed> {
    /// The keys of the list.
    ghost keys: { Self → List K };

    /// The class that is sought.
    ghost sought: { Self → List ℕ };

    /// Whether the key with this number is of the class.
    fn is_at(&self, number: usize) -> bool
        ensures { IsTrue result ↔ IsFound K.class (keys self.now) (sought self.now) (Found.At number) };
}

/// The keys of an index, and one that is looked up: it names the number that it has among them.
#[derive(Drop)]
pub(crate) struct Sought<'a, K: Keyed, S: Seeks<K>> {
    seeks: &'a S,
    hash: u64,
    of: PhantomData<K>,
    ghost different: { AreDifferent K.class (S.keys seeks.now) },
}

impl<'a, K: Keyed, S: Seeks<K>> Sought<'a, K, S> {
    #[inline]
    pub(crate) fn new(seeks: &'a S, hash: u64) -> Sought<'a, K, S>
        requires { AreDifferent K.class (S.keys seeks.now) }
        ensures seeks { result.seeks.now ≡ seeks.now }
        ensures hash { result.hash ≡ hash }
    {
        Sought {
            seeks,
            hash,
            of: PhantomData,
        }
    }
}

impl<K: Keyed, S: Seeks<K>> Names<Numbered> for Sought<'_, K, S> {
    ghost named = { λ s. named_number K.class s.hash (S.sought s.seeks.now) (S.keys s.seeks.now) };

    #[inline]
    fn same(&self, key: &Numbered) -> bool {
        key.hash == self.hash && self.seeks.is_at(key.number)
    }

    #[inline]
    fn fold<F: Step>(&self, start: u64, f: &F) -> u64 {
        self.hash.fold_key(start, f)
    }

    #[inline]
    fn fold_words<F: WordStep>(&self, start: u64, f: &F) -> u64 {
        f.step(start, self.hash)
    }
}

/// A key that is sought in a slice of keys.
#[derive(Drop)]
pub(crate) struct InList<'a, K: Keyed, Q: Names<K>> {
    pub(crate) keys: &'a [K],
    pub(crate) key: &'a Q,
}

impl<K: Keyed, Q: Names<K>> Seeks<K> for InList<'_, K, Q> {
    ghost keys = { λ s. s.keys.now };

    ghost sought = { λ s. Q.named s.key.now };

    #[inline]
    fn is_at(&self, number: usize) -> bool {
        match self.keys.get(number) {
            Some(there) => self.key.same(there),
            None => false,
        }
    }
}
