//! The numbers of keys that are in a list elsewhere.
ghost use Rattle.std.specs.Prelude.{◌≡◌, ◌∷◌, [], ℕ, List, None, Some, OnOk, OnErr};
ghost use Rattle.std.specs.FinMap.{empty, get, insert, remove};
ghost use Rattle.sw_index.specs.Index.{AreDifferent, IsAbsent, IsFound, IsIndexed, numbers_of};

use crate::found::{Absence, Found};
use crate::numbered::{Known, Numbered, forget};
use crate::sought::{Seeks, Sought};
use std::alloc::{AllocError, Global};
use sw_probe::Keyed;
use sw_table::Table;

/// The numbers of keys that are in a list elsewhere, each found by the key's hash. `IsIndexed` says that
/// these are the numbers of the keys of a list.
#[derive(Drop)]
pub struct Numbers {
    pub(crate) table: Table<Numbered, (), Known>,
}

impl Numbers {
    /// No number. It takes no memory.
    pub fn new(alloc: Global) -> Numbers
        ensures { numbers_of result ≡ empty }
    {
        Numbers {
            table: Table::new(alloc, Known),
        }
    }

    /// How many numbers there may be before the table grows. No contract covers it.
    #[inline]
    pub fn room(&self) -> usize {
        self.table.room()
    }

    /// The number of the key that is sought, which has this hash; or its absence, with which [`Numbers::add`] adds
    /// the number of a key of its class.
    #[inline]
    pub fn find<K: Keyed, S: Seeks<K>>(&self, sought: &S, hash: u64) -> Found
        requires { AreDifferent K.class (S.keys sought.now) }
        ensures found { (hash_of : List ℕ → ℕ) →
            IsIndexed K.class hash_of (S.keys sought.now) (numbers_of self.now) →
            IsFound K.class (S.keys sought.now) (S.sought sought.now) result }
        ensures absent { (hash_of : List ℕ → ℕ) →
            IsIndexed K.class hash_of (S.keys sought.now) (numbers_of self.now) →
            hash ≡ hash_of (S.sought sought.now) →
            IsAbsent K.class hash_of (S.keys sought.now) (S.sought sought.now) result }
    {
        let sought = Sought::<K, S>::new(sought, hash);
        match self.table.find(&sought) {
            Some(slot) => Found::At(self.table.at(slot).0.number),
            None => Found::Absent(Absence { hash }),
        }
    }

    /// The number that a look-up with this hash reads first, if that is the hash of its key: probably the number
    /// of the key. No contract covers it.
    #[inline]
    pub fn candidate(&self, hash: u64) -> Option<usize> {
        let numbered = self.table.candidate(hash)?;
        if numbered.hash == hash {
            Some(numbered.number)
        } else {
            None
        }
    }

    /// Adds the number of a key of a class that [`Numbers::find`] reported absent: it is the last of the list. If
    /// an allocation fails, or the table has its largest capacity and is full, no number is added.
    #[inline]
    pub fn add(&mut self, absence: Absence, number: usize) -> Result<(), AllocError>
        requires { get (numbers_of self.old) (absence.hash ∷ number ∷ []) ≡ None }
        ensures added { OnOk result (numbers_of self.new ≡ insert (numbers_of self.old) (absence.hash ∷ number ∷ [])
            (record { hash = absence.hash; number = number }, tt)) }
        ensures unchanged { OnErr result (numbers_of self.new ≡ numbers_of self.old) }
    {
        let numbered = Numbered {
            hash: absence.hash,
            number,
        };
        match self.table.place(numbered, ()) {
            Ok(_) => Ok(()),
            Err(_) => Err(AllocError),
        }
    }

    /// Removes the number of the key of an absence, which was added.
    pub fn take_back(&mut self, absence: Absence, number: usize)
        requires { get (numbers_of self.old) (absence.hash ∷ number ∷ []) ≡
            Some (record { hash = absence.hash; number = number }, tt) }
        ensures { numbers_of self.new ≡ remove (numbers_of self.old) (absence.hash ∷ number ∷ []) }
    {
        let numbered = Numbered {
            hash: absence.hash,
            number,
        };
        forget(self, numbered);
    }

    /// Makes room for `keys` numbers in total, as far as there is memory.
    pub fn make_room(&mut self, keys: usize)
        ensures { numbers_of self.new ≡ numbers_of self.old }
    {
        let _ = self.table.reserve(keys);
    }
}
