//! Rows that match others.
ghost use Rattle.std.specs.Prelude.{◌≡◌, ◌<◌, ◌≤◌, ◌++◌, ◌∷◌, [], ℕ, not, All, List, length, map, IsTrue, IsOk, IfOk, OnOk, OnErr};
ghost use Rattle.gq_row.specs.declared.value.Value.{Value as Cell};
ghost use Rattle.gq_row.specs.Classes.{class_of};
ghost use Rattle.gq_row.specs.Fitting.{has_null};
ghost use Rattle.gq_row.specs.Rows.{key_of};
ghost use Rattle.gq_select.specs.KeySets.{AreKeysOf, has};
ghost use Rattle.gq_select.specs.Matches.{exists};

use gq_group::KeyIndex;
use gq_row::{Key, KeyRef, Value, has_null};
use std::alloc::{AllocError, Global};
use sw_index::Found;
use sw_probe::KeyHash;

/// The keys of rows in some columns, but for those with null, which equals nothing.
#[derive(Drop)]
pub struct KeySet<H: KeyHash<Key>> {
    index: KeyIndex<H>,
}

// With fewer keys, about a quarter of a megabyte, all of a set is cached.
const MANY_KEYS: usize = 8192;

impl<H: KeyHash<Key>> KeySet<H> {
    /// An empty set. It takes no memory.
    pub fn new(alloc: Global, hasher: H) -> KeySet<H>
        ensures { (columns : List ℕ) → AreKeysOf columns [] result }
    {
        KeySet {
            index: KeyIndex::new(alloc, 0, hasher),
        }
    }

    /// Adds the key of a row, which is copied only if it is new; a key with null is left out. On error the set
    /// doesn't change.
    pub fn add(&mut self, row: &[Value], columns: &[usize]) -> Result<(), AllocError>
        requires { All (λ column. column < length row.now) columns.now }
        ensures keys { OnOk result ((rows : List (List Cell)) → AreKeysOf columns.now rows self.old →
            AreKeysOf columns.now (rows ++ row.now ∷ []) self.new) }
        ensures unchanged { OnErr result (self.new ≡ self.old) }
        ensures null { IsTrue (has_null columns.now row.now) → IsOk result }
        ensures known { IsTrue (has self.old (key_of columns.now row.now)) → IsOk result }
    {
        self.add_at(row, columns, None)
    }

    /// As [`KeySet::add`], and tries a candidate first, if there is one. Only speed depends on it.
    #[inline]
    pub fn add_at(
        &mut self,
        row: &[Value],
        columns: &[usize],
        candidate: Option<usize>,
    ) -> Result<(), AllocError>
        requires { All (λ column. column < length row.now) columns.now }
        ensures keys { OnOk result ((rows : List (List Cell)) → AreKeysOf columns.now rows self.old →
            AreKeysOf columns.now (rows ++ row.now ∷ []) self.new) }
        ensures unchanged { OnErr result (self.new ≡ self.old) }
        ensures null { IsTrue (has_null columns.now row.now) → IsOk result }
        ensures known { IsTrue (has self.old (key_of columns.now row.now)) → IsOk result }
    {
        if has_null(row, columns) {
            return Ok(());
        }
        let key = KeyRef::new(row, columns);
        if let Some(number) = candidate
            && self.index.is_at(number, &key)
        {
            return Ok(());
        }
        match self.index.find(&key) {
            Found::At(_) => Ok(()),
            Found::Absent(absence) => self.index.add(absence, &key),
        }
    }

    /// Whether it pays to find the candidates of many rows before the first look-up. No contract covers it.
    pub fn is_large(&self) -> bool {
        self.index.len() >= MANY_KEYS
    }

    /// The hash of the key of a row, for [`KeySet::candidate`].
    #[inline]
    pub fn hash(&self, row: &[Value], columns: &[usize]) -> u64
        requires { All (λ column. column < length row.now) columns.now }
        ensures { result ≡ H.hash_of self.now.index.hasher (class_of (key_of columns.now row.now)) }
    {
        self.index.hash(&KeyRef::new(row, columns))
    }

    /// The number that a look-up with this hash reads first, for [`KeySet::add_at`] and [`semi_join_at`]. No contract
    /// covers it.
    #[inline]
    pub fn candidate(&self, hash: u64) -> Option<usize> {
        self.index.candidate(hash)
    }

    /// The keys of at most 2^24 rows in these columns.
    pub fn build(
        alloc: Global,
        hasher: H,
        rows: &[&[Value]],
        columns: &[usize],
    ) -> Result<KeySet<H>, AllocError>
    where
        H: Drop,
        requires few { length rows.now ≤ 16777216 }
        requires columns { All (λ row. All (λ column. column < length row.now) columns.now)
            rows.now }
        ensures { IfOk result (λ keys. AreKeysOf columns.now (map (λ row. row.now) rows.now) keys) }
    {
        let mut keys = KeySet::new(alloc, hasher);
        for row in rows {
            keys.add(row, columns)?;
        }
        Ok(keys)
    }
}

/// Whether one of the rows of `keys` has in its columns the same values as `row` in `columns`, none of them
/// null. Nothing is copied.
#[inline]
pub fn semi_join<H: KeyHash<Key>>(keys: &KeySet<H>, row: &[Value], columns: &[usize]) -> bool
    requires { All (λ column. column < length row.now) columns.now }
    ensures found { result ≡ has keys.now (key_of columns.now row.now) }
    ensures exists { (theirs : List ℕ) (others : List (List Cell)) →
        AreKeysOf theirs others keys.now → result ≡ exists row.now columns.now others theirs }
{
    match keys.index.find(&KeyRef::new(row, columns)) {
        Found::At(_) => true,
        Found::Absent(_) => false,
    }
}

/// As [`semi_join`], and tries a candidate first, if there is one. Only speed depends on it.
#[inline]
pub fn semi_join_at<H: KeyHash<Key>>(
    keys: &KeySet<H>,
    row: &[Value],
    columns: &[usize],
    candidate: Option<usize>,
) -> bool
    requires { All (λ column. column < length row.now) columns.now }
    ensures { result ≡ has keys.now (key_of columns.now row.now) }
{
    if let Some(number) = candidate
        && keys.index.is_at(number, &KeyRef::new(row, columns))
    {
        return true;
    }
    semi_join(keys, row, columns)
}

/// The opposite of [`semi_join`]. So a row with null in one of its columns is kept.
#[inline]
pub fn anti_join<H: KeyHash<Key>>(keys: &KeySet<H>, row: &[Value], columns: &[usize]) -> bool
    requires { All (λ column. column < length row.now) columns.now }
    ensures missing { result ≡ not (has keys.now (key_of columns.now row.now)) }
    ensures exists { (theirs : List ℕ) (others : List (List Cell)) →
        AreKeysOf theirs others keys.now →
        result ≡ not (exists row.now columns.now others theirs) }
{
    !semi_join(keys, row, columns)
}
