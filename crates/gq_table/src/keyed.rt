//! Rows with an index of their keys.
ghost use Rattle.std.specs.Prelude.{◌≡◌, ◌<◌, ◌≤◌, ◌++◌, ◌∷◌, [], All, IsTrue, OnOk, OnErr, IfErr, IsPermutation, length, slice_index_or};
ghost use Rattle.sw_index.specs.Index.{IsAbsence};
ghost use Rattle.gq_row.specs.Classes.{class_of};
ghost use Rattle.gq_row.specs.Rows.{key_of};
ghost use Rattle.gq_row.specs.Tables.{put_by_key, delete, has_row};
ghost use Rattle.gq_table.specs.Changes.{named_key};
ghost use Rattle.gq_table.specs.Keyed.{OwnKeys, AreApart};
ghost use Rattle.gq_table.specs.Refusing.{rows_with, WhyNotKeyed};

use crate::refusal::TableRefusal;
use crate::row_store::RowStore;
use gq_row::{Key, KeyCells, KeyRef, Row, Value};
use std::alloc::{AllocError, Global};
use sw_index::{Absence, Found, Index};
use sw_probe::KeyHash;

/// Rows in one list, and the index of their keys in the same order: the number of a key is its row's position.
#[derive(Drop)]
pub struct KeyedRows<H: KeyHash<Key>> {
    pub(crate) index: Index<Key, H>,
    pub(crate) rows: RowStore,
}

impl<H: KeyHash<Key>> KeyedRows<H> {
    // An empty store. It takes no memory.
    pub(crate) fn new(alloc: Global, hasher: H) -> KeyedRows<H>
        ensures rows { result.rows ≡ [] }
        ensures keys { result.index.keys ≡ [] }
    {
        KeyedRows {
            index: Index::new(alloc, hasher),
            rows: RowStore::new(alloc),
        }
    }

    pub(crate) fn len(&self) -> usize
        ensures { result ≡ length self.now.rows }
    {
        self.rows.len()
    }

    // Reserves room for `rows` rows in total.
    pub(crate) fn reserve(&mut self, rows: usize) -> Result<(), AllocError>
        ensures { self.new ≡ self.old }
    {
        self.index.make_room(rows);
        self.rows.reserve(rows.saturating_sub(self.rows.len()))
    }

    // Replaces the row with the same key, or appends `row`, unless there would be more than `most`. It looks up
    // once, and a replacement doesn't allocate; `row` then has the replaced values.
    #[inline(never)]
    pub(crate) fn put(
        &mut self,
        alloc: Global,
        positions: &[usize],
        row: &mut Row,
        most: usize,
    ) -> Result<(), TableRefusal>
        requires columns { All (λ position. position < length row.old) positions.now }
        requires even { All (λ other. length other ≡ length row.old) self.old.rows }
        requires own { OwnKeys positions.now self.old }
        requires apart { IsTrue (AreApart positions.now self.old.rows) }
        ensures own { OwnKeys positions.now self.new }
        ensures ok { OnOk result (self.new.rows ≡ put_by_key positions.now self.old.rows row.old) }
        ensures few { OnOk result (rows_with positions.now self.old.rows row.old ≤ most) }
        ensures err { OnErr result (self.new ≡ self.old) }
        ensures why { IfErr result (WhyNotKeyed most positions.now self.old.rows row.old) }
    {
        match self.index.find(&KeyRef::new(row.cells(), positions)) {
            Found::At(number) => {
                return self.replace(positions, number, row, most);
            }
            Found::Absent(absence) => {
                return self.add(alloc, positions, absence, row, most);
            }
        }
    }

    // Swaps `row` with the row at a position, which has the same key.
    fn replace(
        &mut self,
        positions: &[usize],
        position: usize,
        row: &mut Row,
        most: usize,
    ) -> Result<(), TableRefusal>
        requires even { All (λ other. length other ≡ length row.old) self.old.rows }
        requires own { OwnKeys positions.now self.old }
        requires apart { IsTrue (AreApart positions.now self.old.rows) }
        requires within { position < length self.old.rows }
        requires found { key_of positions.now (slice_index_or self.old.rows position []) ≡
            key_of positions.now row.old }
        ensures own { OwnKeys positions.now self.new }
        ensures ok { OnOk result (self.new.rows ≡ put_by_key positions.now self.old.rows row.old) }
        ensures few { OnOk result (rows_with positions.now self.old.rows row.old ≤ most) }
        ensures err { OnErr result (self.new ≡ self.old) }
        ensures why { IfErr result (WhyNotKeyed most positions.now self.old.rows row.old) }
    {
        let _ = positions;
        if most < self.rows.len() {
            return Err(TableRefusal::Limit);
        }
        self.rows.exchange(position, row.cells_mut());
        Ok(())
    }

    // Appends a row whose key is absent. Its values move, and its memory can be reused.
    fn add(
        &mut self,
        alloc: Global,
        positions: &[usize],
        absence: Absence,
        row: &mut Row,
        most: usize,
    ) -> Result<(), TableRefusal>
        requires columns { All (λ position. position < length row.old) positions.now }
        requires even { All (λ other. length other ≡ length row.old) self.old.rows }
        requires own { OwnKeys positions.now self.old }
        requires absent { IsAbsence class_of (H.hash_of self.old.index.hasher)
            self.old.index.keys (class_of (key_of positions.now row.old)) absence }
        ensures own { OwnKeys positions.now self.new }
        ensures ok { OnOk result (self.new.rows ≡ put_by_key positions.now self.old.rows row.old) }
        ensures few { OnOk result (rows_with positions.now self.old.rows row.old ≤ most) }
        ensures err { OnErr result (self.new ≡ self.old) }
        ensures why { IfErr result (WhyNotKeyed most positions.now self.old.rows row.old) }
    {
        if most <= self.rows.len() {
            return Err(TableRefusal::Limit);
        }
        let Ok(key) = Key::of(alloc, row.cells(), positions) else {
            return Err(TableRefusal::Memory);
        };
        match self.push(absence, key, row.cells_mut()) {
            Ok(()) => Ok(()),
            Err(_) => Err(TableRefusal::Memory),
        }
    }

    // Appends a row and its key, which is absent. The row's values move.
    pub(crate) fn push(
        &mut self,
        absence: Absence,
        key: Key,
        cells: &mut [Value],
    ) -> Result<(), AllocError>
        requires even { All (λ other. length other ≡ length cells.old) self.old.rows }
        requires absent { IsAbsence class_of (H.hash_of self.old.index.hasher)
            self.old.index.keys (class_of key) absence }
        ensures rows { OnOk result (self.new.rows ≡ self.old.rows ++ cells.old ∷ []) }
        ensures keys { OnOk result (self.new.index.keys ≡ self.old.index.keys ++ key ∷ []) }
        ensures hasher { self.new.index.hasher ≡ self.old.index.hasher }
        ensures unchanged { OnErr result (self.new ≡ self.old) }
    {
        let rows = self.rows.len();
        self.rows.push(cells)?;
        if self.index.add(absence, key).is_err() {
            self.rows.truncate(rows);
            return Err(AllocError);
        }
        Ok(())
    }

    // Deletes the row with the key that `key` names, and returns whether there was one. The last row takes its
    // place. It doesn't allocate.
    pub(crate) fn delete(&mut self, positions: &[usize], key: &[Value]) -> bool
        requires own { OwnKeys positions.now self.old }
        requires apart { IsTrue (AreApart positions.now self.old.rows) }
        ensures own { OwnKeys positions.now self.new }
        ensures answer { result ≡ has_row positions.now self.old.rows (named_key key.now) }
        ensures rows { IsPermutation (delete positions.now self.old.rows (named_key key.now))
            self.new.rows }
    {
        let _ = positions;
        match self.index.find(&KeyCells(key)) {
            Found::At(number) => {
                let _ = self.index.swap_remove(number);
                self.rows.swap_remove(number);
                true
            }
            Found::Absent(_) => false,
        }
    }
}
