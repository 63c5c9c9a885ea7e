//! A table: its schema and its rows.
ghost use Rattle.std.specs.Prelude.{◌≡◌, ◌+◌, ◌<◌, All, ◌≤◌, ◌⊎◌, ◌++◌, ◌∷◌, [], IsTrue, IfOk, IfErr, OnOk, OnErr, None, false, length};
ghost use Rattle.gq_row.specs.Fitting.{fits_columns, has_null};
ghost use Rattle.gq_row.specs.Tables.{has_row};
ghost use Rattle.gq_table.specs.Changes.{IsPut, IsLoaded, IsDeleted, named_key};
ghost use Rattle.gq_table.specs.Refusing.{row_refusal, load_refusal, WhyNotPut, WhyNotLoaded};
ghost use Rattle.gq_table.specs.ValidTables.{IsValidTable};
ghost use Rattle.gq_table.specs.Stored.{IsStored, rows_of};
ghost use Rattle.gq_table.specs.declared.refusal.TableRefusal.TheVariants.{Limit, Memory};

use crate::column_store::ColumnStore;
use crate::keyed::KeyedRows;
use crate::refusal::TableRefusal;
use crate::rows::{RowCursor, Storage};
use gq_row::{Key, Limits, Row, Schema, Value};
use std::alloc::{AllocError, Global};
use std::marker::Model;
use sw_probe::KeyHash;

/// A schema and rows, with an index of their keys if there are key columns. Each row fits the columns, no two
/// have the same key, and there are at most 2^24. Contracts see the schema and the list of rows, whose order
/// any change may change.
#[derive(Drop)]
pub struct Table<H: KeyHash<Key>> {
    alloc: Global,
    schema: Schema,
    hasher: H,
    rows: Storage<H>,
}

impl<H: KeyHash<Key>> Model for Table<H> {
    ghost use Rattle.gq_row.specs.Tables.{PlainTable};
    ghost use Rattle.gq_table.specs.Stored.{IsStored, rows_of};

    ghost Value = { PlainTable };

    ghost view = { λ t. record { schema = t.schema; rows = rows_of t.rows } };

    ghost invariant = { λ t. IsStored t.schema t.rows };
}

impl<H: KeyHash<Key> + Copy> Table<H> {
    /// A table without rows, whose keys are hashed by `hasher`. It takes no memory.
    pub fn new(alloc: Global, schema: Schema, hasher: H) -> Table<H>
        ensures { result ≡ record { schema = schema; rows = [] } }
    {
        if schema.key().is_empty() {
            return Table {
                alloc,
                schema,
                hasher,
                rows: Storage::Columnar(ColumnStore::new(alloc)),
            };
        }
        Table {
            alloc,
            schema,
            hasher,
            rows: Storage::Keyed(KeyedRows::new(alloc, hasher)),
        }
    }

    /// An empty table with the same columns and key.
    pub fn new_like(&self) -> Result<Table<H>, AllocError>
        ensures { IfOk result
            (λ table. table ≡ record { schema = self.now.schema; rows = [] }) }
    {
        let schema = self.schema.copy(self.alloc)?;
        Ok(Table::new(self.alloc, schema, self.hasher))
    }

    #[inline]
    pub fn schema(&self) -> &Schema
        ensures { result.now ≡ self.now.schema }
    {
        &self.schema
    }

    /// The number of rows.
    pub fn len(&self) -> usize
        ensures count { result ≡ length self.now.rows }
        ensures valid { IsValidTable self.now }
    {
        match &self.rows {
            Storage::Keyed(rows) => {
                return rows.len();
            }
            Storage::Columnar(rows) => {
                return rows.len();
            }
        }
    }

    /// Reserves room for `rows` rows in total; for their cells only if there is a row, which says how wide they
    /// are. The contents don't change, even on error.
    pub fn reserve(&mut self, rows: usize) -> Result<(), AllocError>
        ensures { self.new ≡ self.old }
    {
        match &mut self.rows {
            Storage::Keyed(keyed) => {
                return keyed.reserve(rows);
            }
            Storage::Columnar(list) => {
                return list.reserve(rows.saturating_sub(list.len()));
            }
        }
    }

    /// The rows, each once.
    pub fn rows(&self) -> RowCursor<'_>
        ensures rows { result.rest ≡ self.now.rows }
        ensures valid { IsValidTable self.now }
    {
        RowCursor::new(self.alloc, &self.rows)
    }

    /// Replaces the row with the same key, which then is spelled as in `row`, or adds `row`. On error nothing
    /// changes: the first of [`TableRefusal`] that applies is returned. A replacement never allocates.
    pub fn upsert(&mut self, row: Row, limits: &Limits) -> Result<(), TableRefusal>
        ensures ok { OnOk result (IsPut self.old row self.new) }
        ensures taken { OnOk result (row_refusal limits.now.bounds self.old row ≡ None) }
        ensures refused { IfErr result (WhyNotPut limits.now.bounds self.old row) }
        ensures unchanged { OnErr result (self.new ≡ self.old) }
    {
        if !self.schema.fits(&row) {
            return Err(TableRefusal::TypeMismatch);
        }
        if row.has_null(self.schema.key()) {
            return Err(TableRefusal::NullKey);
        }
        let mut row = row;
        self.put(&mut row, limits)
    }

    /// As [`Table::upsert`], for a row that fits the columns and has no null in its key. What `row` holds then
    /// is unspecified; its memory can be reused for the next row.
    #[inline(always)]
    pub fn put(&mut self, row: &mut Row, limits: &Limits) -> Result<(), TableRefusal>
        requires fits { IsTrue (fits_columns self.old.schema.columns row.old) }
        requires keyed { has_null self.old.schema.key row.old ≡ false }
        ensures ok { OnOk result (IsPut self.old row.old self.new) }
        ensures taken { OnOk result (row_refusal limits.now.bounds self.old row.old ≡ None) }
        ensures refused { IfErr result (WhyNotPut limits.now.bounds self.old row.old) }
        ensures unchanged { OnErr result (self.new ≡ self.old) }
    {
        let most = limits.bounds.rows;
        match &mut self.rows {
            Storage::Keyed(rows) => {
                return rows.put(self.alloc, self.schema.key(), row, most);
            }
            Storage::Columnar(rows) => {
                return put_columnar(self.alloc, rows, row, most);
            }
        }
    }

    /// Puts all rows of another table with the same columns and key, in order, or on error none: `Limit` if
    /// there would be too many, `Memory` if an allocation fails. An empty table takes them over as a whole.
    pub fn load(&mut self, staged: Table<H>, limits: &Limits) -> Result<(), TableRefusal>
        requires { staged.schema ≡ self.old.schema }
        ensures ok { OnOk result (IsLoaded self.old staged.rows self.new) }
        ensures taken { OnOk result (load_refusal limits.now.bounds self.old staged.rows ≡ None) }
        ensures refused { IfErr result (WhyNotLoaded limits.now.bounds self.old staged.rows) }
        ensures unchanged { OnErr result (self.new ≡ self.old) }
    {
        let rows = staged.into_rows();
        let most = limits.bounds.rows;
        match &mut self.rows {
            Storage::Keyed(keyed) => {
                let Storage::Keyed(staged) = rows else {
                    unreachable!()
                };
                return keyed.load(self.alloc, self.schema.key(), staged, most);
            }
            Storage::Columnar(list) => {
                let Storage::Columnar(staged) = rows else {
                    unreachable!()
                };
                return load_columnar(self.alloc, list, staged, most);
            }
        }
    }

    // The rows, as they are stored.
    fn into_rows(self) -> Storage<H>
        ensures rows { rows_of result ≡ self.rows }
        ensures stored { IsStored self.schema result }
    {
        self.rows
    }

    /// Deletes the row whose key columns have the same values as `key`, and returns whether there was one. It
    /// never allocates.
    pub fn delete(&mut self, key: &[Value]) -> bool
        requires { 0 < length self.old.schema.key }
        ensures rows { IsDeleted self.old (named_key key.now) self.new }
        ensures answer { result ≡ has_row self.old.schema.key self.old.rows (named_key key.now) }
    {
        match &mut self.rows {
            Storage::Keyed(rows) => rows.delete(self.schema.key(), key),
            Storage::Columnar(_) => unreachable!(),
        }
    }
}

// Appends a row, unless there would be more than `most`. Its texts move, and its memory can be reused.
#[inline(always)]
fn put_columnar(
    alloc: Global,
    rows: &mut ColumnStore,
    row: &mut Row,
    most: usize,
) -> Result<(), TableRefusal>
    requires { All (λ other. length other ≡ length row.old) rows.old }
    ensures ok { OnOk result (rows.new ≡ rows.old ++ row.old ∷ []) }
    ensures few { OnOk result (length rows.old < most) }
    ensures err { OnErr result (rows.new ≡ rows.old) }
    ensures why { IfErr result (λ why. ((why ≡ Limit) × (most ≤ length rows.old))
        ⊎ ((why ≡ Memory) × (length rows.old < most))) }
{
    if most <= rows.len() {
        return Err(TableRefusal::Limit);
    }
    match rows.push(alloc, row.cells_mut()) {
        Ok(()) => Ok(()),
        Err(_) => Err(TableRefusal::Memory),
    }
}

// Appends all of `rows`, unless there would be more than `most`; on error none is appended.
fn load_columnar(
    alloc: Global,
    list: &mut ColumnStore,
    rows: ColumnStore,
    most: usize,
) -> Result<(), TableRefusal>
    requires few { most ≤ 16777216 }
    requires even { All (λ row. All (λ other. length other ≡ length row) list.old) rows }
    ensures ok { OnOk result (list.new ≡ list.old ++ rows) }
    ensures few { OnOk result (length list.old + length rows ≤ most) }
    ensures err { OnErr result (list.new ≡ list.old) }
    ensures why { IfErr result (λ why.
        ((why ≡ Limit) × (most < length list.old + length rows)) ⊎ (why ≡ Memory)) }
{
    if most < list.len().saturating_add(rows.len()) {
        return Err(TableRefusal::Limit);
    }
    match list.append(alloc, rows) {
        Ok(()) => Ok(()),
        Err(_) => Err(TableRefusal::Memory),
    }
}
