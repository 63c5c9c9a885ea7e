//! The tables of a database, by their names.
ghost use Rattle.std.specs.Prelude.{◌≡◌, ◌++◌, ◌∷◌, [], IfSome, OnOk, OnErr, length, option_copied, MatchOption, None};
ghost use Rattle.gq_row.specs.Fitting.{stored_in};
ghost use Rattle.gq_reply.specs.declared.reply.Reply.TheVariants.{Done};
ghost use Rattle.gq_reply.specs.Refusals.{unnumbered};
ghost use Rattle.gq_table.specs.ValidTables.{IsValidTable};
ghost use Rattle.gq_engine.specs.Databases.{table_at, IsTableAt, IsKeyed};
ghost use Rattle.gq_engine.specs.Refusing.{put_within, put_all_within, table_refusal};
ghost use Rattle.gq_engine.specs.Serving.{Changes, Settles, Takes, Deletes, deleted};
ghost use Rattle.gq_engine.specs.Steps.{with_row, with_rows, delete_row, drop_table};

use crate::keys::{check_key, store_key};
use gq_reply::{Refusal, Refused};
use gq_row::{Key, Limits, Row, Schema, Text, Value};
use gq_table::{Table, TableRefusal};
use std::alloc::{AllocError, Global};
use std::marker::Model;
use sw_probe::KeyHash;

/// Tables by their names, which are distinct. There are few, so the list is searched from its start.
#[derive(Drop)]
pub struct Catalog<H: KeyHash<Key>> {
    alloc: Global,
    hasher: H,
    tables: Vec<(Text, Table<H>)>,
}

impl<H: KeyHash<Key>> Model for Catalog<H> {
    ghost use Rattle.gq_engine.specs.Databases.{Database};

    ghost Value = { Database };

    ghost view = { λ c. c.tables.items };

    ghost use Rattle.std.specs.Prelude.{IsTrue};
    ghost use Rattle.gq_engine.specs.Databases.{names_differ, IsKeyed};

    ghost invariant = { λ c. IsTrue (names_differ c.tables.items) × IsKeyed c.tables.items };
}

impl<H: KeyHash<Key> + Copy> Catalog<H> {
    /// A catalog without tables, whose keys will be hashed by `hasher`.
    pub fn new(alloc: Global, hasher: H) -> Catalog<H>
        ensures { result ≡ [] }
    {
        Catalog {
            alloc,
            hasher,
            tables: Vec::new(alloc),
        }
    }

    /// The number of its tables.
    pub fn len(&self) -> usize
        ensures count { result ≡ length self.now }
        ensures keyed { IsKeyed self.now }
    {
        self.tables.len()
    }

    /// The table of a name.
    pub fn get(&self, name: &str) -> Option<&Table<H>>
        ensures { option_copied result ≡ table_at self.now name.now }
    {
        let i = find_table(self.tables.as_slice(), name)?;
        Some(&self.tables[i].1)
    }

    /// Puts a row into the table of a name, its values as the columns store them.
    pub fn upsert(&mut self, name: &str, row: Row, limits: &Limits) -> Result<(), Refused>
        ensures { Changes (with_row limits.now.bounds self.old name.now row)
            result self.old self.new }
    {
        match find_table(self.tables.as_slice(), name) {
            Some(i) => put_row(&mut self.tables[i].1, row, limits),
            None => Err(Refused::from(Refusal::NoTable)),
        }
    }

    /// Puts the rows of a table with the same columns and key into the table of a name, one after
    /// the other: all or none.
    pub fn load(&mut self, name: &str, staged: Table<H>, limits: &Limits) -> Result<(), Refused>
        requires { IfSome (table_at self.old name.now)
            (λ table. staged.schema ≡ table.schema) }
        ensures { Changes (with_rows limits.now.bounds self.old name.now staged.rows)
            result self.old self.new }
    {
        match find_table(self.tables.as_slice(), name) {
            Some(i) => put_rows(&mut self.tables[i].1, staged, limits),
            None => Err(Refused::from(Refusal::NoTable)),
        }
    }

    /// Deletes the row with this key from the table of a name, and returns whether there was one. The
    /// values are converted in place to what the key's columns store, so it takes no memory.
    pub fn delete(&mut self, name: &str, values: &mut [Value]) -> Result<bool, Refused>
        ensures { Settles deleted (delete_row self.old name.now values.old)
            result self.old self.new }
    {
        match find_table(self.tables.as_slice(), name) {
            Some(i) => delete_row(&mut self.tables[i].1, values),
            None => Err(Refused::from(Refusal::NoTable)),
        }
    }

    /// Takes the table of a name out. It takes no memory.
    pub fn remove(&mut self, name: &str) -> Result<(), Refused>
        ensures { Settles (λ _. Done 0) (drop_table self.old name.now) result self.old self.new }
    {
        match find_table(self.tables.as_slice(), name) {
            Some(i) => {
                drop(self.tables.remove(i));
                Ok(())
            }
            None => Err(Refused::from(Refusal::NoTable)),
        }
    }

    /// Adds an empty table under a name that has none.
    pub fn add(&mut self, name: Text, schema: Schema) -> Result<(), AllocError>
        requires { table_at self.old name ≡ None }
        ensures ok { OnOk result
            (self.new ≡ self.old ++ (name, record { schema = schema; rows = [] }) ∷ []) }
        ensures err { OnErr result (self.new ≡ self.old) }
    {
        let table = Table::new(self.alloc, schema, self.hasher);
        self.tables.push((name, table))?;
        Ok(())
    }
}

fn find_table<H: KeyHash<Key>>(tables: &[(Text, Table<H>)], name: &str) -> Option<usize>
    ensures { MatchOption result (table_at tables.now name.now ≡ None)
        (λ i. IsTableAt tables.now name.now i) }
{
    for (i, entry) in tables.iter().enumerate() {
        if entry.0.as_str() == name {
            return Some(i);
        }
    }
    None
}

// Puts a row into a table, its values as the columns store them, or says why the table refuses it.
fn put_row<H: KeyHash<Key> + Copy>(
    table: &mut Table<H>,
    row: Row,
    limits: &Limits,
) -> Result<(), Refused>
    ensures takes { Takes (put_within limits.now.bounds table.old
        (stored_in table.old.schema.columns row)) result table.old table.new }
    ensures valid { IsValidTable table.new }
{
    let row = table.schema().store(row);
    let taken = table.upsert(row, limits);
    let _valid = table.len();
    match taken {
        Ok(()) => Ok(()),
        Err(why) => Err(refused_by_table(why)),
    }
}

// Puts the rows of a table with the same columns and key into another, or says why that refuses
// them.
fn put_rows<H: KeyHash<Key> + Copy>(
    table: &mut Table<H>,
    staged: Table<H>,
    limits: &Limits,
) -> Result<(), Refused>
    requires { staged.schema ≡ table.old.schema }
    ensures takes { Takes (put_all_within limits.now.bounds table.old staged.rows)
        result table.old table.new }
    ensures valid { IsValidTable table.new }
{
    let taken = table.load(staged, limits);
    let _valid = table.len();
    match taken {
        Ok(()) => Ok(()),
        Err(why) => Err(refused_by_table(why)),
    }
}

// Takes the row of the key that values name out of a table, or says why they name none.
fn delete_row<H: KeyHash<Key> + Copy>(
    table: &mut Table<H>,
    values: &mut [Value],
) -> Result<bool, Refused>
    ensures deletes { Deletes values.old result table.old table.new }
    ensures valid { IsValidTable table.new }
{
    store_key(table.schema(), values);
    if let Err(why) = check_key(table.schema(), values) {
        let _valid = table.len();
        return Err(why);
    }
    let found = table.delete(values);
    let _valid = table.len();
    Ok(found)
}

// A table's refusal, as that of a command.
fn refused_by_table(why: TableRefusal) -> Refused
    ensures { result ≡ unnumbered (table_refusal why) }
{
    Refused::from(match why {
        TableRefusal::TypeMismatch => Refusal::TypeMismatch,
        TableRefusal::NullKey => Refusal::NullKey,
        TableRefusal::Limit => Refusal::Limit,
        TableRefusal::Memory => Refusal::Memory,
    })
}
