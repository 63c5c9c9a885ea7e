//! New keys that reuse deleted slots of a table at full load.
use crate::loaded::{Keys, expect_kinds, expect_sizes, load};
use std::process::Abort;
use std::test::Fail;
use sw_flat::{Emplaced, FlatMap, FlatSet};
use sw_probe::Direct;
use sw_table::Table;

impl Keys for Table<u64, (), Direct> {
    type Value = ();

    fn add(&mut self, key: u64, _: u64) -> bool {
        self.find(&key).is_none() && self.place(key, ()).is_ok()
    }

    fn take(&mut self, key: u64) -> bool {
        match self.find(&key) {
            Some(slot) => self.remove(slot).0 == key,
            None => false,
        }
    }

    fn table(&self) -> &Table<u64, (), Direct> {
        self
    }
}

impl Keys for FlatSet<u64, Direct> {
    type Value = ();

    fn add(&mut self, key: u64, _: u64) -> bool {
        matches!(self.insert(key), Ok(true))
    }

    fn take(&mut self, key: u64) -> bool {
        self.erase(&key)
    }

    fn table(&self) -> &Table<u64, (), Direct> {
        FlatSet::table(self)
    }
}

#[derive(Drop)]
struct Emplacing(FlatMap<u64, (), Direct>);

impl Keys for Emplacing {
    type Value = ();

    fn add(&mut self, key: u64, _: u64) -> bool {
        matches!(self.0.try_emplace(key, ()), Ok(Emplaced::Inserted))
    }

    fn take(&mut self, key: u64) -> bool {
        self.0.erase(&key)
    }

    fn table(&self) -> &Table<u64, (), Direct> {
        self.0.table()
    }
}

#[derive(Drop)]
struct Assigning(FlatMap<u64, (), Direct>);

impl Keys for Assigning {
    type Value = ();

    fn add(&mut self, key: u64, _: u64) -> bool {
        matches!(self.0.insert_or_assign(key, ()), Ok(None))
    }

    fn take(&mut self, key: u64) -> bool {
        self.0.erase(&key)
    }

    fn table(&self) -> &Table<u64, (), Direct> {
        self.0.table()
    }
}

// Three slots of the first group are deleted, and all 28 slots that the load allows are in use. Another key of
// the first group reuses one of the three.
fn reuses<T: Keys + Drop>(rt: &impl Abort, mut keys: T) {
    load(rt, &mut keys);
    assert!(rt; keys.add(256 * 16, 16));
    expect_kinds(rt, &keys, [26, 2, 4]);
    expect_sizes(rt, &keys, [26, 32, 25]);
}

#[test]
fn past_the_room(rt: HostRuntime) -> Result<(), Fail> {
    let alloc = rt.alloc();
    let table: Table<u64, (), Direct> = Table::with_room(alloc, Direct, 25)?;
    reuses(&rt, table);
    reuses(&rt, FlatSet::with_room(alloc, Direct, 25)?);
    reuses(&rt, Emplacing(FlatMap::with_room(alloc, Direct, 25)?));
    reuses(&rt, Assigning(FlatMap::with_room(alloc, Direct, 25)?));
    Ok(())
}
