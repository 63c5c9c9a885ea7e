//! A table drops what it holds exactly once.
use crate::counted::{Counted, CountedKey, Counters, Number};
use crate::expected::expect;
use crate::map_drops::BITS;
use std::alloc::Global;
use std::process::Abort;
use std::test::Fail;
use sw_probe::LowBits;
use sw_table::Table;

type CountedTable<'a> = Table<CountedKey<'a>, Counted<'a>, LowBits>;

// Adds the entry of a number, which counts in the cells of that number.
fn add<'a>(rt: &impl Abort, table: &mut CountedTable<'a>, counters: &'a Counters, id: usize) {
    let key = counters.key(rt, id as u64, id);
    assert!(rt; table.find(&key).is_none(), "{id}");
    assert!(rt; table.place(key, counters.value(rt, id)).is_ok(), "{id}");
}

// A table of sixty entries.
fn sixty<'a>(
    rt: &impl Abort,
    alloc: Global,
    counters: &'a Counters,
    bits: u32,
) -> CountedTable<'a> {
    let mut table = Table::new(alloc, LowBits(bits));
    for id in 0..60usize {
        add(rt, &mut table, counters, id);
    }
    table
}

// Moves the entries of a table, and drops the table.
fn move_entries(rt: &impl Abort, mut table: CountedTable, counters: &Counters) -> Result<(), Fail> {
    expect(rt, table.capacity(), 128);
    table.rehash();
    table.reserve(200)?;
    counters.expect_all(rt, 0);
    Ok(())
}

#[test]
fn at_the_end_each_once(rt: HostRuntime) -> Result<(), Fail> {
    for bits in BITS {
        let counters = Counters::new(rt.alloc(), 60)?;
        move_entries(&rt, sixty(&rt, rt.alloc(), &counters, bits), &counters)?;
        counters.expect_all(&rt, 1);
    }
    Ok(())
}

fn clear(rt: &impl Abort, mut table: CountedTable, counters: &Counters) {
    table.clear();
    counters.expect_all(rt, 1);
}

#[test]
fn cleared_each_once(rt: HostRuntime) -> Result<(), Fail> {
    for bits in BITS {
        let counters = Counters::new(rt.alloc(), 60)?;
        clear(&rt, sixty(&rt, rt.alloc(), &counters, bits), &counters);
        counters.expect_all(&rt, 1);
    }
    Ok(())
}

// Removes the entry of a number.
fn take<'a>(table: &mut CountedTable<'a>, id: usize) -> Option<(CountedKey<'a>, Counted<'a>)> {
    let slot = table.find(&Number(id as u64))?;
    Some(table.remove(slot))
}

// What is removed is dropped only when the caller drops it.
fn remove(rt: &impl Abort, table: &mut CountedTable, counters: &Counters, id: usize) {
    let taken = take(table, id);
    assert!(rt;
        matches!(&taken, Some((key, _)) if key.number == id as u64),
        "{id}"
    );
    counters.expect(rt, id, (0, 0));
    drop(taken);
    counters.expect(rt, id, (1, 1));
}

fn remove_forty(rt: &impl Abort, mut table: CountedTable, counters: &Counters) {
    for id in 0..40usize {
        remove(rt, &mut table, counters, id);
    }
    table.rehash();
    expect(rt, table.len(), 20);
    counters.expect_each(rt, 40..60, (0, 0));
}

#[test]
fn removed_once(rt: HostRuntime) -> Result<(), Fail> {
    for bits in BITS {
        let counters = Counters::new(rt.alloc(), 60)?;
        remove_forty(&rt, sixty(&rt, rt.alloc(), &counters, bits), &counters);
        counters.expect_all(&rt, 1);
    }
    Ok(())
}
