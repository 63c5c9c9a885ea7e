//! The map's calls.
use crate::expected::expect;
use std::alloc::Global;
use std::process::Abort;
use std::test::Fail;
use sw_flat::{Emplaced, FlatMap};
use sw_probe::Fnv1a;

pub(crate) type Stock = FlatMap<u64, u64, Fnv1a>;

// Twelve entries need 16 slots; 25 of 32 slots are room.
fn make(alloc: Global) -> Result<Stock, Fail> {
    Ok(FlatMap::with_room(alloc, Fnv1a { seed: 0 }, 12)?)
}

fn sizes(rt: &impl Abort, stock: &Stock) {
    expect(rt, stock.is_empty(), true);
    expect(
        rt,
        (stock.len(), stock.capacity(), stock.room()),
        (0, 16, 12),
    );
    expect(rt, stock.table().len(), 0);
}

// The second pair comes back unused.
fn add(rt: &impl Abort, stock: &mut Stock) -> Result<(), Fail> {
    assert!(rt; matches!(stock.try_emplace(7, 70)?, Emplaced::Inserted));
    assert!(rt; matches!(stock.try_emplace(7, 71)?, Emplaced::Present(7, 71)));
    Ok(())
}

// The stored key stays; the old value comes out.
fn assign(rt: &impl Abort, stock: &mut Stock) -> Result<(), Fail> {
    expect(rt, stock.insert_or_assign(8, 80)?, None);
    expect(rt, stock.insert_or_assign(8, 81)?, Some(80));
    Ok(())
}

fn look_up(rt: &impl Abort, stock: &Stock) {
    expect(rt, stock.get(&7).copied(), Some(70));
    expect(rt, stock.get(&9).copied(), None);
    expect(rt, stock.contains(&8), true);
}

fn write(stock: &mut Stock, article: u64, pieces: u64) {
    if let Some(count) = stock.get_mut(&article) {
        *count = pieces;
    }
}

// `erase` drops the entry, `extract` hands it out.
fn take_out(rt: &impl Abort, stock: &mut Stock) {
    expect(rt, stock.extract(&7), Some((7, 71)));
    expect(rt, stock.erase(&8), true);
    expect(rt, stock.erase(&8), false);
}

fn come_and_go(rt: &impl Abort, stock: &mut Stock) -> Result<(), Fail> {
    sizes(rt, stock);
    add(rt, stock)?;
    assign(rt, stock)?;
    look_up(rt, stock);
    write(stock, 7, 71);
    take_out(rt, stock);
    Ok(())
}

#[test]
fn entries_come_and_go(rt: HostRuntime) -> Result<(), Fail> {
    let mut stock = make(rt.alloc())?;
    come_and_go(&rt, &mut stock)
}
