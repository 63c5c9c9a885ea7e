//! All entries of a map.
use crate::expected::expect;
use crate::map::Stock;
use crate::proved::withdraw;
use std::alloc::Global;
use std::process::Abort;
use std::test::Fail;
use sw_flat::FlatMap;
use sw_probe::Fnv1a;

// Ten pieces of each article of a range.
fn ten_of_each(stock: &mut Stock, from: u64, to: u64) -> Result<(), Fail> {
    for article in from..to {
        stock.insert_or_assign(article, 10)?;
    }
    Ok(())
}

fn total(stock: &Stock) -> u64 {
    let mut pieces = 0u64;
    for (_article, count) in stock {
        pieces = pieces.saturating_add(*count);
    }
    pieces
}

fn greatest(stock: &Stock) -> (Option<&u64>, Option<&u64>) {
    (stock.keys().max(), stock.values().max())
}

fn keep_below(stock: &mut Stock, bound: u64) {
    stock.retain(|article, _count| *article < bound);
}

// Takes the entries out one by one; the slots stay, for the next ones.
fn drain(stock: &mut Stock) -> u64 {
    let mut taken = 0u64;
    let mut walk = stock.walk();
    'entries: while let Some((_article, count)) = stock.drain_next(&mut walk) {
        taken = taken.saturating_add(count);
    }
    taken
}

// What the first lacks moves; the rest stays in the second.
fn merge(rt: &impl Abort, stock: &mut Stock, other: &mut Stock) -> Result<(), Fail> {
    expect(rt, stock == other, false);
    stock.merge(other)?;
    expect(rt, (stock.len(), other.len()), (10, 5));
    Ok(())
}

// The entries by ascending keys.
fn sorted(stock: Stock) -> Result<Vec<(u64, u64)>, Fail> {
    let mut list = stock.into_list()?;
    list.sort()?;
    Ok(list)
}

// Makes room for a hundred entries, rehashes, and drops all entries.
fn tidy(stock: &mut Stock) -> Result<(), Fail> {
    stock.reserve(100)?;
    stock.rehash();
    stock.clear();
    Ok(())
}

// Five articles, and five more from the other map.
fn gone_over(rt: &impl Abort, stock: &mut Stock, other: &mut Stock) -> Result<(), Fail> {
    ten_of_each(stock, 0, 11)?;
    withdraw(stock, 9, 10);
    expect(rt, stock.len(), 9);
    keep_below(stock, 5);
    ten_of_each(other, 0, 10)?;
    merge(rt, stock, other)?;
    expect(rt, total(stock), 100);
    expect(rt, greatest(stock), (Some(&9), Some(&10)));
    expect(rt, drain(other), 50);
    tidy(other)?;
    expect(rt, (other.len(), other.capacity()), (0, 128));
    Ok(())
}

#[test]
fn all_entries(rt: HostRuntime) -> Result<(), Fail> {
    let mut stock: Stock = FlatMap::new(rt.alloc(), Fnv1a { seed: 0 });
    let mut other: Stock = FlatMap::new(rt.alloc(), Fnv1a { seed: 0 });
    gone_over(&rt, &mut stock, &mut other)
}

#[test]
fn entries_in_order(rt: HostRuntime) -> Result<(), Fail> {
    let mut stock: Stock = FlatMap::new(rt.alloc(), Fnv1a { seed: 0 });
    ten_of_each(&mut stock, 0, 3)?;
    expect(&rt, sorted(stock)?.as_slice().first(), Some(&(0, 10)));
    Ok(())
}
