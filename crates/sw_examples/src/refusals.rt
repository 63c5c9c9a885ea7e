//! Errors, and what they return.
use crate::expected::expect;
use crate::map::Stock;
use std::process::Abort;
use std::test::Fail;
use sw_flat::{FlatMap, Refused, Why};
use sw_probe::Fnv1a;

// Adds an entry, or hands the pair back with the reason.
fn add_or_give_back(stock: &mut Stock, key: u64, value: u64) -> Result<(), (u64, u64, Why)> {
    match stock.insert_or_assign(key, value) {
        Ok(_) => Ok(()),
        Err(Refused { key, value, why }) => Err((key, value, why)),
    }
}

// A capacity past 2^28 is refused before memory is asked for.
fn past_the_limit(rt: &impl Abort, stock: &mut Stock) {
    expect(rt, stock.reserve(209_715_201), Err(Why::Limit));
}

// Within the room nothing is refused, however many entries came and went.
fn churn(rt: &impl Abort, stock: &mut Stock) {
    for key in 0..1_000 {
        assert!(rt; add_or_give_back(stock, key, key).is_ok() && stock.erase(&key));
    }
    expect(rt, stock.room(), 12);
}

#[test]
fn what_is_refused(rt: HostRuntime) -> Result<(), Fail> {
    let mut stock: Stock = FlatMap::with_room(rt.alloc(), Fnv1a { seed: 0 }, 12)?;
    past_the_limit(&rt, &mut stock);
    churn(&rt, &mut stock);
    Ok(())
}
