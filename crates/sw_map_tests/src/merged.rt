//! Merging maps of more than 100,000 entries.
use crate::expected::{expect, expect_at};
use crate::numbers::{Numbers, insert, insert_each};
use std::process::Abort;
use std::test::Fail;
use sw_flat::FlatMap;
use sw_probe::Fnv1a;

// The value of a key in the other map.
fn other_value(key: u64) -> u64 {
    !key
}

// The values of a key in both maps afterwards: the first map keeps its own.
fn due(key: u64) -> (Option<u64>, Option<u64>) {
    match key {
        0..60_000 => (Some(key), None),
        60_000..120_000 => (Some(key), Some(other_value(key))),
        _ => (Some(other_value(key)), None),
    }
}

fn expect_merged(rt: &impl Abort, one: &Numbers<Fnv1a>, other: &Numbers<Fnv1a>) {
    expect(rt, (one.len(), other.len()), (180_000, 60_000));
    for key in 0..180_000u64 {
        let found = (one.get(&key).copied(), other.get(&key).copied());
        expect_at(rt, key, found, due(key));
    }
}

// Each map has 120,000 entries, and 60,000 keys are in both.
#[test]
fn of_many_entries(rt: HostRuntime) -> Result<(), Fail> {
    let mut one = FlatMap::new(rt.alloc(), Fnv1a { seed: 0 });
    let mut other = FlatMap::new(rt.alloc(), Fnv1a { seed: 9 });
    insert_each(&rt, &mut one, 0, 120_000);
    for key in 60_000..180_000u64 {
        insert(&rt, &mut other, key, other_value(key));
    }
    one.merge(&mut other)?;
    expect_merged(&rt, &one, &other);
    Ok(())
}
