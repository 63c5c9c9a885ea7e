//! All keys of a set.
use crate::expected::expect;
use std::alloc::Global;
use std::process::Abort;
use std::test::Fail;
use sw_flat::FlatSet;
use sw_probe::Fnv1a;

type Numbers = FlatSet<u64, Fnv1a>;

fn make(alloc: Global) -> Result<Numbers, Fail> {
    Ok(FlatSet::with_room(alloc, Fnv1a { seed: 0 }, 12)?)
}

fn add_each(set: &mut Numbers, from: u64, to: u64) -> Result<(), Fail> {
    for number in from..to {
        set.insert(number)?;
    }
    Ok(())
}

// 0 to 9 and 5 to 14 are 0 to 14; the second set keeps 5 to 9.
fn unite(rt: &impl Abort, one: &mut Numbers, other: &mut Numbers) -> Result<(), Fail> {
    one.merge(other)?;
    expect(rt, (one.len(), other.len()), (15, 5));
    expect(rt, one.iter().max(), Some(&14));
    Ok(())
}

fn drain(set: &mut Numbers) -> u64 {
    let mut walk = set.walk();
    let mut sum = 0u64;
    'keys: while let Some(number) = set.drain_next(&mut walk) {
        sum = sum.saturating_add(number);
    }
    sum
}

fn sorted(set: Numbers) -> Result<Vec<u64>, Fail> {
    let mut list = set.into_list()?;
    list.sort()?;
    Ok(list)
}

fn tidy(set: &mut Numbers) -> Result<(), Fail> {
    set.reserve(100)?;
    set.rehash();
    set.clear();
    Ok(())
}

fn gone_over(rt: &impl Abort, one: &mut Numbers, other: &mut Numbers) -> Result<(), Fail> {
    add_each(one, 0, 10)?;
    add_each(other, 5, 15)?;
    unite(rt, one, other)?;
    expect(rt, drain(other), 35);
    tidy(other)?;
    expect(rt, (other.capacity(), other.room()), (128, 100));
    Ok(())
}

#[test]
fn all_keys(rt: HostRuntime) -> Result<(), Fail> {
    let mut one = make(rt.alloc())?;
    let mut other = make(rt.alloc())?;
    gone_over(&rt, &mut one, &mut other)
}

#[test]
fn keys_in_order(rt: HostRuntime) -> Result<(), Fail> {
    let mut set = make(rt.alloc())?;
    add_each(&mut set, 0, 3)?;
    expect(&rt, sorted(set)?.as_slice().last(), Some(&2));
    Ok(())
}
