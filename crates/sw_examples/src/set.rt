//! The set's calls.
use crate::expected::expect;
use std::alloc::Global;
use std::process::Abort;
use std::test::Fail;
use sw_flat::{Entry, FlatSet};
use sw_probe::{ByteKey, Fnv1a};

type Numbers = FlatSet<u64, Fnv1a>;

type Words = FlatSet<Vec<u8>, Fnv1a>;

fn add(rt: &impl Abort, set: &mut Numbers) -> Result<(), Fail> {
    expect(rt, set.insert(4)?, true);
    expect(rt, set.insert(4)?, false);
    expect(rt, set.contains(&4), true);
    Ok(())
}

fn take_out(rt: &impl Abort, set: &mut Numbers) {
    expect(rt, set.extract(&4), Some(4));
    expect(rt, set.erase(&4), false);
}

// Adds a text that is new, and copies it only then.
fn note(alloc: Global, set: &mut Words, text: &[u8]) -> Result<(), Fail> {
    if let Entry::Vacant(vacancy) = set.entry(&ByteKey(text)) {
        set.fill(vacancy, text.to_vec(alloc)?)?;
    }
    Ok(())
}

fn noted(rt: &impl Abort, alloc: Global, set: &mut Words) -> Result<(), Fail> {
    note(alloc, set, b"one")?;
    note(alloc, set, b"one")?;
    expect(rt, set.len(), 1);
    Ok(())
}

#[test]
fn keys_come_and_go(rt: HostRuntime) -> Result<(), Fail> {
    let mut set: Numbers = FlatSet::new(rt.alloc(), Fnv1a { seed: 0 });
    add(&rt, &mut set)?;
    take_out(&rt, &mut set);
    Ok(())
}

#[test]
fn texts_are_noted(rt: HostRuntime) -> Result<(), Fail> {
    let mut set: Words = FlatSet::new(rt.alloc(), Fnv1a { seed: 0 });
    noted(&rt, rt.alloc(), &mut set)
}
