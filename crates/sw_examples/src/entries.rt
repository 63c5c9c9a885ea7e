//! Entries by borrowed keys.
use crate::expected::expect;
use std::alloc::Global;
use std::process::Abort;
use std::test::Fail;
use sw_flat::{Entry, FlatMap};
use sw_probe::{ByteKey, Fnv1a};

type Words = FlatMap<Vec<u8>, u64, Fnv1a>;

// Counts a word. Its text is copied only where it is new, and hashed once in any case.
fn count(alloc: Global, words: &mut Words, text: &[u8]) -> Result<(), Fail> {
    match words.entry(&ByteKey(text)) {
        Entry::Occupied(slot) => {
            let counted = words.value_mut(slot);
            *counted = counted.saturating_add(1);
        }
        Entry::Vacant(vacancy) => {
            words.fill(vacancy, text.to_vec(alloc)?, 1)?;
        }
    }
    Ok(())
}

// The stored key of a text.
fn stored<'a>(words: &'a Words, text: &[u8]) -> Option<&'a Vec<u8>> {
    match words.entry(&ByteKey(text)) {
        Entry::Occupied(slot) => Some(words.entry_at(slot).0),
        Entry::Vacant(_) => None,
    }
}

fn counted(rt: &impl Abort, alloc: Global, words: &mut Words) -> Result<(), Fail> {
    count(alloc, words, b"one")?;
    count(alloc, words, b"one")?;
    expect(rt, words.get(&ByteKey(b"one")).copied(), Some(2));
    expect(rt, stored(words, b"one").is_some(), true);
    Ok(())
}

#[test]
fn words_are_counted(rt: HostRuntime) -> Result<(), Fail> {
    let mut words: Words = FlatMap::new(rt.alloc(), Fnv1a { seed: 0 });
    counted(&rt, rt.alloc(), &mut words)
}
