//! Entries by borrowed keys.
use crate::expected::expect;
use crate::numbers::Numbers;
use std::alloc::Global;
use std::process::Abort;
use std::test::Fail;
use sw_flat::{Entry, FlatMap};
use sw_probe::{ByteKey, Constant, Fnv1a};

type Words = FlatMap<Vec<u8>, u64, Fnv1a>;

// Counts a text, which is copied only if it is new.
fn count(alloc: Global, words: &mut Words, text: &[u8]) -> Result<(), Fail> {
    match words.entry(&ByteKey(text)) {
        Entry::Occupied(slot) => {
            let counted = words.value_mut(slot);
            *counted = counted.wrapping_add(1);
        }
        Entry::Vacant(vacancy) => {
            let key = text.to_vec(alloc)?;
            let Ok(_) = words.fill(vacancy, key, 1) else {
                return Err(Fail::from("no memory"));
            };
        }
    }
    Ok(())
}

fn count_each(alloc: Global, words: &mut Words, texts: &[&str]) -> Result<(), Fail> {
    for text in texts {
        count(alloc, words, text.as_bytes())?;
    }
    Ok(())
}

fn expect_counted(rt: &impl Abort, words: &Words, text: &str, due: Option<u64>) {
    let counted = words.get(&ByteKey(text.as_bytes())).copied();
    assert_eq!(rt; counted, due, "{text}");
}

#[test]
fn words_are_counted(rt: HostRuntime) -> Result<(), Fail> {
    let mut words = FlatMap::new(rt.alloc(), Fnv1a { seed: 0 });
    count_each(
        rt.alloc(),
        &mut words,
        &["one", "two", "one", "three", "one", "two", ""],
    )?;
    expect(&rt, words.len(), 4);
    expect_counted(&rt, &words, "one", Some(3));
    expect_counted(&rt, &words, "two", Some(2));
    expect_counted(&rt, &words, "three", Some(1));
    expect_counted(&rt, &words, "", Some(1));
    expect_counted(&rt, &words, "four", None);
    Ok(())
}

// Whether the key was absent, and is now there.
fn fills(map: &mut Numbers<Constant>, key: u64) -> bool {
    match map.entry(&key) {
        Entry::Occupied(_) => false,
        Entry::Vacant(vacancy) => map.fill(vacancy, key, key).is_ok(),
    }
}

// Whether the key is there, with itself as its value.
fn has_filled(map: &Numbers<Constant>, key: u64) -> bool {
    match map.entry(&key) {
        Entry::Occupied(slot) => {
            let (stored, value) = map.entry_at(slot);
            *stored == key && *value == key
        }
        Entry::Vacant(_) => false,
    }
}

#[test]
fn a_vacancy_is_filled_where_all_keys_hash_alike(rt: HostRuntime) {
    let mut map = FlatMap::new(rt.alloc(), Constant(5));
    for key in 0..100u64 {
        assert!(rt; fills(&mut map, key), "key {key}");
    }
    expect(&rt, map.len(), 100);
    for key in 0..100u64 {
        assert!(rt; has_filled(&map, key), "key {key}");
    }
}
