//! The index: its keys in insertion order, past each growth of its list and its table.
use crate::expected::expect;
use std::alloc::{AllocError, Global};
use std::process::Abort;
use std::test::Fail;
use sw_index::{Found, Index};
use sw_probe::{ByteKey, Constant, Direct, Fnv1a, KeyHash, LowBits};

// The key that is added at a position: all are distinct, and not ascending.
fn key_at(place: u64) -> u64 {
    place.wrapping_mul(2_654_435_761)
}

// Adds a key if it is new, and returns its number.
fn number_of<H: KeyHash<u64>>(index: &mut Index<u64, H>, key: u64) -> Result<usize, AllocError> {
    match index.find(&key) {
        Found::At(number) => Ok(number),
        Found::Absent(absence) => {
            index.add(absence, key)?;
            Ok(index.len() - 1)
        }
    }
}

// Adds `count` keys, each twice, and looks all of them up.
fn keeps_all<H: KeyHash<u64> + Drop>(
    rt: &impl Abort,
    alloc: Global,
    hasher: H,
    count: u64,
) -> Result<(), Fail> {
    let mut index = Index::new(alloc, hasher);
    for place in 0..count {
        expect(rt, number_of(&mut index, key_at(place))?, place as usize);
        expect(
            rt,
            number_of(&mut index, key_at(place / 2))?,
            (place / 2) as usize,
        );
    }
    expect(rt, index.len(), count as usize);
    for place in 0..count {
        assert!(rt;
            matches!(index.find(&key_at(place)), Found::At(n) if n == place as usize),
            "place {place}"
        );
        let other = key_at(place).wrapping_add(1);
        assert!(rt;
            matches!(index.find(&other), Found::Absent(_)),
            "key {other}"
        );
    }
    let keys = index.into_keys();
    for place in 0..count {
        let there = keys.get(place as usize);
        assert!(rt;
            matches!(there, Some(key) if *key == key_at(place)),
            "place {place}"
        );
    }
    Ok(())
}

#[test]
fn keys_past_each_growth(rt: HostRuntime) -> Result<(), Fail> {
    keeps_all(&rt, rt.alloc(), Fnv1a { seed: 7 }, 100_000)
}

#[test]
fn keys_that_are_their_own_hashes(rt: HostRuntime) -> Result<(), Fail> {
    keeps_all(&rt, rt.alloc(), Direct, 1_000)
}

#[test]
fn keys_of_one_hash(rt: HostRuntime) -> Result<(), Fail> {
    keeps_all(&rt, rt.alloc(), Constant(3), 300)?;
    keeps_all(&rt, rt.alloc(), LowBits(2), 1_000)
}

// An absence has the hash of the class, which a caller may use.
#[test]
fn an_absence_tells_the_hash(rt: HostRuntime) -> Result<(), Fail> {
    let index: Index<u64, Constant> = Index::new(rt.alloc(), Constant(77));
    match index.find(&5u64) {
        Found::Absent(absence) => expect(&rt, absence.hash(), 77),
        Found::At(_) => assert!(&rt; false, "no key was added"),
    }
    Ok(())
}

// A key is found by its borrowed form, and room that was made suffices.
#[test]
fn names_in_a_room(rt: HostRuntime) -> Result<(), Fail> {
    let alloc = rt.alloc();
    let mut index: Index<Vec<u8>, Fnv1a> = Index::new(alloc, Fnv1a { seed: 0 });
    for name in ["osl", "", "bgo", "svg"] {
        let Found::Absent(absence) = index.find(&ByteKey(name.as_bytes())) else {
            continue;
        };
        index.add(absence, Vec::from_slice(alloc, name.as_bytes())?)?;
    }
    index.make_room(1_000);
    assert!(&rt; index.room() >= 1_000, "the room that was made");
    expect(&rt, index.len(), 4);
    assert!(&rt; matches!(index.find(&ByteKey(b"bgo")), Found::At(2)), "bgo");
    assert!(&rt;
        matches!(index.find(&ByteKey(b"")), Found::At(1)),
        "the empty name"
    );
    assert!(&rt;
        matches!(index.find(&ByteKey(b"trd")), Found::Absent(_)),
        "trd"
    );
    let last = index.keys().get(3);
    assert!(&rt;
        matches!(last, Some(name) if name.as_slice() == b"svg".as_slice()),
        "the last"
    );
    Ok(())
}
