//! Probes, keys and hashers.
ghost use Rattle.std.specs.Prelude.{◌≡◌, IsTrue};

use crate::expected::{expect, expect_at};
use std::process::Abort;
use std::test::Fail;
use sw_probe::{
    ByteKey, Constant, Direct, Fnv1a, KeyHash, Keyed, LowBits, Names, Probe, WordHash,
    comes_everywhere, comes_once, direct_is_the_key, group_counts, hash_both,
};

// The hash of a byte string, by its borrowed form.
fn hash_bytes<H: KeyHash<Vec<u8>>>(hasher: &H, bytes: &[u8]) -> u64 {
    hasher.hash(&ByteKey(bytes))
}

// For any type of keys: a key and a value that names its class have one hash.
fn hashes_agree<K: Keyed, Q: Names<K>, H: KeyHash<K>>(hasher: &H, key: &K, name: &Q) -> bool
    ensures { Q.named name.now ≡ K.class key.now → IsTrue result }
{
    let (owned, named) = hash_both::<K, K, Q, H>(hasher, key, name);
    owned == named
}

#[test]
fn walk_over_four_groups(rt: HostRuntime) {
    group_counts(4);
    comes_once(5, 4);
    comes_everywhere(5, 4);
    let mut probe = Probe::new(640, 4);
    for due in [1, 2, 0] {
        expect(&rt, probe.group(), due);
        expect(&rt, probe.advance(), true);
    }
    expect(&rt, probe.group(), 3);
    expect(&rt, probe.advance(), false);
    expect(&rt, probe.group(), 3);
    expect(&rt, probe.advance(), false);
}

#[test]
fn walks_at_the_limits(rt: HostRuntime) {
    let mut one = Probe::new(u64::MAX, 1);
    expect(&rt, one.group(), 0);
    expect(&rt, one.advance(), false);
    let mut most = Probe::new(u64::MAX, 1 << 24);
    for due in [0xff_ffff, 0, 2, 5, 9] {
        expect(&rt, most.group(), due);
        expect(&rt, most.advance(), true);
    }
}

#[test]
fn published_values_of_fnv_1a(rt: HostRuntime) {
    let plain = Fnv1a { seed: 0 };
    expect(&rt, hash_bytes(&plain, b""), 0xcbf29ce484222325);
    expect(&rt, hash_bytes(&plain, b"a"), 0xaf63dc4c8601ec8c);
    expect(&rt, hash_bytes(&plain, b"foobar"), 0x85944171f73967e8);
    let seeded = Fnv1a {
        seed: 0xcbf29ce484222325,
    };
    expect(&rt, hash_bytes(&seeded, b""), 0);
}

// These hashes were computed from the definition, with whole numbers of any size.
#[test]
fn words_of_each_length(rt: HostRuntime) {
    let due: [(&[u8], u64); 9] = [
        (b"", 0x53654eaffebff65a),
        (b"a", 0x2e457280c7f79467),
        (b"Harstad", 0xfb4d48365a38cbe8),
        (b"Trondhei", 0x98887cd002f29d0c),
        (b"Trondheim", 0x736670c757316721),
        (b"Kristiansund N. ", 0xa22e14bded04ed8c),
        (b"Kristiansund N.  ", 0xa79d4df8af1363bc),
        (b"abcdefghijklmnopqrstuvwx", 0x6e9e5f35904a8fe3),
        (b"abcdefghijklmnopqrstuvwxy", 0x8eed63cd09764510),
    ];
    for (bytes, hash) in due {
        expect(&rt, hash_bytes(&WordHash { seed: 0 }, bytes), hash);
    }
    expect(
        &rt,
        hash_bytes(&WordHash { seed: 7 }, b"a"),
        0x70cfd1ca4c5539e5,
    );
    expect(
        &rt,
        WordHash { seed: 0 }.hash(&0x0102030405060708u64),
        0xc36afb3c5033dd2b,
    );
    expect(&rt, WordHash { seed: 0 }.hash(&0u64), 0x86b07c27d10d4567);
}

#[test]
fn other_hashers(rt: HostRuntime) {
    let low = [
        (0, 0),
        (7, 0x0c),
        (63, 0x2f63dc4c8601ec8c),
        (64, 0xaf63dc4c8601ec8c),
        (200, 0xaf63dc4c8601ec8c),
    ];
    for (bits, due) in low {
        expect_at(&rt, u64::from(bits), hash_bytes(&LowBits(bits), b"a"), due);
    }
    expect(&rt, hash_bytes(&Constant(9), b"a"), 9);
    for key in [0, 1, 0x0102030405060708, u64::MAX] {
        expect(&rt, Direct.hash(&key), key);
        expect(&rt, direct_is_the_key(key), key);
    }
}

fn expect_alike(rt: &impl Abort, owned: &Vec<u8>, borrowed: &ByteKey) {
    let hasher = Fnv1a { seed: 7 };
    let hash = KeyHash::<Vec<u8>>::hash(&hasher, owned);
    expect(rt, hash, hash_bytes(&hasher, b"Oslo"));
    expect(rt, hashes_agree(&hasher, owned, borrowed), true);
    expect(rt, hashes_agree(&LowBits(9), owned, owned), true);
    expect(
        rt,
        hashes_agree(&WordHash { seed: 7 }, owned, borrowed),
        true,
    );
}

fn expect_same(rt: &impl Abort, owned: &Vec<u8>) {
    expect(rt, ByteKey(b"Oslo").same(owned), true);
    expect(rt, owned.same(owned), true);
    expect(rt, ByteKey(b"oslo").same(owned), false);
    expect(rt, ByteKey(b"Osl").same(owned), false);
}

#[test]
fn owned_and_borrowed_keys_are_alike(rt: HostRuntime) -> Result<(), Fail> {
    let owned = Vec::from_slice(rt.alloc(), b"Oslo")?;
    expect_same(&rt, &owned);
    expect_alike(&rt, &owned, &ByteKey(b"Oslo"));
    let (hasher, number) = (Fnv1a { seed: 7 }, 0x4f736c6fu64);
    expect(&rt, number.same(&number), true);
    let hash = KeyHash::<u64>::hash(&hasher, &number);
    expect(&rt, hash, hash_bytes(&hasher, b"\0\0\0\0Oslo"));
    Ok(())
}
