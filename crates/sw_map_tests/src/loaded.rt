//! Two groups of sixteen slots that are loaded with keys and deleted bytes.
use crate::expected::expect;
use std::process::Abort;
use sw_probe::{Direct, KeyHash};
use sw_table::Table;

// Under `Direct` the probe of a key n begins at group n / 128, modulo the number of groups: of two groups, the
// keys 256 * j have the first, and the keys 128 + 256 * j the second.

/// As many keys of the first group as it has slots.
pub(crate) const FIRST: [u64; 16] = [
    0, 256, 512, 768, 1024, 1280, 1536, 1792, 2048, 2304, 2560, 2816, 3072, 3328, 3584, 3840,
];

/// Keys of the second group, as many as may still be added.
pub(crate) const SECOND: [u64; 9] = [128, 384, 640, 896, 1152, 1408, 1664, 1920, 2176];

/// Keys of the first group that are removed, whose bytes become deleted.
pub(crate) const GONE: [u64; 3] = [0, 256, 512];

/// Keys of the second group that are added after these.
pub(crate) const LATER: [u64; 3] = [2432, 2688, 2944];

/// The calls that add and remove a key, of a table whose keys are their own hashes.
pub(crate) trait Keys {
    type Value;

    /// Adds a key that is new, with a value if the table has values.
    fn add(&mut self, key: u64, value: u64) -> bool;

    fn take(&mut self, key: u64) -> bool;

    fn table(&self) -> &Table<u64, Self::Value, Direct>;
}

/// Fills room for 25 keys up to the load: the first group has thirteen entries and three deleted bytes, the
/// second twelve entries.
pub(crate) fn load<T: Keys>(rt: &impl Abort, keys: &mut T) {
    add_each(rt, keys, &FIRST);
    add_each(rt, keys, &SECOND);
    expect_kinds(rt, keys, [25, 0, 7]);
    for key in GONE {
        assert!(rt; keys.take(key), "key {key}");
    }
    expect_kinds(rt, keys, [22, 3, 7]);
    add_each(rt, keys, &LATER);
    expect_kinds(rt, keys, [25, 3, 4]);
}

// Adds each key n, with the value n / 256.
fn add_each<T: Keys>(rt: &impl Abort, keys: &mut T, added: &[u64]) {
    for key in added {
        assert!(rt; keys.add(*key, *key / 256), "key {key}");
    }
}

/// Expects these numbers of full, deleted and empty bytes.
pub(crate) fn expect_kinds<T: Keys>(rt: &impl Abort, keys: &T, due: [usize; 3]) {
    expect(rt, kinds(keys.table()), due);
}

/// Expects these numbers of keys, of slots, and of keys that there is room for.
pub(crate) fn expect_sizes<T: Keys>(rt: &impl Abort, keys: &T, due: [usize; 3]) {
    expect(rt, sizes(keys.table()), due);
}

/// The numbers of full, deleted and empty bytes.
pub(crate) fn kinds<V, H: KeyHash<u64>>(table: &Table<u64, V, H>) -> [usize; 3] {
    let (mut full, mut deleted, mut empty) = (0usize, 0usize, 0usize);
    for i in 0..table.capacity() {
        match table.byte(i) {
            0x80 => empty = empty.saturating_add(1),
            0xfe => deleted = deleted.saturating_add(1),
            _ => full = full.saturating_add(1),
        }
    }
    [full, deleted, empty]
}

/// The numbers of keys, of slots, and of keys that there is room for.
pub(crate) fn sizes<V, H: KeyHash<u64>>(table: &Table<u64, V, H>) -> [usize; 3] {
    [table.len(), table.capacity(), table.room()]
}

/// The byte of a slot, if there is such a slot.
pub(crate) fn byte_of<V, H: KeyHash<u64>>(table: &Table<u64, V, H>, i: usize) -> Option<u8> {
    if i < table.capacity() {
        Some(table.byte(i))
    } else {
        None
    }
}
