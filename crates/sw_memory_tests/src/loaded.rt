//! Two groups of sixteen slots that are loaded with keys and deleted bytes.
use std::process::Abort;

// Under `Direct` the probe of a key n begins at group n / 128, modulo the number of groups: of two groups, the
// keys 256 * j have the first, and the keys 128 + 256 * j the second.

/// As many keys of the first group as it has slots.
pub(crate) const FIRST: [u64; 16] = [
    0, 256, 512, 768, 1024, 1280, 1536, 1792, 2048, 2304, 2560, 2816, 3072, 3328, 3584, 3840,
];

/// Keys of the second group, as many as may still be added.
pub(crate) const SECOND: [u64; 9] = [128, 384, 640, 896, 1152, 1408, 1664, 1920, 2176];

/// Keys of the first group that are removed, whose bytes become deleted.
pub(crate) const GONE: [u64; 3] = [0, 256, 512];

/// Keys of the second group that are added after these.
pub(crate) const LATER: [u64; 3] = [2432, 2688, 2944];

/// The calls that add and remove a key, where keys are their own hashes.
pub(crate) trait Keys {
    /// Adds a key that is new.
    fn add(&mut self, key: u64, value: u64) -> bool;

    /// Removes a key that is there.
    fn take(&mut self, key: u64) -> bool;
}

/// Fills room for 25 keys up to the load: the first group has thirteen entries and three deleted bytes, the
/// second twelve entries. Each key n has the value n / 256.
pub(crate) fn load<T: Keys>(rt: &impl Abort, keys: &mut T) {
    add_each(rt, keys, &FIRST);
    add_each(rt, keys, &SECOND);
    for key in GONE {
        assert!(rt; keys.take(key), "key {key}");
    }
    add_each(rt, keys, &LATER);
}

fn add_each<T: Keys>(rt: &impl Abort, keys: &mut T, added: &[u64]) {
    for key in added {
        assert!(rt; keys.add(*key, *key / 256), "key {key}");
    }
}
