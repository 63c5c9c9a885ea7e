//! Maps and sets as text.
use crate::map::FlatMap;
use crate::set::FlatSet;
use std::fmt;
use sw_probe::{KeyHash, Keyed};

/// `{key: value, ..}` in slot order.
impl<K: Keyed + fmt::Debug, V: fmt::Debug, H: KeyHash<K>> fmt::Debug for FlatMap<K, V, H> {
    fn fmt<W: fmt::Write>(&self, f: &mut fmt::Formatter<W>) -> fmt::Result {
        f.debug_map().entries(self.iter()).finish()
    }
}

/// `{key, ..}` in slot order.
impl<K: Keyed + fmt::Debug, H: KeyHash<K>> fmt::Debug for FlatSet<K, H> {
    fn fmt<W: fmt::Write>(&self, f: &mut fmt::Formatter<W>) -> fmt::Result {
        f.debug_set().entries(self.iter()).finish()
    }
}
