//! Entries that a closure keeps.
ghost use Rattle.std.specs.Prelude.{◌≡◌};
ghost use Rattle.sw_table.specs.View.{slot_count};
ghost use Rattle.sw_table.specs.Entries.{entries};
ghost use Rattle.sw_table.specs.Walks.{filled};
ghost use Rattle.sw_flat.specs.Maps.{ListsAll};
ghost use Rattle.sw_flat.specs.Retaining.{AnswersAt, KeepsInTurn};

use crate::map::FlatMap;
use sw_probe::{KeyHash, Keyed};
use sw_table::Walk;

impl<K: Keyed, V, H: KeyHash<K>> FlatMap<K, V, H> {
    /// Keeps the entries for which `keep` returns `true`, and drops the others. It is called once for each
    /// entry, in slot order. No entry moves, and nothing is allocated.
    pub fn retain<F: FnMut(&K, &V) -> bool>(&mut self, mut keep: F)
    where
        K: Drop,
        V: Drop,
        requires { F.IsAlwaysCallable keep }
        ensures kept { KeepsInTurn F.FnMut keep (filled self.old.places) (filled self.new.places) }
        ensures all { ListsAll K.class (filled self.new.places) (entries K.class self.new) }
        ensures slots { slot_count self.new ≡ slot_count self.old }
        ensures hasher { self.new.hasher ≡ self.old.hasher }
    {
        let mut walk = Walk::new();
        'entries: while let Some(slot) = self.table.advance(&mut walk) {
            if !keeps(&mut keep, self.table.at(slot)) {
                let _entry = self.table.remove(slot);
            }
        }
        let _ = self.table.capacity();
    }
}

// Whether the closure keeps an entry.
#[inline]
fn keeps<K, V, F: FnMut(&K, &V) -> bool>(keep: &mut F, entry: (&K, &V)) -> bool
    requires { F.IsAlwaysCallable keep.old }
    ensures answer { AnswersAt F.FnMut keep.old
        (entry.entry.0.now, entry.entry.1.now) result keep.new }
    ensures callable { F.IsAlwaysCallable keep.new }
{
    keep(entry.0, entry.1)
}
