//! Look-ups.
ghost use Rattle.std.specs.Prelude.{◌≡◌, ◌≢◌, ℕ, ◌+◌, ◌<◌, ◌≤◌, ◌^◌, Option, Some, None, true, false, length, slice_index_or, IfSome, IfNone, IsSome};
ghost use Rattle.std.specs.Option.{option_map};
ghost use Rattle.std.specs.FinMap.{get, insert};
ghost use Rattle.sw_slots.specs.Place.{place};
ghost use Rattle.sw_table.specs.View.{View, entry_at, slot_count, with_value, IsFull};
ghost use Rattle.sw_table.specs.Entries.{entries};

use crate::table::{SlotNo, Table};
use sw_ctrl::{Mask16, WIDTH};
use sw_probe::{KeyHash, Keyed, Names, Probe, h2};
use sw_slots::Slots;

impl<K: Keyed, V, H: KeyHash<K>> Table<K, V, H> {
    ghost use Rattle.std.specs.Borrow.{sem};
    ghost use Rattle.sw_table.specs.TableLends.{lends_value};

    /// The hash of the key that `q` names, for the calls that take a hash.
    #[inline]
    pub fn hash<Q: Names<K>>(&self, q: &Q) -> u64
        ensures { result ≡ H.hash_of self.now.hasher (Q.named q.now) }
    {
        self.hasher.hash(q)
    }

    /// The slot of the key that `q` names.
    #[inline]
    pub fn find<Q: Names<K>>(&self, q: &Q) -> Option<SlotNo>
        ensures full { IfSome result (λ s. IsFull self.now s.index) }
        ensures found { IfSome result (λ s. get (entries K.class self.now) (Q.named q.now) ≡
            entry_at self.now s.index) }
        ensures absent { IfNone result (get (entries K.class self.now) (Q.named q.now) ≡ None) }
    {
        self.find_hashed(q, self.hash(q))
    }

    /// As [`Table::find`], with the hash of the key.
    #[inline]
    pub fn find_hashed<Q: Names<K>>(&self, q: &Q, hash: u64) -> Option<SlotNo>
        requires { hash ≡ H.hash_of self.now.hasher (Q.named q.now) }
        ensures full { IfSome result (λ s. IsFull self.now s.index) }
        ensures found { IfSome result (λ s. get (entries K.class self.now) (Q.named q.now) ≡
            entry_at self.now s.index) }
        ensures absent { IfNone result (get (entries K.class self.now) (Q.named q.now) ≡ None) }
    {
        let groups = self.ctrl.len() / WIDTH;
        if groups == 0 {
            return None;
        }
        let h2 = h2(hash);
        let mut probe = Probe::new(hash, groups);
        'probe: loop {
            let at = probe.group();
            let group = self.ctrl.group(at);
            if let Some(index) = find_in(&self.slots, q, group.match_h2(h2), WIDTH * at) {
                return Some(SlotNo { index });
            }
            if group.match_empty().any() || !probe.advance() {
                return None;
            }
        }
    }

    /// The key that a look-up with this hash compares first: of the slots of its first group, that of the first
    /// whose byte has the seven low bits. No contract covers it.
    #[inline]
    pub fn candidate(&self, hash: u64) -> Option<&K> {
        let groups = self.ctrl.len() / WIDTH;
        if groups == 0 {
            return None;
        }
        let at = Probe::new(hash, groups).group();
        let lane = self.ctrl.group(at).match_h2(h2(hash)).lowest()?;
        Some(&self.slots.get(WIDTH * at + lane as usize).0)
    }

    /// The entry in a full slot.
    #[inline]
    pub fn at(&self, slot: SlotNo) -> (&K, &V)
        requires { IsFull self.now slot.index }
        ensures { entry_at self.now slot.index ≡ Some (result.0.now, result.1.now) }
    {
        let pair = self.slots.get(slot.index);
        (&pair.0, &pair.1)
    }

    /// A mutable reference to the value in a full slot. The stored key stays.
    #[inline]
    pub fn at_mut(&mut self, slot: SlotNo) -> &mut V
        requires { IsFull self.old slot.index }
        ensures* writes_back { sem 𝓛
            (lends_value K.row V.row H.row K.Keyed H.KeyHash self.entry slot.index result) }
        ensures value { option_map (λ p. p.1) (entry_at self.old slot.index) ≡ Some result.now }
        ensures entries { (p : K × V) (w : V) → entry_at self.old slot.index ≡ Some p →
            entries K.class (with_value self.old slot.index w) ≡
            insert (entries K.class self.old) (K.class p.0) (p.0, w) }
    {
        let pair = self.slots.get_mut(slot.index);
        &mut pair.1
    }

    /// The first full slot from slot `from` on. Calling it again from the next slot on visits each entry once.
    #[inline]
    pub fn next_full(&self, from: usize) -> Option<SlotNo>
        ensures full { IfSome result (λ s. (from ≤ s.index) × (s.index < slot_count self.now) ×
            IsFull self.now s.index) }
        ensures first { IfSome result (λ s. (i : ℕ) → from ≤ i → i < s.index →
            entry_at self.now i ≡ None) }
        ensures none { IfNone result ((i : ℕ) → from ≤ i → entry_at self.now i ≡ None) }
    {
        let groups = self.ctrl.len() / WIDTH;
        let mut at = from / WIDTH;
        let mut passed = (from % WIDTH) as u32;
        while at < groups {
            if let Some(lane) = self.ctrl.group(at).match_full().lowest_from(passed) {
                return Some(SlotNo {
                    index: WIDTH * at + lane as usize,
                });
            }
            at += 1;
            passed = 0;
        }
        None
    }
}

// The slot of the key among those in the mask, which are counted from slot `base` on.
#[inline]
fn find_in<K: Keyed, V, Q: Names<K>>(
    slots: &Slots<(K, V)>,
    q: &Q,
    mut matches: Mask16,
    base: usize,
) -> Option<usize>
    requires lanes { length matches ≡ 16 }
    requires in_range { base + 16 < 2 ^ 64 }
    requires full { (l : ℕ) → slice_index_or matches l false ≡ true →
        IsSome (place slots.now (base + l)) }
    ensures found { IfSome result (λ i. (p : K × V) × (place slots.now i ≡ Some p) ×
        (Q.named q.now ≡ K.class p.0)) }
    ensures absent { IfNone result ((l : ℕ) (p : K × V) → slice_index_or matches l false ≡ true →
        place slots.now (base + l) ≡ Some p → Q.named q.now ≢ K.class p.0) }
{
    while let Some(lane) = matches.lowest() {
        let i = base + lane as usize;
        if q.same(&slots.get(i).0) {
            return Some(i);
        }
        matches = matches.without_lowest();
    }
    None
}
