//! Walks over the full slots.
ghost use Rattle.std.specs.Prelude.{◌≡◌, ℕ, ◌+◌, ◌<◌, ◌≤◌, None, length, slice_index, IfSome, IfNone};
ghost use Rattle.sw_table.specs.View.{View, slot_count, entry_at, IsFull};
ghost use Rattle.sw_table.specs.Walks.{IsWalking};

use crate::table::{SlotNo, Table};
use sw_ctrl::{Ctrl, EMPTY, Group, Mask16, WIDTH};
use sw_probe::{KeyHash, Keyed};

/// A position among the full slots of a table. It borrows nothing, so slots that the walk has passed may
/// change. Contracts see by `from` what remains: the full slots from there on.
#[derive(Clone, Copy)]
pub struct Walk {
    // The slot after the last one that was returned; for contracts only.
    from: usize,
    // The first slot of the group that is read next.
    next: usize,
    // The full lanes of the group before `next` that are not yet returned.
    rest: Mask16,
}

impl Walk {
    /// A walk before the first slot of any table.
    #[inline]
    pub fn new() -> Walk
        ensures start { result.from ≡ 0 }
        ensures walking { (bytes : _) → IsWalking bytes result }
    {
        Walk {
            from: 0,
            next: 0,
            rest: Group::of(&[EMPTY; WIDTH]).match_full(),
        }
    }

    // The next full slot.
    #[inline]
    pub(crate) fn advance(&mut self, ctrl: &Ctrl) -> Option<usize>
        requires { IsWalking ctrl.now self.old }
        ensures full { IfSome result (λ i. (self.old.from ≤ i) × (i < length ctrl.now) ×
            (slice_index ctrl.now i < 128)) }
        ensures first { IfSome result (λ i. (k : ℕ) → self.old.from ≤ k → k < i →
            128 ≤ slice_index ctrl.now k) }
        ensures moved { IfSome result (λ i. self.new.from ≡ i + 1) }
        ensures none { IfNone result ((k : ℕ) → self.old.from ≤ k → k < length ctrl.now →
            128 ≤ slice_index ctrl.now k) }
        ensures stays { IfNone result (self.new.from ≡ self.old.from) }
        ensures walking { IsWalking ctrl.now self.new }
    {
        'groups: loop {
            if let Some(lane) = self.rest.lowest() {
                let i = self.next - WIDTH + lane as usize;
                self.rest = self.rest.without_lowest();
                self.from = i + 1;
                return Some(i);
            }
            if self.next == ctrl.len() {
                return None;
            }
            self.rest = ctrl.group(self.next / WIDTH).match_full();
            self.next += WIDTH;
        }
    }
}

impl<K: Keyed, V, H: KeyHash<K>> Table<K, V, H> {
    /// The next full slot of a walk. A walk visits each full slot once, in order.
    #[inline]
    pub fn advance(&self, walk: &mut Walk) -> Option<SlotNo>
        requires { IsWalking self.now.bytes walk.old }
        ensures full { IfSome result (λ s. (walk.old.from ≤ s.index) ×
            (s.index < slot_count self.now) × IsFull self.now s.index) }
        ensures first { IfSome result (λ s. (i : ℕ) → walk.old.from ≤ i → i < s.index →
            entry_at self.now i ≡ None) }
        ensures moved { IfSome result (λ s. walk.new.from ≡ s.index + 1) }
        ensures none { IfNone result ((i : ℕ) → walk.old.from ≤ i → entry_at self.now i ≡ None) }
        ensures stays { IfNone result (walk.new.from ≡ walk.old.from) }
        ensures walking { IsWalking self.now.bytes walk.new }
    {
        let index = walk.advance(&self.ctrl)?;
        Some(SlotNo { index })
    }
}
