//! Which bytes at the start of a text are special.

/// Which of the first bytes of a text are special.
#[derive(Clone, Copy)]
pub(crate) struct SpecialMask {
    // Bit `i` is set if byte `i` is special.
    pub(crate) bits: u64,
    // The number of bytes that the mask covers.
    pub(crate) len: usize,
}

impl SpecialMask {
    ghost use Rattle.std.specs.Prelude.{◌≤◌, ℕ, List, drop, length};
    ghost use Rattle.gq_csv.specs.Masks.{Covers, IsMask};

    /// The mask that covers no bytes.
    #[inline(always)]
    pub(crate) fn none() -> SpecialMask
        ensures { (text : List ℕ) → Covers text result }
    {
        SpecialMask { bits: 0, len: 0 }
    }

    /// Leaves out the first `count` bytes of the text.
    #[inline(always)]
    pub(crate) fn skip(&mut self, count: usize)
        requires { IsMask self.old }
        ensures { (text : List ℕ) → count ≤ length text → Covers text self.old → Covers (drop count text) self.new }
    {
        if count < self.len {
            self.bits >>= count;
            self.len -= count;
        } else {
            *self = SpecialMask::none();
        }
    }
}
