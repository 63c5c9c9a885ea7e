//! The special bytes of a text, found many at once.
ghost use Rattle.std.specs.Prelude.{◌≡◌, ◌+◌, ◌≤◌, ◌<◌, IfNone, IfSome, drop, length};
ghost use Rattle.std.specs.List.{position_or_len};
ghost use Rattle.gq_csv.specs.Bytes.{is_special};
ghost use Rattle.gq_csv.specs.Masks.{Marks};

use crate::find::find_bytewise;
use crate::lanes::{MASK_LANES, special_bits};
use crate::special_mask::SpecialMask;

/// Which bytes in a part of a text are special, but for those that a search has passed.
#[derive(Clone, Copy)]
pub(crate) struct PlacedMask {
    // Bit `i` is set if byte `base + i` is special, and not passed.
    bits: u64,
    base: usize,
    // The position that the part ends before.
    limit: usize,
}

impl PlacedMask {
    ghost use Rattle.std.specs.Prelude.{◌≡◌, ◌+◌, ◌≤◌, ◌<◌, ℕ, List, true, false, drop, length};
    ghost use Rattle.std.specs.List.{position_or_len};
    ghost use Rattle.gq_csv.specs.Bytes.{is_special};
    ghost use Rattle.gq_csv.specs.Masks.{Covers, HasNext, IsPlaced, Marks, Passes};

    /// A mask of a text's first bytes, none of which is passed.
    #[inline(always)]
    pub(crate) fn of(mask: SpecialMask) -> PlacedMask
        ensures { (text : List ℕ) → Covers text mask → Marks text 0 result }
    {
        PlacedMask {
            bits: mask.bits,
            base: 0,
            limit: mask.len,
        }
    }

    /// The mask of what follows a position, before which all bytes are passed.
    #[inline(always)]
    pub(crate) fn after(self, from: usize) -> SpecialMask
        requires { IsPlaced from self }
        ensures { (text : List ℕ) → Marks text from self → Covers (drop from text) result }
    {
        if from < self.limit {
            SpecialMask {
                bits: self.bits >> (from - self.base),
                len: self.limit - from,
            }
        } else {
            SpecialMask::none()
        }
    }

    // Whether a special byte follows. If so, the mask has it afterwards.
    #[inline(always)]
    fn has_next(&mut self, text: &[u8], from: usize) -> bool
        requires { Marks text.now from self.old }
        ensures some { result ≡ true → HasNext text.now from self.new }
        ensures none { result ≡ false → length text.now ≤ from + position_or_len is_special (drop from text.now) }
    {
        self.bits != 0 || self.go_on(text, from)
    }

    // The same, if the mask has none.
    fn go_on(&mut self, text: &[u8], from: usize) -> bool
        requires marks { Marks text.now from self.old }
        requires passed { self.old.bits ≡ 0 }
        ensures some { result ≡ true → HasNext text.now from self.new }
        ensures none { result ≡ false → length text.now ≤ from + position_or_len is_special (drop from text.now) }
    {
        let _ = from;
        let mut at = self.limit;
        'blocks: while text.len() - at >= MASK_LANES {
            let bits = special_bits(&text[at..at + MASK_LANES]);
            if bits != 0 {
                *self = PlacedMask {
                    bits,
                    base: at,
                    limit: at + MASK_LANES,
                };
                return true;
            }
            at += MASK_LANES;
        }
        let first = find_bytewise(text, at);
        if first >= text.len() {
            return false;
        }
        *self = PlacedMask {
            bits: 1,
            base: first,
            limit: first + 1,
        };
        true
    }

    // Passes the first special byte, and returns its position.
    #[inline(always)]
    fn pass_first(&mut self) -> usize
        requires marks { (from : ℕ) × IsPlaced from self.old }
        requires some { 0 < self.old.bits }
        ensures { (text : List ℕ) (from : ℕ) → Marks text from self.old → Passes text from result self.new }
    {
        let first = self.bits.trailing_zeros();
        self.bits &= self.bits - 1;
        self.base + first as usize
    }
}

/// The position of the first special byte from `from` on, if there is one. All bytes before `from` are passed,
/// and afterwards that one is too.
#[inline(always)]
pub(crate) fn next_special(text: &[u8], from: usize, mask: &mut PlacedMask) -> Option<usize>
    requires { Marks text.now from mask.old }
    ensures found { IfSome result (λ end. (end < length text.now)
        × (end ≡ from + position_or_len is_special (drop from text.now))) }
    ensures none { IfNone result (length text.now ≤ from + position_or_len is_special (drop from text.now)) }
    ensures marks { IfSome result (λ end. Marks text.now (end + 1) mask.new) }
{
    if mask.has_next(text, from) {
        Some(mask.pass_first())
    } else {
        None
    }
}
