//! Results of comparing sixteen bytes.
ghost use Rattle.std.specs.Prelude.{◌≡◌, ◌≤◌, ◌<◌, ◌↔◌, ℕ, IsTrue, IfSome, IfNone, true, false, slice_index_or, count_by, position, Contains};
ghost use Rattle.sw_ctrl.specs.Bits.{bits_of, number_of, without_first};

use std::marker::Model;

/// Sixteen lanes, each set or not: lane `i` is for byte `i` of a group.
#[derive(Clone, Copy)]
pub struct Mask16 {
    bits: u16,
}

impl Model for Mask16 {
    ghost use Rattle.std.specs.Prelude.{ℕ, ◌<◌, ◌^◌, List, Bool};
    ghost use Rattle.sw_ctrl.specs.Bits.{bits_of, number_of, number_of-bits_of};

    ghost Value = { List Bool };

    ghost view = { λ m. bits_of 16 m.bits };

    ghost invariant = { λ m. m.bits < 2 ^ 16 };

    ghost inverse = { λ places. record { bits = number_of places } };

    ghost inverse_ok = { λ m h i. record { bits = number_of-bits_of 16 m.bits h i } };
}

impl Mask16 {
    // The mask of these bits, the lowest bit for lane 0.
    #[inline]
    pub(crate) fn from_bits(bits: u16) -> Mask16
        ensures { result ≡ bits_of 16 bits }
    {
        Mask16 { bits }
    }

    /// The mask as a number, in which bit `i` is lane `i`.
    #[inline]
    pub fn bits(self) -> u16
        ensures number { result ≡ number_of self }
        ensures places { bits_of 16 result ≡ self }
    {
        self.bits
    }

    /// Whether any lane is set.
    #[inline]
    pub fn any(self) -> bool
        ensures { IsTrue result ↔ Contains self true }
    {
        self.bits != 0
    }

    /// The number of set lanes, from 0 to 16.
    #[inline]
    pub fn count(self) -> u32
        ensures { result ≡ count_by (λ b. b) self }
    {
        self.bits.count_ones()
    }

    /// The first set lane, from 0 to 15.
    #[inline]
    pub fn lowest(self) -> Option<u32>
        ensures { result ≡ position (λ b. b) self }
    {
        if self.bits == 0 {
            None
        } else {
            Some(self.bits.trailing_zeros())
        }
    }

    /// The first set lane from lane `from` on.
    #[inline]
    pub fn lowest_from(self, from: u32) -> Option<u32>
        requires { from < 16 }
        ensures set { IfSome result (λ l. (from ≤ l) × (l < 16) ×
            (slice_index_or self l false ≡ true)) }
        ensures first { IfSome result (λ l. (k : ℕ) → from ≤ k → k < l →
            slice_index_or self k false ≡ false) }
        ensures none { IfNone result ((k : ℕ) → from ≤ k → slice_index_or self k false ≡ false) }
    {
        let rest = self.bits >> from;
        if rest == 0 {
            return None;
        }
        Some(from + rest.trailing_zeros())
    }

    /// The mask with its first set lane cleared, if any is set.
    #[inline]
    pub fn without_lowest(self) -> Mask16
        ensures { result ≡ without_first self }
    {
        if self.bits == 0 {
            self
        } else {
            Mask16 {
                bits: self.bits & (self.bits - 1),
            }
        }
    }
}
