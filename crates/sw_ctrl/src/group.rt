//! Sixteen control bytes, compared at once.
ghost use Rattle.std.specs.Prelude.{◌≡◌, ◌==◌, ◌<◌, length, map};
ghost use Rattle.sw_ctrl.specs.Bytes.{is_empty, is_free, is_full, marked};

use crate::control::{DELETED, EMPTY};
use crate::mask16::Mask16;
use std::marker::Model;
use std::simd::prelude::*;

/// The number of control bytes of a group.
pub const WIDTH: usize = 16;

/// Sixteen control bytes in a register.
#[derive(Clone, Copy)]
pub struct Group {
    lanes: u8x16,
}

impl Model for Group {
    ghost use Rattle.std.specs.Prelude.{◌≡◌, ℕ, List, length};

    ghost Value = { List ℕ };

    ghost view = { λ g. g.lanes };

    ghost invariant = { λ g. length g.lanes ≡ 16 };

    ghost inverse = { λ bytes. record { lanes = bytes } };
}

impl Group {
    /// The group of any sixteen bytes.
    #[inline]
    pub fn of(bytes: &[u8]) -> Group
        requires { length bytes.now ≡ 16 }
        ensures { result ≡ bytes.now }
    {
        Group {
            lanes: u8x16::from_slice(bytes),
        }
    }

    /// Which bytes are `h2`, the seven low bits of a hash.
    #[inline]
    pub fn match_h2(self, h2: u8) -> Mask16
        requires { h2 < 128 }
        ensures { result ≡ map (λ b. b == h2) self }
    {
        self.match_byte(h2)
    }

    /// Which bytes are empty.
    #[inline]
    pub fn match_empty(self) -> Mask16
        ensures { result ≡ map is_empty self }
    {
        self.match_byte(EMPTY)
    }

    /// Which bytes are free: empty or deleted.
    #[inline]
    pub fn match_free(self) -> Mask16
        ensures { result ≡ map is_free self }
    {
        let empty = self.lanes.simd_eq(u8x16::splat(EMPTY));
        let deleted = self.lanes.simd_eq(u8x16::splat(DELETED));
        Mask16::from_bits((empty | deleted).to_bitmask() as u16)
    }

    /// Which bytes are full.
    #[inline]
    pub fn match_full(self) -> Mask16
        ensures { result ≡ map is_full self }
    {
        Mask16::from_bits(self.lanes.simd_lt(u8x16::splat(EMPTY)).to_bitmask() as u16)
    }

    // Which bytes are `byte`.
    #[inline]
    fn match_byte(self, byte: u8) -> Mask16
        ensures { result ≡ map (λ b. b == byte) self }
    {
        Mask16::from_bits(self.lanes.simd_eq(u8x16::splat(byte)).to_bitmask() as u16)
    }

    // The group with each full byte deleted and each other byte empty.
    #[inline]
    pub(crate) fn marked(self) -> Group
        ensures { result ≡ map marked self }
    {
        let full = self.lanes.simd_lt(u8x16::splat(EMPTY));
        Group {
            lanes: full.select(u8x16::splat(DELETED), u8x16::splat(EMPTY)),
        }
    }

    // Overwrites sixteen bytes with the group.
    #[inline]
    pub(crate) fn write_to(self, bytes: &mut [u8])
        requires { length bytes.old ≡ 16 }
        ensures { bytes.new ≡ self }
    {
        self.lanes.copy_to_slice(bytes);
    }
}
