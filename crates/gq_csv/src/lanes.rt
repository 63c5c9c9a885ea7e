//! Bytes that are compared at once.
ghost use Rattle.std.specs.Prelude.{◌≡◌, length, map};
ghost use Rattle.std.specs.List.{position_or_len};
ghost use Rattle.std.specs.Simd.Lanes.{mask_l};
ghost use Rattle.gq_csv.specs.Bytes.{is_special};

use std::simd::prelude::*;

/// The number of bytes that are searched at once.
pub(crate) const LANES: usize = 16;

/// The number of bytes that a new mask covers.
pub(crate) const MASK_LANES: usize = 64;

/// The position of the first byte that is special, among sixteen; 16 if none is.
#[inline(always)]
pub(crate) fn first_special(block: &[u8]) -> usize
    requires { length block.now ≡ 16 }
    ensures { result ≡ position_or_len is_special block.now }
{
    let lanes = u8x16::from_slice(block);
    let separators = lanes.simd_eq(u8x16::splat(b',')) | lanes.simd_eq(u8x16::splat(b'"'));
    let line_ends = lanes.simd_eq(u8x16::splat(b'\r')) | lanes.simd_eq(u8x16::splat(b'\n'));
    let bits = (separators | line_ends).to_bitmask();
    if bits == 0 {
        LANES
    } else {
        bits.trailing_zeros() as usize
    }
}

/// The mask of 64 bytes: bit `i` is set if byte `i` is special.
#[inline(always)]
pub(crate) fn special_bits(block: &[u8]) -> u64
    requires { length block.now ≡ 64 }
    ensures { result ≡ mask_l (map is_special block.now) }
{
    let lanes = u8x64::from_slice(block);
    let separators = lanes.simd_eq(u8x64::splat(b',')) | lanes.simd_eq(u8x64::splat(b'"'));
    let line_ends = lanes.simd_eq(u8x64::splat(b'\r')) | lanes.simd_eq(u8x64::splat(b'\n'));
    (separators | line_ends).to_bitmask()
}
