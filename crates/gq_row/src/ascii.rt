//! Bytes that are all ASCII.
ghost use Rattle.std.specs.Prelude.{◌≡◌, ◌+◌, ◌≤◌, ◌<◌, length, take, drop, nat_lt};
ghost use Rattle.std.specs.List.{list_all};

use std::simd::prelude::*;

// The number of bytes that are looked at at once.
const LANES: usize = 8;

// The number at once in a text of fewer than `LANES` bytes.
const FEW: usize = 4;

/// Whether all bytes are ASCII, eight at a time. The last eight overlap those before them, so that no
/// remainder is left.
#[inline]
pub fn is_ascii(bytes: &[u8]) -> bool
    ensures { result ≡ list_all (λ byte. nat_lt byte 128) bytes.now }
{
    if bytes.len() < LANES {
        return few_are_ascii(bytes);
    }
    let last = bytes.len() - LANES;
    let mut at = 0;
    while at < last {
        if !lanes_are_ascii(bytes, at) {
            return false;
        }
        at += LANES;
    }
    lanes_are_ascii(bytes, last)
}

// The same of fewer than eight.
#[inline(always)]
fn few_are_ascii(bytes: &[u8]) -> bool
    requires { length bytes.now < LANES }
    ensures { result ≡ list_all (λ byte. nat_lt byte 128) bytes.now }
{
    if bytes.len() < FEW {
        return bytes.iter().all(|byte| *byte < 128);
    }
    four_are_ascii(bytes, 0) && four_are_ascii(bytes, bytes.len() - FEW)
}

// Whether the four bytes at a position are ASCII.
#[inline(always)]
fn four_are_ascii(bytes: &[u8], at: usize) -> bool
    requires { at + FEW ≤ length bytes.now }
    ensures { result ≡ list_all (λ byte. nat_lt byte 128) (take FEW (drop at bytes.now)) }
{
    let lanes = u8x4::from_slice(&bytes[at..]);
    lanes.simd_ge(u8x4::splat(128)).to_bitmask() == 0
}

// Whether the eight bytes at a position are ASCII.
#[inline(always)]
fn lanes_are_ascii(bytes: &[u8], at: usize) -> bool
    requires { at + LANES ≤ length bytes.now }
    ensures { result ≡ list_all (λ byte. nat_lt byte 128) (take LANES (drop at bytes.now)) }
{
    let lanes = u8x8::from_slice(&bytes[at..]);
    lanes.simd_ge(u8x8::splat(128)).to_bitmask() == 0
}
