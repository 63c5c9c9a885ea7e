//! Texts that need no quotes, copied and checked at once.
ghost use Rattle.std.specs.Prelude.{◌≡◌, ◌+◌, ◌≤◌, ◌<◌, ◌++◌, false, true, length, take, drop};
ghost use Rattle.csv.specs.Writing.{default_writer, needs_byte, needs_quotes};
ghost use Rattle.gq_reply.specs.Bare.{is_plain};

use std::simd::prelude::*;

/// The most bytes that are copied without a call.
pub(crate) const MOST: usize = 32;

/// Copies a field of at most 32 bytes over the first bytes, and returns whether it is plain.
#[inline(always)]
pub(crate) fn copy_plain(bytes: &mut [u8], field: &[u8]) -> bool
    requires fits { length field.now ≤ length bytes.old }
    requires short { length field.now ≤ MOST }
    ensures copied { bytes.new ≡ field.now ++ drop (length field.now) bytes.old }
    ensures plain { result ≡ is_plain field.now }
{
    let is_clear = copy_over(bytes, field);
    is_clear || is_plain(field)
}

// Copies a field of at most 32 bytes over the first bytes. If it returns true, the field is plain.
#[inline(always)]
fn copy_over(bytes: &mut [u8], field: &[u8]) -> bool
    requires fits { length field.now ≤ length bytes.old }
    requires short { length field.now ≤ MOST }
    ensures copied { bytes.new ≡ field.now ++ drop (length field.now) bytes.old }
    ensures plain { result ≡ true → is_plain field.now ≡ true }
{
    if field.len() >= 16 {
        copy_ends::<16>(bytes, field)
    } else if field.len() >= 8 {
        copy_ends::<8>(bytes, field)
    } else if field.len() >= 4 {
        copy_ends::<4>(bytes, field)
    } else {
        copy_bytewise(bytes, field);
        false
    }
}

// Copies the first and the last `N` bytes of a field, which overlap. If it returns true, the field
// is plain.
#[inline(always)]
fn copy_ends<const N: usize>(bytes: &mut [u8], field: &[u8]) -> bool
    requires fits { length field.now ≤ length bytes.old }
    requires covers { (N ≤ length field.now) × (length field.now ≤ N + N) }
    requires lanes { (0 < N) × (N ≤ 64) }
    ensures copied { bytes.new ≡ field.now ++ drop (length field.now) bytes.old }
    ensures plain { result ≡ true → is_plain field.now ≡ true }
{
    let last = field.len() - N;
    let front = Simd::<u8, N>::from_slice(field);
    let back = Simd::<u8, N>::from_slice(&field[last..]);
    front.copy_to_slice(bytes);
    back.copy_to_slice(&mut bytes[last..]);
    are_clear(front, back)
}

#[inline(always)]
fn are_clear<const N: usize>(front: Simd<u8, N>, back: Simd<u8, N>) -> bool
    requires { N ≤ 64 }
    ensures front { result ≡ true → needs_quotes default_writer front.entry ≡ false }
    ensures back { result ≡ true → needs_quotes default_writer back.entry ≡ false }
{
    is_clear(front) && is_clear(back)
}

// Whether all bytes are above those that need quotes, as letters and digits are.
#[inline(always)]
fn is_clear<const N: usize>(lanes: Simd<u8, N>) -> bool
    requires { N ≤ 64 }
    ensures { result ≡ true → needs_quotes default_writer lanes.entry ≡ false }
{
    lanes.simd_le(Simd::<u8, N>::splat(b',')).to_bitmask() == 0
}

#[inline(always)]
fn copy_bytewise(bytes: &mut [u8], field: &[u8])
    requires { length field.now ≤ length bytes.old }
    ensures { bytes.new ≡ field.now ++ drop (length field.now) bytes.old }
{
    'bytes: for i in 0..field.len() {
        bytes[i] = field[i];
    }
}

/// Whether a field has bytes, and none of them needs quotes.
#[inline]
pub(crate) fn is_plain(field: &[u8]) -> bool
    ensures { result ≡ is_plain field.now }
{
    !field.is_empty() && !needs_quotes(field)
}

/// Whether a byte of a field needs quotes.
#[inline]
pub(crate) fn needs_quotes(field: &[u8]) -> bool
    ensures { result ≡ needs_quotes default_writer field.now }
{
    field.iter().any(|byte| needs_byte(*byte))
}

/// Whether a byte needs quotes. Letters and digits are above all of these, and take one comparison.
#[inline]
pub(crate) fn needs_byte(byte: u8) -> bool
    ensures { result ≡ needs_byte default_writer byte }
{
    byte <= b',' && matches!(byte, b',' | b'"' | b'\n' | b'\r')
}
