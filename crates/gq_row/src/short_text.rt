//! Texts of up to 22 bytes, stored inline.
ghost use Rattle.std.specs.Int.{w64, to_be_bytes};
ghost use Rattle.std.specs.Prelude.{◌≡◌, ◌+◌, ◌-◌, ◌≤◌, ◌<◌, ◌++◌, [], IfNone, IfSome, IsUtf8, length, take, drop, replicate, bytes_eq};
ghost use Rattle.sw_probe.specs.Hashes.{number_of};
ghost use Rattle.gq_row.specs.ShortTexts.{IsPadded};

use std::marker::Model;
use std::simd::prelude::*;
use std::str;

/// The most bytes that are stored inline.
pub(crate) const MOST: usize = 22;

// The number of bytes that are compared at once.
const LANES: usize = 16;

/// A UTF-8 text of at most 22 bytes, seen as its bytes. It is padded with zeros, so that two texts are equal
/// exactly if all 22 bytes and their lengths are.
#[derive(Clone, Copy)]
pub(crate) struct ShortText {
    len: u8,
    bytes: [u8; MOST],
}

impl Model for ShortText {
    ghost use Rattle.std.specs.Prelude.{◌-◌, ◌++◌, List, ℕ, length, take, replicate};

    ghost Value = { List ℕ };

    ghost use Rattle.gq_row.specs.ShortTexts.{IsShort, whole_again};

    ghost view = { λ t. take t.len t.bytes };

    ghost invariant = { λ t. IsShort t.len t.bytes };

    ghost inverse = { λ text. record { len = length text; bytes = text ++ replicate (22 - length text) 0 } };

    ghost inverse_ok = { λ t h i. record {
      len = (whole_again t.len t.bytes h).0 i;
      bytes = (whole_again t.len t.bytes h).1 i;
    } };
}

impl ShortText {
    /// The empty text.
    #[inline]
    pub(crate) fn empty() -> ShortText
        ensures { result ≡ [] }
    {
        ShortText {
            len: 0,
            bytes: [0; MOST],
        }
    }

    /// A copy of a text.
    #[inline(always)]
    pub(crate) fn of(chars: &str) -> ShortText
        requires { length chars.now ≤ MOST }
        ensures { result ≡ chars.now }
    {
        let mut bytes = [0; MOST];
        copy_over(&mut bytes, chars.as_bytes());
        ShortText {
            len: chars.len() as u8,
            bytes,
        }
    }

    /// Overwrites this text with another.
    #[inline(always)]
    pub(crate) fn write(&mut self, chars: &str)
        requires { length chars.now ≤ MOST }
        ensures { self.new ≡ chars.now }
    {
        *self = ShortText::empty();
        self.fill_empty(chars);
    }

    /// The same, if this text is empty.
    #[inline(always)]
    pub(crate) fn fill_empty(&mut self, chars: &str)
        requires short { length chars.now ≤ MOST }
        requires empty { self.old ≡ [] }
        ensures { self.new ≡ chars.now }
    {
        copy_over(&mut self.bytes, chars.as_bytes());
        self.len = chars.len() as u8;
    }

    /// Overwrites this text with the first `len` of eight bytes, which are those of a number, big-endian.
    #[inline(always)]
    pub(crate) fn write_padded(&mut self, number: u64, len: usize)
        requires { IsPadded len (to_be_bytes w64 number) }
        ensures { self.new ≡ take len (to_be_bytes w64 number) }
    {
        let b = number.to_be_bytes();
        self.bytes = [
            b[0], b[1], b[2], b[3], b[4], b[5], b[6], b[7], 0, 0, 0, 0, 0, 0, 0, 0, 0, 0, 0, 0, 0,
            0,
        ];
        self.len = len as u8;
    }

    #[inline]
    pub(crate) fn len(&self) -> usize
        ensures { result ≡ length self.now }
    {
        self.len as usize
    }

    #[inline]
    pub(crate) fn as_str(&self) -> &str
        ensures { result.now ≡ self.now }
    {
        unsafe { str::from_utf8_unchecked(&self.bytes[..self.len as usize]) }
    }

    /// The number that the bytes spell, big-endian, if there are one to seven.
    #[inline(always)]
    pub(crate) fn number(&self) -> Option<u64>
        ensures few { IfSome result (λ n. length self.now < 8) }
        ensures number { IfSome result (λ n. n ≡ number_of self.now) }
    {
        if self.len == 0 || self.len > 7 {
            return None;
        }
        let b = &self.bytes;
        let eight = u64::from_be_bytes([b[0], b[1], b[2], b[3], b[4], b[5], b[6], b[7]]);
        Some(eight >> (8 * (8 - self.len)))
    }

    /// The number of eight bytes, big-endian, that are the text and zeros after it, if it has at most seven.
    #[inline(always)]
    pub(crate) fn padded_number(&self) -> Option<u64>
        ensures few { IfSome result (λ n. length self.now < 8) }
        ensures none { IfNone result (7 < length self.now) }
        ensures valid { IfSome result (λ n. ∥ IsUtf8 self.now ∥₁) }
        ensures padded { IfSome result (λ n. to_be_bytes w64 n ≡ self.now ++ replicate (8 - length self.now) 0) }
    {
        if self.len > 7 {
            return None;
        }
        let b = &self.bytes;
        Some(u64::from_be_bytes([b[0], b[1], b[2], b[3], b[4], b[5], b[6], b[7]]))
    }

    /// Whether two texts are equal: their lengths and all 22 bytes.
    #[inline]
    pub(crate) fn equals(&self, other: &ShortText) -> bool
        ensures { result ≡ bytes_eq self.now other.now }
    {
        self.len == other.len && same_bytes(&self.bytes, &other.bytes)
    }
}

// Copies a text of at most 22 bytes over the first bytes, without a call.
#[inline(always)]
fn copy_over(bytes: &mut [u8], text: &[u8])
    requires fits { length text.now ≤ length bytes.old }
    requires short { length text.now ≤ MOST }
    ensures { bytes.new ≡ text.now ++ drop (length text.now) bytes.old }
{
    if text.len() >= 16 {
        copy_ends::<16>(bytes, text);
    } else if text.len() >= 8 {
        copy_ends::<8>(bytes, text);
    } else if text.len() >= 4 {
        copy_ends::<4>(bytes, text);
    } else {
        copy_few(bytes, text);
    }
}

// Copies the first and the last `N` bytes of a text, which overlap.
#[inline(always)]
fn copy_ends<const N: usize>(bytes: &mut [u8], text: &[u8])
    requires fits { length text.now ≤ length bytes.old }
    requires covers { (N ≤ length text.now) × (length text.now ≤ N + N) }
    ensures { bytes.new ≡ text.now ++ drop (length text.now) bytes.old }
{
    let last = text.len() - N;
    Simd::<u8, N>::from_slice(text).copy_to_slice(bytes);
    Simd::<u8, N>::from_slice(&text[last..]).copy_to_slice(&mut bytes[last..]);
}

// Copies a text of at most three bytes.
#[inline(always)]
fn copy_few(bytes: &mut [u8], text: &[u8])
    requires fits { length text.now ≤ length bytes.old }
    requires few { length text.now < 4 }
    ensures { bytes.new ≡ text.now ++ drop (length text.now) bytes.old }
{
    if text.len() >= 2 {
        copy_ends::<2>(bytes, text);
    } else if text.len() == 1 {
        copy_ends::<1>(bytes, text);
    }
}

// Whether all 22 bytes are equal, sixteen at a time; the last sixteen overlap the first.
#[inline(always)]
fn same_bytes(a: &[u8; MOST], b: &[u8; MOST]) -> bool
    ensures { result ≡ bytes_eq a.now b.now }
{
    same_lanes(a, b, 0) && same_lanes(a, b, MOST - LANES)
}

// Whether the sixteen bytes at a position are equal.
#[inline(always)]
fn same_lanes(a: &[u8], b: &[u8], at: usize) -> bool
    requires a { at + LANES ≤ length a.now }
    requires b { at + LANES ≤ length b.now }
    ensures { result ≡ bytes_eq (take LANES (drop at a.now)) (take LANES (drop at b.now)) }
{
    let lanes = u8x16::from_slice(&a[at..]);
    lanes.simd_ne(u8x16::from_slice(&b[at..])).to_bitmask() == 0
}
