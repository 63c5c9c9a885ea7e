//! The fold of a text: its bytes with A to Z as a to z. Only ASCII letters change, whatever the locale, so a
//! text and its fold have one length, and both are UTF-8.
ghost use Rattle.std.specs.Prelude.{◌≡◌, ◌+◌, ◌≤◌, length, take, drop, bytes_eq};
ghost use Rattle.std.specs.Char.{to_ascii_lowercase};
ghost use Rattle.std.specs.Ordering.{nat_cmp};
ghost use Rattle.std.specs.Cmp.Lexicographic.{slice_cmp};
ghost use Rattle.gq_row.specs.Folding.{fold_case};

use std::cmp::Ordering;
use std::simd::prelude::*;

// The fold of each byte.
const FOLDS: [u8; 256] = [
    0, 1, 2, 3, 4, 5, 6, 7, 8, 9, 10, 11, 12, 13, 14, 15, 16, 17, 18, 19, 20, 21, 22, 23, 24, 25,
    26, 27, 28, 29, 30, 31, 32, 33, 34, 35, 36, 37, 38, 39, 40, 41, 42, 43, 44, 45, 46, 47, 48, 49,
    50, 51, 52, 53, 54, 55, 56, 57, 58, 59, 60, 61, 62, 63, 64, 97, 98, 99, 100, 101, 102, 103,
    104, 105, 106, 107, 108, 109, 110, 111, 112, 113, 114, 115, 116, 117, 118, 119, 120, 121, 122,
    91, 92, 93, 94, 95, 96, 97, 98, 99, 100, 101, 102, 103, 104, 105, 106, 107, 108, 109, 110, 111,
    112, 113, 114, 115, 116, 117, 118, 119, 120, 121, 122, 123, 124, 125, 126, 127, 128, 129, 130,
    131, 132, 133, 134, 135, 136, 137, 138, 139, 140, 141, 142, 143, 144, 145, 146, 147, 148, 149,
    150, 151, 152, 153, 154, 155, 156, 157, 158, 159, 160, 161, 162, 163, 164, 165, 166, 167, 168,
    169, 170, 171, 172, 173, 174, 175, 176, 177, 178, 179, 180, 181, 182, 183, 184, 185, 186, 187,
    188, 189, 190, 191, 192, 193, 194, 195, 196, 197, 198, 199, 200, 201, 202, 203, 204, 205, 206,
    207, 208, 209, 210, 211, 212, 213, 214, 215, 216, 217, 218, 219, 220, 221, 222, 223, 224, 225,
    226, 227, 228, 229, 230, 231, 232, 233, 234, 235, 236, 237, 238, 239, 240, 241, 242, 243, 244,
    245, 246, 247, 248, 249, 250, 251, 252, 253, 254, 255,
];

// The number of bytes that are folded and compared at once.
const LANES: usize = 8;

// Whether the fold of a text is `folded`.
#[inline]
pub(crate) fn folds_to(text: &[u8], folded: &[u8]) -> bool
    ensures { result ≡ bytes_eq (fold_case text.now) folded.now }
{
    if text.len() != folded.len() {
        return false;
    }
    if text.len() < LANES {
        return short_folds_to(text, folded);
    }
    long_folds_to(text, folded)
}

// As `folds_to`, for texts of fewer than eight bytes, byte by byte.
fn short_folds_to(text: &[u8], folded: &[u8]) -> bool
    requires { length text.now ≡ length folded.now }
    ensures { result ≡ bytes_eq (fold_case text.now) folded.now }
{
    for i in 0..text.len() {
        if fold_byte(text[i]) != folded[i] {
            return false;
        }
    }
    true
}

// As `folds_to`, for longer texts, eight bytes at a time. The last eight overlap those before them, so that no
// remainder is left.
#[inline]
fn long_folds_to(text: &[u8], folded: &[u8]) -> bool
    requires same_length { length text.now ≡ length folded.now }
    requires long { LANES ≤ length text.now }
    ensures { result ≡ bytes_eq (fold_case text.now) folded.now }
{
    let last = text.len() - LANES;
    let mut at = 0;
    while at < last {
        if !lanes_fold_to(text, folded, at) {
            return false;
        }
        at += LANES;
    }
    lanes_fold_to(text, folded, last)
}

// Whether the folds of the eight bytes at a position are the bytes of `folded` there.
#[inline(always)]
fn lanes_fold_to(text: &[u8], folded: &[u8], at: usize) -> bool
    requires text { at + LANES ≤ length text.now }
    requires folded { at + LANES ≤ length folded.now }
    ensures { result ≡ bytes_eq (fold_case (take LANES (drop at text.now)))
        (take LANES (drop at folded.now)) }
{
    let folds = fold_lanes(u8x8::from_slice(&text[at..]));
    folds.simd_ne(u8x8::from_slice(&folded[at..])).to_bitmask() == 0
}

#[inline(always)]
fn fold_lanes(lanes: u8x8) -> u8x8
    ensures { result ≡ fold_case lanes }
{
    let capitals = lanes + u8x8::splat(b'a' - b'A');
    let up_to_z = lanes.simd_lt(u8x8::splat(b'Z' + 1)).select(capitals, lanes);
    lanes.simd_lt(u8x8::splat(b'A')).select(lanes, up_to_z)
}

/// The folds of eight bytes, computed at once.
#[inline]
pub fn fold_eight(bytes: [u8; 8]) -> [u8; 8]
    ensures { result ≡ fold_case bytes }
{
    fold_lanes(u8x8::from_array(bytes)).to_array()
}

// The fold of a byte. A table look-up takes fewer steps than a comparison and an addition.
#[inline(always)]
pub(crate) fn fold_byte(byte: u8) -> u8
    ensures { result ≡ to_ascii_lowercase byte }
{
    FOLDS[byte as usize]
}

// Compares the folds of two texts by their bytes.
pub(crate) fn compare_folds(a: &[u8], b: &[u8]) -> Ordering
    ensures { result ≡ slice_cmp nat_cmp (fold_case a.now) (fold_case b.now) }
{
    for i in 0..a.len() {
        if i >= b.len() {
            return Ordering::Greater;
        }
        match fold_byte(a[i]).cmp(&fold_byte(b[i])) {
            Ordering::Equal => {}
            other => return other,
        }
    }
    if a.len() < b.len() {
        Ordering::Less
    } else {
        Ordering::Equal
    }
}
