//! Where the plain bytes of a text end.
ghost use Rattle.std.specs.Prelude.{◌≡◌, ◌+◌, ◌≤◌, false, drop, length};
ghost use Rattle.std.specs.List.{position_or_len, prefix_len};
ghost use Rattle.gq_csv.specs.Bytes.{ends_line, is_special};

use crate::lanes::{LANES, first_special};

/// Whether a byte ends a line.
#[inline(always)]
pub(crate) fn ends_line(byte: u8) -> bool
    ensures { result ≡ ends_line byte }
{
    byte == b'\r' || byte == b'\n'
}

/// The position of the first special byte from `from` on, or the text's length.
#[inline(always)]
pub(crate) fn find_special(text: &[u8], from: usize) -> usize
    requires { from ≤ length text.now }
    ensures { result ≡ from + position_or_len is_special (drop from text.now) }
{
    let mut at = from;
    'blocks: while text.len() - at >= LANES {
        let plain = first_special(&text[at..at + LANES]);
        if plain < LANES {
            return at + plain;
        }
        at += LANES;
    }
    find_bytewise(text, at)
}

/// The same, byte by byte.
pub(crate) fn find_bytewise(text: &[u8], from: usize) -> usize
    requires { from ≤ length text.now }
    ensures first { result ≡ from + position_or_len is_special (drop from text.now) }
    ensures within { result ≤ length text.now }
{
    'bytes: for at in from..text.len() {
        let byte = text[at];
        if byte == b',' || byte == b'"' || ends_line(byte) {
            return at;
        }
    }
    text.len()
}

/// Whether the first byte of a text ends a line.
#[inline(always)]
pub(crate) fn starts_with_line_end(text: &[u8]) -> bool
    ensures { result ≡ false → prefix_len ends_line text.now ≡ 0 }
{
    match text.first() {
        Some(byte) => ends_line(*byte),
        None => false,
    }
}

/// How many bytes at the start of a text end lines.
#[inline(always)]
pub(crate) fn count_line_ends(text: &[u8]) -> usize
    ensures { result ≡ prefix_len ends_line text.now }
{
    'bytes: for at in 0..text.len() {
        if !ends_line(text[at]) {
            return at;
        }
    }
    text.len()
}
