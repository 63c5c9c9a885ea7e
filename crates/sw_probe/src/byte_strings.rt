//! Comparing byte strings.
ghost use Rattle.std.specs.Prelude.{◌≡◌, ◌↔◌, ◌≤◌, IsTrue, length, take};
ghost use Rattle.std.specs.Int.{w64, to_le_bytes};

/// Whether two byte strings are equal. Made for short keys: from 8 to 16 bytes it compares the first and the
/// last eight, which overlap, and makes no call.
#[inline]
pub fn same_bytes(a: &[u8], b: &[u8]) -> bool
    ensures { IsTrue result ↔ (a.now ≡ b.now) }
{
    let len = a.len();
    if len != b.len() {
        return false;
    }
    if len < 8 || 16 < len {
        return same_of_other_length(a, b);
    }
    let last = len - 8;
    first_word(a) == first_word(b) && first_word(&a[last..]) == first_word(&b[last..])
}

// Cold: a call in the loop over the slots would take registers from it.
#[cold]
fn same_of_other_length(a: &[u8], b: &[u8]) -> bool
    ensures { IsTrue result ↔ (a.now ≡ b.now) }
{
    a == b
}

// The first eight bytes as a number, little-endian.
#[inline]
fn first_word(bytes: &[u8]) -> u64
    requires { 8 ≤ length bytes.now }
    ensures { to_le_bytes w64 result ≡ take 8 bytes.now }
{
    u64::from_le_bytes([
        bytes[0], bytes[1], bytes[2], bytes[3], bytes[4], bytes[5], bytes[6], bytes[7],
    ])
}
