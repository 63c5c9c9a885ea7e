//! Numbers in decimal, two digits at a time.
ghost use Rattle.std.specs.Prelude.{◌≡◌, ◌≤◌, ◌<◌, ◌+◌, ◌/◌, ◌%◌, ◌++◌, ◌∷◌, [], length, take};
ghost use Rattle.std.specs.Fmt.{decimal, signed_decimal};

use itoa::Buffer;

/// The most bytes that a number takes.
pub(crate) const LONGEST: usize = 20;

// The digits of the numbers below 100.
static PAIRS: [u8; 200] =
    *b"00010203040506070809101112131415161718192021222324252627282930313233343536373839404142434445464748495051525354555657585960616263646566676869707172737475767778798081828384858687888990919293949596979899";

/// Writes a number at a position, and returns the position after it. Counts, sums and keys mostly
/// have up to eight digits.
#[inline(always)]
pub(crate) fn write_number(buffer: &mut [u8], at: usize, n: i64) -> usize
    requires { at + LONGEST ≤ length buffer.old }
    ensures written { take result buffer.new ≡ take at buffer.old ++ signed_decimal n }
    ensures end { (at ≤ result) × (result ≤ at + LONGEST) }
{
    match n {
        0..=99 => write_two(buffer, at, n as u32),
        100..=9_999 => write_four(buffer, at, n as u32),
        10_000..=99_999_999 => write_eight(buffer, at, n as u32),
        _ => write_long(buffer, at, n),
    }
}

// Writes one or two digits.
#[inline(always)]
fn write_two(buffer: &mut [u8], at: usize, n: u32) -> usize
    requires low { n < 100 }
    requires fits { at + 2 ≤ length buffer.old }
    ensures written { take result buffer.new ≡ take at buffer.old ++ decimal n }
    ensures end { (at ≤ result) × (result ≤ at + 2) }
{
    if n < 10 {
        buffer[at] = b'0' + n as u8;
        return at + 1;
    }
    write_pair(buffer, at, n)
}

// Writes three or four digits.
#[inline(always)]
fn write_four(buffer: &mut [u8], at: usize, n: u32) -> usize
    requires low { 100 ≤ n }
    requires high { n < 10000 }
    requires fits { at + 4 ≤ length buffer.old }
    ensures written { take result buffer.new ≡ take at buffer.old ++ decimal n }
    ensures end { (at ≤ result) × (result ≤ at + 4) }
{
    let next = write_two(buffer, at, n / 100);
    write_pair(buffer, next, n % 100)
}

// Writes one to four digits.
#[inline(always)]
fn write_front(buffer: &mut [u8], at: usize, n: u32) -> usize
    requires low { n < 10000 }
    requires fits { at + 4 ≤ length buffer.old }
    ensures written { take result buffer.new ≡ take at buffer.old ++ decimal n }
    ensures end { (at ≤ result) × (result ≤ at + 4) }
{
    if n < 100 {
        return write_two(buffer, at, n);
    }
    write_four(buffer, at, n)
}

// Writes five to eight digits.
#[inline(always)]
fn write_eight(buffer: &mut [u8], at: usize, n: u32) -> usize
    requires low { 10000 ≤ n }
    requires high { n < 100000000 }
    requires fits { at + 8 ≤ length buffer.old }
    ensures written { take result buffer.new ≡ take at buffer.old ++ decimal n }
    ensures end { (at ≤ result) × (result ≤ at + 8) }
{
    let next = write_front(buffer, at, n / 10_000);
    let low = n % 10_000;
    let next = write_pair(buffer, next, low / 100);
    write_pair(buffer, next, low % 100)
}

// Writes two digits of a number below 100.
#[inline(always)]
fn write_pair(buffer: &mut [u8], at: usize, n: u32) -> usize
    requires low { n < 100 }
    requires fits { at + 2 ≤ length buffer.old }
    ensures written { take result buffer.new ≡ take at buffer.old ++ (48 + n / 10) ∷ (48 + n % 10) ∷ [] }
    ensures end { result ≡ at + 2 }
{
    let from = n as usize * 2;
    let (tens, ones) = (PAIRS[from], PAIRS[from + 1]);
    buffer[at] = tens;
    buffer[at + 1] = ones;
    at + 2
}

// Not inlined, so that the loop over the cells reserves no space for the buffer.
#[inline(never)]
fn write_long(buffer: &mut [u8], at: usize, n: i64) -> usize
    requires { at + LONGEST ≤ length buffer.old }
    ensures written { take result buffer.new ≡ take at buffer.old ++ signed_decimal n }
    ensures end { (at ≤ result) × (result ≤ at + LONGEST) }
{
    let mut digits = Buffer::new();
    let text = digits.format(n).as_bytes();
    buffer[at..at + text.len()].copy_from_slice(text);
    at + text.len()
}
