//! Normalized sort keys: the first sixteen bytes of what rows are sorted by.
ghost use Rattle.std.specs.Prelude.{◌≡◌, ◌+◌, ◌*◌, ◌/◌, ◌<◌, ◌^◌, IfSome, drop, length, min, slice_index_or};
ghost use Rattle.gq_row.specs.declared.value.Value.TheVariants.{Int, NoCase, Text};
ghost use Rattle.gq_row.specs.Folding.{fold_case, folded};
ghost use Rattle.gq_row.specs.Rows.{cell};
ghost use Rattle.gq_cells.specs.Cells.{value_of};
ghost use Rattle.gq_query.specs.Answers.{ordered_by};
ghost use Rattle.gq_query.specs.SortPrefixes.{AreNextPrefixes, IsPairPrefix, IsWord, is_open, is_wide, is_whole, leading, past, past_word, rest_word, without_bytes};

use gq_cells::CellRef;
use gq_row::{Value, fold_eight};

/// The normalized key of two values in two words: that of the first value, then what it doesn't say
/// of it; if it says all, that of the second value. As numbers they are in the order of the folds. While
/// groups are sorted, the words may be numbers of codes instead.
#[derive(Clone, Copy, PartialEq, Eq, PartialOrd, Ord)]
pub struct SortPrefix {
    pub(crate) high: u64,
    pub(crate) low: u64,
}

// The word of all numbers below -2^55.
const LOW_NUMBER: u64 = (2 << 56) - 1;

// The word of all numbers from 2^55 on.
const HIGH_NUMBER: u64 = 3 << 56;

// The distance of -2^55 - 1 from the minimum.
const LOWEST: u64 = (1 << 63) - (1 << 55) - 1;

// The highest byte for a text.
const TEXT: u64 = 4 << 56;

// The highest byte for a text without case.
const NO_CASE: u64 = 5 << 56;

// How many bytes of a text a word has.
pub(crate) const WORD_BYTES: usize = 6;

// The length of texts that have more bytes than a word.
const LONGER: u64 = 7;

impl SortPrefix {
    /// Where keys go on that tie in this prefix from `place` on. A place is a number of cells, and then
    /// of bytes of a text. None if it is out of range.
    #[inline]
    pub fn past(&self, place: (usize, usize)) -> Option<(usize, usize)>
        ensures { IfSome result (λ next. next ≡ past self.now place) }
    {
        let next = past_word(self.high, place)?;
        if is_wide(self.high) || is_wide(self.low) {
            return Some(next);
        }
        past_word(self.low, next)
    }
}

// The same for one word.
#[inline]
fn past_word(word: u64, place: (usize, usize)) -> Option<(usize, usize)>
    ensures { IfSome result (λ next. next ≡ past_word word place) }
{
    let (cell, skip) = place;
    if is_open(word) {
        return Some((cell, skip.checked_add(WORD_BYTES)?));
    }
    Some((cell.checked_add(1)?, 0))
}

// Whether a word is of a text that has more bytes.
#[inline]
pub(crate) fn is_open(word: u64) -> bool
    ensures { result ≡ is_open word }
{
    word >= TEXT && word % 256 == LONGER
}

// Whether a word is of numbers that have none of their own.
#[inline]
fn is_wide(word: u64) -> bool
    ensures { result ≡ is_wide word }
{
    word == LOW_NUMBER || word == HIGH_NUMBER
}

/// Whether a word says all of its value.
#[inline]
pub fn is_whole(word: u64) -> bool
    ensures { result ≡ is_whole word }
{
    !is_open(word) && !is_wide(word)
}

/// The prefixes from the second and from the third value on that a row is ordered by.
#[derive(Clone, Copy, PartialEq, Eq, PartialOrd, Ord)]
pub struct NextPrefixes {
    second: SortPrefix,
    third: SortPrefix,
}

/// The prefixes by which rows are sorted that tie in the first one.
#[inline]
pub fn next_prefixes(columns: &[usize], row: &[Value]) -> NextPrefixes
    ensures { AreNextPrefixes (ordered_by columns.now row.now) result }
{
    NextPrefixes {
        second: prefix_in(columns, row, 1),
        third: prefix_in(columns, row, 2),
    }
}

/// The prefix of the values at a position and at the next among those that a row is ordered by.
#[inline]
pub fn prefix_in(columns: &[usize], row: &[Value], position: usize) -> SortPrefix
    requires { position + 1 < 2 ^ 64 }
    ensures { IsPairPrefix (cell (ordered_by columns.now row.now) position)
        (cell (ordered_by columns.now row.now) (position + 1)) result }
{
    if columns.is_empty() {
        return pair_prefix(cell_in(row, position), cell_in(row, position + 1));
    }
    pair_prefix(
        column_in(columns, row, position),
        column_in(columns, row, position + 1),
    )
}

// A row's cell, or null if the row is too short.
#[inline]
fn cell_in(row: &[Value], column: usize) -> CellRef<'_>
    ensures { value_of result ≡ cell row.now column }
{
    match row.get(column) {
        Some(value) => CellRef::of(value),
        None => CellRef::Null,
    }
}

// A row's cell in the column at a position, or null if there are fewer columns.
#[inline]
fn column_in<'a>(columns: &[usize], row: &'a [Value], position: usize) -> CellRef<'a>
    requires { 0 < length columns.now }
    ensures { folded (value_of result) ≡ cell (ordered_by columns.now row.now) position }
{
    match columns.get(position) {
        Some(column) => cell_in(row, *column),
        None => CellRef::Null,
    }
}

// The prefix of two values.
#[inline]
fn pair_prefix(first: CellRef<'_>, second: CellRef<'_>) -> SortPrefix
    ensures { IsPairPrefix (value_of first.entry) (value_of second.entry) result }
{
    let high = word_of(first, 0);
    let low = if is_whole(high) {
        word_of(second, 0)
    } else {
        rest_word(first, 0)
    };
    SortPrefix { high, low }
}

/// The word of a value without the first `skip` bytes, if it is a text: 0 for null; a number of up to
/// 55 bits and a sign; 4 with 6 bytes of a text and its length up to 7; 5 with those of a fold.
#[inline]
pub fn word_of(cell: CellRef<'_>, skip: usize) -> u64
    ensures { IsWord (without_bytes skip (value_of cell.entry)) result }
{
    match cell {
        CellRef::Null => 0,
        CellRef::Int(n) => number_word(n),
        CellRef::Text(text) => text_word(bytes_after(text.as_str().as_bytes(), skip)),
        CellRef::NoCase(text) => folded_word(bytes_after(text.as_str().as_bytes(), skip)),
    }
}

/// What the word of such a value doesn't say of it: all of a number, or the next bytes of a text.
#[inline]
pub fn rest_word(cell: CellRef<'_>, skip: usize) -> u64
    ensures { result ≡ rest_word (without_bytes skip (value_of cell.entry)) }
{
    match cell {
        CellRef::Null => 0,
        CellRef::Int(n) => n.abs_diff(i64::MIN),
        CellRef::Text(text) => text_word(rest_bytes(text.as_str().as_bytes(), skip)),
        CellRef::NoCase(text) => folded_word(rest_bytes(text.as_str().as_bytes(), skip)),
    }
}

// The bytes of a text after the first `skip`, and then after those of a word.
#[inline]
fn rest_bytes(text: &[u8], skip: usize) -> &[u8]
    ensures { result.now ≡ drop 6 (drop skip text.now) }
{
    bytes_after(bytes_after(text, skip), WORD_BYTES)
}

#[inline]
fn bytes_after(text: &[u8], skip: usize) -> &[u8]
    ensures { result.now ≡ drop skip text.now }
{
    text.get(skip..).unwrap_or(&[])
}

#[inline]
fn number_word(n: i64) -> u64
    ensures { IsWord (Int n) result }
{
    let above = n.abs_diff(i64::MIN).saturating_sub(LOWEST);
    LOW_NUMBER + above.min(HIGH_NUMBER - LOW_NUMBER)
}

fn text_word(text: &[u8]) -> u64
    ensures { IsWord (Text text.now) result }
{
    TEXT + with_length(first_bytes(text), text.len())
}

// The word of a text without case. Its bytes are folded while they are read.
fn folded_word(text: &[u8]) -> u64
    ensures { IsWord (NoCase text.now) result }
{
    NO_CASE + with_length(first_folded(text), text.len())
}

// Six of eight bytes, and the length of a text.
#[inline]
fn with_length(bytes: u64, len: usize) -> u64
    ensures { result ≡ bytes / 65536 * 256 + min len 7 }
{
    bytes / 65536 * 256 + (len as u64).min(LONGER)
}

// The first eight bytes of a text, big-endian.
fn first_bytes(text: &[u8]) -> u64
    ensures { result ≡ leading 8 text.now }
{
    match text.first_chunk::<8>() {
        Some(bytes) => u64::from_be_bytes(*bytes),
        None => padded_bytes(text),
    }
}

// The same for a shorter text, padded with zeros.
#[inline]
fn padded_bytes(text: &[u8]) -> u64
    requires { length text.now < 8 }
    ensures { result ≡ leading 8 text.now }
{
    match text {
        [a, b, c, d, rest @ ..] => {
            let four = u32::from_be_bytes([*a, *b, *c, *d]);
            (u64::from(four) << 32) + (first_three(rest) << 8)
        }
        _ => first_three(text) << 40,
    }
}

// The first three bytes of a text, big-endian, padded with zeros.
#[inline]
fn first_three(text: &[u8]) -> u64
    ensures { result ≡ leading 3 text.now }
{
    match text {
        [] => 0,
        [a] => u64::from(*a) << 16,
        [a, b] => (u64::from(*a) << 16) + (u64::from(*b) << 8),
        [a, b, c, ..] => (u64::from(*a) << 16) + (u64::from(*b) << 8) + u64::from(*c),
    }
}

#[inline]
fn byte(text: &[u8], place: usize) -> u8
    ensures { result ≡ slice_index_or text.now place 0 }
{
    match text.get(place) {
        Some(byte) => *byte,
        None => 0,
    }
}

// The first eight bytes of a text's fold, big-endian.
fn first_folded(text: &[u8]) -> u64
    ensures { result ≡ leading 8 (fold_case text.now) }
{
    match text.first_chunk::<8>() {
        Some(bytes) => u64::from_be_bytes(fold_eight(*bytes)),
        None => padded_folded(text),
    }
}

// The same for a shorter text, padded with zeros.
fn padded_folded(text: &[u8]) -> u64
    ensures { result ≡ leading 8 (fold_case text.now) }
{
    u64::from_be_bytes([
        folded_byte(text, 0),
        folded_byte(text, 1),
        folded_byte(text, 2),
        folded_byte(text, 3),
        folded_byte(text, 4),
        folded_byte(text, 5),
        folded_byte(text, 6),
        folded_byte(text, 7),
    ])
}

#[inline]
fn folded_byte(text: &[u8], place: usize) -> u8
    ensures { result ≡ slice_index_or (fold_case text.now) place 0 }
{
    byte(text, place).to_ascii_lowercase()
}
