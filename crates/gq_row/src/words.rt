//! Words of keys, value by value, for hashers that take eight bytes at once.
ghost use Rattle.std.specs.Prelude.{◌≡◌, ◌<◌, All, length, map, fold};
ghost use Rattle.std.specs.Char.{to_ascii_lowercase};
ghost use Rattle.sw_probe.specs.Words.{words_of};
ghost use Rattle.gq_row.specs.Classes.{value_words, worded};
ghost use Rattle.gq_row.specs.Folding.{fold_case, folded};
ghost use Rattle.gq_row.specs.Rows.{key_of};

use crate::folding::{fold_byte, fold_eight};
use crate::text::Text;
use crate::value::Value;
use sw_probe::{AsItIs, ByteMap, WordStep, fold_byte_words};

// Hashes the words of values.
#[inline]
pub(crate) fn fold_cell_words<F: WordStep>(cells: &[Value], start: u64, f: &F) -> u64
    ensures { result ≡ fold (F.next f.now) start (worded cells.now) }
{
    let mut acc = start;
    for cell in cells {
        acc = fold_value_words(cell, acc, f);
    }
    acc
}

// Hashes the words of the folds of values.
#[inline]
pub(crate) fn fold_folded_words<F: WordStep>(cells: &[Value], start: u64, f: &F) -> u64
    ensures { result ≡ fold (F.next f.now) start (worded (map folded cells.now)) }
{
    let mut acc = start;
    for cell in cells {
        acc = fold_words_of_fold(cell, acc, f);
    }
    acc
}

// Hashes the words of the folds of a row's values in the columns at these positions.
#[inline]
pub(crate) fn fold_row_words<F: WordStep>(
    positions: &[usize],
    row: &[Value],
    start: u64,
    f: &F,
) -> u64
    requires { All (λ position. position < length row.now) positions.now }
    ensures { result ≡ fold (F.next f.now) start (worded (key_of positions.now row.now)) }
{
    let mut acc = start;
    for position in positions {
        acc = fold_words_of_fold(&row[*position], acc, f);
    }
    acc
}

// Hashes the words of a value's fold, without making the fold. Only that of a number is in line.
#[inline(always)]
fn fold_words_of_fold<F: WordStep>(value: &Value, start: u64, f: &F) -> u64
    ensures { result ≡ fold (F.next f.now) start (value_words (folded value.now)) }
{
    if let Value::Int(number) = value {
        return f.step(start, number.cast_unsigned());
    }
    fold_words_of_other(value, start, f)
}

// As `fold_words_of_fold`. Not inlined, so that look-ups of numbers stay short.
#[inline(never)]
fn fold_words_of_other<F: WordStep>(value: &Value, start: u64, f: &F) -> u64
    ensures { result ≡ fold (F.next f.now) start (value_words (folded value.now)) }
{
    match value {
        Value::NoCase(text) => fold_lowered_words(text, start, f),
        Value::Null | Value::Int(_) | Value::Text(_) => fold_value_words(value, start, f),
    }
}

#[inline]
fn fold_value_words<F: WordStep>(value: &Value, start: u64, f: &F) -> u64
    ensures { result ≡ fold (F.next f.now) start (value_words value.now) }
{
    match value {
        Value::Null => f.step(start, 0),
        Value::Int(n) => f.step(start, n.cast_unsigned()),
        Value::Text(text) | Value::NoCase(text) => fold_text_words(text, start, f),
    }
}

// Hashes the words of a text.
#[inline]
fn fold_text_words<F: WordStep>(text: &Text, start: u64, f: &F) -> u64
    ensures { result ≡ fold (F.next f.now) start (words_of text.now) }
{
    match text.number() {
        Some(number) => f.step(f.step(start, text.len() as u64), number),
        None => fold_byte_words(text.as_str().as_bytes(), &AsItIs, start, f),
    }
}

// Hashes the words of a text's fold. Not inlined, so that look-ups of other values stay short.
#[inline(never)]
fn fold_lowered_words<F: WordStep>(text: &Text, start: u64, f: &F) -> u64
    ensures { result ≡ fold (F.next f.now) start (words_of (fold_case text.now)) }
{
    fold_byte_words(text.as_str().as_bytes(), &Lowered, start, f)
}

// Maps each byte to its fold.
struct Lowered;

impl ByteMap for Lowered {
    ghost image = { λ _. to_ascii_lowercase };

    #[inline(always)]
    fn byte(&self, byte: u8) -> u8 {
        fold_byte(byte)
    }

    #[inline(always)]
    fn eight(&self, bytes: [u8; 8]) -> [u8; 8] {
        fold_eight(bytes)
    }
}
