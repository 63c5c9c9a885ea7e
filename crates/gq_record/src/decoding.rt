//! Decoding records.
ghost use Rattle.std.specs.Prelude.{◌≡◌, ◌≤◌, ◌<◌, ℕ, ℤ, ◌^◌, false, true, All, List, ◌∷◌, ◌++◌, length, take, IfOk, IfSome, IfNone, IsUtf8, FitsSigned};
ghost use Rattle.std.specs.Int.{to_be_bytes, w32, w64};
ghost use Rattle.gq_row.specs.declared.value.Value.{Value as Cell};
ghost use Rattle.gq_record.specs.Records.{IsStorable, IsCell, IsText, record_of, body_of, value_bytes, with_length, number_bytes};

use crate::kinds::{INT, NO_CASE, NULL, TEXT};
use byteorder::{BigEndian, ByteOrder};
use gq_row::{Row, Value, is_ascii};
use std::alloc::{AllocError, Global};
use std::{mem, slice, str};

/// The length that the bytes begin with, and the bytes after it; `None` if there are fewer than four.
#[inline]
pub fn take_length(bytes: &[u8]) -> Option<(u32, &[u8])>
    ensures found { IfSome result (λ x. bytes.now ≡ to_be_bytes w32 x.0 ++ x.1.now) }
    ensures small { IfSome result (λ x. x.0 < 2 ^ 32) }
    ensures none { IfNone result (length bytes.now < 4) }
{
    if bytes.len() < 4 {
        return None;
    }
    let (head, rest) = bytes.split_at(4);
    Some((BigEndian::read_u32(head), rest))
}

// The number that the bytes begin with, and the bytes after it.
#[inline(always)]
fn split_number(bytes: &[u8]) -> (i64, &[u8])
    requires { 8 ≤ length bytes.now }
    ensures number { bytes.now ≡ number_bytes result.0 ++ result.1.now }
    ensures fits { FitsSigned w64 result.0 }
{
    let (head, rest) = bytes.split_at(8);
    (BigEndian::read_i64(head), rest)
}

// The number of the value that the bytes begin with, and the bytes after it; `None` if that value is no number.
// One test of the length suffices for the tag and the number.
#[inline(always)]
fn take_number(bytes: &[u8]) -> Option<(i64, &[u8])>
    ensures found { IfSome result (λ x. (bytes.now ≡ INT ∷ (number_bytes x.0 ++ x.1.now)) ×
        FitsSigned w64 x.0) }
    ensures none { IfNone result ((value : ℤ) (rest : List ℕ) →
        bytes.now ≡ INT ∷ (number_bytes value ++ rest) → ⊥) }
{
    if bytes.len() < 9 {
        return None;
    }
    let (tag, rest) = bytes.split_first()?;
    if *tag != INT {
        return None;
    }
    Some(split_number(rest))
}

// The bytes after the length that these begin with, as many as it says, and the bytes after those.
#[inline(always)]
fn take_block(bytes: &[u8]) -> Option<(&[u8], &[u8])>
    ensures found { IfSome result (λ x. (bytes.now ≡ with_length x.0.now ++ x.1.now) ×
        (length x.0.now < 2 ^ 32)) }
    ensures none { IfNone result ((block rest : List ℕ) → length block < 2 ^ 32 →
        bytes.now ≡ with_length block ++ rest → ⊥) }
{
    let (len, rest) = take_length(bytes)?;
    let len = len as usize;
    if rest.len() < len {
        return None;
    }
    Some(rest.split_at(len))
}

// Whether the bytes are UTF-8. Cold, since most texts are ASCII.
#[cold]
fn is_utf8(bytes: &[u8]) -> bool
    ensures yes { result ≡ true → IsUtf8 bytes.now }
    ensures no { result ≡ false → IsUtf8 bytes.now → ⊥ }
{
    str::from_utf8(bytes).is_ok()
}

// The bytes as a text, if they are UTF-8.
#[inline(always)]
fn utf8_of(bytes: &[u8]) -> Option<&str>
    ensures some { IfSome result (λ text. (text.now ≡ bytes.now) × IsUtf8 bytes.now) }
    ensures none { IfNone result (IsUtf8 bytes.now → ⊥) }
{
    if !is_ascii(bytes) && !is_utf8(bytes) {
        return None;
    }
    Some(unsafe { str::from_utf8_unchecked(bytes) })
}

// The text that the bytes begin with, and the bytes after it.
#[inline(always)]
fn take_text(bytes: &[u8]) -> Option<(&str, &[u8])>
    ensures found { IfSome result (λ x. (bytes.now ≡ with_length x.0.now ++ x.1.now) ×
        IsText x.0.now) }
    ensures none { IfNone result ((text rest : List ℕ) → IsText text →
        bytes.now ≡ with_length text ++ rest → ⊥) }
{
    let (block, rest) = take_block(bytes)?;
    let Some(text) = utf8_of(block) else {
        return None;
    };
    Some((text, rest))
}

// Overwrites `over` with the value that the bytes begin with, and returns the bytes after it.
#[inline(always)]
#[tactic(auto, unfolding(crate::specs::Records::value_bytes))]
fn take_value<'a>(
    alloc: Global,
    bytes: &'a [u8],
    over: &mut Value,
) -> Result<Option<&'a [u8]>, AllocError>
    ensures found { IfOk result (λ o. IfSome o (λ rest.
        (bytes.now ≡ value_bytes over.new ++ rest.now) × IsCell over.new)) }
    ensures none { IfOk result (λ o. IfNone o ((value : Cell) (rest : List ℕ) → IsCell value →
        bytes.now ≡ value_bytes value ++ rest → ⊥)) }
{
    if let Some((n, rest)) = take_number(bytes) {
        over.write_number(n);
        return Ok(Some(rest));
    }
    let Some((tag, rest)) = bytes.split_first() else {
        return Ok(None);
    };
    match *tag {
        NULL => {
            *over = Value::Null;
            Ok(Some(rest))
        }
        TEXT => {
            let Some((text, rest)) = take_text(rest) else {
                return Ok(None);
            };
            over.write_text(alloc, text)?;
            Ok(Some(rest))
        }
        NO_CASE => {
            let Some((text, rest)) = take_text(rest) else {
                return Ok(None);
            };
            over.write_without_case(alloc, text)?;
            Ok(Some(rest))
        }
        _ => Ok(None),
    }
}

// Overwrites as many values as there are with those that the bytes begin with, and returns the bytes after
// them. `None` for one value says that the bytes begin with none.
fn take_cells<'a>(
    alloc: Global,
    bytes: &'a [u8],
    cells: &mut [Value],
) -> Result<Option<&'a [u8]>, AllocError>
    ensures found { IfOk result (λ o. IfSome o (λ rest.
        (bytes.now ≡ body_of cells.new ++ rest.now) × All IsCell cells.new)) }
    ensures none { IfOk result (λ o. IfNone o (length cells.old ≡ 1 → (value : Cell) (rest : List ℕ) →
        IsCell value → bytes.now ≡ value_bytes value ++ rest → ⊥)) }
{
    let mut rest = bytes;
    'cells: for i in 0..cells.len() {
        let Some(behind) = take_value(alloc, rest, &mut cells[i])? else {
            return Ok(None);
        };
        rest = behind;
    }
    Ok(Some(rest))
}

// As `take_value`, which `take_cells` alone calls, so that it is compiled into its loop.
#[cold]
fn take_one<'a>(
    alloc: Global,
    bytes: &'a [u8],
    over: &mut Value,
) -> Result<Option<&'a [u8]>, AllocError>
    ensures found { IfOk result (λ o. IfSome o (λ rest.
        (bytes.now ≡ value_bytes over.new ++ rest.now) × IsCell over.new)) }
    ensures none { IfOk result (λ o. IfNone o ((value : Cell) (rest : List ℕ) → IsCell value →
        bytes.now ≡ value_bytes value ++ rest → ⊥)) }
{
    take_cells(alloc, bytes, slice::from_mut(over))
}

// Overwrites `cells` with the values of the row with this body, and returns whether there is one. `room` is the
// number of values to reserve room for.
fn take_body(
    alloc: Global,
    bytes: &[u8],
    room: usize,
    cells: &mut Vec<Value>,
) -> Result<bool, AllocError>
    ensures found { IfOk result (λ is_body. is_body ≡ true →
        (bytes.now ≡ body_of cells.new.items) × All IsCell cells.new.items) }
    ensures none { IfOk result (λ is_body. is_body ≡ false → (row : List Cell) →
        All IsCell row → bytes.now ≡ body_of row → ⊥) }
{
    cells.reserve_exact(room.saturating_sub(cells.len()))?;
    let mut count = 0;
    let mut rest = bytes;
    while !rest.is_empty() {
        if count == cells.len() {
            cells.push(Value::Null)?;
        }
        let Some(behind) = take_one(alloc, rest, &mut cells[count])? else {
            return Ok(false);
        };
        rest = behind;
        count += 1;
    }
    cells.truncate(count);
    Ok(true)
}

// Overwrites as many values as there are with those of a body, in place, and returns whether it has just as
// many. This is only a shortcut: else `take_row` decides whether there is a row.
#[inline]
fn take_values(alloc: Global, bytes: &[u8], cells: &mut [Value]) -> Result<bool, AllocError>
    ensures { IfOk result (λ is_body. is_body ≡ true →
        (bytes.now ≡ body_of cells.new) × All IsCell cells.new) }
{
    match take_cells(alloc, bytes, cells)? {
        Some(rest) => Ok(rest.is_empty()),
        None => Ok(false),
    }
}

// Overwrites a row of any length with the row of this body, and returns whether there is one.
#[cold]
fn take_row(alloc: Global, bytes: &[u8], columns: usize, row: &mut Row) -> Result<bool, AllocError>
    ensures found { IfOk result (λ is_body. is_body ≡ true →
        (bytes.now ≡ body_of row.new) × All IsCell row.new) }
    ensures none { IfOk result (λ is_body. is_body ≡ false → (row : List Cell) →
        All IsCell row → bytes.now ≡ body_of row → ⊥) }
{
    let mut cells = mem::replace(row, Row::new(Vec::new(alloc))).into_cells();
    // Each value takes at least one byte.
    let is_body = take_body(alloc, bytes, columns.min(bytes.len()), &mut cells)?;
    *row = Row::new(cells);
    Ok(is_body)
}

/// As [`decode_row`], but overwrites `row`, and allocates only if its memory doesn't suffice. The number of
/// columns is a hint. If there is no row, or on error, what `row` holds is unspecified.
pub fn decode_row_over(
    alloc: Global,
    bytes: &[u8],
    columns: usize,
    row: &mut Row,
) -> Result<Option<usize>, AllocError>
    ensures within { IfOk result (λ o. IfSome o (λ len. len ≤ length bytes.now)) }
    ensures found { IfOk result (λ o. IfSome o (λ len. (take len bytes.now ≡ record_of row.new) ×
        IsStorable row.new)) }
    ensures none { IfOk result (λ o. IfNone o ((row : List Cell) (n : ℕ) → IsStorable row →
        take n bytes.now ≡ record_of row → ⊥)) }
{
    let Some((body, _)) = take_block(bytes) else {
        return Ok(None);
    };
    if !take_values(alloc, body, row.cells_mut())? && !take_row(alloc, body, columns, row)? {
        return Ok(None);
    }
    Ok(Some(4 + body.len()))
}

/// The row whose record the bytes begin with, and the length of the record; `None` if they begin with no row's
/// record.
pub fn decode_row(alloc: Global, bytes: &[u8]) -> Result<Option<(Row, usize)>, AllocError>
    ensures within { IfOk result (λ o. IfSome o (λ found. found.1 ≤ length bytes.now)) }
    ensures found { IfOk result (λ o. IfSome o (λ found. (take found.1 bytes.now ≡ record_of
        found.0) × IsStorable found.0)) }
    ensures none { IfOk result (λ o. IfNone o ((row : List Cell) (n : ℕ) → IsStorable row →
        take n bytes.now ≡ record_of row → ⊥)) }
{
    let mut row = Row::new(Vec::new(alloc));
    match decode_row_over(alloc, bytes, 0, &mut row)? {
        Some(len) => Ok(Some((row, len))),
        None => Ok(None),
    }
}
