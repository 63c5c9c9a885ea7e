//! Encoding rows as records.
ghost use Rattle.std.specs.Prelude.{◌≡◌, ◌↔◌, take, drop, ◌+◌, ◌++◌, ◌∷◌, [], ◌<◌, ◌≤◌, ◌^◌, true, All, length, OnOk, OnErr, IfOk, IsTrue, IfSome, IfNone};
ghost use Rattle.std.specs.Int.{to_be_bytes, w32};
ghost use Rattle.gq_record.specs.Records.{IsStorable, IsCell, record_of, body_of, value_bytes, with_length, number_bytes};
ghost use Rattle.gq_record.specs.Putting.{IsPut};

use crate::kinds::{INT, NO_CASE, NULL, TEXT};
use byteorder::{BigEndian, ByteOrder};
use gq_row::{Row, Text, Value};
use std::alloc::AllocError;
use std::simd::prelude::*;

// The size of a record's length, and of a text's, in bytes.
const LENGTH: usize = 4;

// Extends the bytes to `len`, unless there are as many.
#[inline(always)]
fn lengthen(bytes: &mut Vec<u8>, len: usize) -> Result<(), AllocError>
    ensures kept { take (length bytes.old.items) bytes.new.items ≡ bytes.old.items }
    ensures len { OnOk result (len ≤ length bytes.new.items) }
{
    if bytes.len() < len {
        extend_to(bytes, len)?;
    }
    Ok(())
}

// Extends the bytes to `len`. Cold, since most records fit into the memory of the one before.
#[cold]
fn extend_to(bytes: &mut Vec<u8>, len: usize) -> Result<(), AllocError>
    requires { length bytes.old.items ≤ len }
    ensures kept { take (length bytes.old.items) bytes.new.items ≡ bytes.old.items }
    ensures len { OnOk result (len ≤ length bytes.new.items) }
{
    bytes.resize(len, 0)
}

// Overwrites the bytes at a position with a field.
#[inline(always)]
fn overwrite(bytes: &mut [u8], at: usize, field: &[u8])
    requires { at + length field.now ≤ length bytes.old }
    ensures { bytes.new ≡ take at bytes.old ++ field.now ++ drop (at + length field.now) bytes.old }
{
    bytes[at..at + field.len()].copy_from_slice(field);
}

// As `overwrite`, for a text.
#[inline(always)]
fn overwrite_text(bytes: &mut [u8], at: usize, text: &[u8])
    requires { at + length text.now ≤ length bytes.old }
    ensures { bytes.new ≡ take at bytes.old ++ text.now ++ drop (at + length text.now) bytes.old }
{
    copy_text(&mut bytes[at..], text);
}

// Overwrites the first bytes with a text, most texts without a call.
#[inline(always)]
fn copy_text(bytes: &mut [u8], text: &[u8])
    requires { length text.now ≤ length bytes.old }
    ensures { bytes.new ≡ text.now ++ drop (length text.now) bytes.old }
{
    let len = text.len();
    if len < 4 {
        copy_few(bytes, text);
    } else if len < 8 {
        copy_ends::<4>(bytes, text);
    } else if len <= 16 {
        copy_ends::<8>(bytes, text);
    } else if len <= 32 {
        copy_ends::<16>(bytes, text);
    } else {
        bytes[..len].copy_from_slice(text);
    }
}

// Overwrites the first bytes with a text of at most three.
#[inline(always)]
fn copy_few(bytes: &mut [u8], text: &[u8])
    requires fits { length text.now ≤ length bytes.old }
    requires few { length text.now < 4 }
    ensures { bytes.new ≡ text.now ++ drop (length text.now) bytes.old }
{
    if text.len() >= 2 {
        copy_ends::<2>(bytes, text);
    } else if text.len() == 1 {
        copy_ends::<1>(bytes, text);
    }
}

// Copies the first and the last `N` bytes of a text, which overlap.
#[inline(always)]
fn copy_ends<const N: usize>(bytes: &mut [u8], text: &[u8])
    requires fits { length text.now ≤ length bytes.old }
    requires covers { (N ≤ length text.now) × (length text.now ≤ N + N) }
    ensures { bytes.new ≡ text.now ++ drop (length text.now) bytes.old }
{
    let last = text.len() - N;
    Simd::<u8, N>::from_slice(text).copy_to_slice(bytes);
    Simd::<u8, N>::from_slice(&text[last..]).copy_to_slice(&mut bytes[last..]);
}

// Writes a tag at a position, and returns the position after it.
#[inline(always)]
fn put_null(out: &mut Vec<u8>, at: usize) -> Result<usize, AllocError>
    requires { at ≤ length out.old.items }
    ensures ok { IfOk result (λ end. IsPut out.old.items at (NULL ∷ []) out.new.items end) }
    ensures keeps { take at out.new.items ≡ take at out.old.items }
{
    let end = at + 1;
    lengthen(out, end)?;
    out[at] = NULL;
    Ok(end)
}

// Writes a tag and a number at a position, and returns the position after them.
#[inline(always)]
fn put_number(n: i64, out: &mut Vec<u8>, at: usize) -> Result<usize, AllocError>
    requires { at ≤ length out.old.items }
    ensures ok { IfOk result (λ end. IsPut out.old.items at (INT ∷ number_bytes n) out.new.items
        end) }
    ensures keeps { take at out.new.items ≡ take at out.old.items }
{
    let mut field = [INT; 9];
    BigEndian::write_i64(&mut field[1..], n);
    let end = at + field.len();
    lengthen(out, end)?;
    overwrite(out.as_mut_slice(), at, &field);
    Ok(end)
}

// What a text's own bytes follow: a tag and the text's length.
#[inline(always)]
fn head_of(tag: u8, len: u32) -> [u8; 1 + LENGTH]
    ensures { result ≡ tag ∷ to_be_bytes w32 len }
{
    let mut head = [tag; 1 + LENGTH];
    BigEndian::write_u32(&mut head[1..], len);
    head
}

// Writes a tag, a text's length and its own bytes at a position, and returns the position after them.
#[inline(always)]
fn put_text(tag: u8, text: &Text, out: &mut Vec<u8>, at: usize) -> Result<usize, AllocError>
    requires short { length text.now < 2 ^ 32 }
    requires within { at ≤ length out.old.items }
    ensures ok { IfOk result (λ end. IsPut out.old.items at (tag ∷ with_length text.now)
        out.new.items end) }
    ensures keeps { take at out.new.items ≡ take at out.old.items }
{
    let text = text.as_str().as_bytes();
    let head = head_of(tag, text.len() as u32);
    let start = at + head.len();
    let end = start + text.len();
    lengthen(out, end)?;
    let bytes = out.as_mut_slice();
    overwrite(bytes, at, &head);
    overwrite_text(bytes, start, text);
    Ok(end)
}

#[inline(always)]
#[tactic(auto, unfolding(crate::specs::Records::value_bytes))]
fn put_value(value: &Value, out: &mut Vec<u8>, at: usize) -> Result<usize, AllocError>
    requires cell { IsCell value.now }
    requires within { at ≤ length out.old.items }
    ensures ok { IfOk result (λ end. IsPut out.old.items at (value_bytes value.now) out.new.items
        end) }
    ensures keeps { take at out.new.items ≡ take at out.old.items }
{
    let (tag, text) = match value {
        Value::Null => return put_null(out, at),
        Value::Int(n) => return put_number(*n, out, at),
        Value::Text(text) => (TEXT, text),
        Value::NoCase(text) => (NO_CASE, text),
    };
    put_text(tag, text, out, at)
}

// Writes the values of a row at a position, and returns the position after them.
#[inline]
fn put_body(row: &Row, out: &mut Vec<u8>, at: usize) -> Result<usize, AllocError>
    requires cells { All IsCell row.now }
    requires within { at ≤ length out.old.items }
    ensures ok { IfOk result (λ end. IsPut out.old.items at (body_of row.now) out.new.items end) }
    ensures keeps { take at out.new.items ≡ take at out.old.items }
{
    let mut end = at;
    for value in row.cells() {
        end = put_value(value, out, end)?;
    }
    Ok(end)
}

// The length of a value's bytes, or `None` if a text is too long.
#[tactic(auto, unfolding(crate::specs::Records::value_bytes))]
fn value_len(value: &Value) -> Option<u64>
    ensures some { IfSome result (λ len. (len ≡ length (value_bytes value.now)) × (len < 2 ^ 33) ×
        IsCell value.now) }
    ensures none { IfNone result (IsCell value.now → ⊥) }
{
    match value {
        Value::Null => Some(1),
        Value::Int(n) => {
            // A value of the type is one of 64 bits.
            let _n = *n;
            Some(9)
        }
        Value::Text(text) | Value::NoCase(text) => {
            let chars = text.as_str();
            if chars.len() > u32::MAX as usize {
                return None;
            }
            Some(5 + chars.len() as u64)
        }
    }
}

// The length of a row's body, or `None` if the row has no record. Cold, since most rows are small.
#[cold]
fn body_len(row: &Row) -> Option<u64>
    ensures some { IfSome result (λ len. (len ≡ length (body_of row.now)) × IsStorable row.now) }
    ensures none { IfNone result (IsStorable row.now → ⊥) }
{
    let mut total: u64 = 0;
    for value in row.cells() {
        let Some(len) = value_len(value) else {
            return None;
        };
        total += len;
        if total > u32::MAX as u64 {
            return None;
        }
    }
    Some(total)
}

// Whether a value takes fewer than 2^17 bytes, as each does but a long text.
#[inline(always)]
#[tactic(auto, unfolding(crate::specs::Records::value_bytes))]
fn is_small(value: &Value) -> bool
    ensures { result ≡ true → IsCell value.now × (length (value_bytes value.now) < 2 ^ 17) }
{
    match value {
        Value::Null => true,
        Value::Int(n) => {
            // A value of the type is one of 64 bits.
            let _n = *n;
            true
        }
        Value::Text(text) | Value::NoCase(text) => text.as_str().len() < 1 << 16,
    }
}

// Whether a row has few values, all of them small, and so a record. This is only a shortcut, without a sum.
#[inline]
fn is_small_row(row: &Row) -> bool
    ensures { result ≡ true → IsStorable row.now }
{
    if row.len() >= 1 << 15 {
        return false;
    }
    for value in row.cells() {
        if !is_small(value) {
            return false;
        }
    }
    true
}

/// Whether a row has a record: whether its body takes fewer than 2^32 bytes.
#[inline]
pub fn is_storable(row: &Row) -> bool
    ensures { IsTrue result ↔ IsStorable row.now }
{
    is_small_row(row) || body_len(row).is_some()
}

// Writes the record of a row at a position, and returns the position after it. The length is written last, over
// four bytes that are left for it, which saves a pass over the row.
#[inline]
fn put_record(row: &Row, out: &mut Vec<u8>, at: usize) -> Result<usize, AllocError>
    requires storable { IsStorable row.now }
    requires within { at ≤ length out.old.items }
    ensures ok { IfOk result (λ end. IsPut out.old.items at (record_of row.now) out.new.items end) }
    ensures keeps { take at out.new.items ≡ take at out.old.items }
{
    let body = at + LENGTH;
    lengthen(out, body)?;
    let end = put_body(row, out, body)?;
    let len = (end - body) as u32;
    overwrite(out.as_mut_slice(), at, &len.to_be_bytes());
    Ok(end)
}

/// Appends the record of a row. On error the bytes don't change.
pub fn encode_row(row: &Row, out: &mut Vec<u8>) -> Result<(), AllocError>
    requires { IsStorable row.now }
    ensures ok { OnOk result (out.new.items ≡ out.old.items ++ record_of row.now) }
    ensures err { OnErr result (out.new.items ≡ out.old.items) }
{
    let len = out.len();
    match put_record(row, out, len) {
        Ok(end) => {
            out.truncate(end);
            Ok(())
        }
        Err(e) => {
            out.truncate(len);
            Err(e)
        }
    }
}

/// Overwrites the first bytes with the record of a row, and returns its length. It allocates only if there are
/// fewer bytes. What follows the record is unspecified, and on error all bytes are.
pub fn encode_row_over(row: &Row, bytes: &mut Vec<u8>) -> Result<usize, AllocError>
    requires { IsStorable row.now }
    ensures within { IfOk result (λ len. len ≤ length bytes.new.items) }
    ensures record { IfOk result (λ len. take len bytes.new.items ≡ record_of row.now) }
{
    put_record(row, bytes, 0)
}
