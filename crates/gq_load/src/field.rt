//! Fields of data records as values.
ghost use Rattle.std.specs.Prelude.{◌≡◌, ◌≤◌, ℕ, true, false, IsUtf8, IfSome, MatchOption, Ok, bytes_eq, length};
ghost use Rattle.gq_row.specs.declared.value.Value.TheVariants as variant;
ghost use Rattle.gq_load.specs.Answers.{Gives};
ghost use Rattle.gq_load.specs.Fields.{is_null_field, int_or_null, int_value, null_field, text_value, value_of};
ghost use Rattle.gq_load.specs.Numbers.{int_of};

use crate::load_refusal::LoadRefusal;
use crate::number::{int_of, plain_number};
use gq_row::{Kind, Value, is_ascii};
use std::alloc::Global;
use std::str;

/// The field that is null in every column.
pub(crate) const NULL: &[u8] = b"\\N";

/// Writes the value of a field in a column of a kind over another value, if it is a few digits or an ASCII
/// text, as most are; else what `value` holds is unspecified. Returns whether it did.
#[tactic(auto, unfolding(crate::specs::Fields::value_of), using(crate::proofs::Spelling::spelled_not_null))]
#[inline(always)]
pub(crate) fn write_plain(
    alloc: Global,
    longest: usize,
    kind: Kind,
    field: &[u8],
    value: &mut Value,
) -> bool
    ensures { result ≡ true → (number : ℕ) → value_of longest number kind field.now ≡ Ok value.new }
{
    match kind {
        Kind::Int => match plain_number(field) {
            Some(n) => {
                value.write_number(n);
                true
            }
            None => false,
        },
        Kind::Text => match plain_text(longest, field) {
            Some(text) => value.write_text(alloc, text).is_ok(),
            None => false,
        },
        Kind::NoCase => match plain_text(longest, field) {
            Some(text) => value.write_without_case(alloc, text).is_ok(),
            None => false,
        },
    }
}

// The text of a field that is ASCII, not too long, and not null.
#[inline(always)]
fn plain_text(longest: usize, field: &[u8]) -> Option<&str>
    ensures { IfSome result (λ text. (text.now ≡ field.now) × (bytes_eq field.now null_field ≡ false)
        × ((number : ℕ) → text_value longest number field.now ≡ Ok (variant.Text field.now))) }
{
    if is_null_mark(field) || field.len() > longest || !is_ascii(field) {
        return None;
    }
    Some(unsafe { str::from_utf8_unchecked(field) })
}

/// Writes the value of a field in a column of a kind over another value; a text reuses the memory of a
/// text of the same kind. A text has at most `longest` bytes; `number` is that of the record.
#[tactic(auto, unfolding(crate::specs::Fields::value_of))]
#[cold]
pub(crate) fn write_value(
    alloc: Global,
    longest: usize,
    number: u64,
    kind: Kind,
    field: &[u8],
    value: &mut Value,
) -> Result<(), LoadRefusal>
    ensures { Gives (λ _. value.new) result (value_of longest number kind field.now) }
{
    if is_null(kind, field) {
        *value = Value::Null;
        return Ok(());
    }
    match kind {
        Kind::Int => value.write_number(number_of(number, field)?),
        Kind::Text => value.write_text(alloc, text_of(longest, number, field)?)?,
        Kind::NoCase => value.write_without_case(alloc, text_of(longest, number, field)?)?,
    }
    Ok(())
}

/// Whether a field is null in a column of a kind.
pub fn is_null(kind: Kind, field: &[u8]) -> bool
    ensures { result ≡ is_null_field kind field.now }
{
    match kind {
        Kind::Int => field.is_empty() || is_null_mark(field),
        Kind::Text | Kind::NoCase => is_null_mark(field),
    }
}

// Whether a field is `NULL`.
#[inline(always)]
fn is_null_mark(field: &[u8]) -> bool
    ensures { result ≡ bytes_eq field.now null_field }
{
    matches!(field, [b'\\', b'N'])
}

/// The number of a field.
#[inline]
fn number_of(number: u64, field: &[u8]) -> Result<i64, LoadRefusal>
    ensures { Gives (λ n. variant.Int n) result (int_value number (int_of field.now)) }
{
    match int_of(field) {
        Some(n) => Ok(n),
        None => Err(LoadRefusal::BadInt(number)),
    }
}

/// The text of a field.
#[tactic(auto, unfolding(crate::specs::Fields::text_value))]
fn text_of<'a>(longest: usize, number: u64, field: &'a [u8]) -> Result<&'a str, LoadRefusal>
    ensures { Gives (λ text. variant.Text text.now) result (text_value longest number field.now) }
{
    let Some(text) = utf8_of(field) else {
        return Err(LoadRefusal::BadText(number));
    };
    if field.len() > longest {
        return Err(LoadRefusal::Limit);
    }
    Ok(text)
}

/// The bytes as a text, if they are UTF-8. For ASCII that takes fewer steps to find.
fn utf8_of(bytes: &[u8]) -> Option<&str>
    ensures { MatchOption result (¬ IsUtf8 bytes.now) (λ text. (text.now ≡ bytes.now) × IsUtf8 bytes.now) }
{
    if is_ascii(bytes) {
        return Some(unsafe { str::from_utf8_unchecked(bytes) });
    }
    str::from_utf8(bytes).ok()
}
