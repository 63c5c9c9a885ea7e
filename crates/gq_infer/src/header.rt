//! Headers of files: the names of columns.
ghost use Rattle.std.specs.Prelude.{◌≡◌, ◌⊎◌, [], ◌==◌, true, false, None, Some, IfOk, OnOk, IfErr, not, nat_lt, bytes_eq, length, map, slice_index_or};
ghost use Rattle.std.specs.List.{list_all, list_any};
ghost use Rattle.std.specs.Str.{is_utf8};
ghost use Rattle.gq_row.specs.Repeats.{no_repeats};
ghost use Rattle.gq_infer.specs.Files.{are_same, can_name, names_fault, place_of};
ghost use Rattle.gq_infer.specs.declared.fault.InferFault.TheVariants.{Header, Memory};

use crate::fault::InferFault;
use gq_csv::Record;
use gq_row::{Bounds, Text};
use std::alloc::{AllocError, Global};
use std::str;

/// The names in the header of a first file, or why they can't be those of columns.
pub(crate) fn names_of(
    alloc: Global,
    header: &Record<'_>,
    bounds: &Bounds,
) -> Result<Vec<Text>, InferFault>
    ensures names { IfOk result (λ names. names.items ≡ header.now) }
    ensures fine { OnOk result (names_fault bounds.now header.now ≡ None) }
    ensures refused { IfErr result (λ why. (why ≡ Memory)
        ⊎ (names_fault bounds.now header.now ≡ Some why)) }
{
    if header.len() > bounds.columns {
        return Err(InferFault::Limit);
    }
    let names = texts_of(alloc, header)?;
    if !can_name(names.as_slice()) {
        return Err(InferFault::Header);
    }
    if has_longer(names.as_slice(), bounds.name) {
        return Err(InferFault::Limit);
    }
    Ok(names)
}

/// The fields of a record as texts. `Header` if one isn't UTF-8.
fn texts_of(alloc: Global, record: &Record<'_>) -> Result<Vec<Text>, InferFault>
    ensures texts { IfOk result (λ texts. texts.items ≡ record.now) }
    ensures utf8 { OnOk result (list_all is_utf8 record.now ≡ true) }
    ensures refused { IfErr result (λ why. (why ≡ Memory)
        ⊎ ((why ≡ Header) × (list_all is_utf8 record.now ≡ false))) }
{
    let mut texts = Vec::with_capacity(alloc, record.len())?;
    for i in 0..record.len() {
        match str::from_utf8(field_of(record, i)) {
            Err(_e) => return Err(InferFault::Header),
            Ok(text) => texts.push(Text::of(alloc, text)?)?,
        }
    }
    Ok(texts)
}

/// A field of a record; no bytes if the record has no such field.
fn field_of<'a>(record: &'a Record<'_>, i: usize) -> &'a [u8]
    ensures { result.now ≡ slice_index_or record.now i [] }
{
    match record.get(i) {
        Some(field) => field,
        None => b"",
    }
}

/// Whether texts can be names of columns.
fn can_name(names: &[Text]) -> bool
    ensures { result ≡ can_name names.now }
{
    !names.is_empty() && are_filled(names) && names_differ(names)
}

fn are_filled(names: &[Text]) -> bool
    ensures { result ≡ list_all (λ name. not (length name == 0)) names.now }
{
    names.iter().all(|name| !name.is_empty())
}

fn has_longer(names: &[Text], most: usize) -> bool
    ensures { result ≡ list_any (λ name. nat_lt most (length name)) names.now }
{
    names.iter().any(|name| name.len() > most)
}

fn has(names: &[Text], wanted: &Text) -> bool
    ensures { result ≡ list_any (bytes_eq wanted.now) names.now }
{
    names.iter().any(|name| wanted == name)
}

fn names_differ(names: &[Text]) -> bool
    ensures { result ≡ no_repeats bytes_eq names.now }
{
    for i in 0..names.len() {
        if has(&names[i + 1..], &names[i]) {
            return false;
        }
    }
    true
}

/// Whether a header names these columns, in any order.
pub(crate) fn are_same(names: &[Text], header: &Record<'_>) -> bool
    ensures { result ≡ are_same names.now header.now }
{
    header.len() == names.len() && are_in(header, names)
}

fn are_in(header: &Record<'_>, names: &[Text]) -> bool
    ensures { result ≡ list_all (λ name. list_any (λ field. bytes_eq field name) header.now) names.now }
{
    names.iter().all(|name| is_in(header, name))
}

fn is_in(header: &Record<'_>, name: &Text) -> bool
    ensures { result ≡ list_any (λ field. bytes_eq field name.now) header.now }
{
    place_of(header, name) < header.len()
}

/// The place of each name in a header.
pub(crate) fn places_of(
    alloc: Global,
    names: &[Text],
    header: &Record<'_>,
) -> Result<Vec<usize>, AllocError>
    ensures { IfOk result (λ places.
        places.items ≡ map (λ name. place_of header.now name) names.now) }
{
    let mut places = Vec::with_capacity(alloc, names.len())?;
    for name in names {
        places.push(place_of(header, name))?;
    }
    Ok(places)
}

/// The place of a name in a header, or the header's length.
fn place_of(header: &Record<'_>, name: &Text) -> usize
    ensures { result ≡ place_of header.now name.now }
{
    for i in 0..header.len() {
        if field_of(header, i) == name.as_str().as_bytes() {
            return i;
        }
    }
    header.len()
}
