//! The next record, found in place.
ghost use Rattle.std.specs.Prelude.{◌≡◌, IfNone, IfOk, IfSome, OnErr, drop, length};
ghost use Rattle.gq_csv.specs.Masks.{Covers};
ghost use Rattle.gq_csv.specs.Scanning.{Scanned, len_of};

use crate::placed_mask::{PlacedMask, next_special};
use crate::span::FieldSpan;
use crate::special_mask::SpecialMask;
use std::alloc::AllocError;

/// What is at the start of a text.
#[derive(Clone, Copy)]
pub(crate) enum Scan {
    /// A record without quotes, and its length in bytes, with its line end.
    Record(usize),
    /// A record with a quote.
    Quoted,
    /// A record that doesn't end in the text.
    Cut,
}

/// Finds the fields of the record at the start of a text, which isn't a line end. `mask` covers the text's
/// first bytes, and if a record is found, afterwards those that follow it.
#[inline(always)]
pub(crate) fn scan_record(
    text: &[u8],
    mask: &mut SpecialMask,
    spans: &mut Vec<FieldSpan>,
) -> Result<Scan, AllocError>
    requires { Covers text.now mask.old }
    ensures scanned { IfOk result (λ found. Scanned text.now spans.new.items found) }
    ensures mask { IfOk result (λ found. Covers (drop (len_of found) text.now) mask.new) }
    ensures kept { OnErr result (Covers text.now mask.new) }
{
    // Most records have as many fields as the one before.
    match scan_over(text, mask, spans.as_mut_slice()) {
        Some(found) => Ok(found),
        None => scan_any(text, mask, spans),
    }
}

// The same of a record with a field for each span, all of which it overwrites; `None` for each other record
// without quotes that ends in the text.
#[inline(always)]
fn scan_over(text: &[u8], mask: &mut SpecialMask, spans: &mut [FieldSpan]) -> Option<Scan>
    requires { Covers text.now mask.old }
    ensures scanned { IfSome result (λ found. Scanned text.now spans.new found) }
    ensures mask { IfSome result (λ found. Covers (drop (len_of found) text.now) mask.new) }
    ensures kept { IfNone result (Covers text.now mask.new) }
    ensures as_many { length spans.new ≡ length spans.old }
{
    let mut marks = PlacedMask::of(*mask);
    let mut start = 0;
    'fields: for i in 0..spans.len() {
        let Some(end) = next_special(text, start, &mut marks) else {
            return Some(Scan::Cut);
        };
        spans[i] = FieldSpan { start, end };
        start = end + 1;
        let special = text[end];
        if special != b',' {
            if special == b'"' {
                return Some(Scan::Quoted);
            }
            if i + 1 < spans.len() {
                return None;
            }
            *mask = marks.after(start);
            return Some(Scan::Record(start));
        }
    }
    None
}

// The same of any record.
#[cold]
fn scan_any(
    text: &[u8],
    mask: &mut SpecialMask,
    spans: &mut Vec<FieldSpan>,
) -> Result<Scan, AllocError>
    requires { Covers text.now mask.old }
    ensures scanned { IfOk result (λ found. Scanned text.now spans.new.items found) }
    ensures mask { IfOk result (λ found. Covers (drop (len_of found) text.now) mask.new) }
    ensures kept { OnErr result (Covers text.now mask.new) }
{
    spans.clear();
    let mut marks = PlacedMask::of(*mask);
    let mut start = 0;
    'fields: while let Some(end) = next_special(text, start, &mut marks) {
        let special = text[end];
        if special == b'"' {
            return Ok(Scan::Quoted);
        }
        spans.push(FieldSpan { start, end })?;
        start = end + 1;
        if special != b',' {
            *mask = marks.after(start);
            return Ok(Scan::Record(start));
        }
    }
    Ok(Scan::Cut)
}
