//! Records, borrowed from their reader.
ghost use Rattle.std.specs.Prelude.{◌≡◌, length, option_map};
ghost use Rattle.csv.specs.Records.{field_at};
ghost use Rattle.gq_csv.specs.Fields.{AreWithin, fields_in};

use crate::span::FieldSpan;
use std::marker::Model;

/// A record, seen as the list of its fields.
#[derive(Drop)]
pub struct Record<'a> {
    bytes: &'a [u8],
    spans: &'a [FieldSpan],
}

impl<'a> Model for Record<'a> {
    ghost use Rattle.std.specs.Prelude.{ℕ, List, length};
    ghost use Rattle.gq_csv.specs.Fields.{AreWithin, fields_in};

    ghost Value = { List (List ℕ) };

    ghost view = { λ r. fields_in r.bytes.now r.spans.now };

    ghost invariant = { λ r. AreWithin (length r.bytes.now) r.spans.now };
}

impl<'a> Record<'a> {
    // The record of these bytes, whose fields are at these spans.
    #[inline(always)]
    pub(crate) fn new(bytes: &'a [u8], spans: &'a [FieldSpan]) -> Record<'a>
        requires { AreWithin (length bytes.now) spans.now }
        ensures { result ≡ fields_in bytes.now spans.now }
    {
        Record { bytes, spans }
    }

    /// The number of fields.
    #[inline(always)]
    pub fn len(&self) -> usize
        ensures { result ≡ length self.now }
    {
        self.spans.len()
    }

    /// A field; `None` if the record has no such field.
    #[inline(always)]
    pub fn get(&self, i: usize) -> Option<&[u8]>
        ensures value { option_map (λ field. field.now) result ≡ field_at self.now i }
    {
        if i >= self.spans.len() {
            return None;
        }
        let span = self.spans[i];
        Some(&self.bytes[span.start..span.end])
    }
}
