//! Headers of payloads.
ghost use Rattle.std.specs.Prelude.{◌≡◌, ◌<◌, [], IfSome, length, slice_index_or};
ghost use Rattle.gq_row.specs.Schemas.{position_of};

use crate::load_refusal::LoadRefusal;
use gq_csv::Record;
use gq_row::Column;
use std::alloc::Global;
use std::marker::Model;

/// The header of a payload, seen as the list of the columns that its fields name: each position once.
#[derive(Drop)]
pub(crate) struct Header {
    places: Vec<usize>,
}

impl Model for Header {
    ghost use Rattle.std.specs.Prelude.{List, ℕ};
    ghost use Rattle.gq_load.specs.Headers.{EachOnce};

    ghost Value = { List ℕ };

    ghost view = { λ h. h.places.items };

    ghost invariant = { λ h. EachOnce h.places.items };
}

impl Header {
    ghost use Rattle.std.specs.Prelude.{◌≡◌, IfOk, length};
    ghost use Rattle.gq_load.specs.Answers.{Gives};
    ghost use Rattle.gq_load.specs.Headers.{EachOnce, places_of};

    /// The header that a record is for a table of these columns.
    pub(crate) fn of(
        alloc: Global,
        columns: &[Column],
        byte_record: &Record<'_>,
    ) -> Result<Header, LoadRefusal>
        ensures places { Gives (λ header. header) result
            (places_of columns.now byte_record.now) }
        ensures whole { IfOk result (λ header. length header ≡ length columns.now) }
    {
        let mut places = Vec::with_capacity(alloc, columns.len())?;
        for i in 0..byte_record.len() {
            match position(columns, field(byte_record, i)) {
                None => return Err(LoadRefusal::Header),
                Some(place) => {
                    if places.contains(&place) {
                        return Err(LoadRefusal::Header);
                    }
                    places.push(place)?;
                }
            }
        }
        if places.len() == columns.len() {
            Ok(Header { places })
        } else {
            Err(LoadRefusal::Header)
        }
    }

    /// The column of each field.
    pub(crate) fn places(&self) -> &[usize]
        ensures value { result.now ≡ self.now }
        ensures each { EachOnce self.now }
    {
        self.places.as_slice()
    }
}

/// The position of the column of a name, by the name's bytes.
fn position(columns: &[Column], name: &[u8]) -> Option<usize>
    ensures position { result ≡ position_of columns.now name.now }
    ensures within { IfSome result (λ place. place < length columns.now) }
{
    columns
        .iter()
        .position(|column| column.name.as_str().as_bytes() == name)
}

/// A field of a record; no bytes if the record has no such field.
pub(crate) fn field<'a>(byte_record: &'a Record<'_>, i: usize) -> &'a [u8]
    ensures { result.now ≡ slice_index_or byte_record.now i [] }
{
    match byte_record.get(i) {
        Some(field) => field,
        None => b"",
    }
}
