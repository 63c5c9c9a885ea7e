//! What the fields of a column are.
ghost use Rattle.std.specs.Prelude.{◌≡◌};
ghost use Rattle.std.specs.List.{list_all};
ghost use Rattle.gq_infer.specs.Guesses.{is_settled};
ghost use Rattle.gq_infer.specs.Kinds.{kind_seen, with_field};

use gq_load::{int_of, is_null};
use gq_row::Kind;

/// What the fields of a column are, of those read so far.
#[derive(Clone, Copy, Debug, PartialEq, Eq)]
pub(crate) enum Seen {
    /// Null in a column of numbers.
    Nulls,
    /// Null or numbers, with one number at least.
    Numbers,
    /// One at least is neither.
    Texts,
}

/// What they are with one more field.
pub(crate) fn with_field(seen: Seen, field: &[u8]) -> Seen
    ensures { result ≡ with_field seen field.now }
{
    match seen {
        Seen::Texts => Seen::Texts,
        Seen::Nulls | Seen::Numbers => {
            if int_of(field).is_some() {
                Seen::Numbers
            } else if is_null(Kind::Int, field) {
                seen
            } else {
                Seen::Texts
            }
        }
    }
}

/// The kind of a column with such fields.
pub(crate) fn kind_seen(seen: Seen) -> Kind
    ensures { result ≡ kind_seen seen }
{
    match seen {
        Seen::Numbers => Kind::Int,
        Seen::Nulls | Seen::Texts => Kind::Text,
    }
}

/// Whether such fields settle the kind of each column, whatever fields follow.
pub(crate) fn are_settled(seen: &[Seen]) -> bool
    ensures { result ≡ list_all is_settled seen.now }
{
    seen.iter().all(|one| is_settled(*one))
}

fn is_settled(seen: Seen) -> bool
    ensures { result ≡ is_settled seen }
{
    match seen {
        Seen::Nulls => false,
        Seen::Numbers | Seen::Texts => true,
    }
}
