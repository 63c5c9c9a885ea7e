//! Why a payload is refused.
ghost use Rattle.std.specs.Prelude.{◌≡◌};

use std::alloc::{AllocError, AllocFailed};
use thiserror::Error;

/// Why a payload is refused. The number is that of the faulty data record: the record after the
/// header is 1, and blank lines aren't records.
#[derive(Clone, Copy, Debug, Error, PartialEq, Eq)]
pub enum LoadRefusal {
    /// A key column of the record is null.
    #[error("record {0}: a key column is null")]
    NullKey(u64),
    /// The first record doesn't name each column once, or there is no record.
    #[error("the header does not name each column once")]
    Header,
    /// The record has more or fewer fields than the header.
    #[error("record {0}: more or fewer fields than the header has")]
    FieldCount(u64),
    /// A field of an INT column isn't a whole number of 64 bits.
    #[error("record {0}: a field is no whole number of 64 bits")]
    BadInt(u64),
    /// A field of a TEXT column isn't UTF-8.
    #[error("record {0}: a field is not UTF-8")]
    BadText(u64),
    /// A text is longer than the limit, or there are more data records than the limit.
    #[error("a text is too long, or there are too many records")]
    Limit,
    /// Out of memory.
    #[error("out of memory")]
    Memory,
}

impl From<AllocError> for LoadRefusal {
    ghost use Rattle.gq_load.specs.declared.load_refusal.LoadRefusal.TheVariants.{Memory};

    ghost from_gives = { λ _ e. e ≡ Memory };

    fn from(_e: AllocError) -> LoadRefusal {
        LoadRefusal::Memory
    }
}

impl<T: Drop> From<AllocFailed<T>> for LoadRefusal {
    ghost use Rattle.gq_load.specs.declared.load_refusal.LoadRefusal.TheVariants.{Memory};

    ghost from_gives = { λ _ e. e ≡ Memory };

    fn from(_e: AllocFailed<T>) -> LoadRefusal {
        LoadRefusal::Memory
    }
}
