//! Why a command is refused.
ghost use Rattle.std.specs.Prelude.{◌≡◌, ◌≤◌, length};
ghost use Rattle.gq_reply.specs.Refusals.{unnumbered, words_of};
ghost use Rattle.gq_reply.specs.Replies.{code_of, name_of};
ghost use Rattle.gq_reply.specs.declared.refusal.Refusal.TheVariants.{Memory};

use std::alloc::AllocError;
use std::error::Error;
use std::fmt;

/// Why a command was refused. Refused commands change no table.
#[derive(Clone, Copy, Debug, PartialEq, Eq)]
pub enum Refusal {
    /// The line isn't a command.
    Syntax,
    /// The line is longer than the limit.
    LineTooLong,
    /// There is no table of that name.
    NoTable,
    /// There is a table of that name already.
    TableExists,
    /// The table has no column of that name.
    NoColumn,
    /// A value's kind isn't its column's, or there are too many or too few values.
    TypeMismatch,
    /// The table has no key.
    NoKey,
    /// A key column would hold null.
    NullKey,
    /// A payload's header does not name each column once.
    Header,
    /// A record has more or fewer fields than the header.
    FieldCount,
    /// A field isn't a whole number of 64 bits.
    BadInt,
    /// A field isn't UTF-8.
    BadText,
    /// A sum doesn't fit 64 bits.
    SumRange,
    /// Something exceeds a limit.
    Limit,
    /// An allocation failed.
    Memory,
    /// The run store failed.
    StoreFault,
    /// The run store did not read back what was written.
    Damaged,
    /// A payload was not closed.
    LoadOpen,
}

impl Refusal {
    /// Its number, which is the same in all versions.
    pub fn code(self) -> u8
        ensures { result ≡ code_of self }
    {
        match self {
            Refusal::Syntax => 1,
            Refusal::LineTooLong => 2,
            Refusal::NoTable => 3,
            Refusal::TableExists => 4,
            Refusal::NoColumn => 5,
            Refusal::TypeMismatch => 6,
            Refusal::NoKey => 7,
            Refusal::NullKey => 8,
            Refusal::Header => 9,
            Refusal::FieldCount => 10,
            Refusal::BadInt => 11,
            Refusal::BadText => 12,
            Refusal::SumRange => 13,
            Refusal::Limit => 14,
            Refusal::Memory => 15,
            Refusal::StoreFault => 16,
            Refusal::Damaged => 17,
            Refusal::LoadOpen => 18,
        }
    }

    /// Its name, as replies spell it.
    pub fn name(self) -> &'static str
        ensures name { result.now ≡ name_of self }
        ensures short { length result.now ≤ 12 }
    {
        match self {
            Refusal::Syntax => "Syntax",
            Refusal::LineTooLong => "LineTooLong",
            Refusal::NoTable => "NoTable",
            Refusal::TableExists => "TableExists",
            Refusal::NoColumn => "NoColumn",
            Refusal::TypeMismatch => "TypeMismatch",
            Refusal::NoKey => "NoKey",
            Refusal::NullKey => "NullKey",
            Refusal::Header => "Header",
            Refusal::FieldCount => "FieldCount",
            Refusal::BadInt => "BadInt",
            Refusal::BadText => "BadText",
            Refusal::SumRange => "SumRange",
            Refusal::Limit => "Limit",
            Refusal::Memory => "Memory",
            Refusal::StoreFault => "StoreFault",
            Refusal::Damaged => "Damaged",
            Refusal::LoadOpen => "LoadOpen",
        }
    }

    /// What it means, in a few words.
    pub fn words(self) -> &'static str
        ensures words { result.now ≡ words_of self }
        ensures short { length result.now ≤ 80 }
    {
        match self {
            Refusal::Syntax => "the line is not a command",
            Refusal::LineTooLong => "the line is too long",
            Refusal::NoTable => "no table has that name",
            Refusal::TableExists => "a table of that name exists already",
            Refusal::NoColumn => "no column of the table has that name",
            Refusal::TypeMismatch =>
                "a value has the wrong type, or there are too many or too few values",
            Refusal::NoKey => "the table has no key",
            Refusal::NullKey => "a key column would be null",
            Refusal::Header => "the header does not name each column of the table once",
            Refusal::FieldCount => "the record has more or fewer fields than the header",
            Refusal::BadInt => "a field is not a whole number of 64 bits",
            Refusal::BadText => "a field is not UTF-8",
            Refusal::SumRange => "a sum does not fit a whole number of 64 bits",
            Refusal::Limit =>
                "a name, a text, a payload, a table, the database or the result is too large",
            Refusal::Memory => "out of memory",
            Refusal::StoreFault => "spilled rows could not be written or read",
            Refusal::Damaged => "spilled rows did not read back as they were written",
            Refusal::LoadOpen => "the script ends before the line that closes the payload",
        }
    }
}

impl fmt::Display for Refusal {
    ghost use Rattle.std.specs.Prelude.{Some};
    ghost use Rattle.gq_reply.specs.Refusals.{words_of};

    ghost output = { λ why. Some (words_of why) };

    fn fmt<W: fmt::Write>(&self, f: &mut fmt::Formatter<W>) -> fmt::Result {
        f.write_str(self.words())
    }
}

impl Error for Refusal {}

/// Why a command was refused, and the number of a payload's faulty record if there is one.
#[derive(Clone, Copy, Debug, PartialEq, Eq)]
pub struct Refused {
    pub why: Refusal,
    /// 1 is the record after the header.
    pub number: Option<u64>,
}

impl From<Refusal> for Refused {
    ghost from_gives = { λ why refused. refused ≡ unnumbered why };

    fn from(why: Refusal) -> Refused {
        Refused { why, number: None }
    }
}

impl From<AllocError> for Refused {
    ghost from_gives = { λ _ refused. refused ≡ unnumbered Memory };

    fn from(_e: AllocError) -> Refused {
        Refused::from(Refusal::Memory)
    }
}
