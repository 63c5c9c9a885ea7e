//! Why tables could not be made, and what is said of it.
ghost use Rattle.std.specs.Prelude.{◌≡◌, ◌++◌, Ok, Err, IfErr, IfOk, OnOk, string_bytes};
ghost use Rattle.gq_reply.specs.Replies.{record_number};
ghost use Rattle.gq_reply.specs.declared.refusal.Refused.{Refused};
ghost use Rattle.gq_engine.specs.declared.csv_fault.CsvFault.TheVariants as CsvFault;
ghost use Rattle.gq_tables.specs.declared.fault.Why.TheVariants as Why;
ghost use Rattle.gq_tables.specs.Reasons.{IsWhyOf, why_of_header};
ghost use Rattle.gq_tables.specs.Faults.{can_complete, code_and_name, hint, meaning, refusal_text};

use gq_engine::{CsvFault, Refusal, Refused, Short};
use gq_infer::InferFault;
use itoa::Buffer;
use std::alloc::{AllocError, AllocFailed, Global};
use thiserror::Error;

/// Why a file's rows are in no table.
#[derive(Clone, Copy, Debug, PartialEq, Eq, Error)]
pub enum Why {
    /// The file could not be opened.
    #[error("cannot open")]
    CannotOpen,
    /// A read of it failed.
    #[error("read fault")]
    ReadFault,
    /// An allocation failed.
    #[error("out of memory")]
    Memory,
    /// Its table can't be made, or its text is refused.
    #[error("refused")]
    Refused(Refused),
}

impl From<AllocError> for Why {
    ghost use Rattle.gq_tables.specs.declared.fault.Why.TheVariants.{Memory};

    ghost from_gives = { λ _ e. e ≡ Memory };

    fn from(_e: AllocError) -> Why {
        Why::Memory
    }
}

impl<T: Drop> From<AllocFailed<T>> for Why {
    ghost use Rattle.gq_tables.specs.declared.fault.Why.TheVariants.{Memory};

    ghost from_gives = { λ _ e. e ≡ Memory };

    fn from(_e: AllocFailed<T>) -> Why {
        Why::Memory
    }
}

/// The fault of a word, by that of its file.
pub(crate) fn at_word<T: Drop>(outcome: Result<T, Why>, word: usize) -> Result<T, TableFault>
    ensures ok { IfOk result (λ x. outcome ≡ Ok x) }
    ensures err { IfErr result (λ fault. (outcome ≡ Err fault.why) × (fault.word ≡ word)) }
{
    match outcome {
        Ok(value) => Ok(value),
        Err(why) => Err(TableFault { word, why }),
    }
}

/// The refusal of a text that names no columns.
pub(crate) fn of_inference(fault: InferFault) -> Why
    ensures { result ≡ why_of_header fault }
{
    match fault {
        InferFault::Header => Why::Refused(Refused::from(Refusal::Header)),
        InferFault::Limit => Why::Refused(Refused::from(Refusal::Limit)),
        InferFault::Memory => Why::Memory,
        InferFault::Read => Why::ReadFault,
    }
}

/// The refusal of a load.
pub(crate) fn of_load(fault: CsvFault) -> Why
    ensures read { fault ≡ CsvFault.Read → result ≡ Why.ReadFault }
    ensures refused { (refused : Refused) → fault ≡ CsvFault.Refused refused → IsWhyOf refused result }
{
    match fault {
        CsvFault::Read => Why::ReadFault,
        CsvFault::Refused(refused) => of_refused(refused),
    }
}

/// The refusal of a table.
pub(crate) fn of_refused(refused: Refused) -> Why
    ensures { IsWhyOf refused result }
{
    if refused.why == Refusal::Memory {
        Why::Memory
    } else {
        Why::Refused(refused)
    }
}

/// Why tables could not be made: of the words before this one they were.
#[derive(Clone, Copy, Debug, PartialEq, Eq)]
pub struct TableFault {
    /// The position of the word.
    pub word: usize,
    pub why: Why,
}

impl TableFault {
    ghost use Rattle.std.specs.Prelude.{◌≡◌, IfOk, string_bytes};
    ghost use Rattle.gq_tables.specs.Faults.{fault_text, status_of};

    /// The exit status: 1 for a refusal, 3 if a file can't be read or an allocation failed.
    pub fn status(&self) -> u8
        ensures { result ≡ status_of self.now.why }
    {
        match self.why {
            Why::Refused(_) => 1,
            Why::CannotOpen | Why::ReadFault | Why::Memory => 3,
        }
    }

    /// Whether a field was no number in a column of numbers.
    pub(crate) fn is_bad_int(&self) -> bool {
        match self.why {
            Why::Refused(refused) => refused.why == Refusal::BadInt,
            Why::CannotOpen | Why::ReadFault | Why::Memory => false,
        }
    }

    /// What standard error says of a fault of this file.
    pub fn text(&self, alloc: Global, file: &str, short: Short) -> Result<String, AllocError>
        ensures { IfOk result (λ text. string_bytes text ≡ fault_text short file.now self.now.why) }
    {
        let mut text = String::from_str(alloc, "groupsh: ")?;
        text.push_str(file)?;
        text.push_str(": ")?;
        match self.why {
            Why::CannotOpen => text.push_str("cannot open\n")?,
            Why::ReadFault => text.push_str("read fault\n")?,
            Why::Memory => text.push_str("out of memory\n")?,
            Why::Refused(refused) => {
                text.push_str(refusal_text(alloc, refused, short)?.as_str())?;
            }
        }
        Ok(text)
    }
}

// A refusal as replies have it, and what it means.
fn refusal_text(alloc: Global, refused: Refused, short: Short) -> Result<String, AllocError>
    ensures { IfOk result (λ text. string_bytes text ≡ refusal_text short refused) }
{
    let mut text = code_and_name(alloc, refused.why)?;
    push_record(&mut text, refused.number)?;
    push_meaning(&mut text, refused.why, short)?;
    Ok(text)
}

// The code and the name of a refusal.
fn code_and_name(alloc: Global, why: Refusal) -> Result<String, AllocError>
    ensures { IfOk result (λ text. string_bytes text ≡ code_and_name why) }
{
    let mut code = Buffer::new();
    let mut text = String::from_str(alloc, "err ")?;
    text.push_str(code.format(why.code()))?;
    text.push_str(" ")?;
    text.push_str(why.name())?;
    Ok(text)
}

// Appends the number of a record, if there is one.
fn push_record(text: &mut String, number: Option<u64>) -> Result<(), AllocError>
    ensures { OnOk result (string_bytes text.new ≡ string_bytes text.old ++ record_number number) }
{
    let Some(number) = number else {
        return Ok(());
    };
    let mut digits = Buffer::new();
    text.push_str(" ")?;
    text.push_str(digits.format(number))
}

// Appends a line in words.
fn push_meaning(text: &mut String, why: Refusal, short: Short) -> Result<(), AllocError>
    ensures { OnOk result (string_bytes text.new ≡ string_bytes text.old ++ meaning short why) }
{
    text.push_str("\n  ")?;
    text.push_str(why.words())?;
    text.push_str(hint(can_complete(short, why)))?;
    text.push_str("\n")
}

// Whether an option would complete the record that is refused.
fn can_complete(short: Short, why: Refusal) -> bool
    ensures { result ≡ can_complete short why }
{
    short == Short::Refused && why == Refusal::FieldCount
}

fn hint(is_open: bool) -> &'static str
    ensures { result.now ≡ hint is_open }
{
    if is_open {
        "; --ragged completes short records with nulls"
    } else {
        ""
    }
}
