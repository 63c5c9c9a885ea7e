//! The state machine of a record, one byte at a time.
ghost use Rattle.gq_csv.specs.Steps.{IsStep, ends_record};
ghost use Rattle.std.specs.Prelude.{◌≡◌};

use crate::find::ends_line;

/// Where in a record the next byte is.
#[derive(Clone, Copy, PartialEq, Eq)]
pub(crate) enum State {
    /// Before its first byte.
    StartRecord,
    /// Before a field.
    StartField,
    /// In a field without quotes, or after its closing quote.
    InField,
    /// Between quotes.
    InQuoted,
    /// After a quote that ends the field, if no further quote follows.
    AfterQuote,
}

/// What a byte does.
#[derive(Clone, Copy)]
pub(crate) enum Step {
    /// It is dropped.
    Skip(State),
    /// It is a byte of the field.
    Copy(State),
    /// It ends the field.
    EndField,
    /// It ends the field and the record.
    EndRecord,
}

/// What the next byte does.
pub(crate) fn next_step(state: State, byte: u8) -> Step
    ensures { IsStep state byte result }
{
    match state {
        State::StartRecord => {
            if ends_line(byte) {
                Step::Skip(State::StartRecord)
            } else {
                start_field(byte)
            }
        }
        State::StartField => start_field(byte),
        State::InField => in_field(byte),
        State::InQuoted => {
            if byte == b'"' {
                Step::Skip(State::AfterQuote)
            } else {
                Step::Copy(State::InQuoted)
            }
        }
        State::AfterQuote => {
            if byte == b'"' {
                Step::Copy(State::InQuoted)
            } else {
                in_field(byte)
            }
        }
    }
}

fn start_field(byte: u8) -> Step
    ensures { IsStep State.StartField byte result }
{
    if byte == b'"' {
        Step::Skip(State::InQuoted)
    } else {
        in_field(byte)
    }
}

fn in_field(byte: u8) -> Step
    ensures { IsStep State.InField byte result }
{
    if byte == b',' {
        Step::EndField
    } else if ends_line(byte) {
        Step::EndRecord
    } else {
        Step::Copy(State::InField)
    }
}

/// Whether the end of the text ends a record.
pub(crate) fn ends_record(state: State) -> bool
    ensures { result ≡ ends_record state }
{
    state != State::StartRecord
}
