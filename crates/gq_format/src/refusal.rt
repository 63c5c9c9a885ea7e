//! What standard error says of a refused command.
ghost use Rattle.std.specs.Prelude.{◌≡◌, ◌≤◌, ◌++◌, ◌+◌, IfOk, decimal, length, string_bytes};
ghost use Rattle.arrayvec.specs.ArrayString.{array_string_len};
ghost use Rattle.gq_reply.specs.Refusals.{words_of};
ghost use Rattle.gq_reply.specs.Replies.{record_number};
ghost use Rattle.gq_format.specs.Refusals.{diagnosis, refusal_lead, refusal_text};

use arrayvec::ArrayString;
use gq_reply::Refusal;
use itoa::Buffer;
use std::alloc::{AllocError, Global};

/// Two short lines, made without allocation.
pub type RefusalText = ArrayString<256>;

/// The refusal of the command on a line of a script: the line's number, its reply, and its meaning.
pub fn refusal_text(line: u64, code: Refusal, number: Option<u64>) -> RefusalText
    ensures { result.bytes ≡ refusal_text line code number (words_of code) }
{
    let mut text = lead_of(line, code, number);
    text.push_str(code.words());
    text.push_str("\n");
    text
}

/// The same with a diagnosis of the line instead of the words.
pub fn diagnosis_text(
    alloc: Global,
    line: u64,
    code: Refusal,
    number: Option<u64>,
    column: u64,
    message: &str,
) -> Result<String, AllocError>
    ensures { IfOk result (λ text. string_bytes text ≡ refusal_text line code number (diagnosis column message.now)) }
{
    let lead = lead_of(line, code, number);
    let mut digits = Buffer::new();
    let mut text = String::from_str(alloc, lead.as_str())?;
    text.push_str("column ")?;
    text.push_str(digits.format(column))?;
    text.push_str(": ")?;
    text.push_str(message)?;
    text.push_str("\n")?;
    Ok(text)
}

// The line's number and the reply, up to where the words begin.
fn lead_of(line: u64, code: Refusal, number: Option<u64>) -> RefusalText
    ensures bytes { result.bytes ≡ refusal_lead line code number }
    ensures short { array_string_len result ≤ 97 }
{
    let mut text = RefusalText::new();
    push_number(&mut text, "groupsh: line ", line);
    push_number(&mut text, ": err ", u64::from(code.code()));
    text.push_str(" ");
    text.push_str(code.name());
    push_record(&mut text, number);
    text.push_str("\n");
    text.push_str("  ");
    text
}

// Appends the number of a payload's record, if there is one.
fn push_record(text: &mut RefusalText, number: Option<u64>)
    requires { array_string_len text.old + 21 ≤ 256 }
    ensures bytes { text.new.bytes ≡ text.old.bytes ++ record_number number }
    ensures short { array_string_len text.new ≤ array_string_len text.old + 21 }
{
    if let Some(number) = number {
        push_number(text, " ", number);
    }
}

// Appends a word and a number, which has at most 20 digits.
fn push_number(text: &mut RefusalText, word: &str, number: u64)
    requires { array_string_len text.old + length word.now + 20 ≤ 256 }
    ensures bytes { text.new.bytes ≡ text.old.bytes ++ word.now ++ decimal number }
    ensures short { array_string_len text.new ≤ array_string_len text.old + length word.now + 20 }
{
    let mut digits = Buffer::new();
    text.push_str(word);
    text.push_str(digits.format(number));
}
