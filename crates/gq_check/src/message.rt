//! The messages of reports.
ghost use Rattle.std.specs.Prelude.{◌≡◌, ◌≢◌, IfOk, string_bytes};
ghost use Rattle.gq_check.specs.Reports.{IsOneLine, limit_message};
ghost use Rattle.gq_check.specs.declared.fault.Fault.TheVariants as why;

use crate::diagnosis::{Diagnosis, diagnose};
use crate::ends::{NAME, NUMBER};
use crate::fault::Fault;
use gq_row::Limits;
use gq_token::{Token, lex};
use std::alloc::{AllocError, Global};

/// A message about a line, and the byte that it is about.
#[derive(Drop)]
pub struct LineMessage {
    /// How many bytes precede that byte.
    pub at: usize,
    pub message: String,
}

/// The fixed message of each fault but `Syntax`.
fn limit_message(fault: Fault) -> &'static str
    ensures { result.now ≡ limit_message fault }
{
    match fault {
        Fault::Syntax => "",
        Fault::LineTooLong => "LineTooLong: the line has more than 65536 bytes",
        Fault::Limit => {
            "Limit: a name has more than 63 bytes, a text more than 65535, or there are more than 128 columns or 16 aggregates"
        }
        Fault::LoadOpen => "LoadOpen: no line '\\.' ends the payload",
        Fault::PayloadTooLong => "Limit: the payload has more than 268435456 bytes",
    }
}

/// The message for a line with this fault; that for `Syntax` depends on the text.
pub fn message_of(
    alloc: Global,
    fault: Fault,
    text: &[u8],
    limits: &Limits,
) -> Result<LineMessage, AllocError>
    ensures one_line { IfOk result (λ written. IsOneLine (string_bytes written.message)) }
    ensures limit { fault ≢ why.Syntax → IfOk result (λ written. string_bytes written.message ≡ limit_message fault) }
{
    if fault == Fault::Syntax {
        let written = syntax_message(alloc, text, limits)?;
        if written.message.as_bytes().contains(&b'\n') {
            return Ok(LineMessage {
                at: 0,
                message: String::from_str(alloc, "not a command")?,
            });
        }
        return Ok(written);
    }
    Ok(LineMessage {
        at: 0,
        message: String::from_str(alloc, limit_message(fault))?,
    })
}

/// Says what could follow the longest prefix of a command, and what was found there.
fn syntax_message(alloc: Global, text: &[u8], limits: &Limits) -> Result<LineMessage, AllocError> {
    let diagnosis = diagnose(alloc, text, limits)?;
    let piece = text
        .get(diagnosis.piece.start..diagnosis.piece.end)
        .unwrap_or(b"");
    let mut message = String::new(alloc);
    push_expected(alloc, &mut message, &diagnosis, piece)?;
    push_found(&mut message, piece)?;
    Ok(LineMessage {
        at: diagnosis.piece.start,
        message,
    })
}

/// Appends what could follow the prefix.
fn push_expected(
    alloc: Global,
    message: &mut String,
    diagnosis: &Diagnosis,
    piece: &[u8],
) -> Result<(), AllocError> {
    let words = diagnosis.words.as_slice();
    let last = words
        .len()
        .saturating_sub(if diagnosis.whole { 0 } else { 1 });
    // Any word would make the line too long.
    message.push_str(if words.is_empty() && !diagnosis.whole {
        "expected a shorter line"
    } else {
        "expected "
    })?;
    push_words(alloc, message, words, last, piece)?;
    message.push_str(match (diagnosis.whole, last) {
        (false, _) => "",
        (true, 0) => "the end of the line",
        (true, _) => " or the end of the line",
    })
}

/// Appends words, with an `or` before the one at `last`.
fn push_words(
    alloc: Global,
    message: &mut String,
    words: &[(&'static str, &'static str)],
    last: usize,
    piece: &[u8],
) -> Result<(), AllocError> {
    for (index, (shown, _spelled)) in words.iter().enumerate() {
        message.push_str(if index == 0 {
            ""
        } else if index == last {
            " or "
        } else {
            ", "
        })?;
        message.push_str(label(alloc, shown, piece))?;
    }
    Ok(())
}

/// The label of a word, given the piece that was found in its place: a number found there is out of
/// range, and a name found there is already used.
fn label(alloc: Global, shown: &'static str, piece: &[u8]) -> &'static str {
    if shown == NUMBER
        && piece.iter().any(|byte| byte.is_ascii_digit())
        && !piece.starts_with(b"'")
    {
        "a number of 64 bits"
    } else if shown == NAME && is_name(alloc, piece) {
        "another name"
    } else {
        shown
    }
}

/// Whether a piece lexes as a name; false if an allocation fails.
fn is_name(alloc: Global, piece: &[u8]) -> bool {
    let Ok(text) = str::from_utf8(piece) else {
        return false;
    };
    match lex(alloc, text) {
        Ok(mut tokens) => matches!(tokens.take(), Some(Token::Name(_))),
        Err(_) => false,
    }
}

/// Appends what was found.
fn push_found(message: &mut String, piece: &[u8]) -> Result<(), AllocError> {
    let (quote, text) = found(piece);
    message.push_str(", found ")?;
    message.push_str(quote)?;
    message.push_str(text)?;
    message.push_str(quote)
}

/// What a message calls a piece, and the quote around it.
fn found(piece: &[u8]) -> (&'static str, &str) {
    let Ok(text) = str::from_utf8(piece) else {
        return ("", "what is not UTF-8");
    };
    let is_quoted = matches!(piece, [b'\'' | b'"', ..]);
    if text.is_empty() {
        ("", "the end of the line")
    } else if is_quoted && is_open(piece) {
        ("", "a quote that nothing closes")
    } else if text.len() > 64 {
        ("", "something long")
    } else if is_quoted {
        ("", text)
    } else {
        ("'", text)
    }
}

/// Whether a piece's first byte occurs in it an odd number of times.
fn is_open(piece: &[u8]) -> bool {
    let Some(quote) = piece.first() else {
        return false;
    };
    let mut open = false;
    for byte in piece {
        if *byte == *quote {
            open = !open;
        }
    }
    open
}
