//! Finds where a line stops being the prefix of a command, and which words could follow. The parser
//! decides both.
ghost use Rattle.std.specs.Prelude.{◌≡◌, ◌≤◌, ◌++◌, ℕ, List, true, length, take, IfOk};
ghost use Rattle.std.specs.List.{All};
ghost use Rattle.gq_command.specs.Commands.{Bytes};
ghost use Rattle.gq_command.specs.Lines.{Says};
ghost use Rattle.gq_command.specs.declared.command.Command.{Command};
ghost use Rattle.gq_check.specs.Reports.{Leads};

use crate::ends::{BEFORE_LISTS, WORDS, ends_of};
use crate::pieces::{Piece, pieces_of};
use crate::refusal::refusal_of;
use gq_command::LineRefusal;
use gq_row::Limits;
use std::alloc::{AllocError, Global};

/// Whether a line parses as a command, within the limits or not.
fn says_command(alloc: Global, line: &[u8], limits: &Limits) -> Result<bool, AllocError>
    ensures { IfOk result (λ b. b ≡ true → (c : Command) × Says line.now c) }
{
    match refusal_of(alloc, line, limits) {
        None | Some(LineRefusal::Limit) => Ok(true),
        Some(LineRefusal::Memory) => Err(AllocError),
        Some(LineRefusal::Syntax | LineRefusal::LineTooLong) => Ok(false),
    }
}

/// Whether `prefix` followed by `end` parses as a command.
fn leads_with(alloc: Global, prefix: &[u8], end: &[u8], limits: &Limits) -> Result<bool, AllocError>
    ensures { IfOk result (λ b. b ≡ true → Leads prefix.now) }
{
    let mut line = Vec::from_slice(alloc, prefix)?;
    line.extend_from_slice(end)?;
    says_command(alloc, line.as_slice(), limits)
}

/// Whether `prefix` followed by one of `ends` parses as a command.
fn leads_with_any(
    alloc: Global,
    prefix: &[u8],
    ends: &[&str],
    limits: &Limits,
) -> Result<bool, AllocError>
    ensures { IfOk result (λ b. b ≡ true → Leads prefix.now) }
{
    for end in ends {
        if leads_with(alloc, prefix, end.as_bytes(), limits)? {
            return Ok(true);
        }
    }
    Ok(false)
}

/// `begin`, then `count` names (at least one) and a closing parenthesis. Each name is `_`: the
/// lists of an `exists` may repeat a name.
fn names_after(alloc: Global, begin: &str, count: usize) -> Result<String, AllocError> {
    let mut list = String::from_str(alloc, begin)?;
    list.push_str("_")?;
    for _ in 1..count {
        list.push_str(",_")?;
    }
    list.push_str(")")?;
    Ok(list)
}

/// Whether `prefix` parses as a command with `count` more names, as a prefix does that ends within
/// the lists of an `exists`.
fn leads_with_names(
    alloc: Global,
    prefix: &[u8],
    count: usize,
    limits: &Limits,
) -> Result<bool, AllocError>
    ensures { IfOk result (λ b. b ≡ true → Leads prefix.now) }
{
    for begin in &BEFORE_LISTS {
        let list = names_after(alloc, begin, count)?;
        if leads_with(alloc, prefix, list.as_bytes(), limits)? {
            return Ok(true);
        }
    }
    Ok(false)
}

/// How many more commas the first list of an `exists` has than the second; both may be open. `None`
/// if no piece is `exists`.
fn commas_ahead(alloc: Global, prefix: &[u8]) -> Result<Option<usize>, AllocError> {
    let pieces = pieces_of(alloc, prefix)?;
    let mut ahead: Option<usize> = None;
    let mut closed = false;
    for piece in &pieces {
        match (prefix.get(piece.start..piece.end), ahead) {
            (Some(word), None) if word.eq_ignore_ascii_case(b"exists") => ahead = Some(0),
            (Some([b')']), Some(_)) => closed = true,
            (Some([b',']), Some(commas)) if closed => ahead = Some(commas.saturating_sub(1)),
            (Some([b',']), Some(commas)) => ahead = Some(commas.saturating_add(1)),
            _ => {}
        }
    }
    Ok(ahead)
}

/// What a search over the prefixes of a line needs.
#[derive(Clone, Copy)]
struct Search<'a> {
    /// The endings that can complete a prefix of its form.
    ends: &'static [&'static str],
    limits: &'a Limits,
}

/// Whether `prefix` begins a command, as far as the tables show.
fn leads(alloc: Global, prefix: &[u8], search: &Search) -> Result<bool, AllocError>
    ensures { IfOk result (λ b. b ≡ true → Leads prefix.now) }
{
    if leads_with_any(alloc, prefix, search.ends, search.limits)? {
        return Ok(true);
    }
    let Some(commas) = commas_ahead(alloc, prefix)? else {
        return Ok(false);
    };
    // One more name if the prefix ends within a list, after a comma or the opening parenthesis.
    for count in commas..commas.saturating_add(2) {
        if leads_with_names(alloc, prefix, count, search.limits)? {
            return Ok(true);
        }
    }
    Ok(false)
}

/// Whether the line up to the end of `piece` is the prefix of a command; false without a piece.
fn leads_up_to(
    alloc: Global,
    line: &[u8],
    piece: Option<&Piece>,
    search: &Search,
) -> Result<bool, AllocError> {
    let Some(piece) = piece else {
        return Ok(false);
    };
    match line.get(..piece.end) {
        Some(prefix) => leads(alloc, prefix, search),
        None => Ok(false),
    }
}

/// How many pieces the longest prefix of a command has.
fn prefix_len(
    alloc: Global,
    line: &[u8],
    pieces: &[Piece],
    search: &Search,
) -> Result<usize, AllocError> {
    let mut low = 0;
    let mut high = pieces.len();
    for _ in 0..pieces.len() {
        if high <= low {
            break;
        }
        let middle = low + (high - low) / 2;
        if leads_up_to(alloc, line, pieces.get(middle), search)? {
            low = middle + 1;
        } else {
            high = middle;
        }
    }
    Ok(low)
}

/// Whether a word can follow the prefix.
fn leads_on(
    alloc: Global,
    prefix: &[u8],
    search: &Search,
    spelled: &[u8],
) -> Result<bool, AllocError> {
    let mut longer = Vec::from_slice(alloc, prefix)?;
    longer.extend_from_slice(spelled)?;
    let ends = if prefix.is_empty() {
        ends_of(spelled.get(1..).unwrap_or(b""))
    } else {
        search.ends
    };
    leads(alloc, longer.as_slice(), &Search { ends, ..*search })
}

/// The words that can follow the prefix.
fn words_after(
    alloc: Global,
    prefix: &[u8],
    search: &Search,
    among: &[(&'static str, &'static str)],
) -> Result<Vec<(&'static str, &'static str)>, AllocError> {
    let mut words = Vec::new(alloc);
    for word in among {
        if leads_on(alloc, prefix, search, word.1.as_bytes())? {
            words.push(*word)?;
        }
    }
    Ok(words)
}

/// Where a line stops being the prefix of a command, and what could follow.
#[derive(Drop)]
pub struct Diagnosis {
    /// The length of that prefix in bytes.
    pub prefix: usize,
    /// The piece after it; empty at the line's end.
    pub piece: Piece,
    /// The words that can follow: as messages show each, and as it is spelled.
    pub words: Vec<(&'static str, &'static str)>,
    /// Whether the prefix is itself a command.
    pub whole: bool,
}

/// Finds where a line stops being the prefix of a command.
pub fn diagnose(alloc: Global, line: &[u8], limits: &Limits) -> Result<Diagnosis, AllocError> {
    let pieces = pieces_of(alloc, line)?;
    diagnose_pieces(alloc, line, pieces.as_slice(), limits)
}

/// Like [`diagnose`], with the line's pieces.
fn diagnose_pieces(
    alloc: Global,
    line: &[u8],
    pieces: &[Piece],
    limits: &Limits,
) -> Result<Diagnosis, AllocError> {
    let search = Search {
        ends: ends_of(first_word(line, pieces)),
        limits,
    };
    let count = prefix_len(alloc, line, pieces, &search)?;
    let prefix = prefix_end(line, pieces, count);
    let (text, _after) = line.split_at(prefix);
    let whole = says_command(alloc, text, limits)?;
    Ok(Diagnosis {
        prefix,
        piece: piece_after(line, pieces, count),
        words: words_after(alloc, text, &search, &WORDS)?,
        whole,
    })
}

/// Where the first `count` pieces of a line end, in bytes.
fn prefix_end(line: &[u8], pieces: &[Piece], count: usize) -> usize
    ensures { result ≤ length line.now }
{
    let Some(last) = count.checked_sub(1) else {
        return 0;
    };
    match pieces.get(last) {
        Some(piece) => piece.end.min(line.len()),
        None => 0,
    }
}

/// The piece after the first `count`, or an empty one at the line's end.
fn piece_after(line: &[u8], pieces: &[Piece], count: usize) -> Piece {
    match pieces.get(count) {
        Some(piece) => *piece,
        None => Piece {
            start: line.len(),
            end: line.len(),
        },
    }
}

/// The first piece of a line, or the whole line if it has none.
fn first_word<'a>(line: &'a [u8], pieces: &[Piece]) -> &'a [u8] {
    match pieces.first() {
        Some(piece) => line.get(piece.start..piece.end).unwrap_or(line),
        None => line,
    }
}
