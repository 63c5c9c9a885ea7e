//! Splits a line into pieces: words, numbers, signs and quoted texts. They only decide where a line
//! may be cut, so contracts cover no more than their lengths.
ghost use Rattle.std.specs.Prelude.{◌≤◌, ◌+◌, length};

use std::alloc::{AllocError, Global};

/// A piece of a line: the bytes `start..end`.
#[derive(Clone, Copy)]
pub struct Piece {
    pub start: usize,
    pub end: usize,
}

/// A class of bytes.
#[derive(Clone, Copy)]
enum Kind {
    Word,
    Blank,
    /// A continuation byte of a UTF-8 character.
    Tail,
}

impl Kind {
    fn has(self, byte: u8) -> bool {
        match self {
            Kind::Word => byte.is_ascii_alphanumeric() || byte == b'_',
            Kind::Blank => byte == b' ' || byte == b'\t',
            Kind::Tail => byte & 0xC0 == 0x80,
        }
    }
}

/// How many leading bytes belong to the class.
fn run_len(bytes: &[u8], kind: Kind) -> usize
    ensures { result ≤ length bytes.now }
{
    bytes.iter().take_while(|b| kind.has(**b)).count()
}

/// The bytes up to and including the closing quote, given those after the opening one; all of them
/// if none closes. A doubled quote doesn't close.
fn quoted_len(bytes: &[u8], quote: u8) -> usize
    ensures { result ≤ length bytes.now }
{
    let mut doubled = false;
    for (index, byte) in bytes.iter().enumerate() {
        let follows = bytes.get(index + 1) == Some(&quote);
        if *byte == quote && !doubled && !follows {
            return index + 1;
        }
        doubled = *byte == quote && !doubled;
    }
    bytes.len()
}

/// The length of the piece that begins with `first`, given the bytes after it.
fn piece_len(first: u8, behind: &[u8]) -> usize
    ensures { result ≤ 1 + length behind.now }
{
    1 + match (first, behind.first()) {
        (b'\'' | b'"', _) => quoted_len(behind, first),
        (b'<', Some(b'>' | b'=')) | (b'>', Some(b'=')) => 1,
        (b'+' | b'-', _) => run_len(behind, Kind::Word),
        (first, _) if Kind::Word.has(first) => run_len(behind, Kind::Word),
        _ => run_len(behind, Kind::Tail),
    }
}

/// The pieces of a line, from left to right. Blanks between pieces belong to none.
pub fn pieces_of(alloc: Global, line: &[u8]) -> Result<Vec<Piece>, AllocError> {
    let mut pieces = Vec::new(alloc);
    let mut rest = line;
    for _ in 0..line.len() {
        let blanks = run_len(rest, Kind::Blank);
        let (_blanks, word) = rest.split_at(blanks);
        let Some((first, behind)) = word.split_first() else {
            return Ok(pieces);
        };
        let len = piece_len(*first, behind);
        let start = line.len().saturating_sub(word.len());
        let (_piece, left) = word.split_at(len);
        pieces.push(Piece {
            start,
            end: line.len().saturating_sub(left.len()),
        })?;
        rest = left;
    }
    Ok(pieces)
}
