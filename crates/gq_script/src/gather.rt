//! Lines, gathered byte by byte.
ghost use Rattle.std.specs.Prelude.{◌≡◌, ◌≤◌, ◌<◌, ◌+◌, ℕ, [], ◌∷◌, ◌++◌, IfOk, IfSome, IfNone, OnOk};
ghost use Rattle.std.specs.Io.KnownBytes.{IsAtEnd};
ghost use Rattle.gq_row.specs.declared.limits.Bounds.{Bounds};
ghost use Rattle.gq_token.specs.Texts.{Bytes};
ghost use Rattle.gq_script.specs.Script.{Takes, is_skipped, takes_payload, with_lines};
ghost use Rattle.gq_script.specs.Gathering.{opening_after, Gathers, GathersRaw, TookLine, is_skippable, Keeps, KeepsBehind};

use crate::first_word::FirstWord;
use crate::source::{ReadFault, Source};
use gq_row::Bounds;
use std::alloc::Global;
use std::io::Read;

/// How a line begins, as far as it was read.
#[derive(Clone, Copy)]
pub enum Opening {
    /// Only spaces and tabs.
    Blank,
    /// One dash after these.
    Dash,
    /// Two dashes after these.
    Comment,
    /// Anything else.
    Word,
}

impl Opening {
    #[inline]
    fn after(self, byte: u8) -> Opening
        ensures { result ≡ opening_after self byte }
    {
        match self {
            Opening::Blank if byte == b' ' || byte == b'\t' => Opening::Blank,
            Opening::Blank if byte == b'-' => Opening::Dash,
            Opening::Dash if byte == b'-' => Opening::Comment,
            Opening::Comment => Opening::Comment,
            Opening::Blank | Opening::Dash | Opening::Word => Opening::Word,
        }
    }

    #[inline]
    fn is_skippable(self) -> bool
        ensures { result ≡ is_skippable self }
    {
        matches!(self, Opening::Blank | Opening::Comment)
    }
}

/// A line as far as it was read, without its end. `kept` has the bytes after its leading blanks,
/// within the limit, and none until the line is known to be neither blank nor a comment.
#[derive(Drop)]
pub struct OpenLine {
    pub kept: Vec<u8>,
    pub room: usize,
    pub too_long: bool,
    /// Whether an allocation failed.
    pub lost: bool,
    pub opening: Opening,
    /// The first word among the bytes within the limit.
    pub first_word: FirstWord,
}

impl OpenLine {
    pub fn new(alloc: Global, most: usize) -> OpenLine
        ensures { Gathers most result [] }
    {
        OpenLine {
            kept: Vec::new(alloc),
            room: most,
            too_long: false,
            lost: false,
            opening: Opening::Blank,
            first_word: FirstWord::Blank,
        }
    }

    #[inline]
    fn keep(&mut self, byte: u8)
        ensures { Keeps self.old self.new byte }
    {
        if !self.lost && self.kept.push(byte).is_err() {
            self.lost = true;
        }
    }

    #[inline]
    fn add(&mut self, byte: u8)
        ensures { (most : ℕ) (front : Bytes) → Gathers most self.old front → Gathers most self.new (front ++ byte ∷ []) }
    {
        let before = self.opening;
        self.opening = before.after(byte);
        if self.room == 0 {
            self.too_long = true;
        } else {
            self.room -= 1;
            let word = self.first_word.after(byte);
            self.first_word = word;
            self.keep_after(before, byte);
        }
    }

    /// Keeps a byte if the line is known to be neither blank nor a comment, after the dash that was
    /// held back until then.
    fn keep_after(&mut self, before: Opening, byte: u8)
        ensures { KeepsBehind before self.old self.new byte }
    {
        match (before, self.opening) {
            (Opening::Dash, Opening::Word) => {
                self.keep(b'-');
                self.keep(byte);
            }
            (_, Opening::Word) => self.keep(byte),
            _ => {}
        }
    }

    /// Adds the CR that was held back, and then the byte unless it is a CR, which may belong to the
    /// line's end. Returns whether a CR is held back.
    #[inline]
    fn feed(&mut self, after_cr: bool, byte: u8) -> bool
        ensures { (most : ℕ) (raw : Bytes) → GathersRaw most self.old after_cr raw → GathersRaw most self.new result (raw ++ byte ∷ []) }
    {
        if after_cr {
            self.add(b'\r');
        }
        if byte == b'\r' {
            return true;
        }
        self.add(byte);
        false
    }

    /// Adds the CR that was held back, at the end of the script.
    fn close(&mut self, after_cr: bool)
        ensures { (most : ℕ) (raw : Bytes) → GathersRaw most self.old after_cr raw → Gathers most self.new raw }
    {
        if after_cr {
            self.add(b'\r');
        }
    }

    /// Whether the line is blank or a comment.
    pub fn is_skipped(&self) -> bool
        ensures { (most : ℕ) (line : Bytes) → Gathers most self.now line → result ≡ is_skipped line }
    {
        self.opening.is_skippable()
    }

    /// Whether the lines after it are its payload.
    pub fn takes_payload(&self) -> bool
        ensures { (bounds : Bounds) (line : Bytes) → Gathers bounds.line self.now line → result ≡ takes_payload bounds line }
    {
        self.first_word.is_load()
    }
}

/// Takes the first remaining line up to its end, however long it is; `None` at the script's end.
pub fn take_line<R: Read>(
    alloc: Global,
    source: &mut Source<R>,
    bounds: &Bounds,
) -> Result<Option<OpenLine>, ReadFault>
    ensures line { IfOk result (λ x. IfSome x (λ line. TookLine bounds.now source.old source.new line)) }
    ensures end { IfOk result (λ x. IfNone x (Takes source.old source.new [] × IsAtEnd source.old.left)) }
    ensures within { OnOk result (source.new.given ≤ bounds.now.script) }
{
    match gather_line(alloc, source, bounds)? {
        None => Ok(None),
        Some(line) => {
            source.count_lines(1)?;
            Ok(Some(line))
        }
    }
}

// Takes the line without counting it.
fn gather_line<R: Read>(
    alloc: Global,
    source: &mut Source<R>,
    bounds: &Bounds,
) -> Result<Option<OpenLine>, ReadFault>
    ensures line { IfOk result (λ x. IfSome x (λ line. TookLine bounds.now source.old (with_lines source.new 1) line)) }
    ensures end { IfOk result (λ x. IfNone x (Takes source.old source.new [] × IsAtEnd source.old.left)) }
    ensures within { OnOk result (source.new.given ≤ bounds.now.script) }
{
    let mut line = OpenLine::new(alloc, bounds.line);
    let mut any = false;
    let mut after_cr = false;
    for _ in 0..u64::MAX {
        match source.next_byte(bounds.script)? {
            None => {
                if !any {
                    return Ok(None);
                }
                line.close(after_cr);
                return Ok(Some(line));
            }
            Some(b'\n') => return Ok(Some(line)),
            Some(byte) => {
                after_cr = line.feed(after_cr, byte);
                any = true;
            }
        }
    }
    Err(ReadFault)
}
