//! Payloads, read piece by piece.
ghost use Rattle.std.specs.Prelude.{◌≡◌, ◌≤◌, ◌<◌, ℕ, ◌++◌, [], true, false, length, take, IfOk, IfSome, IfNone, OnOk, slice_index};
ghost use Rattle.gq_token.specs.Texts.{Bytes};
ghost use Rattle.gq_script.specs.Script.{with_lines};
ghost use Rattle.gq_script.specs.Payloads.{mark_after, mark_of, is_other, is_closing, held, Holds, GoesOn, HasLines, IsPiece, TookLines, TookPayloadLine, TookPayload, Unclosed};

use crate::source::{ReadFault, Source};
use gq_row::{Bounds, line_ends};
use memchr::{memchr, memrchr};
use std::alloc::Global;
use std::io::Read;

/// How much was matched of a line that may end a payload: `\.`, and then its end.
#[derive(Clone, Copy)]
pub enum EndMark {
    /// Nothing yet.
    Start,
    /// `\`
    Backslash,
    /// `\.`, which ends the payload if the script ends here.
    Dot,
    /// `\.` and a CR.
    Return,
    /// `\.` and its end.
    Ended,
    /// Anything else.
    Other,
}

impl EndMark {
    #[inline]
    fn after(self, byte: u8) -> EndMark
        ensures { result ≡ mark_after self byte }
    {
        match self {
            EndMark::Start if byte == b'\\' => EndMark::Backslash,
            EndMark::Backslash if byte == b'.' => EndMark::Dot,
            EndMark::Dot if byte == b'\r' => EndMark::Return,
            EndMark::Dot if byte == b'\n' => EndMark::Ended,
            EndMark::Return if byte == b'\n' => EndMark::Ended,
            _ => EndMark::Other,
        }
    }

    #[inline]
    fn is_other(self) -> bool
        ensures { result ≡ is_other self }
    {
        matches!(self, EndMark::Other)
    }

    #[inline]
    fn is_closing(self) -> bool
        ensures { result ≡ is_closing self }
    {
        matches!(self, EndMark::Dot | EndMark::Ended)
    }

    /// After more bytes of the line, of which only the first few are looked at.
    fn behind(self, piece: &[u8]) -> EndMark
        ensures { result ≡ mark_of self piece.now }
    {
        let mut mark = self;
        for byte in piece {
            if mark.is_other() {
                return mark;
            }
            mark = mark.after(*byte);
        }
        mark
    }

    /// The bytes matched so far, while they may be the mark.
    fn held(self) -> &'static [u8]
        ensures { result.now ≡ held self }
    {
        match self {
            EndMark::Backslash => b"\\",
            EndMark::Dot => b"\\.",
            EndMark::Return => b"\\.\r",
            EndMark::Start | EndMark::Ended | EndMark::Other => b"",
        }
    }
}

/// What is kept of a payload, as far as it was read.
#[derive(Drop)]
pub enum Kept {
    Bytes(Vec<u8>),
    /// The payload has more bytes than the limit. None of them is kept.
    TooLong,
    /// An allocation failed, or the bytes aren't needed. None of them is kept.
    Nothing,
}

impl Kept {
    pub fn new(alloc: Global) -> Kept
        ensures { (most : ℕ) → Holds most result [] }
    {
        Kept::Bytes(Vec::new(alloc))
    }

    fn add(&mut self, most: usize, piece: &[u8])
        ensures { (front : Bytes) → Holds most self.old front → Holds most self.new (front ++ piece.now) }
    {
        let Kept::Bytes(bytes) = self else {
            return;
        };
        if most.saturating_sub(bytes.len()) < piece.len() {
            *self = Kept::TooLong;
        } else if bytes.extend_from_slice(piece).is_err() {
            *self = Kept::Nothing;
        }
    }

    /// Adds a piece of a line, unless the line may still be the mark.
    fn add_piece(&mut self, most: usize, before: EndMark, after: EndMark, piece: &[u8])
        ensures may_be { is_other after ≡ false → self.new ≡ self.old }
        ensures other { is_other after ≡ true → (front : Bytes) → Holds most self.old front → Holds most self.new (front ++ held before ++ piece.now) }
    {
        if after.is_other() {
            self.add(most, before.held());
            self.add(most, piece);
        }
    }
}

/// How many of these bytes belong to the first line, and whether its LF is among them.
fn line_piece(bytes: &[u8]) -> (usize, bool)
    ensures within { result.0 ≤ length bytes.now }
    ensures piece { IsPiece result.1 (take result.0 bytes.now) }
{
    match memchr(b'\n', bytes) {
        Some(index) => (index + 1, true),
        None => (bytes.len(), false),
    }
}

/// Takes a line of a payload, and returns whether it ends the payload; `None` if the script ends
/// before a line does.
pub fn take_payload_line<R: Read>(
    source: &mut Source<R>,
    kept: &mut Kept,
    bounds: &Bounds,
) -> Result<Option<bool>, ReadFault>
    ensures line { IfOk result (λ x. IfSome x (λ ends. TookPayloadLine bounds.now.payload source.old source.new kept.old kept.new ends)) }
    ensures end { IfOk result (λ x. IfNone x (Unclosed source.old source.new)) }
    ensures within { OnOk result (source.new.given ≤ bounds.now.script) }
{
    match gather_payload_line(source, kept, bounds)? {
        None => Ok(None),
        Some(ends) => {
            source.count_lines(1)?;
            Ok(Some(ends))
        }
    }
}

// Takes the line without counting it.
fn gather_payload_line<R: Read>(
    source: &mut Source<R>,
    kept: &mut Kept,
    bounds: &Bounds,
) -> Result<Option<bool>, ReadFault>
    ensures line { IfOk result (λ x. IfSome x (λ ends. TookPayloadLine bounds.now.payload source.old (with_lines source.new 1) kept.old kept.new ends)) }
    ensures end { IfOk result (λ x. IfNone x (Unclosed source.old source.new)) }
    ensures within { OnOk result (source.new.given ≤ bounds.now.script) }
{
    let mut mark = EndMark::Start;
    for _ in 0..u64::MAX {
        if !source.fill(bounds.script)? {
            return Ok(if mark.is_closing() { Some(true) } else { None });
        }
        let piece = source.ahead();
        let (len, ended) = line_piece(piece);
        let before = mark;
        mark = before.behind(&piece[..len]);
        kept.add_piece(bounds.payload, before, mark, &piece[..len]);
        source.pass(len, bounds.script)?;
        if ended {
            return Ok(Some(mark.is_closing()));
        }
    }
    Err(ReadFault)
}

/// The length and the number of the whole lines at the start of these bytes, up to the first that
/// begins with `\`. None of them ends a payload.
fn lines_len(bytes: &[u8]) -> (usize, u64)
    ensures within { result.0 ≤ length bytes.now }
    ensures lines { GoesOn (take result.0 bytes.now) }
    ensures count { HasLines result.1 (take result.0 bytes.now) }
    ensures few { result.1 ≤ result.0 }
{
    if memchr(b'\\', bytes).is_some() {
        return escaped_lines_len(bytes);
    }
    match memrchr(b'\n', bytes) {
        None => (0, 0),
        Some(last) => (last + 1, line_ends(&bytes[..last]) as u64 + 1),
    }
}

/// The same, line by line.
fn escaped_lines_len(bytes: &[u8]) -> (usize, u64)
    ensures within { result.0 ≤ length bytes.now }
    ensures lines { GoesOn (take result.0 bytes.now) }
    ensures count { HasLines result.1 (take result.0 bytes.now) }
    ensures few { result.1 ≤ result.0 }
{
    let mut len = 0;
    let mut count: u64 = 0;
    while len < bytes.len() && bytes[len] != b'\\' {
        match memchr(b'\n', &bytes[len..]) {
            None => return (len, count),
            Some(index) => len += index + 1,
        }
        count += 1;
    }
    (len, count)
}

/// Takes such lines of the bytes that were read ahead.
fn take_lines<R: Read>(
    source: &mut Source<R>,
    kept: &mut Kept,
    bounds: &Bounds,
) -> Result<(), ReadFault>
    ensures { OnOk result (TookLines bounds.now.payload source.old source.new kept.old kept.new) }
{
    let waiting = source.ahead();
    let (len, count) = lines_len(waiting);
    kept.add(bounds.payload, &waiting[..len]);
    source.pass(len, bounds.script)?;
    source.count_lines(count)?;
    Ok(())
}

/// Takes a payload and the line that ends it, and returns what was kept of it; or takes all that is
/// left and returns `None` if no line ends it. `kept` says whether bytes are kept.
pub fn take_payload<R: Read>(
    mut kept: Kept,
    source: &mut Source<R>,
    bounds: &Bounds,
) -> Result<Option<Kept>, ReadFault>
    requires { Holds bounds.now.payload kept [] }
    ensures taken { IfOk result (TookPayload bounds.now.payload source.old source.new) }
    ensures within { OnOk result (source.new.given ≤ bounds.now.script) }
{
    for _ in 0..u64::MAX {
        take_lines(source, &mut kept, bounds)?;
        match take_payload_line(source, &mut kept, bounds)? {
            None => return Ok(None),
            Some(true) => return Ok(Some(kept)),
            Some(false) => {}
        }
    }
    Err(ReadFault)
}
