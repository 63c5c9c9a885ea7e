//! The bytes of a reader, in order.
ghost use Rattle.std.specs.Prelude.{◌≡◌, ◌≤◌, ◌<◌, [], ◌∷◌, IfOk, slice_range, length, take, if◌then◌else◌, true};
ghost use Rattle.std.specs.Io.KnownBytes.{Keeps, Consumes, IsAtEnd};
ghost use Rattle.std.specs.Str.{bytes_eq};
ghost use Rattle.gq_script.specs.Script.{IsMarkOf, mark_length, waiting};

use std::io::Read;
use std::marker::Model;
use thiserror::Error;

/// A read failed, or the script has more bytes than the limit.
#[derive(Clone, Copy, Debug, PartialEq, Eq, Error)]
#[error("a read failed, or the script is too long")]
pub struct ReadFault;

/// Reads at least four bytes, so that a byte-order mark is whole, unless the end comes first.
fn read_into<R: Read>(reader: &mut R, buffer: &mut [u8]) -> Result<usize, ReadFault>
    requires { 4 ≤ length buffer.old }
    ensures within { IfOk result (λ n. n ≤ length buffer.new) }
    ensures bytes { IfOk result (λ n. Consumes (R.remaining reader.old) (R.remaining reader.new) (take n buffer.new)) }
    ensures end { IfOk result (λ n. n < 4 → IsAtEnd (R.remaining reader.new)) }
{
    let mut len = 0;
    while len < 4 {
        match reader.read(&mut buffer[len..]) {
            Err(_) => return Err(ReadFault),
            Ok(0) => return Ok(len),
            Ok(count) => len += count,
        }
    }
    Ok(len)
}

/// The length of the byte-order mark at the start; 0 without one.
fn mark_len(bytes: &[u8]) -> usize
    ensures value { result ≡ mark_length bytes.now }
    ensures within { result ≤ length bytes.now }
{
    match bytes {
        [0xEF, 0xBB, 0xBF, ..] => 3,
        _ => 0,
    }
}

/// Reads into the buffer, and returns where the script's bytes begin and end in it.
fn refill<R: Read>(
    reader: &mut R,
    buffer: &mut [u8],
    after_mark: bool,
) -> Result<(usize, usize), ReadFault>
    requires { 4 ≤ length buffer.old }
    ensures within { IfOk result (λ x. (x.0 ≤ x.1) × (x.1 ≤ length buffer.new)) }
    ensures bytes { IfOk result (λ x. Keeps (waiting after_mark [] (R.remaining reader.old)) (waiting true (slice_range buffer.new x.0 x.1) (R.remaining reader.new))) }
    ensures end { IfOk result (λ x. x.0 ≡ x.1 → IsAtEnd (R.remaining reader.new)) }
    ensures mark { IfOk result (λ x. IsMarkOf after_mark x.0 (R.remaining reader.old)) }
{
    if after_mark {
        match reader.read(buffer) {
            Ok(len) => Ok((0, len)),
            Err(_) => Err(ReadFault),
        }
    } else {
        let len = read_into(reader, buffer)?;
        Ok((mark_len(&buffer[..len]), len))
    }
}

/// The bytes of a reader without a byte-order mark, read ahead into a fixed buffer. `given` counts
/// the bytes that were given, including the mark.
#[derive(Drop)]
pub struct Source<R: Read> {
    reader: R,
    buffer: [u8; 8192],
    start: usize,
    end: usize,
    after_mark: bool,
    given: u64,
    lines: u64,
}

impl<R: Read> Model for Source<R> {
    ghost use Rattle.gq_script.specs.Script.{Stream, given_with_mark, waiting};
    ghost use Rattle.std.specs.Prelude.{slice_range, ◌≤◌, ◌≡◌, length, false};

    ghost Value = { Stream };

    ghost view = { λ s. record { left = waiting s.after_mark (slice_range s.buffer s.start s.end) (R.remaining s.reader); given = given_with_mark s.after_mark s.given (R.remaining s.reader); lines = s.lines; ahead = slice_range s.buffer s.start s.end } };

    ghost invariant = { λ s. (s.start ≤ s.end) × (s.end ≤ length s.buffer) × (s.after_mark ≡ false → (s.start ≡ s.end) × (s.given ≡ 0)) };
}

impl<R: Read> Source<R> {
    ghost use Rattle.gq_script.specs.Script.{Takes, given_with_mark, waiting, with_lines};
    ghost use Rattle.std.specs.Io.KnownBytes.{IsAtEnd};
    ghost use Rattle.std.specs.Prelude.{◌≡◌, ◌+◌, ◌≤◌, ◌<◌, [], ◌∷◌, IfOk, IfSome, IfNone, OnOk, OnErr, false, true, length, take};

    pub fn new(reader: R) -> Source<R>
        ensures left { result.left ≡ waiting false [] (R.remaining reader) }
        ensures given { result.given ≡ given_with_mark false 0 (R.remaining reader) }
        ensures lines { result.lines ≡ 0 }
    {
        Source {
            reader,
            buffer: [0; 8192],
            start: 0,
            end: 0,
            after_mark: false,
            given: 0,
            lines: 0,
        }
    }

    /// The number of lines taken so far, including those of payloads.
    pub fn lines(&self) -> u64
        ensures { result ≡ self.now.lines }
    {
        self.lines
    }

    /// Counts lines that were taken. Fails at 2^64 lines.
    pub fn count_lines(&mut self, lines: u64) -> Result<(), ReadFault>
        ensures { OnOk result (self.new ≡ with_lines self.old lines) }
    {
        let Some(lines) = self.lines.checked_add(lines) else {
            return Err(ReadFault);
        };
        self.lines = lines;
        Ok(())
    }

    /// Reads if no byte is waiting, and returns whether one is then; if not, the script has ended.
    /// Fails if a read does, or past `most` bytes; if a byte waited, only the latter.
    #[inline]
    pub fn fill(&mut self, most: u64) -> Result<bool, ReadFault>
        ensures same { OnOk result (Takes self.old self.new []) }
        ensures lines { OnOk result (self.new.lines ≡ self.old.lines) }
        ensures within { OnOk result (self.new.given ≤ most) }
        ensures waits { IfOk result (λ waits. waits ≡ true → 0 < length self.new.ahead) }
        ensures end { IfOk result (λ waits. waits ≡ false → IsAtEnd self.old.left) }
        ensures fault { OnErr result (0 < length self.old.ahead → most < self.old.given) }
    {
        if self.start == self.end {
            let (start, end) = refill(&mut self.reader, &mut self.buffer, self.after_mark)?;
            // The bytes before the start are the mark.
            self.given += start as u64;
            self.start = start;
            self.end = end;
            self.after_mark = true;
        }
        if self.given > most {
            return Err(ReadFault);
        }
        Ok(self.start < self.end)
    }

    /// The bytes that were read ahead and are waiting.
    #[inline]
    pub fn ahead(&self) -> &[u8]
        ensures { result.now ≡ self.now.ahead }
    {
        let buffer: &[u8] = &self.buffer;
        &buffer[self.start..self.end]
    }

    /// Takes the first `len` of the bytes that are waiting, without counting lines. Fails only if
    /// that exceeds `most` bytes of the script, including the mark.
    #[inline]
    pub fn pass(&mut self, len: usize, most: u64) -> Result<(), ReadFault>
        requires { len ≤ length self.old.ahead }
        ensures taken { OnOk result (Takes self.old self.new (take len self.old.ahead)) }
        ensures lines { OnOk result (self.new.lines ≡ self.old.lines) }
        ensures within { OnOk result (self.old.given ≤ most → self.new.given ≤ most) }
        ensures fault { OnErr result (most < self.old.given + len) }
    {
        if most.saturating_sub(self.given) < len as u64 {
            return Err(ReadFault);
        }
        self.start += len;
        self.given += len as u64;
        Ok(())
    }

    /// The next byte, or `None` at the end. Lines aren't counted.
    #[inline]
    pub fn next_byte(&mut self, most: u64) -> Result<Option<u8>, ReadFault>
        ensures some { IfOk result (λ b. IfSome b (λ b. Takes self.old self.new (b ∷ []))) }
        ensures lines { OnOk result (self.new.lines ≡ self.old.lines) }
        ensures within { OnOk result (self.new.given ≤ most) }
        ensures end { IfOk result (λ b. IfNone b (Takes self.old self.new [] × IsAtEnd self.old.left)) }
    {
        if !self.fill(most)? {
            return Ok(None);
        }
        let byte = self.ahead()[0];
        self.pass(1, most)?;
        Ok(Some(byte))
    }
}
