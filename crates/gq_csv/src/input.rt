//! A source's bytes, read ahead.
ghost use Rattle.std.specs.Prelude.{◌≡◌, ◌+◌, ◌-◌, ◌≤◌, ◌<◌, take, drop, length, IfOk};
ghost use Rattle.std.specs.Io.KnownBytes.{Consumes, IsAtEnd};

use std::alloc::{AllocError, Global};
use std::io;
use std::io::Read;
use std::marker::Model;

// The number of bytes that are read at once.
const CAPACITY: usize = 8_192;

/// A source with a buffer. Seen as the bytes that were taken last, which stay in the buffer until more
/// are read, those that were read ahead, and those that the source has yet to give, if they are known.
#[derive(Drop)]
pub(crate) struct Input<R: Read> {
    source: R,
    buffer: Vec<u8>,
    taken: usize,
    start: usize,
    filled: usize,
    is_at_end: bool,
}

impl<R: Read> Model for Input<R> {
    ghost use Rattle.std.specs.Prelude.{◌≡◌, ◌-◌, ◌≤◌, ◌<◌, true, take, drop, length};
    ghost use Rattle.std.specs.Io.KnownBytes.{IsAtEnd};
    ghost use Rattle.gq_csv.specs.Inputs.{Ahead};

    ghost Value = { Ahead };

    ghost view = { λ i. record {
      taken = take (i.start - i.taken) (drop i.taken i.buffer.items);
      ahead = take (i.filled - i.start) (drop i.start i.buffer.items);
      after = R.remaining i.source;
    } };

    ghost invariant = { λ i. (i.taken ≤ i.start) × (i.start ≤ i.filled)
        × (i.filled ≤ length i.buffer.items) × (length i.buffer.items ≡ 8192)
        × (i.is_at_end ≡ true → IsAtEnd (R.remaining i.source)) };
}

impl<R: Read + Drop> Input<R> {
    ghost use Rattle.std.specs.Prelude.{◌≡◌, [], IfOk};

    /// The bytes of a source.
    pub(crate) fn new(alloc: Global, source: R) -> Result<Input<R>, AllocError>
        ensures { IfOk result (λ input. input ≡ record { taken = []; ahead = []; after = R.remaining source }) }
    {
        let buffer = vec![in alloc; 0u8; CAPACITY]?;
        Ok(Input {
            source,
            buffer,
            taken: 0,
            start: 0,
            filled: 0,
            is_at_end: false,
        })
    }
}

impl<R: Read> Input<R> {
    ghost use Rattle.std.specs.Prelude.{◌≡◌, ◌≤◌, ◌<◌, [], true, false, IfOk, OnOk, take, drop, length};
    ghost use Rattle.std.specs.Io.KnownBytes.{IsAtEnd, Keeps};
    ghost use Rattle.gq_csv.specs.Inputs.{known};

    /// The bytes that were taken last.
    #[inline(always)]
    pub(crate) fn taken(&self) -> &[u8]
        ensures { result.now ≡ self.now.taken }
    {
        &self.buffer[self.taken..self.start]
    }

    /// The bytes that were read ahead.
    #[inline(always)]
    pub(crate) fn ahead(&self) -> &[u8]
        ensures { result.now ≡ self.now.ahead }
    {
        &self.buffer[self.start..self.filled]
    }

    /// Takes the first `count` of the bytes that were read ahead.
    #[inline(always)]
    pub(crate) fn take(&mut self, count: usize)
        requires { count ≤ length self.old.ahead }
        ensures taken { self.new.taken ≡ take count self.old.ahead }
        ensures ahead { self.new.ahead ≡ drop count self.old.ahead }
        ensures after { self.new.after ≡ self.old.after }
    {
        self.taken = self.start;
        self.start += count;
    }

    /// Reads more bytes ahead, and returns whether there were any. If the buffer is full there are
    /// none.
    pub(crate) fn refill(&mut self) -> io::Result<bool>
        ensures bytes { OnOk result (Keeps (known self.old) (known self.new)) }
        ensures more { IfOk result (λ more. more ≡ true →
            length self.old.ahead < length self.new.ahead) }
        ensures end { IfOk result (λ more. more ≡ false → length self.old.ahead < 8192 →
            (self.new.ahead ≡ self.old.ahead) × IsAtEnd self.new.after) }
    {
        if self.is_at_end {
            return Ok(false);
        }
        let held = self.filled - self.start;
        move_front(&mut self.buffer, self.start, self.filled);
        self.taken = 0;
        self.start = 0;
        self.filled = held;
        let count = read_after(&mut self.source, self.buffer.as_mut_slice(), held)?;
        self.filled = held + count;
        self.is_at_end = count == 0 && held < self.buffer.len();
        Ok(count > 0)
    }
}

// Moves a range of the bytes to the start.
fn move_front(bytes: &mut Vec<u8>, start: usize, end: usize)
    requires ordered { start ≤ end }
    requires within { end ≤ length bytes.old.items }
    ensures front { take (end - start) bytes.new.items ≡ take (end - start) (drop start
        bytes.old.items) }
    ensures len { length bytes.new.items ≡ length bytes.old.items }
{
    if start > 0 {
        bytes.as_mut_slice().copy_within(start..end, 0);
    }
}

// Reads bytes of a source, and stores them after the first `held`.
fn read_after<R: Read>(source: &mut R, bytes: &mut [u8], held: usize) -> io::Result<usize>
    requires { held ≤ length bytes.old }
    ensures len { length bytes.new ≡ length bytes.old }
    ensures held { take held bytes.new ≡ take held bytes.old }
    ensures bound { IfOk result (λ n. held + n ≤ length bytes.old) }
    ensures bytes { IfOk result (λ n. Consumes (R.remaining source.old) (R.remaining source.new)
        (take n (drop held bytes.new))) }
    ensures end { IfOk result (λ n. n ≡ 0 → held < length bytes.old →
        IsAtEnd (R.remaining source.new)) }
{
    source.read(&mut bytes[held..])
}
