//! Readers and writers that misbehave.
use std::alloc::Global;
use std::io::{self, ErrorKind, Read, Write};

/// Returns its bytes in pieces of at most `size`, and fails once, at call `fails_at`, counted from
/// 1. Later calls succeed.
#[derive(Drop)]
pub struct Pieces<'a> {
    pub bytes: &'a [u8],
    pub size: usize,
    pub fails_at: usize,
    pub error: ErrorKind,
}

impl<'a> Pieces<'a> {
    /// Pieces that never fail.
    pub fn of(bytes: &'a [u8], size: usize) -> Pieces<'a> {
        Pieces {
            bytes,
            size,
            fails_at: usize::MAX,
            error: ErrorKind::Other,
        }
    }

    /// Pieces of one byte; one read fails.
    pub fn failing(bytes: &'a [u8], fails_at: usize, error: ErrorKind) -> Pieces<'a> {
        Pieces {
            bytes,
            size: 1,
            fails_at,
            error,
        }
    }
}

impl<'a> Read for Pieces<'a> {
    fn read(&mut self, buffer: &mut [u8]) -> io::Result<usize> {
        self.fails_at = self.fails_at.saturating_sub(1);
        if self.fails_at == 0 {
            self.fails_at = usize::MAX;
            return Err(self.error.into());
        }
        let count = self.size.min(buffer.len()).min(self.bytes.len());
        buffer[..count].copy_from_slice(&self.bytes[..count]);
        self.bytes = &self.bytes[count..];
        Ok(count)
    }
}

/// Returns two bytes over and over, without an end.
#[derive(Drop)]
pub struct Endless {
    pub bytes: [u8; 2],
    pub given: u64,
}

impl Read for Endless {
    fn read(&mut self, buffer: &mut [u8]) -> io::Result<usize> {
        let mut count = 0;
        for place in buffer.iter_mut() {
            *place = if self.given % 2 == 0 {
                self.bytes[0]
            } else {
                self.bytes[1]
            };
            self.given = self.given.wrapping_add(1);
        }
        count += buffer.len();
        Ok(count)
    }
}

/// What goes wrong with a writer.
#[derive(Clone, Copy, Debug, PartialEq, Eq)]
pub enum Trouble {
    /// A write fails with this error and takes nothing.
    Write(ErrorKind),
    /// A write takes nothing.
    Full,
    /// A flush fails with this error.
    Flush(ErrorKind),
}

/// Takes at most `most` bytes at each write, and has trouble once, at its k-th write or flush; the
/// two are counted separately, from 1. Later calls succeed.
#[derive(Drop)]
pub struct Fussy {
    pub written: Vec<u8>,
    pub most: usize,
    pub trouble: Trouble,
    pub writes_left: usize,
    pub flushes_left: usize,
}

impl Fussy {
    /// A writer with trouble at the k-th call of its kind.
    pub fn new(alloc: Global, most: usize, trouble: Trouble, k: usize) -> Fussy {
        let is_flush = matches!(trouble, Trouble::Flush(_));
        Fussy {
            written: Vec::new(alloc),
            most,
            trouble,
            writes_left: if is_flush { usize::MAX } else { k },
            flushes_left: if is_flush { k } else { usize::MAX },
        }
    }
}

impl Write for Fussy {
    fn write(&mut self, bytes: &[u8]) -> io::Result<usize> {
        self.writes_left = self.writes_left.saturating_sub(1);
        if self.writes_left == 0 {
            self.writes_left = usize::MAX;
            return match self.trouble {
                Trouble::Write(error) => Err(error.into()),
                _ => Ok(0),
            };
        }
        let count = self.most.min(bytes.len());
        if self.written.extend_from_slice(&bytes[..count]).is_err() {
            return Err(ErrorKind::OutOfMemory.into());
        }
        Ok(count)
    }

    fn flush(&mut self) -> io::Result<()> {
        self.flushes_left = self.flushes_left.saturating_sub(1);
        if self.flushes_left == 0 {
            self.flushes_left = usize::MAX;
            if let Trouble::Flush(error) = self.trouble {
                return Err(error.into());
            }
        }
        Ok(())
    }
}
