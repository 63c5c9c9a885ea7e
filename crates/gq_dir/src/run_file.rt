//! The file of a run.
ghost use Rattle.std.specs.Prelude.{◌≤◌, length, IfOk};

use gq_spill::StoreError;
use std::alloc::Global;
use std::io::{Read, Seek, SeekFrom, Write};

// The most bytes that are buffered, to be written in one piece.
const WAITING: usize = 65_536;

/// A file with the bytes of a run, but for the last, which are buffered.
#[derive(Drop)]
pub struct RunFile<F: Drop> {
    file: F,
    // The number of bytes that were written to the file.
    written: u64,
    waiting: Vec<u8>,
    // Whether the file's position is its end.
    is_at_end: bool,
}

impl<F: Read + Write + Seek + Drop> RunFile<F> {
    /// An empty run, in an empty file.
    pub fn new(alloc: Global, file: F) -> RunFile<F> {
        RunFile {
            file,
            written: 0,
            waiting: Vec::new(alloc),
            is_at_end: true,
        }
    }

    /// Appends bytes. Small pieces are buffered; if writing them fails, the later call reports it.
    pub fn append(&mut self, bytes: &[u8]) -> Result<(), StoreError> {
        if bytes.len() >= WAITING || self.waiting.len() > WAITING - bytes.len() {
            self.write_waiting()?;
        }
        if bytes.len() >= WAITING {
            return write_at_end(
                &mut self.file,
                &mut self.written,
                &mut self.is_at_end,
                bytes,
            );
        }
        match self.waiting.extend_from_slice(bytes) {
            Ok(()) => Ok(()),
            Err(_) => Err(StoreError::Memory),
        }
    }

    // Writes the buffered bytes.
    fn write_waiting(&mut self) -> Result<(), StoreError> {
        if self.waiting.is_empty() {
            return Ok(());
        }
        write_at_end(
            &mut self.file,
            &mut self.written,
            &mut self.is_at_end,
            self.waiting.as_slice(),
        )?;
        self.waiting.clear();
        Ok(())
    }

    /// Reads from a position on, as many bytes as there are and fit into the buffer. It fails if the file has
    /// fewer bytes than were written.
    pub fn read(&mut self, at: u64, buffer: &mut [u8]) -> Result<usize, StoreError>
        ensures { IfOk result (λ count. count ≤ length buffer.old) }
    {
        self.write_waiting()?;
        let left = self.written.saturating_sub(at);
        let count = left.min(buffer.len() as u64) as usize;
        self.is_at_end = false;
        if self.file.seek(SeekFrom::Start(at)).is_err()
            || self.file.read_exact(&mut buffer[..count]).is_err()
        {
            return Err(StoreError::Fault);
        }
        Ok(count)
    }
}

// Appends all bytes to a file, however few of them a write takes.
fn write_at_end<F: Write + Seek>(
    file: &mut F,
    written: &mut u64,
    is_at_end: &mut bool,
    bytes: &[u8],
) -> Result<(), StoreError> {
    if !*is_at_end && file.seek(SeekFrom::Start(*written)).is_err() {
        return Err(StoreError::Fault);
    }
    // A failed write may leave a part of the bytes, which the next write overwrites.
    *is_at_end = false;
    if file.write_all(bytes).is_err() {
        return Err(StoreError::Fault);
    }
    *is_at_end = true;
    *written = written.saturating_add(bytes.len() as u64);
    Ok(())
}
