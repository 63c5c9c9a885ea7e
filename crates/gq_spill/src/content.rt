//! The content of a run.
ghost use Rattle.std.specs.Prelude.{◌≡◌, ◌≤◌, ◌++◌, [], length, take, drop, OnOk};

use std::alloc::{AllocError, Global};
use std::marker::Model;

/// The bytes of a run, seen as their list.
#[derive(Drop)]
pub struct Content {
    bytes: Vec<u8>,
}

impl Model for Content {
    ghost use Rattle.std.specs.Prelude.{List, ℕ};

    ghost Value = { List ℕ };

    ghost view = { λ content. content.bytes.items };
}

impl Content {
    // An empty content. It takes no memory.
    pub(crate) fn new(alloc: Global) -> Content
        ensures { result ≡ [] }
    {
        Content {
            bytes: Vec::new(alloc),
        }
    }

    pub(crate) fn append(&mut self, bytes: &[u8]) -> Result<(), AllocError>
        ensures { OnOk result (self.new ≡ self.old ++ bytes.now) }
    {
        self.bytes.extend_from_slice(bytes)?;
        Ok(())
    }

    pub(crate) fn as_slice(&self) -> &[u8]
        ensures { result.now ≡ self.now }
    {
        self.bytes.as_slice()
    }
}

// Copies as many bytes of `content` as fit into the buffer, from position `at` on, and returns how many.
pub(crate) fn copy_from(content: &[u8], at: usize, buffer: &mut [u8]) -> usize
    ensures within { result ≤ length buffer.old }
    ensures bytes { take result buffer.new ≡ take (length buffer.old) (drop at content.now) }
{
    let (_, rest) = content.split_at(at.min(content.len()));
    let count = rest.len().min(buffer.len());
    buffer[..count].copy_from_slice(&rest[..count]);
    count
}
