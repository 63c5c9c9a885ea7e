//! Bytes that wait for a writer.
//!
//! They are in an array of fixed size, so that a record of any length is written without an allocation. One array serves all
//! replies of a run: to clear it for each would take as long as a small reply.
ghost use Rattle.std.specs.Prelude.{◌≡◌, ◌≤◌, ◌+◌, ◌++◌, ◌∷◌, [], IfErr, OnOk, length, false, true};
ghost use Rattle.std.specs.Io.KnownBytes.{Appends};
ghost use Rattle.csv.specs.Writing.{default_writer, escaped, field_text, quoted};
ghost use Rattle.gq_reply.specs.Bare.{row_record};
ghost use Rattle.gq_reply.specs.Sending.{AppendsPrefix, Passes};

use crate::bare::write_row;
use crate::plain::needs_quotes;
use crate::sending::{WriteFault, write_whole};
use gq_cells::RowRef;
use std::io::Write;
use std::marker::Model;

/// How many bytes may wait.
pub(crate) const CAPACITY: usize = 16_384;

/// Bytes that wait to be written, seen as their list: memory for one reply after the other.
#[derive(Drop)]
pub struct Buffer {
    bytes: [u8; CAPACITY],
    len: usize,
}

impl Model for Buffer {
    ghost use Rattle.std.specs.Prelude.{List, ℕ, take, ◌≤◌};
    ghost use Rattle.gq_reply.specs.declared.buffer.TheConstants.{CAPACITY};

    ghost Value = { List ℕ };

    ghost view = { λ b. take b.len b.bytes };

    ghost invariant = { λ b. b.len ≤ CAPACITY };
}

impl Buffer {
    pub fn new() -> Buffer
        ensures { result ≡ [] }
    {
        Buffer {
            bytes: [0; CAPACITY],
            len: 0,
        }
    }

    /// Forgets the bytes.
    pub(crate) fn clear(&mut self)
        ensures { self.new ≡ [] }
    {
        self.len = 0;
    }

    pub(crate) fn len(&self) -> usize
        ensures { result ≡ length self.now }
    {
        self.len
    }

    /// Writes the bytes that wait.
    pub(crate) fn empty<W: Write>(&mut self, writer: &mut W) -> Result<(), WriteFault>
        ensures ok { OnOk result (Appends (W.contents writer.old) (W.contents writer.new) self.old) }
        ensures empty { OnOk result (self.new ≡ []) }
        ensures err { IfErr result (λ _. AppendsPrefix (W.contents writer.old) (W.contents writer.new)
            self.old) }
    {
        write_whole(writer, &self.bytes[..self.len])?;
        self.len = 0;
        Ok(())
    }

    // Appends bytes for which there is room.
    fn append(&mut self, bytes: &[u8])
        requires { length self.old + length bytes.now ≤ CAPACITY }
        ensures { self.new ≡ self.old ++ bytes.now }
    {
        let end = self.len + bytes.len();
        self.bytes[self.len..end].copy_from_slice(bytes);
        self.len = end;
    }

    /// Appends the record of a row and returns true; or false if a field isn't plain, or there is no room.
    #[inline(always)]
    pub(crate) fn append_bare(&mut self, row: &RowRef<'_>) -> bool
        ensures appended { result ≡ true → self.new ≡ self.old ++ row_record row.now }
        ensures unchanged { result ≡ false → self.new ≡ self.old }
    {
        match write_row(&mut self.bytes, self.len, row) {
            Some(next) => {
                self.len = next;
                true
            }
            None => false,
        }
    }

    /// Whether more than half of the room is taken.
    pub(crate) fn is_half_full(&self) -> bool {
        self.len > CAPACITY / 2
    }

    /// Appends bytes. If there is no room for them, writes what waits, and then these if they are too long to wait.
    pub(crate) fn push<W: Write>(&mut self, writer: &mut W, bytes: &[u8]) -> Result<(), WriteFault>
        ensures ok { OnOk result (Passes (W.contents writer.old) (W.contents writer.new) self.old self.new
            bytes.now) }
        ensures err { IfErr result (λ _. AppendsPrefix (W.contents writer.old) (W.contents writer.new)
            (self.old ++ bytes.now)) }
    {
        if bytes.len() <= CAPACITY - self.len {
            self.append(bytes);
            return Ok(());
        }
        self.push_over(writer, bytes)
    }

    // As `push`, of bytes for which there is no room.
    fn push_over<W: Write>(&mut self, writer: &mut W, bytes: &[u8]) -> Result<(), WriteFault>
        ensures ok { OnOk result (Passes (W.contents writer.old) (W.contents writer.new) self.old self.new
            bytes.now) }
        ensures err { IfErr result (λ _. AppendsPrefix (W.contents writer.old) (W.contents writer.new)
            (self.old ++ bytes.now)) }
    {
        self.empty(writer)?;
        if bytes.len() > CAPACITY {
            return write_whole(writer, bytes);
        }
        self.append(bytes);
        Ok(())
    }

    /// Appends a field, between quotes if a byte of it needs them.
    pub(crate) fn push_field<W: Write>(
        &mut self,
        writer: &mut W,
        field: &[u8],
    ) -> Result<(), WriteFault>
        ensures ok { OnOk result (Passes (W.contents writer.old) (W.contents writer.new) self.old self.new
            (field_text default_writer field.now)) }
        ensures err { IfErr result (λ _. AppendsPrefix (W.contents writer.old) (W.contents writer.new)
            (self.old ++ field_text default_writer field.now)) }
    {
        if needs_quotes(field) {
            self.push_quoted(writer, field)
        } else {
            self.push(writer, field)
        }
    }

    // Appends a field between quotes, with a quote before each of its own.
    fn push_quoted<W: Write>(&mut self, writer: &mut W, field: &[u8]) -> Result<(), WriteFault>
        ensures ok { OnOk result (Passes (W.contents writer.old) (W.contents writer.new) self.old self.new
            (quoted default_writer field.now)) }
        ensures err { IfErr result (λ _. AppendsPrefix (W.contents writer.old) (W.contents writer.new)
            (self.old ++ quoted default_writer field.now)) }
    {
        self.push(writer, b"\"")?;
        self.push_escaped(writer, field)?;
        self.push(writer, b"\"")
    }

    // Appends bytes, with a quote before each quote.
    fn push_escaped<W: Write>(&mut self, writer: &mut W, field: &[u8]) -> Result<(), WriteFault>
        ensures ok { OnOk result (Passes (W.contents writer.old) (W.contents writer.new) self.old self.new
            (escaped default_writer field.now)) }
        ensures err { IfErr result (λ _. AppendsPrefix (W.contents writer.old) (W.contents writer.new)
            (self.old ++ escaped default_writer field.now)) }
    {
        for byte in field {
            self.push_byte(writer, *byte)?;
        }
        Ok(())
    }

    // Appends a byte, and a quote before it if it is one.
    #[inline(always)]
    fn push_byte<W: Write>(&mut self, writer: &mut W, byte: u8) -> Result<(), WriteFault>
        ensures ok { OnOk result (Passes (W.contents writer.old) (W.contents writer.new) self.old self.new
            (escaped default_writer (byte ∷ []))) }
        ensures err { IfErr result (λ _. AppendsPrefix (W.contents writer.old) (W.contents writer.new)
            (self.old ++ escaped default_writer (byte ∷ []))) }
    {
        if byte == b'"' {
            self.push(writer, b"\"\"")
        } else {
            self.push(writer, &[byte])
        }
    }
}
