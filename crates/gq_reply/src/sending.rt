//! Bytes sent to a writer.
ghost use Rattle.std.specs.Prelude.{◌≡◌, IfErr, OnOk};
ghost use Rattle.std.specs.Io.KnownBytes.{Appends, Keeps};
ghost use Rattle.gq_reply.specs.Sending.{AppendsPrefix};

use std::io::Write;
use thiserror::Error;

/// A write or a flush that failed, or a write that took no byte.
#[derive(Clone, Copy, Debug, PartialEq, Eq, Error)]
#[error("a write failed")]
pub struct WriteFault;

/// Writes all the bytes, and flushes. Any error is a fault, also an interrupted call; a prefix of
/// the bytes was written then.
pub fn send<W: Write>(writer: &mut W, bytes: &[u8]) -> Result<(), WriteFault>
    ensures ok { OnOk result (Appends (W.contents writer.old) (W.contents writer.new) bytes.now) }
    ensures err { IfErr result (λ _. AppendsPrefix (W.contents writer.old) (W.contents writer.new)
        bytes.now) }
{
    write_whole(writer, bytes)?;
    flush(writer)
}

/// As [`send`], without the flush.
pub(crate) fn write_whole<W: Write>(writer: &mut W, bytes: &[u8]) -> Result<(), WriteFault>
    ensures ok { OnOk result (Appends (W.contents writer.old) (W.contents writer.new) bytes.now) }
    ensures err { IfErr result (λ _. AppendsPrefix (W.contents writer.old) (W.contents writer.new)
        bytes.now) }
{
    let mut at = 0;
    while at < bytes.len() {
        let (_sent, rest) = bytes.split_at(at);
        match writer.write(rest) {
            Ok(0) => return Err(WriteFault),
            Ok(n) => at += n,
            Err(_e) => return Err(WriteFault),
        }
    }
    Ok(())
}

/// Flushes. Any error is a fault.
pub(crate) fn flush<W: Write>(writer: &mut W) -> Result<(), WriteFault>
    ensures { Keeps (W.contents writer.old) (W.contents writer.new) }
{
    match writer.flush() {
        Ok(()) => Ok(()),
        Err(_e) => Err(WriteFault),
    }
}
