//! Texts written to a stream.
ghost use Rattle.gq_shell.specs.Streams.{Written, stream};

use std::io::Write;

/// A text was not taken whole: a write or a flush failed, or a write took no byte.
#[derive(Clone, Copy, Debug, PartialEq, Eq, thiserror::Error)]
#[error("cut short")]
pub struct CutShort;

/// Writes a text, and flushes. Any error ends it, also an interrupted call; a prefix of the text was
/// written then.
pub fn write_text<W: Write>(text: &str, writer: &mut W) -> Result<(), CutShort>
    ensures { Written (stream W.contents writer.old writer.new) text.now result }
{
    let bytes = text.as_bytes();
    let mut at = 0;
    while at < bytes.len() {
        let (_written, left) = bytes.split_at(at);
        match writer.write(left) {
            Ok(0) => return Err(CutShort),
            Ok(n) => at += n,
            Err(_e) => return Err(CutShort),
        }
    }
    match writer.flush() {
        Ok(()) => Ok(()),
        Err(_e) => Err(CutShort),
    }
}
