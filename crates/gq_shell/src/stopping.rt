//! What the program says where no script is run, and the exit status of that.
ghost use Rattle.gq_shell.specs.Program.{AnsweredBadLine, Stopped, StoppedBy, StoppedForMemory};
ghost use Rattle.gq_shell.specs.Streams.{stream};

use crate::writing::{CutShort, write_text};
use gq_options::BadLine;
use std::io::{Error, ErrorKind, Write};

/// Answers a command line that asks for no run: help and the version go to `replies`, all else to
/// `errors`.
pub fn answer_bad_line<W: Write, E: Write>(bad: &BadLine, replies: &mut W, errors: &mut E) -> u8
    ensures { AnsweredBadLine bad.now (stream W.contents replies.old replies.new)
        (stream E.contents errors.old errors.new) result }
{
    match bad {
        BadLine::Help(text) | BadLine::Version(text) => match write_text(text.as_str(), replies) {
            Ok(()) => 0,
            Err(CutShort) => stop("groupsh: write fault\n", 3, errors),
        },
        BadLine::Mistake(text) => stop(text.as_str(), 2, errors),
        BadLine::Memory => stop_for_memory(errors),
    }
}

/// Reports an error before a run: a failed allocation as such, any other by the text and the status.
pub fn answer_error<E: Write>(error: &Error, text: &str, status: u8, errors: &mut E) -> u8
    ensures { StoppedBy error.now text.now status (stream E.contents errors.old errors.new) result }
{
    if error.kind() == ErrorKind::OutOfMemory {
        stop_for_memory(errors)
    } else {
        stop(text, status, errors)
    }
}

/// Reports a failed allocation before a run, and returns its status.
pub fn stop_for_memory<E: Write>(errors: &mut E) -> u8
    ensures { StoppedForMemory (stream E.contents errors.old errors.new) result }
{
    stop("groupsh: out of memory\n", 3, errors)
}

/// Reports why the program stops, and returns the status. A write fault then is ignored.
pub fn stop<E: Write>(text: &str, status: u8, errors: &mut E) -> u8
    ensures { Stopped (stream E.contents errors.old errors.new) text.now status result }
{
    let _written = write_text(text, errors);
    status
}
