//! A script that is checked, and not run.
ghost use Rattle.std.specs.Prelude.{◌≡◌, Option};
ghost use Rattle.std.specs.Fn.{FnReturnsAt};
ghost use Rattle.gq_options.specs.Words.{asked_by};
ghost use Rattle.gq_command.specs.Commands.{Bytes};
ghost use Rattle.gq_shell.specs.Checking.{Begins, CheckedGiven, CheckedNamed, CheckedScript, WroteReport, ReportedAs};
ghost use Rattle.gq_shell.specs.Sources.{sources_of};
ghost use Rattle.gq_shell.specs.Streams.{stream};

use crate::script::script_of;
use crate::stopping::{answer_error, stop, stop_for_memory};
use crate::streams::Streams;
use crate::writing::{CutShort, write_text};
use gq_check::{CheckFault, Checker, Report};
use gq_options::Options;
use gq_row::Limits;
use std::alloc::{AllocError, Global};
use std::io::{self, Read, Write};

/// Why a check stopped before the script's end.
#[derive(Clone, Copy)]
pub enum CheckStop {
    /// A read failed, or the script has more bytes than the limit.
    Read,
    /// A report was not taken whole.
    Write,
    /// A request for memory was refused.
    Memory,
}

/// Reports what reading refuses of the commands of the command line, or of the script, and returns
/// the exit status: 0 if it refuses nothing, 1 if it does, 3 after a fault.
pub fn check_script<R, S, F, W, E>(
    alloc: Global,
    options: &Options,
    opener: F,
    streams: &mut Streams<R, W, E>,
) -> u8
where
    R: Read,
    S: Read + Drop,
    F: Fn(&str) -> io::Result<S>,
    W: Write,
    E: Write,
    requires { F.IsAlwaysCallable opener }
    ensures { CheckedGiven
        (sources_of (R.remaining streams.old.input) S.remaining
        (λ name opened. FnReturnsAt F.Fn opener name opened))
        (asked_by options.now).script (asked_by options.now).commands (stream W.contents streams.old.replies streams.new.replies)
        (stream E.contents streams.old.errors streams.new.errors) result }
{
    if options.commands.is_empty() {
        return check_named(alloc, options, opener, streams);
    }
    let (replies, errors) = (&mut streams.replies, &mut streams.errors);
    match script_of(alloc, options.commands.as_slice()) {
        Ok(script) => check_open(alloc, "<command>", script.as_bytes(), replies, errors),
        Err(AllocError) => stop_for_memory(errors),
    }
}

// Likewise of the script of a path, or of the standard input.
fn check_named<R, S, F, W, E>(
    alloc: Global,
    options: &Options,
    opener: F,
    streams: &mut Streams<R, W, E>,
) -> u8
where
    R: Read,
    S: Read + Drop,
    F: Fn(&str) -> io::Result<S>,
    W: Write,
    E: Write,
    requires { F.IsAlwaysCallable opener }
    ensures { CheckedNamed
        (sources_of (R.remaining streams.old.input) S.remaining
        (λ name opened. FnReturnsAt F.Fn opener name opened))
        (asked_by options.now).script (stream W.contents streams.old.replies streams.new.replies)
        (stream E.contents streams.old.errors streams.new.errors) result }
{
    let (input, replies, errors) = (
        &mut streams.input,
        &mut streams.replies,
        &mut streams.errors,
    );
    match options.script {
        None => check_open(alloc, "<stdin>", input, replies, errors),
        Some(path) => match opener(path) {
            Ok(script) => check_open(alloc, path, script, replies, errors),
            Err(error) => answer_error(&error, "groupsh: cannot open script\n", 3, errors),
        },
    }
}

// Checks a script that is open.
fn check_open<R: Read + Drop, W: Write, E: Write>(
    alloc: Global,
    name: &str,
    script: R,
    replies: &mut W,
    errors: &mut E,
) -> u8
    ensures { CheckedScript name.now (R.remaining script) (stream W.contents replies.old replies.new)
        (stream E.contents errors.old errors.new) result }
{
    match write_reports(alloc, name, script, replies) {
        Ok(true) => 1,
        Ok(false) => 0,
        Err(CheckStop::Read) => stop("groupsh: read fault\n", 3, errors),
        Err(CheckStop::Write) => stop("groupsh: write fault\n", 3, errors),
        Err(CheckStop::Memory) => stop_for_memory(errors),
    }
}

// Writes the reports of a script one by one, each as soon as its item was read, and returns whether
// there was one.
fn write_reports<R: Read + Drop, W: Write>(
    alloc: Global,
    name: &str,
    script: R,
    replies: &mut W,
) -> Result<bool, CheckStop>
    ensures { ReportedAs name.now (R.remaining script) (stream W.contents replies.old replies.new) result }
{
    let mut checker = Checker::new(script);
    report_all(alloc, name, &mut checker, replies)
}

// Writes the reports that a checker still finds.
fn report_all<R: Read, W: Write>(
    alloc: Global,
    name: &str,
    checker: &mut Checker<R>,
    replies: &mut W,
) -> Result<bool, CheckStop>
    ensures { (script : Option Bytes) → Begins script checker.old → ReportedAs name.now script (stream W.contents replies.old replies.new) result }
{
    let limits = Limits::greatest();
    let mut any = false;
    for _ in 0..u64::MAX {
        let report = match checker.next(alloc, &limits) {
            Ok(Some(report)) => report,
            Ok(None) => return Ok(any),
            Err(fault) => return Err(stop_of(fault)),
        };
        write_report(alloc, name, &report, replies)?;
        any = true;
    }
    Err(CheckStop::Read)
}

// Writes a report.
fn write_report<W: Write>(
    alloc: Global,
    name: &str,
    report: &Report,
    replies: &mut W,
) -> Result<(), CheckStop>
    ensures { WroteReport name.now report.now (stream W.contents replies.old replies.new) result }
{
    let Ok(text) = report.text(alloc, name) else {
        return Err(CheckStop::Memory);
    };
    match write_text(text.as_str(), replies) {
        Ok(()) => Ok(()),
        Err(CutShort) => Err(CheckStop::Write),
    }
}

// Why a fault stops a check.
fn stop_of(fault: CheckFault) -> CheckStop {
    match fault {
        CheckFault::Read => CheckStop::Read,
        CheckFault::Memory => CheckStop::Memory,
    }
}
