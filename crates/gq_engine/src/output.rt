//! What a run writes of its replies.
ghost use Rattle.std.specs.Option.{option_map_or};
ghost use Rattle.std.specs.Prelude.{◌≡◌, ◌||◌, IfErr, IfNone, IfOk, IfSome, OnOk, [], false, is_some, string_bytes, true};
ghost use Rattle.std.specs.Io.KnownBytes.{Appends};
ghost use Rattle.gq_reply.specs.Replies.{IsLine};
ghost use Rattle.gq_command.specs.Script.{Gathers, Numbered, line_of};
ghost use Rattle.gq_engine.specs.Outputs.{Diagnosed, IsDiagnosed, IsDirect, Complains, between, complaint, is_result, line_in, result_in, text_as};
ghost use Rattle.gq_reply.specs.Sending.{AppendsPrefix};

use gq_cells::Rows;
use gq_check::{Fault, report_of};
use gq_command::{CommandReader, OpenLine};
use gq_format::{Format, RefusalText, diagnosis_text, refusal_text, result_text, separator};
use gq_reply::{Buffer, Refusal, Reply, WriteFault, line_of, rows_text, send, send_records};
use gq_row::{Limits, Sequence, Text};
use std::alloc::{AllocError, Global};
use std::io::{Read, Write};

/// What a run writes.
#[derive(Clone, Copy, Debug, PartialEq, Eq)]
pub enum Output {
    /// The reply to each command.
    Replies,
    /// The results of queries alone, in a format. Refusals go to the standard error.
    Results(Format),
}

/// Whether a result came, by whether one came earlier and by the next reply.
pub(crate) fn had_result(earlier: bool, reply: &Reply) -> bool
    ensures { result ≡ (earlier || is_result reply.now) }
{
    match reply {
        Reply::Rows { header: _, rows: _ } => true,
        Reply::Done(_) => earlier,
        Reply::Refused { code: _, number: _ } => earlier,
    }
}

/// The text of a result in an output, if it is made before it is sent; `None` for CSV records, which take no memory.
pub(crate) fn whole_text(
    alloc: Global,
    buffer: &mut Buffer,
    output: Output,
    header: &Sequence<Text>,
    rows: &Rows,
) -> Result<Option<Vec<u8>>, AllocError>
    ensures made { IfOk result (λ made. IfSome made (λ bytes. bytes.items ≡ result_in output header.now rows.now)) }
    ensures records { IfOk result (λ made. IfNone made (output ≡ Output.Results Format.Csv)) }
{
    match output {
        Output::Replies => Ok(Some(rows_text(alloc, buffer, header, rows)?)),
        Output::Results(Format::Csv) => Ok(None),
        Output::Results(format @ (Format::Json | Format::Box)) => {
            Ok(Some(result_text(alloc, format, header, rows)?))
        }
    }
}

/// Writes what comes before a result, if another came earlier.
pub(crate) fn send_between<W: Write>(
    writer: &mut W,
    output: Output,
    earlier: bool,
) -> Result<(), WriteFault>
    ensures ok { OnOk result (Appends (W.contents writer.old) (W.contents writer.new) (between output earlier)) }
    ensures err { IfErr result (λ _. AppendsPrefix (W.contents writer.old) (W.contents writer.new)
        (between output earlier)) }
{
    match output {
        Output::Results(format) if earlier => send(writer, separator(format)),
        Output::Replies | Output::Results(_) => Ok(()),
    }
}

/// Writes a reply that is no result.
pub(crate) fn send_line<W: Write>(
    writer: &mut W,
    output: Output,
    reply: &Reply,
) -> Result<(), WriteFault>
    requires { IsLine reply.now }
    ensures ok { OnOk result (Appends (W.contents writer.old) (W.contents writer.new) (line_in output reply.now)) }
    ensures err { IfErr result (λ _. AppendsPrefix (W.contents writer.old) (W.contents writer.new)
        (line_in output reply.now)) }
{
    match output {
        Output::Replies => send(writer, line_of(reply).as_slice()),
        Output::Results(_) => Ok(()),
    }
}

/// Writes what the output has of a reply that takes no memory.
pub(crate) fn send_direct<W: Write>(
    buffer: &mut Buffer,
    writer: &mut W,
    output: Output,
    earlier: bool,
    reply: &Reply,
) -> Result<(), WriteFault>
    requires { IsDirect output reply.now }
    ensures ok { OnOk result (Appends (W.contents writer.old) (W.contents writer.new) (text_as output earlier reply.now)) }
    ensures err { IfErr result (λ _. AppendsPrefix (W.contents writer.old) (W.contents writer.new)
        (text_as output earlier reply.now)) }
{
    match reply {
        Reply::Rows { header, rows } => {
            send_between(writer, output, earlier)?;
            send_records(buffer, writer, header, rows)
        }
        Reply::Done(_) | Reply::Refused { code: _, number: _ } => send_line(writer, output, reply),
    }
}

/// Reports refused commands on the standard error, until a write fails.
#[derive(Drop)]
pub(crate) struct Complaints {
    pub(crate) output: Output,
    pub(crate) is_open: bool,
}

impl Complaints {
    /// Reports the reply to the last item, if it is a refusal.
    #[inline]
    pub(crate) fn report<R: Read, E: Write>(
        &mut self,
        alloc: Global,
        limits: &Limits,
        script: &CommandReader<R>,
        reply: &Reply,
        errors: &mut E,
    )
        ensures output { self.new.output ≡ self.old.output }
        ensures reported { Complains limits.now.bounds self.old.output script.now.line script.now.wrong reply.now self.old.is_open self.new.is_open
            (E.contents errors.old) (E.contents errors.new) }
        ensures quiet { self.old.output ≡ Output.Replies → errors.new ≡ errors.old }
    {
        if !self.is_open {
            return;
        }
        if !reply.is_refusal() {
            return;
        }
        self.report_refusal(alloc, limits, script, reply, errors);
    }

    // Reports a reply, if it is a refusal.
    fn report_refusal<R: Read, E: Write>(
        &mut self,
        alloc: Global,
        limits: &Limits,
        script: &CommandReader<R>,
        reply: &Reply,
        errors: &mut E,
    )
        requires { self.old.is_open ≡ true }
        ensures output { self.new.output ≡ self.old.output }
        ensures reported { Complains limits.now.bounds self.old.output script.now.line script.now.wrong reply.now self.old.is_open self.new.is_open
            (E.contents errors.old) (E.contents errors.new) }
        ensures quiet { self.old.output ≡ Output.Replies → errors.new ≡ errors.old }
    {
        let line = script.line();
        let wrong = script.wrong_line();
        if let Some(text) = diagnosed(alloc, limits, self.output, line, wrong, reply) {
            self.is_open = send(errors, text.as_bytes()).is_ok();
            return;
        }
        if let Some(text) = complaint(self.output, line, reply) {
            self.is_open = send(errors, text.as_str().as_bytes()).is_ok();
        }
    }
}

// The diagnosis of a line that is no command, if there is memory for it.
fn diagnosed(
    alloc: Global,
    limits: &Limits,
    output: Output,
    line: u64,
    wrong: &Option<OpenLine>,
    reply: &Reply,
) -> Option<String>
    ensures text { IfSome result (λ text. (item : Numbered) → item.number ≡ line
        → IfSome wrong.now (λ kept. Gathers limits.now.bounds.line kept (line_of item.entry))
        → IsDiagnosed output item reply.now (string_bytes text)) }
    ensures quiet { output ≡ Output.Replies → is_some result ≡ false }
{
    let Some(wrong) = wrong else {
        return None;
    };
    match (output, reply) {
        (
            Output::Results(_),
            Reply::Refused {
                code: Refusal::Syntax,
                number,
            },
        ) => { diagnosis_of(alloc, limits, line, wrong, *number).ok() }
        _ => None,
    }
}

// The text of that diagnosis.
fn diagnosis_of(
    alloc: Global,
    limits: &Limits,
    line: u64,
    wrong: &OpenLine,
    number: Option<u64>,
) -> Result<String, AllocError>
    ensures { IfOk result (λ text. (item : Numbered) → item.number ≡ line
        → Gathers limits.now.bounds.line wrong.now (line_of item.entry) → Diagnosed item number (string_bytes text)) }
{
    let report = report_of(alloc, line, Fault::Syntax, wrong, limits)?;
    let message = report.message.as_str();
    diagnosis_text(alloc, line, Refusal::Syntax, number, report.column, message)
}

// What is reported of the reply to the command on a line.
fn complaint(output: Output, line: u64, reply: &Reply) -> Option<RefusalText>
    ensures text { complaint output line reply.now ≡ option_map_or (λ text. text.bytes) result [] }
    ensures quiet { output ≡ Output.Replies → is_some result ≡ false }
{
    match (output, reply) {
        (Output::Results(_), Reply::Refused { code, number }) => {
            Some(refusal_text(line, *code, *number))
        }
        (Output::Results(_), Reply::Done(_) | Reply::Rows { header: _, rows: _ }) => None,
        (Output::Replies, _) => None,
    }
}
