//! Reads a script item by item, and reports each item that is refused.
ghost use Rattle.std.specs.Prelude.{◌≡◌, ◌≢◌, ◌≤◌, ◌+◌, false, IfOk, OnOk, length, string_bytes};
ghost use Rattle.gq_token.specs.Texts.{Bytes};
ghost use Rattle.gq_script.specs.Gathering.{Gathers};
ghost use Rattle.gq_script.specs.Script.{Plain, is_skipped};
ghost use Rattle.gq_check.specs.Findings.{IsFaultOf};
ghost use Rattle.gq_check.specs.Reports.{IsOneLine, limit_message};
ghost use Rattle.gq_check.specs.Stepping.{TookItem};
ghost use Rattle.gq_check.specs.declared.fault.Fault.TheVariants as why;

use crate::fault::{CheckFault, Fault};
use crate::message::message_of;
use crate::payload::pass_payload;
use crate::refusal::refusal_of;
use crate::report::Report;
use gq_command::LineRefusal;
use gq_row::Limits;
use gq_script::{OpenLine, Opening, Source, take_line};
use std::alloc::{AllocError, Global};
use std::io::Read;
use std::marker::Model;

/// The fault, if any, of a line that is neither blank nor a comment.
fn fault_of(alloc: Global, line: &OpenLine, limits: &Limits) -> Result<Option<Fault>, AllocError>
    ensures { (text : Bytes) → Gathers limits.now.bounds.line line.now text → is_skipped text ≡ false → IfOk result (IsFaultOf limits.now.bounds (Plain text)) }
{
    if line.too_long {
        return Ok(Some(Fault::LineTooLong));
    }
    if line.lost {
        return Err(AllocError);
    }
    // A lone dash isn't a token.
    if matches!(line.opening, Opening::Dash) {
        return Ok(Some(Fault::Syntax));
    }
    match refusal_of(alloc, line.kept.as_slice(), limits) {
        None => Ok(None),
        Some(LineRefusal::Syntax) => Ok(Some(Fault::Syntax)),
        Some(LineRefusal::LineTooLong) => Ok(Some(Fault::LineTooLong)),
        Some(LineRefusal::Limit) => Ok(Some(Fault::Limit)),
        Some(LineRefusal::Memory) => Err(AllocError),
    }
}

/// The column of byte `at` of the kept text. The blanks before that text, which aren't kept, count
/// too.
fn column_of(line: &OpenLine, at: usize, most: usize) -> u64
    ensures { (text : Bytes) → Gathers most line.now text → (1 ≤ result) × (result ≤ length text + 1) }
{
    let width = most.saturating_sub(line.room);
    // A lone dash isn't kept.
    let kept = if matches!(line.opening, Opening::Dash) {
        1
    } else {
        line.kept.len()
    };
    let blanks = width.saturating_sub(kept);
    (blanks.saturating_add(at).min(width) as u64).saturating_add(1)
}

/// The report of a line with this fault.
pub fn report_of(
    alloc: Global,
    number: u64,
    fault: Fault,
    line: &OpenLine,
    limits: &Limits,
) -> Result<Report, AllocError>
    ensures is { IfOk result (λ r. (r.line ≡ number) × (r.fault ≡ fault)) }
    ensures column { IfOk result (λ r. (text : Bytes) → Gathers limits.now.bounds.line line.now text → (1 ≤ r.column) × (r.column ≤ length text + 1)) }
    ensures one_line { IfOk result (λ r. IsOneLine (string_bytes r.message)) }
    ensures limit { IfOk result (λ r. fault ≢ why.Syntax → string_bytes r.message ≡ limit_message fault) }
{
    let text: &[u8] = if matches!(line.opening, Opening::Dash) {
        b"-"
    } else {
        line.kept.as_slice()
    };
    let written = message_of(alloc, fault, text, limits)?;
    Ok(Report {
        line: number,
        fault,
        column: column_of(line, written.at, limits.bounds.line),
        message: written.message,
    })
}

/// Skips the payload if the line is a load. Returns the item's fault, if any, and how many lines
/// the script has up to the item's end.
fn take_item<R: Read>(
    alloc: Global,
    source: &mut Source<R>,
    number: u64,
    line: &OpenLine,
    limits: &Limits,
) -> Result<(Option<Fault>, u64), CheckFault>
    ensures item { (text : Bytes) → Gathers limits.now.bounds.line line.now text → is_skipped text ≡ false → IfOk result (λ x. TookItem limits.now.bounds number text source.old source.new x.0 x.1) }
    ensures within { OnOk result (source.old.given ≤ limits.now.bounds.script → source.new.given ≤ limits.now.bounds.script) }
{
    let fault = fault_of(alloc, line, limits)?;
    if !line.takes_payload() {
        return Ok((fault, number));
    }
    let (payload, lines) = pass_payload(alloc, source, number, &limits.bounds)?;
    match fault {
        Some(fault) => Ok((Some(fault), lines)),
        None => Ok((payload, lines)),
    }
}

/// The outcome of one line.
#[derive(Drop)]
enum Step {
    /// The script's end.
    End,
    /// The line's item has no fault, or the line has no item.
    Clean,
    Found(Report),
}

/// Returns the reports of a script one by one; its bytes may come in pieces of any length.
#[derive(Drop)]
pub struct Checker<R: Read> {
    source: Source<R>,
    /// How many lines were read.
    lines: u64,
}

impl<R: Read> Model for Checker<R> {
    ghost use Rattle.gq_check.specs.Reports.{Place};

    ghost Value = { Place };

    ghost view = { λ c. record { left = c.source.left; lines = c.lines } };
}

impl<R: Read> Checker<R> {
    ghost use Rattle.std.specs.Prelude.{◌≡◌, [], ◌∷◌, Some, IfOk, IfSome, IfNone};
    ghost use Rattle.gq_script.specs.Script.{without_mark};
    ghost use Rattle.gq_script.specs.Numbering.{numbered_left};
    ghost use Rattle.gq_check.specs.Reports.{Between, Reports};
    ghost use Rattle.gq_check.specs.Stepping.{Stepped};

    /// A checker of a whole script.
    pub fn new(reader: R) -> Checker<R>
        ensures left { IfSome (R.remaining reader) (λ bytes. result.left ≡ Some (without_mark bytes)) }
        ensures lines { result.lines ≡ 0 }
    {
        Checker {
            source: Source::new(reader),
            lines: 0,
        }
    }

    /// The next report, or `None` at the script's end. After an error nothing is promised.
    pub fn next(&mut self, alloc: Global, limits: &Limits) -> Result<Option<Report>, CheckFault>
        // It is the report of the first remaining item that is refused.
        ensures report { IfOk result (λ x. IfSome x (λ report. Between limits.now.bounds self.old self.new (report ∷ []))) }
        // `None` means that no remaining item is refused.
        ensures end { IfOk result (λ x. IfNone x (IfSome self.old.left (λ bytes. Reports limits.now.bounds (numbered_left limits.now.bounds self.old.lines bytes) []))) }
    {
        for _ in 0..u64::MAX {
            match self.step(alloc, limits)? {
                Step::End => return Ok(None),
                Step::Clean => {}
                Step::Found(report) => return Ok(Some(report)),
            }
        }
        Err(CheckFault::Read)
    }

    /// Takes a line, and the payload after it if it is a load.
    fn step(&mut self, alloc: Global, limits: &Limits) -> Result<Step, CheckFault>
        ensures { IfOk result (Stepped limits.now.bounds self.old self.new) }
    {
        let Some(line) = take_line(alloc, &mut self.source, &limits.bounds)? else {
            return Ok(Step::End);
        };
        let Some(number) = self.lines.checked_add(1) else {
            return Err(CheckFault::Read);
        };
        if line.is_skipped() {
            self.lines = number;
            return Ok(Step::Clean);
        }
        let (fault, lines) = take_item(alloc, &mut self.source, number, &line, limits)?;
        self.lines = lines;
        match fault {
            None => Ok(Step::Clean),
            Some(fault) => Ok(Step::Found(report_of(alloc, number, fault, &line, limits)?)),
        }
    }
}
