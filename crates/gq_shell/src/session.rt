//! One run of an engine, from a script's bytes to the exit status.
ghost use Rattle.std.specs.Prelude.{◌≡◌};
ghost use Rattle.gq_engine.specs.Engines.{setting_of, spent_of, state_of};
ghost use Rattle.gq_shell.specs.Session.{EndedWith, errors_text, report_of, status_of};
ghost use Rattle.gq_shell.specs.Streams.{stream};

use crate::report::{Reporting, report_of};
use crate::writing::write_text;
use gq_engine::{Engine, Fault, Output, RunStore, Summary};
use gq_row::Key;
use std::io::{Read, Write};
use sw_probe::KeyHash;

/// Runs a script and returns the exit status. `errors` gets the refusals that the output leaves out,
/// then a fault, or the report if it is asked for; a write fault there is ignored.
pub fn session<H: KeyHash<Key> + Copy, S: RunStore, R: Read + Drop, W: Write, E: Write>(
    engine: &mut Engine<H, S>,
    output: Output,
    reader: R,
    writer: &mut W,
    errors: &mut E,
    reporting: Reporting,
) -> u8
    // What was written is as the engine ran, and the status says how that ended.
    ensures ended { EndedWith output (setting_of S.runs engine.old) (state_of S.runs engine.old) (R.remaining reader)
        (state_of S.runs engine.new) (report_of reporting.stats reporting.seed (spent_of engine.new))
        (stream W.contents writer.old writer.new) (stream E.contents errors.old errors.new) result }
    ensures setting { setting_of S.runs engine.new ≡ setting_of S.runs engine.old }
{
    let ended = engine.run_as(output, reader, writer, errors);
    let report = report_of(reporting, engine.spent());
    let _written = write_text(errors_text(&ended, report.as_str()), errors);
    status_of(&ended)
}

/// The exit status of a run: 0 where every command was accepted, 1 where some were refused, 3 after
/// a fault.
fn status_of(ended: &Result<Summary, Fault>) -> u8
    ensures { result ≡ status_of ended.now }
{
    match ended {
        Ok(summary) if summary.refused == 0 => 0,
        Ok(_summary) => 1,
        Err(_fault) => 3,
    }
}

/// What the standard error says of a run: a fault's line, or else the report.
fn errors_text<'a>(ended: &Result<Summary, Fault>, report: &'a str) -> &'a str
    ensures { result.now ≡ errors_text report.now ended.now }
{
    match ended {
        Ok(_summary) => report,
        Err(Fault::Read) => "groupsh: read fault\n",
        Err(Fault::Write) => "groupsh: write fault\n",
    }
}
