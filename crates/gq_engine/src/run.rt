//! Runs: the items of a script answered one after the other, and the replies written.
ghost use Rattle.std.specs.Prelude.{◌≡◌, ◌+◌, ◌<◌, ◌≤◌, ◌∷◌, ◌^◌, [], if◌then◌else◌, IfSome, IfNone, IfErr, OnOk};
ghost use Rattle.std.specs.Io.KnownBytes.{Appends};
ghost use Rattle.gq_command.specs.Items.{IsReady};
ghost use Rattle.gq_reply.specs.Replies.{IsLine, is_refusal};
ghost use Rattle.gq_engine.specs.Outputs.{IsResultIn, IsDirect, is_result, text_as};
ghost use Rattle.gq_reply.specs.Sending.{AppendsPrefix};
ghost use Rattle.gq_engine.specs.Steps.{line_refusal};

use crate::engine::Engine;
use crate::output::{Complaints, Output, had_result, send_between, send_direct, whole_text};
use gq_command::{CommandReader, Item, LineRefusal, ReadFault};
use gq_reply::{Buffer, Refusal, Reply, WriteFault, send};
use gq_row::Key;
use gq_spill::RunStore;
use std::alloc::AllocError;
use std::io::{Read, Write, sink};
use sw_probe::KeyHash;
use thiserror::Error;

/// What a run counted.
#[derive(Clone, Copy, Debug, Default, PartialEq, Eq)]
pub struct Summary {
    /// Items of the script.
    pub commands: u64,
    /// Replies that are refusals.
    pub refused: u64,
}

impl Summary {
    fn add(&mut self, reply: &Reply)
        requires commands { self.old.commands + 1 < 2 ^ 64 }
        requires refused { self.old.refused ≤ self.old.commands }
        ensures commands { self.new.commands ≡ self.old.commands + 1 }
        ensures refused { self.new.refused ≡
            (if is_refusal reply.now then self.old.refused + 1 else self.old.refused) }
    {
        self.commands += 1;
        if reply.is_refusal() {
            self.refused += 1;
        }
    }
}

/// Why a run stopped before the script's end.
#[derive(Clone, Copy, Debug, PartialEq, Eq, Error)]
pub enum Fault {
    /// A read failed, or the script has more bytes than the limit.
    #[error("a read failed, or the script is past its limit")]
    Read,
    /// A write or a flush failed, or a write took no byte.
    #[error("a write failed")]
    Write,
}

impl<H: KeyHash<Key> + Copy, S: RunStore> Engine<H, S> {
    ghost use Rattle.std.specs.Prelude.{◌≡◌, ◌∷◌, [], IfSome, IfNone};
    ghost use Rattle.gq_command.specs.Items.{IsReady};
    ghost use Rattle.gq_engine.specs.Engines.{database, failures_of, setting_of, budget_of, state_of};
    ghost use Rattle.gq_engine.specs.Headline.{Ran};
    ghost use Rattle.gq_engine.specs.Outputs.{IsResultIn, IsDirect, RanAs};
    ghost use Rattle.gq_engine.specs.Serving.{Served};
    ghost use Rattle.gq_reply.specs.Replies.{IsLine};
    ghost use Rattle.gq_engine.specs.Runs.{AnsweredAlike, FaultsHappened, KeptUnlessDone};

    /// Answers the items of a script in order, and writes each reply and flushes. A reply's whole text
    /// is made before its first byte is written; the lines `ok` and `err` take no memory.
    pub fn run<R: Read + Drop, W: Write>(
        &mut self,
        reader: R,
        writer: &mut W,
    ) -> Result<Summary, Fault>
        // What is written is, command by command, the replies of plain lists of rows.
        ensures ran { Ran (setting_of S.runs self.old) (state_of S.runs self.old) (R.remaining reader)
            (state_of S.runs self.new) (W.contents writer.old) (W.contents writer.new) result }
        ensures setting { setting_of S.runs self.new ≡ setting_of S.runs self.old }
        ensures budget { budget_of self.new ≡ budget_of self.old }
    {
        self.run_as(Output::Replies, reader, writer, &mut sink())
    }

    /// As [`Engine::run`], but may write only the results of queries. Then refusals are reported to
    /// `errors` with their line's number; a write fault there ends the reports, not the run. CSV records are
    /// written through a buffer of fixed size, and take no memory.
    pub fn run_as<R: Read + Drop, W: Write, E: Write>(
        &mut self,
        output: Output,
        reader: R,
        writer: &mut W,
        errors: &mut E,
    ) -> Result<Summary, Fault>
        ensures ran { RanAs output (setting_of S.runs self.old) (state_of S.runs self.old) (R.remaining reader)
            (state_of S.runs self.new) (W.contents writer.old) (W.contents writer.new)
            (E.contents errors.old) (E.contents errors.new) result }
        // If replies are written, nothing is reported.
        ensures quiet { output ≡ Output.Replies → errors.new ≡ errors.old }
        ensures setting { setting_of S.runs self.new ≡ setting_of S.runs self.old }
        ensures budget { budget_of self.new ≡ budget_of self.old }
    {
        let _tables = self.tables();
        let mut script = CommandReader::new(reader);
        let mut buffer = Buffer::new();
        let mut earlier = false;
        let mut complaints = Complaints {
            output,
            is_open: true,
        };
        let mut summary = Summary {
            commands: 0,
            refused: 0,
        };
        for _turn in 0..u64::MAX {
            let item = match script.next(self.alloc(), self.limits()) {
                Ok(Some(item)) => item,
                Ok(None) => return Ok(summary),
                Err(ReadFault) => return Err(Fault::Read),
            };
            match self.serve(&mut buffer, output, earlier, item, writer) {
                Ok(reply) => {
                    summary.add(&reply);
                    complaints.report(self.alloc(), self.limits(), &script, &reply, errors);
                    earlier = had_result(earlier, &reply);
                }
                Err(WriteFault) => return Err(Fault::Write),
            }
        }
        Err(Fault::Read)
    }

    // Answers one item and writes what the output has of the reply.
    fn serve<W: Write>(
        &mut self,
        buffer: &mut Buffer,
        output: Output,
        earlier: bool,
        item: Item,
        writer: &mut W,
    ) -> Result<Reply, WriteFault>
        requires { IsReady (setting_of S.runs self.old).limits item }
        ensures served { Served output earlier (setting_of S.runs self.old) (state_of S.runs self.old) item (state_of S.runs self.new)
            (W.contents writer.old) (W.contents writer.new) result }
        ensures setting { setting_of S.runs self.new ≡ setting_of S.runs self.old }
        ensures budget { budget_of self.new ≡ budget_of self.old }
    {
        let (reply, text) = self.answer(buffer, output, item);
        send_reply(buffer, writer, output, earlier, &reply, text)?;
        Ok(reply)
    }

    // The reply to an item.
    fn reply_to(&mut self, item: Item) -> Reply
        requires { IsReady (setting_of S.runs self.old).limits item }
        ensures legal { AnsweredAlike (setting_of S.runs self.old) (database self.old) item result
            (database self.new) }
        ensures faults { FaultsHappened (result ∷ []) (failures_of S.runs self.old)
            (failures_of S.runs self.new) }
        ensures kept { KeptUnlessDone result (database self.old) (database self.new) }
        ensures setting { setting_of S.runs self.new ≡ setting_of S.runs self.old }
        ensures budget { budget_of self.new ≡ budget_of self.old }
    {
        match item {
            Item::Command(command) => return self.execute(command),
            Item::Refused(why) => return Reply::refused(refusal_of(why)),
        }
    }

    // The reply to an item, and the text of a result that is made before it is sent.
    fn answer(
        &mut self,
        buffer: &mut Buffer,
        output: Output,
        item: Item,
    ) -> (Reply, Option<Vec<u8>>)
        requires { IsReady (setting_of S.runs self.old).limits item }
        ensures legal { AnsweredAlike (setting_of S.runs self.old) (database self.old) item result.0
            (database self.new) }
        ensures faults { FaultsHappened (result.0 ∷ []) (failures_of S.runs self.old)
            (failures_of S.runs self.new) }
        ensures setting { setting_of S.runs self.new ≡ setting_of S.runs self.old }
        ensures budget { budget_of self.new ≡ budget_of self.old }
        ensures text { IfSome result.1 (λ bytes. IsResultIn output result.0 bytes.items) }
        ensures direct { IfNone result.1 (IsDirect output result.0) }
    {
        let reply = self.reply_to(item);
        match &reply {
            Reply::Rows { header, rows } => match whole_text(
                self.alloc(),
                buffer,
                output,
                header,
                rows,
            ) {
                Ok(text) => (reply, text),
                Err(AllocError) => (Reply::refused(Refusal::Memory), None),
            },
            Reply::Done(_) | Reply::Refused { code: _, number: _ } => (reply, None),
        }
    }
}

// Writes what the output has of a reply, by the text that was made of a result.
fn send_reply<W: Write>(
    buffer: &mut Buffer,
    writer: &mut W,
    output: Output,
    earlier: bool,
    reply: &Reply,
    made: Option<Vec<u8>>,
) -> Result<(), WriteFault>
    requires made { IfSome made (λ bytes. IsResultIn output reply.now bytes.items) }
    requires direct { IfNone made (IsDirect output reply.now) }
    ensures ok { OnOk result (Appends (W.contents writer.old) (W.contents writer.new) (text_as output earlier reply.now)) }
    ensures err { IfErr result (λ _. AppendsPrefix (W.contents writer.old) (W.contents writer.new)
        (text_as output earlier reply.now)) }
{
    match made {
        Some(text) => {
            send_between(writer, output, earlier)?;
            send(writer, text.as_slice())
        }
        None => send_direct(buffer, writer, output, earlier, reply),
    }
}

fn refusal_of(why: LineRefusal) -> Refusal
    ensures { result ≡ line_refusal why }
{
    match why {
        LineRefusal::Syntax => Refusal::Syntax,
        LineRefusal::LineTooLong => Refusal::LineTooLong,
        LineRefusal::Limit => Refusal::Limit,
        LineRefusal::Memory => Refusal::Memory,
    }
}
