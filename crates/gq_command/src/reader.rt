//! Reads the commands of a script.
ghost use Rattle.std.specs.Prelude.{◌≡◌, ◌≤◌, ℕ, [], false, Option, Some, IfOk, IfSome, IfNone, OnOk};
ghost use Rattle.gq_command.specs.Commands.{Bytes};
ghost use Rattle.gq_script.specs.Script.{raw_lines, first_entry, items_left, is_skipped, Counts, Plain};
ghost use Rattle.gq_script.specs.Gathering.{Gathers};
ghost use Rattle.gq_command.specs.Items.{Gave, IsReadAs, IsReady, MayRepresent, with_payload};
ghost use Rattle.gq_script.specs.Payloads.{Holds, KeptTold};

use crate::command::{Command, Payload};
use crate::lines::{LineRefusal, parse_line};
use gq_row::{Limits, Sequence};
use gq_script::{Kept, OpenLine, Opening, ReadFault, Source, take_line, take_payload};
use std::alloc::Global;
use std::io::Read;
use std::marker::Model;

/// An item of a script: a command, or why its line is refused.
#[derive(Drop)]
pub enum Item {
    Command(Command),
    Refused(LineRefusal),
}

/// The item of a line that is neither blank nor a comment. `wrong` becomes the line if it isn't a
/// command.
fn item_of(alloc: Global, line: OpenLine, wrong: &mut Option<OpenLine>, limits: &Limits) -> Item
    ensures reads { (text : Bytes) → Gathers limits.now.bounds.line line text → is_skipped text ≡ false → IsReadAs limits.now.bounds (Plain text) result }
    ensures ready { IsReady limits.now.bounds result }
    ensures kept { IfSome wrong.new (λ kept. kept ≡ line) }
{
    *wrong = None;
    if line.too_long {
        return Item::Refused(LineRefusal::LineTooLong);
    }
    if line.lost {
        return Item::Refused(LineRefusal::Memory);
    }
    // A lone dash isn't a token.
    if matches!(line.opening, Opening::Dash) {
        *wrong = Some(line);
        return Item::Refused(LineRefusal::Syntax);
    }
    match parse_line(alloc, line.kept.as_slice(), limits) {
        Ok(command) => Item::Command(command),
        Err(refusal) => {
            *wrong = wrong_line(&refusal, line);
            Item::Refused(refusal)
        }
    }
}

// The refused line, if it isn't a command.
fn wrong_line(refusal: &LineRefusal, line: OpenLine) -> Option<OpenLine>
    ensures { IfSome result (λ kept. kept ≡ line) }
{
    match refusal {
        LineRefusal::Syntax => Some(line),
        LineRefusal::LineTooLong | LineRefusal::Limit | LineRefusal::Memory => None,
    }
}

/// The payload of a refused line is skipped without memory.
fn kept_for(alloc: Global, item: &Item) -> Kept
    ensures { (most : ℕ) → Holds most result [] }
{
    match item {
        Item::Command(_) => Kept::new(alloc),
        Item::Refused(_) => Kept::Nothing,
    }
}

/// The payload of which this was kept; `None` is an open one.
fn payload_of(kept: Option<Kept>) -> Payload
    ensures { (most : ℕ) (given : Option Bytes) → KeptTold most given kept → MayRepresent most given result }
{
    match kept {
        None => Payload::Open,
        Some(Kept::Bytes(bytes)) => {
            // Frees the capacity that isn't used: the bytes are held while their rows are loaded.
            let mut bytes = bytes;
            bytes.shrink_to_fit();
            Payload::Bytes(Sequence::new(bytes))
        }
        Some(Kept::TooLong) => Payload::TooLong,
        Some(Kept::Nothing) => Payload::NoMemory,
    }
}

/// The item with this payload, if it is a load.
fn with_payload(item: Item, payload: Payload) -> Item
    ensures { result ≡ with_payload payload item }
{
    match item {
        Item::Command(Command::Load { table, .. }) => {
            Item::Command(Command::Load { table, payload })
        }
        other => other,
    }
}

/// The first remaining item, or `None` if there is none. `number` becomes the number of its line,
/// and `wrong` the line if it isn't a command.
fn next_item<R: Read>(
    alloc: Global,
    source: &mut Source<R>,
    number: &mut u64,
    wrong: &mut Option<OpenLine>,
    limits: &Limits,
) -> Result<Option<Item>, ReadFault>
    ensures item { IfOk result (λ x. IfSome x (λ item. IfSome source.old.left (λ bytes. Gave limits.now.bounds source.old.lines bytes source.new.left source.new.lines number.new wrong.new item))) }
    ensures ready { IfOk result (λ x. IfSome x (λ item. IsReady limits.now.bounds item)) }
    ensures end { IfOk result (λ x. IfNone x (IfSome source.old.left (λ bytes. (items_left limits.now.bounds bytes ≡ []) × (source.new.left ≡ Some [])))) }
    ensures counted { OnOk result (Counts source.old source.new) }
    ensures within { OnOk result (source.new.given ≤ limits.now.bounds.script) }
{
    for _ in 0..u64::MAX {
        let Some(line) = take_line(alloc, source, &limits.bounds)? else {
            return Ok(None);
        };
        if !line.is_skipped() {
            *number = source.lines();
            let loads = line.takes_payload();
            let item = item_of(alloc, line, wrong, limits);
            if !loads {
                return Ok(Some(item));
            }
            let Ok(kept) = take_payload(kept_for(alloc, &item), source, &limits.bounds) else {
                // A call: an inline drop would be proved variant by variant here.
                drop(item);
                return Err(ReadFault);
            };
            return Ok(Some(with_payload(item, payload_of(kept))));
        }
    }
    Err(ReadFault)
}

/// Reads the commands of a script, in whatever pieces its bytes come. It reads ahead into a buffer
/// of fixed size.
#[derive(Drop)]
pub struct CommandReader<R: Read> {
    source: Source<R>,
    line: u64,
    wrong: Option<OpenLine>,
    failed: bool,
}

impl<R: Read> Model for CommandReader<R> {
    ghost use Rattle.gq_command.specs.Items.{Pending};

    ghost Value = { Pending };

    ghost view = { λ s. record { left = s.source.left; given = s.source.given; lines = s.source.lines; line = s.line; wrong = s.wrong; failed = s.failed } };
}

impl<R: Read> CommandReader<R> {
    ghost use Rattle.std.specs.Prelude.{◌≡◌, ◌≤◌, ◌+◌, [], true, false, Some, IfOk, IfSome, IfNone, OnOk, IsErr, length};
    ghost use Rattle.gq_command.specs.Items.{Gave, IsReady};
    ghost use Rattle.gq_script.specs.Script.{items_left, without_mark};

    /// A reader of a whole script.
    pub fn new(reader: R) -> CommandReader<R>
        ensures left { IfSome (R.remaining reader) (λ bytes. result.left ≡ Some (without_mark bytes)) }
        // A byte-order mark counts as given from the start.
        ensures given { IfSome (R.remaining reader) (λ bytes. result.given + length (without_mark bytes) ≡ length bytes) }
        ensures lines { result.lines ≡ 0 }
        ensures failed { result.failed ≡ false }
    {
        CommandReader {
            source: Source::new(reader),
            line: 0,
            wrong: None,
            failed: false,
        }
    }

    /// The number of the last item's line; the first line of a script is 1.
    pub fn line(&self) -> u64
        ensures { result ≡ self.now.line }
    {
        self.line
    }

    /// The last item's line, if it was refused since it isn't a command.
    pub fn wrong_line(&self) -> &Option<OpenLine>
        ensures { result.now ≡ self.now.wrong }
    {
        &self.wrong
    }

    /// The next command or refusal, or `None` at the script's end.
    pub fn next(&mut self, alloc: Global, limits: &Limits) -> Result<Option<Item>, ReadFault>
        // The result is read from the first remaining item, and that item's bytes are consumed,
        // even if it is refused. The line is that item's.
        ensures item { IfOk result (λ x. IfSome x (λ item. IfSome self.old.left (λ bytes. Gave limits.now.bounds self.old.lines bytes self.new.left self.new.lines self.new.line self.new.wrong item))) }
        // A command keeps the grammar, its rules and the limits, even if the reader's bytes aren't
        // known.
        ensures ready { IfOk result (λ x. IfSome x (λ item. IsReady limits.now.bounds item)) }
        // `None` means that no item is left.
        ensures end { IfOk result (λ x. IfNone x (IfSome self.old.left (λ bytes. (items_left limits.now.bounds bytes ≡ []) × (self.new.left ≡ Some [])))) }
        // No more bytes are given than the script may have.
        ensures counted { OnOk result (IfSome self.old.left (λ xs. IfSome self.new.left (λ ys. self.new.given + length ys ≡ self.old.given + length xs))) }
        ensures within { OnOk result (self.new.given ≤ limits.now.bounds.script) }
        // After a read fault each call returns it.
        ensures fault { IsErr result → self.new.failed ≡ true }
        ensures sound { OnOk result (self.new.failed ≡ false) }
        ensures failed { self.old.failed ≡ true → IsErr result }
    {
        if self.failed {
            return Err(ReadFault);
        }
        match next_item(
            alloc,
            &mut self.source,
            &mut self.line,
            &mut self.wrong,
            limits,
        ) {
            Ok(item) => Ok(item),
            Err(fault) => {
                self.failed = true;
                Err(fault)
            }
        }
    }
}
