//! Skips payloads line by line.
ghost use Rattle.std.specs.Prelude.{◌≡◌, ◌≤◌, ℕ, ◌++◌, [], Some, IfOk, OnOk};
ghost use Rattle.gq_token.specs.Texts.{Bytes};
ghost use Rattle.gq_script.specs.Payloads.{Holds};
ghost use Rattle.gq_check.specs.Findings.{payload_fault};
ghost use Rattle.gq_check.specs.Passing.{HasRoom, PassedPayload};

use crate::fault::{CheckFault, Fault};
use gq_row::Bounds;
use gq_script::{Kept, Source, take_payload_line};
use std::alloc::{AllocError, Global};
use std::io::Read;

/// Keeps a line's bytes, to count them, as long as the payload is within its limit.
fn kept_for(alloc: Global, room: Option<usize>) -> Kept
    ensures { (most : ℕ) → Holds most result [] }
{
    match room {
        Some(_) => Kept::new(alloc),
        None => Kept::Nothing,
    }
}

/// How many more bytes a payload may have after this line; `None` past the limit.
fn room_after(room: Option<usize>, line: Kept) -> Result<Option<usize>, AllocError>
    ensures { IfOk result (λ left. (most : ℕ) (front raw : Bytes) → HasRoom most room front → Holds most line raw → HasRoom most left (front ++ raw)) }
{
    let Some(room) = room else {
        return Ok(None);
    };
    match line {
        Kept::Bytes(bytes) => Ok(room.checked_sub(bytes.len())),
        Kept::TooLong => Ok(None),
        Kept::Nothing => Err(AllocError),
    }
}

/// Skips a payload and the line that ends it, or the rest of the script if no line does. Returns
/// its fault, if any, and the number of lines up to there, `before` included.
pub fn pass_payload<R: Read>(
    alloc: Global,
    source: &mut Source<R>,
    before: u64,
    bounds: &Bounds,
) -> Result<(Option<Fault>, u64), CheckFault>
    ensures passed { IfOk result (λ x. PassedPayload bounds.now before source.old source.new x.0 x.1) }
    ensures within { OnOk result (source.new.given ≤ bounds.now.script) }
{
    let mut room = Some(bounds.payload);
    for lines in before..u64::MAX {
        let mut line = kept_for(alloc, room);
        match take_payload_line(source, &mut line, bounds)? {
            None => return Ok((Some(Fault::LoadOpen), lines)),
            Some(true) => return Ok((past_limit(room), lines + 1)),
            Some(false) => room = room_after(room, line)?,
        }
    }
    Err(CheckFault::Read)
}

/// The fault, if any, of a payload that a line ends.
fn past_limit(room: Option<usize>) -> Option<Fault>
    ensures { (most : ℕ) (bytes : Bytes) → HasRoom most room bytes → result ≡ payload_fault most (Some bytes) }
{
    match room {
        Some(_) => None,
        None => Some(Fault::PayloadTooLong),
    }
}
