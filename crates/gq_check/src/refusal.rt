//! Why a line is refused.
ghost use Rattle.gq_check.specs.Findings.{IsToldOf};

use gq_command::{LineRefusal, parse_line};
use gq_row::Limits;
use std::alloc::Global;

/// Why a line is refused; `None` if it is a command within the limits.
pub fn refusal_of(alloc: Global, line: &[u8], limits: &Limits) -> Option<LineRefusal>
    ensures { IsToldOf limits.now.bounds line.now result }
{
    // The command itself is dropped.
    parse_line(alloc, line, limits).err()
}
