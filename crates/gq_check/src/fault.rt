//! Faults of a script's items, and errors that stop a check.
ghost use Rattle.std.specs.Prelude.{◌≡◌};
ghost use Rattle.gq_check.specs.declared.fault.CheckFault.TheVariants.{Memory, Read};

use gq_script::ReadFault;
use std::alloc::AllocError;
use thiserror::Error;

/// Why an item of a script is refused when it is read, whichever tables there are.
#[derive(Clone, Copy, PartialEq, Eq)]
pub enum Fault {
    /// The line isn't a command.
    Syntax,
    /// The line has more bytes than the limit.
    LineTooLong,
    /// The line is a command whose names or texts are too long, or with too many columns or
    /// aggregates.
    Limit,
    /// No line ends the payload.
    LoadOpen,
    /// The payload has more bytes than the limit.
    PayloadTooLong,
}

/// Why a check stopped before the script's end.
#[derive(Clone, Copy, Debug, PartialEq, Eq, Error)]
pub enum CheckFault {
    /// A read failed, or the script has more bytes than the limit.
    #[error("a read failed, or the script is past its limit")]
    Read,
    /// An allocation failed.
    #[error("out of memory")]
    Memory,
}

impl From<ReadFault> for CheckFault {
    ghost from_gives = { λ _ e. e ≡ Read };

    fn from(_e: ReadFault) -> CheckFault {
        CheckFault::Read
    }
}

impl From<AllocError> for CheckFault {
    ghost from_gives = { λ _ e. e ≡ Memory };

    fn from(_e: AllocError) -> CheckFault {
        CheckFault::Memory
    }
}
