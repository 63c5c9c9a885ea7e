//! Why no more rows of a payload come.
ghost use Rattle.std.specs.Prelude.{◌≡◌};

use crate::load_refusal::LoadRefusal;
use thiserror::Error;

/// Why a reader of rows stopped before the payload's end.
#[derive(Clone, Copy, Debug, Error, PartialEq, Eq)]
pub enum RowFault {
    /// The payload is refused.
    #[error(transparent)]
    Refused(LoadRefusal),
    /// A read of the payload's bytes failed, which none does in memory.
    #[error("a read failed")]
    Read,
}

impl From<LoadRefusal> for RowFault {
    ghost use Rattle.gq_load.specs.declared.row_fault.RowFault.TheVariants.{Refused};

    ghost from_gives = { λ why fault. fault ≡ Refused why };

    fn from(why: LoadRefusal) -> RowFault {
        RowFault::Refused(why)
    }
}
