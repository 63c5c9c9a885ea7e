//! Why a CSV text was not loaded.
ghost use Rattle.std.specs.Prelude.{◌≡◌};
ghost use Rattle.gq_engine.specs.Loading.{csv_fault_of, refused_in};

use crate::payloads::refused_by;
use gq_load::RowFault;
use gq_reply::{Refusal, Refused};
use thiserror::Error;

/// Why a CSV text was not loaded. The tables are as before then.
#[derive(Clone, Copy, Debug, Error, PartialEq, Eq)]
pub enum CsvFault {
    /// A `load` command with the text as its payload would be refused so.
    #[error("{}", .0.why)]
    Refused(Refused),
    /// A read of the text failed.
    #[error("a read failed")]
    Read,
}

impl From<Refused> for CsvFault {
    ghost use Rattle.gq_engine.specs.declared.csv_fault.CsvFault.TheVariants as fault;

    ghost from_gives = { λ why other. other ≡ fault.Refused why };

    fn from(why: Refused) -> CsvFault {
        CsvFault::Refused(why)
    }
}

// The fault of a text, by that of its rows.
pub(crate) fn fault_of_text(fault: RowFault) -> CsvFault
    ensures { result ≡ csv_fault_of fault }
{
    match fault {
        RowFault::Refused(why) => CsvFault::Refused(refused_by(why)),
        RowFault::Read => CsvFault::Read,
    }
}

// The refusal for a fault of bytes in memory: a read of them fails only if an allocation does.
pub(crate) fn refused_in(fault: CsvFault) -> Refused
    ensures { result ≡ refused_in fault }
{
    match fault {
        CsvFault::Refused(why) => why,
        CsvFault::Read => Refused::from(Refusal::Memory),
    }
}
