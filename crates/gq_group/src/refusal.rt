//! Why rows are not grouped.
ghost use Rattle.std.specs.Prelude.{◌≡◌};
ghost use Rattle.gq_group.specs.Access.{refused_as};
ghost use Rattle.gq_group.specs.Phases.{as_damaged};

use gq_spill::SpillRefusal;
use thiserror::Error;

/// Why rows could not be grouped.
#[derive(Clone, Copy, Debug, PartialEq, Eq, Error)]
pub enum Refusal {
    /// A sum doesn't fit 64 bits.
    #[error("a sum is out of range")]
    SumRange,
    /// Out of memory, or a row to be spilled has no record: its values take 2^32 bytes or more.
    #[error("out of memory")]
    Memory,
    /// The store failed.
    #[error("the store failed")]
    StoreFault,
    /// The store did not read back what was written.
    #[error("a run is damaged")]
    Damaged,
}

impl Refusal {
    /// The refusal if no sum can be out of range: only a store that doesn't read back what was
    /// written makes one seem so.
    pub fn as_damaged(self) -> Refusal
        ensures { result ≡ as_damaged self }
    {
        match self {
            Refusal::SumRange => Refusal::Damaged,
            Refusal::Memory => Refusal::Memory,
            Refusal::StoreFault => Refusal::StoreFault,
            Refusal::Damaged => Refusal::Damaged,
        }
    }

    // The refusal of a run's writer or reader, as one of a grouping.
    pub(crate) fn of(why: SpillRefusal) -> Refusal
        ensures { result ≡ refused_as why }
    {
        match why {
            SpillRefusal::Memory => Refusal::Memory,
            SpillRefusal::StoreFault => Refusal::StoreFault,
            SpillRefusal::Damaged => Refusal::Damaged,
        }
    }
}
