//! Why rows can't be written to a run, or read from it.
ghost use Rattle.std.specs.Prelude.{◌≡◌};
ghost use Rattle.gq_spill.specs.Refusals.{refused_as};

use crate::store_error::StoreError;
use thiserror::Error;

/// The error of a writer or a reader of runs.
#[derive(Clone, Copy, Debug, PartialEq, Eq, Error)]
pub enum SpillRefusal {
    /// An allocation failed.
    #[error("out of memory")]
    Memory,
    /// The store failed.
    #[error("the store failed")]
    StoreFault,
    /// The bytes of the run aren't the records that its mark promises.
    #[error("a run is damaged")]
    Damaged,
}

impl SpillRefusal {
    // The error that a store's error becomes.
    pub(crate) fn of(error: StoreError) -> SpillRefusal
        ensures { result ≡ refused_as error }
    {
        match error {
            StoreError::Memory => SpillRefusal::Memory,
            StoreError::Fault => SpillRefusal::StoreFault,
        }
    }
}
