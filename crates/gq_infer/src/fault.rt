//! Why a file's columns are refused.
ghost use Rattle.std.specs.Prelude.{◌≡◌};

use std::alloc::{AllocError, AllocFailed};

/// Why the columns of a file are refused.
#[derive(Clone, Copy, Debug, PartialEq, Eq)]
pub enum InferFault {
    /// There is no header; or a name in it is empty, repeated or not UTF-8; or it doesn't name the
    /// columns of the files before.
    Header,
    /// There are too many columns, or a name is too long.
    Limit,
    /// An allocation failed.
    Memory,
    /// A read failed, or the file has more than 2^64 - 1 records.
    Read,
}

impl From<AllocError> for InferFault {
    ghost use Rattle.gq_infer.specs.declared.fault.InferFault.TheVariants.{Memory};

    ghost from_gives = { λ _ e. e ≡ Memory };

    fn from(_e: AllocError) -> InferFault {
        InferFault::Memory
    }
}

impl<T: Drop> From<AllocFailed<T>> for InferFault {
    ghost use Rattle.gq_infer.specs.declared.fault.InferFault.TheVariants.{Memory};

    ghost from_gives = { λ _ e. e ≡ Memory };

    fn from(_e: AllocFailed<T>) -> InferFault {
        InferFault::Memory
    }
}
