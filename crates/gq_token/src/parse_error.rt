//! Why a line can't be parsed.
ghost use Rattle.std.specs.Prelude.{◌≡◌};
ghost use Rattle.gq_token.specs.declared.parse_error.ParseError.TheVariants.{Memory};

use std::alloc::{AllocError, AllocFailed};
use thiserror::Error;

/// Why a text can't be parsed.
#[derive(Debug, Drop, Error)]
pub enum ParseError {
    /// An allocation failed.
    #[error("no memory to read the line")]
    Memory,
    /// It can't be split into tokens, or its tokens aren't a command.
    #[error("the line says no command")]
    Syntax,
}

impl From<AllocError> for ParseError {
    ghost from_gives = { λ _ e. e ≡ Memory };

    fn from(_e: AllocError) -> ParseError {
        ParseError::Memory
    }
}

impl<T: Drop> From<AllocFailed<T>> for ParseError {
    ghost from_gives = { λ _ e. e ≡ Memory };

    fn from(_e: AllocFailed<T>) -> ParseError {
        ParseError::Memory
    }
}
