//! Why no record was read.
use std::alloc::{AllocError, AllocFailed};
use std::io;
use thiserror::Error;

/// Why no record was read.
#[derive(Clone, Copy, Debug, Error, PartialEq, Eq)]
pub enum ReadError {
    /// Out of memory.
    #[error("out of memory")]
    Memory,
    /// A read of the source failed.
    #[error("a read failed")]
    Source,
}

impl From<AllocError> for ReadError {
    fn from(_e: AllocError) -> ReadError {
        ReadError::Memory
    }
}

impl<T: Drop> From<AllocFailed<T>> for ReadError {
    fn from(_e: AllocFailed<T>) -> ReadError {
        ReadError::Memory
    }
}

impl From<io::Error> for ReadError {
    fn from(_e: io::Error) -> ReadError {
        ReadError::Source
    }
}
