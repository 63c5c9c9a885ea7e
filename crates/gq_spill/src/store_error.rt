//! Errors of stores.
use thiserror::Error;

/// The error of a store's call.
#[derive(Clone, Copy, Debug, PartialEq, Eq, Error)]
pub enum StoreError {
    /// An allocation failed.
    #[error("out of memory")]
    Memory,
    /// The store failed, as a full disk does.
    #[error("the store failed")]
    Fault,
}
