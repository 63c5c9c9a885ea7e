//! Refusals of a table.
use thiserror::Error;

/// The reason for which a table refuses rows.
#[derive(Clone, Copy, Debug, PartialEq, Eq, Error)]
pub enum TableRefusal {
    /// The row has more or fewer values than there are columns, or one isn't of its column's kind.
    #[error("the values don't fit the columns")]
    TypeMismatch,
    /// A key column would hold null.
    #[error("null in a key column")]
    NullKey,
    /// There would be more rows than the limit.
    #[error("too many rows")]
    Limit,
    /// An allocation failed.
    #[error("out of memory")]
    Memory,
}
