//! Data records that have fewer fields than the header.

/// What becomes of a data record with fewer fields than the header. One with more is always refused.
#[derive(Clone, Copy, Debug, PartialEq, Eq)]
pub enum Short {
    /// It is refused.
    Refused,
    /// It is read as if fields `\N` followed, which are null in every column.
    Completed,
}
