//! What a reader of a run needs.
use crate::store::RunId;

/// A run that was written: its number, and how many bytes and rows were written to it. With the number of
/// columns it is all that a reader needs.
#[derive(Clone, Copy, Debug, PartialEq, Eq)]
pub struct RunMark {
    pub id: RunId,
    pub bytes: u64,
    pub records: u64,
}
