//! What all passes of a grouping share.
use crate::budget::Budget;
use std::alloc::Global;

// Where memory comes from, how keys are hashed, and how many groups are kept in memory at once.
#[derive(Clone, Copy)]
pub(crate) struct GroupContext<H> {
    pub(crate) alloc: Global,
    pub(crate) hasher: H,
    pub(crate) budget: Budget,
}
