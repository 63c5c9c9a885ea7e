//! Times.
use std::io;
use std::time::Instant;

/// The nanoseconds of a work that was done once, and how many bytes or records it produced; 0 if it failed.
#[derive(Clone, Copy)]
pub(crate) struct Timing {
    pub(crate) nanoseconds: u64,
    pub(crate) came: usize,
}

pub(crate) fn nanoseconds_since(rt: &HostRuntime, start: Instant) -> io::Result<u64> {
    Ok(u64::try_from(start.elapsed(rt)?.as_nanos()).unwrap_or(u64::MAX))
}
