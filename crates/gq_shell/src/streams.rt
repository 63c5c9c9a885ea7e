//! The streams of a process.

/// The three streams of a process.
#[derive(Drop)]
pub struct Streams<R, W, E> {
    /// The standard input, which may be the script or a table's file.
    pub input: R,
    /// The standard output, for replies, help and the version.
    pub replies: W,
    /// The standard error, for everything else.
    pub errors: E,
}
