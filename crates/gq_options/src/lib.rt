//! What a command line of the program asks for.
//!
//! The contract of [`read_words`] uses clap's own definitions: options are returned only for words
//! without a fault, and ask for what the words ask for; help, the version, mistakes and out of
//! memory are different errors. The laws in [`laws`] say the same without clap, for paths, tables,
//! commands, the output format, the seed, the budget, the folder and the flags.
#![tactic(auto)]

pub mod laws;
mod options;

pub use options::{BadLine, Options, Output, Seed, read_words};
