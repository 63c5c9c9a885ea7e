//! A run store in a folder: run n, counted from 0, is a file that is made there as `run-n.gq`, and unlinked at
//! once.
//!
//! ```text
//! let mut store = DirStore::new(alloc, &rt, "/tmp/runs")?;
//! let run = store.make()?;                  // made as /tmp/runs/run-0.gq; the folder is empty again
//! store.append(run, b"Oslo")?;
//! store.read(run, 0, &mut buffer)?;
//! store.discard(run);                       // its space is freed
//! ```
//!
//! So stores that share a folder, of one program or of several, don't affect each other, and a program that is
//! killed leaves no rows. [`nameless`] says what this relies on.
//!
//! # The contract above this crate
//!
//! [`DirStore`] is a `RunStore` of `gq_spill` that isn't honest, since contracts can't say what a file returns.
//! They say what is true of every store: which runs are live, and that each `Fault` and each run is counted.
#![tactic(auto)]

mod dir_store;
mod nameless;
mod run_file;

pub use dir_store::DirStore;
