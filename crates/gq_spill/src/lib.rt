//! Run stores, and rows in runs: where rows are spilled that don't fit in memory.
//!
//! A run is a list of bytes that is appended to, read back, and discarded. [`RunStore`] is the interface of all
//! stores; [`MemStore`] keeps its runs in memory, and [`FuseStore`] makes one call go wrong, for tests.
//! [`RunWriter`] writes rows to a run of its own, and [`RunReader`] reads them:
//!
//! ```text
//! let mut writer = RunWriter::begin(alloc, &mut store)?;
//! writer.write(&mut store, &row)?;                  // as often as there are rows
//! let mark = writer.finish();                       // the run, and how much is in it
//!
//! let mut reader = RunReader::open(alloc, mark, columns);
//! let mut row = Row::new(Vec::new(alloc));
//! while reader.next(alloc, &mut store, &mut row)? { // each row in the memory of the one before
//!     ..
//! }
//! store.discard(mark.id);
//! ```
//!
//! A reader reads pieces of 64 KiB, and larger ones if a record is longer, so that a run on a disk takes few
//! calls. Records are those of [`gq_record`], whose names are exported too.
//!
//! # The contract above this crate
//!
//! Contracts see a store as one value of plain data, `Runs` of `specs/Runs.antt`: the live runs, their
//! contents, whether the store is honest, and how many runs and failures there were. A store that is honest
//! reads back what was written; each `Fault` is counted; no call changes a run that it doesn't name.
//! [`MemStore`] is honest, and fails only if memory is refused.
//!
//! Over an honest store a reader returns the rows that were written, in order (`Wrote` of `specs/Writing.antt`,
//! `Left` of `specs/Reading.antt`, and the law that joins them), and never reports such a run as damaged. Over
//! any store it returns only rows of the right width, at most as many as the mark says, and reports the end
//! only after all of these. It returns `StoreFault` exactly if the store failed; and after an error a writer or
//! a reader returns the same error from then on.
//!
//! The engine owns a store, to which groupings spill the rows of groups past their budget.
#![tactic(auto)]

mod content;
mod fuse;
mod fuse_store;
pub mod laws;
mod mem_store;
mod run_mark;
mod run_reader;
mod run_tail;
mod run_writer;
mod spill_refusal;
mod store;
mod store_error;
mod window;

pub use fuse_store::{FuseStore, Trouble};
pub use gq_record::{decode_row, encode_row, is_storable};
pub use mem_store::MemStore;
pub use run_mark::RunMark;
pub use run_reader::RunReader;
pub use run_writer::RunWriter;
pub use spill_refusal::SpillRefusal;
pub use store::{RunId, RunStore};
pub use store_error::StoreError;
