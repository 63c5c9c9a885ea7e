//! Tables that are made from CSV files before a script runs.
//!
//! A word of the command line names a file, and perhaps the table, its columns and its key
//! (`gq_infer::TableWord`). Tables are made in the order of their first words: with the columns that
//! the word gives, or else with those that its files have; then each file's rows are put into the
//! table. A file is opened each time that it is read, and held only if it can't be opened again.
//!
//! # The contract above this crate
//!
//! If it is known what the files hold, [`make_tables`] makes exactly the tables of the words: for
//! each name one, whose rows are those of its files, one after the other (`specs/Made.antt`).
//! [`TableFault::text`] is what `specs/Faults.antt` spells. Which fault is reported is tested.
#![tactic(auto)]

mod columns;
mod fault;
mod files;
mod making;
mod source;
mod table;

pub use fault::{TableFault, Why};
pub use making::make_tables;
pub use source::Reopen;
