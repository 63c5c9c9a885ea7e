//! The columns of CSV files: their names, and the kind of each.
//!
//! The first record of a file is its header, which names the columns. A column is INT if each of its
//! fields is null or a whole number, and one at least is a number; otherwise it is TEXT. A table may
//! be made from several files: they name the same columns, in any order, and a kind is that of the
//! fields of all files. The table's columns are in the order of the first file.
//!
//! A table is named on the command line by a word `[NAME=]FILE`, which [`table_word`] reads. The name
//! may be followed by columns by hand, as in a `create` command.
//!
//! # The contract above this crate
//!
//! An [`Inference`] that was made from files gives `table_columns` of `specs/Files.antt`: the names of
//! the first file's header, each with the kind that `kind_of` of `specs/Kinds.antt` gives the fields
//! under that name in all files. A file is refused exactly as `header_fault` and `same_columns` say,
//! or because an allocation or a read failed. A file comes from any reader; all this is said if the
//! reader's bytes are known. Whether they are known or not, a `create` command can have the columns.
//!
//! [`guess_columns`] reads the first records only. Its columns are right if all files load under them,
//! which saves a second pass over most files.
//!
//! What [`table_word`] returns is said by `specs/Words.antt`. The laws in [`laws`] say in the
//! subject's own words which kind `kind_of` gives.
#![tactic(auto)]

mod bad_table;
mod fault;
mod guess;
mod header;
mod inference;
pub mod laws;
mod path;
mod scan;
mod seen;
mod word;

pub use bad_table::{BadTable, bad_table_text};
pub use fault::InferFault;
pub use guess::guess_columns;
pub use inference::Inference;
pub use word::{GivenColumns, TableWord, table_word};
