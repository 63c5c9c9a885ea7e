//! A GROUP BY engine: a database of tables in memory, commands on it, and scripts of commands
//! answered from their bytes to the replies' bytes.
//!
//! # A row's way
//!
//! ```text
//! script bytes -> items -> commands -> tables -> replies -> reply bytes
//!   CommandReader (gq_command)   Engine::execute   reply_text
//! ```
//!
//! - [`Engine::run`] reads the items of a script one after the other, answers each, writes the
//!   reply's text and flushes. [`Engine::execute`] carries out one command, and [`reply_text`] is
//!   the text of a reply.
//! - A table has a schema and rows (`gq_table`). If it has a key, its rows are in one list, row by
//!   row, with an index of their keys; otherwise they are stored by columns. A row that is put
//!   replaces the row of the same key, or is added. A literal is stored as its column stores it: a
//!   text without case if the column has such texts. Tables are found by linear search.
//! - What a query asks by names is planned first (`gq_plan`), each name looked up once; then it is
//!   answered by `gq_query`. The groups come of a run store that the engine holds, within its
//!   budget.
//! - A command is refused by the first reason that applies, and a refused command changes nothing.
//!   Any reply may be `Memory` instead.
//!
//! # The contract above this crate
//!
//! What [`Engine::run`] writes is the text of a *legal run* over the items of the reader's bytes
//! (`specs/Headline.antt`): item by item, the replies of plain lists of rows with keyed
//! replacement, each group being the filter of the rows for one distinct key. A read fault leaves
//! the texts of some first replies, a write fault a prefix of such texts. The definitions speak of
//! lists alone (`specs/Steps.antt`, `specs/Runs.antt`); the laws in [`laws`] say that a database is
//! a finite map, that only memory refuses what the lists accept, and that tables without texts
//! without case store what they are given. [`Engine::spent`] adds up what the groupings of `group`
//! commands took (`specs/Spending.antt`).
#![tactic(auto)]

mod catalog;
mod csv_fault;
mod engine;
mod grouping;
mod keys;
pub mod laws;
mod output;
mod payloads;
mod run;
mod showing;

pub use csv_fault::CsvFault;
pub use engine::Engine;
pub use gq_format::Format;
pub use gq_group::{Budget, Spent};
pub use gq_load::Short;
pub use gq_reply::{Refusal, Refused, Reply, reply_text};
pub use gq_spill::{MemStore, RunStore};
pub use output::Output;
pub use run::{Fault, Summary};
