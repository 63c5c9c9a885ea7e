//! Tables of rows, with or without a key.
//!
//! A [`Table`] has a schema and rows. If the schema has key columns, the rows are stored in one list, with an
//! index of their keys, and one look-up finds a row; if not, they are stored by columns. A row that is put
//! replaces the row with the same key, or is added; a load puts many rows, all or none. A [`RowCursor`] reads
//! the rows one by one.
//!
//! The one contract above this crate: clauses see a table as its schema and the list of its rows, in some
//! order, and each change is that of plain lists (`put`, `put_all` and `delete` of `gq_row`) up to the order of
//! rows. Each row fits the columns, no two have the same key, and there are at most 2^24. A put returns the
//! first reason that applies as its error, and no error changes the table. Replacing a row and deleting one
//! never allocate.
#![tactic(auto)]

mod column_store;
mod keyed;
mod load;
mod refusal;
mod row_store;
mod rows;
mod table;

pub use column_store::ColumnStore;
pub use refusal::TableRefusal;
pub use row_store::RowStore;
pub use rows::{RowCursor, Storage};
pub use table::Table;
