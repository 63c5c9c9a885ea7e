//! CSV payloads as rows of a table: the rows, or the first fault.
//!
//! A payload is the bytes of a CSV text: a header that names each column of the table once, in any
//! order, and then one record for each row. `gq_csv` splits a text into records, as RFC 4180 says;
//! this crate says what they mean: which column a field belongs to, when it is null, which
//! numbers and texts there are, and which fault comes first. A row's values are in the order of the
//! table's columns.
//!
//! The contract above this crate is that of [`RowReader`], by which the engine loads. It gives the
//! rows of a payload one by one, from any reader, or a fault. If the reader's bytes are known, these
//! are the rows and the fault that `load` of `specs/Payloads.antt` gives, unless memory was refused.
//! The rows always fit their table, have no null in its key and are no more than the limit.
//! [`load_rows`] returns the same rows at once, of bytes in memory; only tests call it. The laws in
//! [`laws`] say in the subject's own words what `load` means.
#![tactic(auto)]

mod field;
mod header;
pub mod laws;
mod load_refusal;
mod number;
mod payload;
mod reader;
mod row;
mod row_fault;
mod row_format;
mod row_reader;
mod short_records;

pub use field::is_null;
pub use load_refusal::LoadRefusal;
pub use number::int_of;
pub use payload::load_rows;
pub use row_fault::RowFault;
pub use row_reader::RowReader;
pub use short_records::Short;
