//! How data records are read as rows.
use crate::header::Header;
use crate::short_records::Short;
use gq_row::{Limits, Schema};

/// What data records are read by: the table, the limits, what becomes of short records, and the
/// column of each field.
#[derive(Drop)]
pub(crate) struct RowFormat<'a> {
    pub(crate) schema: &'a Schema,
    pub(crate) limits: &'a Limits,
    pub(crate) short: Short,
    pub(crate) header: Header,
}
