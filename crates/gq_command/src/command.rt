//! Commands, as data.
use gq_clause::{Aggregate, Test};
use gq_row::{Column, Row, Sequence, Text};

/// `by columns`, or `by rollup (columns)`.
#[derive(Drop)]
pub struct By {
    /// Names of columns; none without `by`.
    pub columns: Sequence<Text>,
    /// Whether rows are grouped by each prefix of the columns, the empty one first, and not only by
    /// all of them.
    pub rollup: bool,
}

/// `exists table (theirs) = (ours)`: whether a row of the other table has the values of this
/// table's row, column by column.
#[derive(Drop)]
pub struct Exists {
    /// Whether `not` comes before it.
    pub negated: bool,
    /// The other table.
    pub table: Text,
    /// Columns of the other table.
    pub theirs: Sequence<Text>,
    /// Columns of the table that is grouped.
    pub ours: Sequence<Text>,
}

/// The payload of a load, or why it has none.
#[derive(Drop)]
pub enum Payload {
    Bytes(Sequence<u8>),
    /// The script ends before the payload does. A line that is parsed alone always has this.
    Open,
    /// The payload has more bytes than the limit.
    TooLong,
    /// An allocation for the payload failed.
    NoMemory,
}

/// A command. Names and literals are values without their quotes; keywords are left out.
#[derive(Drop)]
pub enum Command {
    /// `create table (column kind, .., key (columns))`
    Create {
        table: Text,
        columns: Sequence<Column>,
        /// Names of key columns; none if the table has no key.
        key: Sequence<Text>,
    },
    /// `drop table`
    Drop {
        table: Text,
    },
    /// `load table`
    Load {
        table: Text,
        payload: Payload,
    },
    /// `upsert table (literals)`
    Upsert {
        table: Text,
        values: Row,
    },
    /// `delete table (literals)`, one for each key column
    Delete {
        table: Text,
        values: Row,
    },
    /// `show table`
    Show {
        table: Text,
    },
    /// `group table by .. show aggregates where tests exists .. having tests`
    Group {
        table: Text,
        by: By,
        shown: Sequence<Aggregate>,
        tests: Sequence<Test>,
        exists: Option<Exists>,
        having: Sequence<Test>,
    },
    /// `distinct table on columns where tests`
    Distinct {
        table: Text,
        on: Sequence<Text>,
        tests: Sequence<Test>,
    },
}
