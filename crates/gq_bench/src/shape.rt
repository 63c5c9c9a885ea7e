//! The rows that are measured.
use gq_row::{Kind, Row, Text, Value};
use std::alloc::{AllocError, Global};

// A prime larger than any number of keys.
const STRIDE: u64 = 2_654_435_761;

/// The keys of rows.
#[derive(Clone, Copy)]
pub(crate) struct Shape {
    pub(crate) name: &'static str,
    pub(crate) kind: Kind,
    /// How many rows share a key, or 0 if there are a hundred keys in all.
    pub(crate) shared_by: usize,
}

/// Few keys, many, and as many as rows.
pub(crate) const SHAPES: [Shape; 6] = [
    Shape {
        name: "few numbers",
        kind: Kind::Int,
        shared_by: 0,
    },
    Shape {
        name: "many numbers",
        kind: Kind::Int,
        shared_by: 10,
    },
    Shape {
        name: "all numbers",
        kind: Kind::Int,
        shared_by: 1,
    },
    Shape {
        name: "few texts",
        kind: Kind::Text,
        shared_by: 0,
    },
    Shape {
        name: "many texts",
        kind: Kind::Text,
        shared_by: 10,
    },
    Shape {
        name: "all texts",
        kind: Kind::Text,
        shared_by: 1,
    },
];

/// Texts and the same ones without case.
pub(crate) const CASES: [Shape; 6] = [
    Shape {
        name: "few texts",
        kind: Kind::Text,
        shared_by: 0,
    },
    Shape {
        name: "few nocase",
        kind: Kind::NoCase,
        shared_by: 0,
    },
    Shape {
        name: "many texts",
        kind: Kind::Text,
        shared_by: 10,
    },
    Shape {
        name: "many nocase",
        kind: Kind::NoCase,
        shared_by: 10,
    },
    Shape {
        name: "all texts",
        kind: Kind::Text,
        shared_by: 1,
    },
    Shape {
        name: "all nocase",
        kind: Kind::NoCase,
        shared_by: 1,
    },
];

/// A fifth as many keys as rows.
pub(crate) const FIFTHS: [Shape; 2] = [
    Shape {
        name: "fifth numbers",
        kind: Kind::Int,
        shared_by: 5,
    },
    Shape {
        name: "fifth texts",
        kind: Kind::Text,
        shared_by: 5,
    },
];

/// The number in a report, from 0 to 999, in no order.
pub(crate) fn report_number(row: usize) -> u64 {
    ((row as u64).wrapping_mul(STRIDE) >> 16) % 1000
}

impl Shape {
    /// The number of distinct keys of `rows` rows.
    pub(crate) fn keys(&self, rows: usize) -> usize {
        match self.shared_by {
            0 => 100,
            n => (rows / n.max(1)).max(1),
        }
    }

    /// The number of a row's key. The keys are in no order, and are repeated only after all have appeared.
    pub(crate) fn key_of(&self, row: usize, rows: usize) -> u64 {
        let keys = (self.keys(rows) as u64).max(1);
        (row as u64).wrapping_mul(STRIDE) % keys
    }

    /// The key of each row, as a row of its own.
    pub(crate) fn rows(&self, alloc: Global, rows: usize) -> Result<Vec<Row>, AllocError> {
        let mut keys = Vec::with_capacity(alloc, rows)?;
        for row in 0..rows {
            let mut cells = Vec::with_capacity(alloc, 1)?;
            cells.push(self.cell(alloc, self.key_of(row, rows))?)?;
            keys.push(Row::new(cells))?;
        }
        Ok(keys)
    }

    fn cell(&self, alloc: Global, key: u64) -> Result<Value, AllocError> {
        if matches!(self.kind, Kind::Int) {
            return Ok(Value::Int(i64::try_from(key).unwrap_or(i64::MAX)));
        }
        let mut digits = itoa::Buffer::new();
        let mut text = String::from_str(alloc, "station-")?;
        text.push_str(digits.format(key))?;
        Ok(
            self.kind
                .stored(Value::Text(Text::from_string(alloc, text)?)),
        )
    }
}
