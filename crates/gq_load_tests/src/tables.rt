//! The tables that payloads are loaded for.
use gq_row::{Bounds, Column, Kind, Limits, Schema, Text};
use std::alloc::Global;

/// The tables of the tests.
#[derive(Clone, Copy, PartialEq, Eq, Debug)]
pub(crate) enum Table {
    /// `cities (id int, city text, key (id))`
    Cities,
    /// `pairs (a int, b int)`
    Pairs,
    /// `notes (note text)`
    Notes,
    /// `words (n int, word text, key (word, n))`
    Words,
    /// `towns (id int, town text nocase, key (town))`
    Towns,
}

fn column(alloc: Global, name: &str, kind: Kind) -> Option<Column> {
    let name = Text::of(alloc, name).ok()?;
    Some(Column { name, kind })
}

fn two(alloc: Global, first: (&str, Kind), second: (&str, Kind)) -> Option<Vec<Column>> {
    let first = column(alloc, first.0, first.1)?;
    let second = column(alloc, second.0, second.1)?;
    vec![in alloc; first, second].ok()
}

/// The schema of a table, or `None` if memory is refused.
pub(crate) fn schema(alloc: Global, table: Table) -> Option<Schema> {
    let no_key = Vec::new(alloc);
    match table {
        Table::Cities => {
            let columns = two(alloc, ("id", Kind::Int), ("city", Kind::Text))?;
            Schema::new(columns, vec![in alloc; 0usize].ok()?)
        }
        Table::Pairs => Schema::new(two(alloc, ("a", Kind::Int), ("b", Kind::Int))?, no_key),
        Table::Notes => {
            let note = column(alloc, "note", Kind::Text)?;
            Schema::new(vec![in alloc; note].ok()?, no_key)
        }
        Table::Words => {
            let columns = two(alloc, ("n", Kind::Int), ("word", Kind::Text))?;
            Schema::new(columns, vec![in alloc; 1usize, 0].ok()?)
        }
        Table::Towns => {
            let columns = two(alloc, ("id", Kind::Int), ("town", Kind::NoCase))?;
            Schema::new(columns, vec![in alloc; 1usize].ok()?)
        }
    }
}

/// The largest limits, but for the bytes of a text and the number of rows.
pub(crate) fn limits(text: usize, rows: usize) -> Option<Limits> {
    let mut bounds: Bounds = Limits::greatest().bounds;
    bounds.text = text;
    bounds.rows = rows;
    Limits::new(bounds)
}
