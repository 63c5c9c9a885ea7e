//! Rows and keys as CSV texts, and as scripts.
use crate::shape::{Shape, report_number};
use gq_row::Kind;
use std::alloc::AllocError;

/// The line that makes the table `t` of the rows, with its key or without.
pub(crate) fn create_rows(shape: Shape, keyed: bool) -> &'static [u8] {
    match (shape.kind, keyed) {
        (Kind::Int, false) => b"create t (k int, v int)\n",
        (Kind::Int, true) => b"create t (k int, v int, key (k))\n",
        (Kind::Text, false) => b"create t (k text, v int)\n",
        (Kind::Text, true) => b"create t (k text, v int, key (k))\n",
        (Kind::NoCase, false) => b"create t (k text nocase, v int)\n",
        (Kind::NoCase, true) => b"create t (k text nocase, v int, key (k))\n",
    }
}

/// The line that makes the table `t` of rows with a second column, of seven numbers, to be grouped by.
fn create_wide(shape: Shape) -> &'static [u8] {
    match shape.kind {
        Kind::Int => b"create t (k int, b int, v int)\n",
        Kind::Text => b"create t (k text, b int, v int)\n",
        Kind::NoCase => b"create t (k text nocase, b int, v int)\n",
    }
}

/// Appends the lines that make that table and load the rows.
pub(crate) fn push_wide(out: &mut Vec<u8>, shape: Shape, rows: usize) -> Result<(), AllocError> {
    out.extend_from_slice(create_wide(shape))?;
    out.extend_from_slice(b"load t\nk,b,v\n")?;
    for row in 0..rows {
        push_key(out, shape, shape.key_of(row, rows))?;
        out.push(b',')?;
        push_number(out, row as u64 % 7)?;
        out.push(b',')?;
        push_number(out, row as u64)?;
        out.push(b'\n')?;
    }
    out.extend_from_slice(b"\\.\n")
}

/// The line that makes the table `s` of reports: an identifier, a city, and another number.
fn create_reports(shape: Shape) -> &'static [u8] {
    match shape.kind {
        Kind::Int => b"create s (id int, city int, x int)\n",
        Kind::Text => b"create s (id int, city text, x int)\n",
        Kind::NoCase => b"create s (id int, city text nocase, x int)\n",
    }
}

/// Appends the lines that make that table and load the rows, with their keys as cities.
pub(crate) fn push_reports(out: &mut Vec<u8>, shape: Shape, rows: usize) -> Result<(), AllocError> {
    out.extend_from_slice(create_reports(shape))?;
    out.extend_from_slice(b"load s\nid,city,x\n")?;
    for row in 0..rows {
        push_number(out, row as u64)?;
        out.push(b',')?;
        push_key(out, shape, shape.key_of(row, rows))?;
        out.push(b',')?;
        push_number(out, report_number(row))?;
        out.push(b'\n')?;
    }
    out.extend_from_slice(b"\\.\n")
}

/// Appends the rows as a CSV text, with its header.
pub(crate) fn push_payload(out: &mut Vec<u8>, shape: Shape, rows: usize) -> Result<(), AllocError> {
    out.extend_from_slice(b"k,v\n")?;
    for row in 0..rows {
        push_key(out, shape, shape.key_of(row, rows))?;
        out.push(b',')?;
        push_number(out, row as u64)?;
        out.push(b'\n')?;
    }
    Ok(())
}

/// Appends the load of the rows into the table `t`.
pub(crate) fn push_load(out: &mut Vec<u8>, shape: Shape, rows: usize) -> Result<(), AllocError> {
    out.extend_from_slice(b"load t\n")?;
    push_payload(out, shape, rows)?;
    out.extend_from_slice(b"\\.\n")
}

/// Appends the rows as `upsert` lines.
pub(crate) fn push_upserts(out: &mut Vec<u8>, shape: Shape, rows: usize) -> Result<(), AllocError> {
    let quote: &[u8] = if is_number(shape) { b"" } else { b"'" };
    for row in 0..rows {
        out.extend_from_slice(b"upsert t (")?;
        out.extend_from_slice(quote)?;
        push_key(out, shape, shape.key_of(row, rows))?;
        out.extend_from_slice(quote)?;
        out.extend_from_slice(b", ")?;
        push_number(out, row as u64)?;
        out.extend_from_slice(b")\n")?;
    }
    Ok(())
}

/// Appends the lines that make the table `u`, with a key, and load each distinct key of the rows.
pub(crate) fn push_keys(out: &mut Vec<u8>, shape: Shape, rows: usize) -> Result<(), AllocError> {
    out.extend_from_slice(create_keys(shape))?;
    out.extend_from_slice(b"load u\nk\n")?;
    for key in 0..shape.keys(rows) {
        push_key(out, shape, key as u64)?;
        out.push(b'\n')?;
    }
    out.extend_from_slice(b"\\.\n")
}

fn create_keys(shape: Shape) -> &'static [u8] {
    match shape.kind {
        Kind::Int => b"create u (k int, key (k))\n",
        Kind::Text => b"create u (k text, key (k))\n",
        Kind::NoCase => b"create u (k text nocase, key (k))\n",
    }
}

fn push_key(out: &mut Vec<u8>, shape: Shape, key: u64) -> Result<(), AllocError> {
    if !is_number(shape) {
        out.extend_from_slice(b"station-")?;
    }
    push_number(out, key)
}

fn is_number(shape: Shape) -> bool {
    matches!(shape.kind, Kind::Int)
}

fn push_number(out: &mut Vec<u8>, number: u64) -> Result<(), AllocError> {
    let mut digits = itoa::Buffer::new();
    out.extend_from_slice(digits.format(number).as_bytes())
}
