//! Rows, and their spelling.
use gq_row::{Row, Text, Value};
use std::alloc::{AllocError, Global};

pub(crate) fn text(alloc: Global, chars: &str) -> Result<Value, AllocError> {
    Ok(Value::Text(Text::of(alloc, chars)?))
}

/// A text without case.
pub(crate) fn no_case(alloc: Global, chars: &str) -> Result<Value, AllocError> {
    Ok(Value::NoCase(Text::of(alloc, chars)?))
}

/// A row without values, which has no memory.
pub(crate) fn no_values(alloc: Global) -> Row {
    Row::new(Vec::new(alloc))
}

/// A row of one number.
pub(crate) fn number(alloc: Global, n: i64) -> Result<Row, AllocError> {
    Ok(Row::new(vec![in alloc; Value::Int(n)]?))
}

/// The rows of one number each, from 1 up.
pub(crate) fn numbers(alloc: Global, last: i64) -> Result<Vec<Row>, AllocError> {
    let mut rows = Vec::new(alloc);
    for n in 1..=last {
        rows.push(number(alloc, n)?)?;
    }
    Ok(rows)
}

/// A row of null, -1 and `Oslo`.
pub(crate) fn worked(alloc: Global) -> Result<Row, AllocError> {
    Ok(Row::new(vec![in alloc; Value::Null, Value::Int(-1), text(alloc, "Oslo")?]?))
}

fn spell_text(alloc: Global, out: &mut String, sign: &str, text: &Text) -> Result<(), AllocError> {
    let chars = text.as_str();
    out.push_str(format!(in alloc; "{sign}'{chars}'")?.as_str())
}

fn spell_value(alloc: Global, out: &mut String, value: &Value) -> Result<(), AllocError> {
    match value {
        Value::Null => out.push_str("null"),
        Value::Int(n) => out.push_str(format!(in alloc; "{n}")?.as_str()),
        Value::Text(text) => spell_text(alloc, out, "", text),
        Value::NoCase(text) => spell_text(alloc, out, "~", text),
    }
}

fn spell_row(alloc: Global, out: &mut String, row: &Row) -> Result<(), AllocError> {
    for (i, value) in row.cells().iter().enumerate() {
        if i > 0 {
            out.push_str(",")?;
        }
        spell_value(alloc, out, value)?;
    }
    out.push_str(";")
}

/// The rows with commas between values, a `~` before a text without case, and a semicolon after each row.
pub(crate) fn spelled(alloc: Global, rows: &[Row]) -> Result<String, AllocError> {
    let mut out = String::new(alloc);
    for row in rows {
        spell_row(alloc, &mut out, row)?;
    }
    Ok(out)
}

/// A row in this spelling.
pub(crate) fn spelled_row(alloc: Global, row: &Row) -> Result<String, AllocError> {
    let mut out = String::new(alloc);
    spell_row(alloc, &mut out, row)?;
    Ok(out)
}
