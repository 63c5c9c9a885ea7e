//! Rows spelled out, so that a test can compare them with a text.
use gq_row::{Row, Value};
use std::alloc::{AllocError, Global};

fn push_quoted(out: &mut String, text: &str) -> Result<(), AllocError> {
    out.push_str("'")?;
    out.push_str(text)?;
    out.push_str("'")
}

fn push_value(alloc: Global, out: &mut String, value: &Value) -> Result<(), AllocError> {
    match value {
        Value::Null => out.push_str("null"),
        Value::Int(n) => out.push_str(format!(in alloc; "{n}")?.as_str()),
        Value::Text(text) => push_quoted(out, text.as_str()),
        Value::NoCase(text) => {
            out.push_str("~")?;
            push_quoted(out, text.as_str())
        }
    }
}

/// The values of rows with commas between them, and a semicolon after each row: numbers in decimal, texts
/// between quotes, those without case after a `~`, and `null`.
pub(crate) fn spelled(alloc: Global, rows: &[Row]) -> Result<String, AllocError> {
    let mut out = String::new(alloc);
    for row in rows {
        for (i, value) in row.cells().iter().enumerate() {
            if i > 0 {
                out.push_str(",")?;
            }
            push_value(alloc, &mut out, value)?;
        }
        out.push_str(";")?;
    }
    Ok(out)
}
