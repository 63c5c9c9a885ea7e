//! Values and groups spelled out, so that a test can compare them with a text.
use gq_row::{Key, Value};
use std::alloc::{AllocError, Global};

/// A number in decimal, a text between quotes, one without case after a `~`, or `null`.
pub(crate) fn spelled_value(alloc: Global, value: &Value) -> Result<String, AllocError> {
    match value {
        Value::Null => String::from_str(alloc, "null"),
        Value::Int(n) => format!(in alloc; "{n}"),
        Value::Text(text) => {
            let chars = text.as_str();
            format!(in alloc; "'{chars}'")
        }
        Value::NoCase(text) => {
            let chars = text.as_str();
            format!(in alloc; "~'{chars}'")
        }
    }
}

fn push_values(alloc: Global, out: &mut String, values: &[Value]) -> Result<(), AllocError> {
    for (i, value) in values.iter().enumerate() {
        if i > 0 {
            out.push_str(",")?;
        }
        out.push_str(spelled_value(alloc, value)?.as_str())?;
    }
    Ok(())
}

/// A group's key, a colon, and its values.
pub(crate) fn spelled_group(
    alloc: Global,
    key: &Key,
    values: &[Value],
) -> Result<String, AllocError> {
    let mut out = String::new(alloc);
    push_values(alloc, &mut out, key.cells())?;
    out.push_str(":")?;
    push_values(alloc, &mut out, values)?;
    Ok(out)
}
