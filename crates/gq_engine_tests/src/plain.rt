//! Values, rows and keys, as literals.
use gq_row::{Row, Text, Value};
use std::alloc::{AllocError, Global};

/// A value, as a literal.
#[derive(Clone, Copy)]
pub enum Plain {
    Null,
    Int(i64),
    Text(&'static str),
    NoCase(&'static str),
}

pub fn text(alloc: Global, chars: &str) -> Result<Text, AllocError> {
    Text::of(alloc, chars)
}

pub fn value_of(alloc: Global, plain: Plain) -> Result<Value, AllocError> {
    Ok(match plain {
        Plain::Null => Value::Null,
        Plain::Int(number) => Value::Int(number),
        Plain::Text(chars) => Value::Text(text(alloc, chars)?),
        Plain::NoCase(chars) => Value::NoCase(text(alloc, chars)?),
    })
}

pub fn values_of(alloc: Global, plain: &[Plain]) -> Result<Vec<Value>, AllocError> {
    let mut values = Vec::new(alloc);
    for plain in plain {
        values.push(value_of(alloc, *plain)?)?;
    }
    Ok(values)
}

pub fn row_of(alloc: Global, plain: &[Plain]) -> Result<Row, AllocError> {
    Ok(Row::new(values_of(alloc, plain)?))
}

/// Whether a value equals a literal.
pub fn is(value: &Value, plain: Plain) -> bool {
    match (value, plain) {
        (Value::Null, Plain::Null) => true,
        (Value::Int(number), Plain::Int(due)) => *number == due,
        (Value::Text(text), Plain::Text(due)) => text.as_str() == due,
        (Value::NoCase(text), Plain::NoCase(due)) => text.as_str() == due,
        _ => false,
    }
}

/// Whether values equal literals, one by one.
pub fn are(values: &[Value], plain: &[Plain]) -> bool {
    values.len() == plain.len()
        && values
            .iter()
            .zip(plain)
            .all(|(value, plain)| is(value, *plain))
}
