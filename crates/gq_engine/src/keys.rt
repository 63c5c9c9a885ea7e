//! Values given as the key of a row.
ghost use Rattle.std.specs.Prelude.{◌≡◌, ◌<◌, All, length};
ghost use Rattle.std.specs.List.{list_any};
ghost use Rattle.gq_row.specs.Fitting.{is_null};
ghost use Rattle.gq_engine.specs.Refusing.{fits_key, key_within, stored_key};

use gq_reply::{Refusal, Refused};
use gq_row::{Column, Schema, Value};
use std::mem::replace;

/// Makes each of the values that are given as a key what its column stores of it. They move, so it
/// takes no memory.
pub fn store_key(schema: &Schema, values: &mut [Value])
    ensures { values.new ≡ stored_key schema.now.columns schema.now.key values.old }
{
    store_values(schema.columns(), schema.key(), values);
}

/// Why values are no key of a row in a table: it has no key, they don't fit its key columns, or one
/// of them is null.
pub fn check_key(schema: &Schema, values: &[Value]) -> Result<(), Refused>
    ensures { result ≡ key_within schema.now values.now }
{
    if schema.key().is_empty() {
        return Err(Refused::from(Refusal::NoKey));
    }
    if !fit_key(schema.columns(), schema.key(), values) {
        return Err(Refused::from(Refusal::TypeMismatch));
    }
    if has_null(values) {
        return Err(Refused::from(Refusal::NullKey));
    }
    Ok(())
}

// Whether there is a value for each key column, and each has its column's kind or is null.
fn fit_key(columns: &[Column], key: &[usize], values: &[Value]) -> bool
    requires { All (λ position. position < length columns.now) key.now }
    ensures { result ≡ fits_key columns.now key.now values.now }
{
    if key.len() != values.len() {
        return false;
    }
    for i in 0..key.len() {
        if !columns[key[i]].kind.takes(&values[i]) {
            return false;
        }
    }
    true
}

fn store_values(columns: &[Column], key: &[usize], values: &mut [Value])
    requires { All (λ position. position < length columns.now) key.now }
    ensures { values.new ≡ stored_key columns.now key.now values.old }
{
    for i in 0..values.len().min(key.len()) {
        let value = replace(&mut values[i], Value::Null);
        values[i] = columns[key[i]].kind.stored(value);
    }
}

fn has_null(values: &[Value]) -> bool
    ensures { result ≡ list_any is_null values.now }
{
    values.iter().any(|value| value.is_null())
}
