//! Values, rows, keys and schemas, with ample memory.
use crate::expected::{expect, expect_at};
use crate::plain::{Plain, are, is, row_of, text, value_of, values_of};
use gq_row::{Column, Key, Kind, Row, Schema, Value, compare, compare_keys};
use std::alloc::{AllocError, Global};
use std::cmp::Ordering;
use std::fmt::Debug;
use std::process::Abort;
use std::test::Fail;

fn expect_copy(rt: &impl Abort, alloc: Global, plain: Plain) -> Result<(), AllocError> {
    let value = value_of(alloc, plain)?;
    let copy = value.copy(alloc)?;
    assert!(rt; is(&copy, plain));
    Ok(())
}

fn expect_copied_text(rt: &impl Abort, alloc: Global, chars: &str) -> Result<(), AllocError> {
    let copy = text(alloc, chars)?.copy(alloc)?;
    expect(rt, copy.as_str(), chars);
    Ok(())
}

fn expect_copied_row(rt: &impl Abort, alloc: Global, plain: &[Plain]) -> Result<(), AllocError> {
    let row = row_of(alloc, plain)?;
    let copy = row.copy(alloc)?;
    assert!(rt; are(copy.cells(), plain));
    Ok(())
}

#[test]
fn copies(rt: HostRuntime) -> Result<(), Fail> {
    for plain in [
        Plain::Text("a"),
        Plain::NoCase("Oslo"),
        Plain::Int(-7),
        Plain::Null,
    ] {
        expect_copy(&rt, rt.alloc(), plain)?;
    }
    expect_copied_text(&rt, rt.alloc(), "b")?;
    expect_copied_row(&rt, rt.alloc(), &[Plain::Int(1), Plain::Text("a")])?;
    let row = row_of(rt.alloc(), &[Plain::Int(1), Plain::Text("a")])?;
    expect_keys(&rt, rt.alloc(), &row)
}

/// The keys of two columns, in reverse order, and of five.
fn expect_keys(rt: &impl Abort, alloc: Global, row: &Row) -> Result<(), Fail> {
    assert!(rt; row.len() == 2);
    let key = Key::of(alloc, row.cells(), &[1, 0])?;
    assert!(rt; are(key.cells(), &[Plain::Text("a"), Plain::Int(1)]));
    let longer = Key::of(alloc, row.cells(), &[1, 0, 0, 1, 0])?;
    expect(rt, longer.len(), 5);
    expect_order(rt, &key, &longer);
    Ok(())
}

fn expect_order(rt: &impl Abort, key: &Key, longer: &Key) {
    expect(rt, compare_keys(key, longer), Ordering::Less);
    expect(rt, compare_keys(longer, key), Ordering::Greater);
    expect(rt, compare_keys(key, key), Ordering::Equal);
}

/// Null, then numbers, then texts by their bytes, then texts without case by their folds.
const ASCENDING: [Plain; 18] = [
    Plain::Null,
    Plain::Int(i64::MIN),
    Plain::Int(-1),
    Plain::Int(0),
    Plain::Int(i64::MAX),
    Plain::Text(""),
    Plain::Text("B"),
    Plain::Text("a"),
    Plain::Text("ab"),
    Plain::Text("\u{e9}"),
    Plain::NoCase(""),
    Plain::NoCase("_"),
    Plain::NoCase("A"),
    Plain::NoCase("a"),
    Plain::NoCase("AB"),
    Plain::NoCase("B"),
    Plain::NoCase("\u{c9}"),
    Plain::NoCase("\u{e9}"),
];

fn expect_ascending(rt: &impl Abort, values: &[Value]) {
    for (i, a) in values.iter().enumerate() {
        for (j, b) in values.iter().enumerate() {
            expect_at(rt, (i, j), compare(a, b), i.cmp(&j));
        }
    }
}

#[test]
fn values_in_order(rt: HostRuntime) -> Result<(), Fail> {
    let ascending = values_of(rt.alloc(), &ASCENDING)?;
    expect(&rt, ascending.len(), 18);
    expect_ascending(&rt, ascending.as_slice());
    Ok(())
}

fn columns(alloc: Global, names: &[&str]) -> Result<Vec<Column>, AllocError> {
    let mut columns = Vec::new(alloc);
    for name in names {
        columns.push(Column {
            name: text(alloc, name)?,
            kind: Kind::Int,
        })?;
    }
    Ok(columns)
}

/// Names of columns, the positions of key columns, and whether they make a schema.
const SCHEMAS: [(&[&str], &[usize], bool); 7] = [
    (&["a", "b"], &[], true),
    (&["a", "b"], &[1, 0], true),
    (&["a", "A"], &[0], true),
    (&["a", "b", "a"], &[], false),
    (&["a", "b"], &[2], false),
    (&["a", "b"], &[0, 0], false),
    (&[], &[], true),
];

fn schema_of(alloc: Global, names: &[&str], key: &[usize]) -> Result<Option<Schema>, AllocError> {
    let positions = Vec::from_slice(alloc, key)?;
    Ok(Schema::new(columns(alloc, names)?, positions))
}

fn expect_schema(rt: &impl Abort, schema: &Schema, names: &[&str], key: &[usize]) {
    expect(rt, schema.key(), key);
    expect(rt, schema.columns().len(), names.len());
    expect(
        rt,
        schema.find("b"),
        names.iter().position(|name| *name == "b"),
    );
    expect(rt, schema.find("c"), None);
}

fn expect_schemas(
    rt: &impl Abort,
    alloc: Global,
    cases: &[(&[&str], &[usize], bool)],
) -> Result<(), Fail> {
    for (names, key, is_one) in cases {
        let schema = schema_of(alloc, names, key)?;
        expect_at(rt, (*names, *key), schema.is_some(), *is_one);
        if let Some(schema) = &schema {
            expect_schema(rt, schema, names, key);
        }
    }
    Ok(())
}

#[test]
fn schemas(rt: HostRuntime) -> Result<(), Fail> {
    expect_schemas(&rt, rt.alloc(), &SCHEMAS)
}

fn expect_shown<T: Debug>(
    rt: &impl Abort,
    alloc: Global,
    shown: &T,
    due: &str,
) -> Result<(), Fail> {
    let text = format!(in alloc; "{shown:?}")?;
    expect(rt, text.as_str(), due);
    Ok(())
}

/// A text is shown as Rust shows a string, inline or on the heap, alone and within a value.
#[test]
fn texts_show_as_strings(rt: HostRuntime) -> Result<(), Fail> {
    let alloc = rt.alloc();
    expect_shown(&rt, alloc, &text(alloc, "")?, "\"\"")?;
    expect_shown(&rt, alloc, &text(alloc, "Oslo")?, "\"Oslo\"")?;
    let long = text(alloc, "a \"quoted\" text of 29\tbytes\n\\")?;
    expect_shown(
        &rt,
        alloc,
        &long,
        "\"a \\\"quoted\\\" text of 29\\tbytes\\n\\\\\"",
    )?;
    expect_shown(&rt, alloc, &Value::Text(text(alloc, "a")?), "Text(\"a\")")?;
    expect_shown(
        &rt,
        alloc,
        &Value::NoCase(text(alloc, "A")?),
        "NoCase(\"A\")",
    )
}
