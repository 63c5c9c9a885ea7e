//! Payloads of many records and of long ones.
use crate::tables::{Table, limits, schema};
use gq_load::{LoadRefusal, load_rows};
use gq_row::{Limits, Row, Value};
use std::alloc::{AllocError, Global};
use std::test::Fail;

const RECORDS: u64 = 100_000;

/// The cities 0 to 99,999, named by their numbers: every third name quoted, every fifth null, a blank line
/// after every seventh record.
fn payload(alloc: Global) -> Result<Vec<u8>, AllocError> {
    let mut text = Vec::from_slice(alloc, b"city,id\r\n")?;
    for i in 0..RECORDS {
        let line = if i % 5 == 0 {
            format!(in alloc; "\\N,{i}\n")?
        } else if i % 3 == 0 {
            format!(in alloc; "\"number, {i}\",{i}\n")?
        } else {
            format!(in alloc; "number {i}, {i} \r\n")?
        };
        text.extend_from_slice(line.as_str().as_bytes())?;
        if i % 7 == 0 {
            text.push(b'\n')?;
        }
    }
    Ok(text)
}

fn is_city(alloc: Global, row: &Row, i: u64) -> Result<bool, AllocError> {
    Ok(match row.cells() {
        [Value::Int(id), Value::Null] => i64::try_from(i) == Ok(*id) && i % 5 == 0,
        [Value::Int(id), Value::Text(city)] => {
            let comma = if i % 3 == 0 { "," } else { "" };
            let name = format!(in alloc; "number{comma} {i}")?;
            i64::try_from(i) == Ok(*id) && i % 5 != 0 && city.as_str() == name.as_str()
        }
        _ => false,
    })
}

#[test]
fn many_records(rt: HostRuntime) -> Result<(), Fail> {
    let alloc = rt.alloc();
    let mut payload = payload(alloc)?;
    let Some(schema) = schema(alloc, Table::Cities) else {
        assert!(rt; false);
        return Ok(());
    };
    match load_rows(alloc, payload.as_slice(), &schema, &Limits::greatest()) {
        Ok(rows) => {
            assert_eq!(rt; rows.len() as u64, RECORDS);
            for (i, row) in rows.as_slice().iter().enumerate() {
                assert!(rt; is_city(alloc, row, i as u64)?, "record {i}");
            }
        }
        Err(refusal) => assert!(rt; false, "{refusal}"),
    }
    for (rows, is_refused) in [(99_999, true), (100_000, false), (100_001, false)] {
        let Some(limits) = limits(65_535, rows) else {
            assert!(rt; false);
            return Ok(());
        };
        let found = load_rows(alloc, payload.as_slice(), &schema, &limits).err();
        let due = if is_refused {
            Some(LoadRefusal::Limit)
        } else {
            None
        };
        assert_eq!(rt; found, due, "limit {rows}");
    }
    payload.extend_from_slice(b"x,1.5\n")?;
    for limits in [
        limits(65_535, 3),
        limits(65_535, 100_000),
        limits(65_535, 100_001),
    ] {
        let found = match limits {
            Some(limits) => load_rows(alloc, payload.as_slice(), &schema, &limits).err(),
            None => None,
        };
        assert_eq!(rt; found, Some(LoadRefusal::BadInt(100_001)));
    }
    Ok(())
}

/// A payload of one text of `size` bytes.
fn long_text(alloc: Global, size: usize) -> Result<Vec<u8>, AllocError> {
    let mut text = Vec::from_slice(alloc, b"note\n")?;
    for _ in 0..size {
        text.push(b'a')?;
    }
    Ok(text)
}

#[test]
fn long_texts(rt: HostRuntime) -> Result<(), Fail> {
    let alloc = rt.alloc();
    let Some(schema) = schema(alloc, Table::Notes) else {
        assert!(rt; false);
        return Ok(());
    };
    for size in [8_186, 8_187, 8_188, 65_535] {
        let payload = long_text(alloc, size)?;
        match load_rows(alloc, payload.as_slice(), &schema, &Limits::greatest()) {
            Ok(rows) => match rows.as_slice() {
                [row] => {
                    let found = match row.cells() {
                        [Value::Text(text)] => text.len(),
                        _ => 0,
                    };
                    assert_eq!(rt; found, size);
                }
                _ => assert!(rt; false, "size {size}"),
            },
            Err(refusal) => assert!(rt; false, "{refusal}"),
        }
    }
    let payload = long_text(alloc, 65_536)?;
    let found = load_rows(alloc, payload.as_slice(), &schema, &Limits::greatest()).err();
    assert_eq!(rt; found, Some(LoadRefusal::Limit));
    Ok(())
}
