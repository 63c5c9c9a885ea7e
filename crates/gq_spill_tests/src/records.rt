//! Records of rows, worked out by hand.
use crate::rows::{no_case, number, spelled_row, text, worked};
use gq_row::{Row, Value};
use gq_spill::{decode_row, encode_row, is_storable};
use std::alloc::{AllocError, Global};
use std::process::Abort;
use std::test::Fail;

/// Some bytes, followed by a row's record.
pub(crate) fn with_record(alloc: Global, front: &[u8], row: &Row) -> Result<Vec<u8>, Fail> {
    let mut bytes = Vec::from_slice(alloc, front)?;
    if !is_storable(row) {
        return Err(Fail::from("it has no record"));
    }
    encode_row(row, &mut bytes)?;
    Ok(bytes)
}

/// The row whose record the bytes begin with, spelled out, and the length of the record.
fn decoded(alloc: Global, bytes: &[u8]) -> Result<Option<(String, usize)>, AllocError> {
    let Some((row, len)) = decode_row(alloc, bytes)? else {
        return Ok(None);
    };
    Ok(Some((spelled_row(alloc, &row)?, len)))
}

/// Expects that some bytes begin with the record of a row, of this length.
fn expect_decoded(
    rt: &impl Abort,
    alloc: Global,
    bytes: &[u8],
    due: &str,
    due_len: usize,
) -> Result<(), Fail> {
    let (row, len) = decoded(alloc, bytes)?.ok_or("it begins with a record")?;
    assert_eq!(rt; row.as_str(), due);
    assert_eq!(rt; len, due_len);
    Ok(())
}

fn expect_no_record(rt: &impl Abort, alloc: Global, bytes: &[u8]) -> Result<(), Fail> {
    let found = decoded(alloc, bytes)?;
    assert!(rt; found.is_none(), "{bytes:?}");
    Ok(())
}

/// Expects the record of a row, and the row when it is decoded.
fn expect_record(rt: &impl Abort, alloc: Global, row: &Row, due: &[u8]) -> Result<(), Fail> {
    let found = with_record(alloc, b"", row)?;
    assert_eq!(rt; found.as_slice(), due);
    let spelled = spelled_row(alloc, row)?;
    expect_decoded(rt, alloc, due, spelled.as_str(), due.len())
}

const WORKED: &[u8] = b"\0\0\0\x13\0\x01\xff\xff\xff\xff\xff\xff\xff\xff\x02\0\0\0\x04Oslo";

// A record is appended to what is there.
fn expect_behind(rt: &impl Abort, alloc: Global, row: &Row) -> Result<(), Fail> {
    let behind = with_record(alloc, b"ab", row)?;
    assert_eq!(rt; behind.len(), 25);
    assert!(rt; behind.starts_with(b"ab\0\0\0\x13\0\x01"));
    Ok(())
}

#[test]
fn the_record_of_a_row(rt: HostRuntime) -> Result<(), Fail> {
    let row = worked(rt.alloc())?;
    expect_record(&rt, rt.alloc(), &row, WORKED)?;
    expect_behind(&rt, rt.alloc(), &row)?;
    expect_decoded(&rt, rt.alloc(), WORKED, "null,-1,'Oslo';", 23)?;
    // No prefix of a record is one.
    for cut in 0..WORKED.len() {
        expect_no_record(&rt, rt.alloc(), &WORKED[..cut])?;
    }
    Ok(())
}

// Rows without texts, whose records are listed in the test.
fn plain_rows(alloc: Global) -> Result<Vec<Row>, AllocError> {
    let none = Row::new(Vec::new(alloc));
    let null = Row::new(vec![in alloc; Value::Null]?);
    Ok(vec![in alloc;
        none,
        null,
        number(alloc, 258)?,
        number(alloc, i64::MAX)?,
        number(alloc, i64::MIN)?,
    ]?)
}

fn rows_of_texts(alloc: Global) -> Result<Vec<Row>, AllocError> {
    let empty = Row::new(vec![in alloc; text(alloc, "")?]?);
    let accented = Row::new(vec![in alloc; text(alloc, "é")?, Value::Null]?);
    let spelling = Row::new(vec![in alloc; no_case(alloc, "OsLO")?, no_case(alloc, "")?]?);
    Ok(vec![in alloc; empty, accented, spelling]?)
}

fn expect_records(rt: &impl Abort, alloc: Global, rows: &[Row], due: &[&[u8]]) -> Result<(), Fail> {
    assert_eq!(rt; rows.len(), due.len());
    for (row, record) in rows.iter().zip(due.iter()) {
        expect_record(rt, alloc, row, record)?;
    }
    Ok(())
}

#[test]
fn records_of_each_kind(rt: HostRuntime) -> Result<(), Fail> {
    let plain = plain_rows(rt.alloc())?;
    expect_records(
        &rt,
        rt.alloc(),
        plain.as_slice(),
        &[
            b"\0\0\0\0",
            b"\0\0\0\x01\0",
            b"\0\0\0\x09\x01\0\0\0\0\0\0\x01\x02",
            b"\0\0\0\x09\x01\x7f\xff\xff\xff\xff\xff\xff\xff",
            b"\0\0\0\x09\x01\x80\0\0\0\0\0\0\0",
        ],
    )?;
    let texts = rows_of_texts(rt.alloc())?;
    expect_records(
        &rt,
        rt.alloc(),
        texts.as_slice(),
        &[
            b"\0\0\0\x05\x02\0\0\0\0",
            b"\0\0\0\x08\x02\0\0\0\x02\xc3\xa9\0",
            b"\0\0\0\x0e\x03\0\0\0\x04OsLO\x03\0\0\0\0",
        ],
    )
}

#[test]
fn what_stands_behind_a_record_is_left(rt: HostRuntime) -> Result<(), Fail> {
    let alloc = rt.alloc();
    expect_decoded(&rt, alloc, b"\0\0\0\x01\0\0\0\0\x01", "null;", 5)?;
    expect_decoded(&rt, alloc, b"\0\0\0\0abc", ";", 4)?;
    expect_decoded(&rt, alloc, b"\0\0\0\x06\x02\0\0\0\x01a\xff", "'a';", 10)?;
    expect_decoded(&rt, alloc, b"\0\0\0\x06\x03\0\0\0\x01A\xff", "~'A';", 10)
}

const NO_RECORDS: [&[u8]; 16] = [
    // No length, and no body.
    b"\0\0\0",
    b"\0\0\0\x01",
    b"\xff\xff\xff\xff\0",
    // Unknown tags.
    b"\0\0\0\x01\x04",
    b"\0\0\0\x06\x04\0\0\0\x01a",
    b"\0\0\0\x02\0\xff",
    // A number of seven bytes, and one that ends after its body.
    b"\0\0\0\x08\x01\0\0\0\0\0\0\0",
    b"\0\0\0\x08\x01\0\0\0\0\0\0\0\0",
    // A text that ends after its body, one with bytes after it, and one that isn't UTF-8.
    b"\0\0\0\x06\x02\0\0\0\x02ab",
    b"\0\0\0\x06\x02\0\0\0\0a",
    b"\0\0\0\x06\x02\0\0\0\x01\xff",
    b"\0\0\0\x03\x02\0\0",
    // The same for a text without case.
    b"\0\0\0\x01\x03",
    b"\0\0\0\x06\x03\0\0\0\x02ab",
    b"\0\0\0\x06\x03\0\0\0\0a",
    b"\0\0\0\x06\x03\0\0\0\x01\xff",
];

fn expect_no_records(rt: &impl Abort, alloc: Global, records: &[&[u8]]) -> Result<(), Fail> {
    for bytes in records {
        expect_no_record(rt, alloc, bytes)?;
    }
    Ok(())
}

#[test]
fn what_is_no_record(rt: HostRuntime) -> Result<(), Fail> {
    expect_no_records(&rt, rt.alloc(), &NO_RECORDS)
}
