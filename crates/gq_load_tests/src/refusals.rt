//! Payloads that are refused, and the first fault of each.
use crate::tables::{Table, limits, schema};
use gq_load::{LoadRefusal, load_rows};
use std::alloc::Global;
use std::process::Abort;
use std::test::Fail;

/// A payload for the cities, with texts of at most four bytes and at most three records, and its fault.
type Case = (&'static [u8], LoadRefusal);

const HEADERS: [Case; 14] = [
    (b"", LoadRefusal::Header),
    (b"\n\r\n\n", LoadRefusal::Header),
    (b"\xef\xbb\xbf", LoadRefusal::Header),
    (b"\xef\xbb\xbf\xef\xbb\xbfid,city\n", LoadRefusal::Header),
    (b"id\n1\n", LoadRefusal::Header),
    (b"id,id\n", LoadRefusal::Header),
    (b"id,city,id\n", LoadRefusal::Header),
    (b"id,city,\n", LoadRefusal::Header),
    (b"id,City\n", LoadRefusal::Header),
    (b"id, city\n", LoadRefusal::Header),
    (b"id,town\n", LoadRefusal::Header),
    (b"id;city\n", LoadRefusal::Header),
    (b"1,Oslo\n", LoadRefusal::Header),
    (b"id,town\n1\n", LoadRefusal::Header),
];

const RECORDS: [Case; 21] = [
    (b"id,city\n1,a\n2\n", LoadRefusal::FieldCount(2)),
    (b"id,city\n1,a,b\nx,a\n", LoadRefusal::FieldCount(1)),
    (b"id,city\n1,a,\n", LoadRefusal::FieldCount(1)),
    (b"id,city\n1,a\n\n\r\n\n2\n", LoadRefusal::FieldCount(2)),
    (b"id,city\n\"1\n2\",a,b\n", LoadRefusal::FieldCount(1)),
    // The number of fields before the fields.
    (b"id,city\nx,\xff,\n", LoadRefusal::FieldCount(1)),
    // The fields in the payload's order.
    (b"id,city\nx,\xff\n", LoadRefusal::BadInt(1)),
    (b"city,id\n\xff,x\n", LoadRefusal::BadText(1)),
    (b"city,id\nlonger,x\n", LoadRefusal::Limit),
    (b"id,city\nx,longer\n", LoadRefusal::BadInt(1)),
    // The first faulty record.
    (b"id,city\n1,a\n2,b\nx,c\n", LoadRefusal::BadInt(3)),
    (b"id,city\n1,longer\nx,a\n", LoadRefusal::Limit),
    (b"id,city\n1,a\n2,\xc3\n3\n", LoadRefusal::BadText(2)),
    // A text's bytes before its length.
    (
        b"id,city\n1,\xff\xff\xff\xff\xff\n",
        LoadRefusal::BadText(1),
    ),
    (b"id,city\n1,abcde\n", LoadRefusal::Limit),
    // Null in a key column after the fields of its record, and before later records.
    (b"id,city\n,a\n", LoadRefusal::NullKey(1)),
    (b"id,city\n1,a\n\"\\N\",b\n", LoadRefusal::NullKey(2)),
    (b"id,city\n,\xff\n", LoadRefusal::BadText(1)),
    (b"id,city\n,longer\n", LoadRefusal::Limit),
    (b"id,city\n,a\nx,b\n", LoadRefusal::NullKey(1)),
    (b"id,city\nx,a\n,b\n", LoadRefusal::BadInt(1)),
];

const COUNTS: [Case; 6] = [
    (b"id,city\n1,a\n2,b\n3,c\n4,d\n", LoadRefusal::Limit),
    // Records are counted, whether their keys are equal or not.
    (b"id,city\n1,a\n1,a\n1,a\n1,a\n", LoadRefusal::Limit),
    // Any fault is reported before too many records.
    (b"id,city\n1,a\n2,b\n3,c\nx,d\n", LoadRefusal::BadInt(4)),
    (
        b"id,city\n1,a\n2,b\n3,c\n4,d\nx,e\n",
        LoadRefusal::BadInt(5),
    ),
    (
        b"id,city\n1,a\n2,b\n3,c\n4,d\n,e\n",
        LoadRefusal::NullKey(5),
    ),
    (
        b"id,city\n1,a\n2,b\n3,c\n4,d\n5\n",
        LoadRefusal::FieldCount(5),
    ),
];

/// Payloads for the towns, whose texts are without case, and their faults.
const TOWNS: [Case; 7] = [
    (b"id,Town\n", LoadRefusal::Header),
    (b"id,town\n1,a\n2,\xff\n", LoadRefusal::BadText(2)),
    (b"id,town\nx,\xff\n", LoadRefusal::BadInt(1)),
    (b"id,town\n1,abcde\n", LoadRefusal::Limit),
    (b"id,town\n1,\\N\n", LoadRefusal::NullKey(1)),
    (b"id,town\n1,a\n2,\"\\N\"\n", LoadRefusal::NullKey(2)),
    // Records are counted, whether their keys are the same or not.
    (
        b"id,town\n1,Oslo\n2,OSLO\n3,oslo\n4,oSLO\n",
        LoadRefusal::Limit,
    ),
];

const NOT_NUMBERS: [&[u8]; 16] = [
    b" ",
    b"+",
    b"-",
    b"+-1",
    b"--1",
    b"- 1",
    b"1 2",
    b"\t1",
    b"1\t",
    b"1.0",
    b"1e3",
    b"1_000",
    b"0x10",
    b"\xff",
    b"9223372036854775808",
    b"-9223372036854775809",
];

const NOT_UTF_8: [&[u8]; 4] = [b"\xff", b"\xc3", b"\xed\xa0\x80", b"\xc0\x80"];

const TEXTS: [(LoadRefusal, &str); 7] = [
    (LoadRefusal::NullKey(1), "record 1: a key column is null"),
    (
        LoadRefusal::Header,
        "the header does not name each column once",
    ),
    (
        LoadRefusal::FieldCount(2),
        "record 2: more or fewer fields than the header has",
    ),
    (
        LoadRefusal::BadInt(16_777_216),
        "record 16777216: a field is no whole number of 64 bits",
    ),
    (LoadRefusal::BadText(4), "record 4: a field is not UTF-8"),
    (
        LoadRefusal::Limit,
        "a text is too long, or there are too many records",
    ),
    (LoadRefusal::Memory, "out of memory"),
];

fn refusal_for(alloc: Global, table: Table, payload: &[u8]) -> Option<LoadRefusal> {
    let schema = schema(alloc, table)?;
    load_rows(alloc, payload, &schema, &limits(4, 3)?).err()
}

fn refusal(alloc: Global, payload: &[u8]) -> Option<LoadRefusal> {
    refusal_for(alloc, Table::Cities, payload)
}

fn all_refused(rt: &(impl AllocGlobal + Abort), cases: &[Case]) {
    for (payload, fault) in cases {
        assert_eq!(rt; refusal(rt.alloc(), payload), Some(*fault));
    }
}

#[test]
fn faulty_headers(rt: HostRuntime) {
    all_refused(&rt, &HEADERS);
}

#[test]
fn first_faults(rt: HostRuntime) {
    all_refused(&rt, &RECORDS);
}

#[test]
fn too_many_records(rt: HostRuntime) {
    all_refused(&rt, &COUNTS);
    // As many records, and texts as long, as the limits allow.
    let most: [&[u8]; 2] = [
        b"id,city\n1,Oslo\n2,Rome\n3,Bern\n",
        b"id,city\n1,\xc3\xa9\xc3\xa9\n1,Rome\n1,Bern",
    ];
    for payload in most {
        assert_eq!(rt; refusal(rt.alloc(), payload), None);
    }
}

#[test]
fn texts_without_case(rt: HostRuntime) {
    for (payload, fault) in TOWNS {
        let found = refusal_for(rt.alloc(), Table::Towns, payload);
        assert_eq!(rt; found, Some(fault));
    }
}

#[test]
fn no_numbers(rt: HostRuntime) -> Result<(), Fail> {
    for field in NOT_NUMBERS {
        let mut payload = Vec::from_slice(rt.alloc(), b"city,id\nOslo,1\nOslo,")?;
        payload.extend_from_slice(field)?;
        let found = refusal(rt.alloc(), payload.as_slice());
        assert_eq!(rt; found, Some(LoadRefusal::BadInt(2)));
    }
    Ok(())
}

#[test]
fn no_texts(rt: HostRuntime) -> Result<(), Fail> {
    for field in NOT_UTF_8 {
        let mut payload = Vec::from_slice(rt.alloc(), b"id,city\n1,Oslo\n2,")?;
        payload.extend_from_slice(field)?;
        let found = refusal(rt.alloc(), payload.as_slice());
        assert_eq!(rt; found, Some(LoadRefusal::BadText(2)));
    }
    Ok(())
}

#[test]
fn texts_of_refusals(rt: HostRuntime) -> Result<(), Fail> {
    let alloc = rt.alloc();
    for (refusal, due) in TEXTS {
        let text = format!(in alloc; "{refusal}")?;
        assert_eq!(rt; text.as_str(), due);
    }
    Ok(())
}
