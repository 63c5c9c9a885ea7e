//! Payloads that are accepted, and their rows.
use crate::spelled::spelled;
use crate::tables::{Table, schema};
use gq_load::load_rows;
use gq_row::Limits;
use std::process::Abort;
use std::test::Fail;

/// A payload for a table, and its rows spelled out.
type Case = (Table, &'static [u8], &'static str);

const RECORDS: [Case; 16] = [
    (
        Table::Cities,
        b"id,city\n1,Oslo\n2,Rome\n",
        "1,'Oslo';2,'Rome';",
    ),
    // The last record may end without a line end, and so may the header.
    (Table::Cities, b"id,city\n1,Oslo", "1,'Oslo';"),
    (Table::Cities, b"id,city\n", ""),
    (Table::Cities, b"id,city", ""),
    (
        Table::Cities,
        b"id,city\r\n1,Oslo\r\n2,Rome\r\n",
        "1,'Oslo';2,'Rome';",
    ),
    (
        Table::Cities,
        b"id,city\r1,Oslo\r2,Rome\r",
        "1,'Oslo';2,'Rome';",
    ),
    // One byte-order mark is dropped.
    (Table::Cities, b"\xef\xbb\xbfid,city\n1,Oslo\n", "1,'Oslo';"),
    (
        Table::Cities,
        b"\xef\xbb\xbf\"id\",city\n1,Oslo\n",
        "1,'Oslo';",
    ),
    // Columns in another order: a value goes to the column that the header names.
    (
        Table::Cities,
        b"city,id\nOslo,1\nRome,2\n",
        "1,'Oslo';2,'Rome';",
    ),
    (Table::Words, b"word,n\na,1\n", "1,'a';"),
    (
        Table::Cities,
        b"\"city\",\"id\"\n\"Oslo\",\"1\"\n",
        "1,'Oslo';",
    ),
    // All rows of one key are returned, in the order of the payload.
    (
        Table::Cities,
        b"id,city\n1,a\n1,b\n1,a\n",
        "1,'a';1,'b';1,'a';",
    ),
    // Blank lines are no records, before the header too.
    (
        Table::Cities,
        b"\n\r\nid,city\n\n1,a\n\r\n\n2,b\n\n",
        "1,'a';2,'b';",
    ),
    (Table::Notes, b"note\n\n\"\"\n\nx\n", "'';'x';"),
    // A line of one space is a record.
    (Table::Notes, b"note\n \n", "' ';"),
    (Table::Pairs, b"b,a\n1,2\n\n3,", "2,1;null,3;"),
];

const QUOTES: [Case; 8] = [
    (
        Table::Cities,
        b"\xef\xbb\xbfcity,id\r\n\"a, \"\"b\"\"\r\nc\",1\r\nOslo, 2 \r\n",
        "1,'a, \"b\"\r\nc';2,'Oslo';",
    ),
    (Table::Cities, b"id,city\n1,\"a\nb\"\n", "1,'a\nb';"),
    (
        Table::Cities,
        b"id,city\n1,\"\n\n\"\n2,x\n",
        "1,'\n\n';2,'x';",
    ),
    (Table::Cities, b"id,city\n1,\"a,b\"\n", "1,'a,b';"),
    (Table::Cities, b"id,city\n1,\"\"\"\"\n", "1,'\"';"),
    (Table::Cities, b"id,city\n1,it's\n", "1,'it's';"),
    (Table::Cities, b"id,city\n\"1\",\" Oslo \"\n", "1,' Oslo ';"),
    (Table::Cities, b"id,city\n1, Oslo \n", "1,' Oslo ';"),
];

const NULLS: [Case; 11] = [
    // Null in quotes is null, as without them.
    (Table::Cities, b"id,city\n1,\\N\n", "1,null;"),
    (Table::Cities, b"id,city\n1,\"\\N\"\n", "1,null;"),
    (Table::Pairs, b"a,b\n\\N,\"\\N\"\n", "null,null;"),
    // An empty INT field is null, an empty TEXT field the empty text.
    (Table::Pairs, b"a,b\n,1\n", "null,1;"),
    (Table::Pairs, b"a,b\n1,\"\"\n", "1,null;"),
    (Table::Cities, b"id,city\n1,\n", "1,'';"),
    (Table::Cities, b"id,city\n1,\"\"\n", "1,'';"),
    (Table::Notes, b"note\n\\N\n", "null;"),
    // No other spelling is null.
    (Table::Cities, b"id,city\n1,\\n\n", "1,'\\n';"),
    (Table::Cities, b"id,city\n1, \\N\n", "1,' \\N';"),
    (Table::Cities, b"id,city\n1,null\n", "1,'null';"),
];

const NUMBERS: [Case; 9] = [
    (Table::Pairs, b"a,b\n 7,7 \n", "7,7;"),
    (Table::Pairs, b"a,b\n   -42  ,\" 42 \"\n", "-42,42;"),
    (Table::Pairs, b"a,b\n+7,-7\n", "7,-7;"),
    (Table::Pairs, b"a,b\n+0,-0\n", "0,0;"),
    (
        Table::Pairs,
        b"a,b\n007,0000000000000000000000000000001\n",
        "7,1;",
    ),
    (
        Table::Pairs,
        b"a,b\n9223372036854775807,-9223372036854775808\n",
        "9223372036854775807,-9223372036854775808;",
    ),
    (
        Table::Pairs,
        b"a,b\n+9223372036854775806,-9223372036854775807\n",
        "9223372036854775806,-9223372036854775807;",
    ),
    (Table::Pairs, b"a,b\n10,100\n", "10,100;"),
    (
        Table::Pairs,
        b"a,b\n1234567890,-987654321\n",
        "1234567890,-987654321;",
    ),
];

/// Texts without case keep their spelling, in rows with the same key too.
const WITHOUT_CASE: [Case; 5] = [
    (
        Table::Towns,
        b"id,town\n1,Oslo\n2,OSLO\n3,oslo\n",
        "1,~'Oslo';2,~'OSLO';3,~'oslo';",
    ),
    (
        Table::Towns,
        b"town,id\n\"Rome, \"\"Centre\"\"\",1\n",
        "1,~'Rome, \"Centre\"';",
    ),
    (Table::Towns, b"id,town\n1,\n2,\"\"\n", "1,~'';2,~'';"),
    (Table::Towns, b"id,town\n1,\\n\n", "1,~'\\n';"),
    (
        Table::Towns,
        b"id,town\n1,\xc3\x89\n2,\xc3\xa9\n",
        "1,~'\u{c9}';2,~'\u{e9}';",
    ),
];

// Whether each payload of a list of cases has the expected rows.
fn all_right(rt: &(impl AllocGlobal + Abort), cases: &[Case]) -> Result<(), Fail> {
    let alloc = rt.alloc();
    for (table, payload, due) in cases {
        let Some(schema) = schema(alloc, *table) else {
            assert!(rt; false, "no schema");
            return Ok(());
        };
        match load_rows(alloc, payload, &schema, &Limits::greatest()) {
            Ok(rows) => {
                let found = spelled(alloc, rows.as_slice())?;
                assert_eq!(rt; found.as_str(), *due, "rows of {due}");
            }
            Err(refusal) => assert!(rt; false, "{refusal} in place of {due}"),
        }
    }
    Ok(())
}

#[test]
fn records_of_payloads(rt: HostRuntime) -> Result<(), Fail> {
    all_right(&rt, &RECORDS)
}

#[test]
fn quoted_fields(rt: HostRuntime) -> Result<(), Fail> {
    all_right(&rt, &QUOTES)
}

#[test]
fn nulls(rt: HostRuntime) -> Result<(), Fail> {
    all_right(&rt, &NULLS)
}

#[test]
fn texts_without_case(rt: HostRuntime) -> Result<(), Fail> {
    all_right(&rt, &WITHOUT_CASE)
}

#[test]
fn whole_numbers(rt: HostRuntime) -> Result<(), Fail> {
    all_right(&rt, &NUMBERS)
}
