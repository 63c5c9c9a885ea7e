//! Each limit at its value and one past it.
use crate::engines::run_alone;
use crate::expected::expect_at;
use gq_engine::Fault;
use gq_row::{Bounds, Limits};
use std::alloc::Global;
use std::process::Abort;
use std::test::Fail;

/// The largest bounds, by the names of their fields.
const FIELDS: [(&str, u64); 9] = [
    ("tables", 64),
    ("columns", 128),
    ("aggregates", 16),
    ("name", 63),
    ("text", 65_535),
    ("line", 65_536),
    ("payload", 268_435_456),
    ("rows", 16_777_216),
    ("script", 1_099_511_627_776),
];

/// The largest bounds, with another value in one field.
fn with(field: &str, value: u64) -> Bounds {
    let mut bounds = Limits::greatest().bounds;
    let size = value as usize;
    match field {
        "tables" => bounds.tables = size,
        "columns" => bounds.columns = size,
        "aggregates" => bounds.aggregates = size,
        "name" => bounds.name = size,
        "text" => bounds.text = size,
        "line" => bounds.line = size,
        "payload" => bounds.payload = size,
        "rows" => bounds.rows = size,
        _ => bounds.script = value,
    }
    bounds
}

/// Expects that a field accepts a value.
fn expect_taken(rt: &impl Abort, field: &str, value: u64) {
    let made = Limits::new(with(field, value));
    let taken = made.is_some_and(|limits| limits.bounds == with(field, value));
    expect_at(rt, (field, value), taken, true);
}

fn expect_refused(rt: &impl Abort, field: &str, value: u64) {
    let refused = Limits::new(with(field, value)).is_none();
    expect_at(rt, (field, value), refused, true);
}

/// Asserts that each field accepts values from one to its maximum, and no others.
fn assert_fields(rt: &impl Abort, fields: &[(&str, u64)]) {
    for (field, greatest) in fields {
        for value in [1, *greatest] {
            expect_taken(rt, field, value);
        }
        for value in [0, greatest.saturating_add(1), u64::MAX] {
            expect_refused(rt, field, value);
        }
        let is_greatest = with(field, *greatest) == Limits::greatest().bounds;
        expect_at(rt, *field, is_greatest, true);
    }
}

#[test]
fn limits_from_one_to_the_greatest(rt: HostRuntime) {
    assert_fields(&rt, &FIELDS);
}

/// A field, its value, a script, and what the script must write under that limit.
type Case<'a> = (&'a str, u64, &'a [u8], &'a [u8]);

const CASES: [Case; 17] = [
    (
        "tables",
        2,
        b"create a (x int)\ncreate b (x int)\ncreate c (x int)\nupsert c (1)\nupsert b (1)\n",
        b"ok 0\nok 0\nerr 14 Limit\nerr 3 NoTable\nok 1\n",
    ),
    (
        "columns",
        2,
        b"create a (x int, y int)\ncreate b (x int, y int, z int)\n",
        b"ok 0\nerr 14 Limit\n",
    ),
    // The limit on columns applies only to `create`.
    (
        "columns",
        1,
        b"create a (x int)\nupsert a (1, 2)\ngroup a by x, y show count(*)\n",
        b"ok 0\nerr 6 TypeMismatch\nerr 5 NoColumn\n",
    ),
    (
        "aggregates",
        2,
        b"create a (x int)\ngroup a by x show count(*)\ngroup a by x show min(x), max(x)\ngroup a show min(x), max(x), count(*)\n",
        b"ok 0\nok 0\nx,count(*)\nok 0\nx,min(x),max(x)\nerr 14 Limit\n",
    ),
    (
        "name",
        3,
        b"create abc (xyz int)\ncreate abcd (x int)\ncreate b (wxyz int)\nupsert abcd (1)\n",
        b"ok 0\nerr 14 Limit\nerr 14 Limit\nerr 14 Limit\n",
    ),
    (
        "text",
        4,
        b"create a (x text)\nupsert a ('1234')\nupsert a ('12345')\nupsert a ('123''')\n",
        b"ok 0\nok 1\nerr 14 Limit\nok 1\n",
    ),
    // Lines of 16 and of 17 bytes, not counting the LF or CR LF after them.
    (
        "line",
        16,
        b"create a (x int)\ncreate b (x int)\r\ncreate cc (x int)\ncreate d (x int)",
        b"ok 0\nok 0\nerr 2 LineTooLong\nok 0\n",
    ),
    (
        "line",
        1,
        b"a\nab\n                  -- a comment\n",
        b"err 1 Syntax\nerr 2 LineTooLong\n",
    ),
    ("payload", 1, b"create a (x int)\n", b"ok 0\n"),
    (
        "rows",
        2,
        b"create a (x int)\nupsert a (1)\nupsert a (1)\nupsert a (1)\ngroup a by x show count(*)\n",
        b"ok 0\nok 1\nok 1\nerr 14 Limit\nok 1\nx,count(*)\n1,2\n",
    ),
    // A row that replaces another adds none.
    (
        "rows",
        1,
        b"create a (x int, y int, key (x))\nupsert a (1, 1)\nupsert a (1, 2)\nupsert a (2, 2)\ngroup a by y show count(*)\n",
        b"ok 0\nok 1\nok 1\nerr 14 Limit\nok 1\ny,count(*)\n2,1\n",
    ),
    // A load is refused for the number of rows after it, where equal keys count once, and for the
    // number of its records, equal keys included.
    (
        "rows",
        3,
        b"create s (id int, city text, key (id))\nload s\nid,city\n1,a\n2,b\n\\.\nload s\nid,city\n1,x\n2,y\n3,z\n\\.\nload s\nid,city\n4,q\n\\.\nupsert s (3, 'w')\nshow s\n",
        b"ok 0\nok 2\nok 3\nerr 14 Limit\nok 1\nok 3\nid,city\n1,x\n2,y\n3,w\n",
    ),
    (
        "rows",
        2,
        b"create s (id int, key (id))\nload s\nid\n1\n1\n1\n\\.\nload s\nid\n1\n1\n\\.\nshow s\n",
        b"ok 0\nerr 14 Limit\nok 2\nok 1\nid\n1\n",
    ),
    // Payloads of four and of five bytes; the header of the longer one isn't looked at.
    (
        "payload",
        4,
        b"create s (x int)\nload s\nx\n1\n\\.\nload s\ny\n12\n\\.\nload s\nx\n23\nshow s\n",
        b"ok 0\nok 1\nerr 14 Limit\nerr 18 LoadOpen\n",
    ),
    ("script", 17, b"create a (x int)\n", b"ok 0\n"),
    // A byte-order mark is counted.
    ("script", 19, b"\xEF\xBB\xBFcreate a (x int)", b"ok 0\n"),
    ("script", 3, b"\xEF\xBB\xBF", b""),
];

/// Expects what a script writes under a limit, and whether it ends in a read fault.
fn expect_case(rt: &impl Abort, alloc: Global, case: Case, faults: bool) -> Result<(), Fail> {
    let (field, value, script, due) = case;
    let Some(limits) = Limits::new(with(field, value)) else {
        return Err(Fail::new("no limits"));
    };
    let (written, ended) = run_alone(alloc, limits, script);
    expect_at(rt, (field, value), written.as_slice(), due);
    expect_at(rt, (field, value), ended == Err(Fault::Read), faults);
    Ok(())
}

/// Asserts what each script writes, and whether it ends in a read fault.
fn assert_cases(rt: &impl Abort, alloc: Global, cases: &[Case], faults: bool) -> Result<(), Fail> {
    for case in cases {
        expect_case(rt, alloc, *case, faults)?;
    }
    Ok(())
}

#[test]
fn each_limit_and_one_past_it(rt: HostRuntime) -> Result<(), Fail> {
    assert_cases(&rt, rt.alloc(), &CASES, false)
}

/// Scripts of one byte more than their limit: the lines that are whole within the limit are
/// answered before the read fault.
const PAST: [Case; 5] = [
    ("script", 16, b"create a (x int)\n", b""),
    ("script", 17, b"create a (x int)\n\n", b"ok 0\n"),
    ("script", 18, b"\xEF\xBB\xBFcreate a (x int)", b""),
    ("script", 2, b"\xEF\xBB\xBF", b""),
    ("script", 1, b"\n\n", b""),
];

#[test]
fn a_script_past_its_limit(rt: HostRuntime) -> Result<(), Fail> {
    assert_cases(&rt, rt.alloc(), &PAST, true)
}
