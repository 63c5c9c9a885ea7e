//! Lines and scripts, as users write them. The expected results are written by hand, from the
//! language's rules.
use crate::devices::Pieces;
use crate::expected::{expect, expect_at};
use crate::plain::{Plain, are};
use gq_command::{
    Aggregate, Command, CommandReader, Item, LineRefusal, Payload, ReadFault, parse_line,
};
use gq_row::{Bounds, Column, Kind, Limits, Text};
use std::alloc::{AllocError, Global};
use std::fmt::Debug;
use std::io::{ErrorKind, Read};
use std::process::Abort;
use std::test::Fail;

/// Limits of a line and of a script that a test can reach.
pub fn small(line: usize, script: u64) -> Option<Limits> {
    Limits::new(Bounds {
        tables: 2,
        columns: 2,
        aggregates: 1,
        name: 4,
        text: 5,
        line,
        payload: 100,
        rows: 10,
        script,
    })
}

/// A letter for a command's form; for a load by its payload.
fn letter_of_command(command: &Command) -> char {
    match command {
        Command::Create { .. } => 'c',
        Command::Drop { .. } => 'd',
        Command::Load { payload, .. } => match payload {
            Payload::Bytes(_) => 'b',
            Payload::Open => 'o',
            Payload::TooLong => 't',
            Payload::NoMemory => 'm',
        },
        Command::Upsert { .. } => 'u',
        Command::Delete { .. } => 'x',
        Command::Show { .. } => 's',
        Command::Group { .. } => 'g',
        Command::Distinct { .. } => 'n',
    }
}

/// A letter for a refusal.
fn letter_of_refusal(refusal: &LineRefusal) -> char {
    match refusal {
        LineRefusal::Syntax => 'S',
        LineRefusal::LineTooLong => 'T',
        LineRefusal::Limit => 'L',
        LineRefusal::Memory => 'M',
    }
}

fn letter_of_said(said: &Result<Command, LineRefusal>) -> char {
    match said {
        Ok(command) => letter_of_command(command),
        Err(refusal) => letter_of_refusal(refusal),
    }
}

/// The letter for the result of a line.
fn letter(alloc: Global, line: &[u8], limits: &Limits) -> char {
    let said = parse_line(alloc, line, limits);
    letter_of_said(&said)
}

/// Lines, each with its letter at the largest limits.
const LINES: [(&[u8], char); 101] = [
    (b"create s (id int, city text, key (id))", 'c'),
    (b"CREATE s(id INT,city Text,KEY(id))", 'c'),
    (b"\tcreate\tt (a int)  ", 'c'),
    (b"create t (a int, key (a, b))", 'c'),
    (b"create \"create\" (\"int\" int)", 'c'),
    (b"upsert s (1, 'Oslo')", 'u'),
    (b"upsert s(+7,-0,'it''s',NULL)", 'u'),
    (b"upsert s (-9223372036854775808, 9223372036854775807)", 'u'),
    (b"upsert s ('')", 'u'),
    (b"upsert \"a\"\"b\" ('--')", 'u'),
    (b"group s by city show count(*)", 'g'),
    (b"Group s BY a, \"b\" show count ( * )", 'g'),
    (b"", 'S'),
    (b"-", 'S'),
    (b"creat t (a int)", 'S'),
    (b"create t ()", 'S'),
    (b"create t (a int", 'S'),
    (b"create t (a int, key ())", 'S'),
    (b"create t (a int, key (a), b int)", 'S'),
    (b"create t (a int, a text)", 'S'),
    (b"create t (a int, \"a\" text)", 'S'),
    (b"create t (a int, key (a, a))", 'S'),
    (b"create key (a int)", 'S'),
    (b"create t (nocase int)", 'S'),
    (b"create t (a text nocase)", 'c'),
    (b"create t(a TEXT\tNoCase,\"nocase\" text,KEY(a))", 'c'),
    (b"create t (a int nocase)", 'S'),
    (b"create t (a nocase)", 'S'),
    (b"create t (a text nocase nocase)", 'S'),
    (b"create t (a text \"nocase\")", 'S'),
    (b"create t (a int) x", 'S'),
    (b"create 1t (a int)", 'S'),
    (b"create \"\" (a int)", 'S'),
    (b"upsert s ()", 'S'),
    (b"upsert s (1a)", 'S'),
    (b"upsert s (- 1)", 'S'),
    (b"upsert s (9223372036854775808)", 'S'),
    (b"upsert s (-9223372036854775809)", 'S'),
    (b"upsert s ('a)", 'S'),
    (b"upsert s (1 2)", 'S'),
    (b"upsert s ('a''')", 'u'),
    (b"upsert s ('\xFF')", 'S'),
    (b"group s by a, a show count(*)", 'S'),
    (b"group s by rollup (a, \"b\") show count(*)", 'g'),
    (
        b"GROUP s BY RollUp(a)show sum(a) where a = 1 having a is null",
        'g',
    ),
    (b"group s by \"rollup\" show count(*)", 'g'),
    (b"group s by rollup (a, b, a) show count(*)", 'S'),
    (b"group s by rollup () show count(*)", 'S'),
    (b"group s by rollup a show count(*)", 'S'),
    (b"group s by rollup show count(*)", 'S'),
    (b"group s by rollup (a), b show count(*)", 'S'),
    (b"group s by a, rollup (b) show count(*)", 'S'),
    (b"group s by \"rollup\" (a) show count(*)", 'S'),
    (b"distinct s on rollup (a)", 'S'),
    (b"group s by a show count(*), count(*)", 'g'),
    (b"group s by a show count(a)", 'g'),
    (b"group s show count(*)", 'g'),
    (
        b"group s show Count(Distinct a), SUM(a), min ( \"sum\" ), max(a)",
        'g',
    ),
    (b"group s show", 'S'),
    (b"group s by show count(*)", 'S'),
    (b"group s show sum(*)", 'S'),
    (b"group s show sum(distinct a)", 'S'),
    (b"group s show count(distinct *)", 'S'),
    (b"group s show count()", 'S'),
    (b"group s show avg(a)", 'S'),
    (b"group s show count(*),", 'S'),
    (b"group s show sum(sum)", 'S'),
    (b"show s", 's'),
    (b"SHOW \"show\"", 's'),
    (b"show", 'S'),
    (b"show s, t", 'S'),
    (b"show 's'", 'S'),
    (b"show show", 'S'),
    (b"drop s", 'd'),
    (b"\tDrop\t\"s\" ", 'd'),
    (b"drop", 'S'),
    (b"drop s t", 'S'),
    (b"drop table s", 'S'),
    (b"load s", 'o'),
    (b"  LOAD \"\"\"\"", 'o'),
    (b"load", 'S'),
    (b"load s extra", 'S'),
    (b"load s (1)", 'S'),
    (b"delete s (1)", 'x'),
    (b"DELETE s(null,'a',-1)", 'x'),
    (b"delete s", 'S'),
    (b"delete s ()", 'S'),
    (b"delete s 1", 'S'),
    (b"delete s (1,)", 'S'),
    (b"delete s (1) x", 'S'),
    (b"delete (1)", 'S'),
    (b"distinct s on a", 'n'),
    (b"distinct s on a, \"b\" where a <= b and b is null", 'n'),
    (b"distinct s", 'S'),
    (b"distinct s on a, a", 'S'),
    (b"group s show count(*) where a = 1 and b is not null", 'g'),
    (
        b"group s by a show sum(b) not exists t (x, y) = (a, b) having sum(b) <> 0",
        'g',
    ),
    (b"group s show count(*) where count(*) = 1", 'S'),
    (b"group s show count(*) exists t (x) = (a, b)", 'S'),
    (b"group s show count(*) where a = 1 or a = 2", 'S'),
    (b"upsert s (1)\r", 'S'),
];

/// Asserts the letter of each line.
fn assert_letters(rt: &impl Abort, alloc: Global, limits: &Limits, lines: &[(&[u8], char)]) {
    for (line, want) in lines {
        expect_at(rt, *line, letter(alloc, line, limits), *want);
    }
}

#[test]
fn lines_at_the_greatest_limits(rt: HostRuntime) {
    assert_letters(&rt, rt.alloc(), &Limits::greatest(), &LINES);
}

fn no_such_command() -> Fail {
    Fail::new("no such command")
}

/// The command of a line at the largest limits, as a list of one.
fn said(alloc: Global, line: &[u8]) -> Result<Vec<Command>, Fail> {
    let mut said = Vec::new(alloc);
    match parse_line(alloc, line, &Limits::greatest()) {
        Ok(command) => said.push(command)?,
        Err(_) => return Err(no_such_command()),
    }
    Ok(said)
}

fn expect_column(rt: &impl Abort, column: &Column, name: &str, kind: Kind) {
    expect(rt, column.name.as_str(), name);
    assert!(rt; column.kind == kind);
}

fn expect_columns(rt: &impl Abort, columns: &[Column], due: &[(&str, Kind)]) {
    expect(rt, columns.len(), due.len());
    for (column, (name, kind)) in columns.iter().zip(due) {
        expect_column(rt, column, name, *kind);
    }
}

/// Expects exactly one name.
fn expect_name(rt: &impl Abort, names: &[Text], due: &str) {
    expect(rt, names.len(), 1);
    assert!(rt; names.iter().all(|name| name.as_str() == due));
}

fn expect_create(rt: &impl Abort, said: &[Command]) -> Result<(), Fail> {
    let [
        Command::Create {
            table,
            columns,
            key,
        },
    ] = said
    else {
        return Err(no_such_command());
    };
    expect(rt, table.as_str(), "a\"b");
    let due = [
        ("id", Kind::Int),
        ("city", Kind::Text),
        ("town", Kind::NoCase),
    ];
    expect_columns(rt, columns.as_slice(), &due);
    expect_name(rt, key.as_slice(), "id");
    Ok(())
}

#[test]
fn what_a_create_says(rt: HostRuntime) -> Result<(), Fail> {
    let line = b"create \"a\"\"b\" (id int, city text, town text nocase, key (id))";
    expect_create(&rt, said(rt.alloc(), line)?.as_slice())
}

fn expect_upsert(rt: &impl Abort, said: &[Command]) -> Result<(), Fail> {
    let [Command::Upsert { table, values }] = said else {
        return Err(no_such_command());
    };
    expect(rt, table.as_str(), "s");
    assert!(rt;
        are(
            values.cells(),
            &[Plain::Int(7), Plain::Text("it's"), Plain::Null]
        )
    );
    Ok(())
}

#[test]
fn what_an_upsert_says(rt: HostRuntime) -> Result<(), Fail> {
    expect_upsert(
        &rt,
        said(rt.alloc(), b"upsert s (+7, 'it''s', nUll)")?.as_slice(),
    )
}

fn expect_delete(rt: &impl Abort, said: &[Command]) -> Result<(), Fail> {
    let [Command::Delete { table, values }] = said else {
        return Err(no_such_command());
    };
    expect(rt, table.as_str(), "a b");
    assert!(rt; are(values.cells(), &[Plain::Text("x"), Plain::Int(-7)]));
    Ok(())
}

#[test]
fn what_a_delete_says(rt: HostRuntime) -> Result<(), Fail> {
    expect_delete(
        &rt,
        said(rt.alloc(), b"delete \"a b\" ('x', -7)")?.as_slice(),
    )
}

fn is_drop(said: &[Command], name: &str) -> bool {
    matches!(said, [Command::Drop { table }] if table.as_str() == name)
}

fn is_show(said: &[Command], name: &str) -> bool {
    matches!(said, [Command::Show { table }] if table.as_str() == name)
}

fn is_open_load(said: &[Command], name: &str) -> bool {
    matches!(said, [Command::Load { table, payload: Payload::Open }] if table.as_str() == name)
}

#[test]
fn what_a_name_alone_says(rt: HostRuntime) -> Result<(), Fail> {
    let dropped = said(rt.alloc(), b"DROP \"s\"")?;
    expect(&rt, is_drop(dropped.as_slice(), "s"), true);
    let shown = said(rt.alloc(), b"show S")?;
    expect(&rt, is_show(shown.as_slice(), "S"), true);
    let loaded = said(rt.alloc(), b"load \"load\"")?;
    expect(&rt, is_open_load(loaded.as_slice(), "load"), true);
    Ok(())
}

fn expect_group(rt: &impl Abort, said: &[Command], rollup: bool) -> Result<(), Fail> {
    let [
        Command::Group {
            table,
            by,
            shown,
            tests,
            exists,
            having,
        },
    ] = said
    else {
        return Err(no_such_command());
    };
    expect(rt, table.as_str(), "s");
    expect(rt, by.rollup, rollup);
    expect_name(rt, by.columns.as_slice(), "city");
    assert!(rt; matches!(shown.as_slice(), [Aggregate::CountAll]));
    assert!(rt; tests.is_empty() && exists.is_none() && having.is_empty());
    Ok(())
}

#[test]
fn what_a_group_says(rt: HostRuntime) -> Result<(), Fail> {
    let plain = said(rt.alloc(), b"group s by city show count(*)")?;
    expect_group(&rt, plain.as_slice(), false)?;
    let rolled_up = said(rt.alloc(), b"group s by rollup (city) show count(*)")?;
    expect_group(&rt, rolled_up.as_slice(), true)
}

/// Lines under small limits: each limit of a line, at the limit and one past it.
const SMALL_LINES: [(&[u8], char); 23] = [
    (b"create abcd (a int)", 'c'),
    (b"create abcde (a int)", 'L'),
    (b"create \"ab\"\"d\" (a int)", 'c'),
    (b"create a (abcde int)", 'L'),
    (b"create a (b int, key (abcde))", 'L'),
    (b"upsert abcde (1)", 'L'),
    (b"group a by abcd show count(*)", 'g'),
    (b"group a by abcde show count(*)", 'L'),
    (b"group abcde by a show count(*)", 'L'),
    (b"create a (b int, c int)", 'c'),
    (b"create a (b int, c int, d int)", 'L'),
    (b"upsert a ('12345')", 'u'),
    (b"upsert a ('123456')", 'L'),
    (b"upsert a ('1234''6')", 'L'),
    (b"drop abcd", 'd'),
    (b"drop abcde", 'L'),
    (b"show abcd", 's'),
    (b"show abcde", 'L'),
    (b"load abcd", 'o'),
    (b"load abcde", 'L'),
    (b"delete abcd ('12345')", 'x'),
    (b"delete abcde ('12345')", 'L'),
    (b"delete abcd ('123456')", 'L'),
];

#[test]
fn limits_of_a_line(rt: HostRuntime) -> Result<(), Fail> {
    let Some(limits) = small(40, 1000) else {
        return Err(Fail::new("no limits"));
    };
    assert_letters(&rt, rt.alloc(), &limits, &SMALL_LINES);
    Ok(())
}

/// A line of 40 bytes and one of 41; the length is checked first.
#[test]
fn length_of_a_line(rt: HostRuntime) -> Result<(), Fail> {
    let Some(limits) = small(40, 1000) else {
        return Err(Fail::new("no limits"));
    };
    let line: &[u8] = b"upsert a (1, 2, 3, 4, 5, 6, 7, 8, 9, 10)x";
    let lines = [(&line[..40], 'u'), (line, 'T')];
    assert_letters(&rt, rt.alloc(), &limits, &lines);
    Ok(())
}

/// The letter for the result of `next`: a command's form, a refusal, `F` for a fault, `.` for the
/// end.
pub fn letter_of(given: &Result<Option<Item>, ReadFault>) -> char {
    match given {
        Ok(Some(Item::Command(command))) => letter_of_command(command),
        Ok(Some(Item::Refused(refusal))) => letter_of_refusal(refusal),
        Ok(None) => '.',
        Err(ReadFault) => 'F',
    }
}

/// The letter for a reader's next item.
fn next_letter<R: Read>(alloc: Global, reader: &mut CommandReader<R>, limits: &Limits) -> char {
    let given = reader.next(alloc, limits);
    letter_of(&given)
}

/// Scripts under small limits, each with the letters of its reader's calls of `next`.
const SCRIPTS: [(&[u8], &str); 19] = [
    (b"", ".."),
    (b"\xEF\xBB\xBF", "."),
    (b"\xEF\xBB\xBFupsert s (1)", "u.."),
    (b"\xEF\xBB\xBF\xEF\xBB\xBFupsert s (1)", "S."),
    (b"\n\r\n \t\n-- note\n  --\n", "."),
    (b"upsert s (1)\r\nupsert s (2)\n", "uu."),
    (b"upsert s (1)\r", "S."),
    (b"-\nshow s\n- -\n", "SsS."),
    (
        b"                                              -- long\n                                              \nupsert s (1)",
        "u.",
    ),
    (
        b"upsert s (1, 1, 1, 1, 1, 1, 1, 1, 1, 1, 1)\nupsert s (1)",
        "Tu.",
    ),
    (b"load s\nid\n\\.\nupsert s (1)", "bu."),
    (b" \tLoad,\r\n\\\n\\.x\n\\.\r\nupsert s (1)", "Su."),
    (b"loads\nupsert s (1)", "Su."),
    (b"\"load\" s\nupsert s (1)", "Su."),
    (b"load s\n-- note\n\n\\.\\.\nupsert s (1)\n\\. \n", "o."),
    (b"load s\nupsert s (1)\n\\.", "b."),
    (b"load s\nupsert s (1)\n\\.\r", "o."),
    (
        b"load s -- and more than forty bytes of line\nid\n\\.\nupsert s (1)",
        "Tu.",
    ),
    (b"create abcde (a int)\nupsert s (1)", "Lu."),
];

/// The letters of the first `count` calls of `next`.
pub fn letters<R: Read>(
    alloc: Global,
    reader: &mut CommandReader<R>,
    limits: &Limits,
    count: usize,
) -> Result<String, AllocError> {
    let mut letters = String::new(alloc);
    for _ in 0..count {
        letters.push(next_letter(alloc, reader, limits))?;
    }
    Ok(letters)
}

/// Expects the letters of a new reader's calls of `next`.
pub fn expect_items<C: Debug + Copy, R: Read + Drop>(
    rt: &impl Abort,
    alloc: Global,
    case: C,
    reader: R,
    limits: &Limits,
    due: &str,
) -> Result<(), AllocError> {
    let mut reader = CommandReader::new(reader);
    let found = letters(alloc, &mut reader, limits, due.len())?;
    expect_at(rt, case, found.as_str(), due);
    Ok(())
}

/// Asserts the letters of each script.
fn assert_items(
    rt: &impl Abort,
    alloc: Global,
    limits: &Limits,
    scripts: &[(&[u8], &str)],
) -> Result<(), Fail> {
    for (script, wants) in scripts {
        expect_items(rt, alloc, *script, *script, limits, wants)?;
    }
    Ok(())
}

#[test]
fn items_of_a_script(rt: HostRuntime) -> Result<(), Fail> {
    let Some(limits) = small(40, 1000) else {
        return Err(Fail::new("no limits"));
    };
    assert_items(&rt, rt.alloc(), &limits, &SCRIPTS)
}

const TWO: &[u8] = b"upsert s (1)\nupsert s (1)\n";

/// A fault is permanent, even if the limits change.
fn expect_fault_for_good(rt: &impl Abort, alloc: Global, limits: [&Limits; 2]) -> Result<(), Fail> {
    let [less, whole] = limits;
    let mut reader = CommandReader::new(TWO);
    let found = letters(alloc, &mut reader, less, 3)?;
    expect(rt, found.as_str(), "uFF");
    expect(rt, next_letter(alloc, &mut reader, whole), 'F');
    Ok(())
}

#[test]
fn limit_of_a_script(rt: HostRuntime) -> Result<(), Fail> {
    let (Some(whole), Some(less)) = (small(40, 26), small(40, 25)) else {
        return Err(Fail::new("no limits"));
    };
    expect_items(&rt, rt.alloc(), 26, TWO, &whole, "uu..")?;
    expect_fault_for_good(&rt, rt.alloc(), [&less, &whole])
}

const SCRIPT: &[u8] = b"\xEF\xBB\xBFupsert s (1)\r\n-- note\nshow s\nupsert s (2)";

#[test]
fn pieces_of_any_size(rt: HostRuntime) -> Result<(), Fail> {
    let limits = Limits::greatest();
    for size in 1..50 {
        expect_items(
            &rt,
            rt.alloc(),
            size,
            Pieces::of(SCRIPT, size),
            &limits,
            "usu..",
        )?;
    }
    Ok(())
}

/// The items of that script if a read fails after this many bytes: those that were read whole, and
/// then a permanent fault.
fn until_a_fault(bytes: usize) -> &'static str {
    match bytes {
        0..=16 => "FF",
        17..=31 => "uFF",
        32..=44 => "usFF",
        45 => "usuFF",
        _ => "usu.FF",
    }
}

#[test]
fn failing_reads(rt: HostRuntime) -> Result<(), Fail> {
    let limits = Limits::greatest();
    for fails_at in 1..48usize {
        let error = if fails_at % 2 == 0 {
            ErrorKind::Interrupted
        } else {
            ErrorKind::Other
        };
        let reader = Pieces::failing(SCRIPT, fails_at, error);
        let wants = until_a_fault(fails_at - 1);
        expect_items(&rt, rt.alloc(), fails_at, reader, &limits, wants)?;
    }
    Ok(())
}
