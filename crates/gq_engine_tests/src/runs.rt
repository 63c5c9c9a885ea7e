//! Commands, replies and runs, with ample memory.
use crate::devices::Pieces;
use crate::engines::{engine, run, run_alone};
use crate::expected::{expect, expect_at};
use gq_cells::{CellRef, RowRef};
use gq_command::parse_line;
use gq_engine::{Engine, MemStore, Refusal, Reply, Summary, reply_text};
use gq_row::Limits;
use std::alloc::{AllocError, Global};
use std::process::Abort;
use std::test::Fail;
use sw_probe::Fnv1a;

/// Lines of a script, each with its reply.
pub const STATIONS: [(&[u8], &[u8]); 5] = [
    (b"create s (id int, city text, key (id))", b"ok 0\n"),
    (b"upsert s (1, 'Oslo')", b"ok 1\n"),
    (b"upsert s (2, 'Rome')", b"ok 1\n"),
    (b"upsert s (1, 'Rome')", b"ok 1\n"),
    (
        b"group s by city show count(*)",
        b"ok 1\ncity,count(*)\nRome,2\n",
    ),
];

/// The script of these lines, each ended by LF.
pub fn script(alloc: Global) -> Result<Vec<u8>, AllocError> {
    let mut script = Vec::new(alloc);
    for (line, _reply) in STATIONS {
        script.extend_from_slice(line)?;
        script.push(b'\n')?;
    }
    Ok(script)
}

/// The replies to the first `count` bytes of that script: those to its whole lines, and a refusal
/// if it ends within a line, since no prefix of these lines is a command.
pub fn replies_to_prefix(alloc: Global, count: usize) -> Result<Vec<u8>, AllocError> {
    let mut replies = Vec::new(alloc);
    let mut left = count;
    for (line, reply) in STATIONS {
        if left == 0 {
            break;
        }
        let is_whole = left >= line.len();
        replies.extend_from_slice(if is_whole { reply } else { b"err 1 Syntax\n" })?;
        left = left.saturating_sub(line.len()).saturating_sub(1);
    }
    Ok(replies)
}

/// Scripts, what they write, how many commands they have, and how many of them are refused.
const COUNTED: [(&[u8], &[u8], u64, u64); 4] = [
    (b"", b"", 0, 0),
    (b"\n-- nothing\n", b"", 0, 0),
    (b"create t (a int)\nupsert t (1)\n", b"ok 0\nok 1\n", 2, 0),
    (
        b"creat t (a int)\ncreate t (a int)\nupsert u (1)\n",
        b"err 1 Syntax\nok 0\nerr 3 NoTable\n",
        3,
        2,
    ),
];

/// Asserts what each script writes and counts.
fn assert_counted(rt: &impl Abort, alloc: Global, cases: &[(&[u8], &[u8], u64, u64)]) {
    for (script, due, commands, refused) in cases {
        let (written, ended) = run_alone(alloc, Limits::greatest(), *script);
        expect_at(rt, *script, written.as_slice(), *due);
        let summary = Summary {
            commands: *commands,
            refused: *refused,
        };
        expect_at(rt, *script, ended, Ok(summary));
    }
}

#[test]
fn a_run_counts_its_commands_and_refusals(rt: HostRuntime) {
    assert_counted(&rt, rt.alloc(), &COUNTED);
}

/// Asserts that each line gets its reply, in a run of its own.
fn assert_answers(
    rt: &impl Abort,
    alloc: Global,
    engine: &mut Engine<Fnv1a, MemStore>,
    lines: &[(&[u8], &[u8])],
) {
    for (line, reply) in lines {
        let mut written = Vec::new(alloc);
        let ended = run(engine, *line, &mut written);
        expect_at(rt, *line, written.as_slice(), *reply);
        let summary = Summary {
            commands: 1,
            refused: 0,
        };
        expect_at(rt, *line, ended, Ok(summary));
    }
}

#[test]
fn tables_stay_from_run_to_run(rt: HostRuntime) {
    let mut engine = engine(rt.alloc(), Limits::greatest());
    assert_answers(&rt, rt.alloc(), &mut engine, &STATIONS);
}

/// Whether a reply has no rows, or one row, of `Rome` and 2.
fn is_rome_twice(reply: &Reply) -> bool {
    match reply {
        Reply::Rows { header, rows } => {
            header.len() == 2 && rows.len() == 1 && is_rome_and_two(&rows.row(0))
        }
        _ => true,
    }
}

fn is_rome_and_two(row: &RowRef<'_>) -> bool {
    row.len() == 2
        && matches!(row.cell(0), CellRef::Text(city) if city.as_str() == "Rome")
        && matches!(row.cell(1), CellRef::Int(2))
}

/// The reply to a line's command.
fn carried_out(
    alloc: Global,
    engine: &mut Engine<Fnv1a, MemStore>,
    line: &[u8],
) -> Result<Reply, Fail> {
    match parse_line(alloc, line, &Limits::greatest()) {
        Ok(command) => Ok(engine.execute(command)),
        Err(_) => Err(Fail::new("a line says no command")),
    }
}

fn expect_text(
    rt: &impl Abort,
    alloc: Global,
    reply: &Reply,
    due: &[u8],
) -> Result<(), AllocError> {
    let text = reply_text(alloc, reply)?;
    expect(rt, text.as_slice(), due);
    Ok(())
}

/// Asserts that each line's command is carried out with its reply.
fn assert_carried_out(
    rt: &impl Abort,
    alloc: Global,
    engine: &mut Engine<Fnv1a, MemStore>,
    lines: &[(&[u8], &[u8])],
) -> Result<(), Fail> {
    for (line, due) in lines {
        let reply = carried_out(alloc, engine, line)?;
        expect_at(rt, *line, reply.is_refusal(), false);
        expect_at(rt, *line, is_rome_twice(&reply), true);
        expect_text(rt, alloc, &reply, due)?;
    }
    Ok(())
}

fn expect_null_key(rt: &impl Abort, alloc: Global, reply: &Reply) -> Result<(), AllocError> {
    let is_null_key = matches!(
        reply,
        Reply::Refused {
            code: Refusal::NullKey,
            number: None
        }
    );
    expect(rt, is_null_key, true);
    expect(rt, reply.is_refusal(), true);
    expect_text(rt, alloc, reply, b"err 8 NullKey\n")
}

#[test]
fn commands_carried_out_one_by_one(rt: HostRuntime) -> Result<(), Fail> {
    let mut engine = engine(rt.alloc(), Limits::greatest());
    assert_carried_out(&rt, rt.alloc(), &mut engine, &STATIONS)?;
    let reply = carried_out(rt.alloc(), &mut engine, b"upsert s (null, 'x')")?;
    expect_null_key(&rt, rt.alloc(), &reply)?;
    Ok(())
}

fn expect_refusal_text(
    rt: &impl Abort,
    alloc: Global,
    code: Refusal,
    number: Option<u64>,
    due: &[u8],
) -> Result<(), AllocError> {
    expect_text(rt, alloc, &Reply::Refused { code, number }, due)
}

#[test]
fn texts_of_replies(rt: HostRuntime) -> Result<(), Fail> {
    let alloc = rt.alloc();
    expect_text(&rt, alloc, &Reply::Done(0), b"ok 0\n")?;
    let most = Some(u64::MAX);
    expect_text(
        &rt,
        alloc,
        &Reply::Done(u64::MAX),
        b"ok 18446744073709551615\n",
    )?;
    expect_refusal_text(&rt, alloc, Refusal::Memory, None, b"err 15 Memory\n")?;
    expect_refusal_text(&rt, alloc, Refusal::BadInt, Some(3), b"err 11 BadInt 3\n")?;
    let line: &[u8] = b"err 2 LineTooLong 18446744073709551615\n";
    expect_refusal_text(&rt, alloc, Refusal::LineTooLong, most, line)?;
    Ok(())
}

/// The first bytes of a script, in pieces of a size.
fn expect_cut(
    rt: &impl Abort,
    alloc: Global,
    script: &[u8],
    count: usize,
    size: usize,
    due: &[u8],
) {
    let (prefix, _rest) = script.split_at(count.min(script.len()));
    let (written, ended) = run_alone(alloc, Limits::greatest(), Pieces::of(prefix, size));
    expect_at(rt, (count, size), ended.is_ok(), true);
    expect_at(rt, (count, size), written.as_slice(), due);
}

/// A script cut at each of its bytes, read at once and in pieces.
#[test]
fn scripts_cut_at_each_byte(rt: HostRuntime) -> Result<(), Fail> {
    let whole = script(rt.alloc())?;
    for count in 0..whole.len().saturating_add(1) {
        let due = replies_to_prefix(rt.alloc(), count)?;
        for size in [1usize, 2, 3, 7, 1000] {
            expect_cut(
                &rt,
                rt.alloc(),
                whole.as_slice(),
                count,
                size,
                due.as_slice(),
            );
        }
    }
    Ok(())
}
