//! Readers and writers that fail: what was written by then, and what the tables hold.
use crate::devices::{Endless, Fussy, Pieces, Trouble};
use crate::engines::{engine, replies_to, run, run_alone};
use crate::expected::expect_at;
use crate::runs::{STATIONS, script};
use gq_engine::Fault;
use gq_row::{Bounds, Limits};
use std::alloc::{AllocError, Global};
use std::io::{ErrorKind, Read, Write};
use std::process::Abort;
use std::test::Fail;

/// The replies to the first lines of the script.
fn first_replies(alloc: Global, lines: usize) -> Result<Vec<u8>, AllocError> {
    let mut replies = Vec::new(alloc);
    for (_line, reply) in STATIONS.iter().take(lines) {
        replies.extend_from_slice(reply)?;
    }
    Ok(replies)
}

/// The answer of a count by city after the first `commands` of the script.
fn cities_after(commands: usize) -> &'static [u8] {
    match commands {
        0 => b"err 3 NoTable\n",
        1 => b"ok 0\ncity,count(*)\n",
        2 => b"ok 1\ncity,count(*)\nOslo,1\n",
        3 => b"ok 2\ncity,count(*)\nOslo,1\nRome,1\n",
        _ => b"ok 1\ncity,count(*)\nRome,2\n",
    }
}

/// Runs a script without tables, and expects that it ends in this fault, and that the tables are
/// then those after the first `commands` of the script.
fn expect_fault<R: Read + Drop, W: Write>(
    rt: &impl Abort,
    alloc: Global,
    reader: R,
    writer: &mut W,
    fault: Fault,
    commands: usize,
) -> Result<(), Fail> {
    let mut engine = engine(alloc, Limits::greatest());
    let ended = run(&mut engine, reader, writer);
    assert!(rt; ended == Err(fault), "after {commands}");
    let counted = replies_to(alloc, &mut engine, b"group s by city show count(*)")?;
    expect_at(rt, commands, counted.as_slice(), cities_after(commands));
    Ok(())
}

/// How many lines end within the first bytes of a script.
fn lines_within(script: &[u8], bytes: usize) -> usize {
    script
        .iter()
        .take(bytes)
        .filter(|byte| **byte == b'\n')
        .count()
}

fn expect_read_fault(
    rt: &impl Abort,
    alloc: Global,
    script: &[u8],
    fails_at: usize,
    error: ErrorKind,
) -> Result<(), Fail> {
    let lines = lines_within(script, fails_at.saturating_sub(1));
    let due = first_replies(alloc, lines)?;
    let mut written = Vec::new(alloc);
    let reader = Pieces::failing(script, fails_at, error);
    expect_fault(rt, alloc, reader, &mut written, Fault::Read, lines)?;
    expect_at(rt, fails_at, written.as_slice(), due.as_slice());
    Ok(())
}

/// A read fails at each call in turn: the lines that were read whole are answered, then the run
/// ends.
#[test]
fn each_read_fails(rt: HostRuntime) -> Result<(), Fail> {
    let whole = script(rt.alloc())?;
    for fails_at in 1..whole.len().saturating_add(2) {
        for error in [ErrorKind::Other, ErrorKind::Interrupted] {
            expect_read_fault(&rt, rt.alloc(), whole.as_slice(), fails_at, error)?;
        }
    }
    Ok(())
}

/// This many lines that aren't commands are answered before the script reaches its limit.
fn expect_no_end(
    rt: &impl Abort,
    alloc: Global,
    limits: Limits,
    bytes: [u8; 2],
    lines: usize,
) -> Result<(), Fail> {
    let mut due = Vec::new(alloc);
    for _line in 0..lines {
        due.extend_from_slice(b"err 1 Syntax\n")?;
    }
    let (written, ended) = run_alone(alloc, limits, Endless { bytes, given: 0 });
    assert!(rt; ended == Err(Fault::Read), "{bytes:?}");
    expect_at(rt, bytes, written.as_slice(), due.as_slice());
    Ok(())
}

/// A script without an end reaches the limit on its bytes.
#[test]
fn a_reader_without_an_end(rt: HostRuntime) -> Result<(), Fail> {
    let Some(limits) = Limits::new(Bounds {
        script: 100,
        ..Limits::greatest().bounds
    }) else {
        return Err(Fail::new("no limits"));
    };
    // Blank lines, a line without an end, and lines of one letter, of which the fifty that are
    // whole within the limit are answered.
    let cases: [([u8; 2], usize); 4] = [(*b"\n\n", 0), (*b"xx", 0), (*b"  ", 0), (*b"x\n", 50)];
    for (bytes, lines) in cases {
        expect_no_end(&rt, rt.alloc(), limits, bytes, lines)?;
    }
    Ok(())
}

/// A writer that takes one byte at a time has trouble at its k-th write: only the bytes before it
/// were written, and the tables are those after the command whose reply was being written.
fn expect_write_fault(
    rt: &impl Abort,
    alloc: Global,
    script: &[u8],
    due: &[u8],
    k: usize,
    trouble: Trouble,
) -> Result<(), Fail> {
    let taken = k.saturating_sub(1).min(due.len());
    let (prefix, _rest) = due.split_at(taken);
    // Each of the first four replies has five bytes.
    let commands = (taken / 5 + 1).min(5);
    let mut writer = Fussy::new(alloc, 1, trouble, k);
    expect_fault(rt, alloc, script, &mut writer, Fault::Write, commands)?;
    expect_at(rt, k, writer.written.as_slice(), prefix);
    Ok(())
}

/// Trouble at each write in turn.
#[test]
fn each_write_fails(rt: HostRuntime) -> Result<(), Fail> {
    let whole = script(rt.alloc())?;
    let due = first_replies(rt.alloc(), STATIONS.len())?;
    for k in 1..due.len().saturating_add(1) {
        for trouble in [
            Trouble::Write(ErrorKind::Other),
            Trouble::Write(ErrorKind::Interrupted),
            Trouble::Full,
        ] {
            expect_write_fault(
                &rt,
                rt.alloc(),
                whole.as_slice(),
                due.as_slice(),
                k,
                trouble,
            )?;
        }
    }
    Ok(())
}

/// The k-th flush fails: the reply before it was written whole.
fn expect_flush_fault(
    rt: &impl Abort,
    alloc: Global,
    script: &[u8],
    k: usize,
    error: ErrorKind,
    most: usize,
) -> Result<(), Fail> {
    let due = first_replies(alloc, k)?;
    let mut writer = Fussy::new(alloc, most, Trouble::Flush(error), k);
    expect_fault(rt, alloc, script, &mut writer, Fault::Write, k)?;
    expect_at(rt, k, writer.written.as_slice(), due.as_slice());
    Ok(())
}

/// Each flush fails in turn.
#[test]
fn each_flush_fails(rt: HostRuntime) -> Result<(), Fail> {
    let whole = script(rt.alloc())?;
    for k in 1..STATIONS.len().saturating_add(1) {
        for error in [ErrorKind::Other, ErrorKind::Interrupted] {
            for most in [1usize, 1000] {
                expect_flush_fault(&rt, rt.alloc(), whole.as_slice(), k, error, most)?;
            }
        }
    }
    Ok(())
}
