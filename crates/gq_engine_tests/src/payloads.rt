//! Loads with their payloads, as a reader returns them. The expected results are written by hand.
use crate::devices::Pieces;
use crate::expected::expect_at;
use crate::lines::{expect_items, letter_of, letters, small};
use gq_command::{Command, CommandReader, Item, Payload, ReadFault};
use gq_row::Limits;
use std::alloc::{AllocError, Global};
use std::io::{ErrorKind, Read};
use std::process::Abort;
use std::test::Fail;

/// An expected item: a load of this table with these bytes, or another one by its letter.
#[derive(Clone, Copy)]
enum Wanted {
    Load(&'static str, &'static [u8]),
    Other(char),
}

/// Loads whose payloads contain marks that close nothing, a refused load line, and an open payload.
const SCRIPT: &[u8] =
    b"load s\nid,city\r\n1,\\N\n-- no comment\n\n\\.x\n \\.\n\\\n\\.\\.\n\\.\r\nload s extra\ndrop s\nshow s\n\\.\n Load \"t\"\r\n\\.\nshow s\nLOAD u\n\xFF\0\n\\.\rshow s\n";

const ITEMS: [Wanted; 6] = [
    Wanted::Load(
        "s",
        b"id,city\r\n1,\\N\n-- no comment\n\n\\.x\n \\.\n\\\n\\.\\.\n",
    ),
    Wanted::Other('S'),
    Wanted::Load("t", b""),
    Wanted::Other('s'),
    Wanted::Other('o'),
    Wanted::Other('.'),
];

/// Whether `next` returned a load of this table with these bytes.
fn is_load(given: &Result<Option<Item>, ReadFault>, name: &str, bytes: &[u8]) -> bool {
    match given {
        Ok(
            Some(
                Item::Command(
                    Command::Load {
                        table,
                        payload: Payload::Bytes(payload),
                    },
                ),
            ),
        ) => table.as_str() == name && payload.as_slice() == bytes,
        _ => false,
    }
}

/// Whether `next` returned the expected item.
fn is_wanted(given: &Result<Option<Item>, ReadFault>, wanted: Wanted) -> bool {
    match wanted {
        Wanted::Load(name, bytes) => is_load(given, name, bytes),
        Wanted::Other(letter) => letter_of(given) == letter,
    }
}

/// Whether a reader's next item is the expected one.
fn gives<R: Read>(
    alloc: Global,
    reader: &mut CommandReader<R>,
    limits: &Limits,
    wanted: Wanted,
) -> bool {
    let given = reader.next(alloc, limits);
    is_wanted(&given, wanted)
}

/// Asserts that a reader returns these items from pieces of this size.
fn assert_gives(rt: &impl Abort, alloc: Global, items: &[Wanted], size: usize) {
    let limits = Limits::greatest();
    let mut reader = CommandReader::new(Pieces::of(SCRIPT, size));
    for (i, wanted) in items.iter().enumerate() {
        let is_given = gives(alloc, &mut reader, &limits, *wanted);
        expect_at(rt, (size, i), is_given, true);
    }
}

/// Pieces of each size, so that a piece ends at each byte.
#[test]
fn cut_at_each_byte(rt: HostRuntime) -> Result<(), Fail> {
    for size in 1..SCRIPT.len().saturating_add(2) {
        assert_gives(&rt, rt.alloc(), &ITEMS, size);
    }
    Ok(())
}

/// A script of a payload with this many lines of ten bytes.
fn long(alloc: Global, lines: usize) -> Result<Vec<u8>, AllocError> {
    let mut script = Vec::from_slice(alloc, b"load s\n")?;
    for _ in 0..lines {
        script.extend_from_slice(b"\\.345678\r\n")?;
    }
    script.extend_from_slice(b"\\.\r\nupsert s (1)")?;
    Ok(script)
}

/// Whether bytes are `lines` of these lines.
fn are_lines(bytes: &[u8], lines: usize) -> bool {
    let line: &[u8] = b"\\.345678\r\n";
    bytes.len() / 10 == lines && bytes.chunks_exact(10).all(|chunk| chunk == line)
}

/// Whether `next` returned a load of `lines` lines.
fn is_long(given: &Result<Option<Item>, ReadFault>, lines: usize) -> bool {
    match given {
        Ok(
            Some(
                Item::Command(
                    Command::Load {
                        payload: Payload::Bytes(payload),
                        ..
                    },
                ),
            ),
        ) => payload.len() % 10 == 0 && are_lines(payload.as_slice(), lines),
        _ => false,
    }
}

/// Whether a reader's next item is a load of `lines` lines.
fn gives_long<R: Read>(
    alloc: Global,
    reader: &mut CommandReader<R>,
    limits: &Limits,
    lines: usize,
) -> bool {
    let given = reader.next(alloc, limits);
    is_long(&given, lines)
}

/// Expects a load of `lines` lines, a command and the end, in pieces of this size.
fn expect_long(
    rt: &impl Abort,
    alloc: Global,
    script: &[u8],
    lines: usize,
    size: usize,
) -> Result<(), AllocError> {
    let limits = Limits::greatest();
    let mut reader = CommandReader::new(Pieces::of(script, size));
    expect_at(
        rt,
        size,
        gives_long(alloc, &mut reader, &limits, lines),
        true,
    );
    let found = letters(alloc, &mut reader, &limits, 2)?;
    expect_at(rt, size, found.as_str(), "u.");
    Ok(())
}

/// A payload that spans many of the reader's buffers.
#[test]
fn longer_than_a_buffer(rt: HostRuntime) -> Result<(), Fail> {
    const LINES: usize = 10_000;
    let script = long(rt.alloc(), LINES)?;
    for size in [1, 7, 4096, 8191, 65536] {
        expect_long(&rt, rt.alloc(), script.as_slice(), LINES, size)?;
    }
    Ok(())
}

/// What comes before and after a payload's hundred bytes, and the items of such a script.
const FRAMES: [(&[u8], &[u8], &str); 6] = [
    (b"load s\n", b"\\.\nupsert s (1)", "bu."),
    (b"load s\nx", b"\\.\nupsert s (1)", "tu."),
    (b"load s,\nx", b"\\.\nupsert s (1)", "Su."),
    (b"load abcde\n", b"\\.\nupsert s (1)", "Lu."),
    (b"load s\nx", b"upsert s (1)\n\\. ", "o.."),
    (b"load s\n", b"\\", "o.."),
];

/// A hundred bytes in lines, between `prefix` and `end`.
fn framed(alloc: Global, prefix: &[u8], end: &[u8]) -> Result<Vec<u8>, AllocError> {
    let mut script = Vec::from_slice(alloc, prefix)?;
    for _ in 0..20 {
        script.extend_from_slice(b"1234\n")?;
    }
    script.extend_from_slice(end)?;
    Ok(script)
}

/// Asserts the items of each frame, in pieces of this size.
fn assert_frames(
    rt: &impl Abort,
    alloc: Global,
    limits: &Limits,
    frames: &[(&[u8], &[u8], &str)],
    size: usize,
) -> Result<(), Fail> {
    for (prefix, end, wants) in frames {
        let script = framed(alloc, prefix, end)?;
        let reader = Pieces::of(script.as_slice(), size);
        expect_items(rt, alloc, (*prefix, size), reader, limits, wants)?;
    }
    Ok(())
}

/// A payload of 100 bytes at a limit of 100, and one of 101; that of a refused line, which may have
/// any length, and one that is open at the script's end.
#[test]
fn limit_of_a_payload(rt: HostRuntime) -> Result<(), Fail> {
    let Some(limits) = small(40, 1000) else {
        return Err(Fail::new("no limits"));
    };
    for size in [1, 7, 1000] {
        assert_frames(&rt, rt.alloc(), &limits, &FRAMES, size)?;
    }
    Ok(())
}

/// Each failing read is a fault, also in a payload, and no part of the payload is returned. The
/// mark's line ends with byte 15.
#[test]
fn faults_within_a_payload(rt: HostRuntime) -> Result<(), Fail> {
    let limits = Limits::greatest();
    for fails_at in 1..23 {
        let reader = Pieces::failing(LOAD_AND_SHOW, fails_at, ErrorKind::Other);
        let wants = if fails_at > 15 { "bFF" } else { "FF" };
        expect_items(&rt, rt.alloc(), fails_at, reader, &limits, wants)?;
    }
    Ok(())
}

const LOAD_AND_SHOW: &[u8] = b"load s\nid\n1\n\\.\nshow s";

/// The first byte past the script's limit is a fault, too.
#[test]
fn a_script_limit_within_a_payload(rt: HostRuntime) -> Result<(), Fail> {
    for most in 1..21 {
        let Some(limits) = small(40, most) else {
            return Err(Fail::new("no limits"));
        };
        let reader = Pieces::of(LOAD_AND_SHOW, 3);
        let wants = if most >= 15 { "bF" } else { "F" };
        expect_items(&rt, rt.alloc(), most, reader, &limits, wants)?;
    }
    Ok(())
}
