//! Scripts with payloads, cut after each of their bytes, and over readers and writers that fail at
//! each of their calls. The expected replies are written by hand.
use crate::devices::{Fussy, Pieces, Trouble};
use crate::engines::{engine, written_to};
use gq_engine::{Fault, Summary};
use gq_row::Limits;
use std::alloc::{AllocError, Global};
use std::io::ErrorKind;
use std::process::Abort;
use std::test::Fail;

/// A part of a script, the reply if the script ends within it, and whether that stays the reply if
/// more bytes follow.
type Part<'a> = (&'a [u8], &'a [u8], bool);

const SYNTAX: &[u8] = b"err 1 Syntax\n";

const OPEN: &[u8] = b"err 18 LoadOpen\n";

/// A byte-order mark, a quoted field over two lines, and lines that end in CR LF.
const QUOTED: [Part; 9] = [
    (b"create s (id int, city text, key (id)", SYNTAX, false),
    (b")\n", b"ok 0\n", true),
    (b"load ", SYNTAX, false),
    (
        b"s\n\xEF\xBB\xBFcity,id\r\n\"a, \"\"b\"\"\r\nc\",1\r\nOslo, 2 \r\n\\",
        OPEN,
        false,
    ),
    (b".", b"ok 2\n", false),
    (b"\r", OPEN, false),
    (b"\n", b"ok 2\n", true),
    (b"show ", SYNTAX, false),
    (
        b"s\n",
        b"ok 2\nid,city\n1,\"a, \"\"b\"\"\r\nc\"\n2,Oslo\n",
        true,
    ),
];

/// A load of one key twice, and one that is refused for its third record.
const REFUSED: [Part; 12] = [
    (b"create s (id int, city text, key (id)", SYNTAX, false),
    (b")\n", b"ok 0\n", true),
    (b"load ", SYNTAX, false),
    (b"s\nid,city\n1,Oslo\n1,Rome\n\\", OPEN, false),
    (b".\n", b"ok 2\n", true),
    (b"show ", SYNTAX, false),
    (b"s\n", b"ok 1\nid,city\n1,Rome\n", true),
    (b"load ", SYNTAX, false),
    (b"s\nid,city\n5,a\n6,b\n12x,c\n\\", OPEN, false),
    (b".\n", b"err 11 BadInt 3\n", true),
    (b"show ", SYNTAX, false),
    (b"s\n", b"ok 1\nid,city\n1,Rome\n", true),
];

/// A load whose payload has no end.
const LEFT_OPEN: [Part; 7] = [
    (b"create s (id int, city text, key (id)", SYNTAX, false),
    (b")\n", b"ok 0\n", true),
    (b"load ", SYNTAX, false),
    (b"s\nid,city\n1,Oslo\n1,Rome\n\\", OPEN, false),
    (b".\n", b"ok 2\n", true),
    (b"load ", SYNTAX, false),
    (b"s\nid,city\n9,x\n", OPEN, true),
];

fn script_of(alloc: Global, parts: &[Part]) -> Result<Vec<u8>, AllocError> {
    let mut script = Vec::new(alloc);
    for (bytes, _answer, _stays) in parts {
        script.extend_from_slice(bytes)?;
    }
    Ok(script)
}

/// The replies to the first `count` bytes of the script.
fn replies_to_prefix(alloc: Global, parts: &[Part], count: usize) -> Result<Vec<u8>, AllocError> {
    let mut replies = Vec::new(alloc);
    let mut left = count;
    for (bytes, answer, stays) in parts {
        if left == 0 {
            break;
        }
        if *stays || left <= bytes.len() {
            replies.extend_from_slice(answer)?;
        }
        left = left.saturating_sub(bytes.len());
    }
    Ok(replies)
}

/// What a run writes, and how it ends.
fn run_over(alloc: Global, reader: Pieces) -> (Vec<u8>, Result<Summary, Fault>) {
    let mut engine = engine(alloc, Limits::greatest());
    let mut written = Vec::new(alloc);
    let ended = engine.run(reader, &mut written);
    (written, ended)
}

/// How a run of a script ends over a writer.
fn run_into(alloc: Global, script: &[u8], writer: &mut Fussy) -> Result<Summary, Fault> {
    let mut engine = engine(alloc, Limits::greatest());
    engine.run(script, writer)
}

/// Asserts the replies to the script cut at each byte, read at once and one byte at a time.
fn assert_cut(rt: &impl Abort, alloc: Global, parts: &[Part]) -> Result<(), Fail> {
    let whole = script_of(alloc, parts)?;
    for count in 0..whole.len().saturating_add(1) {
        let due = replies_to_prefix(alloc, parts, count)?;
        let (prefix, _rest) = whole.as_slice().split_at(count.min(whole.len()));
        for size in [1usize, 1_000] {
            let (written, ended) = run_over(alloc, Pieces::of(prefix, size));
            assert!(rt; ended.is_ok(), "{count} by {size}");
            assert_eq!(rt; written.as_slice(), due.as_slice(), "{count} by {size}");
        }
    }
    Ok(())
}

#[test]
fn a_quoted_payload_is_cut(rt: HostRuntime) -> Result<(), Fail> {
    assert_cut(&rt, rt.alloc(), &QUOTED)
}

#[test]
fn a_refused_payload_is_cut(rt: HostRuntime) -> Result<(), Fail> {
    assert_cut(&rt, rt.alloc(), &REFUSED)
}

/// The reply to `show` after a script.
fn shown_after(alloc: Global, script: &[u8]) -> Vec<u8> {
    let mut engine = engine(alloc, Limits::greatest());
    let _ = written_to(alloc, &mut engine, script);
    written_to(alloc, &mut engine, b"show s\n")
}

/// The payload without an end leaves the table as it was.
#[test]
fn an_open_payload_is_cut(rt: HostRuntime) -> Result<(), Fail> {
    assert_cut(&rt, rt.alloc(), &LEFT_OPEN)?;
    let script = script_of(rt.alloc(), &LEFT_OPEN)?;
    let shown = shown_after(rt.alloc(), script.as_slice());
    assert_eq!(rt; shown.as_slice(), b"ok 1\nid,city\n1,Rome\n".as_slice());
    Ok(())
}

/// Asserts that each read of one byte, if it fails, ends the run in a fault, and that what was
/// written is a prefix of the whole script's replies.
fn assert_reads_fail(rt: &impl Abort, alloc: Global, parts: &[Part]) -> Result<(), Fail> {
    let whole = script_of(alloc, parts)?;
    let due = replies_to_prefix(alloc, parts, whole.len())?;
    for fails_at in 1..whole.len().saturating_add(2) {
        let reader = Pieces {
            bytes: whole.as_slice(),
            size: 1,
            fails_at,
            error: ErrorKind::Other,
        };
        let (written, ended) = run_over(alloc, reader);
        assert!(rt; ended == Err(Fault::Read), "read {fails_at}");
        assert!(rt;
            due.as_slice().starts_with(written.as_slice()),
            "read {fails_at}"
        );
    }
    Ok(())
}

#[test]
fn reads_fail_within_payloads(rt: HostRuntime) -> Result<(), Fail> {
    assert_reads_fail(&rt, rt.alloc(), &QUOTED)?;
    assert_reads_fail(&rt, rt.alloc(), &REFUSED)?;
    assert_reads_fail(&rt, rt.alloc(), &LEFT_OPEN)
}

/// Asserts that each write of one byte, if it has this trouble, ends the run in a fault, and that
/// the bytes before it were written.
fn assert_writes_fail(
    rt: &impl Abort,
    alloc: Global,
    parts: &[Part],
    trouble: Trouble,
) -> Result<(), Fail> {
    let whole = script_of(alloc, parts)?;
    let due = replies_to_prefix(alloc, parts, whole.len())?;
    for k in 1..due.len().saturating_add(1) {
        let mut writer = Fussy::new(alloc, 1, trouble, k);
        let ended = run_into(alloc, whole.as_slice(), &mut writer);
        assert!(rt; ended == Err(Fault::Write), "write {k}");
        let (prefix, _rest) = due.as_slice().split_at((k - 1).min(due.len()));
        assert_eq!(rt; writer.written.as_slice(), prefix, "write {k}");
    }
    Ok(())
}

#[test]
fn writes_of_replies_to_loads_fail(rt: HostRuntime) -> Result<(), Fail> {
    let alloc = rt.alloc();
    for trouble in [Trouble::Write(ErrorKind::Other), Trouble::Full] {
        assert_writes_fail(&rt, alloc, &QUOTED, trouble)?;
        assert_writes_fail(&rt, alloc, &REFUSED, trouble)?;
        assert_writes_fail(&rt, alloc, &LEFT_OPEN, trouble)?;
    }
    Ok(())
}
