//! Sessions with their statuses, and the program over streams in memory.
use crate::command_lines::{VERSION, owned};
use crate::program::run_program;
use crate::report::{Reporting, report_of};
use crate::seeding::RunSeed;
use crate::session::session;
use crate::streams::Streams;
use crate::writing::CutShort;
use gq_engine::{Budget, Engine, MemStore, Output, Spent};
use gq_options::BadLine;
use gq_row::{Bounds, Limits};
use std::alloc::{AllocError, Global};
use std::io::{self, ErrorKind, Read, Write};
use std::process::Abort;
use std::random::RandomSource;
use std::test::Fail;
use std::time::SystemTime;
use std::{env, fs};
use sw_probe::Fnv1a;

fn fresh(alloc: Global, limits: Limits) -> Result<Engine<Fnv1a, MemStore>, Fail> {
    let Some(budget) = Budget::new(65_536) else {
        return Err(Fail::new("no budget"));
    };
    Ok(Engine::new(
        alloc,
        Fnv1a { seed: 0 },
        MemStore::new(alloc),
        budget,
        limits,
    ))
}

const QUIET: Reporting = Reporting {
    stats: false,
    seed: RunSeed::Given(0),
};

const REPORTED: Reporting = Reporting {
    stats: true,
    seed: RunSeed::Given(0),
};

/// The text that each error shows.
#[test]
fn errors_show_their_texts(rt: HostRuntime) -> Result<(), Fail> {
    let help = BadLine::Help(String::from_str(rt.alloc(), "Usage\n")?);
    let version = BadLine::Version(String::from_str(rt.alloc(), "groupsh 1\n")?);
    let mistake = BadLine::Mistake(String::from_str(rt.alloc(), "error: two\n")?);
    for (error, text) in [
        (&help, "Usage\n"),
        (&version, "groupsh 1\n"),
        (&mistake, "error: two\n"),
        (&BadLine::Memory, "out of memory"),
    ] {
        assert_eq!(rt; format!(in rt.alloc(); "{error}")?.as_str(), text);
    }
    let cut = CutShort;
    assert_eq!(rt; format!(in rt.alloc(); "{cut}")?.as_str(), "cut short");
    Ok(())
}

/// Each script, what it writes, and the status.
#[test]
fn statuses(rt: HostRuntime) -> Result<(), Fail> {
    let cases: [(&[u8], &[u8], u8); 4] = [
        (b"", b"", 0),
        (
            b"create s (id int, city text, key (id))\nupsert s (1, 'Oslo')\nupsert s (2, 'Rome')\nupsert s (1, 'Rome')\ngroup s by city show count(*)\n",
            b"ok 0\nok 1\nok 1\nok 1\nok 1\ncity,count(*)\nRome,2\n",
            0,
        ),
        (b"creat t (a int)\n", b"err 1 Syntax\n", 1),
        (
            b"group zz by a show count(*)\ncreate s (a int)\n",
            b"err 3 NoTable\nok 0\n",
            1,
        ),
    ];
    for (script, due, status) in cases {
        let mut engine = fresh(rt.alloc(), Limits::greatest())?;
        let mut replies = Vec::new(rt.alloc());
        let mut errors = Vec::new(rt.alloc());
        let answered = session(
            &mut engine,
            Output::Replies,
            script,
            &mut replies,
            &mut errors,
            QUIET,
        );
        assert_eq!(rt; answered, status);
        assert_eq!(rt; replies.as_slice(), due);
        assert!(rt; errors.is_empty());
    }
    Ok(())
}

/// Gives a script, and then fails.
#[derive(Drop)]
struct Broken {
    bytes: &'static [u8],
}

impl Read for Broken {
    fn read(&mut self, buffer: &mut [u8]) -> io::Result<usize> {
        if self.bytes.is_empty() {
            return Err(ErrorKind::Other.into());
        }
        let count = buffer.len().min(self.bytes.len());
        buffer[..count].copy_from_slice(&self.bytes[..count]);
        self.bytes = &self.bytes[count..];
        Ok(count)
    }
}

/// Takes two bytes at each write, as often as it has room, and then none.
#[derive(Drop)]
struct Narrow {
    written: Vec<u8>,
    room: usize,
    error: Option<ErrorKind>,
}

impl Write for Narrow {
    fn write(&mut self, bytes: &[u8]) -> io::Result<usize> {
        if self.room == 0 {
            return match self.error {
                Some(error) => Err(error.into()),
                None => Ok(0),
            };
        }
        self.room -= 1;
        let count = bytes.len().min(2);
        if self.written.extend_from_slice(&bytes[..count]).is_err() {
            return Err(ErrorKind::OutOfMemory.into());
        }
        Ok(count)
    }

    fn flush(&mut self) -> io::Result<()> {
        Ok(())
    }
}

impl Narrow {
    fn new(alloc: Global, room: usize, error: Option<ErrorKind>) -> Narrow {
        Narrow {
            written: Vec::new(alloc),
            room,
            error,
        }
    }
}

#[test]
fn read_faults(rt: HostRuntime) -> Result<(), Fail> {
    // A read that fails, and a script of one byte more than its limit.
    let Some(short) = Limits::new(Bounds {
        script: 20,
        ..Limits::greatest().bounds
    }) else {
        return Err(Fail::new("no limits"));
    };
    for limits in [Limits::greatest(), short] {
        let mut engine = fresh(rt.alloc(), limits)?;
        let mut replies = Vec::new(rt.alloc());
        let mut errors = Vec::new(rt.alloc());
        let script = Broken {
            bytes: b"create s (a int)\nupsert s (1)",
        };
        let status = session(
            &mut engine,
            Output::Replies,
            script,
            &mut replies,
            &mut errors,
            QUIET,
        );
        assert_eq!(rt; status, 3);
        assert_eq!(rt; replies.as_slice(), b"ok 0\n".as_slice());
        assert_eq!(rt; errors.as_slice(), b"groupsh: read fault\n".as_slice());
    }
    Ok(())
}

#[test]
fn write_faults(rt: HostRuntime) -> Result<(), Fail> {
    for error in [None, Some(ErrorKind::Other), Some(ErrorKind::Interrupted)] {
        let mut engine = fresh(rt.alloc(), Limits::greatest())?;
        let mut replies = Narrow::new(rt.alloc(), 4, error);
        let mut errors = Narrow::new(rt.alloc(), 1000, None);
        let script: &[u8] = b"create s (a int)\nupsert s (1)\n";
        let status = session(
            &mut engine,
            Output::Replies,
            script,
            &mut replies,
            &mut errors,
            QUIET,
        );
        assert_eq!(rt; status, 3);
        assert_eq!(rt; replies.written.as_slice(), b"ok 0\nok".as_slice());
        assert_eq!(rt;
            errors.written.as_slice(),
            b"groupsh: write fault\n".as_slice()
        );
    }
    Ok(())
}

/// Asserts what a session with a fault returns and reports, and that it wrote a prefix of the replies.
fn assert_fault(rt: &impl Abort, status: u8, replies: &[u8], errors: &[u8], reported: &[u8]) {
    assert_eq!(rt; status, 3);
    assert!(rt; b"ok 0\nok 1\n".as_slice().starts_with(replies));
    assert_eq!(rt; errors, reported);
}

/// A read that fails after each byte of a script, and a writer that takes a byte less each time, or
/// nothing.
#[test]
fn faults_at_each_call(rt: HostRuntime) -> Result<(), Fail> {
    let script: &'static [u8] = b"create s (a int)\nupsert s (1)\n";
    for count in 0..=script.len() {
        let mut engine = fresh(rt.alloc(), Limits::greatest())?;
        let (mut replies, mut errors) = (Vec::new(rt.alloc()), Vec::new(rt.alloc()));
        let (bytes, _rest) = script.split_at(count);
        let status = session(
            &mut engine,
            Output::Replies,
            Broken { bytes },
            &mut replies,
            &mut errors,
            QUIET,
        );
        let reported = b"groupsh: read fault\n";
        assert_fault(&rt, status, replies.as_slice(), errors.as_slice(), reported);
    }
    // Each of the two replies has five bytes, which are written by two, two and one.
    for room in 0..6usize {
        for error in [None, Some(ErrorKind::Other)] {
            let mut engine = fresh(rt.alloc(), Limits::greatest())?;
            let mut replies = Narrow::new(rt.alloc(), room, error);
            let mut errors = Vec::new(rt.alloc());
            let status = session(
                &mut engine,
                Output::Replies,
                script,
                &mut replies,
                &mut errors,
                QUIET,
            );
            let reported = b"groupsh: write fault\n";
            assert_fault(
                &rt,
                status,
                replies.written.as_slice(),
                errors.as_slice(),
                reported,
            );
        }
    }
    Ok(())
}

/// A write fault while a fault is reported is ignored.
#[test]
fn a_standard_error_that_takes_little(rt: HostRuntime) -> Result<(), Fail> {
    for error in [None, Some(ErrorKind::Other)] {
        for room in 0..10usize {
            let mut engine = fresh(rt.alloc(), Limits::greatest())?;
            let mut replies = Vec::new(rt.alloc());
            let mut errors = Narrow::new(rt.alloc(), room, error);
            let script = Broken { bytes: b"" };
            let status = session(
                &mut engine,
                Output::Replies,
                script,
                &mut replies,
                &mut errors,
                REPORTED,
            );
            assert_eq!(rt; status, 3);
            let reported: &[u8] = b"groupsh: read fault\n";
            let (prefix, _rest) = reported.split_at((2 * room).min(reported.len()));
            assert_eq!(rt; errors.written.as_slice(), prefix);
        }
    }
    Ok(())
}

/// The status of a session, and what it wrote on each stream.
fn run_session(alloc: Global, script: &[u8], stats: bool) -> Result<(u8, Vec<u8>, Vec<u8>), Fail> {
    let mut engine = fresh(alloc, Limits::greatest())?;
    let mut replies = Vec::new(alloc);
    let mut errors = Vec::new(alloc);
    let status = session(
        &mut engine,
        Output::Replies,
        script,
        &mut replies,
        &mut errors,
        Reporting {
            stats,
            seed: RunSeed::Given(0),
        },
    );
    Ok((status, replies, errors))
}

/// A script with two groups, and with one.
fn grouped() -> &'static [u8] {
    b"create b (id int, n int)\nupsert b (1, 5)\nupsert b (2, 7)\ngroup b by id show sum(n)\ngroup b show count(*)\n".as_slice()
}

#[test]
fn reports(rt: HostRuntime) -> Result<(), Fail> {
    let cases: [(&[u8], &[u8]); 3] = [
        (b"", b"groupsh: read 0, written 0, groups 0, runs 0\n"),
        (
            b"creat\n",
            b"groupsh: read 0, written 0, groups 0, runs 0\n",
        ),
        (grouped(), b"groupsh: read 4, written 0, groups 3, runs 0\n"),
    ];
    for (script, due) in cases {
        let (status, replies, errors) = run_session(rt.alloc(), script, true)?;
        let (again, same, none) = run_session(rt.alloc(), script, false)?;
        assert_eq!(rt; errors.as_slice(), due);
        assert!(rt; none.is_empty());
        assert_eq!(rt; status, again);
        assert_eq!(rt; replies.as_slice(), same.as_slice());
    }
    Ok(())
}

/// The line of the greatest numbers, and a standard error that takes a prefix of it.
#[test]
fn long_reports(rt: HostRuntime) -> Result<(), Fail> {
    let line = report_of(
        Reporting {
            stats: true,
            seed: RunSeed::Drawn(u64::MAX - 4),
        },
        Spent {
            rows_read: u64::MAX,
            rows_written: u64::MAX - 1,
            groups: u64::MAX - 2,
            runs: u64::MAX - 3,
        },
    );
    assert_eq!(rt;
        line.as_str(),
        "groupsh: read 18446744073709551615, written 18446744073709551614, groups 18446744073709551613, runs 18446744073709551612, seed 18446744073709551611\n"
    );
    let mut engine = fresh(rt.alloc(), Limits::greatest())?;
    let mut replies = Vec::new(rt.alloc());
    let mut errors = Narrow::new(rt.alloc(), 7, None);
    let status = session(
        &mut engine,
        Output::Replies,
        grouped(),
        &mut replies,
        &mut errors,
        REPORTED,
    );
    assert_eq!(rt; status, 0);
    assert_eq!(rt; errors.written.as_slice(), b"groupsh: read ".as_slice());
    Ok(())
}

/// Fills each place with the same byte, or fails.
#[derive(Clone, Copy)]
struct Source {
    byte: Result<u8, ErrorKind>,
}

impl RandomSource for Source {
    fn fill_bytes(&self, buffer: &mut [u8]) -> io::Result<()> {
        match self.byte {
            Ok(byte) => {
                buffer.fill(byte);
                Ok(())
            }
            Err(kind) => Err(kind.into()),
        }
    }
}

/// What the program returns and writes, over these scripts and random bytes that are all 5.
fn run_in_memory(
    rt: &HostRuntime,
    words: io::Result<Vec<String>>,
    input: &[u8],
) -> (u8, Vec<u8>, Vec<u8>) {
    run_with_source(rt, Source { byte: Ok(5) }, words, input)
}

/// What it returns and writes, over this source of random bytes.
fn run_with_source(
    rt: &HostRuntime,
    source: Source,
    words: io::Result<Vec<String>>,
    input: &[u8],
) -> (u8, Vec<u8>, Vec<u8>) {
    let opener = |path: &str| -> io::Result<&[u8]> {
        match path {
            "a.gq" => Ok(b"create s (a int)\n".as_slice()),
            "-" => Ok(b"create s (a int)\ncreat\n".as_slice()),
            "locked" => Err(ErrorKind::PermissionDenied.into()),
            "large" => Err(ErrorKind::OutOfMemory.into()),
            _ => Err(ErrorKind::NotFound.into()),
        }
    };
    let mut replies = Vec::new(rt.alloc());
    let mut errors = Vec::new(rt.alloc());
    let status = run_program(
        rt.alloc(),
        words,
        rt,
        &source,
        opener,
        &mut Streams {
            input,
            replies: &mut replies,
            errors: &mut errors,
        },
    );
    (status, replies, errors)
}

/// Each command line, the status, and the bytes of each stream.
#[test]
fn programs(rt: HostRuntime) -> Result<(), Fail> {
    let input = b"creat\n".as_slice();
    let refused = b"err 1 Syntax\n".as_slice();
    let both = b"ok 0\nerr 1 Syntax\n".as_slice();
    let unopened = b"groupsh: cannot open script\n".as_slice();
    let full = b"groupsh: out of memory\n".as_slice();
    let unworked = b"groupsh: read 0, written 0, groups 0, runs 0\n".as_slice();
    let cases: [(&[&str], u8, &[u8], &[u8]); 13] = [
        (&["groupsh"], 1, refused, b""),
        (&["groupsh", "--seed=7"], 1, refused, b""),
        (&["groupsh", "--seed", "7", "-"], 1, both, b""),
        (&["groupsh", "a.gq"], 0, b"ok 0\n", b""),
        (&["groupsh", "-"], 1, both, b""),
        (&["groupsh", "--", "-"], 1, both, b""),
        (&["groupsh", "b.gq"], 3, b"", unopened),
        (&["groupsh", "locked"], 3, b"", unopened),
        (&["groupsh", "large"], 3, b"", full),
        (&["groupsh", "--stats"], 1, refused, unworked),
        (&["groupsh", "a.gq", "--stats"], 0, b"ok 0\n", unworked),
        (&["groupsh", "--stats", "b.gq"], 3, b"", unopened),
        (&["groupsh", "--spill=a.gq", "-"], 1, both, b""),
    ];
    for (words, status, due, reported) in cases {
        let words = owned(rt.alloc(), words)?;
        let (answered, replies, errors) = run_in_memory(&rt, Ok(words), input);
        assert_eq!(rt; answered, status);
        assert_eq!(rt; replies.as_slice(), due);
        assert_eq!(rt; errors.as_slice(), reported);
    }
    Ok(())
}

/// Random seeds: only a report shows them, and if none can be drawn nothing is run.
#[test]
fn random_seeds(rt: HostRuntime) -> Result<(), Fail> {
    let script = b"creat\n".as_slice();
    let both = b"ok 0\nerr 1 Syntax\n".as_slice();
    let reported =
        b"groupsh: read 0, written 0, groups 0, runs 0, seed 361700864190383365\n".as_slice();
    let zero = b"groupsh: read 0, written 0, groups 0, runs 0, seed 0\n".as_slice();
    let none = b"groupsh: no random seed\n".as_slice();
    let full = b"groupsh: out of memory\n".as_slice();
    let (fives, zeros) = (Ok(5), Ok(0));
    let (failing, starved) = (Err(ErrorKind::Other), Err(ErrorKind::OutOfMemory));
    let cases: [(&[&str], Result<u8, ErrorKind>, u8, &[u8], &[u8]); 8] = [
        (&["groupsh", "--seed=random", "-"], fives, 1, both, b""),
        (
            &["groupsh", "--seed=random", "--stats", "-"],
            fives,
            1,
            both,
            reported,
        ),
        (
            &["groupsh", "--stats", "-", "--seed", "random"],
            zeros,
            1,
            both,
            zero,
        ),
        (&["groupsh", "--seed=random", "-"], failing, 3, b"", none),
        (
            &["groupsh", "--seed=random", "--spill=d"],
            failing,
            3,
            b"",
            none,
        ),
        (
            &["groupsh", "--stats", "--seed=random", "b.gq"],
            failing,
            3,
            b"",
            none,
        ),
        (&["groupsh", "--seed=random", "-"], starved, 3, b"", full),
        (&["groupsh", "--seed=7", "-"], failing, 1, both, b""),
    ];
    for (words, byte, status, due, reported) in cases {
        let words = owned(rt.alloc(), words)?;
        let (answered, replies, errors) = run_with_source(&rt, Source { byte }, Ok(words), script);
        assert_eq!(rt; answered, status);
        assert_eq!(rt; replies.as_slice(), due);
        assert_eq!(rt; errors.as_slice(), reported);
    }
    Ok(())
}

#[test]
fn command_lines_that_run_nothing(rt: HostRuntime) -> Result<(), Fail> {
    let cases: [(&[&str], u8, &str, &str); 5] = [
        (&["groupsh", "--help"], 0, "Groups rows", ""),
        (&["groupsh", "--version"], 0, VERSION, ""),
        (&["groupsh", "a.gq", "-V"], 0, VERSION, ""),
        (&["groupsh", "--seed", "x", "a.gq"], 2, "", "error: "),
        (&["groupsh", "a.gq", "b.gq"], 2, "", "error: "),
    ];
    for (words, status, replies_prefix, errors_prefix) in cases {
        let words = owned(rt.alloc(), words)?;
        let (answered, replies, errors) = run_in_memory(&rt, Ok(words), b"creat\n");
        assert_eq!(rt; answered, status);
        assert_eq!(rt; replies.is_empty(), replies_prefix.is_empty());
        assert_eq!(rt; errors.is_empty(), errors_prefix.is_empty());
        assert!(rt; replies.as_slice().starts_with(replies_prefix.as_bytes()));
        assert!(rt; errors.as_slice().starts_with(errors_prefix.as_bytes()));
    }
    Ok(())
}

#[test]
fn words_that_cannot_be_had(rt: HostRuntime) -> Result<(), Fail> {
    let cases: [(ErrorKind, u8, &[u8]); 2] = [
        (ErrorKind::OutOfMemory, 3, b"groupsh: out of memory\n"),
        (
            ErrorKind::InvalidData,
            2,
            b"error: the arguments are not UTF-8\n",
        ),
    ];
    for (kind, status, reported) in cases {
        let (answered, replies, errors) = run_in_memory(&rt, Err(kind.into()), b"creat\n");
        assert_eq!(rt; answered, status);
        assert!(rt; replies.is_empty());
        assert_eq!(rt; errors.as_slice(), reported);
    }
    Ok(())
}

/// The path of a folder that there isn't yet.
fn fresh_folder(rt: &HostRuntime) -> Result<String, Fail> {
    let now = SystemTime::now(rt)?.duration_since(SystemTime::UNIX_EPOCH);
    let nanos = match now {
        Ok(age) => age.as_nanos(),
        Err(_) => 0,
    };
    let name = format!(in rt.alloc(); "groupsh-shell-{nanos}")?;
    let path = env::temp_dir(rt)?.join(rt.alloc(), name.as_str())?;
    let text = path.as_path().to_str().ok_or("the path is a text")?;
    Ok(String::from_str(rt.alloc(), text)?)
}

/// Spilled rows are in the folder, and are gone at the end. If there is no such folder, that is
/// reported, and the tables stay.
#[test]
fn folders(rt: HostRuntime) -> Result<(), Fail> {
    let alloc = rt.alloc();
    let folder = fresh_folder(&rt)?;
    let script =
        b"create b (id int)\nupsert b (1)\nupsert b (2)\ngroup b by id show count(*)\nshow b\n";
    let cases: [(u8, &[u8], &[u8]); 2] = [
        (
            1,
            b"ok 0\nok 1\nok 1\nerr 16 StoreFault\nok 2\nid\n1\n2\n",
            b"groupsh: read 0, written 0, groups 0, runs 0\n",
        ),
        (
            0,
            b"ok 0\nok 1\nok 1\nok 2\nid,count(*)\n1,1\n2,1\nok 2\nid\n1\n2\n",
            b"groupsh: read 2, written 1, groups 2, runs 1\n",
        ),
    ];
    for (due, shown, reported) in cases {
        let line = [
            "groupsh",
            "--stats",
            "--budget=1",
            "--spill",
            folder.as_str(),
        ];
        let words = owned(alloc, &line)?;
        let (status, replies, errors) = run_in_memory(&rt, Ok(words), script);
        assert_eq!(rt; status, due);
        assert_eq!(rt; replies.as_slice(), shown);
        assert_eq!(rt; errors.as_slice(), reported);
        if due == 1 {
            fs::create_dir(&rt, folder.as_str())?;
        }
    }
    // A folder that isn't empty can't be removed so.
    fs::remove_dir(&rt, folder.as_str())?;
    Ok(())
}
