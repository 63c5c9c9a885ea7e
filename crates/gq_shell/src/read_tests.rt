//! Tables from files of which each read fails in turn.
use crate::command_lines::owned;
use crate::program::run_program;
use crate::streams::Streams;
use gq_tables::Reopen;
use std::cell::Cell;
use std::io::{self, ErrorKind, Read};
use std::random::RandomSource;
use std::test::Fail;

/// How many reads succeed before the first that fails.
#[derive(Drop)]
struct Fuse {
    left: Cell<u64>,
    /// Whether all later reads fail too.
    lasts: bool,
}

impl Fuse {
    // Counts a read, which may fail.
    fn read(&self) -> io::Result<()> {
        let left = self.left.get();
        if left > 0 {
            self.left.set(left - 1);
            return Ok(());
        }
        if !self.lasts {
            self.left.set(u64::MAX);
        }
        Err(ErrorKind::Other.into())
    }
}

/// A file that gives a few bytes at each read.
#[derive(Drop)]
struct Flaky<'a> {
    bytes: &'static [u8],
    can_reopen: bool,
    fuse: &'a Fuse,
}

impl<'a> Read for Flaky<'a> {
    fn read(&mut self, buffer: &mut [u8]) -> io::Result<usize> {
        self.fuse.read()?;
        let count = buffer.len().min(self.bytes.len()).min(7);
        buffer[..count].copy_from_slice(&self.bytes[..count]);
        self.bytes = &self.bytes[count..];
        Ok(count)
    }
}

impl<'a> Reopen for Flaky<'a> {
    fn can_reopen(&self) -> bool {
        self.can_reopen
    }
}

#[derive(Drop)]
struct NoRandom;

impl RandomSource for NoRandom {
    fn fill_bytes(&self, _buffer: &mut [u8]) -> io::Result<()> {
        Err(ErrorKind::Other.into())
    }
}

const SHOWN: &[u8] = b"city,n\nBonn,1\nCologne,x\nPrague,12\n";

/// The status and the streams of a table of three files, of which the second has a text in a column
/// that begins with numbers.
fn run_over(
    rt: &HostRuntime,
    fuse: &Fuse,
    can_reopen: bool,
) -> Result<(u8, Vec<u8>, Vec<u8>), Fail> {
    let line = [
        "groupsh", "-t", "t=a", "-t", "t=b", "-t", "t=c", "-c", "show t", "-o", "csv",
    ];
    let words = owned(rt.alloc(), &line)?;
    let opener = |path: &str| -> io::Result<Flaky> {
        let bytes = match path {
            "a" => b"city,n\nBonn,1\n".as_slice(),
            "b" => b"city,n\nCologne,x\n".as_slice(),
            "c" => b"n,city\n12,Prague\n".as_slice(),
            _ => return Err(ErrorKind::NotFound.into()),
        };
        Ok(Flaky {
            bytes,
            can_reopen,
            fuse,
        })
    };
    let mut replies = Vec::new(rt.alloc());
    let mut errors = Vec::new(rt.alloc());
    let status = run_program(
        rt.alloc(),
        Ok(words),
        rt,
        &NoRandom,
        opener,
        &mut Streams {
            input: b"".as_slice(),
            replies: &mut replies,
            errors: &mut errors,
        },
    );
    Ok((status, replies, errors))
}

/// Whether a run whose read failed says so of a file, and writes nothing else.
fn is_read_fault(status: u8, replies: &[u8], errors: &[u8]) -> bool {
    status == 3
        && replies.is_empty()
        && errors.starts_with(b"groupsh: ")
        && errors.ends_with(b": read fault\n")
}

/// Lets each read in turn be the first that fails, until none does. Returns how many runs ended with
/// a fault.
fn run_each(rt: &HostRuntime, lasts: bool, can_reopen: bool) -> Result<u64, Fail> {
    let mut faults = 0u64;
    for reads in 0..200u64 {
        let fuse = Fuse {
            left: Cell::new(reads),
            lasts,
        };
        let (status, replies, errors) = run_over(rt, &fuse, can_reopen)?;
        if is_read_fault(status, replies.as_slice(), errors.as_slice()) {
            faults = faults.saturating_add(1);
        } else if status != 0 || replies.as_slice() != SHOWN || !errors.is_empty() {
            return Err(Fail::new("a run without a fault shows all rows"));
        }
    }
    Ok(faults)
}

/// A read that fails is reported with its file, and nothing else is written. After one that fails in
/// the guess of the columns all files are read, and no row is lost.
#[test]
fn each_read_fails_in_turn(rt: HostRuntime) -> Result<(), Fail> {
    for can_reopen in [true, false] {
        for lasts in [true, false] {
            let faults = run_each(&rt, lasts, can_reopen)?;
            assert!(rt; faults > 0);
            assert!(rt; faults < 200);
        }
    }
    Ok(())
}
