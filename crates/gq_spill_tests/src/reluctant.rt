//! Files that are slow or fail: a stand-in for the system's, whose names are real.

use std::alloc::Allocator;
use std::cell::Cell;
use std::fs::{Files, Metadata, OpenFile, OpenOptions};
use std::io::{self, ErrorKind, Read, Seek, SeekFrom, Write};

/// How the calls of a file behave.
#[derive(Clone, Copy)]
pub(crate) struct Manner {
    /// The most bytes that a read returns.
    pub gives: usize,
    /// The most bytes that a write takes.
    pub takes: usize,
    /// Whether every other read or write is interrupted.
    pub interrupted: bool,
    /// Which read, write or seek fails, counted from 0.
    pub failing: u64,
    /// How many times making a file finds that another program has just made it.
    pub taken: u32,
}

/// Each call succeeds at once.
pub(crate) const WILLING: Manner = Manner {
    gives: usize::MAX,
    takes: usize::MAX,
    interrupted: false,
    failing: u64::MAX,
    taken: 0,
};

/// The files of another implementation, whose open ones behave in this manner.
#[derive(Drop)]
pub(crate) struct Reluctant<'a, R> {
    files: &'a R,
    manner: Manner,
    // How many more times another program is first.
    taken: Cell<u32>,
}

impl<'a, R> Reluctant<'a, R> {
    pub(crate) fn new(files: &'a R, manner: Manner) -> Reluctant<'a, R> {
        Reluctant {
            files,
            manner,
            taken: Cell::new(0),
        }
    }
}

/// A file whose calls behave in a manner of its own.
#[derive(Drop)]
pub(crate) struct ReluctantFile<F: Drop> {
    file: F,
    manner: Manner,
    calls: u64,
}

impl<F: Drop> ReluctantFile<F> {
    // Counts a call, which fails if it is its turn.
    fn call(&mut self) -> io::Result<()> {
        let call = self.calls;
        self.calls = call.saturating_add(1);
        if call == self.manner.failing {
            return Err(ErrorKind::Other.into());
        }
        Ok(())
    }

    // A call that may be interrupted.
    fn slow_call(&mut self) -> io::Result<()> {
        self.call()?;
        if self.manner.interrupted && self.calls % 2 == 1 {
            return Err(ErrorKind::Interrupted.into());
        }
        Ok(())
    }
}

impl<F: Read + Drop> Read for ReluctantFile<F> {
    fn read(&mut self, buf: &mut [u8]) -> io::Result<usize> {
        self.slow_call()?;
        let count = buf.len().min(self.manner.gives);
        self.file.read(&mut buf[..count])
    }
}

impl<F: Write + Drop> Write for ReluctantFile<F> {
    fn write(&mut self, buf: &[u8]) -> io::Result<usize> {
        self.slow_call()?;
        let count = buf.len().min(self.manner.takes);
        self.file.write(&buf[..count])
    }

    fn flush(&mut self) -> io::Result<()> {
        self.file.flush()
    }
}

impl<F: Seek + Drop> Seek for ReluctantFile<F> {
    fn seek(&mut self, to: SeekFrom) -> io::Result<u64> {
        self.call()?;
        self.file.seek(to)
    }
}

impl<F: OpenFile + Drop> OpenFile for ReluctantFile<F> {
    fn metadata(&self) -> io::Result<Metadata> {
        self.file.metadata()
    }

    fn set_len(&self, size: u64) -> io::Result<()> {
        self.file.set_len(size)
    }

    fn sync_all(&self) -> io::Result<()> {
        self.file.sync_all()
    }

    fn sync_data(&self) -> io::Result<()> {
        self.file.sync_data()
    }
}

impl<R: Files> Files for Reluctant<'_, R> {
    type File = ReluctantFile<R::File>;

    type Dir = R::Dir;

    fn open_file(&self, how: &OpenOptions, path: &str) -> io::Result<ReluctantFile<R::File>> {
        let taken = self.taken.get();
        if taken < self.manner.taken {
            self.taken.set(taken.saturating_add(1));
            return Err(ErrorKind::AlreadyExists.into());
        }
        Ok(ReluctantFile {
            file: self.files.open_file(how, path)?,
            manner: self.manner,
            calls: 0,
        })
    }

    fn open_dir(&self, path: &str) -> io::Result<R::Dir> {
        self.files.open_dir(path)
    }

    fn metadata(&self, path: &str) -> io::Result<Metadata> {
        self.files.metadata(path)
    }

    fn symlink_metadata(&self, path: &str) -> io::Result<Metadata> {
        self.files.symlink_metadata(path)
    }

    fn copy(&self, from: &str, to: &str) -> io::Result<u64> {
        self.files.copy(from, to)
    }

    fn rename(&self, from: &str, to: &str) -> io::Result<()> {
        self.files.rename(from, to)
    }

    fn remove_file(&self, path: &str) -> io::Result<()> {
        self.files.remove_file(path)
    }

    fn create_dir(&self, path: &str) -> io::Result<()> {
        self.files.create_dir(path)
    }

    fn remove_dir(&self, path: &str) -> io::Result<()> {
        self.files.remove_dir(path)
    }

    fn remove_dir_all<B: Allocator>(&self, alloc: B, path: &str) -> io::Result<()> {
        self.files.remove_dir_all(alloc, path)
    }
}
