//! Files without names, which no other program has open, and which are deleted once they are closed.

use std::fs::{self, Files, OpenOptions};
use std::io::{self, ErrorKind};
use std::os::unix::fs::OpenOptionsExt;

// How often making a file is tried while other programs make one with the same name.
const TRIES: u32 = 1_000;

/// A new empty file, open for reads and writes by its owner alone: made under a path, and unlinked at once. A
/// file or link that had the name is unlinked, too. Fails if the name can't be unlinked, or the file made.
pub fn nameless_file<R: Files>(files: &R, path: &str) -> io::Result<R::File> {
    for _ in 0..TRIES {
        take_name_away(files, path)?;
        match create_new(files, path) {
            Ok(file) => {
                take_name_away(files, path)?;
                return Ok(file);
            }
            // Another program was first.
            Err(error) if error.kind() == ErrorKind::AlreadyExists => {}
            Err(error) => return Err(error),
        }
    }
    Err(ErrorKind::AlreadyExists.into())
}

// Makes a file unless something, even a link, has that name.
fn create_new<R: Files>(files: &R, path: &str) -> io::Result<R::File> {
    OpenOptions::new()
        .read(true)
        .write(true)
        .create_new(true)
        .mode(0o600)
        .open(files, path)
}

// Unlinks a name, if it exists.
fn take_name_away<R: Files>(files: &R, path: &str) -> io::Result<()> {
    match fs::remove_file(files, path) {
        Err(error) if error.kind() != ErrorKind::NotFound => Err(error),
        _ => Ok(()),
    }
}
