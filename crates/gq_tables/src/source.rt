//! The files of words: opened for each read, or held.
ghost use Rattle.std.specs.Prelude.{◌≡◌, ℕ, List, IfErr, IfOk, IfSome, OnErr, OnOk, Some, false, true};
ghost use Rattle.std.specs.Fn.{FnReturnsAt};
ghost use Rattle.gq_tables.specs.Files.{HasAdded, HasBytes, HoldsLeft, is_input, left_in};
ghost use Rattle.gq_tables.specs.Reasons.{is_failure};

use crate::fault::Why;
use gq_infer::TableWord;
use std::alloc::Global;
use std::fs::File;
use std::io::{self, ErrorKind, Read};

/// A file that may be opened again for the same bytes.
pub trait Reopen {
    /// Whether opening its path again gives its bytes from the start, as for a regular file and
    /// unlike a pipe.
    fn can_reopen(&self) -> bool;
}

impl Reopen for File {
    fn can_reopen(&self) -> bool {
        match self.metadata() {
            Ok(metadata) => metadata.is_file(),
            Err(_error) => false,
        }
    }
}

impl Reopen for &[u8] {
    fn can_reopen(&self) -> bool {
        true
    }
}

/// Where a file's bytes are.
#[derive(Drop)]
pub(crate) enum Source {
    /// Here: they can be read from the file only once.
    Held(Vec<u8>),
    /// In the file, which is opened each time that it is read.
    Path,
}

/// A file that is open, or its bytes.
#[derive(Drop)]
pub(crate) enum Opened<'a, R> {
    Held(&'a [u8]),
    File(R),
}

impl<'a, R: Read> Read for Opened<'a, R> {
    ghost use Rattle.gq_tables.specs.Files.{left_in};

    ghost remaining = { left_in R.remaining };

    fn read(&mut self, buf: &mut [u8]) -> io::Result<usize> {
        match self {
            Opened::Held(bytes) => bytes.read(buf),
            Opened::File(file) => file.read(buf),
        }
    }
}

// The source of a word's file. Reads the standard input for `-`, and a file that can't be opened
// again.
fn find_source<F, R, I>(
    alloc: Global,
    word: &TableWord,
    opener: &F,
    input: &mut I,
) -> Result<Source, Why>
where
    F: Fn(&str) -> io::Result<R>,
    R: Read + Reopen + Drop,
    I: Read,
    requires { F.IsAlwaysCallable opener.now }
    ensures input { is_input word.now ≡ false → input.new ≡ input.old }
    ensures held { is_input word.now ≡ true → IfOk result (λ source. (bytes : List ℕ)
        → I.remaining input.old ≡ Some bytes
        → HasBytes R.remaining (λ name opened. FnReturnsAt F.Fn opener.now name opened)
        word.now.file.now source bytes) }
    ensures file { is_input word.now ≡ false → IfOk result (λ source. (bytes : List ℕ)
        → HasBytes R.remaining (λ name opened. FnReturnsAt F.Fn opener.now name opened)
        word.now.file.now Source.Path bytes
        → HasBytes R.remaining (λ name opened. FnReturnsAt F.Fn opener.now name opened)
        word.now.file.now source bytes) }
    ensures failed { IfErr result (λ why. is_failure why ≡ true) }
{
    if word.file == "-" {
        return Ok(Source::Held(read_whole(alloc, input)?));
    }
    match opener(word.file) {
        Ok(file) => source_of(alloc, file),
        Err(error) => Err(why_not(&error, Why::CannotOpen)),
    }
}

/// Adds the source of a word's file.
pub(crate) fn add_source<F, R, I>(
    alloc: Global,
    sources: &mut Vec<Source>,
    word: &TableWord,
    opener: &F,
    input: &mut I,
) -> Result<(), Why>
where
    F: Fn(&str) -> io::Result<R>,
    R: Read + Reopen + Drop,
    I: Read,
    requires { F.IsAlwaysCallable opener.now }
    ensures input { is_input word.now ≡ false → input.new ≡ input.old }
    ensures added { OnOk result (HasAdded R.remaining
        (λ name opened. FnReturnsAt F.Fn opener.now name opened) (I.remaining input.old)
        word.now sources.old.items sources.new.items) }
    ensures kept { OnErr result (sources.new.items ≡ sources.old.items) }
    ensures failed { IfErr result (λ why. is_failure why ≡ true) }
{
    let source = find_source(alloc, word, opener, input)?;
    Ok(sources.push(source)?)
}

// The source of a file that was opened.
fn source_of<R: Read + Reopen + Drop>(alloc: Global, file: R) -> Result<Source, Why>
    ensures holds { IfOk result (HoldsLeft (R.remaining file)) }
    ensures failed { IfErr result (λ why. is_failure why ≡ true) }
{
    if file.can_reopen() {
        return Ok(Source::Path);
    }
    let mut file = file;
    Ok(Source::Held(read_whole(alloc, &mut file)?))
}

// All bytes of a reader.
fn read_whole<R: Read>(alloc: Global, reader: &mut R) -> Result<Vec<u8>, Why>
    ensures read { IfOk result (λ bytes. IfSome (R.remaining reader.old) (λ left. bytes.items ≡ left)) }
    ensures failed { IfErr result (λ why. is_failure why ≡ true) }
{
    let mut bytes = Vec::new(alloc);
    match reader.read_to_end(&mut bytes) {
        Ok(_count) => Ok(bytes),
        Err(error) => Err(why_not(&error, Why::ReadFault)),
    }
}

/// Opens the file of a source.
pub(crate) fn open<'a, F, R>(
    path: &str,
    source: &'a Source,
    opener: &F,
) -> Result<Opened<'a, R>, Why>
where
    F: Fn(&str) -> io::Result<R>,
    R: Read + Drop,
    requires { F.IsAlwaysCallable opener.now }
    ensures opened { (bytes : List ℕ) → HasBytes R.remaining
        (λ name opened. FnReturnsAt F.Fn opener.now name opened) path.now source.now bytes
        → IfOk result (λ file. left_in R.remaining file ≡ Some bytes) }
    ensures failed { IfErr result (λ why. is_failure why ≡ true) }
{
    match source {
        Source::Held(bytes) => Ok(Opened::Held(bytes.as_slice())),
        Source::Path => match opener(path) {
            Ok(file) => Ok(Opened::File(file)),
            Err(error) => Err(why_not(&error, Why::CannotOpen)),
        },
    }
}

// Out of memory as such, and any other error by what was tried.
fn why_not(error: &io::Error, otherwise: Why) -> Why
    ensures { is_failure otherwise ≡ true → is_failure result ≡ true }
{
    if error.kind() == ErrorKind::OutOfMemory {
        Why::Memory
    } else {
        otherwise
    }
}
