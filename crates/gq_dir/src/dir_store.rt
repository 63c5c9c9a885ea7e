//! A run store in a folder.
ghost use Rattle.std.specs.Prelude.{◌≡◌, ◌+◌, [], Err, IfOk};
ghost use Rattle.gq_spill.specs.Runs.{is_fault, one_if};

use crate::nameless::nameless_file;
use crate::run_file::RunFile;
use gq_spill::{RunId, RunStore, StoreError};
use std::alloc::{AllocError, Global};
use std::fs::Files;

/// Runs in a folder, each in a file of its own, which is unlinked once it is open. Appended bytes are buffered,
/// and written in pieces of up to 64 KiB. The file is closed, and so deleted, when its run is discarded or the
/// store is dropped, however the program ends.
#[derive(Drop)]
pub struct DirStore<'a, R: Files> {
    alloc: Global,
    files: &'a R,
    folder: String,
    kept: Vec<Option<RunFile<R::File>>>,
    failures: u64,
}

impl<'a, R: Files> DirStore<'a, R> {
    /// A store in a folder, which isn't touched yet.
    pub fn new(alloc: Global, files: &'a R, folder: &str) -> Result<DirStore<'a, R>, AllocError>
        ensures { IfOk result (λ store. (store.kept.items ≡ []) × (store.failures ≡ 0)) }
    {
        Ok(DirStore {
            alloc,
            files,
            folder: String::from_str(alloc, folder)?,
            kept: Vec::new(alloc),
            failures: 0,
        })
    }
}

// Makes the file of a run.
fn open<R: Files>(
    alloc: Global,
    files: &R,
    folder: &str,
    number: u64,
) -> Result<RunFile<R::File>, StoreError> {
    let Ok(path) = format!(in alloc; "{folder}/run-{number}.gq") else {
        return Err(StoreError::Memory);
    };
    match nameless_file(files, path.as_str()) {
        Ok(file) => Ok(RunFile::new(alloc, file)),
        Err(_) => Err(StoreError::Fault),
    }
}

// Counts a failure. If the count would overflow, it is reported as `Memory`.
fn counted(failures: &mut u64, error: StoreError) -> StoreError
    ensures { failures.new ≡ failures.old + one_if (is_fault {T = Unit {0}} (Err result)) }
{
    match (error, failures.checked_add(1)) {
        (StoreError::Fault, Some(more)) => {
            *failures = more;
            StoreError::Fault
        }
        _ => StoreError::Memory,
    }
}

impl<'a, R: Files> RunStore for DirStore<'a, R> {
    ghost use Rattle.gq_dir.specs.Folders.{folder_runs};

    ghost runs = { λ store. folder_runs store.kept.items store.failures };

    fn make(&mut self) -> Result<RunId, StoreError> {
        let number = self.kept.len() as u64;
        if self.kept.reserve(1).is_err() {
            return Err(StoreError::Memory);
        }
        match open(self.alloc, self.files, self.folder.as_str(), number) {
            Ok(run) => match self.kept.push(Some(run)) {
                Ok(()) => Ok(RunId { number }),
                Err(_) => Err(StoreError::Memory),
            },
            Err(error) => Err(counted(&mut self.failures, error)),
        }
    }

    fn append(&mut self, id: RunId, bytes: &[u8]) -> Result<(), StoreError> {
        match &mut self.kept[id.number as usize] {
            Some(run) => match run.append(bytes) {
                Ok(()) => Ok(()),
                Err(error) => Err(counted(&mut self.failures, error)),
            },
            None => unreachable!(),
        }
    }

    fn read(&mut self, id: RunId, at: u64, buffer: &mut [u8]) -> Result<usize, StoreError> {
        match &mut self.kept[id.number as usize] {
            Some(run) => match run.read(at, buffer) {
                Ok(count) => Ok(count),
                Err(error) => Err(counted(&mut self.failures, error)),
            },
            None => unreachable!(),
        }
    }

    fn discard(&mut self, id: RunId) {
        self.kept[id.number as usize] = None;
    }
}
