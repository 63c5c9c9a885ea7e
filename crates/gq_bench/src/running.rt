//! Scripts that an engine runs.
use crate::folder::fresh_path;
use crate::shape::Shape;
use crate::task::{Scripts, Task};
use crate::timing::{Timing, nanoseconds_since};
use crate::work::{GREATEST, Place};
use gq_dir::DirStore;
use gq_engine::{Budget, Engine, MemStore, RunStore};
use gq_row::Limits;
use std::time::Instant;
use std::{fs, io};
use sw_probe::WordHash;

/// A task of an engine with the largest budget, and with its runs in memory.
pub(crate) fn time_task(
    rt: &HostRuntime,
    task: Task,
    shape: Shape,
    rows: usize,
) -> io::Result<Timing> {
    let scripts = task.scripts(rt.alloc(), shape, rows)?;
    time_scripts(rt, &scripts, GREATEST, MemStore::new(rt.alloc()))
}

/// A task of an engine with a budget of `groups` groups.
pub(crate) fn time_within(
    rt: &HostRuntime,
    task: Task,
    groups: u32,
    place: Place,
    shape: Shape,
    rows: usize,
) -> io::Result<Timing> {
    let scripts = task.scripts(rt.alloc(), shape, rows)?;
    match place {
        Place::Memory => time_scripts(rt, &scripts, groups, MemStore::new(rt.alloc())),
        Place::Folder => time_in_folder(rt, &scripts, groups),
    }
}

// With runs in a folder of its own, which is removed at the end.
fn time_in_folder(rt: &HostRuntime, scripts: &Scripts, groups: u32) -> io::Result<Timing> {
    let folder = fresh_path(rt)?;
    let store = DirStore::new(rt.alloc(), rt, folder.as_str())?;
    fs::create_dir(rt, folder.as_str())?;
    let timing = time_scripts(rt, scripts, groups, store);
    fs::remove_dir(rt, folder.as_str())?;
    timing
}

// The time of the second script, on an engine that has run the first.
fn time_scripts<S: RunStore + Drop>(
    rt: &HostRuntime,
    scripts: &Scripts,
    groups: u32,
    store: S,
) -> io::Result<Timing> {
    let Some(budget) = Budget::new(groups) else {
        return Err(io::Error::from(io::ErrorKind::InvalidInput));
    };
    let hasher = WordHash { seed: 0 };
    let mut engine = Engine::new(rt.alloc(), hasher, store, budget, Limits::greatest());
    let is_made = answer(
        &mut engine,
        scripts.before.as_slice(),
        &mut Vec::new(rt.alloc()),
    );
    let mut replies = Vec::new(rt.alloc());
    let start = Instant::now(rt)?;
    let is_answered = answer(&mut engine, scripts.asking.as_slice(), &mut replies);
    Ok(Timing {
        nanoseconds: nanoseconds_since(rt, start)?,
        came: if is_made && is_answered {
            replies.len()
        } else {
            0
        },
    })
}

// Runs a script, and returns whether no command was refused.
fn answer<S: RunStore>(
    engine: &mut Engine<WordHash, S>,
    script: &[u8],
    replies: &mut Vec<u8>,
) -> bool {
    match engine.run(script, replies) {
        Ok(summary) => summary.refused == 0,
        Err(_) => false,
    }
}
