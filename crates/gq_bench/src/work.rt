//! What is measured.
use crate::keys::{time_find, time_insert};
use crate::reading::{time_csv, time_csv_and_map};
use crate::running::{time_task, time_within};
use crate::shape::Shape;
use crate::task::Task;
use crate::timing::Timing;
use std::io;

/// The largest budget.
pub(crate) const GREATEST: u32 = 1_048_576;

/// Where runs are stored.
#[derive(Clone, Copy)]
pub(crate) enum Place {
    Memory,
    Folder,
}

/// A kind of work.
#[derive(Clone, Copy)]
pub(crate) enum Work {
    /// The csv crate alone reads the payload.
    Csv,
    /// The csv crate reads the payload, and the first field of each record goes into a flat map.
    CsvAndMap,
    /// One look-up for each row in a flat map of all keys.
    Find,
    /// One insertion for each row into a flat map that grows.
    Insert,
    /// A task of an engine with the largest budget, and with its runs in memory.
    Run(Task),
    /// A task of an engine with a budget of this number of groups.
    Within(Task, u32, Place),
}

/// Does a work on `rows` rows, once. Its data are made before the clock starts.
pub(crate) fn time(rt: &HostRuntime, work: Work, shape: Shape, rows: usize) -> io::Result<Timing> {
    match work {
        Work::Csv => time_csv(rt, shape, rows),
        Work::CsvAndMap => time_csv_and_map(rt, shape, rows),
        Work::Find => time_find(rt, shape, rows),
        Work::Insert => time_insert(rt, shape, rows),
        Work::Run(task) => time_task(rt, task, shape, rows),
        Work::Within(task, groups, place) => time_within(rt, task, groups, place, shape, rows),
    }
}
