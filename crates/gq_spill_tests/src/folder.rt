//! Runs in a real folder.
ghost use Rattle.std.specs.Prelude.{◌≡◌, IfOk, IsTrue};

use crate::expected::{expect, expect_at};
use crate::reading::expect_answers;
use crate::reluctant::{Manner, Reluctant, WILLING};
use crate::rows::{numbers, spelled};
use crate::whole::{read_rows, write_rows};
use gq_dir::DirStore;
use gq_row::Row;
use gq_spill::{RunId, RunStore, StoreError};
use std::alloc::{Alloc, Global};
use std::fs::Files;
use std::os::unix::fs::symlink;
use std::process::Abort;
use std::test::Fail;
use std::time::SystemTime;
use std::{env, fs};

/// The path of a folder that doesn't exist yet.
fn fresh_folder(rt: &HostRuntime) -> Result<String, Fail> {
    let now = SystemTime::now(rt)?.duration_since(SystemTime::UNIX_EPOCH);
    let nanos = match now {
        Ok(age) => age.as_nanos(),
        Err(_) => 0,
    };
    let name = format!(in rt.alloc(); "groupsh-runs-{nanos}")?;
    let path = env::temp_dir(rt)?.join(rt.alloc(), name.as_str())?;
    let text = path.as_path().to_str().ok_or("the path is a text")?;
    Ok(String::from_str(rt.alloc(), text)?)
}

/// A folder of the test's own.
fn new_folder(rt: &HostRuntime) -> Result<String, Fail> {
    let folder = fresh_folder(rt)?;
    fs::create_dir(rt, folder.as_str())?;
    Ok(folder)
}

/// The path of a name in a folder.
fn within(rt: &HostRuntime, folder: &str, name: &str) -> Result<String, Fail> {
    Ok(format!(in rt.alloc(); "{folder}/{name}")?)
}

/// `count` bytes, whose neighbours differ, as do those of runs with another step.
fn pattern(alloc: Global, count: usize, step: u8) -> Result<Vec<u8>, StoreError> {
    let mut bytes = Vec::new(alloc);
    let mut byte = step;
    for _ in 0..count {
        if bytes.push(byte).is_err() {
            return Err(StoreError::Memory);
        }
        byte = byte.wrapping_mul(5).wrapping_add(step);
    }
    Ok(bytes)
}

/// The bytes in a range, or none if there are fewer.
fn part(bytes: &[u8], from: usize, to: usize) -> &[u8] {
    bytes.get(from..to).unwrap_or(&[])
}

/// `count` zeros.
fn zeros(alloc: Global, count: usize) -> Result<Vec<u8>, StoreError> {
    let mut bytes = Vec::new(alloc);
    match bytes.resize(count, 0) {
        Ok(()) => Ok(bytes),
        Err(_) => Err(StoreError::Memory),
    }
}

/// Whether a run reads as these bytes, in one read and in several, and no more.
fn gives_back<S: RunStore>(
    alloc: Global,
    store: &mut S,
    run: RunId,
    bytes: &[u8],
) -> Result<bool, StoreError>
    requires { IsTrue ((S.runs store.old).live run.number) }
    ensures { (S.runs store.new).live ≡ (S.runs store.old).live }
{
    let mut buffer = zeros(alloc, bytes.len().saturating_add(1))?;
    let count = store.read(run, 0, buffer.as_mut_slice())?;
    let whole = buffer.as_slice().get(..count) == Some(bytes);
    let (from, to) = (bytes.len() / 4, bytes.len() / 2);
    buffer.truncate(to.saturating_sub(from));
    let count = store.read(run, from as u64, buffer.as_mut_slice())?;
    Ok(whole && buffer.as_slice().get(..count) == bytes.get(from..to))
}

/// Appends the bytes from a position on to a run, and returns whether it reads as all of them.
fn appended<S: RunStore>(
    alloc: Global,
    store: &mut S,
    run: RunId,
    bytes: &[u8],
    from: usize,
) -> Result<bool, StoreError>
    requires { IsTrue ((S.runs store.old).live run.number) }
    ensures { IfOk result (λ _. IsTrue ((S.runs store.new).live run.number)) }
{
    if let Some(more) = bytes.get(from..) {
        store.append(run, more)?;
    }
    gives_back(alloc, store, run, bytes)
}

/// Writes and reads a run by turns, in small and large pieces, and returns whether each read returned what was
/// written before it.
fn by_turns<S: RunStore>(alloc: Global, store: &mut S) -> Result<bool, StoreError> {
    let bytes = pattern(alloc, 200_000, 7)?;
    let bytes = bytes.as_slice();
    let run = store.make()?;
    let mut same = gives_back(alloc, store, run, &[])?;
    let mut from = 0;
    for to in [10, 40_000, 70_000, 70_001, 150_000, 200_000] {
        same = appended(alloc, store, run, part(bytes, 0, to), from)? && same;
        from = to;
    }
    store.discard(run);
    Ok(same)
}

/// Whether an append reports the write that fails in it.
fn tells_at_once<S: RunStore>(alloc: Global, store: &mut S) -> Result<bool, StoreError> {
    let bytes = pattern(alloc, 70_000, 7)?;
    let run = store.make()?;
    let found = store.append(run, bytes.as_slice());
    store.discard(run);
    Ok(found == Err(StoreError::Fault))
}

/// Whether a read returns all bytes when it is repeated after it failed in writing buffered bytes.
fn repeats<S: RunStore>(alloc: Global, store: &mut S) -> Result<bool, StoreError> {
    let run = store.make()?;
    store.append(run, b"0123456789")?;
    let failed = gives_back(alloc, store, run, b"0123456789") == Err(StoreError::Fault);
    let found = gives_back(alloc, store, run, b"0123456789")?;
    store.discard(run);
    Ok(failed && found)
}

/// A task for a store.
#[derive(Clone, Copy)]
enum Task {
    ByTurns,
    TellAtOnce,
    Repeat,
}

fn carry_out<S: RunStore>(alloc: Global, store: &mut S, task: Task) -> Result<bool, StoreError> {
    match task {
        Task::ByTurns => by_turns(alloc, store),
        Task::TellAtOnce => tells_at_once(alloc, store),
        Task::Repeat => repeats(alloc, store),
    }
}

/// The result of a task in a folder of its own, whose files behave in this manner.
fn in_manner(
    rt: &HostRuntime,
    manner: Manner,
    task: Task,
) -> Result<Result<bool, StoreError>, Fail> {
    let folder = new_folder(rt)?;
    let files = Reluctant::new(rt, manner);
    let mut store = DirStore::new(rt.alloc(), &files, folder.as_str())?;
    let found = carry_out(rt.alloc(), &mut store, task);
    fs::remove_dir(rt, folder.as_str())?;
    Ok(found)
}

/// Whether a task has this result in each of these manners.
fn gives_in_each(
    rt: &HostRuntime,
    manners: &[Manner],
    task: Task,
    due: Result<bool, StoreError>,
) -> Result<bool, Fail> {
    for manner in manners {
        if in_manner(rt, *manner, task)? != due {
            return Ok(false);
        }
    }
    Ok(true)
}

#[test]
fn bytes_come_back_in_any_manner(rt: HostRuntime) -> Result<(), Fail> {
    let manners = [
        WILLING,
        Manner {
            gives: 999,
            ..WILLING
        },
        Manner {
            takes: 999,
            ..WILLING
        },
        Manner {
            interrupted: true,
            ..WILLING
        },
        Manner {
            gives: 1_000,
            takes: 77,
            interrupted: true,
            ..WILLING
        },
        Manner {
            taken: 1,
            ..WILLING
        },
        Manner {
            taken: 999,
            ..WILLING
        },
    ];
    let found = gives_in_each(&rt, &manners, Task::ByTurns, Ok(true))?;
    expect(&rt, found, true);
    Ok(())
}

/// The result of reading and writing by turns if a call of the file fails, counted from 0.
fn turns_failing(rt: &HostRuntime, call: u64) -> Result<Result<bool, StoreError>, Fail> {
    let manner = Manner {
        gives: 50_000,
        takes: 50_000,
        failing: call,
        ..WILLING
    };
    in_manner(rt, manner, Task::ByTurns)
}

#[test]
fn each_call_of_a_file_fails_in_turn(rt: HostRuntime) -> Result<(), Fail> {
    for call in 0..1_000 {
        let found = turns_failing(&rt, call)?;
        if found != Err(StoreError::Fault) {
            expect_at(&rt, call, found, Ok(true));
            assert!(rt; call > 40, "{call}");
            return Ok(());
        }
    }
    Err(Fail::from("each call failed"))
}

#[test]
fn a_write_that_fails_is_reported_at_once(rt: HostRuntime) -> Result<(), Fail> {
    let manners = [
        Manner {
            takes: 0,
            ..WILLING
        },
        Manner {
            failing: 0,
            ..WILLING
        },
    ];
    let found = gives_in_each(&rt, &manners, Task::TellAtOnce, Ok(true))?;
    expect(&rt, found, true);
    Ok(())
}

#[test]
fn a_read_that_failed_is_repeated(rt: HostRuntime) -> Result<(), Fail> {
    let manner = Manner {
        takes: 4,
        failing: 1,
        ..WILLING
    };
    let found = gives_in_each(&rt, &[manner], Task::Repeat, Ok(true))?;
    expect(&rt, found, true);
    Ok(())
}

#[test]
fn files_that_give_or_take_nothing(rt: HostRuntime) -> Result<(), Fail> {
    let manners = [
        Manner {
            gives: 0,
            ..WILLING
        },
        Manner {
            takes: 0,
            ..WILLING
        },
        Manner {
            taken: u32::MAX,
            ..WILLING
        },
    ];
    let found = gives_in_each(&rt, &manners, Task::ByTurns, Err(StoreError::Fault))?;
    expect(&rt, found, true);
    Ok(())
}

/// Writes two runs of a store by turns, and returns whether each reads as its own bytes.
fn both_by_turns<S: RunStore>(
    alloc: Global,
    store: &mut S,
    one: &[u8],
    two: &[u8],
) -> Result<bool, StoreError> {
    let first = store.make()?;
    let second = store.make()?;
    let mut same = true;
    let mut from = 0;
    for to in [10, 70_000, 150_000] {
        store.append(first, part(one, from, to))?;
        store.append(second, part(two, from, to))?;
        same = gives_back(alloc, store, first, part(one, 0, to))? && same;
        same = gives_back(alloc, store, second, part(two, 0, to))? && same;
        from = to;
    }
    store.discard(first);
    let left = gives_back(alloc, store, second, two)?;
    store.discard(second);
    Ok(same && left)
}

fn side_by_side<S: RunStore>(alloc: Global, store: &mut S) -> Result<bool, StoreError> {
    let one = pattern(alloc, 150_000, 3)?;
    let two = pattern(alloc, 150_000, 11)?;
    both_by_turns(alloc, store, one.as_slice(), two.as_slice())
}

fn expect_side_by_side(rt: &(impl Files + AllocGlobal + Abort), folder: &str) -> Result<(), Fail> {
    let mut store = DirStore::new(rt.alloc(), rt, folder)?;
    expect(rt, side_by_side(rt.alloc(), &mut store), Ok(true));
    Ok(())
}

#[test]
fn runs_side_by_side(rt: HostRuntime) -> Result<(), Fail> {
    let folder = new_folder(&rt)?;
    expect_side_by_side(&rt, folder.as_str())?;
    fs::remove_dir(&rt, folder.as_str())?;
    Ok(())
}

/// Makes a run with the same number in each of two stores, and returns whether each has its own bytes.
fn in_two_stores<S: RunStore>(
    alloc: Global,
    one: &mut S,
    other: &mut S,
) -> Result<bool, StoreError> {
    let first = one.make()?;
    one.append(first, b"one")?;
    let wrote = gives_back(alloc, one, first, b"one")?;
    let second = other.make()?;
    other.append(second, b"other")?;
    let kept = gives_back(alloc, one, first, b"one")?
        && gives_back(alloc, other, second, b"other")?;
    one.discard(first);
    let left = gives_back(alloc, other, second, b"other")?;
    other.discard(second);
    Ok(first == second && wrote && kept && left)
}

#[test]
fn two_stores_share_a_folder(rt: HostRuntime) -> Result<(), Fail> {
    let folder = new_folder(&rt)?;
    let mut one = DirStore::new(rt.alloc(), &rt, folder.as_str())?;
    let mut other = DirStore::new(rt.alloc(), &rt, folder.as_str())?;
    expect(
        &rt,
        in_two_stores(rt.alloc(), &mut one, &mut other),
        Ok(true),
    );
    fs::remove_dir(&rt, folder.as_str())?;
    Ok(())
}

fn expect_same(rt: &impl Abort, alloc: Global, read: &[Row], rows: &[Row]) -> Result<(), Fail> {
    let found = spelled(alloc, read)?;
    let due = spelled(alloc, rows)?;
    assert!(rt; found.as_str() == due.as_str());
    Ok(())
}

/// Writes rows to a run, which exists although the folder is empty.
fn read_nameless<S: RunStore>(
    rt: &(impl Files + AllocGlobal + Abort),
    store: &mut S,
    folder: &str,
    rows: &[Row],
) -> Result<(), Fail> {
    let Ok(mark) = write_rows(rt.alloc(), store, rows) else {
        return Err(Fail::from("not written"));
    };
    expect(rt, mark.id.number, 0);
    fs::remove_dir(rt, folder)?;
    let Ok(read) = read_rows(rt.alloc(), store, mark, 1) else {
        return Err(Fail::from("not read"));
    };
    expect_same(rt, rt.alloc(), read.as_slice(), rows)
}

#[test]
fn a_file_has_no_name(rt: HostRuntime) -> Result<(), Fail> {
    let folder = new_folder(&rt)?;
    let rows = numbers(rt.alloc(), 10_000)?;
    let mut store = DirStore::new(rt.alloc(), &rt, folder.as_str())?;
    read_nameless(&rt, &mut store, folder.as_str(), rows.as_slice())
}

/// Appends after two rows, and reads from their last byte on.
fn append_behind<S: RunStore>(rt: &impl Abort, store: &mut S, run: RunId)
    requires { IsTrue ((S.runs store.old).live run.number) }
{
    expect(rt, store.append(run, b"ab").is_ok(), true);
    let mut buffer = [b'.'; 4];
    expect(rt, store.read(run, 25, &mut buffer).ok(), Some(3));
    expect(rt, buffer, *b"\x02ab.");
    expect(rt, store.read(run, 28, &mut buffer).ok(), Some(0));
    store.discard(run);
}

fn append_after_reads<S: RunStore>(
    rt: &(impl Files + AllocGlobal + Abort),
    store: &mut S,
    folder: &str,
    rows: &[Row],
) -> Result<(), Fail> {
    let Ok(mark) = write_rows(rt.alloc(), store, rows) else {
        return Err(Fail::from("not written"));
    };
    expect_answers(rt, rt.alloc(), store, mark, 1, "1;2;none;none;")?;
    append_behind(rt, store, mark.id);
    fs::remove_dir(rt, folder)?;
    Ok(())
}

#[test]
fn what_is_appended_after_a_read_goes_to_the_end(rt: HostRuntime) -> Result<(), Fail> {
    let folder = new_folder(&rt)?;
    let rows = numbers(rt.alloc(), 2)?;
    let mut store = DirStore::new(rt.alloc(), &rt, folder.as_str())?;
    append_after_reads(&rt, &mut store, folder.as_str(), rows.as_slice())
}

/// Runs use two names, one that a file had and one that a link had.
fn take_names(
    rt: &(impl Files + AllocGlobal + Abort),
    folder: &str,
    target: &str,
    file: &str,
    link: &str,
) -> Result<(), Fail> {
    fs::write(rt, target, b"kept")?;
    fs::write(rt, file, b"old")?;
    symlink(rt, target, link)?;
    expect_side_by_side(rt, folder)?;
    expect(rt, fs::symlink_metadata(rt, file).is_err(), true);
    expect(rt, fs::symlink_metadata(rt, link).is_err(), true);
    Ok(())
}

fn expect_kept(rt: &(impl Files + AllocGlobal + Abort), target: &str) -> Result<(), Fail> {
    let kept = fs::read(rt, target)?;
    expect(rt, kept.as_slice(), b"kept".as_slice());
    fs::remove_file(rt, target)?;
    Ok(())
}

#[test]
fn what_had_the_name_loses_it(rt: HostRuntime) -> Result<(), Fail> {
    let folder = new_folder(&rt)?;
    let folder = folder.as_str();
    let target = within(&rt, folder, "target")?;
    let file = within(&rt, folder, "run-0.gq")?;
    let link = within(&rt, folder, "run-1.gq")?;
    take_names(&rt, folder, target.as_str(), file.as_str(), link.as_str())?;
    expect_kept(&rt, target.as_str())?;
    fs::remove_dir(&rt, folder)?;
    Ok(())
}

/// Whether a store fails to make a run.
fn faults<S: RunStore>(store: &mut S) -> bool {
    matches!(store.make(), Err(StoreError::Fault))
}

/// Makes a run once its name is unused.
fn make_after<S: RunStore>(
    rt: &(impl Files + AllocGlobal + Abort),
    store: &mut S,
    folder: &str,
    inner: &str,
) -> Result<(), Fail> {
    expect(rt, faults(store), true);
    fs::remove_dir(rt, inner)?;
    expect(rt, store.make().is_ok(), true);
    fs::remove_dir(rt, folder)?;
    Ok(())
}

#[test]
fn a_folder_keeps_its_name(rt: HostRuntime) -> Result<(), Fail> {
    let folder = new_folder(&rt)?;
    let inner = within(&rt, folder.as_str(), "run-0.gq")?;
    fs::create_dir(&rt, inner.as_str())?;
    let mut store = DirStore::new(rt.alloc(), &rt, folder.as_str())?;
    make_after(&rt, &mut store, folder.as_str(), inner.as_str())
}

#[test]
fn a_folder_that_is_not_there(rt: HostRuntime) -> Result<(), Fail> {
    let folder = fresh_folder(&rt)?;
    let mut store = DirStore::new(rt.alloc(), &rt, folder.as_str())?;
    expect(&rt, faults(&mut store), true);
    expect(&rt, faults(&mut store), true);
    Ok(())
}

/// How many files this process has open.
fn open_files(rt: &(impl Files + Alloc + Clone + Drop)) -> Result<usize, Fail> {
    Ok(fs::read_dir(rt, "/proc/self/fd")?.count())
}

/// Makes a run and discards it, with `before` files open before, and makes another.
fn close_first<S: RunStore>(
    rt: &(impl Files + Alloc + Clone + Drop + Abort),
    store: &mut S,
    before: usize,
) -> Result<(), Fail> {
    let Ok(run) = store.make() else {
        return Err(Fail::from("no run"));
    };
    expect(rt, open_files(rt)?.checked_sub(before), Some(1));
    store.discard(run);
    expect(rt, open_files(rt)?, before);
    expect(rt, store.make().is_ok(), true);
    Ok(())
}

#[test]
fn a_file_is_closed_with_its_run(rt: HostRuntime) -> Result<(), Fail> {
    let folder = new_folder(&rt)?;
    let mut store = DirStore::new(rt.alloc(), &rt, folder.as_str())?;
    let before = open_files(&rt)?;
    close_first(&rt, &mut store, before)?;
    drop(store);
    expect(&rt, open_files(&rt)?, before);
    fs::remove_dir(&rt, folder.as_str())?;
    Ok(())
}
