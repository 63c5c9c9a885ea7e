//! The script that a command line names, opened and run.
ghost use Rattle.std.specs.Prelude.{◌≡◌, ◌⊎◌, ◌++◌, [], IfOk, codes, flat_map, max, min, string_bytes};
ghost use Rattle.std.specs.Fn.{FnReturnsAt};
ghost use Rattle.gq_row.specs.Limits.{GREATEST};
ghost use Rattle.gq_engine.specs.Engines.{setting_of, state_of};
ghost use Rattle.gq_shell.specs.Program.{HadNoTables, NOTHING, RanAsked, RanFrom, RanGiven, RanNamed, RanScript, output_of, setting_by, sources_of};
ghost use Rattle.gq_shell.specs.Streams.{stream};
ghost use Rattle.gq_options.specs.Words.{asked_by};

use crate::report::Reporting;
use crate::seeding::{RunSeed, draw};
use crate::session::session;
use crate::stopping::{answer_error, stop_for_memory};
use crate::streams::Streams;
use crate::tables::make_asked;
use gq_dir::DirStore;
use gq_engine::{Budget, Engine, Format, MemStore, Output, RunStore};
use gq_options::Options;
use gq_row::Limits;
use gq_tables::Reopen;
use std::alloc::{AllocError, Global};
use std::fs::Files;
use std::io::{self, Read, Write};
use std::mem;
use std::random::RandomSource;
use sw_probe::WordHash;

/// Runs a script in a new engine under the greatest limits, with the seed, the budget and the run store
/// that the options ask for, and returns the exit status.
pub fn run_script<D, N, R, S, F, W, E>(
    alloc: Global,
    options: &Options,
    files: &D,
    source: &N,
    opener: F,
    streams: &mut Streams<R, W, E>,
) -> u8
where
    D: Files,
    N: RandomSource,
    R: Read,
    S: Read + Reopen + Drop,
    F: Fn(&str) -> io::Result<S>,
    W: Write,
    E: Write,
    requires { F.IsAlwaysCallable opener }
    ensures { RanAsked
        (sources_of (R.remaining streams.old.input) S.remaining
        (λ name opened. FnReturnsAt F.Fn opener name opened))
        (asked_by options.now) (stream W.contents streams.old.replies streams.new.replies)
        (stream E.contents streams.old.errors streams.new.errors) result }
{
    let seed = match draw(options.seed, source) {
        Ok(seed) => seed,
        Err(error) => {
            let mistake = "groupsh: no random seed\n";
            return answer_error(&error, mistake, 3, &mut streams.errors);
        }
    };
    match options.spill {
        None => {
            let store = MemStore::new(alloc);
            run_over(alloc, options, seed, store, opener, streams)
        }
        Some(folder) => match DirStore::new(alloc, files, folder) {
            Ok(store) => run_over(alloc, options, seed, store, opener, streams),
            Err(AllocError) => stop_for_memory(&mut streams.errors),
        },
    }
}

// Runs the script in a new engine over a run store. It leaves the engine's memory and files to the system, which takes
// them all at once as the program ends: to give the cells back one by one takes a twentieth of a load's time.
fn run_over<T, R, S, F, W, E>(
    alloc: Global,
    options: &Options,
    seed: RunSeed,
    store: T,
    opener: F,
    streams: &mut Streams<R, W, E>,
) -> u8
where
    T: RunStore + Drop,
    R: Read,
    S: Read + Reopen + Drop,
    F: Fn(&str) -> io::Result<S>,
    W: Write,
    E: Write,
    requires callable { F.IsAlwaysCallable opener }
    requires honest { (T.runs store).honest ≡ (setting_by (asked_by options.now).spill).honest }
    requires failures { (T.runs store).failures ≡ 0 }
    ensures { RanFrom
        (sources_of (R.remaining streams.old.input) S.remaining
        (λ name opened. FnReturnsAt F.Fn opener name opened))
        (asked_by options.now) seed (stream W.contents streams.old.replies streams.new.replies)
        (stream E.contents streams.old.errors streams.new.errors) result
        ⊎ HadNoTables
        (sources_of (R.remaining streams.old.input) S.remaining
        (λ name opened. FnReturnsAt F.Fn opener name opened))
        (asked_by options.now) (stream W.contents streams.old.replies streams.new.replies)
        (stream E.contents streams.old.errors streams.new.errors) result }
{
    let mut engine = engine_over(alloc, options, seed, store);
    let status = make_and_run(alloc, &mut engine, options, seed, opener, streams);
    mem::forget(engine);
    status
}

// Makes the tables that are asked for in an engine, and then runs the script.
fn make_and_run<T, R, S, F, W, E>(
    alloc: Global,
    engine: &mut Engine<WordHash, T>,
    options: &Options,
    seed: RunSeed,
    opener: F,
    streams: &mut Streams<R, W, E>,
) -> u8
where
    T: RunStore,
    R: Read,
    S: Read + Reopen + Drop,
    F: Fn(&str) -> io::Result<S>,
    W: Write,
    E: Write,
    requires callable { F.IsAlwaysCallable opener }
    requires setting { setting_of T.runs engine.old ≡ setting_by (asked_by options.now).spill }
    requires state { state_of T.runs engine.old ≡ NOTHING }
    ensures { RanFrom
        (sources_of (R.remaining streams.old.input) S.remaining
        (λ name opened. FnReturnsAt F.Fn opener name opened))
        (asked_by options.now) seed (stream W.contents streams.old.replies streams.new.replies)
        (stream E.contents streams.old.errors streams.new.errors) result
        ⊎ HadNoTables
        (sources_of (R.remaining streams.old.input) S.remaining
        (λ name opened. FnReturnsAt F.Fn opener name opened))
        (asked_by options.now) (stream W.contents streams.old.replies streams.new.replies)
        (stream E.contents streams.old.errors streams.new.errors) result }
{
    let (input, errors) = (&mut streams.input, &mut streams.errors);
    match make_asked(alloc, engine, options, &opener, input, errors) {
        Err(status) => status,
        Ok(()) => run_in(alloc, engine, options, seed, opener, streams),
    }
}

// An engine without tables over a run store.
fn engine_over<T: RunStore>(
    alloc: Global,
    options: &Options,
    seed: RunSeed,
    store: T,
) -> Engine<WordHash, T>
    ensures setting { setting_of T.runs result ≡ record { limits = GREATEST; honest = (T.runs store).honest } }
    ensures state { state_of T.runs result ≡ record { database = []; failures = (T.runs store).failures } }
{
    Engine::new(
        alloc,
        WordHash {
            seed: seed.number(),
        },
        store,
        budget_of(options.budget),
        Limits::greatest(),
    )
}

// Runs the commands of the command line in an engine, if there are any, or else the script that it names.
fn run_in<T, R, S, F, W, E>(
    alloc: Global,
    engine: &mut Engine<WordHash, T>,
    options: &Options,
    seed: RunSeed,
    opener: F,
    streams: &mut Streams<R, W, E>,
) -> u8
where
    T: RunStore,
    R: Read,
    S: Read + Reopen + Drop,
    F: Fn(&str) -> io::Result<S>,
    W: Write,
    E: Write,
    requires callable { F.IsAlwaysCallable opener }
    requires setting { setting_of T.runs engine.old ≡ setting_by (asked_by options.now).spill }
    ensures { RanGiven
        (sources_of (R.remaining streams.old.input) S.remaining
        (λ name opened. FnReturnsAt F.Fn opener name opened))
        (state_of T.runs engine.old) (asked_by options.now) seed (asked_by options.now).commands (stream W.contents streams.old.replies streams.new.replies)
        (stream E.contents streams.old.errors streams.new.errors) result }
{
    if options.commands.is_empty() {
        return run_named(engine, options, seed, opener, streams);
    }
    let (replies, errors) = (&mut streams.replies, &mut streams.errors);
    match script_of(alloc, options.commands.as_slice()) {
        Ok(script) => run_open(engine, options, seed, script.as_bytes(), replies, errors),
        Err(AllocError) => stop_for_memory(errors),
    }
}

// Opens the script of a path, or takes the standard input, and runs it in an engine.
fn run_named<T, R, S, F, W, E>(
    engine: &mut Engine<WordHash, T>,
    options: &Options,
    seed: RunSeed,
    opener: F,
    streams: &mut Streams<R, W, E>,
) -> u8
where
    T: RunStore,
    R: Read,
    S: Read + Reopen + Drop,
    F: Fn(&str) -> io::Result<S>,
    W: Write,
    E: Write,
    requires callable { F.IsAlwaysCallable opener }
    requires setting { setting_of T.runs engine.old ≡ setting_by (asked_by options.now).spill }
    ensures { RanNamed
        (sources_of (R.remaining streams.old.input) S.remaining
        (λ name opened. FnReturnsAt F.Fn opener name opened))
        (state_of T.runs engine.old) (asked_by options.now) seed (asked_by options.now).script (stream W.contents streams.old.replies streams.new.replies)
        (stream E.contents streams.old.errors streams.new.errors) result }
{
    let (input, replies, errors) = (
        &mut streams.input,
        &mut streams.replies,
        &mut streams.errors,
    );
    match options.script {
        None => run_open(engine, options, seed, input, replies, errors),
        Some(path) => match opener(path) {
            Ok(script) => run_open(engine, options, seed, script, replies, errors),
            Err(error) => answer_error(&error, "groupsh: cannot open script\n", 3, errors),
        },
    }
}

// Runs a script that is open.
fn run_open<T, R, W, E>(
    engine: &mut Engine<WordHash, T>,
    options: &Options,
    seed: RunSeed,
    script: R,
    replies: &mut W,
    errors: &mut E,
) -> u8
where
    T: RunStore,
    R: Read + Drop,
    W: Write,
    E: Write,
    requires setting { setting_of T.runs engine.old ≡ setting_by (asked_by options.now).spill }
    ensures { RanScript (state_of T.runs engine.old) (asked_by options.now) seed (R.remaining script)
        (stream W.contents replies.old replies.new) (stream E.contents errors.old errors.new) result }
{
    session(
        engine,
        output_of(options.output),
        script,
        replies,
        errors,
        Reporting {
            stats: options.stats,
            seed,
        },
    )
}

/// The lines of commands as a script, each followed by a line feed.
pub fn script_of(alloc: Global, commands: &[&str]) -> Result<String, AllocError>
    ensures { IfOk result (λ script. string_bytes script ≡ flat_map (λ lines. lines.now ++ codes "\n") commands.now) }
{
    let mut script = String::new(alloc);
    for i in 0..commands.len() {
        script.push_str(commands[i])?;
        script.push_str("\n")?;
    }
    Ok(script)
}

// What the engine writes, by the format that was asked for.
fn output_of(asked: gq_options::Output) -> Output
    ensures { result ≡ output_of asked }
{
    match asked {
        gq_options::Output::Replies => Output::Replies,
        gq_options::Output::Csv => Output::Results(Format::Csv),
        gq_options::Output::Json => Output::Results(Format::Json),
        gq_options::Output::Box => Output::Results(Format::Box),
    }
}

// The budget of a number, or the nearest one.
fn budget_of(entries: u64) -> Budget
    ensures { result.entries ≡ max 1 (min entries 1_048_576) }
{
    match Budget::new(entries.clamp(1, 1_048_576) as u32) {
        Some(budget) => budget,
        None => unreachable!(),
    }
}
