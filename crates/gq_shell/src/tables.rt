//! Tables that the command line asks for, made before the script runs.
ghost use Rattle.std.specs.Prelude.{◌≡◌, ◌≢◌, ◌⊎◌, ◌<◌, ◌==◌, ◌&&◌, ◌||◌, AllPairs, slice_index_or, IfErr, IfOk, OnOk, [], None, false, is_some, length, not};
ghost use Rattle.std.specs.Fn.{FnReturnsAt};
ghost use Rattle.std.specs.List.{AllZip, list_any};
ghost use Rattle.gq_row.specs.Limits.{GREATEST};
ghost use Rattle.gq_engine.specs.Engines.{setting_of, state_of};
ghost use Rattle.gq_options.specs.Words.{asked_by};
ghost use Rattle.gq_infer.specs.declared.word.TableWord.{TableWord};
ghost use Rattle.gq_infer.specs.Said.{SaysWord};
ghost use Rattle.gq_tables.specs.Files.{is_input};
ghost use Rattle.gq_tables.specs.Faults.{fault_text, status_of};
ghost use Rattle.gq_shell.specs.Program.{IsRefusedWord, NOTHING, NotMade, StartedWith, Stopped, StoppedForMemory, short_by, sources_of};
ghost use Rattle.gq_shell.specs.Reading.{HasRead};
ghost use Rattle.gq_shell.specs.Streams.{stream};

use crate::stopping::{stop, stop_for_memory};
use gq_engine::{Engine, RunStore, Short};
use gq_infer::{BadTable, TableWord, bad_table_text, table_word};
use gq_options::Options;
use gq_row::{Key, Limits};
use gq_tables::{Reopen, TableFault, make_tables};
use std::alloc::{AllocError, Global};
use std::io::{self, Read, Write};
use sw_probe::KeyHash;

/// Makes the tables that the command line asks for; or says why not, and returns the exit status.
pub fn make_asked<H, T, R, S, F, E>(
    alloc: Global,
    engine: &mut Engine<H, T>,
    options: &Options,
    opener: &F,
    input: &mut R,
    errors: &mut E,
) -> Result<(), u8>
where
    H: KeyHash<Key> + Copy,
    T: RunStore,
    R: Read,
    S: Read + Reopen + Drop,
    F: Fn(&str) -> io::Result<S>,
    E: Write,
    requires callable { F.IsAlwaysCallable opener.now }
    requires limits { (setting_of T.runs engine.old).limits ≡ GREATEST }
    requires state { state_of T.runs engine.old ≡ NOTHING }
    ensures setting { setting_of T.runs engine.new ≡ setting_of T.runs engine.old }
    ensures started { OnOk result (StartedWith
        (sources_of (R.remaining input.old) S.remaining
        (λ name opened. FnReturnsAt F.Fn opener.now name opened))
        (asked_by options.now) (state_of T.runs engine.new)) }
    // The standard input is left to a script that comes from there.
    ensures input { (asked_by options.now).commands ≡ [] → (asked_by options.now).script ≡ None
        → OnOk result (input.new ≡ input.old) }
    ensures quiet { OnOk result (errors.new ≡ errors.old) }
    ensures stopped { IfErr result (λ status. ((asked_by options.now).tables ≢ [])
        × NotMade
        (sources_of (R.remaining input.old) S.remaining
        (λ name opened. FnReturnsAt F.Fn opener.now name opened))
        (asked_by options.now) (stream E.contents errors.old errors.new) status) }
{
    if options.tables.is_empty() {
        return Ok(());
    }
    let words = read_words(alloc, options, errors)?;
    let short = short_by(options.ragged);
    match make_tables(alloc, engine, words.as_slice(), short, opener, input) {
        Ok(()) => Ok(()),
        Err(fault) => Err(stop_for_fault(alloc, &fault, words.as_slice(), short, errors)),
    }
}

// What is done about a record with fewer fields than the header.
fn short_by(is_ragged: bool) -> Short
    ensures { result ≡ short_by is_ragged }
{
    if is_ragged {
        Short::Completed
    } else {
        Short::Refused
    }
}

// Whether the script is the standard input.
fn takes_input(options: &Options) -> bool
    ensures { result ≡ (not (is_some options.now.script) && (length options.now.commands.items == 0)) }
{
    options.script.is_none() && options.commands.is_empty()
}

// The words of the command line that ask for tables; or says what is wrong with one, and returns the
// exit status.
fn read_words<'a, E: Write>(
    alloc: Global,
    options: &Options<'a>,
    errors: &mut E,
) -> Result<Vec<TableWord<'a>>, u8>
    ensures said { IfOk result (λ words. AllZip (SaysWord GREATEST)
        (asked_by options.now).tables words.items) }
    ensures once { IfOk result (λ words. AllPairs (λ (a b : TableWord). (is_input a && is_input b) ≡ false)
        words.items) }
    ensures left { (asked_by options.now).commands ≡ [] → (asked_by options.now).script ≡ None
        → IfOk result (λ words. list_any is_input words.items ≡ false) }
    ensures quiet { OnOk result (errors.new ≡ errors.old) }
    ensures stopped { IfErr result (IsRefusedWord (stream E.contents errors.old errors.new)) }
{
    let mut words = Vec::new(alloc);
    let mut takes_input = takes_input(options);
    for text in options.tables.as_slice() {
        takes_input = read_word(alloc, &mut words, text, takes_input, errors)?;
    }
    Ok(words)
}

// Reads a word that asks for a table, and adds it; or says what is wrong with it, and returns the exit
// status. Returns whether the standard input is taken then.
fn read_word<'a, E: Write>(
    alloc: Global,
    words: &mut Vec<TableWord<'a>>,
    text: &'a str,
    is_taken: bool,
    errors: &mut E,
) -> Result<bool, u8>
    ensures read { IfOk result (HasRead text.now is_taken words.old.items words.new.items) }
    ensures quiet { OnOk result (errors.new ≡ errors.old) }
    ensures stopped { IfErr result (IsRefusedWord (stream E.contents errors.old errors.new)) }
{
    let limits = Limits::greatest();
    let word = match table_word(alloc, text, &limits) {
        Ok(word) => word,
        Err(why) => return Err(stop_for_word(alloc, text, &why, errors)),
    };
    if takes_twice(is_taken, &word) {
        let mistake =
            "error: standard input is used twice, by '--table' or by the script\n\nFor more information, try '--help'.\n";
        return Err(stop(mistake, 2, errors));
    }
    let takes_input = takes_also(is_taken, &word);
    match words.push(word) {
        Ok(()) => Ok(takes_input),
        Err(_full) => Err(stop_for_memory(errors)),
    }
}

// Whether the standard input is taken, and the file of a word too.
fn takes_twice(is_taken: bool, word: &TableWord) -> bool
    ensures { result ≡ (is_taken && is_input word.now) }
{
    is_taken && word.file == "-"
}

// Whether the standard input is taken, or the file of a word.
fn takes_also(is_taken: bool, word: &TableWord) -> bool
    ensures { result ≡ (is_taken || is_input word.now) }
{
    is_taken || word.file == "-"
}

// Says what is wrong with a word.
fn stop_for_word<E: Write>(alloc: Global, word: &str, why: &BadTable, errors: &mut E) -> u8
    ensures { IsRefusedWord (stream E.contents errors.old errors.new) result }
{
    if matches!(why, BadTable::Memory) {
        return stop_for_memory(errors);
    }
    match bad_table_text(alloc, word, why) {
        Ok(text) => stop(text.as_str(), 2, errors),
        Err(AllocError) => stop_for_memory(errors),
    }
}

// Says why tables could not be made.
fn stop_for_fault<E: Write>(
    alloc: Global,
    fault: &TableFault,
    words: &[TableWord],
    short: Short,
    errors: &mut E,
) -> u8
    ensures { StoppedForMemory (stream E.contents errors.old errors.new) result
        ⊎ ((word : TableWord) → fault.now.word < length words.now
        → Stopped (stream E.contents errors.old errors.new)
        (fault_text short (slice_index_or words.now fault.now.word word).file.now fault.now.why)
        (status_of fault.now.why) result) }
{
    let file = match words.get(fault.word) {
        Some(word) => word.file,
        None => "",
    };
    match fault.text(alloc, file, short) {
        Ok(text) => stop(text.as_str(), fault.status(), errors),
        Err(AllocError) => stop_for_memory(errors),
    }
}
