//! Tables from the files of words.
ghost use Rattle.std.specs.Prelude.{◌≡◌, ◌<◌, ◌≤◌, ◌+◌, ℕ, List, [], false, true, None, IfErr, IfSome, OnOk, length};
ghost use Rattle.std.specs.Fn.{FnReturnsAt};
ghost use Rattle.std.specs.List.{list_any};
ghost use Rattle.gq_engine.specs.Engines.{database, setting_of};
ghost use Rattle.gq_tables.specs.Files.{AreFiles, HaveBytes, is_input};
ghost use Rattle.gq_tables.specs.Made.{AreTablesOf};
ghost use Rattle.gq_tables.specs.Reasons.{IsFaultAt, IsFaultOf, is_failure};
ghost use Rattle.gq_tables.specs.Steps.{MadeUpTo};

use crate::fault::TableFault;
use crate::files::{Files, has_name};
use crate::source::{Reopen, Source, add_source};
use crate::table::make_table;
use gq_engine::{Engine, RunStore, Short};
use gq_infer::TableWord;
use gq_row::Key;
use std::alloc::Global;
use std::io::{self, Read};
use sw_probe::KeyHash;

/// Makes the tables that words ask for, from their files. `opener` opens a file's path, and `input`
/// is the standard input, for a word with the file `-`. After an error some of the tables are made.
pub fn make_tables<H, S, F, R, I>(
    alloc: Global,
    engine: &mut Engine<H, S>,
    words: &[TableWord],
    short: Short,
    opener: &F,
    input: &mut I,
) -> Result<(), TableFault>
where
    H: KeyHash<Key> + Copy,
    S: RunStore,
    F: Fn(&str) -> io::Result<R>,
    R: Read + Reopen + Drop,
    I: Read,
    requires { F.IsAlwaysCallable opener.now }
    // The tables are those of the words, if it is known what their files hold.
    ensures made { OnOk result ((contents : List ℕ → List ℕ)
        → AreFiles R.remaining (λ name opened. FnReturnsAt F.Fn opener.now name opened)
        (I.remaining input.old) words.now contents
        → database engine.old ≡ []
        → AreTablesOf contents short (setting_of S.runs engine.old).limits words.now
        (database engine.new)) }
    ensures input { list_any is_input words.now ≡ false → input.new ≡ input.old }
    ensures setting { setting_of S.runs engine.new ≡ setting_of S.runs engine.old }
    // Each fault is one of its word, if it is known what the files hold.
    ensures refused { IfErr result (λ fault. (contents : List ℕ → List ℕ)
        → AreFiles R.remaining (λ name opened. FnReturnsAt F.Fn opener.now name opened)
        (I.remaining input.old) words.now contents
        → IsFaultOf contents short (setting_of S.runs engine.old).limits words.now fault) }
    ensures within { IfErr result (λ fault. fault.word < length words.now) }
{
    let (sources, stop) = find_sources(alloc, words, opener, input);
    let files = Files {
        words,
        sources: sources.as_slice(),
        opener,
        short,
    };
    let mut fault = stop;
    for at in 0..sources.len() {
        fault = make_next(alloc, engine, &files, at, fault);
    }
    match fault {
        None => Ok(()),
        Some(found) => Err(found),
    }
}

// Makes the table of a word, if the word is the first of its name and comes before the fault. Returns
// the first fault then.
fn make_next<H, S, F, R>(
    alloc: Global,
    engine: &mut Engine<H, S>,
    files: &Files<F>,
    at: usize,
    fault: Option<TableFault>,
) -> Option<TableFault>
where
    H: KeyHash<Key> + Copy,
    S: RunStore,
    F: Fn(&str) -> io::Result<R>,
    R: Read + Drop,
    requires callable { F.IsAlwaysCallable files.now.opener.now }
    requires at { at < length files.now.sources.now }
    requires sources { length files.now.sources.now ≤ length files.now.words.now }
    ensures before { result ≡ None → fault ≡ None }
    ensures made { result ≡ None → (contents : List ℕ → List ℕ)
        → HaveBytes R.remaining (λ name opened. FnReturnsAt F.Fn files.now.opener.now name opened)
        contents files.now.words.now files.now.sources.now
        → length files.now.sources.now ≡ length files.now.words.now
        → MadeUpTo contents files.now.short (setting_of S.runs engine.old).limits files.now.words.now
        at (database engine.old)
        → MadeUpTo contents files.now.short (setting_of S.runs engine.old).limits files.now.words.now
        (at + 1) (database engine.new) }
    ensures setting { setting_of S.runs engine.new ≡ setting_of S.runs engine.old }
    ensures refused { IfSome fault (λ found. IsFaultAt R.remaining
        (λ name opened. FnReturnsAt F.Fn files.now.opener.now name opened) files.now (setting_of S.runs engine.old).limits found.word found.why)
        → IfSome result (λ found. IsFaultAt R.remaining
        (λ name opened. FnReturnsAt F.Fn files.now.opener.now name opened) files.now (setting_of S.runs engine.old).limits found.word found.why) }
    ensures within { IfSome fault (λ found. found.word < length files.now.words.now)
        → IfSome result (λ found. found.word < length files.now.words.now) }
{
    let end = end_before(fault, files.sources.len());
    if end <= at {
        return fault;
    }
    if has_name(&files.words[..at], files.words[at].name.as_str()) {
        return fault;
    }
    match make_table(alloc, engine, files, at, end) {
        Ok(()) => fault,
        Err(found) => Some(found),
    }
}

// The number of words before a fault, at most `count`.
fn end_before(fault: Option<TableFault>, count: usize) -> usize
    ensures within { result ≤ count }
    ensures all { fault ≡ None → result ≡ count }
{
    match fault {
        None => count,
        Some(found) => found.word.min(count),
    }
}

// The sources of the first words, and why the next word's file can't be had.
fn find_sources<F, R, I>(
    alloc: Global,
    words: &[TableWord],
    opener: &F,
    input: &mut I,
) -> (Vec<Source>, Option<TableFault>)
where
    F: Fn(&str) -> io::Result<R>,
    R: Read + Reopen + Drop,
    I: Read,
    requires { F.IsAlwaysCallable opener.now }
    ensures few { length result.0.items ≤ length words.now }
    ensures all { result.1 ≡ None → length result.0.items ≡ length words.now }
    ensures have { (contents : List ℕ → List ℕ)
        → AreFiles R.remaining (λ name opened. FnReturnsAt F.Fn opener.now name opened)
        (I.remaining input.old) words.now contents
        → HaveBytes R.remaining (λ name opened. FnReturnsAt F.Fn opener.now name opened)
        contents words.now result.0.items }
    ensures input { list_any is_input words.now ≡ false → input.new ≡ input.old }
    ensures failed { IfSome result.1 (λ fault. is_failure fault.why ≡ true) }
    ensures within { IfSome result.1 (λ fault. fault.word < length words.now) }
{
    let mut sources = Vec::new(alloc);
    for word in 0..words.len() {
        match add_source(alloc, &mut sources, &words[word], opener, input) {
            Ok(()) => {}
            Err(why) => return (sources, Some(TableFault { word, why })),
        }
    }
    (sources, None)
}
