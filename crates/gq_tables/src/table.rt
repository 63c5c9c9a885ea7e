//! One table, from the files of the words with its name.
ghost use Rattle.std.specs.Prelude.{◌≡◌, ◌<◌, ◌≤◌, ◌∷◌, ◌++◌, ◌+◌, ℕ, List, [], true, None, Some, IfErr, IfOk, MatchResult, OnErr, OnOk, length, take, slice_index_or};
ghost use Rattle.std.specs.Fn.{FnReturnsAt};
ghost use Rattle.gq_row.specs.declared.schema.Column.{Column};
ghost use Rattle.gq_row.specs.Tables.{PlainTable};
ghost use Rattle.gq_load.specs.declared.short_records.Short.{Short};
ghost use Rattle.gq_command.specs.Commands.{as_said, is_command};
ghost use Rattle.gq_command.specs.declared.command.Command.TheVariants.{Create};
ghost use Rattle.gq_engine.specs.Databases.{Database, table_at};
ghost use Rattle.gq_engine.specs.Engines.{database, setting_of};
ghost use Rattle.gq_engine.specs.Runs.{SameTables};
ghost use Rattle.gq_infer.specs.declared.word.TableWord.{TableWord};
ghost use Rattle.gq_tables.specs.Files.{Knows, OfFile};
ghost use Rattle.gq_tables.specs.declared.source.Source.{Source};
ghost use Rattle.gq_tables.specs.Made.{IsTableOf, of_name};
ghost use Rattle.gq_tables.specs.Reasons.{IsFaultAt, IsReason, is_failure};
ghost use Rattle.gq_tables.specs.Steps.{HasDone, HasLoadedFile, HasMade, HasRefused, IsEmpty, IsFilled, IsWith, MadeOrSame};

use crate::columns::{guess, infer_all};
use crate::fault::{TableFault, Why, at_word, of_load, of_refused};
use crate::files::{Files, is_same};
use crate::source::open;
use gq_command::Command;
use gq_engine::{Engine, Refusal, Refused, Reply, RunStore};
use gq_infer::{GivenColumns, TableWord};
use gq_row::{Column, Key, Sequence, Text};
use std::alloc::Global;
use std::io::{self, Read};
use sw_probe::KeyHash;

/// Makes the table of a word, which is the first of its name, and puts the rows of its files into it:
/// those of the words before `end` with that name.
pub(crate) fn make_table<H, S, F, R>(
    alloc: Global,
    engine: &mut Engine<H, S>,
    files: &Files<F>,
    at: usize,
    end: usize,
) -> Result<(), TableFault>
where
    H: KeyHash<Key> + Copy,
    S: RunStore,
    F: Fn(&str) -> io::Result<R>,
    R: Read + Drop,
    requires callable { F.IsAlwaysCallable files.now.opener.now }
    requires at { at < end }
    requires end { end ≤ length files.now.sources.now }
    requires sources { length files.now.sources.now ≤ length files.now.words.now }
    ensures made { OnOk result (HasMade R.remaining
        (λ name opened. FnReturnsAt F.Fn files.now.opener.now name opened) files.now at end
        (setting_of S.runs engine.old).limits (database engine.old) (database engine.new)) }
    ensures setting { setting_of S.runs engine.new ≡ setting_of S.runs engine.old }
    ensures refused { IfErr result (λ fault. IsFaultAt R.remaining
        (λ name opened. FnReturnsAt F.Fn files.now.opener.now name opened) files.now
        (setting_of S.runs engine.old).limits fault.word fault.why) }
    ensures within { IfErr result (λ fault. fault.word < length files.now.words.now) }
{
    match &files.words[at].columns {
        Some(given) => make_given(alloc, engine, files, at, end, given),
        None => make_inferred(alloc, engine, files, at, end),
    }
}

// Makes a table whose columns are given.
fn make_given<H, S, F, R>(
    alloc: Global,
    engine: &mut Engine<H, S>,
    files: &Files<F>,
    at: usize,
    end: usize,
    given: &GivenColumns,
) -> Result<(), TableFault>
where
    H: KeyHash<Key> + Copy,
    S: RunStore,
    F: Fn(&str) -> io::Result<R>,
    R: Read + Drop,
    requires callable { F.IsAlwaysCallable files.now.opener.now }
    requires at { at < end }
    requires end { end ≤ length files.now.sources.now }
    requires sources { length files.now.sources.now ≤ length files.now.words.now }
    requires given { (word : TableWord) → (slice_index_or files.now.words.now at word).columns ≡ Some given.now }
    ensures made { OnOk result (HasMade R.remaining
        (λ name opened. FnReturnsAt F.Fn files.now.opener.now name opened) files.now at end
        (setting_of S.runs engine.old).limits (database engine.old) (database engine.new)) }
    ensures setting { setting_of S.runs engine.new ≡ setting_of S.runs engine.old }
    ensures refused { IfErr result (λ fault. IsFaultAt R.remaining
        (λ name opened. FnReturnsAt F.Fn files.now.opener.now name opened) files.now
        (setting_of S.runs engine.old).limits fault.word fault.why) }
    ensures within { IfErr result (λ fault. fault.word < length files.now.words.now) }
{
    let (columns, key) = at_word(copy_given(alloc, given), at)?.into_parts();
    at_word(create(alloc, engine, &files.words[at], columns, key), at)?;
    load_files(engine, files, at, end)
}

// Makes a table whose columns are inferred: first by a guess from the first records of its first
// file, and if a later field is a text where the guess was INT, again by all records of all files.
fn make_inferred<H, S, F, R>(
    alloc: Global,
    engine: &mut Engine<H, S>,
    files: &Files<F>,
    at: usize,
    end: usize,
) -> Result<(), TableFault>
where
    H: KeyHash<Key> + Copy,
    S: RunStore,
    F: Fn(&str) -> io::Result<R>,
    R: Read + Drop,
    requires callable { F.IsAlwaysCallable files.now.opener.now }
    requires at { at < end }
    requires end { end ≤ length files.now.sources.now }
    requires sources { length files.now.sources.now ≤ length files.now.words.now }
    requires inferred { (word : TableWord) → (slice_index_or files.now.words.now at word).columns ≡ None }
    ensures made { OnOk result (HasMade R.remaining
        (λ name opened. FnReturnsAt F.Fn files.now.opener.now name opened) files.now at end
        (setting_of S.runs engine.old).limits (database engine.old) (database engine.new)) }
    ensures setting { setting_of S.runs engine.new ≡ setting_of S.runs engine.old }
    ensures refused { IfErr result (λ fault. IsFaultAt R.remaining
        (λ name opened. FnReturnsAt F.Fn files.now.opener.now name opened) files.now
        (setting_of S.runs engine.old).limits fault.word fault.why) }
    ensures within { IfErr result (λ fault. fault.word < length files.now.words.now) }
{
    if make_guessed(alloc, engine, files, at, end)? {
        return Ok(());
    }
    make_by_all(alloc, engine, files, at, end)
}

// Makes a table by a guess at its columns. Returns whether the guess was right.
fn make_guessed<H, S, F, R>(
    alloc: Global,
    engine: &mut Engine<H, S>,
    files: &Files<F>,
    at: usize,
    end: usize,
) -> Result<bool, TableFault>
where
    H: KeyHash<Key> + Copy,
    S: RunStore,
    F: Fn(&str) -> io::Result<R>,
    R: Read + Drop,
    requires callable { F.IsAlwaysCallable files.now.opener.now }
    requires at { at < end }
    requires end { end ≤ length files.now.sources.now }
    requires sources { length files.now.sources.now ≤ length files.now.words.now }
    requires inferred { (word : TableWord) → (slice_index_or files.now.words.now at word).columns ≡ None }
    ensures made { IfOk result (λ is_made. (contents : List ℕ → List ℕ) (first : TableWord)
        → Knows R.remaining (λ name opened. FnReturnsAt F.Fn files.now.opener.now name opened)
        files.now at contents first
        → table_at (database engine.old) first.name ≡ None
        → MadeOrSame is_made (IsWith (database engine.old) first.name (IsTableOf contents files.now.short
        (setting_of S.runs engine.old).limits (of_name first.name (take end files.now.words.now)))
        (database engine.new)) (database engine.old) (database engine.new)) }
    ensures setting { setting_of S.runs engine.new ≡ setting_of S.runs engine.old }
    ensures refused { IfErr result (λ fault. IsFaultAt R.remaining
        (λ name opened. FnReturnsAt F.Fn files.now.opener.now name opened) files.now
        (setting_of S.runs engine.old).limits fault.word fault.why) }
    ensures within { IfErr result (λ fault. fault.word < length files.now.words.now) }
{
    let Some(columns) = guess(alloc, files, at) else {
        return Ok(false);
    };
    let key = Sequence::new(Vec::new(alloc));
    at_word(create(alloc, engine, &files.words[at], columns, key), at)?;
    match load_files(engine, files, at, end) {
        Ok(()) => Ok(true),
        Err(fault) if fault.is_bad_int() => {
            at_word(drop_table(alloc, engine, &files.words[at]), at)?;
            Ok(false)
        }
        Err(fault) => Err(fault),
    }
}

// Makes a table whose columns are inferred by all records of all files.
fn make_by_all<H, S, F, R>(
    alloc: Global,
    engine: &mut Engine<H, S>,
    files: &Files<F>,
    at: usize,
    end: usize,
) -> Result<(), TableFault>
where
    H: KeyHash<Key> + Copy,
    S: RunStore,
    F: Fn(&str) -> io::Result<R>,
    R: Read + Drop,
    requires callable { F.IsAlwaysCallable files.now.opener.now }
    requires at { at < end }
    requires end { end ≤ length files.now.sources.now }
    requires sources { length files.now.sources.now ≤ length files.now.words.now }
    requires inferred { (word : TableWord) → (slice_index_or files.now.words.now at word).columns ≡ None }
    ensures made { OnOk result (HasMade R.remaining
        (λ name opened. FnReturnsAt F.Fn files.now.opener.now name opened) files.now at end
        (setting_of S.runs engine.old).limits (database engine.old) (database engine.new)) }
    ensures setting { setting_of S.runs engine.new ≡ setting_of S.runs engine.old }
    ensures refused { IfErr result (λ fault. IsFaultAt R.remaining
        (λ name opened. FnReturnsAt F.Fn files.now.opener.now name opened) files.now
        (setting_of S.runs engine.old).limits fault.word fault.why) }
    ensures within { IfErr result (λ fault. fault.word < length files.now.words.now) }
{
    let inferred = infer_all(alloc, files, at, end)?;
    let key = Sequence::new(Vec::new(alloc));
    at_word(
        create(alloc, engine, &files.words[at], inferred.columns, key),
        at,
    )?;
    load_files(engine, files, at, inferred.end)?;
    match inferred.why_ended {
        None => Ok(()),
        Some(why) => Err(TableFault {
            word: inferred.end,
            why,
        }),
    }
}

fn copy_given(alloc: Global, given: &GivenColumns) -> Result<GivenColumns, Why>
    ensures copied { IfOk result (λ copy. copy ≡ given.now) }
    ensures failed { IfErr result (λ why. is_failure why ≡ true) }
{
    Ok(given.copy(alloc)?)
}

// Creates the table of a word, without rows.
fn create<H, S>(
    alloc: Global,
    engine: &mut Engine<H, S>,
    word: &TableWord,
    columns: Sequence<Column>,
    key: Sequence<Text>,
) -> Result<(), Why>
where
    H: KeyHash<Key> + Copy,
    S: RunStore,
    requires { (table : List ℕ) → is_command (Create table columns key) ≡ true }
    ensures created { OnOk result (IsWith (database engine.old) word.now.name (IsEmpty columns key)
        (database engine.new)) }
    ensures refused { IfErr result (λ why. (short : Short) (file : List ℕ)
        → IsReason short (setting_of S.runs engine.old).limits word.now file why) }
    ensures setting { setting_of S.runs engine.new ≡ setting_of S.runs engine.old }
{
    let table = word.name.copy(alloc)?;
    carry_out(
        engine,
        Command::Create {
            table,
            columns,
            key,
        },
    )
}

// Takes out the table of a word, which is the last one. A drop takes no memory, and isn't refused.
fn drop_table<H, S>(alloc: Global, engine: &mut Engine<H, S>, word: &TableWord) -> Result<(), Why>
where
    H: KeyHash<Key> + Copy,
    S: RunStore,
    ensures failed { IfErr result (λ why. is_failure why ≡ true) }
    ensures dropped { OnOk result ((before : Database) (table : PlainTable)
        → table_at before word.now.name ≡ None
        → SameTables (before ++ (word.now.name, table) ∷ []) (database engine.old)
        → SameTables before (database engine.new)) }
    ensures setting { setting_of S.runs engine.new ≡ setting_of S.runs engine.old }
{
    let table = word.name.copy(alloc)?;
    let _done = engine.execute(Command::Drop { table });
    Ok(())
}

// Carries out a command that has no rows to show.
fn carry_out<H, S>(engine: &mut Engine<H, S>, command: Command) -> Result<(), Why>
where
    H: KeyHash<Key> + Copy,
    S: RunStore,
    requires { is_command (as_said command) ≡ true }
    ensures done { OnOk result (HasDone (setting_of S.runs engine.old) (database engine.old) command
        (database engine.new)) }
    ensures refused { IfErr result (HasRefused (setting_of S.runs engine.old) (database engine.old)
        command (database engine.new)) }
    ensures setting { setting_of S.runs engine.new ≡ setting_of S.runs engine.old }
{
    match engine.execute(command) {
        Reply::Refused { code, number } => Err(of_refused(Refused { why: code, number })),
        Reply::Done(_) | Reply::Rows { header: _, rows: _ } => Ok(()),
    }
}

// Puts the rows of the files of a table into it, one file after the other.
fn load_files<H, S, F, R>(
    engine: &mut Engine<H, S>,
    files: &Files<F>,
    at: usize,
    end: usize,
) -> Result<(), TableFault>
where
    H: KeyHash<Key> + Copy,
    S: RunStore,
    F: Fn(&str) -> io::Result<R>,
    R: Read + Drop,
    requires callable { F.IsAlwaysCallable files.now.opener.now }
    requires at { at < end }
    requires end { end ≤ length files.now.sources.now }
    requires sources { length files.now.sources.now ≤ length files.now.words.now }
    ensures filled { (contents : List ℕ → List ℕ) (first : TableWord)
        (before : Database) (columns : List Column) (key : List (List ℕ))
        → Knows R.remaining (λ name opened. FnReturnsAt F.Fn files.now.opener.now name opened)
        files.now at contents first
        → table_at before first.name ≡ None
        → IsWith before first.name (IsEmpty columns key) (database engine.old)
        → MatchResult result
        (λ _. IsWith before first.name (IsFilled contents files.now.short
        (setting_of S.runs engine.old).limits columns key
        (of_name first.name (take end files.now.words.now))) (database engine.new))
        (λ _. IsWith before first.name (λ _. Unit) (database engine.new)) }
    ensures setting { setting_of S.runs engine.new ≡ setting_of S.runs engine.old }
    ensures refused { IfErr result (λ fault. IsFaultAt R.remaining
        (λ name opened. FnReturnsAt F.Fn files.now.opener.now name opened) files.now
        (setting_of S.runs engine.old).limits fault.word fault.why) }
    ensures within { IfErr result (λ fault. fault.word < length files.now.words.now) }
{
    for word in at..end {
        at_word(load_word(engine, files, at, word), word)?;
    }
    Ok(())
}

// Puts the rows of a word's file into the table, if it is one of the table.
fn load_word<H, S, F, R>(
    engine: &mut Engine<H, S>,
    files: &Files<F>,
    at: usize,
    word: usize,
) -> Result<(), Why>
where
    H: KeyHash<Key> + Copy,
    S: RunStore,
    F: Fn(&str) -> io::Result<R>,
    R: Read + Drop,
    requires callable { F.IsAlwaysCallable files.now.opener.now }
    requires at { at ≤ word }
    requires word { word < length files.now.sources.now }
    requires sources { length files.now.sources.now ≤ length files.now.words.now }
    ensures filled { OnOk result ((contents : List ℕ → List ℕ) (first : TableWord)
        (before : Database) (columns : List Column) (key : List (List ℕ))
        → Knows R.remaining (λ name opened. FnReturnsAt F.Fn files.now.opener.now name opened)
        files.now at contents first
        → table_at before first.name ≡ None
        → IsWith before first.name (IsFilled contents files.now.short
        (setting_of S.runs engine.old).limits columns key
        (of_name first.name (take word files.now.words.now))) (database engine.old)
        → IsWith before first.name (IsFilled contents files.now.short
        (setting_of S.runs engine.old).limits columns key
        (of_name first.name (take (word + 1) files.now.words.now))) (database engine.new)) }
    ensures kept { OnErr result (SameTables (database engine.old) (database engine.new)) }
    ensures setting { setting_of S.runs engine.new ≡ setting_of S.runs engine.old }
    ensures refused { IfErr result (IsFaultAt R.remaining
        (λ name opened. FnReturnsAt F.Fn files.now.opener.now name opened) files.now (setting_of S.runs engine.old).limits word) }
{
    if !is_same(files.words, at, word) {
        return Ok(());
    }
    load_file(engine, files, at, word)
}

// Puts the rows of a word's file into the table. Refused if the word, which isn't the first of its
// name, gives columns.
fn load_file<H, S, F, R>(
    engine: &mut Engine<H, S>,
    files: &Files<F>,
    at: usize,
    word: usize,
) -> Result<(), Why>
where
    H: KeyHash<Key> + Copy,
    S: RunStore,
    F: Fn(&str) -> io::Result<R>,
    R: Read + Drop,
    requires callable { F.IsAlwaysCallable files.now.opener.now }
    requires word { word < length files.now.sources.now }
    requires sources { length files.now.sources.now ≤ length files.now.words.now }
    ensures plain { OnOk result (at < word → (d : TableWord)
        → (slice_index_or files.now.words.now word d).columns ≡ None) }
    ensures loaded { OnOk result (OfFile R.remaining
        (λ name opened. FnReturnsAt F.Fn files.now.opener.now name opened) files.now word
        (λ this file. HasLoadedFile files.now.short (setting_of S.runs engine.old).limits
        (database engine.old) this.name file (database engine.new))) }
    ensures kept { OnErr result (SameTables (database engine.old) (database engine.new)) }
    ensures setting { setting_of S.runs engine.new ≡ setting_of S.runs engine.old }
    ensures refused { IfErr result (IsFaultAt R.remaining
        (λ name opened. FnReturnsAt F.Fn files.now.opener.now name opened) files.now (setting_of S.runs engine.old).limits word) }
{
    let this = &files.words[word];
    if at < word && this.columns.is_some() {
        return Err(Why::Refused(Refused::from(Refusal::TableExists)));
    }
    let file = open(this.file, &files.sources[word], files.opener)?;
    match engine.load_csv(this.name.as_str(), file, files.short) {
        Ok(_count) => Ok(()),
        Err(fault) => Err(of_load(fault)),
    }
}
