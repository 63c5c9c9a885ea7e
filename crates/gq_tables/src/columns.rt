//! Columns that are inferred from the files of a table.
ghost use Rattle.std.specs.Prelude.{◌≡◌, ◌<◌, ◌≤◌, ◌+◌, ◌∷◌, ◌++◌, ℕ, List, [], true, None, IfErr, IfOk, IfSome, OnErr, OnOk, length, drop, take, slice_index_or};
ghost use Rattle.std.specs.Fn.{FnReturnsAt};
ghost use Rattle.gq_row.specs.declared.limits.Bounds.{Bounds};
ghost use Rattle.gq_command.specs.Commands.{is_command};
ghost use Rattle.gq_command.specs.declared.command.Command.TheVariants.{Create};
ghost use Rattle.gq_infer.specs.declared.word.TableWord.{TableWord};
ghost use Rattle.gq_infer.specs.Files.{inferred, table_columns};
ghost use Rattle.gq_infer.specs.Guesses.{AreRightIfLoaded};
ghost use Rattle.gq_tables.specs.declared.source.Source.{Source};
ghost use Rattle.gq_tables.specs.Files.{Knows, OfFile};
ghost use Rattle.gq_tables.specs.Made.{files_of, of_name};
ghost use Rattle.gq_tables.specs.Reasons.{IsFaultAt, is_failure};

use crate::fault::{TableFault, Why, at_word, of_inference};
use crate::files::{Files, is_same};
use crate::source::open;
use gq_infer::{Inference, guess_columns};
use gq_row::{Column, Limits, Sequence};
use std::alloc::Global;
use std::io::{self, Read};

// How many records of a table's first file a guess reads.
const SAMPLE: u64 = 1_000;

/// A guess at the columns of the table of a word, by the first records of the word's file; or none.
pub(crate) fn guess<F, R>(alloc: Global, files: &Files<F>, at: usize) -> Option<Sequence<Column>>
where
    F: Fn(&str) -> io::Result<R>,
    R: Read + Drop,
    requires callable { F.IsAlwaysCallable files.now.opener.now }
    requires at { at < length files.now.sources.now }
    requires sources { length files.now.sources.now ≤ length files.now.words.now }
    ensures right { IfSome result (λ columns. OfFile R.remaining
        (λ name opened. FnReturnsAt F.Fn files.now.opener.now name opened) files.now at
        (λ this file. AreRightIfLoaded columns file)) }
    ensures table { IfSome result (λ columns. (table : List ℕ)
        → is_command (Create table columns []) ≡ true) }
{
    let limits = Limits::greatest();
    let Ok(file) = open(files.words[at].file, &files.sources[at], files.opener) else {
        return None;
    };
    match guess_columns(alloc, file, &limits, SAMPLE) {
        Ok(guess) => guess,
        Err(_fault) => None,
    }
}

/// The columns that files have, and up to which word they were read.
#[derive(Drop)]
pub(crate) struct FileColumns {
    pub columns: Sequence<Column>,
    pub end: usize,
    /// Why the file of the word at `end` could not be read to its end.
    pub why_ended: Option<Why>,
}

/// The columns of the table of a word, which is the first of its name, by all files of the words
/// before `end` with that name.
pub(crate) fn infer_all<F, R>(
    alloc: Global,
    files: &Files<F>,
    at: usize,
    end: usize,
) -> Result<FileColumns, TableFault>
where
    F: Fn(&str) -> io::Result<R>,
    R: Read + Drop,
    requires callable { F.IsAlwaysCallable files.now.opener.now }
    requires at { at < end }
    requires end { end ≤ length files.now.sources.now }
    requires sources { length files.now.sources.now ≤ length files.now.words.now }
    ensures end { IfOk result (λ found. (at < found.end) × (found.end ≤ end)
        × (found.why_ended ≡ None → found.end ≡ end)) }
    ensures columns { IfOk result (λ found. (contents : List ℕ → List ℕ) (first : TableWord)
        → Knows R.remaining (λ name opened. FnReturnsAt F.Fn files.now.opener.now name opened)
        files.now at contents first
        → found.columns ≡ table_columns (contents first.file.now)
        (files_of contents (of_name first.name (drop (at + 1) (take found.end files.now.words.now))))) }
    ensures table { IfOk result (λ found. (table : List ℕ)
        → is_command (Create table found.columns []) ≡ true) }
    ensures refused { IfErr result (λ fault. (limits : Bounds)
        → IsFaultAt R.remaining
        (λ name opened. FnReturnsAt F.Fn files.now.opener.now name opened) files.now limits fault.word fault.why) }
    ensures ended { IfOk result (λ found. IfSome found.why_ended (λ why. (limits : Bounds)
        → IsFaultAt R.remaining
        (λ name opened. FnReturnsAt F.Fn files.now.opener.now name opened) files.now limits found.end why)) }
    ensures within { IfErr result (λ fault. fault.word < length files.now.words.now) }
    ensures before { IfOk result (λ found. IfSome found.why_ended (λ why. found.end < end)) }
{
    let mut inference = at_word(infer_first(alloc, files, at), at)?;
    let (end, why_ended) = infer_others(alloc, files, at, end, &mut inference);
    let columns = at_word(columns_of(alloc, &inference), at)?;
    Ok(FileColumns {
        columns,
        end,
        why_ended,
    })
}

// What the first file of a table says of its columns.
fn infer_first<F, R>(alloc: Global, files: &Files<F>, at: usize) -> Result<Inference, Why>
where
    F: Fn(&str) -> io::Result<R>,
    R: Read + Drop,
    requires callable { F.IsAlwaysCallable files.now.opener.now }
    requires at { at < length files.now.sources.now }
    requires sources { length files.now.sources.now ≤ length files.now.words.now }
    ensures inferred { IfOk result (λ inference. OfFile R.remaining
        (λ name opened. FnReturnsAt F.Fn files.now.opener.now name opened) files.now at
        (λ this file. inference ≡ inferred file [])) }
    ensures refused { IfErr result (λ why. (limits : Bounds)
        → IsFaultAt R.remaining
        (λ name opened. FnReturnsAt F.Fn files.now.opener.now name opened) files.now limits at why) }
{
    let limits = Limits::greatest();
    let file = open(files.words[at].file, &files.sources[at], files.opener)?;
    match Inference::of_first(alloc, file, &limits) {
        Ok(inference) => Ok(inference),
        Err(fault) => Err(of_inference(fault)),
    }
}

// Adds what the table's other files say. Returns the first word whose file can't be read to its end,
// and why; or `end`.
fn infer_others<F, R>(
    alloc: Global,
    files: &Files<F>,
    at: usize,
    end: usize,
    inference: &mut Inference,
) -> (usize, Option<Why>)
where
    F: Fn(&str) -> io::Result<R>,
    R: Read + Drop,
    requires callable { F.IsAlwaysCallable files.now.opener.now }
    requires at { at < end }
    requires end { end ≤ length files.now.sources.now }
    requires sources { length files.now.sources.now ≤ length files.now.words.now }
    ensures end { (at < result.0) × (result.0 ≤ end) × (result.1 ≡ None → result.0 ≡ end) }
    ensures inferred { (contents : List ℕ → List ℕ) (first : TableWord)
        → Knows R.remaining (λ name opened. FnReturnsAt F.Fn files.now.opener.now name opened)
        files.now at contents first
        → inference.old ≡ inferred (contents first.file.now) []
        → inference.new ≡ inferred (contents first.file.now)
        (files_of contents (of_name first.name (drop (at + 1) (take result.0 files.now.words.now)))) }
    ensures refused { IfSome result.1 (λ why. (limits : Bounds)
        → IsFaultAt R.remaining
        (λ name opened. FnReturnsAt F.Fn files.now.opener.now name opened) files.now limits result.0 why) }
    ensures before { IfSome result.1 (λ why. result.0 < end) }
{
    for word in at + 1..end {
        match infer_other(alloc, files, at, word, inference) {
            Ok(()) => {}
            Err(why) => return (word, Some(why)),
        }
    }
    (end, None)
}

// Adds what the file of a word says, if it is one of the table.
fn infer_other<F, R>(
    alloc: Global,
    files: &Files<F>,
    at: usize,
    word: usize,
    inference: &mut Inference,
) -> Result<(), Why>
where
    F: Fn(&str) -> io::Result<R>,
    R: Read + Drop,
    requires callable { F.IsAlwaysCallable files.now.opener.now }
    requires at { at < word }
    requires word { word < length files.now.sources.now }
    requires sources { length files.now.sources.now ≤ length files.now.words.now }
    ensures more { OnOk result ((contents : List ℕ → List ℕ) (first : TableWord) (file : List ℕ)
        → Knows R.remaining (λ name opened. FnReturnsAt F.Fn files.now.opener.now name opened)
        files.now at contents first
        → inference.old ≡ inferred file
        (files_of contents (of_name first.name (drop (at + 1) (take word files.now.words.now))))
        → inference.new ≡ inferred file
        (files_of contents (of_name first.name (drop (at + 1) (take (word + 1) files.now.words.now))))) }
    ensures unchanged { OnErr result (inference.new ≡ inference.old) }
    ensures refused { IfErr result (λ why. (limits : Bounds)
        → IsFaultAt R.remaining
        (λ name opened. FnReturnsAt F.Fn files.now.opener.now name opened) files.now limits word why) }
{
    if !is_same(files.words, at, word) {
        return Ok(());
    }
    infer_more(alloc, files, word, inference)
}

// Adds what a further file of the table says.
fn infer_more<F, R>(
    alloc: Global,
    files: &Files<F>,
    word: usize,
    inference: &mut Inference,
) -> Result<(), Why>
where
    F: Fn(&str) -> io::Result<R>,
    R: Read + Drop,
    requires callable { F.IsAlwaysCallable files.now.opener.now }
    requires word { word < length files.now.sources.now }
    requires sources { length files.now.sources.now ≤ length files.now.words.now }
    ensures more { OnOk result (OfFile R.remaining
        (λ name opened. FnReturnsAt F.Fn files.now.opener.now name opened) files.now word
        (λ this file. (first : List ℕ) (others : List (List ℕ)) → inference.old ≡ inferred first others
        → inference.new ≡ inferred first (others ++ file ∷ []))) }
    ensures unchanged { OnErr result (inference.new ≡ inference.old) }
    ensures refused { IfErr result (λ why. (limits : Bounds)
        → IsFaultAt R.remaining
        (λ name opened. FnReturnsAt F.Fn files.now.opener.now name opened) files.now limits word why) }
{
    let file = open(files.words[word].file, &files.sources[word], files.opener)?;
    match inference.add(alloc, file) {
        Ok(()) => Ok(()),
        Err(fault) => Err(of_inference(fault)),
    }
}

fn columns_of(alloc: Global, inference: &Inference) -> Result<Sequence<Column>, Why>
    ensures columns { IfOk result (λ columns. (first : List ℕ) (others : List (List ℕ))
        → inference.now ≡ inferred first others → columns ≡ table_columns first others) }
    ensures table { IfOk result (λ columns. (table : List ℕ)
        → is_command (Create table columns []) ≡ true) }
    ensures failed { IfErr result (λ why. is_failure why ≡ true) }
{
    Ok(inference.columns(alloc)?)
}
