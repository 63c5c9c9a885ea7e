//! The whole program, over what the process hands it.
ghost use Rattle.std.specs.Prelude.{map, string_bytes};
ghost use Rattle.std.specs.Fn.{FnReturnsAt};
ghost use Rattle.std.specs.Result.{result_map_both};
ghost use Rattle.gq_shell.specs.Program.{RanProgram, sources_of};
ghost use Rattle.gq_shell.specs.Streams.{stream};

use crate::checking::check_script;
use crate::script::run_script;
use crate::stopping::{answer_bad_line, answer_error};
use crate::streams::Streams;
use gq_options::read_words;
use gq_tables::Reopen;
use std::alloc::Global;
use std::fs::Files;
use std::io::{self, Read, Write};
use std::random::RandomSource;

/// Runs or checks the script that the command line names, and returns the exit status. `words` begin
/// with the program's name; `files` has a run store's folder, and `source` gives a random seed.
pub fn run_program<D, N, R, S, F, W, E>(
    alloc: Global,
    words: io::Result<Vec<String>>,
    files: &D,
    source: &N,
    opener: F,
    streams: &mut Streams<R, W, E>,
) -> u8
where
    D: Files,
    N: RandomSource,
    R: Read,
    S: Read + Reopen + Drop,
    F: Fn(&str) -> io::Result<S>,
    W: Write,
    E: Write,
    requires { F.IsAlwaysCallable opener }
    ensures { RanProgram
        (sources_of (R.remaining streams.old.input) S.remaining
        (λ name opened. FnReturnsAt F.Fn opener name opened))
        (result_map_both (λ w. map string_bytes w.items) (λ e. e) words)
        (stream W.contents streams.old.replies streams.new.replies)
        (stream E.contents streams.old.errors streams.new.errors) result }
{
    let words = match words {
        Ok(words) => words,
        Err(error) => {
            let mistake = "error: the arguments are not UTF-8\n";
            return answer_error(&error, mistake, 2, &mut streams.errors);
        }
    };
    match read_words(alloc, words.as_slice()) {
        Ok(options) if options.check => check_script(alloc, &options, opener, streams),
        Ok(options) => run_script(alloc, &options, files, source, opener, streams),
        Err(bad) => answer_bad_line(&bad, &mut streams.replies, &mut streams.errors),
    }
}
