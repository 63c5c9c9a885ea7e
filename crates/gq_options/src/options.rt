//! The program's command line.
ghost use Rattle.std.specs.Prelude.{◌≡◌, [], false, IfOk, codes, map, option_map, string_bytes, unwrap_or};
ghost use Rattle.clap.specs.Words.{app_of, first_value, found_of, kind_of, matched_of, one_text, raw_values, rows_of, rule_of};
ghost use Rattle.gq_options.specs.CommandLine.{BUDGET, COMMAND, LINE, OUTPUT, SCRIPT, SEED, SPILL, TABLE, flag_named, is_budget, option_named, output_named, repeated_named};
ghost use Rattle.gq_options.specs.Words.{IsReadAs, IsReadAsFlag, IsToldAs, IsToldAsMistake, Reads, ReadsMatches, ReadsOutput, ReadsSeed};

use clap::error::ErrorKind;
use clap::{Arg, ArgAction, ArgMatches, Command, Error, value_parser};
use std::alloc::{AllocError, Global};
use std::num::ParseIntError;

/// Which seed a command line asks for.
#[derive(Clone, Copy, Debug, PartialEq, Eq)]
pub enum Seed {
    /// This number.
    Number(u64),
    /// One from the system.
    Random,
}

/// How the results of queries are written.
#[derive(Clone, Copy, Debug, PartialEq, Eq)]
pub enum Output {
    /// As replies: CSV after a line that counts the rows.
    Replies,
    /// CSV.
    Csv,
    /// A JSON object for each row, on a line of its own.
    Json,
    /// A box of columns, for people.
    Box,
}

/// What a command line asks for.
#[derive(Debug, Drop, PartialEq)]
pub struct Options<'a> {
    /// The path of the script. Without one the script is the standard input.
    pub script: Option<&'a str>,
    /// The tables to load before the script, each `FILE` or `NAME=FILE`, as given.
    pub tables: Vec<&'a str>,
    /// The commands to run instead of a script. If there are any, `script` is `None`.
    pub commands: Vec<&'a str>,
    /// How the results of queries are written.
    pub output: Output,
    /// Whether records of a table's file that have fewer fields than its header are completed.
    pub ragged: bool,
    /// The seed of the tables' hash. No reply depends on it.
    pub seed: Seed,
    /// How many groups are kept in memory at once: 1 to 1,048,576. No reply depends on it.
    pub budget: u64,
    /// The folder for spilled rows. Without one they are in memory.
    pub spill: Option<&'a str>,
    /// Whether the work of the groupings is reported.
    pub stats: bool,
    /// Whether the script is only read, and nothing is run.
    pub check: bool,
}

/// Why a command line starts no run; help and the version are among the reasons.
#[derive(Debug, Drop, thiserror::Error)]
pub enum BadLine {
    /// Help was asked for; its text, for the standard output.
    #[error("{0}")]
    Help(String),
    /// The version was asked for; its text, for the standard output.
    #[error("{0}")]
    Version(String),
    /// The words are wrong; the message, for the standard error.
    #[error("{0}")]
    Mistake(String),
    /// An allocation failed.
    #[error("out of memory")]
    Memory,
}

// The version, and the toolchain that proves the program, as `rt version` prints it; `./test`
// checks that.
const VERSION: &str = "0.1.0 (rattle-kit-13f logic dac8208d650f15bf)";

const ABOUT: &str =
    "Groups rows of CSV files and of tables in memory: counts, sums, minimum and maximum values.

Each line of the script is a command, and each command gets a reply. Tables are in memory until the
script ends.";

const MORE: &str = "Example:
  groupsh -t cities.csv -c 'group cities by country show count(*)' -o csv

Example script:
  create s (id int, city text, key (id))
  upsert s (1, 'Oslo')
  upsert s (2, 'Rome')
  upsert s (3, 'Oslo')
  group s by city show count(*)

Its last reply, as CSV under a line that counts its rows:
  ok 2
  city,count(*)
  Oslo,2
  Rome,1

A refused command is answered `err CODE NAME` and changes nothing.
docs/LANGUAGE.md has all commands, values, replies and refusals.

To put it into the PATH, in the folder of the launcher:
  mkdir -p ~/.local/bin && ln -s \"$PWD/groupsh\" ~/.local/bin/

Exit status:
  0  all commands were accepted; with --check, each line is a command
  1  a command or the file of a table was refused; with --check, a line is not a command
  2  the command line is wrong
  3  a file can't be read, a reply can't be written, or there is no memory or no random seed at the
     start";

const TABLE_HELP: &str =
    "Load a CSV file as a table, named after the file unless NAME is given; may be repeated";

const COMMAND_HELP: &str =
    "Run these commands, one on each line, instead of a script; may be repeated";

const OUTPUT_HELP: &str = "How results are written: replies, csv, json or box";

const RAGGED_HELP: &str =
    "Complete records of a CSV file that have fewer fields than its header with nulls";

const STATS_HELP: &str =
    "Report on standard error, at the end, what grouping took: rows, groups, runs; and a random seed";

const CHECK_HELP: &str =
    "Run nothing; report each line that is not a command, as FILE:LINE:COLUMN: MESSAGE";

fn table_option<'a>(alloc: Global) -> Arg<'a>
    ensures rule { rule_of result ≡ TABLE }
    ensures local { result.global ≡ false }
{
    repeated(alloc, "table", 't', "[NAME=]FILE").help(TABLE_HELP)
}

fn command_option<'a>(alloc: Global) -> Arg<'a>
    ensures rule { rule_of result ≡ COMMAND }
    ensures local { result.global ≡ false }
{
    repeated(alloc, "command", 'c', "LINES").help(COMMAND_HELP)
}

fn output_option<'a>(alloc: Global) -> Arg<'a>
    ensures rule { rule_of result ≡ OUTPUT }
    ensures local { result.global ≡ false }
{
    valued(alloc, "output", "FORMAT")
        .short('o')
        .default_value("replies")
        .help(OUTPUT_HELP)
}

fn budget_option<'a>(alloc: Global) -> Arg<'a>
    ensures rule { rule_of result ≡ BUDGET }
    ensures local { result.global ≡ false }
{
    valued(alloc, "budget", "N")
        .value_parser(value_parser!(u64).range(1..=1_048_576))
        .default_value("65536")
        .help(
            "Groups to keep at once, up to 1048576; rows of others are spilled; no reply depends on it",
        )
}

fn seed_option<'a>(alloc: Global) -> Arg<'a>
    ensures rule { rule_of result ≡ SEED }
    ensures local { result.global ≡ false }
{
    valued(alloc, "seed", "N").default_value("0").help(
        "Seed of the hash tables, or `random`; no reply depends on it",
    )
}

fn spill_option<'a>(alloc: Global) -> Arg<'a>
    ensures rule { rule_of result ≡ SPILL }
    ensures local { result.global ≡ false }
{
    valued(alloc, "spill", "DIR").help("Folder for spilled rows; without it, they are in memory")
}

// An option with one value, by its long name.
fn valued<'a>(alloc: Global, name: &'a str, value: &'a str) -> Arg<'a>
    ensures rule { rule_of result ≡ option_named name.entry.now }
    ensures local { result.global ≡ false }
{
    Arg::new(alloc, name).long(name).value_name(value)
}

// An option with one value, by its long name and its short one, that may be repeated.
fn repeated<'a>(alloc: Global, name: &'a str, letter: char, value: &'a str) -> Arg<'a>
    ensures rule { rule_of result ≡ repeated_named name.entry.now letter }
    ensures local { result.global ≡ false }
{
    valued(alloc, name, value)
        .short(letter)
        .action(ArgAction::Append)
}

// A flag by its long name.
fn flag<'a>(alloc: Global, name: &'a str, help: &'a str) -> Arg<'a>
    ensures rule { rule_of result ≡ flag_named name.entry.now }
    ensures local { result.global ≡ false }
{
    Arg::new(alloc, name)
        .long(name)
        .action(ArgAction::SetTrue)
        .value_parser(value_parser!(bool))
        .help(help)
}

fn script_word<'a>(alloc: Global) -> Arg<'a>
    ensures rule { rule_of result ≡ SCRIPT }
    ensures local { result.global ≡ false }
{
    Arg::new(alloc, "SCRIPT").help("File with the script; without it, standard input is read")
}

// The command line that the program takes.
fn command_line<'a>(alloc: Global) -> Result<Command<'a>, AllocError>
    ensures { IfOk result (λ c. app_of c ≡ LINE) }
{
    let Ok(args) = vec![in alloc;
        table_option(alloc),
        command_option(alloc),
        output_option(alloc),
        flag(alloc, "ragged", RAGGED_HELP),
        budget_option(alloc),
        seed_option(alloc),
        spill_option(alloc),
        flag(alloc, "stats", STATS_HELP),
        flag(alloc, "check", CHECK_HELP),
        script_word(alloc),
    ] else {
        return Err(AllocError);
    };
    let Ok(command) = Command::new(alloc, "groupsh").bin_name("groupsh") else {
        return Err(AllocError);
    };
    command
        .version(VERSION)
        .about(ABOUT)
        .after_help(MORE)
        .args(args)
}

// The seed among the matches: the word `random`, or a number in digits.
fn seed_in(alloc: Global, matches: &ArgMatches) -> Result<Seed, BadLine>
    ensures { ReadsSeed (first_value (found_of matches.now) (codes "seed")) result }
{
    let Some(text) = matches.get_str("seed") else {
        return Ok(Seed::Number(0));
    };
    if text == "random" {
        return Ok(Seed::Random);
    }
    match text.parse::<u64>() {
        Ok(number) => Ok(Seed::Number(number)),
        Err(error) => Err(bad_seed(alloc, text, &error)),
    }
}

// The message for a text that isn't a seed, in clap's format.
fn bad_seed(alloc: Global, text: &str, error: &ParseIntError) -> BadLine
    ensures { IsToldAsMistake result }
{
    mistake(format!(in alloc;
        "error: invalid value '{text}' for '--seed <N>': {error}\n\nFor more information, try '--help'.\n"
    ))
}

// A mistake with this message, or out of memory if there is none.
fn mistake(message: Result<String, AllocError>) -> BadLine
    ensures mistake { IsToldAsMistake result }
    ensures kept { IfOk message (λ text. result ≡ BadLine.Mistake text) }
{
    match message {
        Ok(message) => BadLine::Mistake(message),
        Err(AllocError) => BadLine::Memory,
    }
}

// The output format that a text names.
fn format_of(text: &str) -> Option<Output>
    ensures { result ≡ output_named text.now }
{
    match text {
        "replies" => Some(Output::Replies),
        "csv" => Some(Output::Csv),
        "json" => Some(Output::Json),
        "box" => Some(Output::Box),
        _ => None,
    }
}

// The output format among the matches.
fn output_in(alloc: Global, matches: &ArgMatches) -> Result<Output, BadLine>
    ensures { ReadsOutput (first_value (found_of matches.now) (codes "output")) result }
{
    let Some(text) = matches.get_str("output") else {
        return Ok(Output::Replies);
    };
    match format_of(text) {
        Some(output) => Ok(output),
        None => Err(bad_output(alloc, text)),
    }
}

// The message for a text that isn't an output format, in clap's format.
fn bad_output(alloc: Global, text: &str) -> BadLine
    ensures { IsToldAsMistake result }
{
    mistake(format!(in alloc;
        "error: invalid value '{text}' for '--output <FORMAT>'\n  [possible values: replies, csv, json, box]\n\nFor more information, try '--help'.\n"
    ))
}

// The message for commands that are given with a script, in clap's format.
fn bad_script(alloc: Global) -> BadLine
    ensures { IsToldAsMistake result }
{
    mistake(String::from_str(
        alloc,
        "error: the argument '--command <LINES>' cannot be used with '[SCRIPT]'\n\nUsage: groupsh [OPTIONS] [SCRIPT]\n\nFor more information, try '--help'.\n",
    ))
}

// All values of an option among the matches, in order.
fn values_in<'a>(
    alloc: Global,
    matches: &ArgMatches<'a>,
    name: &str,
) -> Result<Vec<&'a str>, AllocError>
    ensures { IfOk result (λ values. map (λ v. v.now) values.items
        ≡ unwrap_or (option_map raw_values (matched_of (found_of matches.now) name.now)) []) }
{
    match matches.get_strs(name) {
        Some(values) => Vec::from_slice(alloc, values),
        None => Ok(Vec::new(alloc)),
    }
}

// The budget among the matches.
fn budget_in(matches: &ArgMatches) -> u64
    ensures { IsReadAs is_budget 65536 (one_text (found_of matches.now) (codes "budget")) result }
{
    matches.get_one("budget").unwrap_or(65_536)
}

// Whether the matches have a flag.
fn flag_in(matches: &ArgMatches, name: &str) -> bool
    ensures { IsReadAsFlag (one_text (found_of matches.now) name.now) result }
{
    matches.get_flag(name)
}

// What the matches ask for.
fn options_in<'a>(alloc: Global, matches: &ArgMatches<'a>) -> Result<Options<'a>, BadLine>
    ensures { ReadsMatches (rows_of (found_of matches.now)) result }
{
    let seed = seed_in(alloc, matches)?;
    let output = output_in(alloc, matches)?;
    let Ok(tables) = values_in(alloc, matches, "table") else {
        return Err(BadLine::Memory);
    };
    let Ok(commands) = values_in(alloc, matches, "command") else {
        return Err(BadLine::Memory);
    };
    let script = matches.get_str("SCRIPT");
    if script.is_some() && !commands.is_empty() {
        return Err(bad_script(alloc));
    }
    Ok(Options {
        script,
        tables,
        commands,
        output,
        ragged: flag_in(matches, "ragged"),
        seed,
        budget: budget_in(matches),
        spill: matches.get_str("spill"),
        stats: flag_in(matches, "stats"),
        check: flag_in(matches, "check"),
    })
}

// Converts clap's error.
fn bad_line(alloc: Global, error: &Error) -> BadLine
    ensures { IsToldAs (kind_of error.now) result }
{
    let kind = error.kind();
    if kind == ErrorKind::OutOfMemory {
        return BadLine::Memory;
    }
    match error.to_string(alloc) {
        Err(AllocError) => BadLine::Memory,
        Ok(text) if kind == ErrorKind::DisplayHelp => BadLine::Help(text),
        Ok(text) if kind == ErrorKind::DisplayVersion => BadLine::Version(text),
        Ok(text) => BadLine::Mistake(text),
    }
}

/// Reads a command line, whose first word is the program's name.
pub fn read_words<'a>(alloc: Global, words: &'a [String]) -> Result<Options<'a>, BadLine>
    ensures { Reads (map string_bytes words.entry.now) result }
{
    let Ok(line) = command_line(alloc) else {
        return Err(BadLine::Memory);
    };
    match line.try_get_matches_from(words) {
        Ok(matches) => options_in(alloc, &matches),
        Err(error) => Err(bad_line(alloc, &error)),
    }
}
