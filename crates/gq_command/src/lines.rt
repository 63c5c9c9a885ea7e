//! Parses lines as commands.
ghost use Rattle.std.specs.Prelude.{true, false, ◌≡◌, ◌&&◌, ◌↔◌, ◌<◌, IfOk, IsErrOf, length, nat_le};
ghost use Rattle.std.specs.List.{list_all};
ghost use Rattle.gq_command.specs.Commands.{aggregate_names, exists_fits, fits, is_at_most, literal_texts, test_fits};
ghost use Rattle.gq_command.specs.Lines.{command_on, Says};
ghost use Rattle.gq_token.specs.Results.{Gives};

use crate::command::{Command, Exists};
use crate::parsing::command_in;
use gq_clause::{Aggregate, Test, aggregates_fit, names_fit, tests_fit, values_fit};
use gq_row::{Bounds, Column, Limits, Row, Sequence, Text};
use gq_token::{ParseError, lex};
use std::alloc::Global;
use thiserror::Error;

/// Why a line is refused.
#[derive(Debug, Drop, Error)]
pub enum LineRefusal {
    /// The line isn't a command.
    #[error("the line says no command")]
    Syntax,
    /// The line has more bytes than the limit.
    #[error("the line is too long")]
    LineTooLong,
    /// The line is a command whose names or texts are too long, or with too many columns or
    /// aggregates.
    #[error("a name or a text is too long, or there are too many columns or aggregates")]
    Limit,
    /// An allocation failed while the line was read.
    #[error("no memory to read the line")]
    Memory,
}

#[tactic(auto, unfolding(gq_token::specs::Lexing::tokens))]
fn parse(alloc: Global, line: &[u8]) -> Result<Command, ParseError>
    ensures { Gives (λ c. c) result (command_on line.now) }
{
    match str::from_utf8(line) {
        Ok(text) => {
            let tokens = lex(alloc, text)?;
            command_in(alloc, tokens)
        }
        Err(_) => Err(ParseError::Syntax),
    }
}

fn columns_fit(columns: &[Column], most: usize) -> bool
    ensures { result ≡ list_all (λ c. is_at_most most c.name) columns.now }
{
    columns.iter().all(|column| column.name.len() <= most)
}

/// Whether a table's name and a row's literals are within the limits of a line.
fn row_fits(table: &Text, row: &Row, bounds: &Bounds) -> bool
    ensures { result ≡ (is_at_most bounds.now.name table.now && list_all (λ v. list_all (is_at_most bounds.now.text) (literal_texts v)) row.now) }
{
    table.len() <= bounds.name && values_fit(row.cells(), bounds.text)
}

/// Whether the names of an `exists`, if there is one, have at most `most` bytes.
fn exists_fits(exists: &Option<Exists>, most: usize) -> bool
    ensures { result ≡ exists_fits most exists.now }
{
    match exists {
        Some(exists) => {
            exists.table.len() <= most
                && names_fit(exists.theirs.as_slice(), most)
                && names_fit(exists.ours.as_slice(), most)
        }
        None => true,
    }
}

/// Whether a grouping's names outside its conditions, and the number of its aggregates, are within
/// the limits of a line.
fn groups_fit(
    table: &Text,
    by: &Sequence<Text>,
    shown: &Sequence<Aggregate>,
    bounds: &Bounds,
) -> bool
    ensures { result ≡ (is_at_most bounds.now.name table.now && (list_all (is_at_most bounds.now.name) by.now && (list_all (λ a. list_all (is_at_most bounds.now.name) (aggregate_names a)) shown.now && nat_le (length shown.now) bounds.now.aggregates))) }
{
    table.len() <= bounds.name
        && names_fit(by.as_slice(), bounds.name)
        && aggregates_fit(shown.as_slice(), bounds.name)
        && shown.len() <= bounds.aggregates
}

/// Whether the conditions of a grouping are within the limits of a line.
fn conditions_fit(
    tests: &Sequence<Test>,
    exists: &Option<Exists>,
    having: &Sequence<Test>,
    bounds: &Bounds,
) -> bool
    ensures { result ≡ (list_all (test_fits bounds.now) tests.now && (exists_fits bounds.now.name exists.now && list_all (test_fits bounds.now) having.now)) }
{
    tests_fit(tests.as_slice(), bounds)
        && exists_fits(exists, bounds.name)
        && tests_fit(having.as_slice(), bounds)
}

/// Whether a `distinct` is within the limits of a line.
fn distinct_fits(table: &Text, on: &Sequence<Text>, tests: &Sequence<Test>, bounds: &Bounds) -> bool
    ensures { result ≡ (is_at_most bounds.now.name table.now && (list_all (is_at_most bounds.now.name) on.now && list_all (test_fits bounds.now) tests.now)) }
{
    table.len() <= bounds.name
        && names_fit(on.as_slice(), bounds.name)
        && tests_fit(tests.as_slice(), bounds)
}

/// Whether a command is within the limits of a line.
fn fits(command: &Command, bounds: &Bounds) -> bool
    ensures { result ≡ fits bounds.now command.now }
{
    match command {
        Command::Create {
            table,
            columns,
            key,
        } => {
            table.len() <= bounds.name
                && columns_fit(columns.as_slice(), bounds.name)
                && names_fit(key.as_slice(), bounds.name)
                && columns.len() <= bounds.columns
        }
        Command::Drop { table } | Command::Load { table, .. } | Command::Show { table } => {
            table.len() <= bounds.name
        }
        Command::Upsert { table, values } => row_fits(table, values, bounds),
        Command::Delete { table, values } => row_fits(table, values, bounds),
        Command::Group {
            table,
            by,
            shown,
            tests,
            exists,
            having,
        } => {
            groups_fit(table, &by.columns, shown, bounds)
                && conditions_fit(tests, exists, having, bounds)
        }
        Command::Distinct { table, on, tests } => distinct_fits(table, on, tests, bounds),
    }
}

/// Parses a line, which comes without its end. A load gets an open payload.
pub fn parse_line(alloc: Global, line: &[u8], limits: &Limits) -> Result<Command, LineRefusal>
    // A command is returned only if the line says it and it is within the limits.
    ensures said { IfOk result (λ c. Says line.now c) }
    ensures within { IfOk result (λ c. fits limits.now.bounds c ≡ true) }
    // `Syntax` is returned only if the line isn't a command.
    ensures syntax { IsErrOf result LineRefusal.Syntax → (c : Command) → Says line.now c → ⊥ }
    // `Limit` is returned only if the line is a command past a limit.
    ensures limit { IsErrOf result LineRefusal.Limit → (c : Command) × Says line.now c × (fits limits.now.bounds c ≡ false) }
    // The length is checked first.
    ensures too_long { IsErrOf result LineRefusal.LineTooLong ↔ (limits.now.bounds.line < length line.now) }
{
    if line.len() > limits.bounds.line {
        return Err(LineRefusal::LineTooLong);
    }
    match parse(alloc, line) {
        Err(ParseError::Memory) => Err(LineRefusal::Memory),
        Err(ParseError::Syntax) => Err(LineRefusal::Syntax),
        Ok(command) => {
            if fits(&command, &limits.bounds) {
                Ok(command)
            } else {
                // A call: an inline drop would be proved variant by variant here.
                drop(command);
                Err(LineRefusal::Limit)
            }
        }
    }
}
