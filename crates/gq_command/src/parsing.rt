//! Parses tokens as commands: one function for each rule of the grammar. Each takes the tokens that
//! it reads.
ghost use Rattle.std.specs.Prelude.{◌≡◌, if◌then◌else◌, List, None, IfOk, IfErr, bytes_eq};
ghost use Rattle.std.specs.List.{list_all};
ghost use Rattle.gq_row.specs.Repeats.{no_repeats};
ghost use Rattle.gq_command.specs.Commands.{Bytes, column_names, is_row_test, keeps_rules, same_length};
ghost use Rattle.gq_clause.specs.declared.aggregate.Aggregate.{Aggregate as Asked};
ghost use Rattle.gq_command.specs.declared.command.By.{By as Columns};
ghost use Rattle.gq_command.specs.declared.command.Command.TheVariants.{Group};
ghost use Rattle.gq_token.specs.Results.{Gives};
ghost use Rattle.gq_command.specs.Reading.{text_after, kind_at, column_at, columns_at, key_at, row_at, create_at, exists_after, exists_at, by_after, by_at, conditions_after, group_at, distinct_at, form_after, form_at, ended, command_of};
ghost use Rattle.gq_token.specs.declared.parse_error.ParseError.TheVariants.{Memory};

use crate::command::{By, Command, Exists, Payload};
use gq_clause::{
    Test, aggregates_of, enclosed_literals, enclosed_names, expect, name_of, names_of, tests_after,
};
use gq_row::{Column, Kind, Row, Sequence, Text};
use gq_token::{ParseError, Terminal, Token, Tokens};
use std::alloc::Global;
use std::collections::BTreeSet;

/// The kind that begins with `text`, given the tokens after it.
#[tactic(auto, unfolding(crate::specs::Reading::text_after))]
fn text_after(tokens: &mut Tokens) -> Kind
    ensures { (result, tokens.new) ≡ text_after tokens.old }
{
    if tokens.skip(Terminal::NoCase) {
        Kind::NoCase
    } else {
        Kind::Text
    }
}

#[tactic(auto, unfolding(crate::specs::Reading::kind_at))]
fn kind_of(tokens: &mut Tokens) -> Result<Kind, ParseError>
    ensures { Gives (λ kind. (kind, tokens.new)) result (kind_at tokens.old) }
{
    if tokens.skip(Terminal::Int) {
        Ok(Kind::Int)
    } else if tokens.skip(Terminal::Text) {
        Ok(text_after(tokens))
    } else {
        Err(ParseError::Syntax)
    }
}

#[tactic(auto, unfolding(crate::specs::Reading::column_at))]
fn column_of(tokens: &mut Tokens) -> Result<Column, ParseError>
    ensures { Gives (λ column. (column, tokens.new)) result (column_at tokens.old) }
{
    let name = name_of(tokens)?;
    let kind = kind_of(tokens)?;
    Ok(Column { name, kind })
}

fn columns_of(alloc: Global, tokens: &mut Tokens) -> Result<Vec<Column>, ParseError>
    ensures { Gives (λ columns. (columns.items, tokens.new)) result (columns_at tokens.old) }
{
    let mut columns = Vec::new(alloc);
    for _ in 0..tokens.len() {
        let column = column_of(tokens)?;
        columns.push(column)?;
        if !tokens.skip_to_column() {
            return Ok(columns);
        }
    }
    Err(ParseError::Syntax)
}

#[tactic(auto, unfolding(crate::specs::Reading::key_at))]
fn key_of(alloc: Global, tokens: &mut Tokens) -> Result<Vec<Text>, ParseError>
    ensures { Gives (λ key. (key.items, tokens.new)) result (key_at tokens.old) }
{
    if !tokens.skip(Terminal::Comma) {
        return Ok(Vec::new(alloc));
    }
    expect(tokens, Terminal::Key)?;
    enclosed_names(alloc, tokens)
}

#[tactic(auto, unfolding(crate::specs::Reading::create_at))]
fn create_of(alloc: Global, tokens: &mut Tokens) -> Result<Command, ParseError>
    ensures { Gives (λ command. (command, tokens.new)) result (create_at tokens.old) }
{
    let table = name_of(tokens)?;
    expect(tokens, Terminal::Open)?;
    let columns = columns_of(alloc, tokens)?;
    let key = key_of(alloc, tokens)?;
    expect(tokens, Terminal::Close)?;
    Ok(Command::Create {
        table,
        columns: Sequence::new(columns),
        key: Sequence::new(key),
    })
}

/// A table's name, and the literals of a row.
#[tactic(auto, unfolding(crate::specs::Reading::row_at))]
fn row_of(alloc: Global, tokens: &mut Tokens) -> Result<(Text, Row), ParseError>
    ensures { Gives (λ row. (row, tokens.new)) result (row_at tokens.old) }
{
    let table = name_of(tokens)?;
    let values = enclosed_literals(alloc, tokens)?;
    Ok((table, Row::new(values)))
}

/// What follows `exists`.
#[tactic(auto, unfolding(crate::specs::Reading::exists_after))]
fn exists_after(alloc: Global, negated: bool, tokens: &mut Tokens) -> Result<Exists, ParseError>
    ensures { Gives (λ exists. (exists, tokens.new)) result (exists_after negated tokens.old) }
{
    let table = name_of(tokens)?;
    let theirs = enclosed_names(alloc, tokens)?;
    expect(tokens, Terminal::Equal)?;
    let ours = enclosed_names(alloc, tokens)?;
    Ok(Exists {
        negated,
        table,
        theirs: Sequence::new(theirs),
        ours: Sequence::new(ours),
    })
}

/// `exists` or `not exists`; `None` if neither comes first.
#[tactic(auto, unfolding(crate::specs::Reading::exists_at))]
fn exists_of(alloc: Global, tokens: &mut Tokens) -> Result<Option<Exists>, ParseError>
    ensures { Gives (λ exists. (exists, tokens.new)) result (exists_at tokens.old) }
{
    if tokens.skip(Terminal::Not) {
        expect(tokens, Terminal::Exists)?;
        return Ok(Some(exists_after(alloc, true, tokens)?));
    }
    if tokens.skip(Terminal::Exists) {
        return Ok(Some(exists_after(alloc, false, tokens)?));
    }
    Ok(None)
}

/// The columns after `by`, with or without `rollup`.
#[tactic(auto, unfolding(crate::specs::Reading::by_after))]
fn by_after(alloc: Global, tokens: &mut Tokens) -> Result<By, ParseError>
    ensures { Gives (λ by. (by, tokens.new)) result (by_after tokens.old) }
{
    let rollup = tokens.skip(Terminal::Rollup);
    let columns = if rollup {
        enclosed_names(alloc, tokens)?
    } else {
        names_of(alloc, tokens)?
    };
    Ok(By {
        columns: Sequence::new(columns),
        rollup,
    })
}

/// `by` and its columns; no columns if `by` doesn't come first.
#[tactic(auto, unfolding(crate::specs::Reading::by_at))]
fn by_of(alloc: Global, tokens: &mut Tokens) -> Result<By, ParseError>
    ensures { Gives (λ by. (by, tokens.new)) result (by_at tokens.old) }
{
    if tokens.skip(Terminal::By) {
        return by_after(alloc, tokens);
    }
    Ok(By {
        columns: Sequence::new(Vec::new(alloc)),
        rollup: false,
    })
}

/// The conditions on rows and on groups.
#[derive(Drop)]
struct Conditions {
    tests: Sequence<Test>,
    exists: Option<Exists>,
    having: Sequence<Test>,
}

/// The conditions after the aggregates.
#[tactic(auto, unfolding(crate::specs::Reading::conditions_after))]
fn conditions_of(alloc: Global, tokens: &mut Tokens) -> Result<Conditions, ParseError>
    ensures { (table : Bytes) (by : Columns) (shown : List Asked) →
        Gives (λ found. (Group table by shown found.tests found.exists found.having, tokens.new)) result (conditions_after table by shown tokens.old) }
{
    let tests = tests_after(alloc, Terminal::Where, tokens)?;
    let exists = exists_of(alloc, tokens)?;
    let having = tests_after(alloc, Terminal::Having, tokens)?;
    Ok(Conditions {
        tests: Sequence::new(tests),
        exists,
        having: Sequence::new(having),
    })
}

#[tactic(auto, unfolding(crate::specs::Reading::group_at))]
fn group_of(alloc: Global, tokens: &mut Tokens) -> Result<Command, ParseError>
    ensures { Gives (λ command. (command, tokens.new)) result (group_at tokens.old) }
{
    let table = name_of(tokens)?;
    let by = by_of(alloc, tokens)?;
    expect(tokens, Terminal::Show)?;
    let shown = aggregates_of(alloc, tokens)?;
    let Conditions {
        tests,
        exists,
        having,
    } = conditions_of(alloc, tokens)?;
    Ok(Command::Group {
        table,
        by,
        shown: Sequence::new(shown),
        tests,
        exists,
        having,
    })
}

#[tactic(auto, unfolding(crate::specs::Reading::distinct_at))]
fn distinct_of(alloc: Global, tokens: &mut Tokens) -> Result<Command, ParseError>
    ensures { Gives (λ command. (command, tokens.new)) result (distinct_at tokens.old) }
{
    let table = name_of(tokens)?;
    expect(tokens, Terminal::On)?;
    let on = names_of(alloc, tokens)?;
    let tests = tests_after(alloc, Terminal::Where, tokens)?;
    Ok(Command::Distinct {
        table,
        on: Sequence::new(on),
        tests: Sequence::new(tests),
    })
}

/// The command that begins with this word, given the tokens after it.
#[tactic(auto, unfolding(crate::specs::Reading::form_after))]
fn form_after(alloc: Global, first: Terminal, tokens: &mut Tokens) -> Result<Command, ParseError>
    ensures { Gives (λ command. (command, tokens.new)) result (form_after first tokens.old) }
{
    match first {
        Terminal::Create => create_of(alloc, tokens),
        Terminal::Drop => Ok(Command::Drop {
            table: name_of(tokens)?,
        }),
        Terminal::Load => Ok(Command::Load {
            table: name_of(tokens)?,
            payload: Payload::Open,
        }),
        Terminal::Upsert => {
            let (table, values) = row_of(alloc, tokens)?;
            Ok(Command::Upsert { table, values })
        }
        Terminal::Delete => {
            let (table, values) = row_of(alloc, tokens)?;
            Ok(Command::Delete { table, values })
        }
        Terminal::Show => Ok(Command::Show {
            table: name_of(tokens)?,
        }),
        Terminal::Group => group_of(alloc, tokens),
        Terminal::Distinct => distinct_of(alloc, tokens),
        _ => Err(ParseError::Syntax),
    }
}

#[tactic(auto, unfolding(crate::specs::Reading::form_at))]
fn form_of(alloc: Global, tokens: &mut Tokens) -> Result<Command, ParseError>
    ensures { Gives (λ command. (command, tokens.new)) result (form_at tokens.old) }
{
    match tokens.take() {
        Some(Token::Fixed(first)) => form_after(alloc, first, tokens),
        _ => Err(ParseError::Syntax),
    }
}

/// Whether no name occurs twice.
fn names_differ(alloc: Global, names: &[Text]) -> Result<bool, ParseError>
    ensures ok { IfOk result (λ differ. differ ≡ no_repeats bytes_eq names.now) }
    ensures err { IfErr result (λ e. e ≡ Memory) }
{
    let mut seen = BTreeSet::new(alloc);
    for name in names {
        if !seen.insert(name.as_str())? {
            return Ok(false);
        }
    }
    Ok(true)
}

/// Whether no two columns have the same name.
fn columns_differ(alloc: Global, columns: &[Column]) -> Result<bool, ParseError>
    ensures ok { IfOk result (λ differ. differ ≡ no_repeats bytes_eq (column_names columns.now)) }
    ensures err { IfErr result (λ e. e ≡ Memory) }
{
    let mut seen = BTreeSet::new(alloc);
    for column in columns {
        if !seen.insert(column.name.as_str())? {
            return Ok(false);
        }
    }
    Ok(true)
}

/// Whether these tests contain no aggregate.
fn are_row_tests(tests: &[Test]) -> bool
    ensures { result ≡ list_all is_row_test tests.now }
{
    tests.iter().all(|test| test.is_of_row())
}

/// Whether the two lists of an `exists`, if there is one, have the same length.
fn same_length(exists: &Option<Exists>) -> bool
    ensures { result ≡ same_length exists.now }
{
    match exists {
        Some(exists) => exists.theirs.len() == exists.ours.len(),
        None => true,
    }
}

/// Whether a command keeps the rules that the grammar doesn't express.
fn keeps_rules(alloc: Global, command: &Command) -> Result<bool, ParseError>
    ensures ok { IfOk result (λ kept. kept ≡ keeps_rules command.now) }
    ensures err { IfErr result (λ e. e ≡ Memory) }
{
    match command {
        Command::Create { columns, key, .. } => Ok(
            columns_differ(alloc, columns.as_slice())? && names_differ(alloc, key.as_slice())?,
        ),
        Command::Load { payload, .. } => Ok(matches!(payload, Payload::Open)),
        Command::Group {
            by,
            tests,
            exists,
            ..
        } => Ok(
            names_differ(alloc, by.columns.as_slice())?
                && are_row_tests(tests.as_slice())
                && same_length(exists),
        ),
        Command::Distinct { on, tests, .. } => {
            Ok(names_differ(alloc, on.as_slice())? && are_row_tests(tests.as_slice()))
        }
        Command::Drop { .. }
        | Command::Upsert { .. }
        | Command::Delete { .. }
        | Command::Show { .. } => Ok(true),
    }
}

/// Refuses a command that tokens follow, and one that breaks such a rule.
#[tactic(auto, unfolding(crate::specs::Reading::ended))]
fn check_whole(alloc: Global, command: &Command, left: &Tokens) -> Result<(), ParseError>
    ensures { Gives (λ _. command.now) result (if keeps_rules command.now then ended (command.now, left.now) else None) }
{
    if !left.is_empty() {
        return Err(ParseError::Syntax);
    }
    if keeps_rules(alloc, command)? {
        Ok(())
    } else {
        Err(ParseError::Syntax)
    }
}

/// Parses all of the tokens as one command.
#[tactic(auto, unfolding(crate::specs::Reading::command_of, crate::specs::Reading::ended))]
pub fn command_in(alloc: Global, mut tokens: Tokens) -> Result<Command, ParseError>
    ensures { Gives (λ c. c) result (command_of tokens) }
{
    let command = form_of(alloc, &mut tokens)?;
    check_whole(alloc, &command, &tokens).map(|()| command)
}
