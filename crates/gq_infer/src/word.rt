//! The word after the program's option `-t`: `[NAME=]FILE`.
//!
//! What follows its first `=` that isn't inside double quotes is the file. What comes before is the
//! table's name, as it is; or, if it has a `(`, the table's name and columns, as they follow the word
//! `create` of a command. Without such an `=` the whole word is the file, and the name is that of the
//! file, without its folder and its last extension.
ghost use Rattle.std.specs.Prelude.{◌≡◌, ◌==◌, ◌<◌, ◌≤◌, ◌⊎◌, ◌&&◌, not, if◌then◌else◌, true, false, None, IfOk, IfErr, IsErrOf, IfSome, ℕ, List, MatchOption, length, slice_index};
ghost use Rattle.gq_command.specs.Commands.{is_command};
ghost use Rattle.gq_infer.specs.Words.{CreatesNone, IsRefusedDeclaration, PassesLimit, SaysNoTable, SaysTable, cut_of, file_of, declaration_of, create_line, has_columns, is_name, name_of};

use crate::bad_table::BadTable;
use crate::path::stem;
use gq_command::{Command, LineRefusal, parse_line};
use gq_row::{Column, Limits, Sequence, Text};
use std::alloc::{AllocError, Global};
use std::marker::Model;

/// The columns and the key of a table by hand, seen as a record of both. They can be in a `create`
/// command.
#[derive(Drop)]
pub struct GivenColumns {
    columns: Sequence<Column>,
    key: Sequence<Text>,
}

impl Model for GivenColumns {
    ghost use Rattle.std.specs.Prelude.{◌≡◌, [], true};
    ghost use Rattle.gq_command.specs.Commands.{is_command};
    ghost use Rattle.gq_command.specs.declared.command.Command.TheVariants.{Create};
    ghost use Rattle.gq_infer.specs.Words.{Given};

    ghost Value = { Given };

    ghost view = { λ g. record { columns = g.columns; key = g.key } };

    ghost invariant = { λ g. is_command (Create [] g.columns g.key) ≡ true };
}

impl GivenColumns {
    ghost use Rattle.std.specs.Prelude.{◌≡◌, ℕ, List, true, IfOk};
    ghost use Rattle.gq_command.specs.Commands.{is_command};
    ghost use Rattle.gq_command.specs.declared.command.Command.TheVariants.{Create};

    /// The same columns and key again.
    pub fn copy(&self, alloc: Global) -> Result<GivenColumns, AllocError>
        ensures { IfOk result (λ copy. copy ≡ self.now) }
    {
        Ok(GivenColumns {
            columns: copy_columns(alloc, self.columns.as_slice())?,
            key: copy_names(alloc, self.key.as_slice())?,
        })
    }

    /// The columns, and the names of the key columns: none if the table has no key.
    pub fn into_parts(self) -> (Sequence<Column>, Sequence<Text>)
        ensures columns { result.0 ≡ self.columns }
        ensures key { result.1 ≡ self.key }
        ensures table { (table : List ℕ) → is_command (Create table result.0 result.1) ≡ true }
    {
        (self.columns, self.key)
    }
}

fn copy_columns(alloc: Global, columns: &[Column]) -> Result<Sequence<Column>, AllocError>
    ensures { IfOk result (λ copies. copies ≡ columns.now) }
{
    let mut copies = Vec::with_capacity(alloc, columns.len())?;
    for column in columns {
        let name = column.name.copy(alloc)?;
        copies.push(Column {
            name,
            kind: column.kind,
        })?;
    }
    Ok(Sequence::new(copies))
}

fn copy_names(alloc: Global, names: &[Text]) -> Result<Sequence<Text>, AllocError>
    ensures { IfOk result (λ copies. copies ≡ names.now) }
{
    let mut copies = Vec::with_capacity(alloc, names.len())?;
    for name in names {
        copies.push(name.copy(alloc)?)?;
    }
    Ok(Sequence::new(copies))
}

/// What the word after `-t` says.
#[derive(Drop)]
pub struct TableWord<'a> {
    pub name: Text,
    /// None if they are to be inferred.
    pub columns: Option<GivenColumns>,
    pub file: &'a str,
}

/// Reads the word after `-t`, which is cut at its first `=` that isn't inside double quotes.
pub fn table_word<'a>(
    alloc: Global,
    word: &'a str,
    limits: &Limits,
) -> Result<TableWord<'a>, BadTable>
    ensures file { IfOk result (λ t. t.file.now ≡ file_of word.now) }
    // A name alone.
    ensures named { has_columns word.now ≡ false → IfOk result (λ t. (t.name ≡ name_of word.now)
        × (is_name limits.now.bounds.name t.name ≡ true) × (t.columns ≡ None)) }
    ensures no_name { IsErrOf result BadTable.NoName → (has_columns word.now ≡ false)
        × (is_name limits.now.bounds.name (name_of word.now) ≡ false) }
    // Columns by hand.
    ensures given { has_columns word.now ≡ true → IfOk result (λ t. MatchOption t.columns ⊥
        (λ g. SaysTable limits.now.bounds (declaration_of word.now) t.name g.columns g.key)) }
    ensures command { IfOk result (λ t. IfSome t.columns (λ g. (table : List ℕ)
        → is_command (Command.Create table g.columns g.key) ≡ true)) }
    ensures not_columns { IsErrOf result BadTable.NotColumns → (has_columns word.now ≡ true)
        × SaysNoTable (declaration_of word.now) }
    ensures limit { IsErrOf result BadTable.Limit → (has_columns word.now ≡ true)
        × PassesLimit limits.now.bounds (declaration_of word.now) }
{
    let cut = cut_of(word.as_bytes());
    if cut == word.len() {
        return named(alloc, stem(word), word, limits);
    }
    let declaration = &word[..cut];
    let file = &word[cut + 1..];
    if declaration.as_bytes().contains(&b'(') {
        given(alloc, declaration, file, limits)
    } else {
        named(alloc, declaration, file, limits)
    }
}

/// The place of the first `=` outside double quotes, or the length.
fn cut_of(word: &[u8]) -> usize
    ensures place { result ≡ cut_of word.now }
    ensures within { result ≤ length word.now }
    ensures sign { result < length word.now → slice_index word.now result ≡ 61 }
{
    let mut is_quoted = false;
    for i in 0..word.len() {
        if cuts(word[i], is_quoted) {
            return i;
        }
        is_quoted = quotes(word[i], is_quoted);
    }
    word.len()
}

fn cuts(byte: u8, is_quoted: bool) -> bool
    ensures { result ≡ ((byte == 61) && not is_quoted) }
{
    byte == b'=' && !is_quoted
}

/// Whether what follows a byte is inside double quotes.
fn quotes(byte: u8, is_quoted: bool) -> bool
    ensures { result ≡ (if byte == 34 then not is_quoted else is_quoted) }
{
    if byte == b'"' { !is_quoted } else { is_quoted }
}

/// A table of this name, whose columns are to be inferred.
fn named<'a>(
    alloc: Global,
    name: &str,
    file: &'a str,
    limits: &Limits,
) -> Result<TableWord<'a>, BadTable>
    ensures file { IfOk result (λ t. t.file.now ≡ file.now) }
    ensures name { IfOk result (λ t. (t.name ≡ name.now)
        × (is_name limits.now.bounds.name t.name ≡ true) × (t.columns ≡ None)) }
    ensures refused { IfErr result (λ why. (why ≡ BadTable.Memory)
        ⊎ ((why ≡ BadTable.NoName) × (is_name limits.now.bounds.name name.now ≡ false))) }
{
    if name.is_empty() || name.len() > limits.bounds.name {
        return Err(BadTable::NoName);
    }
    match Text::of(alloc, name) {
        Ok(name) => Ok(TableWord {
            name,
            columns: None,
            file,
        }),
        Err(_e) => Err(BadTable::Memory),
    }
}

/// A table whose name and columns follow the word `create` of a command.
fn given<'a>(
    alloc: Global,
    declaration: &str,
    file: &'a str,
    limits: &Limits,
) -> Result<TableWord<'a>, BadTable>
    ensures file { IfOk result (λ t. t.file.now ≡ file.now) }
    ensures given { IfOk result (λ t. MatchOption t.columns ⊥
        (λ g. SaysTable limits.now.bounds declaration.now t.name g.columns g.key)) }
    ensures refused { IfErr result (λ why. IsRefusedDeclaration limits.now.bounds declaration.now why) }
{
    let Ok(line) = create_line(alloc, declaration.as_bytes()) else {
        return Err(BadTable::Memory);
    };
    match parse_line(alloc, line.as_slice(), limits) {
        Ok(command) => match table_of(command) {
            Some((name, columns)) => Ok(TableWord {
                name,
                columns: Some(columns),
                file,
            }),
            None => Err(BadTable::NotColumns),
        },
        Err(LineRefusal::Syntax) => Err(BadTable::NotColumns),
        Err(LineRefusal::LineTooLong | LineRefusal::Limit) => Err(BadTable::Limit),
        Err(LineRefusal::Memory) => Err(BadTable::Memory),
    }
}

fn create_line(alloc: Global, declaration: &[u8]) -> Result<Vec<u8>, AllocError>
    ensures { IfOk result (λ line. line.items ≡ create_line declaration.now) }
{
    let mut line = Vec::with_capacity(alloc, declaration.len())?;
    line.extend_from_slice(b"create ")?;
    line.extend_from_slice(declaration)?;
    Ok(line)
}

/// The name and the columns of a table that a command creates.
fn table_of(command: Command) -> Option<(Text, GivenColumns)>
    requires { is_command command ≡ true }
    ensures { MatchOption result (CreatesNone command)
        (λ t. command ≡ Command.Create t.0 t.1.columns t.1.key) }
{
    match command {
        Command::Create {
            table,
            columns,
            key,
        } => Some((table, GivenColumns { columns, key })),
        Command::Drop { .. }
        | Command::Load { .. }
        | Command::Upsert { .. }
        | Command::Delete { .. }
        | Command::Show { .. }
        | Command::Group { .. }
        | Command::Distinct { .. } => None,
    }
}
