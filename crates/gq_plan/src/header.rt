//! The headers of replies.
ghost use Rattle.std.specs.Prelude.{◌≡◌, ◌++◌, IfOk, OnOk};
ghost use Rattle.gq_command.specs.Commands.{column_names};
ghost use Rattle.gq_plan.specs.Headers.{called, group_header, text_of};

use gq_clause::Aggregate;
use gq_command::By;
use gq_row::{Column, Sequence, Text};
use std::alloc::{AllocError, Global};

/// The names of some columns.
pub fn names_of(alloc: Global, columns: &[Column]) -> Result<Sequence<Text>, AllocError>
    ensures { IfOk result (λ names. names ≡ column_names columns.now) }
{
    let mut names = Vec::with_capacity(alloc, columns.len())?;
    for column in columns {
        names.push(column.name.copy(alloc)?)?;
    }
    Ok(Sequence::new(names))
}

/// The header of a `group`: `level` for a rollup, the names of the `by` columns, and the texts of
/// the aggregates.
pub fn header_of(
    alloc: Global,
    by: &By,
    aggregates: &[Aggregate],
) -> Result<Sequence<Text>, AllocError>
    ensures { IfOk result (λ header. header ≡ group_header by.now aggregates.now) }
{
    let mut names = Vec::new(alloc);
    if by.rollup {
        names.push(Text::of(alloc, "level")?)?;
    }
    push_copies(alloc, &mut names, by.columns.as_slice())?;
    for aggregate in aggregates {
        names.push(text_of(alloc, aggregate)?)?;
    }
    Ok(Sequence::new(names))
}

// Appends copies of names.
fn push_copies(alloc: Global, names: &mut Vec<Text>, more: &[Text]) -> Result<(), AllocError>
    ensures { OnOk result (names.new.items ≡ names.old.items ++ more.now) }
{
    for name in more {
        names.push(name.copy(alloc)?)?;
    }
    Ok(())
}

fn text_of(alloc: Global, aggregate: &Aggregate) -> Result<Text, AllocError>
    ensures { IfOk result (λ text. text ≡ text_of aggregate.now) }
{
    match aggregate {
        Aggregate::CountAll => Text::of(alloc, "count(*)"),
        Aggregate::Count(column) => called(alloc, "count(", column),
        Aggregate::CountDistinct(column) => called(alloc, "count(distinct ", column),
        Aggregate::Sum(column) => called(alloc, "sum(", column),
        Aggregate::Min(column) => called(alloc, "min(", column),
        Aggregate::Max(column) => called(alloc, "max(", column),
    }
}

// A word, a column's name, and a closing parenthesis.
fn called(alloc: Global, word: &str, column: &Text) -> Result<Text, AllocError>
    ensures { IfOk result (λ text. text ≡ called word.now column.now) }
{
    let mut text = String::from_str(alloc, word)?;
    text.push_str(column.as_str())?;
    text.push(')')?;
    Text::from_string(alloc, text)
}
