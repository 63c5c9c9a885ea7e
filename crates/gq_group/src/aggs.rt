//! The running aggregates of a group.
ghost use Rattle.std.specs.Prelude.{◌≡◌, ◌<◌, ◌≤◌, ◌+◌, ◌^◌, ◌++◌, ◌∷◌, [], ℕ, true, false, List, length, drop, map, take, Some, None, IsTrue, MatchResult, OnOk, OnErr};
ghost use Rattle.std.specs.List.{list_all, list_any};
ghost use Rattle.gq_row.specs.declared.value.Value.{Value as Cell};
ghost use Rattle.gq_row.specs.declared.value.Value.TheVariants.{Null};
ghost use Rattle.gq_row.specs.Rows.{cell};
ghost use Rattle.gq_agg.specs.declared.kind.AggKind.{AggKind as Kind};
ghost use Rattle.gq_agg.specs.Aggregates.{aggregate, takes};
ghost use Rattle.gq_agg.specs.Running.{tally, kind_of};
ghost use Rattle.gq_group.specs.Entries.{tallies};
ghost use Rattle.gq_group.specs.Groups.{answers, counts_all, fits_cell, is_none};
ghost use Rattle.gq_group.specs.KeptAggs.{IsKnown, kept_aggs, kept_for};

use crate::group_spec::counts_all as is_count;
use gq_agg::{Agg, AggKind, SumRange};
use gq_row::{Row, Value};
use std::alloc::{AllocError, Global};

// Appends aggregates over no row to those of other groups, which stay whatever the outcome.
pub(crate) fn start_aggs(
    alloc: Global,
    asked: &[(AggKind, usize)],
    running: &mut Vec<Agg>,
) -> Result<(), AllocError>
    ensures ok { OnOk result (running.new.items ≡ running.old.items ++ tallies asked.now []) }
    ensures others { take (length running.old.items) running.new.items ≡ running.old.items }
{
    for agg in asked {
        running.push(Agg::start(alloc, agg.0))?;
    }
    Ok(())
}

// Appends the aggregates of one row to those of other groups. On error the list is as it was.
pub(crate) fn append_aggs(
    alloc: Global,
    asked: &[(AggKind, usize)],
    row: &Row,
    running: &mut Vec<Agg>,
) -> Result<(), AllocError>
    requires fits { IsTrue (list_all (fits_cell row.now) asked.now) }
    ensures ok { OnOk result (running.new.items ≡
        running.old.items ++ tallies asked.now (row.now ∷ [])) }
    ensures err { OnErr result (running.new.items ≡ running.old.items) }
{
    let start = running.len();
    if append_each(alloc, asked, row, running).is_err() {
        running.truncate(start);
        return Err(AllocError);
    }
    Ok(())
}

// Appends the aggregates of one row to those of other groups, which stay whatever the outcome.
#[inline(always)]
fn append_each(
    alloc: Global,
    asked: &[(AggKind, usize)],
    row: &Row,
    running: &mut Vec<Agg>,
) -> Result<(), AllocError>
    requires fits { IsTrue (list_all (fits_cell row.now) asked.now) }
    ensures ok { OnOk result (running.new.items ≡
        running.old.items ++ tallies asked.now (row.now ∷ [])) }
    ensures others { take (length running.old.items) running.new.items ≡ running.old.items }
{
    for agg in asked {
        append_agg(alloc, *agg, row, running)?;
    }
    Ok(())
}

// Appends the aggregate of the cell of a column, or of null if the row has no such column.
#[inline(always)]
fn append_agg(
    alloc: Global,
    asked: (AggKind, usize),
    row: &Row,
    running: &mut Vec<Agg>,
) -> Result<(), AllocError>
    requires fits { IsTrue (fits_cell row.now asked) }
    ensures ok { OnOk result (running.new.items ≡
        running.old.items ++ tallies (asked ∷ []) (row.now ∷ [])) }
    ensures others { take (length running.old.items) running.new.items ≡ running.old.items }
{
    let (kind, column) = asked;
    let agg = if column < row.len() {
        Agg::of(alloc, kind, row.cell(column))?
    } else {
        Agg::of(alloc, kind, &Value::Null)?
    };
    running.push(agg)?;
    Ok(())
}

// Writes the values of the aggregates that are asked for over `values`. Afterwards the running
// aggregates are unspecified.
#[inline(always)]
pub(crate) fn take_values(
    aggs: &mut [Agg],
    asked: &[(AggKind, usize)],
    values: &mut [Value],
) -> Result<(), SumRange>
    requires all { length values.old ≡ length asked.now }
    requires kept { length aggs.old ≡ length (kept_aggs asked.now) }
    ensures ok { OnOk result ((rows : List (List Cell)) →
        aggs.old ≡ tallies (kept_aggs asked.now) rows → answers asked.now rows ≡ map Some values.new) }
    ensures overflow { OnErr result ((rows : List (List Cell)) →
        aggs.old ≡ tallies (kept_aggs asked.now) rows → list_any is_none (answers asked.now rows) ≡ true) }
{
    let rows = rows_added(aggs);
    let mut place = 0;
    'asked: for i in 0..asked.len() {
        let kind = asked[i].0;
        take_value(aggs, place, kind, rows, &mut values[i])?;
        place += kept_for(kind);
    }
    Ok(())
}

// How many rows were added, nulls too, by the first aggregate that is kept; 0 without one.
#[inline]
fn rows_added(aggs: &[Agg]) -> u64
    ensures rows { (asked : List (Kind × ℕ)) (rows : List (List Cell)) → 0 < length asked →
        aggs.now ≡ tallies asked rows → result ≡ length rows }
    ensures few { result ≤ 2 ^ 32 }
{
    match aggs.first() {
        Some(agg) => agg.adds(),
        None => 0,
    }
}

// Writes the value of an aggregate over another value: for `count(*)` the number of rows, else that
// of the aggregate kept at `place`.
#[inline(always)]
fn take_value(
    aggs: &mut [Agg],
    place: usize,
    kind: AggKind,
    rows: u64,
    over: &mut Value,
) -> Result<(), SumRange>
    requires within { counts_all kind ≡ false → place < length aggs.old }
    requires few { rows ≤ 2 ^ 32 }
    ensures value { (values : List Cell) → IsKnown (counts_all kind) kind values rows aggs.old place →
        MatchResult result (λ _. aggregate kind values ≡ Some over.new)
        (λ _. aggregate kind values ≡ None) }
    ensures behind { drop (place + kept_for kind) aggs.new ≡ drop (place + kept_for kind) aggs.old }
    ensures long { length aggs.new ≡ length aggs.old }
{
    if is_count(kind) {
        over.write_number(rows as i64);
        return Ok(());
    }
    aggs[place].take_to(over)
}

// How many of the kept aggregates give its value: one, or none for `count(*)`.
#[inline(always)]
fn kept_for(kind: AggKind) -> usize
    ensures { result ≡ kept_for kind }
{
    if is_count(kind) { 0 } else { 1 }
}

// Adds a row's cells, each to its aggregate. On error the aggregates are unspecified.
#[inline(always)]
pub(crate) fn add_cells(
    aggs: &mut [Agg],
    asked: &[(AggKind, usize)],
    row: &Row,
) -> Result<(), AllocError>
    requires tallied { (rows : List (List Cell)) × (length rows < 2 ^ 32) × (aggs.old ≡ tallies
        asked.now rows) }
    requires fits { IsTrue (list_all (fits_cell row.now) asked.now) }
    ensures { OnOk result ((rows : List (List Cell)) → aggs.old ≡ tallies asked.now rows →
        aggs.new ≡ tallies asked.now (rows ++ row.now ∷ [])) }
{
    'aggs: for i in 0..asked.len() {
        add_cell(&mut aggs[i], asked[i].1, row)?;
    }
    Ok(())
}

// Adds the cell of a column, or null if the row has no such column.
#[inline(always)]
fn add_cell(agg: &mut Agg, column: usize, row: &Row) -> Result<(), AllocError>
    requires few { agg.old.adds < 2 ^ 32 }
    requires fits { IsTrue (fits_cell row.now (kind_of agg.old.state, column)) }
    ensures { OnOk result ((kind : Kind) (values : List Cell) → agg.old ≡ tally kind values →
        agg.new ≡ tally kind (values ++ cell row.now column ∷ [])) }
{
    if column < row.len() {
        return agg.add(row.cell(column));
    }
    add_null(agg)
}

// Adds null.
#[cold]
#[inline(never)]
fn add_null(agg: &mut Agg) -> Result<(), AllocError>
    requires few { agg.old.adds < 2 ^ 32 }
    requires fits { IsTrue (takes (kind_of agg.old.state) Null) }
    ensures { OnOk result ((kind : Kind) (values : List Cell) → agg.old ≡ tally kind values →
        agg.new ≡ tally kind (values ++ Null ∷ [])) }
{
    agg.add(&Value::Null)
}
