//! Which kinds are compatible.
ghost use Rattle.std.specs.Prelude.{◌≡◌, IfOk, map};
ghost use Rattle.std.specs.Cmp.Lexicographic.{pointwise};
ghost use Rattle.std.specs.List.{list_all};
ghost use Rattle.gq_select.specs.Asking.{is_valid_for, kind_at};
ghost use Rattle.gq_plan.specs.Kinds.{agrees, goes_with, is_text, kind_of, kinds_of, matching_fits, operand_kind, result_kinds, same_kind, shown_kind, test_fits, tests_fit};

use gq_agg::AggKind;
use gq_row::{Column, Kind, Value};
use gq_select::{Matching, Operand, OutputColumn, Test};
use std::alloc::{AllocError, Global};

/// Whether each of them can be computed from rows with these columns.
pub fn are_valid_for(columns: &[Column], shown: &[OutputColumn]) -> bool
    ensures { result ≡ list_all (is_valid_for columns.now) shown.now }
{
    shown.iter().all(|asked| asked.is_valid_for(columns))
}

/// The kinds of a table's rows.
pub fn kinds_of(alloc: Global, columns: &[Column]) -> Result<Vec<Kind>, AllocError>
    ensures { IfOk result (λ kinds. kinds.items ≡ kinds_of columns.now) }
{
    let mut kinds = Vec::with_capacity(alloc, columns.len())?;
    for column in columns {
        kinds.push(column.kind)?;
    }
    Ok(kinds)
}

/// The kinds of result rows: those of the `by` columns, and then those of the shown columns.
pub fn result_kinds(
    alloc: Global,
    columns: &[Column],
    by: &[usize],
    shown: &[OutputColumn],
) -> Result<Vec<Kind>, AllocError>
    ensures { IfOk result (λ kinds. kinds.items ≡ result_kinds columns.now by.now shown.now) }
{
    let mut kinds = key_kinds(alloc, columns, by)?;
    for asked in shown {
        kinds.push(shown_kind(columns, asked))?;
    }
    Ok(kinds)
}

fn key_kinds(alloc: Global, columns: &[Column], by: &[usize]) -> Result<Vec<Kind>, AllocError>
    ensures { IfOk result (λ kinds. kinds.items ≡ map (kind_at columns.now) by.now) }
{
    let mut kinds = Vec::with_capacity(alloc, by.len())?;
    for position in by {
        kinds.push(kind_at(columns, *position))?;
    }
    Ok(kinds)
}

// The kind of the column at a position.
fn kind_at(columns: &[Column], position: usize) -> Kind
    ensures { result ≡ kind_at columns.now position }
{
    match columns.get(position) {
        Some(column) => column.kind,
        None => Kind::Int,
    }
}

// Minimums and maximums have their column's kind, counts and sums are numbers.
fn shown_kind(columns: &[Column], shown: &OutputColumn) -> Kind
    ensures { result ≡ shown_kind columns.now shown.now }
{
    match shown {
        OutputColumn::Aggregate(AggKind::Min | AggKind::Max, column) => kind_at(columns, *column),
        OutputColumn::Aggregate(AggKind::CountAll | AggKind::Count | AggKind::Sum, _) => Kind::Int,
        OutputColumn::CountDistinct(_) => Kind::Int,
    }
}

/// Whether the operands of each test have compatible kinds, in rows with these kinds.
pub fn tests_fit(kinds: &[Kind], tests: &[Test]) -> bool
    ensures { result ≡ tests_fit kinds.now tests.now }
{
    tests.iter().all(|test| test_fits(kinds, test))
}

fn test_fits(kinds: &[Kind], test: &Test) -> bool
    ensures { result ≡ test_fits kinds.now test.now }
{
    match test {
        Test::Compare(left, _, right) => {
            agree(operand_kind(kinds, left), operand_kind(kinds, right))
        }
        Test::IsNull(_) | Test::IsNotNull(_) => true,
    }
}

// Null has no kind.
fn operand_kind(kinds: &[Kind], operand: &Operand) -> Option<Kind>
    ensures { result ≡ operand_kind kinds.now operand.now }
{
    match operand {
        Operand::Column(place) => kinds.get(*place).copied(),
        Operand::Literal(value) => kind_of(value),
    }
}

fn kind_of(value: &Value) -> Option<Kind>
    ensures { result ≡ kind_of value.now }
{
    match value {
        Value::Null => None,
        Value::Int(_) => Some(Kind::Int),
        Value::Text(_) => Some(Kind::Text),
        Value::NoCase(_) => Some(Kind::NoCase),
    }
}

// An operand without a kind is compatible with both.
fn agree(one: Option<Kind>, other: Option<Kind>) -> bool
    ensures { result ≡ agrees one other }
{
    match (one, other) {
        (Some(one), Some(other)) => goes_with(one, other),
        (None, _) | (_, None) => true,
    }
}

// Texts without case are compatible with texts.
fn goes_with(one: Kind, other: Kind) -> bool
    ensures { result ≡ goes_with one other }
{
    is_text(one) == is_text(other)
}

fn is_text(kind: Kind) -> bool
    ensures { result ≡ is_text kind }
{
    match kind {
        Kind::Int => false,
        Kind::Text | Kind::NoCase => true,
    }
}

fn is_same(one: Kind, other: Kind) -> bool
    ensures { result ≡ same_kind one other }
{
    one == other
}

/// Whether the columns of an `exists`, if there is one, have the same kinds, pair by pair.
pub fn matching_fits(columns: &[Column], others: &[Column], matching: &Option<Matching>) -> bool
    ensures { result ≡ matching_fits columns.now others.now matching.now }
{
    match matching {
        Some(matching) => {
            let (theirs, ours) = (matching.theirs.as_slice(), matching.ours.as_slice());
            kinds_agree(columns, others, theirs, ours)
        }
        None => true,
    }
}

// Whether the columns at these positions have the same kinds in both tables, pair by pair.
fn kinds_agree(columns: &[Column], others: &[Column], theirs: &[usize], ours: &[usize]) -> bool
    ensures { result ≡ pointwise same_kind (map (kind_at others.now) theirs.now)
        (map (kind_at columns.now) ours.now) }
{
    if theirs.len() != ours.len() {
        return false;
    }
    for i in 0..theirs.len() {
        if !is_same(kind_at(others, theirs[i]), kind_at(columns, ours[i])) {
            return false;
        }
    }
    true
}
