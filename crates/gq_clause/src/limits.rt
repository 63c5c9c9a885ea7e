//! Names and texts within the limits of a line.
ghost use Rattle.std.specs.Prelude.{◌≡◌, true, ◌&&◌};
ghost use Rattle.std.specs.List.{list_all};
ghost use Rattle.gq_clause.specs.Within.{is_at_most, aggregate_names, literal_texts, operand_fits, test_fits};

use crate::aggregate::Aggregate;
use crate::condition::{Operand, Test};
use gq_row::{Bounds, Text, Value};

/// Whether each of these names has at most `most` bytes.
pub fn names_fit(names: &[Text], most: usize) -> bool
    ensures { result ≡ list_all (is_at_most most) names.now }
{
    names.iter().all(|name| name.len() <= most)
}

fn aggregate_fits(aggregate: &Aggregate, most: usize) -> bool
    ensures { result ≡ list_all (is_at_most most) (aggregate_names aggregate.now) }
{
    match aggregate {
        Aggregate::CountAll => true,
        Aggregate::Count(column)
        | Aggregate::CountDistinct(column)
        | Aggregate::Sum(column)
        | Aggregate::Min(column)
        | Aggregate::Max(column) => column.len() <= most,
    }
}

/// Whether each name in these aggregates has at most `most` bytes.
pub fn aggregates_fit(aggregates: &[Aggregate], most: usize) -> bool
    ensures { result ≡ list_all (λ a. list_all (is_at_most most) (aggregate_names a)) aggregates.now }
{
    aggregates
        .iter()
        .all(|aggregate| aggregate_fits(aggregate, most))
}

fn value_fits(value: &Value, most: usize) -> bool
    ensures { result ≡ list_all (is_at_most most) (literal_texts value.now) }
{
    match value {
        Value::Text(text) | Value::NoCase(text) => text.len() <= most,
        Value::Null | Value::Int(_) => true,
    }
}

/// Whether each text among these literals has at most `most` bytes.
pub fn values_fit(values: &[Value], most: usize) -> bool
    ensures { result ≡ list_all (λ v. list_all (is_at_most most) (literal_texts v)) values.now }
{
    values.iter().all(|value| value_fits(value, most))
}

fn operand_fits(operand: &Operand, bounds: &Bounds) -> bool
    ensures { result ≡ operand_fits bounds.now operand.now }
{
    match operand {
        Operand::Column(name) => name.len() <= bounds.name,
        Operand::Literal(value) => value_fits(value, bounds.text),
        Operand::Aggregate(aggregate) => aggregate_fits(aggregate, bounds.name),
    }
}

fn test_fits(test: &Test, bounds: &Bounds) -> bool
    ensures { result ≡ test_fits bounds.now test.now }
{
    match test {
        Test::Compare(left, _, right) => operand_fits(left, bounds) && operand_fits(right, bounds),
        Test::IsNull(operand) | Test::IsNotNull(operand) => operand_fits(operand, bounds),
    }
}

/// Whether each name and each text in these tests is within its limit.
pub fn tests_fit(tests: &[Test], bounds: &Bounds) -> bool
    ensures { result ≡ list_all (test_fits bounds.now) tests.now }
{
    tests.iter().all(|test| test_fits(test, bounds))
}
