//! Conditions on rows.
ghost use Rattle.std.specs.Prelude.{◌≡◌, ◌++◌, IfOk, OnOk};
ghost use Rattle.std.specs.Option.{option_copied};
ghost use Rattle.std.specs.List.{list_all};
ghost use Rattle.gq_select.specs.Truths.{columns_of, known, operand_columns, test_columns, value_of, truth_of, truth, is_true_in, keeps};

use crate::truth::Truth;
use gq_row::{Comparison, Sequence, Value, compare_in_condition};
use std::alloc::{AllocError, Global};

/// An operand of a test.
#[derive(Drop)]
pub enum Operand {
    /// The value in the column at a position, counted from 0; null if the row has no such column.
    Column(usize),
    /// A value that is the same for all rows.
    Literal(Value),
}

/// A test of a row.
#[derive(Drop)]
pub enum Test {
    Compare(Operand, Comparison, Operand),
    /// `x is null`
    IsNull(Operand),
    /// `x is not null`
    IsNotNull(Operand),
}

/// Tests joined by `and`. Without tests it is true.
#[derive(Drop)]
pub struct Condition {
    pub tests: Sequence<Test>,
}

impl Operand {
    // The operand's value in a row, or `None` if that is null.
    #[inline]
    fn known<'a>(&'a self, row: &'a [Value]) -> Option<&'a Value>
        ensures { option_copied result ≡ known (value_of self.now row.now) }
    {
        let value = match self {
            Operand::Column(column) => row.get(*column)?,
            Operand::Literal(value) => value,
        };
        if value.is_null() { None } else { Some(value) }
    }

    // Appends the column that the operand reads, if it reads one.
    fn push_columns(&self, columns: &mut Vec<usize>) -> Result<(), AllocError>
        ensures { OnOk result (columns.new.items ≡ columns.old.items ++ operand_columns self.now) }
    {
        match self {
            Operand::Column(column) => {
                columns.push(*column)?;
                Ok(())
            }
            Operand::Literal(_) => Ok(()),
        }
    }
}

impl Test {
    /// The truth of the test in a row. A comparison with null is unknown; if a value is a text without case, a
    /// text is compared as one too. `is null` is never unknown.
    #[inline]
    pub fn truth(&self, row: &[Value]) -> Truth
        ensures { result ≡ truth_of self.now row.now }
    {
        match self {
            Test::Compare(a, comparison, b) => match (a.known(row), b.known(row)) {
                (Some(a), Some(b)) => {
                    Truth::decided(comparison.passes(compare_in_condition(a, b)))
                }
                _ => Truth::Unknown,
            },
            Test::IsNull(a) => Truth::decided(a.known(row).is_none()),
            Test::IsNotNull(a) => Truth::decided(a.known(row).is_some()),
        }
    }

    // Appends the columns that the test reads.
    fn push_columns(&self, columns: &mut Vec<usize>) -> Result<(), AllocError>
        ensures { OnOk result (columns.new.items ≡ columns.old.items ++ test_columns self.now) }
    {
        match self {
            Test::Compare(a, _, b) => {
                a.push_columns(columns)?;
                b.push_columns(columns)
            }
            Test::IsNull(a) | Test::IsNotNull(a) => a.push_columns(columns),
        }
    }

    // Whether the test is true in a row.
    #[inline]
    fn is_true(&self, row: &[Value]) -> bool
        ensures { result ≡ is_true_in row.now self.now }
    {
        self.truth(row).is_true()
    }
}

impl Condition {
    /// The columns whose values the tests read, in their order. One that is read twice is there twice.
    pub fn columns(&self, alloc: Global) -> Result<Vec<usize>, AllocError>
        ensures { IfOk result (λ columns. columns.items ≡ columns_of self.now.tests) }
    {
        let mut columns = Vec::new(alloc);
        for test in self.tests.as_slice() {
            test.push_columns(&mut columns)?;
        }
        Ok(columns)
    }
}

/// The truth of a condition in a row: false if a test is false, else unknown if one is unknown, else true.
pub fn holds(condition: &Condition, row: &[Value]) -> Truth
    ensures { result ≡ truth condition.now.tests row.now }
{
    let mut truth = Truth::True;
    for test in condition.tests.as_slice() {
        match test.truth(row) {
            Truth::True => {}
            Truth::False => return Truth::False,
            Truth::Unknown => truth = Truth::Unknown,
        }
    }
    truth
}

/// Whether a condition on rows, before grouping, is true in a row.
#[inline]
pub fn filter(condition: &Condition, row: &[Value]) -> bool
    ensures { result ≡ keeps condition.now.tests row.now }
{
    is_true(condition, row)
}

/// Whether a condition on groups is true in a result row, which is a key and its aggregates.
#[inline]
pub fn having(condition: &Condition, group: &[Value]) -> bool
    ensures { result ≡ keeps condition.now.tests group.now }
{
    is_true(condition, group)
}

// Whether a condition is true in a row. Inlined, since most conditions have no test.
#[inline(always)]
fn is_true(condition: &Condition, row: &[Value]) -> bool
    ensures { result ≡ keeps condition.now.tests row.now }
{
    all_true(condition.tests.as_slice(), row)
}

// Whether each test is true, up to the first that isn't.
#[inline]
fn all_true(tests: &[Test], row: &[Value]) -> bool
    ensures { result ≡ list_all (is_true_in row.now) tests.now }
{
    tests.iter().all(|test| test.is_true(row))
}
