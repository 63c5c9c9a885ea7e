//! Tests, as data.
ghost use Rattle.std.specs.Prelude.{◌≡◌};
ghost use Rattle.gq_clause.specs.Words.{is_of_row, is_row_test};

use crate::aggregate::Aggregate;
use gq_row::{Comparison, Text, Value};

/// What a test compares.
#[derive(Drop)]
pub enum Operand {
    /// A column, by its name.
    Column(Text),
    Literal(Value),
    Aggregate(Aggregate),
}

/// A condition on one row.
#[derive(Drop)]
pub enum Test {
    Compare(Operand, Comparison, Operand),
    /// `x is null`
    IsNull(Operand),
    /// `x is not null`
    IsNotNull(Operand),
}

impl Operand {
    /// Whether a row of a table has it: it isn't an aggregate.
    pub fn is_of_row(&self) -> bool
        ensures { result ≡ is_of_row self.now }
    {
        !matches!(self, Operand::Aggregate(_))
    }
}

impl Test {
    /// Whether it contains no aggregate, so that it can test a row of a table.
    pub fn is_of_row(&self) -> bool
        ensures { result ≡ is_row_test self.now }
    {
        match self {
            Test::Compare(left, _, right) => left.is_of_row() && right.is_of_row(),
            Test::IsNull(operand) | Test::IsNotNull(operand) => operand.is_of_row(),
        }
    }
}
