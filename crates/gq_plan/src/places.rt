//! The positions of operands in rows.
ghost use Rattle.std.specs.Prelude.{◌≡◌, ◌+◌, IfOk, length, option_map, position, bytes_eq};
ghost use Rattle.gq_plan.specs.Places.{all_placed, placed, same_aggregate};
ghost use Rattle.gq_plan.specs.Scopes.{place_in, name_in, aggregate_in};

use gq_clause::{Aggregate, Operand as NamedOperand, Test as NamedTest};
use gq_row::{Schema, Sequence, Text};
use gq_select::{Operand, Test};
use std::alloc::{AllocError, Global};

/// The rows that tests apply to.
#[derive(Drop)]
pub enum Scope<'a> {
    /// Rows of a table of this schema.
    Rows(&'a Schema),
    /// Result rows of groups: the values of the columns with these names, and then of these
    /// aggregates.
    Groups(&'a [Text], &'a [Aggregate]),
}

impl<'a> Scope<'a> {
    // The position of a name.
    fn find_name(&self, name: &Text) -> Option<usize>
        ensures { result ≡ name_in self.now name.now }
    {
        match self {
            Scope::Rows(schema) => schema.find(name.as_str()),
            Scope::Groups(by, _) => find_text(by, name),
        }
    }

    // The position of an aggregate.
    fn find_aggregate(&self, aggregate: &Aggregate) -> Option<usize>
        ensures { result ≡ aggregate_in self.now aggregate.now }
    {
        match self {
            Scope::Rows(_) => None,
            Scope::Groups(by, shown) => find_after(by, shown, aggregate),
        }
    }
}

fn find_text(texts: &[Text], text: &Text) -> Option<usize>
    ensures { result ≡ position (λ other. bytes_eq other text.now) texts.now }
{
    texts.iter().position(|other| other == text)
}

// The position of an aggregate after the `by` columns.
fn find_after(by: &[Text], shown: &[Aggregate], aggregate: &Aggregate) -> Option<usize>
    ensures { result ≡ option_map (λ place. length by.now + place)
        (position (λ other. same_aggregate other aggregate.now) shown.now) }
{
    let place = find_aggregate(shown, aggregate)?;
    Some(by.len() + place)
}

fn find_aggregate(shown: &[Aggregate], aggregate: &Aggregate) -> Option<usize>
    ensures { result ≡ position (λ other. same_aggregate other aggregate.now) shown.now }
{
    shown.iter().position(|other| is_same(other, aggregate))
}

fn is_same(one: &Aggregate, other: &Aggregate) -> bool
    ensures { result ≡ same_aggregate one.now other.now }
{
    match (one, other) {
        (Aggregate::CountAll, Aggregate::CountAll) => true,
        (Aggregate::Count(a), Aggregate::Count(b)) => a == b,
        (Aggregate::CountDistinct(a), Aggregate::CountDistinct(b)) => a == b,
        (Aggregate::Sum(a), Aggregate::Sum(b)) => a == b,
        (Aggregate::Min(a), Aggregate::Min(b)) => a == b,
        (Aggregate::Max(a), Aggregate::Max(b)) => a == b,
        // Each kind is named again, so that a new one can't be left out above.
        (Aggregate::CountAll | Aggregate::Count(_) | Aggregate::CountDistinct(_), _) => false,
        (Aggregate::Sum(_) | Aggregate::Min(_) | Aggregate::Max(_), _) => false,
    }
}

fn place_operand(
    alloc: Global,
    scope: &Scope<'_>,
    operand: &NamedOperand,
) -> Result<Option<Operand>, AllocError>
    ensures { IfOk result (λ place. place ≡ place_in scope.now operand.now) }
{
    match operand {
        NamedOperand::Column(name) => Ok(scope.find_name(name).map(Operand::Column)),
        NamedOperand::Literal(value) => Ok(Some(Operand::Literal(value.copy(alloc)?))),
        NamedOperand::Aggregate(aggregate) => {
            Ok(scope.find_aggregate(aggregate).map(Operand::Column))
        }
    }
}

fn place_test(
    alloc: Global,
    scope: &Scope<'_>,
    test: &NamedTest,
) -> Result<Option<Test>, AllocError>
    ensures { IfOk result (λ test_placed. test_placed ≡ placed (place_in scope.now) test.now) }
{
    match test {
        NamedTest::Compare(left, comparison, right) => {
            let Some(left) = place_operand(alloc, scope, left)? else {
                return Ok(None);
            };
            let right = place_operand(alloc, scope, right)?;
            Ok(right.map(|right| Test::Compare(left, *comparison, right)))
        }
        NamedTest::IsNull(operand) => Ok(place_operand(alloc, scope, operand)?.map(Test::IsNull)),
        NamedTest::IsNotNull(operand) => {
            Ok(place_operand(alloc, scope, operand)?.map(Test::IsNotNull))
        }
    }
}

/// The tests with the positions of their operands; `None` if an operand has no position in such
/// rows.
pub fn place_tests(
    alloc: Global,
    scope: &Scope<'_>,
    tests: &[NamedTest],
) -> Result<Option<Sequence<Test>>, AllocError>
    ensures { IfOk result (λ tests_placed. tests_placed ≡ all_placed (place_in scope.now) tests.now) }
{
    let mut all = Vec::with_capacity(alloc, tests.len())?;
    for test in tests {
        let Some(test) = place_test(alloc, scope, test)? else {
            return Ok(None);
        };
        all.push(test)?;
    }
    Ok(Some(Sequence::new(all)))
}
