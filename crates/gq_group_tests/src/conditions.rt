//! Conditions on rows.
use gq_row::{Comparison, Row, Sequence, Text, Value};
use gq_select::{Condition, Operand, Test, Truth, filter, having, holds};
use std::alloc::{AllocError, Global};
use std::process::Abort;
use std::test::Fail;

/// A side of a comparison.
#[derive(Clone, Copy)]
enum Side<'a> {
    Column(usize),
    Number(i64),
    Word(&'a str),
    Spelling(&'a str),
    Null,
}

fn text(alloc: Global, chars: &str) -> Result<Value, AllocError> {
    Ok(Value::Text(Text::of(alloc, chars)?))
}

fn operand(alloc: Global, side: Side) -> Result<Operand, AllocError> {
    match side {
        Side::Column(column) => Ok(Operand::Column(column)),
        Side::Number(n) => Ok(Operand::Literal(Value::Int(n))),
        Side::Word(chars) => Ok(Operand::Literal(text(alloc, chars)?)),
        Side::Spelling(chars) => Ok(Operand::Literal(text(alloc, chars)?.without_case())),
        Side::Null => Ok(Operand::Literal(Value::Null)),
    }
}

/// The row (5, null, 'b').
fn worked_row(alloc: Global) -> Result<Row, AllocError> {
    Ok(Row::new(vec![in alloc; Value::Int(5), Value::Null, text(alloc, "b")?]?))
}

fn one(alloc: Global, test: Test) -> Result<Condition, AllocError> {
    Ok(Condition {
        tests: Sequence::new(vec![in alloc; test]?),
    })
}

type Case<'a> = (Side<'a>, Comparison, Side<'a>, Truth);

fn compared(
    alloc: Global,
    left: Side,
    comparison: Comparison,
    right: Side,
) -> Result<Condition, AllocError> {
    let left = operand(alloc, left)?;
    let right = operand(alloc, right)?;
    one(alloc, Test::Compare(left, comparison, right))
}

fn expect_truth(rt: &impl Abort, condition: &Condition, row: &Row, due: Truth) {
    assert_eq!(rt; holds(condition, row.cells()), due);
    assert_eq!(rt; filter(condition, row.cells()), due == Truth::True);
    assert_eq!(rt; having(condition, row.cells()), due == Truth::True);
}

/// Expects the truth of each comparison in a row.
fn expect_each(rt: &impl Abort, alloc: Global, row: &Row, cases: &[Case]) -> Result<(), Fail> {
    for (left, comparison, right, due) in cases {
        let condition = compared(alloc, *left, *comparison, *right)?;
        expect_truth(rt, &condition, row, *due);
    }
    Ok(())
}

const COMPARISONS: [Case; 15] = [
    (
        Side::Column(0),
        Comparison::Equal,
        Side::Number(5),
        Truth::True,
    ),
    (
        Side::Column(0),
        Comparison::NotEqual,
        Side::Number(5),
        Truth::False,
    ),
    (
        Side::Column(0),
        Comparison::Less,
        Side::Number(5),
        Truth::False,
    ),
    (
        Side::Column(0),
        Comparison::LessEqual,
        Side::Number(5),
        Truth::True,
    ),
    (
        Side::Column(0),
        Comparison::Greater,
        Side::Number(5),
        Truth::False,
    ),
    (
        Side::Column(0),
        Comparison::GreaterEqual,
        Side::Number(5),
        Truth::True,
    ),
    (
        Side::Number(-6),
        Comparison::Less,
        Side::Column(0),
        Truth::True,
    ),
    (
        Side::Column(2),
        Comparison::Greater,
        Side::Word("a"),
        Truth::True,
    ),
    (
        Side::Column(2),
        Comparison::Equal,
        Side::Word("B"),
        Truth::False,
    ),
    (
        Side::Column(0),
        Comparison::Less,
        Side::Word(""),
        Truth::True,
    ),
    (
        Side::Column(1),
        Comparison::Equal,
        Side::Column(1),
        Truth::Unknown,
    ),
    (
        Side::Column(1),
        Comparison::NotEqual,
        Side::Number(5),
        Truth::Unknown,
    ),
    (
        Side::Number(5),
        Comparison::GreaterEqual,
        Side::Null,
        Truth::Unknown,
    ),
    (Side::Null, Comparison::Equal, Side::Null, Truth::Unknown),
    (
        Side::Column(9),
        Comparison::Equal,
        Side::Number(5),
        Truth::Unknown,
    ),
];

#[test]
fn comparisons(rt: HostRuntime) -> Result<(), Fail> {
    let row = worked_row(rt.alloc())?;
    expect_each(&rt, rt.alloc(), &row, &COMPARISONS)
}

const WITHOUT_CASE: [Case; 9] = [
    (
        Side::Column(2),
        Comparison::Equal,
        Side::Spelling("B"),
        Truth::True,
    ),
    (
        Side::Column(2),
        Comparison::Less,
        Side::Spelling("C"),
        Truth::True,
    ),
    (
        Side::Column(2),
        Comparison::Greater,
        Side::Spelling("_"),
        Truth::True,
    ),
    (
        Side::Word("B"),
        Comparison::Greater,
        Side::Spelling("_"),
        Truth::True,
    ),
    (
        Side::Word("B"),
        Comparison::NotEqual,
        Side::Spelling("b"),
        Truth::False,
    ),
    (
        Side::Spelling("OSLO"),
        Comparison::Equal,
        Side::Spelling("Oslo"),
        Truth::True,
    ),
    (
        Side::Spelling("OSLO"),
        Comparison::Less,
        Side::Spelling("Oslo"),
        Truth::False,
    ),
    (
        Side::Spelling("oslo"),
        Comparison::LessEqual,
        Side::Spelling("Rome"),
        Truth::True,
    ),
    (
        Side::Spelling("\u{c9}"),
        Comparison::Equal,
        Side::Spelling("\u{e9}"),
        Truth::False,
    ),
];

/// In the row (5, null, 'b'): a text compared with one without case is compared as one.
#[test]
fn comparisons_without_case(rt: HostRuntime) -> Result<(), Fail> {
    let row = worked_row(rt.alloc())?;
    expect_each(&rt, rt.alloc(), &row, &WITHOUT_CASE)
}

fn expect_null(
    rt: &impl Abort,
    alloc: Global,
    row: &Row,
    side: Side,
    null: Truth,
) -> Result<(), Fail> {
    let is_null = one(alloc, Test::IsNull(operand(alloc, side)?))?;
    let is_not_null = one(alloc, Test::IsNotNull(operand(alloc, side)?))?;
    let (there, gone) = (
        holds(&is_null, row.cells()),
        holds(&is_not_null, row.cells()),
    );
    assert_eq!(rt; there, null);
    assert!(rt; there != gone);
    assert!(rt; filter(&is_null, row.cells()) != filter(&is_not_null, row.cells()));
    Ok(())
}

#[test]
fn null_or_not(rt: HostRuntime) -> Result<(), Fail> {
    let row = worked_row(rt.alloc())?;
    expect_null(&rt, rt.alloc(), &row, Side::Column(0), Truth::False)?;
    expect_null(&rt, rt.alloc(), &row, Side::Column(1), Truth::True)?;
    expect_null(&rt, rt.alloc(), &row, Side::Column(2), Truth::False)?;
    expect_null(&rt, rt.alloc(), &row, Side::Number(2), Truth::False)?;
    expect_null(&rt, rt.alloc(), &row, Side::Null, Truth::True)
}

/// A test with this truth in each row.
fn always(truth: Truth) -> Test {
    let one = Operand::Literal(Value::Int(1));
    match truth {
        Truth::True => Test::Compare(one, Comparison::Equal, Operand::Literal(Value::Int(1))),
        Truth::False => Test::Compare(one, Comparison::Equal, Operand::Literal(Value::Int(2))),
        Truth::Unknown => Test::Compare(one, Comparison::Equal, Operand::Literal(Value::Null)),
    }
}

const AND: [(Truth, Truth, Truth); 9] = [
    (Truth::True, Truth::True, Truth::True),
    (Truth::True, Truth::Unknown, Truth::Unknown),
    (Truth::True, Truth::False, Truth::False),
    (Truth::Unknown, Truth::True, Truth::Unknown),
    (Truth::Unknown, Truth::Unknown, Truth::Unknown),
    (Truth::Unknown, Truth::False, Truth::False),
    (Truth::False, Truth::True, Truth::False),
    (Truth::False, Truth::Unknown, Truth::False),
    (Truth::False, Truth::False, Truth::False),
];

fn expect_and(
    rt: &impl Abort,
    alloc: Global,
    row: &Row,
    cases: &[(Truth, Truth, Truth)],
) -> Result<(), Fail> {
    for (first, second, due) in cases {
        let tests = vec![in alloc; always(*first), always(*second)]?;
        let condition = Condition {
            tests: Sequence::new(tests),
        };
        expect_truth(rt, &condition, row, *due);
    }
    Ok(())
}

#[test]
fn the_table_of_and(rt: HostRuntime) -> Result<(), Fail> {
    let row = worked_row(rt.alloc())?;
    let none = Condition {
        tests: Sequence::new(Vec::new(rt.alloc())),
    };
    assert_eq!(rt; holds(&none, row.cells()), Truth::True);
    expect_and(&rt, rt.alloc(), &row, &AND)
}
