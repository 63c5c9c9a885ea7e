//! Parses tokens as clauses: one function for each rule of the grammar. Each takes the tokens that
//! it reads.
ghost use Rattle.std.specs.Prelude.{◌∷◌, List};
ghost use Rattle.gq_token.specs.Results.{Gives};
ghost use Rattle.gq_token.specs.Queue.{skip};
ghost use Rattle.gq_token.specs.declared.token.Token.{Token as Item};
ghost use Rattle.gq_token.specs.declared.token.Token.TheVariants.{Fixed};
ghost use Rattle.gq_clause.specs.Reading.{name_at, literal_at, names_at, literals_at, in_parentheses, clause_at, counted_at, aggregate_within, aggregate_after, aggregate_at, aggregates_at, operand_at, comparison_at, right_at, null_test_after, test_at, tests_at};

use crate::aggregate::Aggregate;
use crate::condition::{Operand, Test};
use gq_row::{Comparison, Text, Value};
use gq_token::{ParseError, Terminal, Token, Tokens};
use std::alloc::Global;

/// Takes this word or sign, which must be the first token.
pub fn expect(tokens: &mut Tokens, terminal: Terminal) -> Result<(), ParseError>
    ensures { Gives (λ _. tokens.new) result (skip terminal tokens.old) }
{
    if tokens.skip(terminal) {
        Ok(())
    } else {
        Err(ParseError::Syntax)
    }
}

/// A name, by its bytes.
#[tactic(auto, unfolding(crate::specs::Reading::name_at))]
pub fn name_of(tokens: &mut Tokens) -> Result<Text, ParseError>
    ensures { Gives (λ name. (name, tokens.new)) result (name_at tokens.old) }
{
    match tokens.take() {
        Some(Token::Name(name)) => Ok(name),
        _ => Err(ParseError::Syntax),
    }
}

#[tactic(auto, unfolding(crate::specs::Reading::literal_at))]
fn literal_of(tokens: &mut Tokens) -> Result<Value, ParseError>
    ensures { Gives (λ value. (value, tokens.new)) result (literal_at tokens.old) }
{
    match tokens.take() {
        Some(Token::Fixed(Terminal::Null)) => Ok(Value::Null),
        Some(Token::Number(number)) => Ok(Value::Int(number)),
        Some(Token::Text(text)) => Ok(Value::Text(text)),
        _ => Err(ParseError::Syntax),
    }
}

/// One name or more, with commas between them.
pub fn names_of(alloc: Global, tokens: &mut Tokens) -> Result<Vec<Text>, ParseError>
    ensures { Gives (λ names. (names.items, tokens.new)) result (names_at tokens.old) }
{
    let mut names = Vec::new(alloc);
    for _ in 0..tokens.len() {
        let name = name_of(tokens)?;
        names.push(name)?;
        if !tokens.skip(Terminal::Comma) {
            return Ok(names);
        }
    }
    Err(ParseError::Syntax)
}

fn literals_of(alloc: Global, tokens: &mut Tokens) -> Result<Vec<Value>, ParseError>
    ensures { Gives (λ values. (values.items, tokens.new)) result (literals_at tokens.old) }
{
    let mut values = Vec::new(alloc);
    for _ in 0..tokens.len() {
        let value = literal_of(tokens)?;
        values.push(value)?;
        if !tokens.skip(Terminal::Comma) {
            return Ok(values);
        }
    }
    Err(ParseError::Syntax)
}

/// Names in parentheses.
#[tactic(auto, unfolding(crate::specs::Reading::in_parentheses))]
pub fn enclosed_names(alloc: Global, tokens: &mut Tokens) -> Result<Vec<Text>, ParseError>
    ensures { Gives (λ names. (names.items, tokens.new)) result (in_parentheses names_at tokens.old) }
{
    expect(tokens, Terminal::Open)?;
    let names = names_of(alloc, tokens)?;
    expect(tokens, Terminal::Close)?;
    Ok(names)
}

/// Literals in parentheses.
#[tactic(auto, unfolding(crate::specs::Reading::in_parentheses))]
pub fn enclosed_literals(alloc: Global, tokens: &mut Tokens) -> Result<Vec<Value>, ParseError>
    ensures { Gives (λ values. (values.items, tokens.new)) result (in_parentheses literals_at tokens.old) }
{
    expect(tokens, Terminal::Open)?;
    let values = literals_of(alloc, tokens)?;
    expect(tokens, Terminal::Close)?;
    Ok(values)
}

/// What is in the parentheses after `count`.
#[tactic(auto, unfolding(crate::specs::Reading::counted_at))]
fn counted_of(tokens: &mut Tokens) -> Result<Aggregate, ParseError>
    ensures { Gives (λ aggregate. (aggregate, tokens.new)) result (counted_at tokens.old) }
{
    match tokens.take() {
        Some(Token::Fixed(Terminal::Star)) => Ok(Aggregate::CountAll),
        Some(Token::Fixed(Terminal::Distinct)) => Ok(Aggregate::CountDistinct(name_of(tokens)?)),
        Some(Token::Name(column)) => Ok(Aggregate::Count(column)),
        _ => Err(ParseError::Syntax),
    }
}

/// What is in the parentheses after the word of an aggregate.
#[tactic(auto, unfolding(crate::specs::Reading::aggregate_within))]
fn aggregate_within(word: Terminal, tokens: &mut Tokens) -> Result<Aggregate, ParseError>
    ensures { Gives (λ aggregate. (aggregate, tokens.new)) result (aggregate_within word tokens.old) }
{
    match word {
        Terminal::Count => counted_of(tokens),
        Terminal::Sum => Ok(Aggregate::Sum(name_of(tokens)?)),
        Terminal::Min => Ok(Aggregate::Min(name_of(tokens)?)),
        Terminal::Max => Ok(Aggregate::Max(name_of(tokens)?)),
        _ => Err(ParseError::Syntax),
    }
}

/// The aggregate that begins with this word, given the tokens after it.
#[tactic(auto, unfolding(crate::specs::Reading::aggregate_after, crate::specs::Reading::in_parentheses))]
fn aggregate_after(word: Terminal, tokens: &mut Tokens) -> Result<Aggregate, ParseError>
    ensures { Gives (λ aggregate. (aggregate, tokens.new)) result (aggregate_after word tokens.old) }
{
    expect(tokens, Terminal::Open)?;
    let aggregate = aggregate_within(word, tokens)?;
    expect(tokens, Terminal::Close)?;
    Ok(aggregate)
}

#[tactic(auto, unfolding(crate::specs::Reading::aggregate_at))]
fn aggregate_of(tokens: &mut Tokens) -> Result<Aggregate, ParseError>
    ensures { Gives (λ aggregate. (aggregate, tokens.new)) result (aggregate_at tokens.old) }
{
    match tokens.take() {
        Some(Token::Fixed(word)) => aggregate_after(word, tokens),
        _ => Err(ParseError::Syntax),
    }
}

/// One aggregate or more, with commas between them.
pub fn aggregates_of(alloc: Global, tokens: &mut Tokens) -> Result<Vec<Aggregate>, ParseError>
    ensures { Gives (λ aggregates. (aggregates.items, tokens.new)) result (aggregates_at tokens.old) }
{
    let mut aggregates = Vec::new(alloc);
    for _ in 0..tokens.len() {
        let aggregate = aggregate_of(tokens)?;
        aggregates.push(aggregate)?;
        if !tokens.skip(Terminal::Comma) {
            return Ok(aggregates);
        }
    }
    Err(ParseError::Syntax)
}

#[tactic(auto, unfolding(crate::specs::Reading::operand_at))]
fn operand_of(tokens: &mut Tokens) -> Result<Operand, ParseError>
    ensures { Gives (λ operand. (operand, tokens.new)) result (operand_at tokens.old) }
{
    match tokens.take() {
        Some(Token::Name(column)) => Ok(Operand::Column(column)),
        Some(Token::Number(number)) => Ok(Operand::Literal(Value::Int(number))),
        Some(Token::Text(text)) => Ok(Operand::Literal(Value::Text(text))),
        Some(Token::Fixed(Terminal::Null)) => Ok(Operand::Literal(Value::Null)),
        Some(Token::Fixed(word)) => Ok(Operand::Aggregate(aggregate_after(word, tokens)?)),
        None => Err(ParseError::Syntax),
    }
}

/// The comparison of a sign.
#[tactic(auto, unfolding(crate::specs::Reading::comparison_at))]
fn comparison_by(sign: Terminal) -> Result<Comparison, ParseError>
    ensures { (rest : List Item) → Gives (λ comparison. (comparison, rest)) result (comparison_at (Fixed sign ∷ rest)) }
{
    match sign {
        Terminal::Equal => Ok(Comparison::Equal),
        Terminal::NotEqual => Ok(Comparison::NotEqual),
        Terminal::Less => Ok(Comparison::Less),
        Terminal::LessEqual => Ok(Comparison::LessEqual),
        Terminal::Greater => Ok(Comparison::Greater),
        Terminal::GreaterEqual => Ok(Comparison::GreaterEqual),
        _ => Err(ParseError::Syntax),
    }
}

#[tactic(auto, unfolding(crate::specs::Reading::comparison_at))]
fn comparison_of(tokens: &mut Tokens) -> Result<Comparison, ParseError>
    ensures { Gives (λ comparison. (comparison, tokens.new)) result (comparison_at tokens.old) }
{
    match tokens.take() {
        Some(Token::Fixed(sign)) => comparison_by(sign),
        _ => Err(ParseError::Syntax),
    }
}

/// The test that begins with this operand and `is`, given the tokens after them.
#[tactic(auto, unfolding(crate::specs::Reading::null_test_after))]
fn null_test_after(operand: Operand, tokens: &mut Tokens) -> Result<Test, ParseError>
    ensures { Gives (λ test. (test, tokens.new)) result (null_test_after operand tokens.old) }
{
    let negated = tokens.skip(Terminal::Not);
    // A single exit path, since each of them writes out the drop of the operand.
    expect(tokens, Terminal::Null)?;
    if negated {
        Ok(Test::IsNotNull(operand))
    } else {
        Ok(Test::IsNull(operand))
    }
}

/// A sign, and the operand to its right.
fn right_of(tokens: &mut Tokens) -> Result<(Comparison, Operand), ParseError>
    ensures { Gives (λ right. (right, tokens.new)) result (right_at tokens.old) }
{
    let comparison = comparison_of(tokens)?;
    let right = operand_of(tokens)?;
    Ok((comparison, right))
}

#[tactic(auto, unfolding(crate::specs::Reading::test_at))]
fn test_of(tokens: &mut Tokens) -> Result<Test, ParseError>
    ensures { Gives (λ test. (test, tokens.new)) result (test_at tokens.old) }
{
    let left = operand_of(tokens)?;
    if tokens.skip(Terminal::Is) {
        return null_test_after(left, tokens);
    }
    let (comparison, right) = right_of(tokens)?;
    Ok(Test::Compare(left, comparison, right))
}

fn tests_of(alloc: Global, tokens: &mut Tokens) -> Result<Vec<Test>, ParseError>
    ensures { Gives (λ tests. (tests.items, tokens.new)) result (tests_at tokens.old) }
{
    let mut tests = Vec::new(alloc);
    for _ in 0..tokens.len() {
        let test = test_of(tokens)?;
        tests.push(test)?;
        if !tokens.skip(Terminal::And) {
            return Ok(tests);
        }
    }
    Err(ParseError::Syntax)
}

/// The tests after this word, or none if it doesn't come first.
#[tactic(auto, unfolding(crate::specs::Reading::clause_at))]
pub fn tests_after(
    alloc: Global,
    starter: Terminal,
    tokens: &mut Tokens,
) -> Result<Vec<Test>, ParseError>
    ensures { Gives (λ tests. (tests.items, tokens.new)) result (clause_at starter tests_at tokens.old) }
{
    if !tokens.skip(starter) {
        return Ok(Vec::new(alloc));
    }
    tests_of(alloc, tokens)
}

/// The names after this word, or none if it doesn't come first.
#[tactic(auto, unfolding(crate::specs::Reading::clause_at))]
pub fn names_after(
    alloc: Global,
    starter: Terminal,
    tokens: &mut Tokens,
) -> Result<Vec<Text>, ParseError>
    ensures { Gives (λ names. (names.items, tokens.new)) result (clause_at starter names_at tokens.old) }
{
    if !tokens.skip(starter) {
        return Ok(Vec::new(alloc));
    }
    names_of(alloc, tokens)
}
