//! What an aggregate keeps of its values.
ghost use Rattle.std.specs.Prelude.{◌≡◌, ◌+◌, ◌-◌, ◌^◌, ◌<◌, ◌+ℤ◌, ◌≤ℤ◌, ◌&&◌, ◌∷◌, [], None, pos, negsuc, false, IsTrue, IfOk, OnOk, OnErr, IsOk};
ghost use Rattle.gq_agg.specs.Aggregates.{is_text};
ghost use Rattle.gq_agg.specs.Running.{counted, plus, sum_or_zero};
ghost use Rattle.gq_agg.specs.Values.{number, is_less, is_greater, lesser, greater};

use crate::agg::SumRange;
use crate::kind::AggKind;
use crate::sum::Sum;
use gq_row::{Value, compare};
use std::alloc::{AllocError, Global};
use std::cmp::Ordering;
use std::mem::replace;

/// What is kept of the values that were added, by the kind of aggregate.
#[derive(Drop)]
pub enum State {
    /// Nothing: the number of values is known.
    Rows,
    /// How many aren't null.
    Values(u64),
    /// The sum, once one of them isn't null.
    Total(Option<Sum>),
    /// The minimum, or null.
    Least(Value),
    /// The maximum, or null.
    Greatest(Value),
}

impl State {
    ghost use Rattle.std.specs.Prelude.{◌<◌, ◌≤◌, List, Some, None, length, MatchResult};
    ghost use Rattle.gq_row.specs.declared.value.Value.{Value as Cell};
    ghost use Rattle.gq_row.specs.Written.{IsInPlace};
    ghost use Rattle.gq_agg.specs.Aggregates.{aggregate, takes};
    ghost use Rattle.gq_agg.specs.declared.kind.AggKind.{AggKind as Kind};
    ghost use Rattle.gq_agg.specs.Running.{IsBounded, kept, kind_of, is_copied, with_value};

    // What is kept of one value.
    #[inline(always)]
    pub(crate) fn of(alloc: Global, kind: AggKind, value: &Value) -> Result<State, AllocError>
        requires { IsTrue (takes kind value.now) }
        ensures kept { IfOk result (λ state. state ≡ kept kind (value.now ∷ [])) }
        ensures bounded { IfOk result (IsBounded 1) }
        ensures in_place { IsInPlace value.now → IsOk result }
    {
        Ok(match kind {
            AggKind::CountAll => State::Rows,
            AggKind::Count => State::Values(if value.is_null() { 0 } else { 1 }),
            AggKind::Sum => State::Total(sum_of(value)),
            AggKind::Min => State::Least(value.copy(alloc)?),
            AggKind::Max => State::Greatest(value.copy(alloc)?),
        })
    }

    // Adds a value, after `adds` others.
    #[inline(always)]
    pub(crate) fn take_in(
        &mut self,
        alloc: Global,
        adds: u64,
        value: &Value,
    ) -> Result<(), AllocError>
        requires few { adds < 2 ^ 32 }
        requires bounded { IsBounded adds self.old }
        requires fits { IsTrue (takes (kind_of self.old) value.now) }
        ensures ok { OnOk result (self.new ≡ with_value self.old value.now) }
        ensures bounded { OnOk result (IsBounded (adds + 1) self.new) }
        ensures err { OnErr result (self.new ≡ self.old) }
        ensures memory { is_copied self.old value.now ≡ false → IsOk result }
    {
        let _ = adds;
        match self {
            State::Rows => Ok(()),
            State::Values(count) => {
                count_value(count, value);
                Ok(())
            }
            State::Total(sum) => {
                sum_value(sum, value);
                Ok(())
            }
            State::Least(least) => keep_less(alloc, least, value),
            State::Greatest(greatest) => keep_greater(alloc, greatest, value),
        }
    }

    // Overwrites `over` with the aggregate of the `adds` values. A minimum or maximum moves out, and leaves
    // null.
    #[inline(always)]
    pub(crate) fn move_to(&mut self, adds: u64, over: &mut Value) -> Result<(), SumRange>
        requires few { adds ≤ 2 ^ 32 }
        requires bounded { IsBounded adds self.old }
        ensures value { (kind : Kind) (values : List Cell) → adds ≡ length values →
            self.old ≡ kept kind values →
            MatchResult result (λ _. aggregate kind values ≡ Some over.new)
            (λ _. aggregate kind values ≡ None) }
        ensures unchanged { OnErr result (over.new ≡ over.old) }
        ensures bounded { IsBounded adds self.new }
        ensures kind { kind_of self.new ≡ kind_of self.old }
    {
        match self {
            State::Rows => over.write_number(adds as i64),
            State::Values(count) => over.write_number(*count as i64),
            State::Total(None) => *over = Value::Null,
            State::Total(Some(sum)) => {
                let sum = sum.to_i128();
                if sum < i64::MIN as i128 || sum > i64::MAX as i128 {
                    return Err(SumRange);
                }
                over.write_number(sum as i64);
            }
            State::Least(least) => *over = replace(least, Value::Null),
            State::Greatest(greatest) => *over = replace(greatest, Value::Null),
        }
        Ok(())
    }
}

// Counts a value, unless it is null.
#[inline]
pub(crate) fn count_value(count: &mut u64, value: &Value)
    requires { count.old < 2 ^ 32 }
    ensures { count.new ≡ counted count.old value.now }
{
    if !value.is_null() {
        *count += 1;
    }
}

// Adds a value to a sum, unless it is null.
#[inline]
pub(crate) fn sum_value(sum: &mut Option<Sum>, value: &Value)
    requires low { pos 0 ≤ℤ (sum_or_zero sum.old +ℤ pos (2 ^ 96)) }
    requires high { sum_or_zero sum.old ≤ℤ pos (2 ^ 96) }
    requires fits { is_text value.now ≡ false }
    ensures sum { sum.new ≡ plus sum.old value.now }
    ensures low { negsuc (2 ^ 63 - 1) ≤ℤ number value.now }
    ensures high { number value.now ≤ℤ pos (2 ^ 63 - 1) }
{
    match value {
        Value::Int(n) => sum.get_or_insert(Sum::zero()).add(*n),
        Value::Null | Value::Text(_) | Value::NoCase(_) => {}
    }
}

// The sum of one value, unless it is null.
#[inline(always)]
fn sum_of(value: &Value) -> Option<Sum>
    requires { is_text value.now ≡ false }
    ensures sum { result ≡ plus None value.now }
    ensures low { negsuc (2 ^ 63 - 1) ≤ℤ number value.now }
    ensures high { number value.now ≤ℤ pos (2 ^ 63 - 1) }
{
    let mut sum = None;
    sum_value(&mut sum, value);
    sum
}

// Keeps the smaller of two values.
#[inline]
pub(crate) fn keep_less(alloc: Global, least: &mut Value, value: &Value) -> Result<(), AllocError>
    ensures ok { OnOk result (least.new ≡ lesser least.old value.now) }
    ensures err { OnErr result (least.new ≡ least.old) }
    ensures memory { (is_text value.now && is_less least.old value.now) ≡ false → IsOk result }
{
    if let (Value::Int(n), Value::Int(least)) = (value, &mut *least) {
        if *n < *least {
            *least = *n;
        }
        return Ok(());
    }
    if !value.is_null() && (least.is_null() || compare(value, least) == Ordering::Less) {
        return keep(alloc, least, value);
    }
    Ok(())
}

// Keeps the larger of two values.
#[inline]
pub(crate) fn keep_greater(
    alloc: Global,
    greatest: &mut Value,
    value: &Value,
) -> Result<(), AllocError>
    ensures ok { OnOk result (greatest.new ≡ greater greatest.old value.now) }
    ensures err { OnErr result (greatest.new ≡ greatest.old) }
    ensures memory { (is_text value.now && is_greater greatest.old value.now) ≡ false →
        IsOk result }
{
    if let (Value::Int(n), Value::Int(greatest)) = (value, &mut *greatest) {
        if *greatest < *n {
            *greatest = *n;
        }
        return Ok(());
    }
    if compare(greatest, value) == Ordering::Less {
        return keep(alloc, greatest, value);
    }
    Ok(())
}

// Overwrites `place` with a copy of a value. Only a text allocates.
fn keep(alloc: Global, place: &mut Value, value: &Value) -> Result<(), AllocError>
    ensures ok { OnOk result (place.new ≡ value.now) }
    ensures err { OnErr result (place.new ≡ place.old) }
    ensures memory { is_text value.now ≡ false → IsOk result }
{
    *place = match value {
        Value::Null => Value::Null,
        Value::Int(n) => Value::Int(*n),
        Value::Text(text) => Value::Text(text.copy(alloc)?),
        Value::NoCase(text) => Value::NoCase(text.copy(alloc)?),
    };
    Ok(())
}
