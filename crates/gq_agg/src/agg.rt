//! Running aggregates.
ghost use Rattle.std.specs.Prelude.{◌≡◌, ◌^◌, ◌<◌, ◌≤◌, false, IsTrue, List, [], ◌∷◌, ◌++◌, Some, None, IfOk, OnOk, OnErr, IsOk, MatchResult};
ghost use Rattle.gq_row.specs.declared.value.Value.{Value as Cell};
ghost use Rattle.gq_row.specs.Written.{IsInPlace};
ghost use Rattle.gq_agg.specs.Aggregates.{aggregate, takes};
ghost use Rattle.gq_agg.specs.Running.{tally, kind_of, is_copied};

use crate::kind::AggKind;
use crate::state::State;
use gq_row::Value;
use std::alloc::{AllocError, Global};
use std::marker::Model;
use thiserror::Error;

/// The error that the sum of all values doesn't fit in 64 bits.
#[derive(Clone, Copy, Debug, PartialEq, Eq, Error)]
#[error("the sum is out of range")]
pub struct SumRange;

/// A running aggregate of the values that were added so far.
#[derive(Drop)]
pub struct Agg {
    alloc: Global,
    adds: u64,
    state: State,
}

impl Model for Agg {
    ghost use Rattle.std.specs.Prelude.{◌≤◌, ◌^◌};
    ghost use Rattle.gq_agg.specs.Running.{Running, IsBounded};

    ghost Value = { Running };

    ghost view = { λ a. record { adds = a.adds; state = a.state } };

    ghost invariant = { λ a. (a.adds ≤ 2 ^ 32) × IsBounded a.adds a.state };
}

impl Agg {
    /// An aggregate of no values. It takes no memory.
    pub fn start(alloc: Global, kind: AggKind) -> Agg
        ensures { result ≡ tally kind [] }
    {
        let state = match kind {
            AggKind::CountAll => State::Rows,
            AggKind::Count => State::Values(0),
            AggKind::Sum => State::Total(None),
            AggKind::Min => State::Least(Value::Null),
            AggKind::Max => State::Greatest(Value::Null),
        };
        Agg {
            alloc,
            adds: 0,
            state,
        }
    }

    /// An aggregate of one value. It allocates only for the minimum or maximum that is a text longer than 22
    /// bytes.
    #[inline(always)]
    pub fn of(alloc: Global, kind: AggKind, value: &Value) -> Result<Agg, AllocError>
        requires { IsTrue (takes kind value.now) }
        ensures added { IfOk result (λ agg. agg ≡ tally kind (value.now ∷ [])) }
        ensures in_place { IsInPlace value.now → IsOk result }
    {
        Ok(Agg {
            alloc,
            adds: 1,
            state: State::of(alloc, kind, value)?,
        })
    }

    /// How many values were added, with nulls.
    #[inline]
    pub fn adds(&self) -> u64
        ensures is { result ≡ self.now.adds }
        ensures few { result ≤ 2 ^ 32 }
    {
        self.adds
    }

    /// The kind of aggregate.
    #[inline]
    pub fn kind(&self) -> AggKind
        ensures { result ≡ kind_of self.now.state }
    {
        match &self.state {
            State::Rows => AggKind::CountAll,
            State::Values(_) => AggKind::Count,
            State::Total(_) => AggKind::Sum,
            State::Least(_) => AggKind::Min,
            State::Greatest(_) => AggKind::Max,
        }
    }

    /// Adds a value. It allocates only if a text becomes the minimum or maximum. On error the aggregate doesn't
    /// change.
    #[inline(always)]
    pub fn add(&mut self, value: &Value) -> Result<(), AllocError>
        requires few { self.old.adds < 2 ^ 32 }
        requires fits { IsTrue (takes (kind_of self.old.state) value.now) }
        ensures added { OnOk result ((kind : _) (values : List Cell) →
            self.old ≡ tally kind values → self.new ≡ tally kind (values ++ value.now ∷ [])) }
        ensures unchanged { OnErr result (self.new ≡ self.old) }
        ensures memory { is_copied self.old.state value.now ≡ false → IsOk result }
    {
        self.state.take_in(self.alloc, self.adds, value)?;
        self.adds += 1;
        Ok(())
    }

    /// The aggregate of the values that were added, or `SumRange` if it is a sum that doesn't fit in 64 bits.
    pub fn finish(self) -> Result<Value, SumRange>
        ensures { (kind : _) (values : List Cell) → self ≡ tally kind values →
            MatchResult result (λ v. aggregate kind values ≡ Some v)
            (λ _. aggregate kind values ≡ None) }
    {
        let mut agg = self;
        let mut value = Value::Null;
        agg.take_to(&mut value)?;
        Ok(value)
    }

    /// As [`Agg::finish`], in place: overwrites `over`, unless the sum is out of range. The aggregate keeps its
    /// kind and its number of values only.
    #[inline(always)]
    pub fn take_to(&mut self, over: &mut Value) -> Result<(), SumRange>
        ensures value { (kind : _) (values : List Cell) → self.old ≡ tally kind values →
            MatchResult result (λ _. aggregate kind values ≡ Some over.new)
            (λ _. aggregate kind values ≡ None) }
        ensures unchanged { OnErr result (over.new ≡ over.old) }
        ensures adds { self.new.adds ≡ self.old.adds }
        ensures kind { kind_of self.new.state ≡ kind_of self.old.state }
    {
        self.state.move_to(self.adds, over)
    }
}
