//! Groups that leave a map one by one.
ghost use Rattle.std.specs.Prelude.{◌≡◌, ◌==◌, ◌<◌, ◌++◌, ◌∷◌, [], false, List, length, IsTrue, OnOk, IfErr, IsErrOf};
ghost use Rattle.gq_row.specs.declared.value.Value.{Value as Cell};
ghost use Rattle.gq_group.specs.Access.{LeavesOthers, GroupCause};
ghost use Rattle.gq_group.specs.Groups.{Group};
ghost use Rattle.gq_group.specs.KeptAggs.{kept_aggs};
ghost use Rattle.gq_group.specs.Maps.{pairs_from, AreKept, Takes, Overflows};

use crate::aggs::take_values;
use crate::group_sink::GroupSink;
use crate::refusal::Refusal;
use gq_agg::{Agg, AggKind};
use gq_cells::KeysLeft;
use gq_row::Value;
use gq_spill::RunStore;
use std::alloc::AllocError;
use std::marker::Model;

// The groups of a map that are still to leave it, seen as a list, and the aggregates that are asked
// of each.
#[derive(Drop)]
pub(crate) struct Drain<'a> {
    keys: KeysLeft,
    running: Vec<Agg>,
    asked: &'a [(AggKind, usize)],
    each: usize,
    // Where the aggregates of the next group begin.
    start: usize,
}

impl<'a> Model for Drain<'a> {
    ghost use Rattle.std.specs.Prelude.{◌≡◌, ◌+◌, ◌*◌, length};
    ghost use Rattle.gq_group.specs.KeptAggs.{kept_aggs};
    ghost use Rattle.gq_group.specs.Maps.{Leaving, pairs_from};

    ghost Value = { Leaving };

    ghost view = { λ d. record { pairs = pairs_from d.each d.start d.running.items d.keys; asked = d.asked.now } };

    ghost invariant = { λ d. (d.each ≡ length (kept_aggs d.asked.now)) ×
        (length d.running.items ≡ d.start + length d.keys * d.each) };
}

impl<'a> Drain<'a> {
    // The groups of keys, whose aggregates are in the same order.
    pub(crate) fn new(
        keys: KeysLeft,
        running: Vec<Agg>,
        each: usize,
        asked: &'a [(AggKind, usize)],
    ) -> Drain<'a>
        requires kept { AreKept each running.items keys }
        requires each { each ≡ length (kept_aggs asked.now) }
        ensures pairs { result.pairs ≡ pairs_from each 0 running.items keys }
        ensures asked { result.asked ≡ asked.now }
    {
        Drain {
            keys,
            running,
            asked,
            each,
            start: 0,
        }
    }

    pub(crate) fn is_empty(&self) -> bool
        ensures { result ≡ (length self.now.pairs == 0) }
    {
        self.keys.len() == 0
    }

    // Removes the next group, and pushes it to the sink, with its aggregates written over `values`.
    #[inline(always)]
    pub(crate) fn send<S: RunStore, K: GroupSink<S>>(
        &mut self,
        values: &mut Vec<Value>,
        sink: &mut K,
        store: &mut S,
    ) -> Result<(), Refusal>
        requires some { 0 < length self.old.pairs }
        requires sink { K.is_ready sink.old (S.runs store.old) }
        ensures sent { OnOk result ((key : List Cell) × (its : List Cell) ×
            Takes key its self.old self.new × (IsTrue (S.runs store.old).honest →
            (groups : List Group) → K.holds sink.old (S.runs store.old) groups →
            K.holds sink.new (S.runs store.new) (groups ++ (key, its) ∷ []))) }
        ensures overflow { IsErrOf result Refusal.SumRange → Overflows self.old }
        ensures ready { OnOk result (K.is_ready sink.new (S.runs store.new)) }
        ensures cause { IfErr result (λ e. GroupCause e (S.runs store.old) (S.runs store.new)) }
        ensures others { LeavesOthers (K.owns sink.old) (K.owns sink.new) (S.runs store.old)
            (S.runs store.new) }
        ensures made { K.makes_runs ≡ false → (S.runs store.new).made ≡ (S.runs store.old).made }
    {
        if values.len() != self.asked.len() {
            let Ok(()) = fit(values, self.asked.len()) else {
                return Err(Refusal::Memory);
            };
        }
        let start = self.start;
        let end = start + self.each;
        let over = values.as_mut_slice();
        let Ok(()) = take_values(&mut self.running[start..end], self.asked, over) else {
            return Err(Refusal::SumRange);
        };
        self.start = end;
        sink.push_first(store, &mut self.keys, values)
    }
}

// Sets the length of a list of values, which are then unspecified.
#[cold]
fn fit(values: &mut Vec<Value>, len: usize) -> Result<(), AllocError>
    ensures { OnOk result (length values.new.items ≡ len) }
{
    values.resize_with(len, || Value::Null)
}
