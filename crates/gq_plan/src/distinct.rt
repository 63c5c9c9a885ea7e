//! The plan of a `distinct`. Each name is looked up once.
ghost use Rattle.std.specs.Prelude.{◌≡◌, ◌⊎◌, ◌<◌, All, length, Ok, Err, IfOk, IfErr};
ghost use Rattle.gq_reply.specs.Refusals.{unnumbered};
ghost use Rattle.gq_reply.specs.declared.refusal.Refusal.TheVariants.{Memory};
ghost use Rattle.gq_plan.specs.Plans.{distinct_named, distinct_plan};

use crate::found::or_no_column;
use crate::kinds::{kinds_of, tests_fit};
use crate::places::{Scope, place_tests};
use crate::plan::DistinctPlan;
use gq_clause::Test;
use gq_reply::{Refusal, Refused};
use gq_row::{Schema, Text, find_positions};
use gq_select::Condition;
use std::alloc::Global;

/// The plan of a `distinct` on a table of this schema. Fails with `Memory`, with `NoColumn` if a
/// name isn't a column's, else with `TypeMismatch` if a number is compared with a text.
pub fn plan_distinct(
    alloc: Global,
    schema: &Schema,
    on: &[Text],
    tests: &[Test],
) -> Result<DistinctPlan, Refused>
    ensures planned { IfOk result (λ plan.
        distinct_plan schema.now.columns on.now tests.now ≡ Ok plan) }
    ensures refused { IfErr result (λ why. (why ≡ unnumbered Memory)
        ⊎ (distinct_plan schema.now.columns on.now tests.now ≡ Err why)) }
    ensures within { IfOk result (λ plan.
        All (λ column. column < length schema.now.columns) plan.on) }
    ensures each { IfOk result (λ plan. length plan.on ≡ length on.now) }
{
    let plan = find_distinct(alloc, schema, on, tests)?;
    let kinds = kinds_of(alloc, schema.columns())?;
    if !tests_fit(kinds.as_slice(), plan.condition.tests.as_slice()) {
        return Err(Refused::from(Refusal::TypeMismatch));
    }
    Ok(plan)
}

// Looks up the positions of its names.
fn find_distinct(
    alloc: Global,
    schema: &Schema,
    on: &[Text],
    tests: &[Test],
) -> Result<DistinctPlan, Refused>
    ensures planned { IfOk result (λ plan.
        distinct_named schema.now.columns on.now tests.now ≡ Ok plan) }
    ensures refused { IfErr result (λ why. (why ≡ unnumbered Memory)
        ⊎ (distinct_named schema.now.columns on.now tests.now ≡ Err why)) }
    ensures within { IfOk result (λ plan.
        All (λ column. column < length schema.now.columns) plan.on) }
    ensures each { IfOk result (λ plan. length plan.on ≡ length on.now) }
{
    let on = or_no_column(find_positions(alloc, schema.columns(), on))?;
    let tests = or_no_column(place_tests(alloc, &Scope::Rows(schema), tests))?;
    Ok(DistinctPlan {
        on,
        condition: Condition { tests },
    })
}
