//! The plan of a `group`. Each name is looked up once.
//!
//! `NoColumn` means that a name isn't a column's, or after `having` neither a `by` column's nor a
//! shown aggregate. Otherwise `TypeMismatch` means that texts are summed, a number is compared with
//! a text, or the columns of an `exists` have different kinds.
ghost use Rattle.std.specs.Prelude.{◌≡◌, ◌⊎◌, ◌<◌, All, length, Ok, Err, IfOk, IfErr};
ghost use Rattle.gq_reply.specs.Refusals.{unnumbered};
ghost use Rattle.gq_reply.specs.declared.refusal.Refusal.TheVariants.{Memory};
ghost use Rattle.gq_select.specs.Asking.{CanMatch};
ghost use Rattle.gq_plan.specs.Plans.{IsWithin, group_fits, group_named, group_plan};

use crate::clauses::GroupClauses;
use crate::found::or_no_column;
use crate::kinds::{are_valid_for, kinds_of, matching_fits, result_kinds, tests_fit};
use crate::matching::find_matching;
use crate::places::{Scope, place_tests};
use crate::plan::GroupPlan;
use crate::shown::find_shown;
use gq_reply::{Refusal, Refused};
use gq_row::{Column, Schema, find_positions};
use gq_select::Condition;
use std::alloc::{AllocError, Global};

/// The plan of a `group` on a table of this schema, where `others` are the columns of the table of
/// its `exists`, if any. Fails with `NoColumn`, `TypeMismatch` or `Memory`.
pub fn plan_group(
    alloc: Global,
    schema: &Schema,
    others: &[Column],
    clauses: &GroupClauses,
) -> Result<GroupPlan, Refused>
    ensures planned { IfOk result (λ plan.
        group_plan schema.now.columns others.now clauses.now ≡ Ok plan) }
    ensures refused { IfErr result (λ why. (why ≡ unnumbered Memory)
        ⊎ (group_plan schema.now.columns others.now clauses.now ≡ Err why)) }
    ensures within { IfOk result (IsWithin schema.now.columns others.now) }
{
    let plan = find_group(alloc, schema, others, clauses)?;
    if !fits_group(alloc, schema.columns(), others, &plan)? {
        return Err(Refused::from(Refusal::TypeMismatch));
    }
    Ok(plan)
}

// Looks up the positions of its names.
fn find_group(
    alloc: Global,
    schema: &Schema,
    others: &[Column],
    clauses: &GroupClauses,
) -> Result<GroupPlan, Refused>
    ensures planned { IfOk result (λ plan.
        group_named schema.now.columns others.now clauses.now ≡ Ok plan) }
    ensures refused { IfErr result (λ why. (why ≡ unnumbered Memory)
        ⊎ (group_named schema.now.columns others.now clauses.now ≡ Err why)) }
    ensures by { IfOk result (λ plan.
        All (λ column. column < length schema.now.columns) plan.by) }
    ensures matching { IfOk result (λ plan.
        CanMatch schema.now.columns others.now plan.matching) }
{
    let columns = schema.columns();
    let rows = Scope::Rows(schema);
    let groups = Scope::Groups(clauses.by.columns.as_slice(), clauses.shown.as_slice());
    let by = or_no_column(find_positions(alloc, columns, clauses.by.columns.as_slice()))?;
    let shown = or_no_column(find_shown(alloc, schema, clauses.shown.as_slice()))?;
    let tests = or_no_column(place_tests(alloc, &rows, clauses.tests.as_slice()))?;
    let matching = find_matching(alloc, columns, others, &clauses.exists)?;
    let having = or_no_column(place_tests(alloc, &groups, clauses.having.as_slice()))?;
    Ok(GroupPlan {
        by,
        rollup: clauses.by.rollup,
        shown,
        condition: Condition { tests },
        matching,
        having: Condition { tests: having },
    })
}

// Whether the kinds are compatible.
fn fits_group(
    alloc: Global,
    columns: &[Column],
    others: &[Column],
    plan: &GroupPlan,
) -> Result<bool, AllocError>
    ensures { IfOk result (λ fits. fits ≡ group_fits columns.now others.now plan.now) }
{
    let (by, shown) = (plan.by.as_slice(), plan.shown.as_slice());
    let of_rows = kinds_of(alloc, columns)?;
    let of_groups = result_kinds(alloc, columns, by, shown)?;
    let fits = are_valid_for(columns, shown)
        && tests_fit(of_rows.as_slice(), plan.condition.tests.as_slice())
        && matching_fits(columns, others, &plan.matching)
        && tests_fit(of_groups.as_slice(), plan.having.tests.as_slice());
    Ok(fits)
}
