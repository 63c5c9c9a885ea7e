//! Groupings over the run store, by their plans, and the refusals that come of them.
ghost use Rattle.std.specs.Prelude.{◌≡◌, ◌⊎◌, ◌+◌, ◌≤◌, ◌<◌, true, All, IsTrue, Ok, Err, IfOk, IfErr, length, option_copied};
ghost use Rattle.gq_query.specs.Selecting.{other_columns};
ghost use Rattle.gq_query.specs.Rollups.{grouping_sets};
ghost use Rattle.gq_query.specs.Work.{RisesBy};
ghost use Rattle.gq_reply.specs.declared.refusal.Refusal.TheVariants.{Memory, SumRange};
ghost use Rattle.gq_reply.specs.Refusals.{unnumbered};
ghost use Rattle.gq_reply.specs.Outcomes.{some_or};
ghost use Rattle.gq_plan.specs.Headers.{group_header};
ghost use Rattle.gq_plan.specs.Plans.{IsWithin};
ghost use Rattle.gq_engine.specs.Refusing.{group_refusal};
ghost use Rattle.gq_engine.specs.Serving.{ComesOver, GroupsOver, faults_in, rows_in, under};
ghost use Rattle.gq_engine.specs.Spending.{Rises};
ghost use Rattle.gq_engine.specs.Steps.{Asks, group as grouped, keys_planned, other_in, rows_about, rows_planned};

use crate::catalog::Catalog;
use gq_cells::Rows;
use gq_command::Exists;
use gq_group::{Budget, Spent};
use gq_plan::{DistinctPlan, GroupClauses, GroupPlan, plan_group};
use gq_query::{Grouping, Selection, distinct_rows, group_rows};
use gq_reply::{Refusal, Refused};
use gq_row::{Column, Key};
use gq_spill::RunStore;
use gq_table::Table;
use std::alloc::Global;
use sw_probe::KeyHash;

/// A `group` over the tables of a catalog, whose names aren't looked up yet.
#[derive(Drop)]
pub struct GroupRequest<'a, H: KeyHash<Key>> {
    pub catalog: &'a Catalog<H>,
    pub name: &'a str,
    pub clauses: &'a GroupClauses,
}

// What a `group` asks of the tables of a catalog.
#[derive(Drop)]
struct Asked<'a, H: KeyHash<Key>> {
    table: &'a Table<H>,
    // The table that its `exists` names, if there is one.
    others: Option<&'a Table<H>>,
    plan: GroupPlan,
}

// Looks up what a `group` names, or says why it is refused.
fn asked_of<'a, H: KeyHash<Key> + Copy>(
    alloc: Global,
    request: &GroupRequest<'a, H>,
) -> Result<Asked<'a, H>, Refused>
    ensures asks { IfOk result (λ asked. Asks request.now.catalog.now request.now.name.now
        request.now.clauses.now asked.table.now (option_copied asked.others) asked.plan) }
    ensures within { IfOk result (λ asked. IsWithin asked.table.now.schema.columns
        (other_columns (option_copied asked.others)) asked.plan) }
    ensures refused { IfErr result (λ why. (why ≡ unnumbered Memory)
        ⊎ (grouped request.now.catalog.now request.now.name.now request.now.clauses.now
        ≡ Err why)) }
{
    let (catalog, clauses) = (request.catalog, request.clauses);
    let table = catalog.get(request.name).ok_or(Refusal::NoTable)?;
    let others = other_table(catalog, &clauses.exists)?;
    let plan = plan_group(alloc, table.schema(), columns_of(others), clauses)?;
    Ok(Asked {
        table,
        others,
        plan,
    })
}

// The table that an `exists` names, if there is one.
fn other_table<'a, H: KeyHash<Key> + Copy>(
    catalog: &'a Catalog<H>,
    exists: &Option<Exists>,
) -> Result<Option<&'a Table<H>>, Refused>
    ensures found { IfOk result (λ other.
        other_in catalog.now exists.now ≡ Ok (option_copied other)) }
    ensures refused { IfErr result (λ why. other_in catalog.now exists.now ≡ Err why) }
{
    let Some(exists) = exists else {
        return Ok(None);
    };
    match catalog.get(exists.table.as_str()) {
        Some(table) => Ok(Some(table)),
        None => Err(Refused::from(Refusal::NoTable)),
    }
}

// The columns of a table, none where there is none.
fn columns_of<'a, H: KeyHash<Key> + Copy>(table: Option<&'a Table<H>>) -> &'a [Column]
    ensures { result.now ≡ other_columns (option_copied table.entry) }
{
    match table {
        Some(table) => table.schema().columns(),
        None => &[],
    }
}

/// The result rows of a `group`, and the work spent so far with that of this grouping; or the
/// refusal.
pub fn rows_asked<H: KeyHash<Key> + Copy, S: RunStore>(
    alloc: Global,
    hasher: H,
    request: &GroupRequest<'_, H>,
    store: &mut S,
    budget: Budget,
    spent: Spent,
) -> Result<(Rows, Spent), Refused>
    ensures comes { ComesOver true (S.runs store.old).honest
        (grouped request.now.catalog.now request.now.name.now request.now.clauses.now)
        (under (group_header request.now.clauses.now.by request.now.clauses.now.shown)
        (rows_in result)) request.now.catalog.now request.now.catalog.now }
    ensures spent { IfOk result (λ found. Rises (S.runs store.old).honest budget.entries
        request.now.catalog.now request.now.name.now request.now.clauses.now spent found.1) }
    ensures faults { (S.runs store.old).failures + faults_in result ≤ (S.runs store.new).failures }
    ensures honest { (S.runs store.new).honest ≡ (S.runs store.old).honest }
{
    let asked = asked_of(alloc, request)?;
    rows_grouped(alloc, hasher, &asked, store, budget, spent)
}

// The same of what it asks, looked up.
fn rows_grouped<H: KeyHash<Key> + Copy, S: RunStore>(
    alloc: Global,
    hasher: H,
    asked: &Asked<'_, H>,
    store: &mut S,
    budget: Budget,
    spent: Spent,
) -> Result<(Rows, Spent), Refused>
    requires { IsWithin asked.now.table.now.schema.columns
        (other_columns (option_copied asked.now.others)) asked.now.plan }
    ensures rows { GroupsOver (S.runs store.old).honest
        (some_or SumRange (rows_planned asked.now.plan asked.now.table.now
        (option_copied asked.now.others))) (rows_in result) }
    ensures spent { IfOk result (λ found. RisesBy (S.runs store.old).honest budget.entries
        (rows_about asked.now.plan asked.now.table.now (option_copied asked.now.others))
        (grouping_sets asked.now.plan.rollup asked.now.plan.by) spent found.1) }
    ensures faults { (S.runs store.old).failures + faults_in result ≤ (S.runs store.new).failures }
    ensures honest { (S.runs store.new).honest ≡ (S.runs store.old).honest }
{
    let plan = &asked.plan;
    let selection = Selection {
        table: asked.table,
        condition: &plan.condition,
        matching: plan.matching.as_ref(),
        others: asked.others,
    };
    let grouping = Grouping {
        by: plan.by.as_slice(),
        rollup: plan.rollup,
        shown: plan.shown.as_slice(),
        having: &plan.having,
        budget,
    };
    match group_rows(alloc, hasher, &selection, &grouping, store, spent) {
        Ok(found) => Ok(found),
        Err(why) => Err(refused_by_grouping(why)),
    }
}

/// The result rows of a `distinct`, or the refusal of its grouping.
pub fn rows_different<H: KeyHash<Key> + Copy, S: RunStore>(
    alloc: Global,
    hasher: H,
    table: &Table<H>,
    plan: &DistinctPlan,
    store: &mut S,
    budget: Budget,
) -> Result<Rows, Refused>
    requires some { 0 < length plan.now.on }
    requires on { All (λ column. column < length table.now.schema.columns) plan.now.on }
    ensures rows { GroupsOver (S.runs store.old).honest
        (Ok (keys_planned plan.now table.now)) result }
    ensures faults { (S.runs store.old).failures + faults_in result ≤ (S.runs store.new).failures }
    ensures honest { (S.runs store.new).honest ≡ (S.runs store.old).honest }
{
    let selection = Selection {
        table,
        condition: &plan.condition,
        matching: None,
        others: None,
    };
    match distinct_rows(alloc, hasher, &selection, plan.on.as_slice(), store, budget) {
        Ok(rows) => Ok(rows),
        Err(why) => Err(refused_by_grouping(why)),
    }
}

// A grouping's refusal, as that of a command.
fn refused_by_grouping(why: gq_group::Refusal) -> Refused
    ensures { result ≡ unnumbered (group_refusal why) }
{
    Refused::from(match why {
        gq_group::Refusal::SumRange => Refusal::SumRange,
        gq_group::Refusal::Memory => Refusal::Memory,
        gq_group::Refusal::StoreFault => Refusal::StoreFault,
        gq_group::Refusal::Damaged => Refusal::Damaged,
    })
}
