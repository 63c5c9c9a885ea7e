//! The levels of a rollup.
//!
//! Each level is a grouping of its own, by a prefix of the columns: by none for the total, and by
//! one more at each level. Its result rows get a null for each other column before `having` is
//! evaluated, and the level as their first value after that.
ghost use Rattle.std.specs.Prelude.{◌≡◌, ◌≤◌, ◌++◌, ◌∷◌, true, IfOk, OnOk, pos, length, map, filter, take};
ghost use Rattle.gq_row.specs.declared.value.Value.TheVariants.{Int};
ghost use Rattle.gq_select.specs.Truths.{keeps};
ghost use Rattle.gq_query.specs.Answers.{AreValid};
ghost use Rattle.gq_query.specs.Keeping.{HasColumns, kept_rows};
ghost use Rattle.gq_query.specs.Outcomes.{Answered, RowsGrouped};
ghost use Rattle.gq_query.specs.Rollups.{filled, level_rows, rows_of_levels, levels, grouping_sets};
ghost use Rattle.gq_query.specs.Work.{IsSpentOn, RisesBy};

use crate::group_list::copy_cells;
use crate::query::Query;
use crate::spending::both_spent;
use gq_cells::Rows;
use gq_group::{Refusal, Spent};
use gq_row::{Key, Value};
use gq_select::{Condition, OutputColumn, having};
use gq_spill::RunStore;
use std::alloc::{AllocError, Global};
use sw_probe::KeyHash;

// Appends a result row of a level, with a null for each other column after its key.
fn write_filled(
    alloc: Global,
    cells: &mut Vec<Value>,
    row: &[Value],
    level: usize,
    columns: usize,
) -> Result<(), AllocError>
    requires { level ≤ columns }
    ensures { OnOk result (cells.new.items ≡ cells.old.items ++ filled level columns row.now) }
{
    let (key, shown) = row.split_at(row.len().min(level));
    copy_cells(alloc, cells, key)?;
    for _ in level..columns {
        cells.push(Value::Null)?;
    }
    copy_cells(alloc, cells, shown)
}

// The result rows of a level that `having` keeps, with a null for each other column, and with the
// level as their first value.
fn rows_leveled(
    alloc: Global,
    rows: &Rows,
    level: usize,
    columns: usize,
    condition: &Condition,
) -> Result<Rows, AllocError>
    requires { level ≤ columns }
    ensures { IfOk result (λ found. found ≡ map (λ row. Int (pos level) ∷ row)
        (filter (keeps condition.now.tests) (map (filled level columns) rows.now))) }
{
    // Cannot fail: a list of that many columns would not fit in memory.
    let Ok(number) = i64::try_from(level) else {
        return Err(AllocError);
    };
    let mut kept = Rows::new(alloc);
    let mut row = Vec::new(alloc);
    let mut cells = Vec::new(alloc);
    for i in 0..rows.len() {
        rows.copy_row(alloc, i, &mut row)?;
        cells.clear();
        cells.push(Value::Int(number))?;
        write_filled(alloc, &mut cells, row.as_slice(), level, columns)?;
        if having(condition, &cells[1..]) {
            kept.push(alloc, &mut cells)?;
        }
    }
    Ok(kept)
}

impl<'a, H: KeyHash<Key> + Copy> Query<'a, H> {
    // The result rows of a level, and the work of grouping them.
    fn level<S: RunStore>(
        &self,
        level: usize,
        shown: &[OutputColumn],
        condition: &Condition,
        store: &mut S,
    ) -> Result<(Rows, Spent), Refusal>
        requires columns { HasColumns self.now }
        requires within { level ≤ length self.now.by.now }
        requires shown { AreValid self.now.table.now.schema.columns shown.now }
        ensures { RowsGrouped (S.runs store.old) (S.runs store.new) result
            (level_rows self.now.by.now shown.now condition.now.tests (kept_rows self.now) level)
            (IsSpentOn self.now.budget.entries (take level self.now.by.now) (kept_rows self.now)) }
    {
        let query = Query {
            alloc: self.alloc,
            hasher: self.hasher,
            table: self.table,
            kept: self.kept,
            by: &self.by[..level],
            budget: self.budget,
        };
        let (rows, spent) = query.rows(shown, store)?;
        match rows_leveled(self.alloc, &rows, level, self.by.len(), condition) {
            Ok(rows) => Ok((rows, spent)),
            Err(_) => Err(Refusal::Memory),
        }
    }

    /// The result rows of a rollup, level after level, and `spent` raised by the work of each
    /// level.
    pub fn rollup<S: RunStore>(
        &self,
        shown: &[OutputColumn],
        condition: &Condition,
        store: &mut S,
        spent: Spent,
    ) -> Result<(Rows, Spent), Refusal>
        requires columns { HasColumns self.now }
        requires shown { AreValid self.now.table.now.schema.columns shown.now }
        ensures { Answered (S.runs store.old) (S.runs store.new) result
            (rows_of_levels self.now.by.now shown.now condition.now.tests (kept_rows self.now)
            (levels self.now.by.now))
            (RisesBy (S.runs store.old).honest self.now.budget.entries (kept_rows self.now)
            (grouping_sets true self.now.by.now) spent) }
    {
        let (mut rows, work) = self.level(0, shown, condition, store)?;
        let mut total = both_spent(spent, work);
        'levels: for fewer in 0..self.by.len() {
            let (more, work) = self.level(fewer + 1, shown, condition, store)?;
            let Ok(()) = rows.append(self.alloc, more) else {
                return Err(Refusal::Memory);
            };
            total = both_spent(total, work);
        }
        Ok((rows, total))
    }
}
