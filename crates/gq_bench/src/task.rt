//! The tasks of an engine.
use crate::script::{create_rows, push_keys, push_load, push_reports, push_upserts, push_wide};
use crate::shape::Shape;
use std::alloc::{AllocError, Global};

/// A task of an engine.
#[derive(Clone, Copy)]
pub(crate) enum Task {
    /// Loads rows into an empty table with a key.
    Load,
    /// Loads rows into an empty table without a key.
    LoadWithoutKey,
    /// Upserts rows into a table with a key, by a line each.
    Upsert,
    /// Shows the rows of a table with a key, in order.
    Show,
    /// Counts the rows of a table without a key, by their keys.
    Count,
    /// The same under a condition on their numbers, which is true for all.
    CountWhere,
    /// The same of the rows whose keys are in another table, which has all of them.
    CountExists,
    /// Sums the numbers of these rows, by their keys.
    Sum,
    /// The distinct keys of these rows.
    Distinct,
    /// Four aggregates of rows, by their keys and a second column.
    Wide,
    /// The same with a rollup of both columns.
    Rollup,
    /// The same three groupings as that rollup, by a command each.
    Levels,
    /// Counts reports by their cities.
    OneAggregate,
    /// The same with the sum of their numbers.
    TwoAggregates,
    /// The same with the minimum and the maximum number, too.
    FourAggregates,
}

/// The script that makes the tables of a task, and the one that is measured.
#[derive(Drop)]
pub(crate) struct Scripts {
    pub(crate) before: Vec<u8>,
    pub(crate) asking: Vec<u8>,
}

impl Task {
    /// The scripts for `rows` rows.
    pub(crate) fn scripts(
        self,
        alloc: Global,
        shape: Shape,
        rows: usize,
    ) -> Result<Scripts, AllocError> {
        let mut before = Vec::new(alloc);
        let mut asking = Vec::new(alloc);
        self.push_before(&mut before, shape, rows)?;
        self.push_asking(&mut asking, shape, rows)?;
        Ok(Scripts { before, asking })
    }

    fn push_before(self, out: &mut Vec<u8>, shape: Shape, rows: usize) -> Result<(), AllocError> {
        match self {
            Task::Load | Task::Upsert => out.extend_from_slice(create_rows(shape, true)),
            Task::LoadWithoutKey => out.extend_from_slice(create_rows(shape, false)),
            Task::Show => {
                out.extend_from_slice(create_rows(shape, true))?;
                push_load(out, shape, rows)
            }
            Task::Count | Task::CountWhere | Task::Sum | Task::Distinct => {
                out.extend_from_slice(create_rows(shape, false))?;
                push_load(out, shape, rows)
            }
            Task::CountExists => {
                out.extend_from_slice(create_rows(shape, false))?;
                push_load(out, shape, rows)?;
                push_keys(out, shape, rows)
            }
            Task::Wide | Task::Rollup | Task::Levels => push_wide(out, shape, rows),
            Task::OneAggregate | Task::TwoAggregates | Task::FourAggregates => {
                push_reports(out, shape, rows)
            }
        }
    }

    fn push_asking(self, out: &mut Vec<u8>, shape: Shape, rows: usize) -> Result<(), AllocError> {
        let line: &[u8] = match self {
            Task::Load | Task::LoadWithoutKey => return push_load(out, shape, rows),
            Task::Upsert => return push_upserts(out, shape, rows),
            Task::Show => b"show t\n",
            Task::Count => b"group t by k show count(*)\n",
            Task::CountWhere => b"group t by k show count(*) where v >= 0\n",
            Task::CountExists => b"group t by k show count(*) exists u (k) = (k)\n",
            Task::Sum => b"group t by k show sum(v)\n",
            Task::Distinct => b"distinct t on k\n",
            Task::Wide => b"group t by k, b show count(*), sum(v), min(v), max(v)\n",
            Task::Rollup => b"group t by rollup (k, b) show count(*), sum(v), min(v), max(v)\n",
            Task::Levels => b"group t show count(*), sum(v), min(v), max(v)
group t by k show count(*), sum(v), min(v), max(v)
group t by k, b show count(*), sum(v), min(v), max(v)
",
            Task::OneAggregate => b"group s by city show count(*)\n",
            Task::TwoAggregates => b"group s by city show count(*), sum(x)\n",
            Task::FourAggregates => b"group s by city show count(*), sum(x), min(x), max(x)\n",
        };
        out.extend_from_slice(line)
    }
}
