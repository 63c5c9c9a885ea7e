//! Shown aggregates, by the names of columns.
ghost use Rattle.std.specs.Prelude.{◌≡◌, IfOk};
ghost use Rattle.gq_plan.specs.Places.{all_shown, shown_of};

use gq_agg::AggKind;
use gq_clause::Aggregate;
use gq_row::{Schema, Sequence};
use gq_select::OutputColumn;
use std::alloc::{AllocError, Global};

/// The aggregates with the positions of their columns; `None` if a name isn't a column's.
pub fn find_shown(
    alloc: Global,
    schema: &Schema,
    aggregates: &[Aggregate],
) -> Result<Option<Sequence<OutputColumn>>, AllocError>
    ensures { IfOk result (λ shown. shown ≡ all_shown schema.now.columns aggregates.now) }
{
    let mut all = Vec::with_capacity(alloc, aggregates.len())?;
    for aggregate in aggregates {
        let Some(shown) = shown_of(schema, aggregate) else {
            return Ok(None);
        };
        all.push(shown)?;
    }
    Ok(Some(Sequence::new(all)))
}

fn shown_of(schema: &Schema, aggregate: &Aggregate) -> Option<OutputColumn>
    ensures { result ≡ shown_of schema.now.columns aggregate.now }
{
    let (kind, column) = match aggregate {
        Aggregate::CountAll => return Some(OutputColumn::Aggregate(AggKind::CountAll, 0)),
        Aggregate::CountDistinct(column) => {
            return schema
                .find(column.as_str())
                .map(OutputColumn::CountDistinct);
        }
        Aggregate::Count(column) => (AggKind::Count, column),
        Aggregate::Sum(column) => (AggKind::Sum, column),
        Aggregate::Min(column) => (AggKind::Min, column),
        Aggregate::Max(column) => (AggKind::Max, column),
    };
    let position = schema.find(column.as_str())?;
    Some(OutputColumn::Aggregate(kind, position))
}
