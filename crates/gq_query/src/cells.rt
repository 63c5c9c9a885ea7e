//! The cells of a row that are passed on for grouping, and their positions.
ghost use Rattle.std.specs.Prelude.{◌≡◌, fold, IfOk, OnOk, position, nat_eq};
ghost use Rattle.gq_query.specs.Cells.{with_column, with_agg, columns_used, place_of, placed_columns, placed_aggs, aggs_of};

use gq_agg::AggKind;
use gq_select::OutputColumn;
use std::alloc::{AllocError, Global};

/// The columns that a key and aggregates need, each once.
pub fn columns_used(
    alloc: Global,
    by: &[usize],
    aggs: &[(AggKind, usize)],
) -> Result<Vec<usize>, AllocError>
    ensures { IfOk result (λ columns. columns.items ≡
        columns_used (record { by = by.now; aggs = aggs.now })) }
{
    let mut columns = Vec::new(alloc);
    add_columns(&mut columns, by)?;
    for agg in aggs {
        if !matches!(agg.0, AggKind::CountAll) {
            add_column(&mut columns, agg.1)?;
        }
    }
    Ok(columns)
}

fn add_columns(columns: &mut Vec<usize>, more: &[usize]) -> Result<(), AllocError>
    ensures { OnOk result (columns.new.items ≡ fold with_column columns.old.items more.now) }
{
    for column in more {
        add_column(columns, *column)?;
    }
    Ok(())
}

fn add_column(columns: &mut Vec<usize>, column: usize) -> Result<(), AllocError>
    ensures { OnOk result (columns.new.items ≡ with_column columns.old.items column) }
{
    if !columns.contains(&column) {
        columns.push(column)?;
    }
    Ok(())
}

/// The position of a column among these columns; it is one of them.
pub fn place_of(columns: &[usize], column: usize) -> usize
    ensures { result ≡ place_of columns.now column }
{
    find_column(columns, column).unwrap_or(0)
}

fn find_column(columns: &[usize], column: usize) -> Option<usize>
    ensures { result ≡ position (λ other. nat_eq other column) columns.now }
{
    columns.iter().position(|other| *other == column)
}

/// The positions of some columns among others.
pub fn place_columns(
    alloc: Global,
    columns: &[usize],
    asked: &[usize],
) -> Result<Vec<usize>, AllocError>
    ensures { IfOk result (λ places. places.items ≡ placed_columns columns.now asked.now) }
{
    let mut places = Vec::with_capacity(alloc, asked.len())?;
    for column in asked {
        places.push(place_of(columns, *column))?;
    }
    Ok(places)
}

/// The same aggregates, over rows that hold only the cells of these columns.
pub fn place_aggs(
    alloc: Global,
    columns: &[usize],
    asked: &[(AggKind, usize)],
) -> Result<Vec<(AggKind, usize)>, AllocError>
    ensures { IfOk result (λ aggs. aggs.items ≡ placed_aggs columns.now asked.now) }
{
    let mut aggs = Vec::with_capacity(alloc, asked.len())?;
    for agg in asked {
        aggs.push((agg.0, place_of(columns, agg.1)))?;
    }
    Ok(aggs)
}

/// The aggregates among the shown columns, without counts of distinct values.
pub fn aggs_of(alloc: Global, shown: &[OutputColumn]) -> Result<Vec<(AggKind, usize)>, AllocError>
    ensures { IfOk result (λ aggs. aggs.items ≡ aggs_of shown.now) }
{
    let mut aggs = Vec::with_capacity(alloc, shown.len())?;
    for asked in shown {
        if let OutputColumn::Aggregate(kind, column) = asked {
            aggs.push((*kind, *column))?;
        }
    }
    Ok(aggs)
}
