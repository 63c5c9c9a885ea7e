//! Aggregates, as data.
use gq_row::Text;

/// An aggregate over the rows of a group.
#[derive(Drop)]
pub enum Aggregate {
    /// `count(*)`: the number of rows.
    CountAll,
    /// `count(x)`: the number of rows where x isn't null.
    Count(Text),
    /// `count(distinct x)`: the number of distinct values of x that aren't null.
    CountDistinct(Text),
    /// `sum(x)`
    Sum(Text),
    /// `min(x)`
    Min(Text),
    /// `max(x)`
    Max(Text),
}
