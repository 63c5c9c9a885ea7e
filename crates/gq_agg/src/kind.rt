//! Kinds of aggregates.
ghost use Rattle.std.specs.Prelude.{◌≡◌};
ghost use Rattle.gq_agg.specs.Aggregates.{takes};

use gq_row::Value;

/// A kind of aggregate of a group's values.
#[derive(Clone, Copy, Debug, PartialEq, Eq)]
pub enum AggKind {
    /// The number of rows: `count(*)`.
    CountAll,
    /// The number of values that aren't null.
    Count,
    /// The sum.
    Sum,
    /// The minimum.
    Min,
    /// The maximum.
    Max,
}

impl AggKind {
    /// Whether the aggregate takes a value: a sum takes no text.
    #[inline]
    pub fn takes(self, value: &Value) -> bool
        ensures { result ≡ takes self value.now }
    {
        match (self, value) {
            (AggKind::Sum, Value::Null | Value::Int(_)) => true,
            (AggKind::Sum, Value::Text(_) | Value::NoCase(_)) => false,
            (AggKind::CountAll | AggKind::Count | AggKind::Min | AggKind::Max, _) => true,
        }
    }
}
