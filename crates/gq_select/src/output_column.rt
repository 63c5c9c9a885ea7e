//! The columns of a result row that follow its key.
ghost use Rattle.std.specs.Prelude.{◌≡◌};
ghost use Rattle.gq_select.specs.Asking.{is_valid_for as valid_for, takes_kind as may_take};

use gq_agg::AggKind;
use gq_row::{Column, Kind};

/// What is shown of each group. A column of its rows is given by its position.
#[derive(Clone, Copy, Debug, PartialEq, Eq)]
pub enum OutputColumn {
    /// An aggregate of the values in a column. The column of `CountAll` is ignored.
    Aggregate(AggKind, usize),
    /// The number of distinct values in a column that aren't null.
    CountDistinct(usize),
}

impl OutputColumn {
    /// Whether it can be shown of rows that fit these columns: its column is one of them, and no texts are
    /// summed.
    pub fn is_valid_for(&self, columns: &[Column]) -> bool
        ensures { result ≡ valid_for columns.now self.now }
    {
        match self {
            OutputColumn::Aggregate(AggKind::CountAll, _) => true,
            OutputColumn::Aggregate(kind, column) => {
                *column < columns.len() && takes_kind(*kind, columns[*column].kind)
            }
            OutputColumn::CountDistinct(column) => *column < columns.len(),
        }
    }
}

fn takes_kind(asked: AggKind, kind: Kind) -> bool
    ensures { result ≡ may_take asked kind }
{
    match (asked, kind) {
        (AggKind::Sum, Kind::Int) => true,
        (AggKind::Sum, Kind::Text | Kind::NoCase) => false,
        (AggKind::CountAll | AggKind::Count | AggKind::Min | AggKind::Max, _) => true,
    }
}
