//! How the work of groupings adds up.
ghost use Rattle.std.specs.Prelude.{◌≡◌};
ghost use Rattle.gq_query.specs.Work.{both_spent};

use gq_group::Spent;

// The sum of two amounts of work; each number saturates.
pub(crate) fn both_spent(old: Spent, more: Spent) -> Spent
    ensures { result ≡ both_spent old more }
{
    Spent {
        rows_read: old.rows_read.saturating_add(more.rows_read),
        rows_written: old.rows_written.saturating_add(more.rows_written),
        groups: old.groups.saturating_add(more.groups),
        runs: old.runs.saturating_add(more.runs),
    }
}
