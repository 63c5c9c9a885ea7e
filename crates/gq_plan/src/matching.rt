//! The columns of an `exists`.
ghost use Rattle.std.specs.Prelude.{◌≡◌, ◌⊎◌, Ok, Err, IfOk, IfErr};
ghost use Rattle.gq_reply.specs.Refusals.{unnumbered};
ghost use Rattle.gq_reply.specs.declared.refusal.Refusal.TheVariants.{Memory};
ghost use Rattle.gq_select.specs.Asking.{CanMatch};
ghost use Rattle.gq_plan.specs.Plans.{matching_named};

use crate::found::or_no_column;
use gq_command::Exists;
use gq_reply::Refused;
use gq_row::{Column, find_positions};
use gq_select::Matching;
use std::alloc::Global;

/// The positions for the names of an `exists`, if there is one; `NoColumn` if a name isn't a
/// column's of its table.
pub fn find_matching(
    alloc: Global,
    columns: &[Column],
    others: &[Column],
    exists: &Option<Exists>,
) -> Result<Option<Matching>, Refused>
    ensures planned { IfOk result (λ matching.
        matching_named columns.now others.now exists.now ≡ Ok matching) }
    ensures refused { IfErr result (λ why. (why ≡ unnumbered Memory)
        ⊎ (matching_named columns.now others.now exists.now ≡ Err why)) }
    ensures within { IfOk result (CanMatch columns.now others.now) }
{
    let Some(exists) = exists else {
        return Ok(None);
    };
    let theirs = or_no_column(find_positions(alloc, others, exists.theirs.as_slice()))?;
    let ours = or_no_column(find_positions(alloc, columns, exists.ours.as_slice()))?;
    Ok(Some(Matching {
        negated: exists.negated,
        theirs,
        ours,
    }))
}
