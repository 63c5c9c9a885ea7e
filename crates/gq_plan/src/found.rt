//! The results of lookups.
ghost use Rattle.std.specs.Prelude.{◌≡◌};
ghost use Rattle.gq_plan.specs.Plans.{or_no_column};

use gq_reply::{Refusal, Refused};
use std::alloc::AllocError;

/// The result of a lookup, or `NoColumn` if a name isn't a column's.
pub fn or_no_column<T>(found: Result<Option<T>, AllocError>) -> Result<T, Refused>
    ensures { result ≡ or_no_column found }
{
    found?.ok_or(Refused::from(Refusal::NoColumn))
}
