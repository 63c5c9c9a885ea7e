//! Laws: what the definitions imply, in the subject's own words. Each is the contract of a function that does
//! nothing.
ghost use Rattle.gq_agg.specs.Laws.{OrderIsUnseen, NullsAreUnseen, EndsAreReached, DifferentAreCounted};

/// The order of values makes no difference to their aggregate.
pub fn order_is_unseen()
    ensures { OrderIsUnseen }
{}

/// Nulls make no difference, but to the count of all rows.
pub fn nulls_are_unseen()
    ensures { NullsAreUnseen }
{}

/// The minimum and the maximum are among the values, and none comes before the minimum or after the maximum.
pub fn ends_are_reached()
    ensures { EndsAreReached }
{}

/// A value counts among the distinct ones unless it is null or the same as one before it: two spellings of one
/// text without case count once.
pub fn different_are_counted()
    ensures { DifferentAreCounted }
{}
