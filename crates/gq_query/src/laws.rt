//! Laws: what the definitions imply, in the subject's own words. Each is the contract of a
//! function that does nothing.
ghost use Rattle.gq_query.specs.Laws.{OrderIsUnseen, RollsUp};

/// The order of rows doesn't change an answer, in the table or in the other one that is searched
/// for matches. For `show` this needs rows with distinct keys.
pub fn order_is_unseen()
    ensures { OrderIsUnseen }
{}

/// A level of a rollup is the `group` by that many of its first columns.
pub fn rolls_up()
    ensures { RollsUp }
{}
