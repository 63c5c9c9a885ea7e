//! Laws of splitting a line into tokens, in the subject's own words. Each is the contract of a
//! function that does nothing.
ghost use Rattle.gq_token.specs.Spelling.{CutsAll, TakesLongest};

/// A line is split into tokens up to its end: after its blanks there is nothing, or one token and
/// the tokens of the rest.
pub fn cuts_all()
    ensures { CutsAll }
{}

/// A token is spelled by the longest prefix that spells one.
pub fn takes_longest()
    ensures { TakesLongest }
{}
