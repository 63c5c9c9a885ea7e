//! Laws: what the definitions come to, in the subject's own words. Each is the contract of a
//! function that does nothing.
ghost use Rattle.gq_infer.specs.Laws.{IsNarrowest};

/// The kind of a column is the narrowest that takes each of its fields: INT exactly if INT takes
/// each and one at least is a number. A column without numbers is TEXT.
pub fn is_narrowest()
    ensures { IsNarrowest }
{}
