//! Laws: what the definitions imply, in the subject's own words. Each is the contract of a function that does
//! nothing.
ghost use Rattle.gq_select.specs.Laws.{AndIsOfTwo, TwoValuedWithoutNull, KeepsWhatIsTrue};
ghost use Rattle.gq_select.specs.Laws.{ComparisonsAgree, MindsCase, NullHasNoMatch, ReadsItsColumns};

/// Tests are joined as by SQL's table of `and`, two at a time.
pub fn and_is_of_two()
    ensures { AndIsOfTwo }
{}

/// A condition that compares no null is true or false.
pub fn two_valued_without_null()
    ensures { TwoValuedWithoutNull }
{}

/// The truth of a condition depends only on the columns that its tests read.
pub fn reads_its_columns()
    ensures { ReadsItsColumns }
{}

/// A row is kept exactly if each test is true, and a comparison with null keeps none.
pub fn keeps_what_is_true()
    ensures { KeepsWhatIsTrue }
{}

/// Three comparisons are the opposites of the others, and `=` is true of values that are equal, or the same if
/// one is a text without case.
pub fn comparisons_agree()
    ensures { ComparisonsAgree }
{}

/// Values that have case are compared by their plain order, and by their folds if one has none.
pub fn minds_case()
    ensures { MindsCase }
{}

/// Null matches nothing, on either side; else a match is a row that has the key.
pub fn null_has_no_match()
    ensures { NullHasNoMatch }
{}
