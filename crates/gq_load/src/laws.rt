//! Laws: what the definitions mean, in the subject's own words. Each is the contract of a function
//! that does nothing.
ghost use Rattle.gq_load.specs.Laws.{CompletesShortOnly, ReadsInts, ReadsNulls, ReadsRecords, FollowsHeader};

/// The value of a field is in the column that the header names above it.
pub fn follows_header()
    ensures { FollowsHeader }
{}

/// Each data record gives one row, in order; or the fault is that of the first faulty record, with its
/// number.
pub fn reads_records()
    ensures { ReadsRecords }
{}

/// `\N` is null in every column, whether it was quoted or not. An empty field is null in an INT
/// column, and the empty text in a column of texts, with case or without.
pub fn reads_nulls()
    ensures { ReadsNulls }
{}

/// If each data record has as many fields as the header, completing short records changes nothing.
pub fn completes_short_only()
    ensures { CompletesShortOnly }
{}

/// A field is read as a number exactly if it is spaces, an optional sign, digits and spaces, and the
/// number fits 64 bits.
pub fn reads_ints()
    ensures { ReadsInts }
{}
