//! Laws: what the definitions imply, in the subject's own words. Each is the contract of a function that does
//! nothing.
ghost use Rattle.gq_record.specs.Laws.{DeterminesRow};

/// No row's record begins with another row's, and no record is that of two rows.
pub fn determines_row()
    ensures { DeterminesRow }
{}
