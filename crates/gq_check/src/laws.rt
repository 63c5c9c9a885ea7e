//! Laws: what the definitions imply, in the subject's own words. Each is the contract of a
//! function that does nothing.
ghost use Rattle.gq_check.specs.Reports.{CleanTells};

pub use gq_command::laws::numbers_tell;

/// A script has no report if and only if none of its items is refused.
pub fn clean_tells()
    ensures { CleanTells }
{}
