//! Compares what was found with what is due.
use std::fmt::Debug;
use std::process::Abort;

/// Expects `found` to equal `due`.
pub fn expect<T: PartialEq + Debug + Copy>(rt: &impl Abort, found: T, due: T) {
    assert_eq!(rt; found, due);
}

/// The same for one case of several.
pub fn expect_at<C: Debug + Copy, T: PartialEq + Debug + Copy>(
    rt: &impl Abort,
    case: C,
    found: T,
    due: T,
) {
    assert_eq!(rt; found, due, "{case:?}");
}
