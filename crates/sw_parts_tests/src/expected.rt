//! Comparing a result with what is expected.
use std::fmt::Debug;
use std::process::Abort;

/// Expects that a result is what is due.
pub(crate) fn expect<T: PartialEq + Debug + Copy>(rt: &impl Abort, found: T, due: T) {
    assert_eq!(rt; found, due);
}

/// As [`expect`], of a key, a slot or another number.
pub(crate) fn expect_at<T: PartialEq + Debug + Copy>(
    rt: &impl Abort,
    number: u64,
    found: T,
    due: T,
) {
    assert_eq!(rt; found, due, "{number}");
}
