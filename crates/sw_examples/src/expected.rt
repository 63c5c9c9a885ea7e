//! Comparing a result with what is expected.
use std::fmt::Debug;
use std::process::Abort;

/// Expects that a result is what is due.
pub(crate) fn expect<T: PartialEq + Debug + Copy>(rt: &impl Abort, found: T, due: T) {
    assert_eq!(rt; found, due);
}
