//! Assertions of many tests.

use std::process::Abort;

/// Asserts a condition of a case.
pub(super) fn assert_holds(rt: &impl Abort, case: usize, holds: bool) {
    assert!(rt; holds, "in case {case:#x}");
}

/// Asserts that a number of a case is the expected one.
pub(super) fn assert_number(rt: &impl Abort, case: usize, found: u64, expected: u64) {
    assert_eq!(rt; found, expected, "in case {case:#x}");
}
