//! Assertions of many tests, and the bytes of a file at an offset.

use std::process::Abort;

/// Asserts a condition of a case.
pub(super) fn assert_holds(rt: &impl Abort, case: usize, holds: bool) {
    assert!(rt; holds, "in case {case:#x}");
}

/// Asserts that a number of a case is the expected one.
pub(super) fn assert_number(rt: &impl Abort, case: usize, found: u64, expected: u64) {
    assert_eq!(rt; found, expected, "in case {case:#x}");
}

/// The bytes from an offset on, which is inside the file.
pub(super) fn bytes_from<'a>(rt: &impl Abort, file: &'a [u8], offset: usize) -> &'a [u8] {
    assert!(rt; offset <= file.len(), "at {offset:#x}");
    &file[offset..]
}

/// Whether a file has bytes at an offset.
fn has_piece(file: &[u8], offset: usize, bytes: &[u8]) -> bool {
    match file.get(offset..) {
        Some(rest) => rest.starts_with(bytes),
        None => false,
    }
}

/// Whether a file has these bytes at each of these offsets.
pub(super) fn has_pieces(file: &[u8], pieces: &[(usize, &[u8])]) -> bool {
    for (offset, bytes) in pieces {
        if !has_piece(file, *offset, bytes) {
            return false;
        }
    }
    true
}
