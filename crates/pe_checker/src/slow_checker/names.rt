//! Names of modules: when they match, and faults 41 and 42.

use super::ordering::{Class, Faults, Row};
use pe_set::SetEntry;
use pe_view::Place;
use std::alloc::AllocError;

/// The greatest number of images of a set.
const MOST_IMAGES: u32 = 256;

/// Whether two names match: they are equal up to the case of ASCII letters.
pub(super) fn matches(name: &[u8], other: &[u8]) -> bool {
    if name.len() != other.len() {
        return false;
    }
    for (byte, other_byte) in name.iter().zip(other) {
        if byte.to_ascii_lowercase() != other_byte.to_ascii_lowercase() {
            return false;
        }
    }
    true
}

/// Lists the faults of a set's entries up to the first one too many: that has a fault, so the first fault of the set is not in a
/// later one.
pub(super) fn list_names(set: &[SetEntry], faults: &mut Faults) -> Result<(), AllocError> {
    for (entry, index) in set.iter().zip(0..=MOST_IMAGES) {
        faults.begin(Class::Entries, index as usize);
        let is_repeated = matches_earlier(set, index as usize, entry.name);
        faults.record(&[
            Row::new(41, index == MOST_IMAGES, Place::Item(MOST_IMAGES)),
            Row::new(42, is_repeated, Place::Item(index)),
        ])?;
    }
    Ok(())
}

/// Whether a name matches that of one of the first `count` entries.
fn matches_earlier(set: &[SetEntry], count: usize, name: &[u8]) -> bool {
    for earlier in set.iter().take(count) {
        if matches(earlier.name, name) {
            return true;
        }
    }
    false
}
