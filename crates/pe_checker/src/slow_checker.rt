//! A checker of sets that is independent of the rest of petool: it lists every fault of a set with its key in the order of faults,
//! and returns that with the least key.
//!
//! It follows the table of faults literally. Each test is a plain scan that reads one byte of a file or a laid-out image at a
//! time, so it shares no reader, no search and no definition with the crates that it is compared with. It is slow: its tests for
//! overlaps and its searches take time quadratic in the content of an image.

mod bases;
mod directories;
mod exports;
mod fixups;
mod forwarders;
mod headers;
mod images;
mod imports;
mod modules;
mod names;
mod numbers;
mod ordering;
mod overlaps;
mod plain;
mod sections;

use self::bases::list_bases;
use self::images::{Judged, list_image};
use self::modules::list_searches;
use self::names::list_names;
use self::ordering::{Class, Faults};
use pe_set::{MapError, Policy, SetEntry};
use std::alloc::{AllocError, Global};

/// The first fault of a set, with the length of the cycle for fault 50, or `None` if it has none.
///
/// Faults are tested class by class, and a class counts only if no earlier one has a fault: names of entries, images one by one,
/// their bases, the searches for their imports. The error is out of memory.
pub fn slow_first(
    alloc: Global,
    set: &[SetEntry],
    policy: Policy,
) -> Result<Option<MapError>, AllocError> {
    let mut faults = Faults::new(alloc);
    list_names(set, &mut faults)?;
    if !faults.is_empty() {
        return Ok(faults.least());
    }
    let images = judged_images(alloc, set, &mut faults)?;
    if !faults.is_empty() {
        return Ok(faults.least());
    }
    list_bases(&images, &mut faults)?;
    if !faults.is_empty() {
        return Ok(faults.least());
    }
    list_searches(alloc, &images, policy, &mut faults)?;
    Ok(faults.least())
}

/// The images of a set without a fault of their own; the faults of the others are listed.
fn judged_images<'a>(
    alloc: Global,
    set: &[SetEntry<'a>],
    faults: &mut Faults,
) -> Result<Vec<Judged<'a>>, AllocError> {
    let mut images = Vec::new(alloc);
    for (index, entry) in set.iter().enumerate() {
        faults.begin(Class::Images, index);
        if let Some(image) = list_image(alloc, *entry, faults)? {
            images.push(image)?;
        }
    }
    Ok(images)
}
