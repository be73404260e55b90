//! The searches for imports through the modules of a set: faults 48 to 50.

use super::exports::{Target, target_of};
use super::forwarders::{Forwarder, Wanted};
use super::images::Judged;
use super::imports::Import;
use super::names::matches;
use super::ordering::{Class, Faults, Row, rva_row};
use pe_set::Policy;
use std::alloc::{AllocError, Global};

/// The greatest number of exports of a set: those of 256 images, each with 65,536 entries and 65,536 names.
const MOST_EXPORTS: u32 = 256 * 2 * 65_536;

/// The end of a search.
#[derive(Clone, Copy, PartialEq, Eq)]
enum End {
    /// An RVA of an image.
    Bound,
    /// A module that is not in the set.
    Missing,
    /// A module that does not export the key.
    Unknown,
    /// None: the search comes to an export where it was this many hops before.
    Endless(u32),
}

/// An export that a search comes to: the index of its image, and its key.
#[derive(Drop)]
struct Stand {
    image: usize,
    wanted: Wanted,
}

/// Lists the faults of the imports of a set.
pub(super) fn list_searches(
    alloc: Global,
    images: &[Judged],
    policy: Policy,
    faults: &mut Faults,
) -> Result<(), AllocError> {
    for (index, judged) in images.iter().enumerate() {
        faults.begin(Class::Searches, index);
        list_imports_of(alloc, images, judged, policy, faults)?;
    }
    Ok(())
}

/// Lists the faults of the imports of an image.
fn list_imports_of(
    alloc: Global,
    images: &[Judged],
    judged: &Judged,
    policy: Policy,
    faults: &mut Faults,
) -> Result<(), AllocError> {
    for import in &judged.imports {
        let end = search(alloc, images, judged, import)?;
        let slot = import.slot.start;
        let is_missing = end == End::Missing && policy == Policy::Strict;
        let length = match end {
            End::Endless(length) => Some(length),
            _ => None,
        };
        faults.record(&[
            rva_row(48, is_missing, slot),
            rva_row(49, end == End::Unknown, slot),
            Row {
                length,
                ..rva_row(50, length.is_some(), slot)
            },
        ])?;
    }
    Ok(())
}

/// The end of the search for an import. A forwarder is one hop, to its module and key.
fn search(
    alloc: Global,
    images: &[Judged],
    importer: &Judged,
    import: &Import,
) -> Result<End, AllocError> {
    let mut at = Forwarder {
        module: import.module(alloc, &importer.image)?,
        wanted: import.wanted(alloc, &importer.image)?,
    };
    let mut before = Vec::new(alloc);
    for _ in 0..=MOST_EXPORTS {
        let Some((image, exporter)) = module(images, at.module.as_slice()) else {
            return Ok(End::Missing);
        };
        if let Some(length) = hops_since(&before, image, &at.wanted) {
            return Ok(End::Endless(length));
        }
        match target_of(alloc, &exporter.image, &at.wanted)? {
            None => return Ok(End::Unknown),
            Some(Target::Rva) => return Ok(End::Bound),
            Some(Target::Forwarder(next)) => {
                let wanted = at.wanted;
                before.push(Stand { image, wanted })?;
                at = next;
            }
        }
    }
    // Not reached: after so many hops the search would have come to some export twice.
    Ok(End::Endless(0))
}

/// How many hops ago a search was at an export, if it was; `before` has one for each hop.
fn hops_since(before: &[Stand], image: usize, wanted: &Wanted) -> Option<u32> {
    for (hops, stand) in before.iter().enumerate() {
        if stand.image == image && stand.wanted == *wanted {
            return u32::try_from(before.len().saturating_sub(hops)).ok();
        }
    }
    None
}

/// The image whose name matches a module's, with its index.
fn module<'s, 'a>(images: &'s [Judged<'a>], name: &[u8]) -> Option<(usize, &'s Judged<'a>)> {
    for (index, judged) in images.iter().enumerate() {
        if matches(judged.entry.name, name) {
            return Some((index, judged));
        }
    }
    None
}
