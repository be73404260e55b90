//! Both kinds of space of one set: in memory and over files.

use crate::fault_line::FaultLine;
use pe_space::{FileSpace, MapError, MappedSpace, Policy, SetEntry, map, open_space};
use pe_vectors::slow_first;
use std::alloc::Global;

/// The two spaces of a set.
#[derive(Drop)]
pub(crate) struct Both<'a> {
    pub mapped: MappedSpace<Global>,
    pub filed: FileSpace<'a, Global>,
}

/// The first error of a set, if both spaces and the slow checker agree on it.
pub(crate) fn first_error<'a>(
    alloc: Global,
    set: &'a [SetEntry<'a>],
    policy: Policy,
) -> Option<Option<MapError>> {
    let error = slow_first(alloc, set, policy).ok()?;
    if map(alloc, set, policy).err() == error && open_space(alloc, set, policy).err() == error {
        Some(error)
    } else {
        None
    }
}

/// The spaces of a set without a fault.
pub(crate) fn opened<'a>(
    alloc: Global,
    set: &'a [SetEntry<'a>],
    policy: Policy,
) -> Option<Both<'a>> {
    let Ok(mapped) = map(alloc, set, policy) else {
        return None;
    };
    let Ok(filed) = open_space(alloc, set, policy) else {
        return None;
    };
    Some(Both { mapped, filed })
}

/// Prints an error of a set.
pub(crate) fn print_error<R: Print>(rt: &R, error: MapError) -> Option<()> {
    match error {
        MapError::Fault(fault) => println!(rt; "{}", FaultLine(fault)).ok(),
        MapError::Cycle { fault, length } => {
            println!(rt; "{} cycle {length}", FaultLine(fault)).ok()
        }
        MapError::Memory => None,
    }
}
