//! The workload `written`: the object on standard input, read and written again.

use crate::digest::Digest;
use coff_object::{read_object, write_object};
use std::alloc::Global;

/// Reads and writes an object in each round.
pub(crate) fn run_written(
    alloc: Global,
    digest: &mut Digest,
    file: &[u8],
    rounds: u32,
) -> Option<()> {
    for _ in 0..rounds {
        let object = read_object(alloc, file).ok()?;
        let written = write_object(alloc, &object).ok()?;
        digest.bytes(&written);
    }
    Some(())
}
