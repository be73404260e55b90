//! The workload `map`: sets of twelve libraries, mapped into memory, moved and read.

use crate::digest::Digest;
use crate::sets::files_of;
use crate::shape::Shape;
use crate::spaces::{move_images, read_bindings, read_images};
use pe_space::{Policy, map};
use std::alloc::Global;

/// Libraries with many exports, imports and base relocations.
fn shape(round: u32) -> Shape {
    Shape {
        is_wide: round % 3 != 2,
        code_rva: 0x1000,
        code: 0x20000,
        exports: 1400,
        forwarders: 20,
        imported: 6,
        imports: 100,
        is_awkward: false,
        fixups: 8000,
    }
}

/// Maps a set of twelve libraries, moves each image and reads them.
pub(crate) fn run_map(alloc: Global, digest: &mut Digest, seed: u64, round: u32) -> Option<()> {
    let files = files_of(alloc, shape(round), seed, 12)?;
    let set = files.set(alloc, 0x10_0000)?;
    let mut space = map(alloc, &set, Policy::Strict).ok()?;
    read_bindings(digest, &space);
    move_images(digest, &mut space, 0x20_0000)?;
    read_images(digest, &space)
}
