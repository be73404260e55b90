//! The workload `open`: sets of sixteen libraries, opened over their files, read at random places, and moved.

use crate::chance::Chance;
use crate::digest::Digest;
use crate::sets::files_of;
use crate::shape::Shape;
use crate::spaces::{move_images, read_bindings, read_here_and_there};
use pe_space::{Policy, open_space};
use std::alloc::Global;

/// Libraries with many exports, imports and base relocations.
fn shape(round: u32) -> Shape {
    Shape {
        is_wide: round % 3 != 1,
        code_rva: 0x1000,
        code: 0x30000,
        exports: 800,
        forwarders: 20,
        imported: 8,
        imports: 40,
        is_awkward: false,
        fixups: 6000,
    }
}

/// Opens a set of sixteen libraries, and reads at random places between moves of each image.
pub(crate) fn run_open(alloc: Global, digest: &mut Digest, seed: u64, round: u32) -> Option<()> {
    let files = files_of(alloc, shape(round), seed, 16)?;
    let set = files.set(alloc, 0x10_0000)?;
    let mut space = open_space(alloc, &set, Policy::Known).ok()?;
    let mut chance = Chance::new(seed);
    read_bindings(digest, &space);
    for _ in 0..4 {
        read_here_and_there(digest, &space, &mut chance, 30_000)?;
        move_images(digest, &mut space, 0x20_0000)?;
    }
    Some(())
}
