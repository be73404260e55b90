//! The workload `awkward`: libraries whose names are ends of one string, mapped, moved and checked.

use crate::digest::Digest;
use crate::sets::files_of;
use crate::shape::Shape;
use crate::spaces::{move_images, read_bindings, read_images};
use crate::texts::{Engine, read_text};
use pe_space::{Policy, map};
use std::alloc::Global;

/// Libraries with many names that are ends of one string.
const SHAPE: Shape = Shape {
    is_wide: true,
    code_rva: 0x1000,
    code: 0x80000,
    exports: 12_000,
    forwarders: 0,
    imported: 1,
    imports: 6_000,
    is_awkward: true,
    fixups: 20_000,
};

/// Maps a set of four libraries, moves each image, and mixes in the bindings, the bytes and the output of `check` for each file.
pub(crate) fn run_awkward(alloc: Global, digest: &mut Digest, seed: u64) -> Option<()> {
    let files = files_of(alloc, SHAPE, seed, 4)?;
    let set = files.set(alloc, 0)?;
    let mut space = map(alloc, &set, Policy::Strict).ok()?;
    read_bindings(digest, &space);
    move_images(digest, &mut space, 0x80_0000)?;
    read_images(digest, &space)?;
    for file in files.each() {
        read_text(alloc, digest, Engine::Check, file)?;
    }
    Some(())
}
