//! The workload `texts`: the output of each engine for the libraries of a set.

use crate::digest::Digest;
use crate::sets::files_of;
use crate::shape::Shape;
use crate::texts::{Engine, read_text};
use std::alloc::Global;

/// Libraries of common size.
fn shape(round: u32) -> Shape {
    Shape {
        is_wide: round % 3 != 0,
        code_rva: 0x1000,
        code: 0x10000,
        exports: 700,
        forwarders: 15,
        imported: 8,
        imports: 40,
        is_awkward: false,
        fixups: 2500,
    }
}

/// Mixes in the output of each engine for each library of a set of eight.
pub(crate) fn run_texts(alloc: Global, digest: &mut Digest, seed: u64, round: u32) -> Option<()> {
    let files = files_of(alloc, shape(round), seed, 8)?;
    for file in files.each() {
        for engine in [Engine::Check, Engine::Dump, Engine::Page, Engine::Json] {
            read_text(alloc, digest, engine, file)?;
        }
    }
    Some(())
}
