//! The workload `rebase`: the files of large libraries for eight other bases each.

use crate::digest::Digest;
use crate::library::library;
use crate::shape::{Module, Shape};
use pe_write::rebase_file;
use std::alloc::Global;

/// A large library.
fn shape(round: u32) -> Shape {
    Shape {
        is_wide: round % 2 == 0,
        code_rva: 0x1000,
        code: 0x80000,
        exports: 2000,
        forwarders: 0,
        imported: 10,
        imports: 50,
        is_awkward: false,
        fixups: 25_000,
    }
}

/// Mixes in the files of a library for eight other bases.
pub(crate) fn run_rebase(alloc: Global, digest: &mut Digest, seed: u64, round: u32) -> Option<()> {
    let module = Module {
        seed,
        number: 0,
        count: 16,
    };
    let file = library(alloc, shape(round), module)?;
    digest.bytes(&file);
    for base in 1..9 {
        let moved = rebase_file(alloc, &file, base * 0x0230_0000).ok()?;
        digest.bytes(&moved);
    }
    Some(())
}
