//! `Storage`: where the bytes of a space are.

use pe_space::{FileSpace, MappedSpace};
use std::alloc::Global;

/// Where the bytes of a space are.
#[derive(Drop)]
pub(crate) enum Storage<'a> {
    /// In memory.
    Memory(MappedSpace<Global>),
    /// In their files, which the space borrows.
    Files(FileSpace<'a, Global>),
    /// There are no images, and nothing is allocated.
    Nowhere,
}
