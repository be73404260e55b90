//! `NameTrail`: how far names of a file with one end have been followed in the index of an image's exports.

ghost use Rattle.std.specs.Prelude.{◌≡◌};
ghost use Rattle.pe_tables.specs.NameTrail.{node_after};

use std::alloc::Allocator;

/// The nodes of the last blocks of 256 bytes, in the index of an image's exports, of the longest name looked up so far of those of
/// a file that have one end. A shorter name has the same last blocks, so [`crate::Exports::by_name_along`] reads only the bytes
/// before them.
///
/// It has an entry of 16 bytes for each block, up to the first block for which the index has no node.
#[derive(Drop)]
pub struct NameTrail<A: Allocator> {
    /// The node after each block. Only the last may be missing: the index has no node for more blocks then.
    pub(crate) nodes: Vec<Option<usize>, A>,
}

/// The node after `blocks` blocks of a trail, if the index has one and the trail has as many blocks.
pub(crate) fn node_after(trail: &[Option<usize>], blocks: usize) -> Option<usize>
    ensures { result ≡ node_after trail.now blocks }
{
    match blocks.checked_sub(1) {
        Some(index) => *trail.get(index)?,
        None => Some(0),
    }
}
