//! `PicturesById`: the leaves of icons or cursors, by their ids.

ghost use Rattle.std.specs.Prelude.{◌≡◌, ◌<◌, ◌^◌, ◌==◌, ℕ, IfOk, Some, None, length, slice_index_or, find, if◌then◌else◌};
ghost use Rattle.std.specs.Option.{option_or};
ghost use Rattle.pe_resource_files.specs.Pictures.{is_called, is_number, picture_type};
ghost use Rattle.pe_resource_files.specs.ById.{IsById};

use crate::group::GroupKind;
use pe_resources::Leaf;
use std::alloc::{AllocError, Allocator};

/// How many ids a group's entries can say.
const IDS: usize = 0x1_0000;

/// The first leaf of a type for each id of 16 bits. It is found in one step, since a group may have as many entries as there are
/// leaves. It has a row for each id.
#[derive(Drop)]
pub(crate) struct PicturesById<'l, A: Allocator> {
    pub leaves: &'l [Leaf],
    pub kind: GroupKind,
    firsts: Vec<Option<Leaf>, A>,
    ghost first: { IsById (picture_type kind) leaves.now firsts.items },
}

/// The id of a leaf, if it has this type, and an id of 16 bits.
fn id_of(kind: u32, leaf: &Leaf) -> Option<u16>
    ensures { (id : ℕ) → id < 2 ^ 16 → is_called kind id leaf.now ≡ is_number id result }
{
    if leaf.path.kind != Some(kind) {
        return None;
    }
    match leaf.path.name? {
        id @ 0..=0xffff => Some(id as u16),
        _ => None,
    }
}

/// Keeps a leaf as the first of its id, unless there is one.
fn keep<A: Allocator>(firsts: &mut Vec<Option<Leaf>, A>, id: u16, leaf: Leaf)
    requires { length firsts.old.items ≡ 2 ^ 16 }
    ensures count { length firsts.new.items ≡ 2 ^ 16 }
    ensures first { (other : ℕ) → other < 2 ^ 16 → slice_index_or firsts.new.items other None
        ≡ option_or (slice_index_or firsts.old.items other None) (if id == other then Some leaf else None) }
{
    if firsts[id as usize].is_none() {
        firsts[id as usize] = Some(leaf);
    }
}

/// The first leaf of a type for each id.
fn firsts_of<A: Allocator + Copy>(
    alloc: A,
    leaves: &[Leaf],
    kind: u32,
) -> Result<Vec<Option<Leaf>, A>, AllocError>
    ensures { IfOk result (λ firsts. IsById kind leaves.now firsts.items) }
{
    let mut firsts = vec![in alloc; None; IDS]?;
    for leaf in leaves {
        if let Some(id) = id_of(kind, leaf) {
            keep(&mut firsts, id, *leaf);
        }
    }
    Ok(firsts)
}

impl<'l, A: Allocator + Copy> PicturesById<'l, A> {
    /// Those of the pictures of groups of a kind.
    pub(crate) fn new(
        alloc: A,
        leaves: &'l [Leaf],
        kind: GroupKind,
    ) -> Result<PicturesById<'l, A>, AllocError>
        ensures { IfOk result (λ by_id. (by_id.leaves.now ≡ leaves.now) × (by_id.kind ≡ kind)) }
    {
        Ok(PicturesById {
            leaves,
            kind,
            firsts: firsts_of(alloc, leaves, kind.picture_type())?,
        })
    }

    /// The first leaf of an id.
    pub(crate) fn get(&self, id: u16) -> Option<Leaf>
        ensures { result ≡ find (is_called (picture_type self.now.kind) id) self.now.leaves.now }
    {
        self.firsts[id as usize]
    }
}
