//! `leaves`: the whole resource tree of an image.

ghost use Rattle.std.specs.Prelude.{◌≡◌, None, IfOk, IsOk};
ghost use Rattle.pe_view.specs.Standing.{standing};
ghost use Rattle.pe_layout.specs.Layout.{image_of};
ghost use Rattle.pe_resources.specs.Walk.{walk_of, leaves_of, resource_tests};
ghost use Rattle.pe_resources.specs.Found.{Shows};

use crate::found::Found;
use crate::leaf::{Leaf, Path};
use crate::section::Section;
use crate::tree::read_directory;
use pe_layout::Layout;
use pe_view::Fault;
use std::alloc::{AllocError, Allocator};

/// How many levels the tree has: types, names, languages.
const LEVELS: u32 = 3;

/// The leaves of an image's resource tree, and what is found of it.
#[derive(Drop)]
pub struct Tree<A: Allocator> {
    /// In the order of the tree.
    pub leaves: Vec<Leaf, A>,
    /// Findings 181 to 189, in the order in which they are asked.
    pub findings: Vec<Fault, A>,
}

/// What is read of the resource tree of an image.
fn read_tree<A: Allocator + Copy>(alloc: A, layout: &Layout) -> Result<Found<A>, AllocError>
    ensures shows { IfOk result (λ found. Shows found (walk_of (image_of layout.now))) }
    ensures absent { (image_of layout.now).directory 2 ≡ None → IsOk result }
{
    let mut found = Found::new(alloc);
    let Some(section) = Section::of(layout) else {
        return Ok(found);
    };
    if !section.holds(0, 16) {
        found.find(section, 181, 0, true)?;
        return Ok(found);
    }
    read_directory(&mut found, section, LEVELS, Path::none(), 0)?;
    Ok(found)
}

/// The whole resource tree of an image. The error is want of memory; an image without the directory takes none.
pub fn leaves<A: Allocator + Copy>(alloc: A, layout: &Layout) -> Result<Tree<A>, AllocError>
    ensures leaves { IfOk result (λ tree. tree.leaves.items ≡ leaves_of (image_of layout.now)) }
    ensures findings { IfOk result (λ tree. tree.findings.items ≡ standing (resource_tests (image_of layout.now))) }
    ensures absent { (image_of layout.now).directory 2 ≡ None → IsOk result }
{
    let Found {
        leaves,
        findings,
        entered: _,
    } = read_tree(alloc, layout)?;
    Ok(Tree { leaves, findings })
}
