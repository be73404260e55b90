//! `extract`: a resource of an image, as the file that it is written as.

ghost use Rattle.std.specs.Prelude.{◌≡◌, IfOk, option_map};
ghost use Rattle.pe_layout.specs.Layout.{image_of};
ghost use Rattle.pe_resource_files.specs.Extract.{typed_file, file_of, wanted_file, told, IsExtract};
ghost use Rattle.pe_resource_files.specs.File.{pieces_of};

use crate::bitmap::bitmap_file;
use crate::file::ResourceFile;
use crate::group::GroupKind;
use crate::pictures::group_file;
use crate::wanted::{Wanted, wanted_leaf};
use pe_image::lay_out;
use pe_layout::Layout;
use pe_resources::{Leaf, leaf_data, leaves};
use pe_view::Fault;
use std::alloc::{AllocError, Allocator};

/// How a resource is written.
#[derive(Clone, Copy, Debug, PartialEq, Eq)]
pub enum Form {
    /// As programs read it: a bitmap with the header of its file, a group of icons or cursors with its pictures; others as they stand.
    File,
    /// As it stands in the image.
    Raw,
}

/// What became of a resource that was asked for.
#[derive(Drop)]
pub enum Extracted<'a, A: Allocator> {
    Found(ResourceFile<'a, A>),
    /// The image has no such resource.
    Missing,
    /// The file does not hold its data in one run.
    NotHeld,
    /// It is a bitmap or a group, and damaged: its header is not known, or the file has not all of what belongs to it.
    Damaged,
    /// The file has one of faults 1 to 15.
    Refused(Fault),
}

/// The types of resources that have a file of their own form.
const BITMAP: u32 = 2;

const CURSOR_GROUP: u32 = 12;

const ICON_GROUP: u32 = 14;

/// The data of a resource as the file that programs read.
fn typed_file<'a, A: Allocator + Copy>(
    alloc: A,
    most: u32,
    layout: &Layout<'a>,
    leaves: &[Leaf],
    kind: Option<u32>,
    bytes: &'a [u8],
) -> Result<Option<ResourceFile<'a, A>>, AllocError>
    ensures { IfOk result (λ file. option_map pieces_of file ≡ typed_file most (image_of layout.now) leaves.now kind bytes.now) }
{
    match kind {
        Some(BITMAP) => bitmap_file(alloc, bytes),
        Some(CURSOR_GROUP) => group_file(alloc, most, layout, leaves, GroupKind::Cursors, bytes),
        Some(ICON_GROUP) => group_file(alloc, most, layout, leaves, GroupKind::Icons, bytes),
        _ => Ok(Some(ResourceFile::of_data(alloc, bytes)?)),
    }
}

/// The data of a leaf as a file of this form.
fn file_of<'a, A: Allocator + Copy>(
    alloc: A,
    form: Form,
    most: u32,
    layout: &Layout<'a>,
    leaves: &[Leaf],
    leaf: &Leaf,
    bytes: &'a [u8],
) -> Result<Option<ResourceFile<'a, A>>, AllocError>
    ensures { IfOk result (λ file. option_map pieces_of file ≡ file_of form most (image_of layout.now) leaves.now leaf.now bytes.now) }
{
    match form {
        Form::File => typed_file(alloc, most, layout, leaves, leaf.path.kind, bytes),
        Form::Raw => Ok(Some(ResourceFile::of_data(alloc, bytes)?)),
    }
}

/// The first resource of a laid-out image that is wanted.
fn extract_from<'a, A: Allocator + Copy>(
    alloc: A,
    form: Form,
    most: u32,
    layout: &Layout<'a>,
    wanted: &Wanted,
) -> Result<Extracted<'a, A>, AllocError>
    ensures { IfOk result (λ extracted. told extracted (wanted_file form most (image_of layout.now) wanted.now)) }
{
    let tree = leaves(alloc, layout)?;
    let Some(leaf) = wanted_leaf(layout, &tree.leaves, wanted) else {
        return Ok(Extracted::Missing);
    };
    let Some(bytes) = leaf_data(layout, &leaf) else {
        return Ok(Extracted::NotHeld);
    };
    match file_of(alloc, form, most, layout, &tree.leaves, &leaf, bytes)? {
        Some(file) => Ok(Extracted::Found(file)),
        None => Ok(Extracted::Damaged),
    }
}

/// The first resource of an image, in the order of the tree, that is wanted, as the file that it is written as, if the image's file
/// has none of faults 1 to 15.
///
/// The error is want of memory.
pub fn extract<'a, A: Allocator + Copy>(
    alloc: A,
    form: Form,
    wanted: &Wanted,
    file: &'a [u8],
) -> Result<Extracted<'a, A>, AllocError>
    ensures { IfOk result (IsExtract form wanted.now file.now) }
{
    let most = file.len().min(u32::MAX as usize) as u32;
    match lay_out(file, 0) {
        Ok(layout) => extract_from(alloc, form, most, &layout, wanted),
        Err(fault) => Ok(Extracted::Refused(fault)),
    }
}
