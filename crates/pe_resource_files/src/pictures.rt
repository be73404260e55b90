//! The pictures of a group, and the file of them.

ghost use Rattle.std.specs.Prelude.{◌≡◌, ◌+◌, ◌*◌, ◌^◌, ◌≤◌, ◌<◌, IfOk, IfSome, OnOk, IsErrOf, option_map, map, length, ◌++◌, if◌then◌else◌, nat_le, Some, None};
ghost use Rattle.pe_view.specs.View.{bytes_of, size_of};
ghost use Rattle.pe_numbers.specs.Numbers.{numbers_bytes};
ghost use Rattle.pe_layout.specs.Layout.{image_of};
ghost use Rattle.pe_resource_files.specs.File.{pieces_of};
ghost use Rattle.pe_resource_files.specs.Group.{pair_of};
ghost use Rattle.pe_resource_files.specs.Pictures.{picture_at, pictures_of, group_file};
ghost use Rattle.pe_resource_files.specs.PicturesFile.{total_len, entries_from, directory_of, pictures_file};

use crate::by_id::PicturesById;
use crate::file::ResourceFile;
use crate::group::{GroupKind, Picture, entry_word, group_count, picture_of};
use pe_layout::Layout;
use pe_numbers::Number::{U16, U32, U64};
use pe_numbers::push_record;
use pe_resources::{Leaf, leaf_data};
use pe_view::View;
use std::alloc::{AllocError, Allocator};

/// The picture of an entry of a group, if its resource is there, and the file holds its data.
fn picture_at<'a, A: Allocator + Copy>(
    layout: &Layout<'a>,
    by_id: &PicturesById<A>,
    group: View,
    index: u32,
) -> Option<Picture<'a>>
    requires index { index < 2 ^ 16 }
    requires held { 6 + 14 * (index + 1) ≤ size_of group }
    ensures { option_map pair_of result ≡ picture_at (image_of layout.now) by_id.now.leaves.now by_id.now.kind (bytes_of group.entry) index }
{
    let leaf = by_id.get(entry_word(group, index, 12))?;
    let bytes = leaf_data(layout, &leaf)?;
    picture_of(by_id.kind, group, index, bytes)
}

/// The pictures of the entries of a group, if all are there.
fn pictures_of<'a, A: Allocator + Copy>(
    alloc: A,
    layout: &Layout<'a>,
    by_id: &PicturesById<A>,
    group: View,
    count: u16,
) -> Result<Option<Vec<Picture<'a>, A>>, AllocError>
    requires held { 6 + 14 * count ≤ size_of group }
    ensures count { IfOk result (λ pictures. IfSome pictures (λ ps. length ps.items ≡ count)) }
    ensures pictures { IfOk result (λ pictures. option_map (λ ps. map pair_of ps.items) pictures
        ≡ pictures_of (image_of layout.now) by_id.now.leaves.now by_id.now.kind (bytes_of group.entry) count) }
{
    let mut pictures = Vec::new(alloc);
    for index in 0..count as u32 {
        let Some(picture) = picture_at(layout, by_id, group, index) else {
            return Ok(None);
        };
        pictures.push(picture)?;
    }
    Ok(Some(pictures))
}

/// How many bytes pictures have together, if not more than `most`.
fn total_len(pictures: &[Picture], most: u32) -> Option<u32>
    ensures { result ≡ (if nat_le (total_len (map pair_of pictures.now)) most then Some (total_len (map pair_of pictures.now)) else None) }
{
    let mut total = 0;
    for picture in pictures {
        if picture.bytes.len() > (most - total) as usize {
            return None;
        }
        total += picture.bytes.len() as u32;
    }
    Some(total)
}

/// Appends the entries of pictures that begin at an offset of their file.
fn push_entries<A: Allocator>(
    bytes: &mut Vec<u8, A>,
    pictures: &[Picture],
    start: u32,
) -> Result<(), AllocError>
    requires { start + total_len (map pair_of pictures.now) < 2 ^ 32 }
    ensures { OnOk result (bytes.new.items ≡ bytes.old.items ++ numbers_bytes (entries_from start (map pair_of pictures.now))) }
{
    let mut at = start;
    for picture in pictures {
        let len = picture.bytes.len() as u32;
        push_record::<16, A>(bytes, &[U64(picture.front), U32(len), U32(at)])?;
        at += len;
    }
    Ok(())
}

/// What stands before the pictures in their file: its header, and an entry for each.
fn directory_of<A: Allocator + Copy>(
    alloc: A,
    kind: GroupKind,
    pictures: &[Picture],
) -> Result<Vec<u8, A>, AllocError>
    requires few { length pictures.now < 2 ^ 16 }
    requires small { 6 + 16 * length pictures.now + total_len (map pair_of pictures.now) < 2 ^ 32 }
    ensures { IfOk result (λ bytes. bytes.items ≡ numbers_bytes (directory_of kind (map pair_of pictures.now))) }
{
    let mut bytes = Vec::new(alloc);
    let count = pictures.len() as u16;
    push_record::<6, A>(&mut bytes, &[U16(0), U16(kind.file_type()), U16(count)])?;
    push_entries(&mut bytes, pictures, 6 + 16 * count as u32)?;
    Ok(bytes)
}

/// The bytes of each picture.
fn parts_of<'a, A: Allocator + Copy>(
    alloc: A,
    pictures: &[Picture<'a>],
) -> Result<Vec<&'a [u8], A>, AllocError>
    ensures { IfOk result (λ parts. map (λ bytes. bytes.now) parts.items ≡ map (λ picture. picture.1) (map pair_of pictures.now)) }
{
    let mut parts = Vec::new(alloc);
    for picture in pictures {
        parts.push(picture.bytes)?;
    }
    Ok(parts)
}

/// The file of pictures, unless they have more than `most` bytes together, or the file would be too large for its numbers.
fn pictures_file<'a, A: Allocator + Copy>(
    alloc: A,
    most: u32,
    kind: GroupKind,
    pictures: &[Picture<'a>],
) -> Result<Option<ResourceFile<'a, A>>, AllocError>
    requires few { length pictures.now < 2 ^ 16 }
    ensures { IfOk result (λ file. option_map pieces_of file ≡ pictures_file most kind (map pair_of pictures.now)) }
{
    let Some(total) = total_len(pictures, most) else {
        return Ok(None);
    };
    if total > u32::MAX - 6 - 16 * pictures.len() as u32 {
        return Ok(None);
    }
    Ok(Some(ResourceFile {
        front: directory_of(alloc, kind, pictures)?,
        parts: parts_of(alloc, pictures)?,
    }))
}

/// The file of a group of icons or cursors, unless a picture is not there, or they have more than `most` bytes together.
pub(crate) fn group_file<'a, A: Allocator + Copy>(
    alloc: A,
    most: u32,
    layout: &Layout<'a>,
    leaves: &[Leaf],
    kind: GroupKind,
    group: &[u8],
) -> Result<Option<ResourceFile<'a, A>>, AllocError>
    ensures { IfOk result (λ file. option_map pieces_of file ≡ group_file most (image_of layout.now) leaves.now kind group.now) }
{
    let view = View::new(group);
    let Some(count) = group_count(view) else {
        return Ok(None);
    };
    let by_id = PicturesById::new(alloc, leaves, kind)?;
    match pictures_of(alloc, layout, &by_id, view, count)? {
        Some(pictures) => pictures_file(alloc, most, kind, &pictures),
        None => Ok(None),
    }
}
