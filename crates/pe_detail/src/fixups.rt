//! The numbers of the faults of base relocations: 33 to 38.

ghost use Rattle.std.specs.Prelude.{◌≡◌, ◌+◌, ◌<◌, ◌≤◌, ◌^◌, IfSome};
ghost use Rattle.pe_layout.specs.Layout.{image_of};
ghost use Rattle.pe_detail.specs.FixupDetail.{block_detail, block_size, page_of, field_width, entry_detail, entry_detail_at, field_detail, fixup_detail_in, fixup_detail};

use crate::detail::Detail;
use crate::numbers::{past_image, u16_in, u32_in};
use pe_head::{Directory, directory_index};
use pe_layout::Layout;

/// The end of the table of a directory.
fn end_of(directory: Directory) -> u64
    ensures { result ≡ directory.rva + directory.size }
{
    directory.rva as u64 + directory.size as u64
}

/// The numbers of fault 33 in a table that ends at `end`.
fn block_detail(layout: &Layout, end: u64, at: u64) -> Option<Detail>
    requires { at < 2 ^ 32 }
    ensures { result ≡ block_detail (image_of layout.now) end at }
{
    let size = u32_in(layout, at + 4)?;
    Some(Detail::BlockSize {
        size,
        left: end.saturating_sub(at),
    })
}

/// BlockSize of the block at an RVA, if a table that ends at `end` has one there.
fn block_size(layout: &Layout, end: u64, rva: u64) -> Option<u64>
    requires small { rva < 2 ^ 32 }
    requires inside { end ≤ (image_of layout.now).size }
    ensures value { result ≡ block_size (image_of layout.now) end rva }
    ensures few { IfSome result (λ size. size < 2 ^ 32) }
{
    if end < rva + 8 {
        return None;
    }
    match u32_in(layout, rva + 4) {
        Some(0) | None => None,
        Some(size) => Some(size),
    }
}

/// PageRVA of the block with the entry at an RVA, in a table that lies in the image.
fn page_of(layout: &Layout, directory: Directory, at: u64) -> Option<u64>
    requires small { at < 2 ^ 32 }
    requires inside { directory.rva + directory.size ≤ (image_of layout.now).size }
    ensures value { result ≡ page_of (image_of layout.now) directory at }
    ensures small { IfSome result (λ page. page < 2 ^ 32) }
{
    let end = end_of(directory);
    let mut rva = directory.rva as u64;
    for _block in 0..directory.size {
        let size = block_size(layout, end, rva)?;
        if at < rva + size {
            return u32_in(layout, rva);
        }
        rva += size;
    }
    None
}

/// The size of the field that an entry of a type names.
fn field_width(entry_type: u64) -> Option<u64>
    ensures { result ≡ field_width entry_type }
{
    match entry_type {
        1 | 2 => Some(2),
        3 => Some(4),
        10 => Some(8),
        _ => None,
    }
}

/// The numbers of faults 35 to 38 of an entry of a type, whose field is at an RVA.
fn entry_detail(layout: &Layout, number: u16, entry_type: u64, field: u64) -> Option<Detail>
    ensures { result ≡ entry_detail (image_of layout.now) number entry_type field }
{
    if number == 35 {
        return Some(Detail::EntryType { entry_type, field });
    }
    let size = field_width(entry_type)?;
    if number == 36 {
        Some(past_image(layout, field, size))
    } else {
        Some(Detail::FieldBytes { size, rva: field })
    }
}

/// The numbers of faults 35 to 38 of the entry at an RVA, in a block with this PageRVA.
fn entry_detail_at(layout: &Layout, number: u16, at: u64, page: u64) -> Option<Detail>
    requires { page < 2 ^ 32 }
    ensures { result ≡ entry_detail_at (image_of layout.now) number at page }
{
    let value = u16_in(layout, at)?;
    entry_detail(layout, number, value / 4096, page + value % 4096)
}

/// The numbers of faults 35 to 38 of the entry at an RVA.
fn field_detail(layout: &Layout, directory: Directory, number: u16, at: u64) -> Option<Detail>
    requires { at < 2 ^ 32 }
    ensures { result ≡ field_detail (image_of layout.now) directory number at }
{
    if !layout.contains(directory.rva, directory.size as u64) {
        return None;
    }
    let page = page_of(layout, directory, at)?;
    entry_detail_at(layout, number, at, page)
}

/// The numbers of a fault at an RVA, of the table of this directory.
fn fixup_detail_in(layout: &Layout, directory: Directory, number: u16, at: u64) -> Option<Detail>
    requires { at < 2 ^ 32 }
    ensures { result ≡ fixup_detail_in (image_of layout.now) directory number at }
{
    match number {
        33 => block_detail(layout, end_of(directory), at),
        34 => Some(past_image(layout, at, directory.size as u64)),
        _ => field_detail(layout, directory, number, at),
    }
}

/// The numbers of a fault of the base relocations at an RVA.
pub(crate) fn fixup_detail(layout: &Layout, number: u16, at: u64) -> Option<Detail>
    requires { at < 2 ^ 32 }
    ensures { result ≡ fixup_detail (image_of layout.now) number at }
{
    match layout.directory(directory_index::BASE_RELOCATION) {
        Some(directory) => fixup_detail_in(layout, directory, number, at),
        None => None,
    }
}
