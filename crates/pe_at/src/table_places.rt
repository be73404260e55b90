//! What stands where in the tables of an image.

use crate::row_name::RowName;
use pe_head::{Directory, Headers, directory_index, directory_name};
use pe_image::Tables;
use pe_layout::Layout;
use std::alloc::Allocator;

/// How many bytes the export directory, an import descriptor, and the header and an entry of a block of base relocations take.
const EXPORT_DIRECTORY_LEN: u32 = 40;

const DESCRIPTOR_LEN: u32 = 20;

const BLOCK_HEADER_LEN: u32 = 8;

const ENTRY_LEN: u32 = 2;

/// Whether an RVA is one of the `len` from `start` on.
pub(crate) fn is_within(rva: u32, start: u32, len: u32) -> bool {
    rva >= start && rva - start < len
}

/// The number at an offset behind an RVA, or 0 outside the image.
fn number_at(layout: &Layout, rva: u32, offset: u32) -> u32 {
    match rva.checked_add(offset) {
        Some(at) => layout.u32_at(at).unwrap_or(0),
        None => 0,
    }
}

/// The index of the entry that has an RVA, among `count` entries of `width` bytes from `start` on.
fn entry_of(rva: u32, start: u32, width: u32, count: u32) -> Option<u32> {
    if rva < start {
        return None;
    }
    let index = (rva - start).checked_div(width)?;
    (index < count).then_some(index)
}

/// What stands at an RVA of the export table: the directory, or an entry of one of its three tables.
fn export_row(layout: &Layout, rva: u32) -> Option<RowName> {
    let start = layout.directory(directory_index::EXPORT)?.rva;
    if is_within(rva, start, EXPORT_DIRECTORY_LEN) {
        return Some(RowName::words("export directory", ""));
    }
    let (addresses, names) = (number_at(layout, start, 20), number_at(layout, start, 24));
    if let Some(index) = entry_of(rva, number_at(layout, start, 28), 4, addresses) {
        return Some(RowName::numbered("entry ", u64::from(index), " of the export address table"));
    }
    if let Some(index) = entry_of(rva, number_at(layout, start, 32), 4, names) {
        return Some(RowName::numbered(
            "entry ",
            u64::from(index),
            " of the export name pointer table",
        ));
    }
    let index = entry_of(rva, number_at(layout, start, 36), 2, names)?;
    Some(RowName::numbered("entry ", u64::from(index), " of the export ordinal table"))
}

/// Whether an entry of an import lookup table ends it.
fn is_null(layout: &Layout, at: u32) -> bool {
    let entry = if layout.slot_width() == 4 {
        layout.u32_at(at).map(u64::from)
    } else {
        layout.u64_at(at)
    };
    match entry {
        Some(entry) => entry == 0,
        None => true,
    }
}

/// The index of the entry that has an RVA in the import lookup table at `start`; the last is the null entry.
fn lookup_entry(layout: &Layout, start: u32, rva: u32) -> Option<u32> {
    let width = layout.slot_width();
    let last = entry_of(rva, start, width, u32::MAX)?;
    for index in 0..last {
        let at = start.checked_add(index.checked_mul(width)?)?;
        if is_null(layout, at) {
            return None;
        }
    }
    Some(last)
}

/// What stands at an RVA of the import descriptor at `at`, or of its lookup table; `None` in the outer option behind the last
/// descriptor. If a descriptor has no lookup table, the slots are in its place.
fn descriptor_row(layout: &Layout, at: u32, number: u32, rva: u32) -> Option<Option<RowName>> {
    if is_within(rva, at, DESCRIPTOR_LEN) {
        return Some(Some(RowName::numbered(
            "descriptor ",
            u64::from(number),
            " of the import table",
        )));
    }
    let (lookup, name, slots) = (
        number_at(layout, at, 0),
        number_at(layout, at, 12),
        number_at(layout, at, 16),
    );
    if name == 0 || slots == 0 {
        return None;
    }
    if lookup == 0 {
        return Some(None);
    }
    let entry = lookup_entry(layout, lookup, rva);
    Some(entry.map(|entry| RowName::entry(
        u64::from(entry),
        " of the lookup table of descriptor ",
        u64::from(number),
        "",
    )))
}

/// What stands at an RVA of the import table: a descriptor, or an entry of a lookup table.
fn import_row(layout: &Layout, rva: u32) -> Option<RowName> {
    let start = layout.directory(directory_index::IMPORT)?.rva;
    for number in 0..u32::MAX {
        let at = start.checked_add(number.checked_mul(DESCRIPTOR_LEN)?)?;
        if let Some(cells) = descriptor_row(layout, at, number, rva)? {
            return Some(cells);
        }
    }
    None
}

/// What stands at an RVA of a block of base relocations, which is `behind` its beginning.
fn block_row(number: u32, behind: u32) -> RowName {
    if behind < BLOCK_HEADER_LEN {
        return RowName::numbered("block ", u64::from(number), " of the base relocations");
    }
    let entry = (behind - BLOCK_HEADER_LEN) / ENTRY_LEN;
    RowName::entry(
        u64::from(entry),
        " of block ",
        u64::from(number),
        " of the base relocations",
    )
}

/// What stands at an RVA of the base relocation table.
fn fixup_row(layout: &Layout, rva: u32) -> Option<RowName> {
    let directory = layout.directory(directory_index::BASE_RELOCATION)?;
    if !is_within(rva, directory.rva, directory.size) {
        return None;
    }
    let end = u64::from(directory.rva) + u64::from(directory.size);
    let mut at = directory.rva;
    for number in 0..directory.size {
        let len = number_at(layout, at, 4);
        let has_header = u64::from(at) + u64::from(BLOCK_HEADER_LEN) <= end;
        if !has_header || len < BLOCK_HEADER_LEN || rva < at {
            return None;
        }
        if rva - at < len {
            return Some(block_row(number, rva - at));
        }
        at = at.checked_add(len)?;
    }
    None
}

/// Whether the contents of a directory's table are not read.
fn is_other(index: usize) -> bool {
    !matches!(
        index,
        directory_index::EXPORT
            | directory_index::IMPORT
            | directory_index::CERTIFICATE
            | directory_index::BASE_RELOCATION
            | directory_index::IMPORT_ADDRESS_TABLE
    )
}

/// The table, of those that are not read, that has an RVA.
fn other_row(directories: &[Directory], rva: u32) -> Option<RowName> {
    for (index, directory) in directories.iter().enumerate() {
        let has_it = directory.rva != 0 && is_within(rva, directory.rva, directory.size);
        if has_it && is_other(index) {
            let name = directory_name(u32::try_from(index).ok()?)?;
            return Some(RowName::words(name, " table"));
        }
    }
    None
}

/// What stands at an RVA of the tables that have no fault, like `descriptor 3 of the import table`, or of those that are not read,
/// like `resource table`. The time is linear in the import and base relocation tables.
pub(crate) fn table_row<A: Allocator + Copy>(
    layout: &Layout,
    headers: &Headers,
    tables: &Tables<A>,
    rva: u32,
) -> Option<RowName> {
    let mut found = None;
    if tables.exports.is_some() {
        found = export_row(layout, rva);
    }
    if found.is_none() && tables.imports.is_some() {
        found = import_row(layout, rva);
    }
    if found.is_none() && tables.fixups.is_some() {
        found = fixup_row(layout, rva);
    }
    if found.is_none() {
        found = other_row(headers.directories.as_slice(), rva);
    }
    found
}
