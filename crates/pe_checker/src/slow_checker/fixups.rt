//! The base relocation table: faults 33 to 38.

use super::directories::{BASE_RELOCATION, find_directory};
use super::imports::{Import, overlaps_slot};
use super::numbers::ByteSource;
use super::ordering::{Faults, Phase, Row, rva_row};
use super::overlaps::Span;
use super::plain::PlainImage;
use std::alloc::{AllocError, Global};

/// The size of a block before its entries.
const BLOCK_HEADER: u64 = 8;

/// A block of the table.
#[derive(Clone, Copy)]
struct Block {
    rva: u32,
    page_rva: u32,
    size: u32,
}

impl Block {
    /// The block at an RVA.
    fn at(image: &PlainImage, rva: u32) -> Block {
        Block {
            rva,
            page_rva: image.u32_at(rva as u64),
            size: image.u32_at(rva as u64 + 4),
        }
    }

    /// The RVA of its end.
    fn end(&self) -> u64 {
        self.rva as u64 + self.size as u64
    }

    /// The test of the block, in a directory that ends at an RVA.
    fn rows(&self, directory_end: u64) -> [Row; 1] {
        let is_malformed = self.size % 2 != 0
            || (self.size as u64) < BLOCK_HEADER
            || self.end() > directory_end;
        [rva_row(33, self.size != 0 && is_malformed, self.rva as u64)]
    }

    /// The number of its entries.
    fn entries(&self) -> u64 {
        (self.size as u64).saturating_sub(BLOCK_HEADER) / 2
    }

    /// The RVA of an entry.
    fn entry(&self, index: u64) -> u64 {
        (self.rva as u64 + BLOCK_HEADER).saturating_add(index.saturating_mul(2))
    }

    /// The index of the first entry from this one on that has a byte in the file. The entries before it are 0.
    fn next_in_file(&self, image: &PlainImage, index: u64) -> u64 {
        let place = image.next_in_file(self.entry(index));
        index.max(place.saturating_sub(self.entry(0)) / 2)
    }
}

/// The kinds of entries of a block.
#[derive(Clone, Copy)]
enum Entry {
    /// Padding.
    Absolute,
    /// A fixup with a field.
    Field(Span),
    /// A type that is not supported.
    Unknown,
}

/// The entry of a block at an RVA.
fn entry_at(image: &PlainImage, block: &Block, rva: u64) -> Entry {
    let number = image.u16_at(rva);
    let start = block.page_rva as u64 + (number & 0xfff) as u64;
    match number >> 12 {
        0 => Entry::Absolute,
        1 | 2 => Entry::Field(Span { start, len: 2 }),
        3 => Entry::Field(Span { start, len: 4 }),
        10 => Entry::Field(Span { start, len: 8 }),
        _ => Entry::Unknown,
    }
}

/// The tests of the entry at an RVA.
fn entry_rows(
    image: &PlainImage,
    rva: u64,
    entry: Entry,
    imports: &[Import],
    earlier: &[Span],
) -> [Row; 4] {
    let (is_unknown, field) = match entry {
        Entry::Absolute => (false, None),
        Entry::Unknown => (true, None),
        Entry::Field(field) => (false, Some(field)),
    };
    let holds = |test: bool| field.is_some() && test;
    let field = field.unwrap_or(Span { start: 0, len: 0 });
    [
        rva_row(35, is_unknown, rva),
        rva_row(36, holds(!image.holds(field.start, field.len)), rva),
        rva_row(37, holds(field.overlaps_any(earlier)), rva),
        rva_row(38, holds(overlaps_slot(&field, imports)), rva),
    ]
}

/// Lists the faults of the base relocation table's first record that has one, and returns whether there is one.
pub(super) fn list_fixups(
    alloc: Global,
    image: &PlainImage,
    imports: &[Import],
    faults: &mut Faults,
) -> Result<bool, AllocError> {
    faults.begin_phase(Phase::Fixups);
    let Some(directory) = find_directory(image, BASE_RELOCATION) else {
        return Ok(false);
    };
    let end = directory.rva as u64 + directory.size as u64;
    let is_outside = end > image.headers.size_of_image as u64;
    if faults.record(&[rva_row(34, is_outside, directory.rva as u64)])? {
        return Ok(true);
    }
    list_blocks(alloc, image, directory.rva, end, imports, faults)
}

/// Lists the faults of the first record that has one, from the block at an RVA on, and returns whether there is one. The blocks
/// end where fewer than 8 bytes of the directory remain, or at a BlockSize of 0.
fn list_blocks(
    alloc: Global,
    image: &PlainImage,
    first: u32,
    end: u64,
    imports: &[Import],
    faults: &mut Faults,
) -> Result<bool, AllocError> {
    let mut fields = Vec::new(alloc);
    let mut place = Some(first);
    for _ in 0..end {
        let Some(rva) = place else {
            break;
        };
        if rva as u64 + BLOCK_HEADER > end {
            break;
        }
        let block = Block::at(image, rva);
        if faults.record(&block.rows(end))? {
            return Ok(true);
        }
        if block.size == 0 {
            break;
        }
        if list_entries(image, &block, imports, &mut fields, faults)? {
            return Ok(true);
        }
        place = u32::try_from(block.end()).ok();
    }
    Ok(false)
}

/// Adds the fields of a block, and lists the faults of its first entry that has one; returns whether there is one. Entries without
/// a byte in the file are ABSOLUTE and have none, so they are skipped together.
fn list_entries(
    image: &PlainImage,
    block: &Block,
    imports: &[Import],
    fields: &mut Vec<Span>,
    faults: &mut Faults,
) -> Result<bool, AllocError> {
    let mut index = 0;
    for _ in 0..block.entries() {
        index = block.next_in_file(image, index);
        if index >= block.entries() {
            break;
        }
        let rva = block.entry(index);
        let entry = entry_at(image, block, rva);
        if faults.record(&entry_rows(image, rva, entry, imports, fields.as_slice()))? {
            return Ok(true);
        }
        if let Entry::Field(field) = entry {
            fields.push(field)?;
        }
        index += 1;
    }
    Ok(false)
}
