//! The import table: faults 24 to 32, and what an image imports.

use super::directories::{IMPORT, find_directory};
use super::forwarders::Wanted;
use super::numbers::ByteSource;
use super::ordering::{Faults, Phase, Row, rva_row};
use super::overlaps::Span;
use super::plain::PlainImage;
use std::alloc::{AllocError, Global};

/// The greatest number of imports of an image.
const MOST_IMPORTS: u64 = 1_048_576;

/// The size of a descriptor.
const DESCRIPTOR_SIZE: u64 = 20;

/// An import: the RVA of its module's name, its entry of the lookup table, and its slot.
#[derive(Clone, Copy)]
pub(super) struct Import {
    module: u32,
    entry: u64,
    pub slot: Span,
}

impl Import {
    /// The name of its module, which the image has if there is no fault.
    pub fn module(&self, alloc: Global, image: &PlainImage) -> Result<Vec<u8>, AllocError> {
        let name = image.text(alloc, self.module as u64)?;
        Ok(name.unwrap_or(Vec::new(alloc)))
    }

    /// The key of its export, whose name the image has if there is no fault.
    pub fn wanted(&self, alloc: Global, image: &PlainImage) -> Result<Wanted, AllocError> {
        if is_ordinal(image, self.entry) {
            return Ok(Wanted::Ordinal((self.entry & 0xffff) as u16));
        }
        let name = image.text(alloc, name_rva(self.entry))?;
        Ok(Wanted::Name(name.unwrap_or(Vec::new(alloc))))
    }
}

/// Whether the top bit of a lookup entry is set, so that it has an ordinal.
fn is_ordinal(image: &PlainImage, entry: u64) -> bool {
    let top = if image.headers.is_plus() {
        1 << 63
    } else {
        1 << 31
    };
    entry & top != 0
}

/// The RVA of an import name, after its hint of two bytes: bits 0 to 30 of the entry are the hint's RVA.
fn name_rva(entry: u64) -> u64 {
    (entry & 0x7fff_ffff) + 2
}

/// The fields of a descriptor that are used.
#[derive(Clone, Copy)]
struct Descriptor {
    rva: u64,
    lookup_table: u32,
    time_stamp: u32,
    name: u32,
    address_table: u32,
}

impl Descriptor {
    /// The descriptor at an RVA. Bytes past the end of the image are read as 0.
    fn at(image: &PlainImage, rva: u64) -> Descriptor {
        Descriptor {
            rva,
            lookup_table: image.u32_at(rva),
            time_stamp: image.u32_at(rva.saturating_add(4)),
            name: image.u32_at(rva.saturating_add(12)),
            address_table: image.u32_at(rva.saturating_add(16)),
        }
    }

    /// Whether it ends the list.
    fn is_last(&self) -> bool {
        self.name == 0 || self.address_table == 0
    }

    /// The tests of the descriptor; if it ends the list, its fields are not tested.
    fn rows(&self, alloc: Global, image: &PlainImage) -> Result<[Row; 3], AllocError> {
        let is_inside = image.holds(self.rva, DESCRIPTOR_SIZE);
        let is_read = is_inside && !self.is_last();
        let name = image.text(alloc, self.name as u64)?;
        let is_bound = self.lookup_table == 0 && self.time_stamp != 0;
        Ok([
            rva_row(24, !is_inside, self.rva),
            rva_row(25, is_read && name.is_none(), self.rva.saturating_add(12)),
            rva_row(32, is_read && is_bound, self.rva),
        ])
    }

    /// The RVA of an entry of its lookup table; without one the address table is used.
    fn lookup_entry(&self, image: &PlainImage, index: u64) -> u64 {
        let table = if self.lookup_table == 0 {
            self.address_table
        } else {
            self.lookup_table
        };
        (table as u64).saturating_add(index.saturating_mul(image.width()))
    }

    /// The slot of an entry.
    fn slot(&self, image: &PlainImage, index: u64) -> Span {
        let width = image.width();
        Span {
            start: (self.address_table as u64).saturating_add(index.saturating_mul(width)),
            len: width,
        }
    }
}

/// The lookup entry at an RVA; 0 past the end of the image.
fn entry_at(image: &PlainImage, rva: u64) -> u64 {
    if image.headers.is_plus() {
        image.u64_at(rva)
    } else {
        u64::from(image.u32_at(rva))
    }
}

/// The imports of an image in order, or `None` if a record has a fault; the faults of the first one are listed.
pub(super) fn list_imports(
    alloc: Global,
    image: &PlainImage,
    faults: &mut Faults,
) -> Result<Option<Vec<Import>>, AllocError> {
    faults.begin_phase(Phase::Imports);
    let mut imports = Vec::new(alloc);
    let Some(directory) = find_directory(image, IMPORT) else {
        return Ok(Some(imports));
    };
    for index in 0..u32::MAX {
        let rva = directory.rva as u64 + DESCRIPTOR_SIZE * index as u64;
        let descriptor = Descriptor::at(image, rva);
        if faults.record(&descriptor.rows(alloc, image)?)? {
            return Ok(None);
        }
        if descriptor.is_last() {
            break;
        }
        if list_lookup_table(alloc, image, &descriptor, &mut imports, faults)? {
            return Ok(None);
        }
    }
    Ok(Some(imports))
}

/// Adds the imports of a descriptor, and lists the faults of the first entry of its lookup table that has one; returns whether
/// there is one.
fn list_lookup_table(
    alloc: Global,
    image: &PlainImage,
    descriptor: &Descriptor,
    imports: &mut Vec<Import>,
    faults: &mut Faults,
) -> Result<bool, AllocError> {
    for index in 0..=MOST_IMPORTS {
        let rva = descriptor.lookup_entry(image, index);
        let entry = entry_at(image, rva);
        let slot = descriptor.slot(image, index);
        if faults.record(&entry_rows(alloc, image, rva, slot, imports.as_slice())?)? {
            return Ok(true);
        }
        if entry == 0 {
            break;
        }
        imports.push(Import {
            module: descriptor.name,
            entry,
            slot,
        })?;
    }
    Ok(false)
}

/// The tests of the lookup entry at an RVA; an entry of 0, which ends the table, has no slot and no name.
fn entry_rows(
    alloc: Global,
    image: &PlainImage,
    rva: u64,
    slot: Span,
    earlier: &[Import],
) -> Result<[Row; 6], AllocError> {
    let is_inside = image.holds(rva, image.width());
    let entry = entry_at(image, rva);
    let is_read = is_inside && entry != 0;
    let is_name = is_read && !is_ordinal(image, entry);
    let has_no_text = is_name && image.text(alloc, name_rva(entry))?.is_none();
    let has_high_bits = entry >> 31 != 0;
    let overlaps_earlier = overlaps_slot(&slot, earlier);
    Ok([
        rva_row(26, !is_inside, rva),
        rva_row(27, has_no_text, rva),
        rva_row(28, is_name && image.headers.is_plus() && has_high_bits, rva),
        rva_row(29, is_read && !image.holds(slot.start, slot.len), rva),
        rva_row(30, is_read && overlaps_earlier, rva),
        rva_row(31, is_read && earlier.len() as u64 >= MOST_IMPORTS, rva),
    ])
}

/// Whether a range overlaps the slot of one of these imports.
pub(super) fn overlaps_slot(span: &Span, imports: &[Import]) -> bool {
    imports.iter().any(|import| span.overlaps(&import.slot))
}
