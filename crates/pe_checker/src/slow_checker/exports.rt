//! The export table: faults 16 to 22, and the targets of exports.

use super::directories::{Directory, EXPORT, find_directory};
use super::forwarders::{Forwarder, Wanted, split_forwarder};
use super::numbers::ByteSource;
use super::ordering::{Faults, Phase, Row, rva_row};
use super::plain::PlainImage;
use std::alloc::{AllocError, Global};

/// The greatest number of address table entries, and of names.
const MOST_ENTRIES: u32 = 65_536;

/// The target of an export.
#[derive(Drop)]
pub(super) enum Target {
    /// An RVA of its image.
    Rva,
    /// An export of another module.
    Forwarder(Forwarder),
}

/// The fields of the export directory that are used.
#[derive(Clone, Copy)]
struct ExportTable {
    directory: Directory,
    ordinal_base: u32,
    address_table_entries: u32,
    number_of_name_pointers: u32,
    address_table: u32,
    name_pointers: u32,
    ordinal_table: u32,
}

/// The export table of an image, if its directory is present. Bytes past the end of the image are read as 0.
fn export_table(image: &PlainImage) -> Option<ExportTable> {
    let directory = find_directory(image, EXPORT)?;
    let x = directory.rva as u64;
    Some(ExportTable {
        directory,
        ordinal_base: image.u32_at(x + 16),
        address_table_entries: image.u32_at(x + 20),
        number_of_name_pointers: image.u32_at(x + 24),
        address_table: image.u32_at(x + 28),
        name_pointers: image.u32_at(x + 32),
        ordinal_table: image.u32_at(x + 36),
    })
}

impl ExportTable {
    /// The RVA of an entry of the export address table.
    fn address_entry(&self, index: u32) -> u64 {
        self.address_table as u64 + 4 * index as u64
    }

    /// The RVA of a name's entry in the name pointer table.
    fn pointer_entry(&self, index: u32) -> u64 {
        self.name_pointers as u64 + 4 * index as u64
    }

    /// The RVA of a name's entry in the ordinal table.
    fn ordinal_entry(&self, index: u32) -> u64 {
        self.ordinal_table as u64 + 2 * index as u64
    }

    /// The offset in the directory of the first RVA whose table is not empty and not inside the image: 28 for the addresses, 32
    /// for the names, 36 for the ordinals.
    fn table_outside(&self, image: &PlainImage) -> Option<u32> {
        let tables = [
            (28, self.address_table, 4, self.address_table_entries),
            (32, self.name_pointers, 4, self.number_of_name_pointers),
            (36, self.ordinal_table, 2, self.number_of_name_pointers),
        ];
        for (field, rva, width, count) in tables {
            if count != 0 && !image.holds(rva as u64, width * count as u64) {
                return Some(field);
            }
        }
        None
    }

    /// The offset in the directory of the first count over the limit: 20 for the addresses, 24 for the names.
    fn count_over_limit(&self) -> Option<u32> {
        if self.address_table_entries > MOST_ENTRIES {
            Some(20)
        } else if self.number_of_name_pointers > MOST_ENTRIES {
            Some(24)
        } else {
            None
        }
    }

    /// The tests of the directory. If it is not inside the image, its fields are not tested.
    fn directory_rows(&self, image: &PlainImage) -> [Row; 3] {
        let x = self.directory.rva as u64;
        let is_inside = image.holds(x, 40);
        let outside = self.table_outside(image);
        let over = self.count_over_limit();
        [
            rva_row(16, !is_inside, x),
            rva_row(
                17,
                is_inside && outside.is_some(),
                x + outside.unwrap_or(0) as u64,
            ),
            rva_row(
                18,
                is_inside && over.is_some(),
                x + over.unwrap_or(0) as u64,
            ),
        ]
    }

    /// The tests of a name.
    fn name_rows(
        &self,
        alloc: Global,
        image: &PlainImage,
        index: u32,
    ) -> Result<[Row; 2], AllocError> {
        let pointer = self.pointer_entry(index);
        let entry = self.ordinal_entry(index);
        let text = image.text(alloc, image.u32_at(pointer) as u64)?;
        let address_index = image.u16_at(entry) as u32;
        Ok([
            rva_row(19, text.is_none(), pointer),
            rva_row(20, address_index >= self.address_table_entries, entry),
        ])
    }

    /// The tests of an entry of the export address table.
    fn address_rows(
        &self,
        alloc: Global,
        image: &PlainImage,
        index: u32,
    ) -> Result<[Row; 2], AllocError> {
        let entry = self.address_entry(index);
        let value = image.u32_at(entry);
        let is_forwarder = self.directory.contains(value);
        let is_outside = value != 0 && !is_forwarder && value >= image.headers.size_of_image;
        let is_malformed = is_forwarder && forwarder_at(alloc, image, value)?.is_none();
        Ok([
            rva_row(21, is_outside, entry),
            rva_row(22, is_malformed, entry),
        ])
    }

    /// The index of the address table entry for a key: of an ordinal, or of the first name equal to it.
    fn index_of(
        &self,
        alloc: Global,
        image: &PlainImage,
        wanted: &Wanted,
    ) -> Result<Option<u32>, AllocError> {
        match wanted {
            Wanted::Ordinal(ordinal) => Ok(self.index_of_ordinal(*ordinal)),
            Wanted::Name(name) => self.index_of_name(alloc, image, name),
        }
    }

    /// The index of an ordinal: ordinals begin at OrdinalBase.
    fn index_of_ordinal(&self, ordinal: u16) -> Option<u32> {
        let index = u32::from(ordinal).checked_sub(self.ordinal_base)?;
        if index < self.address_table_entries {
            Some(index)
        } else {
            None
        }
    }

    /// The index in the ordinal table entry of the first name equal to this one.
    fn index_of_name(
        &self,
        alloc: Global,
        image: &PlainImage,
        name: &[u8],
    ) -> Result<Option<u32>, AllocError> {
        for index in 0..self.number_of_name_pointers {
            let text = image.text(alloc, image.u32_at(self.pointer_entry(index)) as u64)?;
            let is_wanted = match &text {
                Some(text) => text.as_slice() == name,
                None => false,
            };
            if is_wanted {
                return Ok(Some(u32::from(image.u16_at(self.ordinal_entry(index)))));
            }
        }
        Ok(None)
    }
}

/// The forwarder whose string is at an RVA, if there is one of its form.
fn forwarder_at(
    alloc: Global,
    image: &PlainImage,
    rva: u32,
) -> Result<Option<Forwarder>, AllocError> {
    match image.text(alloc, rva as u64)? {
        None => Ok(None),
        Some(text) => split_forwarder(alloc, text.as_slice()),
    }
}

/// Lists the faults of the export table's first record that has one, and returns whether there is one.
pub(super) fn list_exports(
    alloc: Global,
    image: &PlainImage,
    faults: &mut Faults,
) -> Result<bool, AllocError> {
    faults.begin_phase(Phase::Exports);
    let Some(table) = export_table(image) else {
        return Ok(false);
    };
    if faults.record(&table.directory_rows(image))? {
        return Ok(true);
    }
    for index in 0..table.number_of_name_pointers {
        if faults.record(&table.name_rows(alloc, image, index)?)? {
            return Ok(true);
        }
    }
    list_addresses(alloc, image, &table, faults)
}

/// Lists the faults of the address table's first entry that has one, and returns whether there is one.
fn list_addresses(
    alloc: Global,
    image: &PlainImage,
    table: &ExportTable,
    faults: &mut Faults,
) -> Result<bool, AllocError> {
    for index in 0..table.address_table_entries {
        if faults.record(&table.address_rows(alloc, image, index)?)? {
            return Ok(true);
        }
    }
    Ok(false)
}

/// The target of an export of an image, or `None` if there is no such export.
pub(super) fn target_of(
    alloc: Global,
    image: &PlainImage,
    wanted: &Wanted,
) -> Result<Option<Target>, AllocError> {
    let Some(table) = export_table(image) else {
        return Ok(None);
    };
    let Some(index) = table.index_of(alloc, image, wanted)? else {
        return Ok(None);
    };
    let value = image.u32_at(table.address_entry(index));
    if value == 0 {
        return Ok(None);
    }
    if !table.directory.contains(value) {
        return Ok(Some(Target::Rva));
    }
    let forwarder = forwarder_at(alloc, image, value)?;
    Ok(forwarder.map(Target::Forwarder))
}
