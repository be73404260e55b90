//! Sections and relocations of an object as C has them: `ObjectSectionRow` and `ObjectRelocationRow`.

ghost use Rattle.std.specs.Prelude.{◌≡◌, ◌++◌, drop, length, slice_get};
ghost use Rattle.coff_read.specs.FileView.{file_section_view, relocations_view};
ghost use Rattle.coff_read.specs.ObjectFile.{file_of};
ghost use Rattle.coff_read.specs.Reading.{object_of};
ghost use Rattle.pe_records_c.specs.ObjectRows.{section_text, section_row, relocation_row, relocations_of, FillsRelocations, TellsRelocations};
ghost use Rattle.pe_records_c.specs.Rows.{Fills, TellsTable};

use crate::row::table_status;
use crate::status;
use coff_read::{FileSection, ObjectFile, RawData, Relocation, Relocations};
use std::alloc::Global;

/// A section of an object. Sizes count bytes.
#[repr(C)]
#[derive(Clone, Copy)]
pub struct ObjectSectionRow<'a> {
    /// The name, also if it is in the string table.
    pub name: &'a [u8],
    /// The raw data; empty if the file holds none.
    pub bytes: &'a [u8],
    /// SizeOfRawData if the file holds no raw data; otherwise 0.
    pub absent_size: u32,
    /// VirtualSize, as written.
    pub virtual_size: u32,
    /// VirtualAddress, as written.
    pub virtual_address: u32,
    /// The section's flags.
    pub characteristics: u32,
    /// How many relocations it has.
    pub relocation_count: u32,
}

/// A relocation of a section of an object.
#[repr(C)]
#[derive(Clone, Copy)]
pub struct ObjectRelocationRow {
    /// Where the reference is: its offset in the section, plus the section's VirtualAddress, which is mostly 0.
    pub address: u32,
    /// The index of the symbol's record, counting auxiliary records.
    pub symbol: u32,
    /// The type, which depends on the machine.
    pub kind: u32,
}

impl<'a> ObjectSectionRow<'a> {
    /// A section as C has it.
    pub fn of(section: FileSection<'a>) -> ObjectSectionRow<'a>
        ensures { section_text result ≡ section_row (file_section_view section.entry) }
    {
        let (bytes, absent_size): (&'a [u8], u32) = match section.raw {
            RawData::Bytes(bytes) => (bytes, 0),
            RawData::Absent(size) => (&[], size),
        };
        ObjectSectionRow {
            name: section.name,
            bytes,
            absent_size,
            virtual_size: section.virtual_size,
            virtual_address: section.virtual_address,
            characteristics: section.flags,
            relocation_count: section.relocations.len() as u32,
        }
    }
}

impl ObjectRelocationRow {
    /// A relocation as C has it.
    pub fn of(relocation: Relocation) -> ObjectRelocationRow
        ensures { result ≡ relocation_row relocation }
    {
        ObjectRelocationRow {
            address: relocation.address,
            symbol: relocation.symbol,
            kind: u32::from(relocation.kind),
        }
    }
}

/// Fills the first rows with an object's sections.
fn put_sections<'a>(alloc: Global, rows: &mut [ObjectSectionRow<'a>], object: &ObjectFile<'a>)
    ensures { Fills (λ section row. section_text row ≡ section_row section) (object_of (file_of object.now)).sections rows.old rows.new }
{
    let mut sections = object.each_section(alloc);
    let count = rows.len().min(object.section_count());
    for index in 0..count {
        match sections.next() {
            Some(section) => rows[index] = ObjectSectionRow::of(section),
            None => return,
        }
    }
}

/// Reports the sections of an object, and returns the status, 0 or 4.
pub fn tell_sections<'a>(
    alloc: Global,
    object: &ObjectFile<'a>,
    rows: &mut [ObjectSectionRow<'a>],
    count: &mut usize,
) -> u32
    ensures { TellsTable section_text section_row (object_of (file_of object.now)).sections rows.old rows.new count.new result }
{
    *count = object.section_count();
    put_sections(alloc, rows, object);
    table_status(*count, rows.len())
}

/// Fills the first rows with the relocations after the first `skipped` ones.
pub fn put_relocations(rows: &mut [ObjectRelocationRow], relocations: &Relocations, skipped: usize)
    ensures { FillsRelocations (drop skipped (relocations_view relocations.now)) rows.old rows.new }
{
    let count = rows.len().min(relocations.len().saturating_sub(skipped));
    for index in 0..count {
        rows[index] = ObjectRelocationRow::of(relocations.get(skipped + index).unwrap());
    }
}

/// Reports the relocations of a section, and returns the status: 0 or 4, or 3 if there is no such section.
pub fn tell_relocations(
    object: &ObjectFile,
    section: usize,
    rows: &mut [ObjectRelocationRow],
    count: &mut usize,
) -> u32
    ensures { TellsRelocations (slice_get (object_of (file_of object.now)).sections section) rows.old rows.new count.old count.new result }
{
    match object.section(section) {
        Some(section) => {
            let relocations = section.relocations;
            *count = relocations.len();
            put_relocations(rows, &relocations, 0);
            table_status(*count, rows.len())
        }
        None => status::ABSENT,
    }
}

/// Adds the relocations of a section to rows that hold the `earlier` ones of earlier sections; the first `skipped` of all are left
/// out.
pub fn put_more_relocations(
    rows: &mut [ObjectRelocationRow],
    earlier: usize,
    relocations: &Relocations,
    skipped: usize,
)
    ensures { (first : _) (old : _) → length first ≡ earlier → FillsRelocations (drop skipped first) old rows.old
        → FillsRelocations (drop skipped (first ++ relocations_view relocations.now)) old rows.new }
{
    let start = earlier.saturating_sub(skipped).min(rows.len());
    put_relocations(
        &mut rows[start..],
        relocations,
        skipped.saturating_sub(earlier),
    );
}

/// Fills the first rows with the relocations of all sections after the first `skipped` ones, and returns how many come after these.
fn put_all_relocations(
    alloc: Global,
    rows: &mut [ObjectRelocationRow],
    object: &ObjectFile,
    skipped: usize,
) -> usize
    ensures rows { FillsRelocations (drop skipped (relocations_of (file_of object.now))) rows.old rows.new }
    ensures count { result ≡ length (drop skipped (relocations_of (file_of object.now))) }
{
    let mut earlier: usize = 0;
    for section in object.each_section(alloc) {
        put_more_relocations(rows, earlier, &section.relocations, skipped);
        earlier += section.relocations.len();
    }
    earlier.saturating_sub(skipped)
}

/// Reports the relocations of all sections of an object, section by section, after the first `skipped` ones, and returns the
/// status, 0 or 4.
pub fn tell_all_relocations(
    alloc: Global,
    object: &ObjectFile,
    skipped: usize,
    rows: &mut [ObjectRelocationRow],
    count: &mut usize,
) -> u32
    ensures { TellsTable (λ row. row) relocation_row (drop skipped (relocations_of (file_of object.now))) rows.old rows.new count.new result }
{
    *count = put_all_relocations(alloc, rows, object, skipped);
    table_status(*count, rows.len())
}
