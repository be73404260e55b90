//! The headers of an object as C has them: `ObjectHeaderRecord` and `SectionHeaderRow`.

ghost use Rattle.std.specs.Prelude.{◌≡◌};
ghost use Rattle.coff_read.specs.Headers.{file_header, section_headers};
ghost use Rattle.coff_read.specs.ObjectFile.{file_of};
ghost use Rattle.pe_records_c.specs.ObjectHeaderRows.{object_header_record, section_header_row};
ghost use Rattle.pe_records_c.specs.Rows.{filled, Fills};

use coff_read::ObjectFile;
use pe_head::SectionHeader;

/// The COFF file header of an object, field by field and in the file's order.
#[repr(C)]
#[derive(Clone, Copy)]
pub struct ObjectHeaderRecord {
    /// The processor that the object is for.
    pub machine: u16,
    /// How many section headers there are.
    pub number_of_sections: u16,
    /// When the object was made, in seconds since 1970, as written.
    pub time_date_stamp: u32,
    /// The file offset of the symbol table; 0 if there is none.
    pub pointer_to_symbol_table: u32,
    /// How many records the symbol table has.
    pub number_of_symbols: u32,
    /// The bytes of the optional header.
    pub size_of_optional_header: u16,
    /// Flags of the object.
    pub characteristics: u16,
}

/// A section header, field by field and in the file's order. Sizes count bytes.
#[repr(C)]
#[derive(Clone, Copy)]
pub struct SectionHeaderRow {
    /// The name field, padded with zero bytes: a name, or its offset in the string table.
    pub name: [u8; 8],
    /// VirtualSize, as written.
    pub virtual_size: u32,
    /// VirtualAddress, as written.
    pub virtual_address: u32,
    /// SizeOfRawData, even if the file holds no bytes.
    pub size_of_raw_data: u32,
    /// The file offset of the raw data, as the header has it.
    pub pointer_to_raw_data: u32,
    /// The file offset of the relocations.
    pub pointer_to_relocations: u32,
    /// The file offset of the line numbers.
    pub pointer_to_linenumbers: u32,
    /// How many relocations there are.
    pub number_of_relocations: u16,
    /// How many line numbers there are.
    pub number_of_linenumbers: u16,
    /// The section's flags.
    pub characteristics: u32,
}

impl SectionHeaderRow {
    /// A section header as C has it.
    pub fn of(header: &SectionHeader) -> SectionHeaderRow
        ensures { result ≡ section_header_row header.now }
    {
        SectionHeaderRow {
            name: header.name,
            virtual_size: header.virtual_size,
            virtual_address: header.virtual_address,
            size_of_raw_data: header.size_of_raw_data,
            pointer_to_raw_data: header.pointer_to_raw_data,
            pointer_to_relocations: header.pointer_to_relocations,
            pointer_to_linenumbers: header.pointer_to_linenumbers,
            number_of_relocations: header.number_of_relocations,
            number_of_linenumbers: header.number_of_linenumbers,
            characteristics: header.characteristics,
        }
    }
}

/// The COFF file header of an object as C has it.
pub fn object_header_record(object: &ObjectFile) -> ObjectHeaderRecord
    ensures { result ≡ object_header_record (file_header (file_of object.now)) }
{
    let header = object.header();
    ObjectHeaderRecord {
        machine: header.machine,
        number_of_sections: header.number_of_sections,
        time_date_stamp: header.time_date_stamp,
        pointer_to_symbol_table: header.pointer_to_symbol_table,
        number_of_symbols: header.number_of_symbols,
        size_of_optional_header: header.size_of_optional_header,
        characteristics: header.characteristics,
    }
}

/// [`put_section_headers`], with a contract about each row.
fn fill_headers(rows: &mut [SectionHeaderRow], object: &ObjectFile)
    ensures { Fills (λ header row. row ≡ section_header_row header) (section_headers (file_of object.now)) rows.old rows.new }
{
    let count = rows.len().min(object.section_count());
    for index in 0..count {
        rows[index] = SectionHeaderRow::of(&object.section_header(index).unwrap());
    }
}

/// Fills the first rows with the section headers of an object, as many as fit.
pub fn put_section_headers(rows: &mut [SectionHeaderRow], object: &ObjectFile)
    ensures { rows.new ≡ filled section_header_row (section_headers (file_of object.now)) rows.old }
{
    fill_headers(rows, object);
}
