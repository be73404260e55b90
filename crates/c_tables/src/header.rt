//! The headers of a big object, as C has them: `BigObjectHeaderRecord`, and its section headers.

ghost use Rattle.std.specs.Prelude.{◌≡◌};
ghost use Rattle.c_tables.specs.HeaderRecords.{big_object_header_record};
ghost use Rattle.coff_read.specs.BigObjectFile.{big_file_header, big_file_of, big_section_headers};
ghost use Rattle.pe_records_c.specs.ObjectHeaderRows.{section_header_row};
ghost use Rattle.pe_records_c.specs.Rows.{filled, Fills};

use coff_read::BigObjectFile;
use pe_records_c::object_headers::SectionHeaderRow;

/// The header of a big object, field by field and in the file's order, without its two signatures and its class, which are those of
/// every big object.
#[repr(C)]
#[derive(Clone, Copy)]
pub struct BigObjectHeaderRecord {
    /// The version of the header: 2 or more.
    pub version: u16,
    /// The processor that the object is for.
    pub machine: u16,
    /// When the object was made, in seconds since 1970, as written.
    pub time_date_stamp: u32,
    /// SizeOfData, as written.
    pub size_of_data: u32,
    /// Flags of the header, as written.
    pub flags: u32,
    /// The bytes of the metadata, as written.
    pub meta_data_size: u32,
    /// The file offset of the metadata, as written.
    pub meta_data_offset: u32,
    /// How many section headers there are.
    pub number_of_sections: u32,
    /// The file offset of the symbol table; 0 if there is none.
    pub pointer_to_symbol_table: u32,
    /// How many records the symbol table has.
    pub number_of_symbols: u32,
}

/// The header of a big object as C has it.
pub fn big_object_header_record(object: &BigObjectFile) -> BigObjectHeaderRecord
    ensures { result ≡ big_object_header_record (big_file_header (big_file_of object.now)) }
{
    let header = object.header();
    BigObjectHeaderRecord {
        version: header.version,
        machine: header.machine,
        time_date_stamp: header.time_date_stamp,
        size_of_data: header.size_of_data,
        flags: header.flags,
        meta_data_size: header.meta_data_size,
        meta_data_offset: header.meta_data_offset,
        number_of_sections: header.number_of_sections,
        pointer_to_symbol_table: header.pointer_to_symbol_table,
        number_of_symbols: header.number_of_symbols,
    }
}

/// [`put_section_headers`], with a contract about each row.
fn fill_headers(rows: &mut [SectionHeaderRow], object: &BigObjectFile)
    ensures { Fills (λ header row. row ≡ section_header_row header) (big_section_headers (big_file_of object.now)) rows.old rows.new }
{
    let count = rows.len().min(object.section_count());
    for index in 0..count {
        rows[index] = SectionHeaderRow::of(&object.section_header(index).unwrap());
    }
}

/// Fills the first rows with the section headers of a big object, as many as fit.
pub fn put_section_headers(rows: &mut [SectionHeaderRow], object: &BigObjectFile)
    ensures { rows.new ≡ filled section_header_row (big_section_headers (big_file_of object.now)) rows.old }
{
    fill_headers(rows, object);
}
