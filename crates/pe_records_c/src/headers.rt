//! `DirectoryRow`, `SectionRow` and `HeadersRecord`, as C has them.
//!
//! describe/describe.py writes this file.

ghost use Rattle.std.specs.Prelude.{◌≡◌};
ghost use Rattle.pe_records_c.specs.HeaderRows.{directory_row, section_row, directory_rows, headers_record};
ghost use Rattle.pe_records_c.specs.Rows.{filled};

use crate::row::{Row, fill_rows};
use pe_head::{Directory, Headers, SectionHeader};

/// One of the 16 data directories. Offsets and sizes count bytes.
#[repr(C)]
#[derive(Clone, Copy)]
pub struct DirectoryRow {
    /// Where its table begins in the image, or for the certificate table in the file; 0 if there is none.
    pub rva: u32,
    /// The table's size, as the file has it.
    pub size: u32,
}

impl Row<Directory> for DirectoryRow {
    ghost tells = { λ item row. row ≡ directory_row item };

    fn of(item: &Directory) -> Self {
        DirectoryRow {
            rva: item.rva,
            size: item.size,
        }
    }
}

/// A section of an image. Offsets and sizes count bytes.
#[repr(C)]
#[derive(Clone, Copy)]
pub struct SectionRow {
    /// The name, padded with zero bytes.
    pub name: [u8; 8],
    /// The RVA of the first byte.
    pub rva: u32,
    /// How many bytes of the laid-out image the section takes.
    pub extent: u32,
    /// How many of these, from the first on, come from the file.
    pub file_size: u32,
    /// The file offset of the first byte, as in the header.
    pub pointer_to_raw_data: u32,
    /// The size in the file, as in the header.
    pub size_of_raw_data: u32,
    /// The size in the laid-out image, as in the header.
    pub virtual_size: u32,
    /// The section's flags.
    pub characteristics: u32,
}

impl Row<SectionHeader> for SectionRow {
    ghost tells = { λ item row. row ≡ section_row item };

    fn of(item: &SectionHeader) -> Self {
        SectionRow {
            name: item.name,
            rva: item.virtual_address,
            extent: item.extent(),
            file_size: item.rawlen(),
            pointer_to_raw_data: item.pointer_to_raw_data,
            size_of_raw_data: item.size_of_raw_data,
            virtual_size: item.virtual_size,
            characteristics: item.characteristics,
        }
    }
}

/// Every field of the headers, with the wider type where PE32 and PE32+ differ. Offsets and sizes count bytes.
#[repr(C)]
#[derive(Clone, Copy)]
pub struct HeadersRecord {
    /// The preferred address of the image.
    pub image_base: u64,
    /// How many bytes of stack to reserve.
    pub size_of_stack_reserve: u64,
    /// How many bytes of stack to commit.
    pub size_of_stack_commit: u64,
    /// How many bytes of heap to reserve.
    pub size_of_heap_reserve: u64,
    /// How many bytes of heap to commit.
    pub size_of_heap_commit: u64,
    /// The file offset of the signature.
    pub pe_offset: u32,
    /// When the image was made, in seconds since 1970, as written.
    pub time_date_stamp: u32,
    /// The file offset of the symbol table, or 0 if there is none.
    pub pointer_to_symbol_table: u32,
    /// How many records the symbol table has.
    pub number_of_symbols: u32,
    /// The size of all code.
    pub size_of_code: u32,
    /// The size of all initialized data.
    pub size_of_initialized_data: u32,
    /// The size of all uninitialized data.
    pub size_of_uninitialized_data: u32,
    /// The RVA of the entry point, or 0 if there is none.
    pub address_of_entry_point: u32,
    /// The RVA where code begins.
    pub base_of_code: u32,
    /// The RVA where data begins; 0 in PE32+.
    pub base_of_data: u32,
    /// The alignment of sections in the laid-out image.
    pub section_alignment: u32,
    /// The alignment of raw data in the file.
    pub file_alignment: u32,
    /// Reserved.
    pub win32_version_value: u32,
    /// The size of the laid-out image.
    pub size_of_image: u32,
    /// The size of the headers in the laid-out image.
    pub size_of_headers: u32,
    /// The checksum as written; it is not computed.
    pub check_sum: u32,
    /// Reserved.
    pub loader_flags: u32,
    /// The number of directories, as written; at most 16 are kept.
    pub number_of_rva_and_sizes: u32,
    /// 0x10b for PE32, 0x20b for PE32+.
    pub magic: u16,
    /// The machine that the image is for.
    pub machine: u16,
    /// How many sections there are.
    pub number_of_sections: u16,
    /// The bytes from the beginning of the optional header to the section table.
    pub size_of_optional_header: u16,
    /// The flags of the image.
    pub characteristics: u16,
    /// The subsystem that the image needs to run.
    pub subsystem: u16,
    /// The flags in DllCharacteristics.
    pub dll_characteristics: u16,
    /// The major version of the operating system that the image needs.
    pub major_operating_system_version: u16,
    /// The minor version of the operating system.
    pub minor_operating_system_version: u16,
    /// The image's own major version.
    pub major_image_version: u16,
    /// The image's own minor version.
    pub minor_image_version: u16,
    /// The major version of the subsystem that the image needs.
    pub major_subsystem_version: u16,
    /// The minor version of the subsystem.
    pub minor_subsystem_version: u16,
    /// The linker's major version.
    pub major_linker_version: u8,
    /// The linker's minor version.
    pub minor_linker_version: u8,
    /// The data directories by index; those that the headers do not hold are 0.
    pub directories: [DirectoryRow; 16],
}

/// The data directories by index; those that the headers do not hold are 0.
fn directory_rows(directories: &[Directory]) -> [DirectoryRow; 16]
    ensures { result ≡ directory_rows directories.now }
{
    let mut rows = [DirectoryRow { rva: 0, size: 0 }; 16];
    fill_rows(&mut rows, directories);
    rows
}

/// Fills the first rows with sections.
pub fn put_sections(rows: &mut [SectionRow], sections: &[SectionHeader])
    ensures { rows.new ≡ filled section_row sections.now rows.old }
{
    fill_rows(rows, sections);
}

/// The record for C of `Headers`.
pub fn headers_record(headers: &Headers) -> HeadersRecord
    ensures { result ≡ headers_record headers.now }
{
    HeadersRecord {
        image_base: headers.image_base,
        size_of_stack_reserve: headers.size_of_stack_reserve,
        size_of_stack_commit: headers.size_of_stack_commit,
        size_of_heap_reserve: headers.size_of_heap_reserve,
        size_of_heap_commit: headers.size_of_heap_commit,
        pe_offset: headers.pe_offset,
        time_date_stamp: headers.time_date_stamp,
        pointer_to_symbol_table: headers.pointer_to_symbol_table,
        number_of_symbols: headers.number_of_symbols,
        size_of_code: headers.size_of_code,
        size_of_initialized_data: headers.size_of_initialized_data,
        size_of_uninitialized_data: headers.size_of_uninitialized_data,
        address_of_entry_point: headers.address_of_entry_point,
        base_of_code: headers.base_of_code,
        base_of_data: headers.base_of_data.unwrap_or(0),
        section_alignment: headers.section_alignment,
        file_alignment: headers.file_alignment,
        win32_version_value: headers.win32_version_value,
        size_of_image: headers.size_of_image,
        size_of_headers: headers.size_of_headers,
        check_sum: headers.check_sum,
        loader_flags: headers.loader_flags,
        number_of_rva_and_sizes: headers.number_of_rva_and_sizes,
        magic: headers.magic.number(),
        machine: headers.machine,
        number_of_sections: headers.number_of_sections,
        size_of_optional_header: headers.size_of_optional_header,
        characteristics: headers.characteristics,
        subsystem: headers.subsystem,
        dll_characteristics: headers.dll_characteristics,
        major_operating_system_version: headers.major_operating_system_version,
        minor_operating_system_version: headers.minor_operating_system_version,
        major_image_version: headers.major_image_version,
        minor_image_version: headers.minor_image_version,
        major_subsystem_version: headers.major_subsystem_version,
        minor_subsystem_version: headers.minor_subsystem_version,
        major_linker_version: headers.major_linker_version,
        minor_linker_version: headers.minor_linker_version,
        directories: directory_rows(headers.directories.as_slice()),
    }
}
