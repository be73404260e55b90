//! The fields of an image's headers, in the order and under the names of "PE Format".

ghost use Rattle.std.specs.Prelude.{◌≡◌, ◌≤◌, map};
ghost use Rattle.pe_text.specs.Field.{field_of};
ghost use Rattle.pe_text.specs.HeaderFields.{extended_width, coff_fields, standard_fields, windows_fields};

use crate::field::Field;
use crate::fields::{characteristics, time_date_stamp};
use pe_head::{Headers, Magic};

/// A field with a name, a width in bytes and a value.
macro_rules! field {
    ($name:literal, $width:expr, $value:expr) => {
        Field {
            name: $name,
            width: $width,
            value: $value as u64,
        }
    };
}

/// The width in bytes of the fields that PE32+ extends, such as ImageBase.
fn extended_width(magic: Magic) -> u8
    ensures value { result ≡ extended_width magic }
    ensures fits { result ≤ 8 }
{
    magic.image_base_width() as u8
}

/// The fields of the COFF header after Machine, in the header's order ("PE Format", COFF File Header).
pub fn coff_fields(headers: &Headers) -> [Field; 6]
    ensures { map field_of result ≡ coff_fields headers.now }
{
    [
        // from describe/records.txt: coff of headers
        field!(b"NumberOfSections", 2, headers.number_of_sections),
        time_date_stamp(headers.time_date_stamp),
        field!(b"PointerToSymbolTable", 4, headers.pointer_to_symbol_table),
        field!(b"NumberOfSymbols", 4, headers.number_of_symbols),
        field!(b"SizeOfOptionalHeader", 2, headers.size_of_optional_header),
        characteristics(headers.characteristics),
        // end of describe/records.txt
    ]
}

/// The standard fields of the optional header except BaseOfData, in the header's order ("PE Format", Optional Header Standard
/// Fields).
pub fn standard_fields(headers: &Headers) -> [Field; 8]
    ensures { map field_of result ≡ standard_fields headers.now }
{
    [
        // from describe/records.txt: standard of headers
        field!(b"Magic", 2, headers.magic.number()),
        field!(b"MajorLinkerVersion", 1, headers.major_linker_version),
        field!(b"MinorLinkerVersion", 1, headers.minor_linker_version),
        field!(b"SizeOfCode", 4, headers.size_of_code),
        field!(
            b"SizeOfInitializedData",
            4,
            headers.size_of_initialized_data
        ),
        field!(
            b"SizeOfUninitializedData",
            4,
            headers.size_of_uninitialized_data
        ),
        field!(b"AddressOfEntryPoint", 4, headers.address_of_entry_point),
        field!(b"BaseOfCode", 4, headers.base_of_code),
        // end of describe/records.txt
    ]
}

/// The Windows-specific fields of the optional header, in the header's order ("PE Format", Optional Header Windows-Specific
/// Fields).
pub fn windows_fields(headers: &Headers) -> [Field; 21]
    ensures { map field_of result ≡ windows_fields headers.now }
{
    let extended = extended_width(headers.magic);
    [
        // from describe/records.txt: windows of headers
        field!(b"ImageBase", extended, headers.image_base),
        field!(b"SectionAlignment", 4, headers.section_alignment),
        field!(b"FileAlignment", 4, headers.file_alignment),
        field!(
            b"MajorOperatingSystemVersion",
            2,
            headers.major_operating_system_version
        ),
        field!(
            b"MinorOperatingSystemVersion",
            2,
            headers.minor_operating_system_version
        ),
        field!(b"MajorImageVersion", 2, headers.major_image_version),
        field!(b"MinorImageVersion", 2, headers.minor_image_version),
        field!(b"MajorSubsystemVersion", 2, headers.major_subsystem_version),
        field!(b"MinorSubsystemVersion", 2, headers.minor_subsystem_version),
        field!(b"Win32VersionValue", 4, headers.win32_version_value),
        field!(b"SizeOfImage", 4, headers.size_of_image),
        field!(b"SizeOfHeaders", 4, headers.size_of_headers),
        field!(b"CheckSum", 4, headers.check_sum),
        field!(b"Subsystem", 2, headers.subsystem),
        field!(b"DllCharacteristics", 2, headers.dll_characteristics),
        field!(
            b"SizeOfStackReserve",
            extended,
            headers.size_of_stack_reserve
        ),
        field!(b"SizeOfStackCommit", extended, headers.size_of_stack_commit),
        field!(b"SizeOfHeapReserve", extended, headers.size_of_heap_reserve),
        field!(b"SizeOfHeapCommit", extended, headers.size_of_heap_commit),
        field!(b"LoaderFlags", 4, headers.loader_flags),
        field!(b"NumberOfRvaAndSizes", 4, headers.number_of_rva_and_sizes),
        // end of describe/records.txt
    ]
}
