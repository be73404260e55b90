//! `Headers`: every field of an image's headers, with the data directories and the section table.

ghost use Rattle.std.specs.Prelude.{◌≡◌, ◌+◌, ◌*◌};

use crate::directory::Directory;
use crate::offsets::{COFF_HEADER_END, SECTION_HEADER_SIZE};
use crate::optional::Magic;
use crate::section::SectionHeader;
use arrayvec::ArrayVec;

/// Every field of an image's headers, in the order of "PE Format"; fields that are wider in PE32+ have that width. Offsets and
/// sizes count bytes.
#[derive(Debug, Drop)]
pub struct Headers {
    /// The form of the optional header.
    pub magic: Magic,
    /// The file offset of the signature.
    pub pe_offset: u32,

    // from describe/records.txt: fields of headers
    // The COFF header.
    /// The machine that the image is for.
    pub machine: u16,
    /// How many sections there are.
    pub number_of_sections: u16,
    /// When the image was made, in seconds since 1970, as written.
    pub time_date_stamp: u32,
    /// The file offset of the symbol table, or 0 if there is none.
    pub pointer_to_symbol_table: u32,
    /// How many records the symbol table has.
    pub number_of_symbols: u32,
    /// The bytes from the beginning of the optional header to the section table.
    pub size_of_optional_header: u16,
    /// The flags of the image.
    pub characteristics: u16,

    // The optional header.
    /// The linker's major version.
    pub major_linker_version: u8,
    /// The linker's minor version.
    pub minor_linker_version: u8,
    /// The size of all code.
    pub size_of_code: u32,
    /// The size of all initialized data.
    pub size_of_initialized_data: u32,
    /// The size of all uninitialized data.
    pub size_of_uninitialized_data: u32,
    /// The RVA of the entry point, or 0 if there is none.
    pub address_of_entry_point: u32,
    /// The RVA where code begins.
    pub base_of_code: u32,
    /// The RVA where data begins, in PE32 only.
    pub base_of_data: Option<u32>,
    /// The preferred address of the image.
    pub image_base: u64,
    /// The alignment of sections in the laid-out image.
    pub section_alignment: u32,
    /// The alignment of raw data in the file.
    pub file_alignment: u32,
    /// The major version of the operating system that the image needs.
    pub major_operating_system_version: u16,
    /// The minor version of the operating system.
    pub minor_operating_system_version: u16,
    /// The image's own major version.
    pub major_image_version: u16,
    /// The image's own minor version.
    pub minor_image_version: u16,
    /// The major version of the subsystem that the image needs.
    pub major_subsystem_version: u16,
    /// The minor version of the subsystem.
    pub minor_subsystem_version: u16,
    /// Reserved.
    pub win32_version_value: u32,
    /// The size of the laid-out image.
    pub size_of_image: u32,
    /// The size of the headers in the laid-out image.
    pub size_of_headers: u32,
    /// The checksum as written; it is not computed.
    pub check_sum: u32,
    /// The subsystem that the image needs to run.
    pub subsystem: u16,
    /// The flags in DllCharacteristics.
    pub dll_characteristics: u16,
    /// How many bytes of stack to reserve.
    pub size_of_stack_reserve: u64,
    /// How many bytes of stack to commit.
    pub size_of_stack_commit: u64,
    /// How many bytes of heap to reserve.
    pub size_of_heap_reserve: u64,
    /// How many bytes of heap to commit.
    pub size_of_heap_commit: u64,
    /// Reserved.
    pub loader_flags: u32,
    /// The number of directories, as written; at most 16 are kept.
    pub number_of_rva_and_sizes: u32,
    // end of describe/records.txt

    /// The data directories in the headers, by index.
    pub directories: ArrayVec<Directory, 16>,
    /// The section table.
    pub sections: ArrayVec<SectionHeader, 96>,
}

impl Headers {
    ghost use Rattle.pe_head.specs.Head.{section_offset};

    /// The file offset of the header of section `index`, counted from 0.
    pub fn section_offset(&self, index: u8) -> u64
        ensures { result ≡ section_offset self.now index }
    {
        row_offset(self.pe_offset, self.size_of_optional_header, index)
    }

    /// A copy of these headers.
    pub fn copy(&self) -> Headers
        ensures { result ≡ self.now }
    {
        let mut directories = ArrayVec::new();
        directories
            .try_extend_from_slice(self.directories.as_slice())
            .unwrap();
        let mut sections = ArrayVec::new();
        sections
            .try_extend_from_slice(self.sections.as_slice())
            .unwrap();
        Headers {
            directories,
            sections,
            ..*self
        }
    }
}

/// The file offset of the header of section `index`.
pub(crate) fn row_offset(pe_offset: u32, size_of_optional_header: u16, index: u8) -> u64
    ensures { result ≡ pe_offset + 24 + size_of_optional_header + 40 * index }
{
    u64::from(pe_offset)
        + COFF_HEADER_END
        + u64::from(size_of_optional_header)
        + SECTION_HEADER_SIZE * u64::from(index)
}
