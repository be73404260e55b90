//! `SectionHeader`: a row of the section table, of an image or an object, with its flags and its sizes in image and file.

ghost use Rattle.std.specs.Prelude.{◌≡◌, ◌+◌, ◌≤◌};
ghost use Rattle.pe_view.specs.Number.{num, byte_of};

use pe_view::View;

/// A row of the section table ("PE Format", Section Table). Sizes count bytes.
#[derive(Clone, Copy, Debug, Default, PartialEq, Eq)]
pub struct SectionHeader {
    /// The name, padded with zero bytes.
    pub name: [u8; 8],
    /// The size in the laid-out image; 0 means SizeOfRawData.
    pub virtual_size: u32,
    /// The RVA of the first byte.
    pub virtual_address: u32,
    /// The size in the file.
    pub size_of_raw_data: u32,
    /// The file offset of the first byte; 0 if the section has no raw data.
    pub pointer_to_raw_data: u32,
    /// The file offset of the object's relocations; 0 in images.
    pub pointer_to_relocations: u32,
    /// The file offset of the line numbers.
    pub pointer_to_linenumbers: u32,
    /// The number of relocations.
    pub number_of_relocations: u16,
    /// The number of line numbers.
    pub number_of_linenumbers: u16,
    /// The section's flags.
    pub characteristics: u32,
}

/// Flags of a section ("PE Format", Section Flags).
pub mod section_flag {
    /// Obsolete: do not pad the section to the next boundary.
    pub const TYPE_NO_PAD: u32 = 0x0000_0008;
    /// The section contains code.
    pub const CODE: u32 = 0x0000_0020;
    /// The section contains initialized data.
    pub const INITIALIZED_DATA: u32 = 0x0000_0040;
    /// The section contains uninitialized data.
    pub const UNINITIALIZED_DATA: u32 = 0x0000_0080;
    /// Reserved.
    pub const LNK_OTHER: u32 = 0x0000_0100;
    /// The section contains comments for the linker.
    pub const LNK_INFO: u32 = 0x0000_0200;
    /// The section does not become part of the image.
    pub const LNK_REMOVE: u32 = 0x0000_0800;
    /// The section contains COMDAT data.
    pub const LNK_COMDAT: u32 = 0x0000_1000;
    /// The section contains data referenced through the global pointer.
    pub const GPREL: u32 = 0x0000_8000;
    /// Reserved.
    pub const PURGEABLE: u32 = 0x0002_0000;
    /// Reserved.
    pub const LOCKED: u32 = 0x0004_0000;
    /// Reserved.
    pub const PRELOAD: u32 = 0x0008_0000;
    /// The number of relocations is in the first of them.
    pub const LNK_NRELOC_OVFL: u32 = 0x0100_0000;
    /// The section can be discarded when it is no longer needed.
    pub const DISCARDABLE: u32 = 0x0200_0000;
    /// The section cannot be cached.
    pub const NOT_CACHED: u32 = 0x0400_0000;
    /// The section is not pageable.
    pub const NOT_PAGED: u32 = 0x0800_0000;
    /// The section is shared in memory.
    pub const SHARED: u32 = 0x1000_0000;
    /// The section can be executed as code.
    pub const EXECUTE: u32 = 0x2000_0000;
    /// The section can be read.
    pub const READ: u32 = 0x4000_0000;
    /// The section can be written.
    pub const WRITE: u32 = 0x8000_0000;
}

/// The number in 2 bytes of a row of a section table.
#[inline]
fn u16_in_row(row: &[u8; 40], start: usize) -> u16
    requires { start + 2 ≤ 40 }
    ensures { result ≡ num (byte_of row.now) start 2 }
{
    u16::from_le_bytes([row[start], row[start + 1]])
}

/// The number in 4 bytes of a row of a section table.
#[inline]
fn u32_in_row(row: &[u8; 40], start: usize) -> u32
    requires { start + 4 ≤ 40 }
    ensures { result ≡ num (byte_of row.now) start 4 }
{
    u32::from_le_bytes([row[start], row[start + 1], row[start + 2], row[start + 3]])
}

impl SectionHeader {
    ghost use Rattle.pe_view.specs.View.{bytes_of, size_of};
    ghost use Rattle.pe_head.specs.Section.{extent, rawlen, section_header};

    /// The section header at an offset of a file that contains it.
    #[tactic(auto, using(crate::proofs::Rows::header_in))]
    pub fn read(file: View, start: u64) -> SectionHeader
        requires { start + 40 ≤ size_of file }
        ensures { result ≡ section_header (bytes_of file.entry) start }
    {
        let row = file.slice(start, 40).unwrap().first_chunk().unwrap();
        SectionHeader::of_row(row)
    }

    /// The section header that a row of a section table is. A caller that needs a few of its fields pays for these alone.
    #[inline]
    pub fn of_row(row: &[u8; 40]) -> SectionHeader
        ensures { result ≡ section_header row.now 0 }
    {
        let mut name = [0; 8];
        name.copy_from_slice(&row[..8]);
        SectionHeader {
            name,
            virtual_size: u32_in_row(row, 8),
            virtual_address: u32_in_row(row, 12),
            size_of_raw_data: u32_in_row(row, 16),
            pointer_to_raw_data: u32_in_row(row, 20),
            pointer_to_relocations: u32_in_row(row, 24),
            pointer_to_linenumbers: u32_in_row(row, 28),
            number_of_relocations: u16_in_row(row, 32),
            number_of_linenumbers: u16_in_row(row, 34),
            characteristics: u32_in_row(row, 36),
        }
    }

    /// The VirtualAddress in a row of a section table.
    #[inline]
    pub fn virtual_address_of_row(row: &[u8; 40]) -> u32
        ensures { result ≡ (section_header row.now 0).virtual_address }
    {
        u32_in_row(row, 12)
    }

    /// The section's size in the laid-out image: VirtualSize, or SizeOfRawData if VirtualSize is 0.
    pub fn extent(&self) -> u32
        ensures { result ≡ extent self.now }
    {
        if self.virtual_size == 0 {
            self.size_of_raw_data
        } else {
            self.virtual_size
        }
    }

    /// How many bytes of the section, from the first on, come from the file: 0 if PointerToRawData is 0, otherwise the smaller of
    /// the extent and SizeOfRawData.
    pub fn rawlen(&self) -> u32
        ensures { result ≡ rawlen self.now }
    {
        if self.pointer_to_raw_data == 0 {
            0
        } else {
            self.extent().min(self.size_of_raw_data)
        }
    }
}
