//! `Fields`: the fields of an image's headers, each read at its offset and width.

ghost use Rattle.std.specs.Prelude.{◌≡◌, ℕ, ◌+◌, ◌≤◌, ◌*◌, ◌^◌, ◌<◌, if◌then◌else◌, map, List, length, slice_index_or};
ghost use Rattle.std.specs.List.{range_with_len};
ghost use Rattle.pe_view.specs.View.{bytes_of, size_of};
ghost use Rattle.pe_view.specs.Number.{num, byte_of};
ghost use Rattle.pe_head.specs.Head.{head_of, directory_count, pe_offset, optional_start, coff_field, field, either_field, magic_of, is_pe32, fixed_size, directory_at, section_at, section_start};
ghost use Rattle.pe_head.specs.Section.{section_header};

use crate::directory::Directory;
use crate::headers::Headers;
use crate::offsets::{COFF_HEADER_END, SECTION_HEADER_SIZE, SIZE_OF_HEADERS, SIZE_OF_IMAGE};
use crate::optional::Magic;
use crate::section::SectionHeader;
use arrayvec::ArrayVec;
use pe_view::View;

/// The fields of the headers, each read at its offset, in a file long enough for the optional header's fields before its
/// directories.
#[derive(Clone, Copy, Debug)]
pub(crate) struct Fields<'a> {
    view: View<'a>,
    offset: u32,
    magic: Magic,
    ghost starts: { offset ≡ pe_offset (bytes_of view) },
    ghost form: { magic ≡ magic_of (bytes_of view) },
    ghost inside: { optional_start (bytes_of view) + fixed_size (bytes_of view) ≤ size_of view },
}

/// The number in 2 bytes inside the file.
pub(crate) fn u16_in(view: View, offset: u64) -> u16
    requires { offset + 2 ≤ size_of view }
    ensures { result ≡ num (byte_of (bytes_of view.entry)) offset 2 }
{
    view.u16_at(offset).unwrap()
}

/// The number in 4 bytes inside the file.
pub(crate) fn u32_in(view: View, offset: u64) -> u32
    requires { offset + 4 ≤ size_of view }
    ensures { result ≡ num (byte_of (bytes_of view.entry)) offset 4 }
{
    view.u32_at(offset).unwrap()
}

/// The number in 8 bytes inside the file.
fn u64_in(view: View, offset: u64) -> u64
    requires { offset + 8 ≤ size_of view }
    ensures { result ≡ num (byte_of (bytes_of view.entry)) offset 8 }
{
    view.u64_at(offset).unwrap()
}

impl<'a> Fields<'a> {
    pub fn new(view: View<'a>, offset: u32, magic: Magic) -> Self
        requires starts { offset ≡ pe_offset (bytes_of view) }
        requires form { magic ≡ magic_of (bytes_of view) }
        requires inside { optional_start (bytes_of view) + fixed_size (bytes_of view) ≤ size_of view }
        ensures { result.view ≡ view.entry }
    {
        Fields {
            view,
            offset,
            magic,
        }
    }

    /// The file offset of the signature.
    pub fn pe_offset(&self) -> u32
        ensures { result ≡ pe_offset (bytes_of self.now.view) }
    {
        self.offset
    }

    /// The form of the optional header.
    pub fn magic(&self) -> Magic
        ensures { result ≡ magic_of (bytes_of self.now.view) }
    {
        self.magic
    }

    /// A 2-byte field of the COFF header.
    pub fn coff_u16(&self, offset: u64) -> u16
        requires { offset + 2 ≤ 20 }
        ensures { result ≡ coff_field (bytes_of self.now.view) offset 2 }
    {
        u16_in(self.view, u64::from(self.offset) + 4 + offset)
    }

    /// A 4-byte field of the COFF header.
    pub fn coff_u32(&self, offset: u64) -> u32
        requires { offset + 4 ≤ 20 }
        ensures { result ≡ coff_field (bytes_of self.now.view) offset 4 }
    {
        u32_in(self.view, u64::from(self.offset) + 4 + offset)
    }

    /// The file offset of the byte at `offset` of the optional header.
    fn optional(&self, offset: u64) -> u64
        requires { offset < 2 ^ 32 }
        ensures { result ≡ optional_start (bytes_of self.now.view) + offset }
    {
        u64::from(self.offset) + COFF_HEADER_END + offset
    }

    /// A 1-byte field at the same offset in PE32 and PE32+.
    pub fn u8_at(&self, offset: u64) -> u8
        requires { offset + 1 ≤ 96 }
        ensures { result ≡ field (bytes_of self.now.view) offset 1 }
    {
        self.view.slice(self.optional(offset), 1).unwrap()[0]
    }

    /// A 2-byte field at the same offset in PE32 and PE32+.
    pub fn u16_at(&self, offset: u64) -> u16
        requires { offset + 2 ≤ 96 }
        ensures { result ≡ field (bytes_of self.now.view) offset 2 }
    {
        u16_in(self.view, self.optional(offset))
    }

    /// A 4-byte field at the same offset in PE32 and PE32+.
    pub fn u32_at(&self, offset: u64) -> u32
        requires { offset + 4 ≤ 96 }
        ensures { result ≡ field (bytes_of self.now.view) offset 4 }
    {
        u32_in(self.view, self.optional(offset))
    }

    /// A 4-byte field at `offset` in PE32, and at `plus_offset` in PE32+.
    pub fn u32_either(&self, offset: u64, plus_offset: u64) -> u32
        requires fits { offset + 4 ≤ 96 }
        requires plus_fits { plus_offset + 4 ≤ 112 }
        ensures { result ≡ either_field (bytes_of self.now.view) offset 4 plus_offset 4 }
    {
        match self.magic {
            Magic::Pe32 => u32_in(self.view, self.optional(offset)),
            Magic::Pe32Plus => u32_in(self.view, self.optional(plus_offset)),
        }
    }

    /// A field of 4 bytes in PE32 and 8 bytes in PE32+.
    pub fn u64_either(&self, offset: u64, plus_offset: u64) -> u64
        requires fits { offset + 4 ≤ 96 }
        requires plus_fits { plus_offset + 8 ≤ 112 }
        ensures { result ≡ either_field (bytes_of self.now.view) offset 4 plus_offset 8 }
    {
        match self.magic {
            Magic::Pe32 => u64::from(u32_in(self.view, self.optional(offset))),
            Magic::Pe32Plus => u64_in(self.view, self.optional(plus_offset)),
        }
    }

    /// The size of the laid-out image in bytes.
    pub fn size_of_image(&self) -> u32
        ensures { result ≡ field (bytes_of self.now.view) 56 4 }
    {
        self.u32_at(SIZE_OF_IMAGE)
    }

    /// How many bytes of the laid-out image are headers.
    pub fn size_of_headers(&self) -> u32
        ensures { result ≡ field (bytes_of self.now.view) 60 4 }
    {
        self.u32_at(SIZE_OF_HEADERS)
    }

    /// BaseOfData, which PE32+ lacks.
    pub fn base_of_data(&self) -> Option<u32>
        ensures { result ≡ (if is_pe32 (bytes_of self.now.view) then Some (field (bytes_of self.now.view) 24 4) else None) }
    {
        match self.magic {
            Magic::Pe32 => Some(self.u32_at(24)),
            Magic::Pe32Plus => None,
        }
    }

    /// How many directories the headers hold.
    pub fn directory_count(&self) -> u64
        ensures { result ≡ directory_count (bytes_of self.now.view) }
    {
        u64::from(self.u32_either(92, 108).min(16))
    }

    /// Directory `index`, which is inside the file.
    pub fn directory(&self, index: u64) -> Directory
        requires small { index < 16 }
        requires held { optional_start (bytes_of self.now.view) + fixed_size (bytes_of self.now.view) + 8 * index + 8 ≤ size_of self.now.view }
        ensures { result ≡ directory_at (bytes_of self.now.view) index }
    {
        let start = self.optional(self.magic.fixed_size() + 8 * index);
        Directory {
            // from describe/records.txt: reading of directory
            rva: u32_in(self.view, start),
            size: u32_in(self.view, start + 4),
            // end of describe/records.txt
        }
    }

    /// The header of section `index`, which is inside the file.
    pub fn section(&self, index: u64) -> SectionHeader
        requires small { index < 96 }
        requires held { section_start (bytes_of self.now.view) (index + 1) ≤ size_of self.now.view }
        ensures { result ≡ section_at (bytes_of self.now.view) index }
    {
        let start = self.optional(u64::from(self.coff_u16(16)) + SECTION_HEADER_SIZE * index);
        SectionHeader::read(self.view, start)
    }

    /// The rows of the section table, which are inside the file.
    pub fn rows(&self) -> &'a [[u8; 40]]
        requires few { coff_field (bytes_of self.now.view) 2 2 ≤ 96 }
        requires held { section_start (bytes_of self.now.view) (coff_field (bytes_of self.now.view) 2 2) ≤ size_of self.now.view }
        ensures count { length result.now ≡ coff_field (bytes_of self.now.view) 2 2 }
        ensures sections { (k : ℕ) (d : List ℕ) → k < length result.now → section_header (slice_index_or result.now k d) 0 ≡ section_at (bytes_of self.now.view) k }
    {
        let start = self.optional(u64::from(self.coff_u16(16)));
        let size = SECTION_HEADER_SIZE * u64::from(self.coff_u16(2));
        let (rows, _) = self.view.slice(start, size).unwrap().as_chunks::<40>();
        rows
    }

    /// The first `count` directories.
    fn directories(&self, count: u64) -> ArrayVec<Directory, 16>
        requires small { count ≤ 16 }
        requires held { optional_start (bytes_of self.now.view) + fixed_size (bytes_of self.now.view) + 8 * count ≤ size_of self.now.view }
        ensures { result.items ≡ map (directory_at (bytes_of self.now.view)) (range_with_len 0 count) }
    {
        let mut directories = ArrayVec::new();
        for index in 0..count {
            directories.push(self.directory(index));
        }
        directories
    }

    /// The headers of `count` sections.
    fn sections(&self, count: u64) -> ArrayVec<SectionHeader, 96>
        requires small { count ≤ 96 }
        requires held { section_start (bytes_of self.now.view) count ≤ size_of self.now.view }
        ensures { result.items ≡ map (section_at (bytes_of self.now.view)) (range_with_len 0 count) }
    {
        let mut sections = ArrayVec::new();
        for index in 0..count {
            sections.push(self.section(index));
        }
        sections
    }

    /// All headers of a file that has the directories and the section table.
    pub fn headers(&self) -> Headers
        requires directories { optional_start (bytes_of self.now.view) + fixed_size (bytes_of self.now.view) + 8 * directory_count (bytes_of self.now.view) ≤ size_of self.now.view }
        requires few { coff_field (bytes_of self.now.view) 2 2 ≤ 96 }
        requires sections { section_start (bytes_of self.now.view) (coff_field (bytes_of self.now.view) 2 2) ≤ size_of self.now.view }
        ensures { result ≡ head_of (bytes_of self.now.view) }
    {
        // from describe/records.txt: counts of headers
        let number_of_sections = self.coff_u16(2);
        let number_of_rva_and_sizes = self.u32_either(92, 108);
        // end of describe/records.txt
        Headers {
            magic: self.magic,
            pe_offset: self.offset,
            // from describe/records.txt: reading of headers
            machine: self.coff_u16(0),
            number_of_sections,
            time_date_stamp: self.coff_u32(4),
            pointer_to_symbol_table: self.coff_u32(8),
            number_of_symbols: self.coff_u32(12),
            size_of_optional_header: self.coff_u16(16),
            characteristics: self.coff_u16(18),
            major_linker_version: self.u8_at(2),
            minor_linker_version: self.u8_at(3),
            size_of_code: self.u32_at(4),
            size_of_initialized_data: self.u32_at(8),
            size_of_uninitialized_data: self.u32_at(12),
            address_of_entry_point: self.u32_at(16),
            base_of_code: self.u32_at(20),
            base_of_data: self.base_of_data(),
            image_base: self.u64_either(28, 24),
            section_alignment: self.u32_at(32),
            file_alignment: self.u32_at(36),
            major_operating_system_version: self.u16_at(40),
            minor_operating_system_version: self.u16_at(42),
            major_image_version: self.u16_at(44),
            minor_image_version: self.u16_at(46),
            major_subsystem_version: self.u16_at(48),
            minor_subsystem_version: self.u16_at(50),
            win32_version_value: self.u32_at(52),
            size_of_image: self.u32_at(56),
            size_of_headers: self.u32_at(60),
            check_sum: self.u32_at(64),
            subsystem: self.u16_at(68),
            dll_characteristics: self.u16_at(70),
            size_of_stack_reserve: self.u64_either(72, 72),
            size_of_stack_commit: self.u64_either(76, 80),
            size_of_heap_reserve: self.u64_either(80, 88),
            size_of_heap_commit: self.u64_either(84, 96),
            loader_flags: self.u32_either(88, 104),
            number_of_rva_and_sizes,
            // end of describe/records.txt
            directories: self.directories(u64::from(number_of_rva_and_sizes.min(16))),
            sections: self.sections(u64::from(number_of_sections)),
        }
    }
}
