//! The headers of an image: the fields that are tested, and faults 1 to 12.

use super::numbers::{ByteSource, File};
use super::ordering::{Row, file_row};

/// The greatest size of a file in bytes.
const LONGEST_FILE: u64 = 1 << 32;

/// The greatest size of a laid-out image in bytes.
const LARGEST_IMAGE: u32 = 1 << 31;

/// The flag of Characteristics of an image that must be loaded at its ImageBase.
const RELOCS_STRIPPED: u16 = 0x0001;

/// The header fields that are tested, as in the file; bytes past its end are 0.
#[derive(Clone, Copy)]
pub(super) struct Headers {
    /// The file offset of the signature.
    pub pe_offset: u32,
    pub number_of_sections: u16,
    size_of_optional_header: u16,
    characteristics: u16,
    pub magic: u16,
    pub image_base: u64,
    pub size_of_image: u32,
    pub size_of_headers: u32,
    number_of_rva_and_sizes: u32,
}

impl Headers {
    /// The headers of a file.
    pub fn of(file: File) -> Headers {
        let pe_offset = file.u32_at(0x3c);
        let coff_header = pe_offset as u64 + 4;
        let optional_header = pe_offset as u64 + 24;
        let magic = file.u16_at(optional_header);
        let is_plus = magic == 0x20b;
        Headers {
            pe_offset,
            number_of_sections: file.u16_at(coff_header + 2),
            size_of_optional_header: file.u16_at(coff_header + 16),
            characteristics: file.u16_at(coff_header + 18),
            magic,
            image_base: if is_plus {
                file.u64_at(optional_header + 24)
            } else {
                u64::from(file.u32_at(optional_header + 28))
            },
            size_of_image: file.u32_at(optional_header + 56),
            size_of_headers: file.u32_at(optional_header + 60),
            number_of_rva_and_sizes: number_of_directories(file, optional_header, is_plus),
        }
    }

    /// Whether the optional header has the form of PE32+.
    pub fn is_plus(&self) -> bool {
        self.magic == 0x20b
    }

    /// Whether the image must be loaded at its ImageBase.
    pub fn is_stripped(&self) -> bool {
        self.characteristics & RELOCS_STRIPPED != 0
    }

    /// The number of directories in the headers.
    pub fn directories(&self) -> u32 {
        self.number_of_rva_and_sizes.min(16)
    }

    /// The file offset of a directory.
    pub fn directory(&self, index: u32) -> u64 {
        self.pe_offset as u64 + 24 + fixed_size(self.is_plus()) as u64 + 8 * index as u64
    }

    /// The file offset of a section's header; for the index after the last one, the end of the table.
    pub fn section_header(&self, index: u16) -> u64 {
        self.pe_offset as u64 + 24 + self.size_of_optional_header as u64 + 40 * index as u64
    }

    /// The tests of the headers, of which the first that holds counts. A test depends on bytes past the end of the file only if an
    /// earlier one holds.
    pub fn rows(&self, file: File) -> [Row; 12] {
        let n = file.len();
        let p = self.pe_offset as u64;
        let least_size = fixed_size(self.is_plus()) as u64 + 8 * self.directories() as u64;
        let is_known_magic = self.magic == 0x10b || self.magic == 0x20b;
        let table_end = self.section_header(self.number_of_sections);
        let size_of_headers = self.size_of_headers as u64;
        [
            file_row(1, n > LONGEST_FILE, LONGEST_FILE),
            file_row(2, n < 64, n),
            file_row(3, !has_bytes(file, 0, b"MZ"), 0),
            file_row(4, p + 24 > n, 60),
            file_row(5, !has_bytes(file, p, b"PE\0\0"), p),
            file_row(6, p + 26 > n || !is_known_magic, p + 24),
            file_row(
                7,
                (self.size_of_optional_header as u64) < least_size,
                p + 20,
            ),
            file_row(8, self.section_header(0) > n, p + 20),
            file_row(9, self.number_of_sections > 96, p + 6),
            file_row(10, table_end > n, p + 6),
            file_row(
                11,
                self.size_of_image == 0 || self.size_of_image > LARGEST_IMAGE,
                p + 80,
            ),
            file_row(
                12,
                size_of_headers < table_end
                    || size_of_headers > n
                    || self.size_of_headers > self.size_of_image,
                p + 84,
            ),
        ]
    }
}

/// The size of the optional header before its directories.
fn fixed_size(is_plus: bool) -> u32 {
    if is_plus { 112 } else { 96 }
}

/// NumberOfRvaAndSizes, the last field before the directories; 0 if it is not completely inside the file.
fn number_of_directories(file: File, optional_header: u64, is_plus: bool) -> u32 {
    let end = optional_header.saturating_add(fixed_size(is_plus) as u64);
    if end > file.len() {
        return 0;
    }
    file.u32_at(end.saturating_sub(4))
}

/// Whether a file has these bytes at an offset.
fn has_bytes(file: File, offset: u64, bytes: &[u8]) -> bool {
    for (index, byte) in bytes.iter().enumerate() {
        if file.byte(offset.saturating_add(index as u64)) != *byte {
            return false;
        }
    }
    true
}
