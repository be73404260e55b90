//! `CheckedHeaders`: the headers of a file with none of faults 1 to 12, of which nothing is copied.

ghost use Rattle.std.specs.Prelude.{◌≡◌, ◌+◌, ◌*◌, ◌≤◌, ◌<◌, ℕ, List, length, slice_get, slice_index_or};
ghost use Rattle.pe_view.specs.View.{bytes_of, size_of};
ghost use Rattle.pe_head.specs.Head.{head_of, pe_offset, fixed_size, optional_start, directory_count, coff_field, section_start, section_at, field, either_field, magic_of};
ghost use Rattle.pe_head.specs.Section.{section_header};

use crate::directory::Directory;
use crate::fields::Fields;
use crate::headers::{Headers, row_offset};
use crate::optional::Magic;
use crate::section::SectionHeader;

/// The headers of a file with none of faults 1 to 12. A field or a section header is read when a call asks for it, so nothing is
/// copied: for a few of them this takes a hundredth of what [`Headers`] takes, which have room for 96 sections.
#[derive(Clone, Copy, Debug)]
pub struct CheckedHeaders<'a> {
    fields: Fields<'a>,
    rows: &'a [[u8; 40]],
    ghost directories_inside: { optional_start (bytes_of fields.view) + fixed_size (bytes_of fields.view) + 8 * directory_count (bytes_of fields.view) ≤ size_of fields.view },
    ghost few: { coff_field (bytes_of fields.view) 2 2 ≤ 96 },
    ghost sections_inside: { section_start (bytes_of fields.view) (coff_field (bytes_of fields.view) 2 2) ≤ size_of fields.view },
    ghost count: { length rows.now ≡ coff_field (bytes_of fields.view) 2 2 },
    ghost table: { (k : ℕ) (d : List ℕ) → k < length rows.now → section_header (slice_index_or rows.now k d) 0 ≡ section_at (bytes_of fields.view) k },
}

impl<'a> CheckedHeaders<'a> {
    ghost use Rattle.pe_head.specs.Checked.{checked_file};

    /// The headers of a file that has all directories and the section table.
    pub(crate) fn new(fields: Fields<'a>) -> Self
        requires directories { optional_start (bytes_of fields.view) + fixed_size (bytes_of fields.view) + 8 * directory_count (bytes_of fields.view) ≤ size_of fields.view }
        requires few { coff_field (bytes_of fields.view) 2 2 ≤ 96 }
        requires sections { section_start (bytes_of fields.view) (coff_field (bytes_of fields.view) 2 2) ≤ size_of fields.view }
        ensures { result.fields.view ≡ fields.entry.view }
    {
        CheckedHeaders {
            fields,
            rows: fields.rows(),
        }
    }

    /// The form of the optional header.
    pub fn magic(&self) -> Magic
        ensures { result ≡ magic_of (checked_file self.now) }
    {
        self.fields.magic()
    }

    /// The file offset of the signature.
    pub fn pe_offset(&self) -> u32
        ensures { result ≡ pe_offset (checked_file self.now) }
    {
        self.fields.pe_offset()
    }

    /// How many sections there are, at most 96.
    pub fn number_of_sections(&self) -> u16
        ensures value { result ≡ coff_field (checked_file self.now) 2 2 }
        ensures most { result ≤ 96 }
    {
        self.rows.len() as u16
    }

    /// The machine that the image is for.
    pub fn machine(&self) -> u16
        ensures { result ≡ coff_field (checked_file self.now) 0 2 }
    {
        self.fields.coff_u16(0)
    }

    /// The flags of the image.
    pub fn characteristics(&self) -> u16
        ensures { result ≡ coff_field (checked_file self.now) 18 2 }
    {
        self.fields.coff_u16(18)
    }

    /// The bytes from the beginning of the optional header to the section table.
    pub fn size_of_optional_header(&self) -> u16
        ensures { result ≡ coff_field (checked_file self.now) 16 2 }
    {
        self.fields.coff_u16(16)
    }

    /// The preferred address of the image.
    pub fn image_base(&self) -> u64
        ensures { result ≡ either_field (checked_file self.now) 28 4 24 8 }
    {
        self.fields.u64_either(28, 24)
    }

    /// The size of the laid-out image in bytes.
    pub fn size_of_image(&self) -> u32
        ensures { result ≡ field (checked_file self.now) 56 4 }
    {
        self.fields.size_of_image()
    }

    /// The size of the headers in the laid-out image in bytes.
    pub fn size_of_headers(&self) -> u32
        ensures { result ≡ field (checked_file self.now) 60 4 }
    {
        self.fields.size_of_headers()
    }

    /// The header of section `index`, counted from 0.
    pub fn section(&self, index: u16) -> SectionHeader
        requires { index < coff_field (checked_file self.now) 2 2 }
        ensures { result ≡ section_at (checked_file self.now) index }
    {
        SectionHeader::of_row(&self.rows[index as usize])
    }

    /// The file offset of the header of section `index`, counted from 0.
    pub fn section_offset(&self, index: u8) -> u64
        ensures { result ≡ section_start (checked_file self.now) index }
    {
        row_offset(self.pe_offset(), self.size_of_optional_header(), index)
    }

    /// The rows of the section table: one for each section.
    pub fn rows(&self) -> &'a [[u8; 40]]
        ensures count { length result.now ≡ coff_field (checked_file self.now) 2 2 }
        ensures most { length result.now ≤ 96 }
        ensures sections { (k : ℕ) (d : List ℕ) → k < length result.now → section_header (slice_index_or result.now k d) 0 ≡ section_at (checked_file self.now) k }
    {
        self.rows
    }

    /// The data directory of an index, if the headers hold it.
    pub fn directory(&self, index: usize) -> Option<Directory>
        ensures { result ≡ slice_get (head_of (checked_file self.now)).directories.items index }
    {
        let index = index as u64;
        if index >= self.fields.directory_count() {
            return None;
        }
        Some(self.fields.directory(index))
    }

    /// A copy of all headers.
    pub fn headers(&self) -> Headers
        ensures { result ≡ head_of (checked_file self.now) }
    {
        self.fields.headers()
    }
}
