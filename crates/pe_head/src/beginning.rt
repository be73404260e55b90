//! `Beginning`: the first bytes of a file, and the fields of its headers that are among them.

ghost use Rattle.std.specs.Prelude.{◌≡◌, ◌+◌, ◌*◌, ◌≤◌, ◌<◌, ◌^◌, IsTrue};
ghost use Rattle.pe_head.specs.Section.{extent, rawlen};
ghost use Rattle.pe_view.specs.View.{bytes_of, size_of};
ghost use Rattle.pe_head.specs.Head.{optional_start, table_start, section_start, section_at, coff_field, field, magic_of};
ghost use Rattle.pe_head.specs.FaultDetail.{holds_optional, holds_section};

use crate::fields::{u16_in, u32_in};
use crate::offsets::{
    COFF_HEADER_END, NUMBER_OF_SECTIONS, SECTION_HEADER_SIZE, SIGNATURE_OFFSET, SIZE_OF_HEADERS,
    SIZE_OF_IMAGE, SIZE_OF_OPTIONAL_HEADER,
};
use crate::section::SectionHeader;
use pe_view::View;

/// Where the optional header begins.
pub(crate) fn optional_start(first: View) -> u64
    requires { 64 ≤ size_of first }
    ensures value { result ≡ optional_start (bytes_of first.entry) }
    ensures small { result < 2 ^ 33 }
{
    u64::from(u32_in(first, SIGNATURE_OFFSET)) + COFF_HEADER_END
}

/// Whether these bytes hold the headers up to `size` bytes of the optional header.
pub(crate) fn holds_optional(first: View, size: u64) -> bool
    requires { size < 2 ^ 32 }
    ensures value { result ≡ holds_optional (bytes_of first.entry) size }
    ensures long { IsTrue result → 64 ≤ size_of first.entry }
    ensures room { IsTrue result → optional_start (bytes_of first.entry) + size ≤ size_of first.entry }
{
    first.len() >= 64 && optional_start(first) + size <= first.len()
}

/// The first bytes of a file, which hold its headers up to the fields that are read.
#[derive(Clone, Copy)]
pub(crate) struct Beginning<'a> {
    first: View<'a>,
    /// Where the optional header begins.
    pub start: u64,
    ghost starts: { start ≡ optional_start (bytes_of first) },
    ghost small: { start < 2 ^ 33 },
    ghost inside: { start ≤ size_of first },
}

impl<'a> Beginning<'a> {
    /// The beginning of a file that holds the headers up to `size` bytes of the optional header.
    pub fn new(first: View<'a>, size: u64) -> Self
        requires { IsTrue (holds_optional (bytes_of first) size) }
        ensures { result.first ≡ first.entry }
    {
        Beginning {
            first,
            start: optional_start(first),
        }
    }

    /// SizeOfOptionalHeader.
    pub fn optional_size(&self) -> u64
        ensures value { result ≡ coff_field (bytes_of self.now.first) 16 2 }
        ensures small { result < 2 ^ 16 }
    {
        u64::from(u16_in(
            self.first,
            self.start - COFF_HEADER_END + SIZE_OF_OPTIONAL_HEADER,
        ))
    }

    /// NumberOfSections.
    pub fn section_count(&self) -> u64
        ensures value { result ≡ coff_field (bytes_of self.now.first) 2 2 }
        ensures small { result < 2 ^ 16 }
    {
        u64::from(u16_in(
            self.first,
            self.start - COFF_HEADER_END + NUMBER_OF_SECTIONS,
        ))
    }

    /// Where the section table begins.
    pub fn table_start(&self) -> u64
        ensures value { result ≡ table_start (bytes_of self.now.first) }
        ensures small { result < 2 ^ 34 }
    {
        self.start + self.optional_size()
    }

    /// Where the section table ends.
    pub fn table_end(&self) -> u64
        ensures { result ≡ section_start (bytes_of self.now.first) (coff_field (bytes_of self.now.first) 2 2) }
    {
        self.table_start() + SECTION_HEADER_SIZE * self.section_count()
    }

    /// SizeOfImage.
    pub fn size_of_image(&self) -> u64
        requires { optional_start (bytes_of self.now.first) + 60 ≤ size_of self.now.first }
        ensures { result ≡ field (bytes_of self.now.first) 56 4 }
    {
        u64::from(u32_in(self.first, self.start + SIZE_OF_IMAGE))
    }

    /// SizeOfHeaders.
    pub fn size_of_headers(&self) -> u64
        requires { optional_start (bytes_of self.now.first) + 64 ≤ size_of self.now.first }
        ensures { result ≡ field (bytes_of self.now.first) 60 4 }
    {
        u64::from(u32_in(self.first, self.start + SIZE_OF_HEADERS))
    }
}

/// Whether these bytes hold the headers up to section `index`'s PointerToRawData.
pub(crate) fn holds_section(first: View, index: u64) -> bool
    requires { section_start (bytes_of first) index < 2 ^ 64 }
    ensures { result ≡ holds_section (bytes_of first.entry) index }
{
    if !holds_optional(first, 64) {
        return false;
    }
    let start = Beginning::new(first, 64).table_start() + SECTION_HEADER_SIZE * index;
    start <= first.len() && first.len() - start >= 24
}

/// The fields of section `index`'s header that its place and its sizes depend on.
pub(crate) fn section_in(first: View, index: u64) -> SectionHeader
    requires { IsTrue (holds_section (bytes_of first) index) }
    ensures begin { result.virtual_address ≡ (section_at (bytes_of first.entry) index).virtual_address }
    ensures extent { extent result ≡ extent (section_at (bytes_of first.entry) index) }
    ensures rawlen { rawlen result ≡ rawlen (section_at (bytes_of first.entry) index) }
    ensures offset { result.pointer_to_raw_data ≡ (section_at (bytes_of first.entry) index).pointer_to_raw_data }
{
    let header = Beginning::new(first, 64).table_start() + SECTION_HEADER_SIZE * index;
    SectionHeader {
        virtual_size: u32_in(first, header + 8),
        virtual_address: u32_in(first, header + 12),
        size_of_raw_data: u32_in(first, header + 16),
        pointer_to_raw_data: u32_in(first, header + 20),
        ..SectionHeader::default()
    }
}
