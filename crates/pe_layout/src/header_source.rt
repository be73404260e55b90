//! `HeaderSource`: the headers that lay out an image, those of its file or others.

ghost use Rattle.std.specs.Prelude.{◌≡◌, ◌≤◌, ◌<◌, ℕ, length, slice_get, slice_index_or};
ghost use Rattle.pe_head.specs.Head.{section_offset};
ghost use Rattle.pe_head.specs.declared.section.SectionHeader.{SectionHeader};
ghost use Rattle.pe_layout.specs.HeaderSource.{headers_in};
ghost use Rattle.pe_layout.specs.Sections.{LieApart};

use crate::sections::{
    file_section, file_section_count, file_sections_begun, section_at, sections_begun,
};
use pe_head::{CheckedHeaders, Directory, Headers, Magic, SectionHeader};

/// The headers that lay out an image.
#[derive(Clone, Copy, Debug)]
pub(crate) enum HeaderSource<'a> {
    /// Those of its file, of which nothing is copied.
    File(CheckedHeaders<'a>),
    /// Others, which its bytes need not hold.
    Record(&'a Headers),
}

impl<'a> HeaderSource<'a> {
    /// The form of the optional header.
    #[tactic(auto, unfolding(crate::specs::HeaderSource::headers_in))]
    pub fn magic(&self) -> Magic
        ensures { result ≡ (headers_in self.now).magic }
    {
        match self {
            HeaderSource::File(headers) => headers.magic(),
            HeaderSource::Record(headers) => headers.magic,
        }
    }

    /// The machine that the image is for.
    #[tactic(auto, unfolding(crate::specs::HeaderSource::headers_in))]
    pub fn machine(&self) -> u16
        ensures { result ≡ (headers_in self.now).machine }
    {
        match self {
            HeaderSource::File(headers) => headers.machine(),
            HeaderSource::Record(headers) => headers.machine,
        }
    }

    /// The flags of the image.
    #[tactic(auto, unfolding(crate::specs::HeaderSource::headers_in))]
    pub fn characteristics(&self) -> u16
        ensures { result ≡ (headers_in self.now).characteristics }
    {
        match self {
            HeaderSource::File(headers) => headers.characteristics(),
            HeaderSource::Record(headers) => headers.characteristics,
        }
    }

    /// The preferred address of the image.
    #[tactic(auto, unfolding(crate::specs::HeaderSource::headers_in))]
    pub fn image_base(&self) -> u64
        ensures { result ≡ (headers_in self.now).image_base }
    {
        match self {
            HeaderSource::File(headers) => headers.image_base(),
            HeaderSource::Record(headers) => headers.image_base,
        }
    }

    /// The size of the laid-out image in bytes.
    #[tactic(auto, unfolding(crate::specs::HeaderSource::headers_in))]
    pub fn size_of_image(&self) -> u32
        ensures { result ≡ (headers_in self.now).size_of_image }
    {
        match self {
            HeaderSource::File(headers) => headers.size_of_image(),
            HeaderSource::Record(headers) => headers.size_of_image,
        }
    }

    /// The size of the headers in the laid-out image in bytes.
    #[tactic(auto, unfolding(crate::specs::HeaderSource::headers_in))]
    pub fn size_of_headers(&self) -> u32
        ensures { result ≡ (headers_in self.now).size_of_headers }
    {
        match self {
            HeaderSource::File(headers) => headers.size_of_headers(),
            HeaderSource::Record(headers) => headers.size_of_headers,
        }
    }

    /// The data directory of an index, if the headers hold it.
    #[tactic(auto, unfolding(crate::specs::HeaderSource::headers_in))]
    pub fn directory(&self, index: usize) -> Option<Directory>
        ensures { result ≡ slice_get (headers_in self.now).directories.items index }
    {
        match self {
            HeaderSource::File(headers) => headers.directory(index),
            HeaderSource::Record(headers) => { Some(*headers.directories.as_slice().get(index)?) }
        }
    }

    /// How many sections there are.
    #[tactic(auto, unfolding(crate::specs::HeaderSource::headers_in))]
    pub fn section_count(&self) -> usize
        ensures value { result ≡ length (headers_in self.now).sections.items }
        ensures most { result ≤ 96 }
    {
        match self {
            HeaderSource::File(headers) => file_section_count(headers),
            HeaderSource::Record(headers) => headers.sections.as_slice().len(),
        }
    }

    /// The header of section `index`, counted from 0.
    #[inline]
    #[tactic(auto, unfolding(crate::specs::HeaderSource::headers_in))]
    pub fn section(&self, index: usize) -> SectionHeader
        requires { index < length (headers_in self.now).sections.items }
        ensures { (d : SectionHeader) → result ≡ slice_index_or (headers_in self.now).sections.items index d }
    {
        match self {
            HeaderSource::File(headers) => file_section(headers, index),
            HeaderSource::Record(headers) => section_at(headers.sections.as_slice(), index),
        }
    }

    /// The file offset of the header of section `index`, counted from 0.
    #[tactic(auto, unfolding(crate::specs::HeaderSource::headers_in))]
    pub fn section_offset(&self, index: u8) -> u64
        ensures { result ≡ section_offset (headers_in self.now) index }
    {
        match self {
            HeaderSource::File(headers) => headers.section_offset(index),
            HeaderSource::Record(headers) => headers.section_offset(index),
        }
    }

    /// How many sections begin at or before an RVA, by a binary search.
    #[inline]
    #[tactic(auto, unfolding(crate::specs::HeaderSource::headers_in))]
    pub fn sections_begun(&self, rva: u32) -> usize
        requires { LieApart (headers_in self.now).sections.items }
        ensures bound { result ≤ length (headers_in self.now).sections.items }
        ensures most { result ≤ 96 }
        ensures before { (k : ℕ) (s : SectionHeader) → k < result → (slice_index_or (headers_in self.now).sections.items k s).virtual_address ≤ rva }
        ensures after { (k : ℕ) (s : SectionHeader) → result ≤ k → k < length (headers_in self.now).sections.items → rva < (slice_index_or (headers_in self.now).sections.items k s).virtual_address }
    {
        match self {
            HeaderSource::File(headers) => file_sections_begun(headers, rva),
            HeaderSource::Record(headers) => sections_begun(headers.sections.as_slice(), rva),
        }
    }

    /// A copy of all headers.
    #[tactic(auto, unfolding(crate::specs::HeaderSource::headers_in))]
    pub fn headers(&self) -> Headers
        ensures { result ≡ headers_in self.now }
    {
        match self {
            HeaderSource::File(headers) => headers.headers(),
            HeaderSource::Record(headers) => headers.copy(),
        }
    }
}
