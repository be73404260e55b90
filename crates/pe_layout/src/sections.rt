//! The section table of a file, of which nothing is copied, and a list of section headers: how many there are, each, and how many
//! begin at or before an RVA.

ghost use Rattle.std.specs.Prelude.{◌≡◌, ◌≤◌, ◌<◌, ℕ, length, slice_index_or};
ghost use Rattle.pe_head.specs.Checked.{checked_file};
ghost use Rattle.pe_head.specs.Head.{head_of};
ghost use Rattle.pe_head.specs.declared.section.SectionHeader.{SectionHeader};
ghost use Rattle.pe_layout.specs.Sections.{LieApart};

use pe_head::{CheckedHeaders, SectionHeader};

/// How many sections a file has.
#[tactic(auto, using(crate::proofs::Begun::count_of))]
pub(crate) fn file_section_count(headers: &CheckedHeaders) -> usize
    ensures value { result ≡ length (head_of (checked_file headers.now)).sections.items }
    ensures most { result ≤ 96 }
{
    headers.rows().len()
}

/// The header of section `index` of a file, counted from 0.
#[inline]
#[tactic(auto, using(crate::proofs::Begun::count_of))]
pub(crate) fn file_section(headers: &CheckedHeaders, index: usize) -> SectionHeader
    requires { index < length (head_of (checked_file headers.now)).sections.items }
    ensures { (d : SectionHeader) → result ≡ slice_index_or (head_of (checked_file headers.now)).sections.items index d }
{
    SectionHeader::of_row(&headers.rows()[index])
}

/// How many sections of a file begin at or before an RVA, by a binary search.
#[inline]
#[tactic(auto, using(crate::proofs::Begun::count_of))]
pub(crate) fn file_sections_begun(headers: &CheckedHeaders, rva: u32) -> usize
    requires { LieApart (head_of (checked_file headers.now)).sections.items }
    ensures bound { result ≤ length (head_of (checked_file headers.now)).sections.items }
    ensures most { result ≤ 96 }
    ensures before { (k : ℕ) (s : SectionHeader) → k < result → (slice_index_or (head_of (checked_file headers.now)).sections.items k s).virtual_address ≤ rva }
    ensures after { (k : ℕ) (s : SectionHeader) → result ≤ k → k < length (head_of (checked_file headers.now)).sections.items → rva < (slice_index_or (head_of (checked_file headers.now)).sections.items k s).virtual_address }
{
    headers
        .rows()
        .partition_point(|row| SectionHeader::virtual_address_of_row(row) <= rva)
}

/// The header of section `index` of a list, counted from 0.
#[inline]
pub(crate) fn section_at(sections: &[SectionHeader], index: usize) -> SectionHeader
    requires { index < length sections.now }
    ensures { (d : SectionHeader) → result ≡ slice_index_or sections.now index d }
{
    sections[index]
}

/// How many sections of a list begin at or before an RVA, by a binary search.
pub(crate) fn sections_begun(sections: &[SectionHeader], rva: u32) -> usize
    requires { LieApart sections.now }
    ensures bound { result ≤ length sections.now }
    ensures before { (k : ℕ) (s : SectionHeader) → k < result → (slice_index_or sections.now k s).virtual_address ≤ rva }
    ensures after { (k : ℕ) (s : SectionHeader) → result ≤ k → k < length sections.now → rva < (slice_index_or sections.now k s).virtual_address }
{
    sections.partition_point(|section| section.virtual_address <= rva)
}
