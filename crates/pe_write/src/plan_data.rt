//! Where the sections of a plan are in its file.

ghost use Rattle.std.specs.Prelude.{◌≡◌, ◌<◌, ◌≤◌, ◌+◌, ◌^◌, ◌++◌, OnOk, vec_len, length};
ghost use Rattle.pe_write.specs.PlanFile.{align_up, data_from, file_end, header_from, raw_bytes, raw_end, raw_start};

use crate::plan::PlanSection;
use pe_head::SectionHeader;
use std::alloc::{AllocError, Allocator};

/// The next multiple of an alignment.
fn align_up(alignment: u32, value: usize) -> usize
    requires some { 0 < alignment }
    requires small { value < 2 ^ 63 }
    ensures value { result ≡ align_up alignment value }
    ensures least { value ≤ result }
    ensures most { result < value + alignment }
{
    let alignment = alignment as usize;
    (value + alignment - 1) / alignment * alignment
}

/// PointerToRawData of a section appended to a file of `end` bytes: 0 if the section is empty.
fn raw_start(alignment: u32, end: usize, section: &PlanSection) -> usize
    requires some { 0 < alignment }
    requires held { end ≤ 2 ^ 32 }
    ensures { result ≡ raw_start alignment end section.now }
{
    if section.raw.is_empty() {
        0
    } else {
        align_up(alignment, end)
    }
}

/// The length of the file with the section, appended to `end` bytes.
pub(crate) fn raw_end(alignment: u32, end: usize, section: &PlanSection) -> usize
    requires some { 0 < alignment }
    requires held { end ≤ 2 ^ 32 }
    requires small { length section.now.raw.now ≤ 2 ^ 32 }
    ensures { result ≡ raw_end alignment end section.now }
{
    if section.raw.is_empty() {
        end
    } else {
        align_up(alignment, end) + align_up(alignment, section.raw.len())
    }
}

/// The header of a section appended to a file of `end` bytes.
pub(crate) fn section_header(alignment: u32, end: usize, section: &PlanSection) -> SectionHeader
    requires some { 0 < alignment }
    requires behind { 0 < end }
    requires small { length section.now.raw.now ≤ 2 ^ 32 }
    requires held { raw_end alignment end section.now ≤ 2 ^ 32 }
    ensures { result ≡ header_from alignment end section.now }
{
    let start = raw_start(alignment, end, section);
    let size = align_up(alignment, section.raw.len());
    SectionHeader {
        name: section.name,
        virtual_size: section.virtual_size,
        virtual_address: section.virtual_address,
        size_of_raw_data: size as u32,
        pointer_to_raw_data: start as u32,
        characteristics: section.flags,
        ..SectionHeader::default()
    }
}

/// Appends the raw data of a section at the next multiple of the alignment, padded with zeros to one.
fn push_raw<A: Allocator>(
    bytes: &mut Vec<u8, A>,
    alignment: u32,
    section: &PlanSection,
) -> Result<(), AllocError>
    requires some { 0 < alignment }
    requires held { vec_len bytes.old ≤ 2 ^ 32 }
    requires small { length section.now.raw.now ≤ 2 ^ 32 }
    ensures { OnOk result (bytes.new.items ≡ bytes.old.items ++ raw_bytes alignment (vec_len bytes.old) section.now) }
{
    if section.raw.is_empty() {
        return Ok(());
    }
    let start = align_up(alignment, bytes.len());
    let end = start + align_up(alignment, section.raw.len());
    bytes.resize(start, 0)?;
    bytes.extend_from_slice(section.raw)?;
    bytes.resize(end, 0)
}

/// Appends the raw data of all sections, in order.
pub(crate) fn push_data<A: Allocator>(
    bytes: &mut Vec<u8, A>,
    alignment: u32,
    sections: &[PlanSection],
) -> Result<(), AllocError>
    requires some { 0 < alignment }
    requires small { file_end alignment (vec_len bytes.old) sections.now ≤ 2 ^ 32 }
    ensures { OnOk result (bytes.new.items ≡ bytes.old.items ++ data_from alignment (vec_len bytes.old) sections.now) }
{
    for section in sections {
        push_raw(bytes, alignment, section)?;
    }
    Ok(())
}
