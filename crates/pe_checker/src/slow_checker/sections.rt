//! The sections of an image: their sizes in the image and in the file, and faults 13 to 15.

use super::headers::Headers;
use super::numbers::{ByteSource, File};
use super::ordering::{Faults, Phase, Row, file_row};
use std::alloc::{AllocError, Global};

/// The fields of a section's header that are tested.
#[derive(Clone, Copy)]
pub(super) struct Section {
    /// The file offset of the header.
    header: u64,
    virtual_size: u32,
    pub virtual_address: u32,
    size_of_raw_data: u32,
    pub pointer_to_raw_data: u32,
}

impl Section {
    /// The section whose header is at an offset.
    fn at(file: File, header: u64) -> Section {
        Section {
            header,
            virtual_size: file.u32_at(header.saturating_add(8)),
            virtual_address: file.u32_at(header.saturating_add(12)),
            size_of_raw_data: file.u32_at(header.saturating_add(16)),
            pointer_to_raw_data: file.u32_at(header.saturating_add(20)),
        }
    }

    /// Its size in the image: VirtualSize, or SizeOfRawData if VirtualSize is 0.
    pub fn extent(&self) -> u32 {
        if self.virtual_size == 0 {
            self.size_of_raw_data
        } else {
            self.virtual_size
        }
    }

    /// How many bytes of its extent are in the file.
    pub fn rawlen(&self) -> u32 {
        if self.pointer_to_raw_data == 0 {
            0
        } else {
            self.extent().min(self.size_of_raw_data)
        }
    }

    /// The RVA of its end.
    pub fn end(&self) -> u64 {
        self.virtual_address as u64 + self.extent() as u64
    }

    /// The tests of a section in a file of n bytes, after a section that ends at an RVA.
    fn rows(&self, n: u64, headers: &Headers, preceding_end: u64) -> [Row; 3] {
        let raw_end = self.pointer_to_raw_data as u64 + self.rawlen() as u64;
        let start = self.virtual_address as u64;
        [
            file_row(13, self.rawlen() != 0 && raw_end > n, self.header),
            file_row(14, self.end() > headers.size_of_image as u64, self.header),
            file_row(
                15,
                start < headers.size_of_headers as u64 || start < preceding_end,
                self.header,
            ),
        ]
    }
}

/// The sections of a file in table order, or `None` if one has a fault; those of the first one are listed.
pub(super) fn list_sections(
    alloc: Global,
    file: File,
    headers: &Headers,
    faults: &mut Faults,
) -> Result<Option<Vec<Section>>, AllocError> {
    faults.begin_phase(Phase::Sections);
    let mut sections = Vec::new(alloc);
    let mut preceding_end = 0;
    for index in 0..headers.number_of_sections {
        let section = Section::at(file, headers.section_header(index));
        if faults.record(&section.rows(file.len(), headers, preceding_end))? {
            return Ok(None);
        }
        sections.push(section)?;
        preceding_end = section.end();
    }
    Ok(Some(sections))
}
