//! The laid-out image: the byte, the number and the string at an RVA, from the raw bytes alone.

use super::headers::Headers;
use super::numbers::{ByteSource, File};
use super::sections::Section;
use std::alloc::{AllocError, Global};

/// An image without a fault in its headers and sections.
#[derive(Drop)]
pub(super) struct PlainImage<'a> {
    pub file: File<'a>,
    pub headers: Headers,
    pub sections: Vec<Section>,
}

impl ByteSource for PlainImage<'_> {
    /// The byte at an RVA: the file's in the headers and in a section's raw data, otherwise 0.
    fn byte(&self, rva: u64) -> u8 {
        if rva < self.headers.size_of_headers as u64 {
            return self.file.byte(rva);
        }
        for section in &self.sections {
            let start = section.virtual_address as u64;
            if rva >= start && rva - start < section.rawlen() as u64 {
                let offset = section.pointer_to_raw_data as u64;
                return self.file.byte(offset.saturating_add(rva - start));
            }
        }
        0
    }
}

impl PlainImage<'_> {
    /// Whether the image contains this many bytes from an RVA on.
    pub fn holds(&self, rva: u64, len: u64) -> bool {
        let size = self.headers.size_of_image as u64;
        len <= size && rva <= size - len
    }

    /// The size of a slot and of a lookup entry.
    pub fn width(&self) -> u64 {
        if self.headers.is_plus() { 8 } else { 4 }
    }

    /// The end of the piece that contains an RVA: the headers, or the extent of a section; `None` in a gap.
    fn piece_end(&self, rva: u64) -> Option<u64> {
        let headers_end = self.headers.size_of_headers as u64;
        if rva < headers_end {
            return Some(headers_end);
        }
        for section in &self.sections {
            if rva >= section.virtual_address as u64 && rva < section.end() {
                return Some(section.end());
            }
        }
        None
    }

    /// The string at an RVA: the bytes before the first zero byte, which must be in the same piece; in a gap no bytes. `None` if
    /// there is no string.
    pub fn text(&self, alloc: Global, rva: u64) -> Result<Option<Vec<u8>>, AllocError> {
        if !self.holds(rva, 1) {
            return Ok(None);
        }
        let mut text = Vec::new(alloc);
        let Some(end) = self.piece_end(rva) else {
            return Ok(Some(text));
        };
        for place in rva..end {
            let byte = self.byte(place);
            if byte == 0 {
                return Ok(Some(text));
            }
            text.push(byte)?;
        }
        Ok(None)
    }

    /// The least RVA from this one on with a byte in the file, or the end of the image. The bytes between are 0.
    pub fn next_in_file(&self, rva: u64) -> u64 {
        if rva < self.headers.size_of_headers as u64 {
            return rva;
        }
        let mut least = self.headers.size_of_image as u64;
        for section in &self.sections {
            let start = section.virtual_address as u64;
            if rva < start + section.rawlen() as u64 {
                least = least.min(rva.max(start));
            }
        }
        least
    }
}
