//! The sections of an object as its file has them.

ghost use Rattle.std.specs.Prelude.{◌≡◌, map, IfOk};
ghost use Rattle.coff_read.specs.EitherObject.{form_of, file_of};
ghost use Rattle.coff_read.specs.FileView.{file_section_view};
ghost use Rattle.coff_read.specs.FormReading.{object_of};
ghost use Rattle.coff_read.specs.ObjectView.{raw_view};
ghost use Rattle.pe_page.specs.Objects.{sizes_of};

use coff_read::{EitherObject, FileSection, RawData};
use std::alloc::{AllocError, Allocator};

/// The sections of an object, in table order.
pub fn read_sections<'a, A: Allocator + Copy>(
    alloc: A,
    object: &EitherObject<'a>,
) -> Result<Vec<FileSection<'a>, A>, AllocError>
    ensures { IfOk result (λ sections. map file_section_view sections.items ≡ (object_of (form_of object.now) (file_of object.now)).sections) }
{
    let mut sections = Vec::with_capacity(alloc, object.section_count())?;
    for section in object.each_section(alloc) {
        sections.push(section)?;
    }
    Ok(sections)
}

/// The size of a section in bytes, and how many of them are in the file.
pub fn sizes_of(raw: &RawData) -> (u64, u64)
    ensures { result ≡ sizes_of (raw_view raw.now) }
{
    match raw {
        RawData::Bytes(bytes) => (bytes.len() as u64, bytes.len() as u64),
        RawData::Absent(size) => (u64::from(*size), 0),
    }
}
