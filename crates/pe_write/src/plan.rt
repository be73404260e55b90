//! `Plan` and `PlanSection`: an image to write.

use pe_head::{Directory, Magic};
use std::alloc::{Allocator, Global};

/// A section of an image to write ("PE Format", Section Table).
#[derive(Clone, Copy, Debug)]
pub struct PlanSection<'a> {
    /// The name, padded with zero bytes.
    pub name: [u8; 8],
    /// The size of the section in the laid-out image in bytes; 0 means SizeOfRawData, the padded length of `raw`.
    pub virtual_size: u32,
    /// The RVA of the section's first byte.
    pub virtual_address: u32,
    /// The section's raw data. In the file it is padded with zeros to a multiple of [`Plan::file_alignment`]; an empty section has
    /// none.
    pub raw: &'a [u8],
    /// Flags: what the section contains, and whether it may be read, written and executed.
    pub flags: u32,
}

/// An image to write. Each header field that it does not name is 0, except for those that describe the file itself:
/// NumberOfSections, SizeOfOptionalHeader, NumberOfRvaAndSizes, and the places of raw data.
///
/// ("PE Format": COFF File Header, Optional Header.)
#[derive(Drop)]
pub struct Plan<'a, A: Allocator = Global> {
    /// The form of the optional header.
    pub magic: Magic,
    /// The machine that the image is for.
    pub machine: u16,
    /// The time stamp of the image, in seconds since the beginning of 1970.
    pub time_stamp: u32,
    /// The flags of the image.
    pub characteristics: u16,
    /// The RVA of the entry point; 0 if there is none.
    pub entry: u32,
    /// The preferred address of the image.
    pub image_base: u64,
    /// SectionAlignment in bytes, which is written as given; nothing is aligned to it.
    pub section_alignment: u32,
    /// The alignment of raw data in the file, in bytes; not 0.
    pub file_alignment: u32,
    /// The size of the laid-out image in bytes.
    pub size_of_image: u32,
    /// The size of all headers in bytes, with the zeros after them.
    pub size_of_headers: u32,
    /// The subsystem that the image needs to run.
    pub subsystem: u16,
    /// DllCharacteristics.
    pub dll_characteristics: u16,
    /// The data directories, by index.
    pub directories: [Directory; 16],
    /// The sections, in the order of the section table.
    pub sections: Vec<PlanSection<'a>, A>,
}
