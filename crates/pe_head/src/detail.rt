//! `fault_detail`: the numbers of a file that the rule of a fault compares.

ghost use Rattle.std.specs.Prelude.{◌≡◌};
ghost use Rattle.pe_view.specs.View.{bytes_of};
ghost use Rattle.pe_head.specs.FaultDetail.{size_detail, fault_detail};

use crate::header_values::header_detail;
use crate::section_values::section_detail;
use pe_view::{Fault, Place, View};

/// The numbers of a file that the rule of a fault compares. Sizes and offsets count bytes.
#[derive(Clone, Copy, Debug, PartialEq, Eq)]
pub enum FaultDetail {
    /// The size of the file.
    FileSize(u64),
    /// The file is larger than 2^32 bytes, and its size is not known.
    OverLimit,
    /// The offset of the signature, and the size of the file.
    Signature {
        offset: u64,
        file_size: u64,
    },
    /// The size and the offset of bytes that extend past the end of the file, and the size of the file.
    PastFile {
        size: u64,
        offset: u64,
        file_size: u64,
    },
    /// NumberOfSections.
    NumberOfSections(u64),
    /// SizeOfImage.
    SizeOfImage(u64),
    /// SizeOfOptionalHeader, and the size of the fixed fields.
    FixedFields {
        size: u64,
        needed: u64,
    },
    /// SizeOfOptionalHeader, the number of directories, and the size of these and the fixed fields.
    Directories {
        size: u64,
        count: u64,
        needed: u64,
    },
    /// The ends of the headers and of the section table.
    SectionTable {
        end: u64,
        table_end: u64,
    },
    /// The ends of the headers and of the image.
    HeadersEnd {
        end: u64,
        image_end: u64,
    },
    /// The ends of a section and of the image.
    SectionEnd {
        end: u64,
        image_end: u64,
    },
    /// The beginning of a section, and the end of the headers.
    InHeaders {
        begin: u64,
        headers_end: u64,
    },
    /// The beginning of a section, and the end of the previous one.
    InSection {
        begin: u64,
        section_end: u64,
    },
}

/// The size of a file.
fn size_detail(size: u64) -> FaultDetail
    ensures { result ≡ size_detail size }
{
    if size > 1 << 32 {
        FaultDetail::OverLimit
    } else {
        FaultDetail::FileSize(size)
    }
}

/// The numbers that the rule of a fault of a file's size, headers or section headers compares, if all of them are among its first
/// bytes. `file_size` is the size of the whole file. It also distinguishes the causes that share the fault's number.
pub fn fault_detail(first: View, file_size: u64, fault: &Fault) -> Option<FaultDetail>
    ensures { result ≡ fault_detail (bytes_of first.entry) file_size fault.now }
{
    match (fault.number, fault.place) {
        (2 | 61, Place::File(size)) => Some(size_detail(size)),
        (number @ 13..=15, Place::File(offset)) => section_detail(first, file_size, number, offset),
        (number, _) => header_detail(first, file_size, number),
    }
}
