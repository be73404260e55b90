//! Where the fields are that say how long the headers are, and where the next ones begin ("PE Format": MS-DOS Stub, COFF File
//! Header, Optional Header, Section Table). Offsets and sizes count bytes.

/// Of the signature's file offset, in the file.
pub(crate) const SIGNATURE_OFFSET: u64 = 0x3c;

/// The signature and the COFF header; the optional header follows.
pub(crate) const COFF_HEADER_END: u64 = 24;

/// Of NumberOfSections, after the beginning of the signature.
pub(crate) const NUMBER_OF_SECTIONS: u64 = 6;

/// Of SizeOfOptionalHeader, after the beginning of the signature.
pub(crate) const SIZE_OF_OPTIONAL_HEADER: u64 = 20;

/// Of SizeOfImage, in the optional header.
pub(crate) const SIZE_OF_IMAGE: u64 = 56;

/// Of SizeOfHeaders, in the optional header.
pub(crate) const SIZE_OF_HEADERS: u64 = 60;

/// The size of a section header.
pub(crate) const SECTION_HEADER_SIZE: u64 = 40;
