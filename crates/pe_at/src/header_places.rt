//! What stands where in the headers.

use crate::row_name::RowName;
use pe_head::{Headers, Magic, directory_name};

/// A field of a header: its name in "PE Format", its offset, and its width in bytes.
pub(crate) type FieldAt = (&'static str, u8, u8);

/// Where the offset of the signature is, and how many bytes the MS-DOS header has.
const SIGNATURE_OFFSET: u64 = 0x3c;

const MS_DOS_HEADER_LEN: u64 = 64;

/// How many bytes the signature, the signature and the COFF header, a directory and a section header take.
const SIGNATURE_LEN: u64 = 4;

const COFF_END: u64 = 24;

const DIRECTORY_LEN: u64 = 8;

pub(crate) const SECTION_LEN: u64 = 40;

/// The fields of the COFF header.
pub(crate) const COFF_FIELDS: &[FieldAt] = &[
    // from describe/records.txt: coff fields of headers
    ("Machine", 0, 2),
    ("NumberOfSections", 2, 2),
    ("TimeDateStamp", 4, 4),
    ("PointerToSymbolTable", 8, 4),
    ("NumberOfSymbols", 12, 4),
    ("SizeOfOptionalHeader", 16, 2),
    ("Characteristics", 18, 2),
    // end of describe/records.txt
];

/// The fields of the optional header of PE32.
const NARROW_FIELDS: &[FieldAt] = &[
    // from describe/records.txt: narrow fields of headers
    ("Magic", 0, 2),
    ("MajorLinkerVersion", 2, 1),
    ("MinorLinkerVersion", 3, 1),
    ("SizeOfCode", 4, 4),
    ("SizeOfInitializedData", 8, 4),
    ("SizeOfUninitializedData", 12, 4),
    ("AddressOfEntryPoint", 16, 4),
    ("BaseOfCode", 20, 4),
    ("BaseOfData", 24, 4),
    ("ImageBase", 28, 4),
    ("SectionAlignment", 32, 4),
    ("FileAlignment", 36, 4),
    ("MajorOperatingSystemVersion", 40, 2),
    ("MinorOperatingSystemVersion", 42, 2),
    ("MajorImageVersion", 44, 2),
    ("MinorImageVersion", 46, 2),
    ("MajorSubsystemVersion", 48, 2),
    ("MinorSubsystemVersion", 50, 2),
    ("Win32VersionValue", 52, 4),
    ("SizeOfImage", 56, 4),
    ("SizeOfHeaders", 60, 4),
    ("CheckSum", 64, 4),
    ("Subsystem", 68, 2),
    ("DllCharacteristics", 70, 2),
    ("SizeOfStackReserve", 72, 4),
    ("SizeOfStackCommit", 76, 4),
    ("SizeOfHeapReserve", 80, 4),
    ("SizeOfHeapCommit", 84, 4),
    ("LoaderFlags", 88, 4),
    ("NumberOfRvaAndSizes", 92, 4),
    // end of describe/records.txt
];

/// The fields of the optional header of PE32+.
const WIDE_FIELDS: &[FieldAt] = &[
    // from describe/records.txt: wide fields of headers
    ("Magic", 0, 2),
    ("MajorLinkerVersion", 2, 1),
    ("MinorLinkerVersion", 3, 1),
    ("SizeOfCode", 4, 4),
    ("SizeOfInitializedData", 8, 4),
    ("SizeOfUninitializedData", 12, 4),
    ("AddressOfEntryPoint", 16, 4),
    ("BaseOfCode", 20, 4),
    ("ImageBase", 24, 8),
    ("SectionAlignment", 32, 4),
    ("FileAlignment", 36, 4),
    ("MajorOperatingSystemVersion", 40, 2),
    ("MinorOperatingSystemVersion", 42, 2),
    ("MajorImageVersion", 44, 2),
    ("MinorImageVersion", 46, 2),
    ("MajorSubsystemVersion", 48, 2),
    ("MinorSubsystemVersion", 50, 2),
    ("Win32VersionValue", 52, 4),
    ("SizeOfImage", 56, 4),
    ("SizeOfHeaders", 60, 4),
    ("CheckSum", 64, 4),
    ("Subsystem", 68, 2),
    ("DllCharacteristics", 70, 2),
    ("SizeOfStackReserve", 72, 8),
    ("SizeOfStackCommit", 80, 8),
    ("SizeOfHeapReserve", 88, 8),
    ("SizeOfHeapCommit", 96, 8),
    ("LoaderFlags", 104, 4),
    ("NumberOfRvaAndSizes", 108, 4),
    // end of describe/records.txt
];

/// The fields of a section header.
pub(crate) const SECTION_FIELDS: &[FieldAt] = &[
    ("Name", 0, 8),
    ("VirtualSize", 8, 4),
    ("VirtualAddress", 12, 4),
    ("SizeOfRawData", 16, 4),
    ("PointerToRawData", 20, 4),
    ("PointerToRelocations", 24, 4),
    ("PointerToLinenumbers", 28, 4),
    ("NumberOfRelocations", 32, 2),
    ("NumberOfLinenumbers", 34, 2),
    ("Characteristics", 36, 4),
];

/// The name of the field that has an offset in its header.
pub(crate) fn field_at(fields: &[FieldAt], offset: u64) -> Option<&'static str> {
    for (name, start, width) in fields {
        let start = u64::from(*start);
        if offset >= start && offset - start < u64::from(*width) {
            return Some(name);
        }
    }
    None
}

/// What stands at an offset of the optional header, behind its fixed fields.
fn directory_row(headers: &Headers, offset: u64) -> RowName {
    let index = offset / DIRECTORY_LEN;
    if index >= headers.directories.len() as u64 {
        return RowName::words("optional header", "");
    }
    let field = if offset % DIRECTORY_LEN < 4 {
        "VirtualAddress of directory "
    } else {
        "Size of directory "
    };
    match directory_name(u32::try_from(index).unwrap_or(u32::MAX)) {
        Some(name) => RowName::directory(field, index, name),
        None => RowName::numbered(field, index, ""),
    }
}

/// What stands at an offset of the optional header.
fn optional_row(headers: &Headers, offset: u64) -> RowName {
    let fields = match headers.magic {
        Magic::Pe32 => NARROW_FIELDS,
        Magic::Pe32Plus => WIDE_FIELDS,
    };
    match field_at(fields, offset) {
        Some(field) => RowName::words(field, " of the optional header"),
        None => directory_row(headers, offset.saturating_sub(headers.magic.fixed_size())),
    }
}

/// What stands at an offset of the section table.
fn section_row(headers: &Headers, offset: u64) -> Option<RowName> {
    let index = offset / SECTION_LEN;
    if index >= u64::from(headers.number_of_sections) {
        return None;
    }
    let field = field_at(SECTION_FIELDS, offset % SECTION_LEN)?;
    Some(RowName::field(field, " of section header ", index))
}

/// What stands at an offset from the signature on.
fn behind_signature(headers: &Headers, offset: u64) -> Option<RowName> {
    if offset < SIGNATURE_LEN {
        return Some(RowName::words("signature", ""));
    }
    if offset < COFF_END {
        let field = field_at(COFF_FIELDS, offset - SIGNATURE_LEN)?;
        return Some(RowName::words(field, " of the COFF header"));
    }
    let offset = offset - COFF_END;
    let size = u64::from(headers.size_of_optional_header);
    if offset < size {
        return Some(optional_row(headers, offset));
    }
    section_row(headers, offset - size)
}

/// What stands at an offset before the signature.
fn before_signature(offset: u64) -> RowName {
    if offset >= MS_DOS_HEADER_LEN {
        RowName::words("MS-DOS stub", "")
    } else if offset >= SIGNATURE_OFFSET {
        RowName::words("offset of the signature", "")
    } else {
        RowName::words("MS-DOS header", "")
    }
}

/// What stands at an offset of the headers, like `TimeDateStamp of the COFF header`; `None` behind the section table.
pub(crate) fn header_row(headers: &Headers, offset: u64) -> Option<RowName> {
    let signature = u64::from(headers.pe_offset);
    if offset >= signature {
        behind_signature(headers, offset - signature)
    } else {
        Some(before_signature(offset))
    }
}
