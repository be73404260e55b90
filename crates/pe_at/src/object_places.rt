//! What stands where in the file of an object, apart from the raw data of its sections.

use crate::header_places::{COFF_FIELDS, FieldAt, SECTION_FIELDS, SECTION_LEN, field_at};
use crate::row_name::RowName;
use coff_read::{BigFileHeader, EitherObject, FileHeader, RELOCATION_LEN};

/// How many bytes the COFF header, the header of a big object, and the size of the string table take.
const COFF_HEADER_LEN: u64 = 20;

const BIG_HEADER_LEN: u64 = 56;

const STRINGS_LEN: u64 = 4;

/// The fields of the header of a big object: `ANON_OBJECT_HEADER_BIGOBJ` of winnt.h.
const BIG_FIELDS: &[FieldAt] = &[
    ("Sig1", 0, 2),
    ("Sig2", 2, 2),
    ("Version", 4, 2),
    ("Machine", 6, 2),
    ("TimeDateStamp", 8, 4),
    ("ClassID", 12, 16),
    ("SizeOfData", 28, 4),
    ("Flags", 32, 4),
    ("MetaDataSize", 36, 4),
    ("MetaDataOffset", 40, 4),
    ("NumberOfSections", 44, 4),
    ("PointerToSymbolTable", 48, 4),
    ("NumberOfSymbols", 52, 4),
];

/// What the header of an object says of the places in its file.
#[derive(Clone, Copy)]
struct ObjectLayout {
    /// The fields of the header, and what they are fields of.
    fields: &'static [FieldAt],
    header: &'static str,
    /// Where the section table begins, and how many section headers it has.
    section_table: u64,
    sections: u64,
    /// Where the symbol table begins, or 0, how many records it has, and how many bytes each of them takes.
    symbol_table: u64,
    records: u64,
    record_len: u64,
}

/// The layout of a plain object.
fn plain_layout(header: &FileHeader) -> ObjectLayout {
    ObjectLayout {
        fields: COFF_FIELDS,
        header: " of the COFF header",
        section_table: COFF_HEADER_LEN + u64::from(header.size_of_optional_header),
        sections: u64::from(header.number_of_sections),
        symbol_table: u64::from(header.pointer_to_symbol_table),
        records: u64::from(header.number_of_symbols),
        record_len: 18,
    }
}

/// The layout of a big object.
fn big_layout(header: &BigFileHeader) -> ObjectLayout {
    ObjectLayout {
        fields: BIG_FIELDS,
        header: " of the /bigobj header",
        section_table: BIG_HEADER_LEN,
        sections: u64::from(header.number_of_sections),
        symbol_table: u64::from(header.pointer_to_symbol_table),
        records: u64::from(header.number_of_symbols),
        record_len: 20,
    }
}

/// The layout of an object's file.
fn layout_of(object: &EitherObject) -> ObjectLayout {
    match object {
        EitherObject::Plain(object) => plain_layout(&object.header()),
        EitherObject::Big(object) => big_layout(&object.header()),
    }
}

/// The index of the row that has an offset, among `count` rows of `len` bytes from `start` on.
fn row_of(offset: u64, start: u64, len: u64, count: u64) -> Option<u64> {
    if offset < start {
        return None;
    }
    let index = (offset - start).checked_div(len)?;
    (index < count).then_some(index)
}

/// What stands at an offset of the headers: a field of the object's header or of a section header, or the optional header.
fn header_row(layout: ObjectLayout, offset: u64) -> Option<RowName> {
    if let Some(field) = field_at(layout.fields, offset) {
        return Some(RowName::words(field, layout.header));
    }
    let table = layout.section_table;
    if offset < table {
        return Some(RowName::words("optional header", ""));
    }
    let index = row_of(offset, table, SECTION_LEN, layout.sections)?;
    let field = field_at(SECTION_FIELDS, (offset - table) % SECTION_LEN)?;
    let number = index.saturating_add(1);
    Some(RowName::field(field, " of section header ", number))
}

/// What stands at an offset of the relocations of sections.
fn relocation_row(object: &EitherObject, offset: u64) -> Option<RowName> {
    for index in 0..object.section_count() {
        let header = object.section_header(index)?;
        let start = u64::from(header.pointer_to_relocations);
        let count = u64::from(header.number_of_relocations);
        if let Some(row) = row_of(offset, start, RELOCATION_LEN, count) {
            return Some(RowName::relocation(row, (index as u64).saturating_add(1)));
        }
    }
    None
}

/// The size of the string table at an offset of a file, with its own 4 bytes.
fn strings_size(file: &[u8], start: u64) -> u64 {
    let Ok(start) = usize::try_from(start) else {
        return STRINGS_LEN;
    };
    match file.get(start..) {
        Some([a, b, c, d, ..]) => u64::from(u32::from_le_bytes([*a, *b, *c, *d])).max(STRINGS_LEN),
        _ => STRINGS_LEN,
    }
}

/// What stands at an offset of the symbol table or of the string table behind it.
fn symbol_row(file: &[u8], layout: ObjectLayout, offset: u64) -> Option<RowName> {
    let (start, count, len) = (layout.symbol_table, layout.records, layout.record_len);
    if start == 0 {
        return None;
    }
    if let Some(record) = row_of(offset, start, len, count) {
        return Some(RowName::numbered("record ", record, " of the symbol table"));
    }
    let strings = start.saturating_add(len.saturating_mul(count));
    let has_it = offset >= strings && offset - strings < strings_size(file, strings);
    has_it.then_some(RowName::words("string table", ""))
}

/// What stands at an offset of an object's file, like `VirtualSize of section header 1`.
pub(crate) fn place_row(file: &[u8], object: &EitherObject, offset: u64) -> Option<RowName> {
    let layout = layout_of(object);
    let mut found = header_row(layout, offset);
    if found.is_none() {
        found = symbol_row(file, layout, offset);
    }
    if found.is_none() {
        found = relocation_row(object, offset);
    }
    found
}
