//! The sections of an object, and their relocations.

ghost use Rattle.std.specs.Prelude.{◌≡◌, option_map};
ghost use Rattle.pe_text.specs.TextWriter.{IsReady, Adds};
ghost use Rattle.pe_page.specs.Page.{AddsSome};
ghost use Rattle.pe_show.specs.Places.{field_offset};
ghost use Rattle.pe_show.specs.Rows.{file_text, type_text, symbol_text, relocation_row};

use crate::sections::content;
use coff_read::{EitherObject, FileSection, RawData, Relocation, relocation_type_name};
use pe_head::FlagKind;
use pe_page::Cell::{self, Plain};
use pe_page::{
    FlagRow, Page, SymbolNames, decimal_width, permissions, read_sections, section_width, sizes_of,
    write_cells, write_heading, write_name,
};
use pe_text::Part::{Hex, Text};
use pe_text::{ShowOptions, Sink, TextWriter, hex_width};
use std::alloc::{AllocError, Allocator};

/// The widths of the columns of sections.
#[derive(Clone, Copy)]
struct Widths {
    number: usize,
    name: usize,
    bytes: u8,
}

/// The widths of an object's sections.
fn widths_of(sections: &[FileSection]) -> Widths {
    let mut widths = Widths {
        number: decimal_width(sections.len() as u64).max(4),
        name: 8,
        bytes: 6,
    };
    for section in sections {
        widths.name = widths.name.max(section_width(section.name));
        widths.bytes = widths.bytes.max(hex_width(sizes_of(&section.raw).0));
    }
    widths
}

/// The row of the flags of a section: after the columns, and below the permissions.
fn flag_row(page: &Page, widths: &Widths) -> FlagRow {
    let names = widths.number.saturating_add(widths.name);
    FlagRow {
        column: names.saturating_add(2 * usize::from(widths.bytes) + 37),
        indent: names.saturating_add(3),
        width: page.width,
    }
}

/// Adds the row of a section.
fn write_section<W: Sink>(
    text: &mut TextWriter<W>,
    page: &Page,
    widths: &Widths,
    index: usize,
    section: &FileSection,
)
    requires { IsReady W.failures text.old }
    ensures { AddsSome W.taken W.failures text.old text.new }
{
    let (bytes, in_file) = sizes_of(&section.raw);
    write_cells(
        text,
        &[
            Cell::Right((index as u64).saturating_add(1), widths.number),
            Plain(Text(b"  ")),
            Cell::Column(section.name, widths.name),
            Plain(Text(b"  ")),
            Plain(Text(permissions(section.flags))),
            Plain(Text(b" ")),
            Cell::Column(content(section.flags), 5),
            Plain(Text(b"   0x")),
            Plain(Hex(bytes, widths.bytes)),
            Plain(Text(b"   0x")),
            Plain(Hex(in_file, widths.bytes)),
            Plain(Text(b"   ")),
            Cell::Right(section.relocations.len() as u64, 11),
            Cell::Flags(FlagKind::Section, section.flags, flag_row(page, widths)),
            Plain(Text(b"\n")),
        ],
    );
}

/// Adds the table of an object's sections, which are numbered from 1.
pub(crate) fn write_sections<W: Sink>(
    text: &mut TextWriter<W>,
    page: &Page,
    sections: &[FileSection],
)
    requires { IsReady W.failures text.old }
    ensures { AddsSome W.taken W.failures text.old text.new }
{
    let widths = widths_of(sections);
    write_heading(text, page.options, b"Sections", sections.len());
    write_cells(
        text,
        &[
            Cell::Blanks(widths.number.saturating_sub(1)),
            Plain(Text(b"#  ")),
            Cell::Column(b"name", widths.name),
            Plain(Text(b"  flags       ")),
            Cell::Column(b"bytes", usize::from(widths.bytes) + 5),
            Cell::Column(b"in file", usize::from(widths.bytes) + 5),
            Plain(Text(b"relocations\n")),
        ],
    );
    for (index, section) in sections.iter().enumerate() {
        if text.has_failed() {
            return;
        }
        write_section(text, page, &widths, index, section);
    }
}

/// Adds the name of a relocation's type, or its number if the format has no name for it.
fn write_type<W: Sink>(text: &mut TextWriter<W>, name: Option<&str>, kind: u16)
    requires { IsReady W.failures text.old }
    ensures { Adds W.taken W.failures text.old text.new (type_text (option_map (λ name. name.now) name.entry) kind) }
{
    match name {
        Some(name) => text.text(name.as_bytes()),
        None => {
            text.text(b"0x");
            text.hex(4, kind as u64);
        }
    }
}

/// Adds a blank and the name of a symbol, if it has one.
fn write_symbol_name<W: Sink>(text: &mut TextWriter<W>, name: Option<&[u8]>)
    requires { IsReady W.failures text.old }
    ensures { Adds W.taken W.failures text.old text.new (symbol_text (option_map (λ name. name.now) name.entry)) }
{
    if let Some(name) = name {
        text.text(b" ");
        write_name(text, name);
    }
}

/// The file offset of the field of a relocation, if the file holds it: where the section's raw data is, its own address, how many
/// bytes of raw data it has, and the relocation's address.
fn field_offset(pointer: u32, base: u32, size: u64, address: u32) -> Option<u64>
    ensures { result ≡ field_offset pointer base size address }
{
    if address < base || (address - base) as u64 >= size {
        return None;
    }
    Some(pointer as u64 + (address - base) as u64)
}

/// Adds a file offset, if there is one.
fn write_file_offset<W: Sink>(text: &mut TextWriter<W>, offset: Option<u64>)
    requires { IsReady W.failures text.old }
    ensures { Adds W.taken W.failures text.old text.new (file_text offset) }
{
    if let Some(offset) = offset {
        text.text(b"  file 0x");
        text.hex_at_least(6, offset);
    }
}

/// Adds the row of a relocation: its offset in the section, that of its field in the file, its type, and its symbol.
fn write_relocation<W: Sink>(
    text: &mut TextWriter<W>,
    file: Option<u64>,
    type_name: Option<&str>,
    symbol: Option<&[u8]>,
    relocation: &Relocation,
)
    requires { IsReady W.failures text.old }
    ensures { Adds W.taken W.failures text.old text.new (relocation_row relocation.now.address file (option_map (λ name. name.now) type_name.entry) relocation.now.kind relocation.now.symbol (option_map (λ name. name.now) symbol.entry)) }
{
    text.text(b"    0x");
    text.hex_at_least(6, relocation.address as u64);
    write_file_offset(text, file);
    text.text(b"  ");
    write_type(text, type_name, relocation.kind);
    text.text(b"  #");
    text.decimal(relocation.symbol as u64);
    write_symbol_name(text, symbol);
    text.text(b"\n");
}

/// The file offset of the raw data of a section, by its index.
fn pointer_of(object: &EitherObject, index: usize) -> u32 {
    match object.section_header(index) {
        Some(header) => header.pointer_to_raw_data,
        None => 0,
    }
}

/// Adds the relocations of a section, if it has some, under its number and its name.
fn write_section_relocations<A: Allocator + Copy, W: Sink>(
    text: &mut TextWriter<W>,
    object: &EitherObject,
    names: &SymbolNames<A>,
    place: usize,
    section: &FileSection,
)
    requires { IsReady W.failures text.old }
    ensures { AddsSome W.taken W.failures text.old text.new }
{
    let relocations = section.relocations;
    if relocations.is_empty() {
        return;
    }
    write_cells(
        text,
        &[
            Plain(Text(b"  ")),
            Cell::Right((place as u64).saturating_add(1), 1),
            Plain(Text(b" ")),
            Cell::Section(section.name),
            Plain(Text(b" (")),
            Cell::Count(relocations.len() as u64),
            Plain(Text(b")\n")),
        ],
    );
    let (pointer, base) = (pointer_of(object, place), section.virtual_address);
    let (_, in_file) = sizes_of(&section.raw);
    for index in 0..relocations.len() {
        if text.has_failed() {
            return;
        }
        let relocation = relocations.get(index).unwrap();
        let file = field_offset(pointer, base, in_file, relocation.address);
        let type_name = relocation_type_name(object.machine(), relocation.kind);
        let symbol = names.get(relocation.symbol);
        write_relocation(text, file, type_name, symbol, &relocation);
    }
}

/// How many relocations an object has.
fn relocation_count(sections: &[FileSection]) -> usize {
    let mut count: usize = 0;
    for section in sections {
        count = count.saturating_add(section.relocations.len());
    }
    count
}

/// Adds the relocations of an object, section by section, if the options select them. After a write that failed no further section
/// is read: all sections may share the same relocations.
pub(crate) fn write_relocations<A: Allocator + Copy, W: Sink>(
    text: &mut TextWriter<W>,
    options: &ShowOptions,
    object: &EitherObject,
    sections: &[FileSection],
    names: &SymbolNames<A>,
)
    requires { IsReady W.failures text.old }
    ensures { AddsSome W.taken W.failures text.old text.new }
{
    if !options.relocations {
        return;
    }
    write_heading(text, options, b"Relocations", relocation_count(sections));
    for (index, section) in sections.iter().enumerate() {
        if text.has_failed() {
            return;
        }
        write_section_relocations(text, object, names, index, section);
    }
}
