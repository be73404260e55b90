//! The table of an image's sections.

ghost use Rattle.std.specs.Prelude.{◌≡◌};
ghost use Rattle.pe_text.specs.TextWriter.{IsReady};
ghost use Rattle.pe_page.specs.Page.{AddsSome};
ghost use Rattle.pe_show.specs.Words.{content_text};

use pe_head::{FlagKind, Headers, SectionHeader, section_flag};
use pe_page::Cell::{self, Plain};
use pe_page::{
    FlagRow, Page, SectionNames, permissions, section_width, write_cells, write_heading,
};
use pe_text::Part::{Hex, Text};
use pe_text::{Sink, TextWriter, hex_width};

/// The widths of the columns of sections.
#[derive(Clone, Copy)]
struct Widths {
    name: usize,
    rva: u8,
    bytes: u8,
    file: u8,
}

/// The contents of a section by its flags: code, initialized data, or uninitialized data ("PE Format", Section Flags).
pub(crate) fn content(flags: u32) -> &'static [u8]
    ensures { result.now ≡ content_text flags }
{
    if flags & section_flag::CODE != 0 {
        b"code"
    } else if flags & section_flag::INITIALIZED_DATA != 0 {
        b"data"
    } else if flags & section_flag::UNINITIALIZED_DATA != 0 {
        b"bss"
    } else {
        b"-"
    }
}

/// The widths of sections.
fn widths_of(headers: &Headers, names: &SectionNames) -> Widths {
    let mut widths = Widths {
        name: 8,
        rva: 6,
        bytes: 6,
        file: 6,
    };
    for (index, section) in headers.sections.as_slice().iter().enumerate() {
        widths.name = widths.name.max(section_width(names.get(index)));
        widths.rva = widths
            .rva
            .max(hex_width(u64::from(section.virtual_address)));
        widths.bytes = widths.bytes.max(hex_width(u64::from(section.extent())));
        widths.file = widths
            .file
            .max(hex_width(u64::from(section.pointer_to_raw_data)));
    }
    widths
}

/// The row of the flags of a section: after the columns, and below the permissions.
fn flag_row(page: &Page, widths: &Widths) -> FlagRow {
    let digits = usize::from(widths.rva) + 2 * usize::from(widths.bytes) + usize::from(widths.file);
    FlagRow {
        column: widths.name.saturating_add(digits).saturating_add(37),
        indent: widths.name.saturating_add(7),
        width: page.width,
    }
}

/// Adds the row of a section.
fn write_section<W: Sink>(
    text: &mut TextWriter<W>,
    page: &Page,
    widths: &Widths,
    index: usize,
    name: &[u8],
    section: &SectionHeader,
)
    requires { IsReady W.failures text.old }
    ensures { AddsSome W.taken W.failures text.old text.new }
{
    write_cells(
        text,
        &[
            Cell::Right(index as u64, 4),
            Plain(Text(b"  ")),
            Cell::Column(name, widths.name),
            Plain(Text(b"  ")),
            Plain(Text(permissions(section.characteristics))),
            Plain(Text(b" ")),
            Cell::Column(content(section.characteristics), 5),
            Plain(Text(b"   0x")),
            Plain(Hex(u64::from(section.virtual_address), widths.rva)),
            Plain(Text(b"   0x")),
            Plain(Hex(u64::from(section.extent()), widths.bytes)),
            Plain(Text(b"   0x")),
            Plain(Hex(u64::from(section.pointer_to_raw_data), widths.file)),
            Plain(Text(b"   0x")),
            Plain(Hex(u64::from(section.rawlen()), widths.bytes)),
            Cell::Flags(
                FlagKind::Section,
                section.characteristics,
                flag_row(page, widths),
            ),
            Plain(Text(b"\n")),
        ],
    );
}

/// Adds the table of an image's sections.
pub(crate) fn write_sections<W: Sink>(
    text: &mut TextWriter<W>,
    page: &Page,
    headers: &Headers,
    names: &SectionNames,
)
    requires { IsReady W.failures text.old }
    ensures { AddsSome W.taken W.failures text.old text.new }
{
    let sections = headers.sections.as_slice();
    let widths = widths_of(headers, names);
    write_heading(text, page.options, b"Sections", sections.len());
    write_cells(
        text,
        &[
            Plain(Text(b"   #  ")),
            Cell::Column(b"name", widths.name),
            Plain(Text(b"  flags       ")),
            Cell::Column(b"RVA", usize::from(widths.rva) + 5),
            Cell::Column(b"bytes", usize::from(widths.bytes) + 5),
            Cell::Column(b"file", usize::from(widths.file) + 5),
            Plain(Text(b"in file\n")),
        ],
    );
    for (index, section) in sections.iter().enumerate() {
        write_section(text, page, &widths, index, names.get(index), section);
    }
}
