//! The base relocations of an image, by page.

ghost use Rattle.std.specs.Prelude.{◌≡◌, ◌<◌, ◌≤◌, length, flat_map};
ghost use Rattle.pe_text.specs.TextWriter.{IsReady, Adds};
ghost use Rattle.pe_page.specs.Page.{AddsSome};
ghost use Rattle.pe_show.specs.Rows.{field_text, fields_row, kind_text};

use pe_image::Tables;
use pe_page::write_heading;
use pe_tables::{Fixup, FixupKind};
use pe_text::{ShowOptions, Sink, TextWriter, hex_width};
use std::alloc::Allocator;

/// How many fields are shown in a row.
const FIELDS_SHOWN: usize = 16;

/// The size of a page in bytes.
const PAGE: u32 = 0x1000;

/// Whether two fields begin in one page.
pub(crate) fn same_page(fixup: &Fixup, other: &Fixup) -> bool {
    fixup.field / PAGE == other.field / PAGE
}

/// Whether two fields belong in one row, if there is room.
fn same_row(fixup: &Fixup, other: &Fixup) -> bool {
    same_page(fixup, other) && fixup.kind == other.kind
}

/// How many fields from the first on belong in its row.
fn page_len(fixups: &[Fixup]) -> usize
    ensures some { 0 < length fixups.now → 0 < result }
    ensures within { result ≤ length fixups.now }
{
    let len = match fixups.chunk_by(same_row).next() {
        Some(page) => page.len(),
        None => 0,
    };
    len.max(1).min(fixups.len())
}

/// The name of a kind in "PE Format", in 7 columns.
fn kind_word(kind: FixupKind) -> &'static [u8]
    ensures { result.now ≡ kind_text kind }
{
    match kind {
        FixupKind::Bits32 => b"HIGHLOW",
        FixupKind::Bits64 => b"DIR64  ",
        FixupKind::High => b"HIGH   ",
        FixupKind::Low => b"LOW    ",
    }
}

/// Adds the offset of a field in its page.
fn write_field<W: Sink>(text: &mut TextWriter<W>, fixup: &Fixup)
    requires { IsReady W.failures text.old }
    ensures { Adds W.taken W.failures text.old text.new (field_text fixup.now) }
{
    text.text(b" ");
    text.hex(3, (fixup.field % PAGE) as u64);
}

/// Adds the offset of each of these fields in its page.
fn write_each<W: Sink>(text: &mut TextWriter<W>, row: &[Fixup])
    requires { IsReady W.failures text.old }
    ensures { Adds W.taken W.failures text.old text.new (flat_map field_text row.now) }
{
    for fixup in row {
        write_field(text, fixup);
    }
}

/// Adds the page and the kind of fields, taken from the first, and the offset of each in the page.
fn write_fields<W: Sink>(text: &mut TextWriter<W>, width: u8, first: &Fixup, row: &[Fixup])
    requires { IsReady W.failures text.old }
    ensures { Adds W.taken W.failures text.old text.new (fields_row width first.now row.now) }
{
    text.text(b"  0x");
    text.hex_at_least(width, (first.field / PAGE * PAGE) as u64);
    text.text(b"  ");
    text.text(kind_word(first.kind));
    text.text(b" ");
    write_each(text, row);
    text.text(b"\n");
}

/// Adds a row of fields, unless it is empty.
fn write_row<W: Sink>(text: &mut TextWriter<W>, width: u8, row: &[Fixup])
    requires { IsReady W.failures text.old }
    ensures { AddsSome W.taken W.failures text.old text.new }
{
    if let Some(first) = row.first() {
        write_fields(text, width, first, row);
    }
}

/// Adds rows for the fields of one kind in a page.
fn write_page<W: Sink>(text: &mut TextWriter<W>, width: u8, fixups: &[Fixup])
    requires { IsReady W.failures text.old }
    ensures { AddsSome W.taken W.failures text.old text.new }
{
    for row in fixups.chunks(FIELDS_SHOWN) {
        if text.has_failed() {
            return;
        }
        write_row(text, width, row);
    }
}

/// Adds rows for the fields of the base relocations, if the options select them and they were read.
pub(crate) fn write_fixups<A: Allocator + Copy, W: Sink>(
    text: &mut TextWriter<W>,
    options: &ShowOptions,
    tables: &Tables<A>,
)
    requires { IsReady W.failures text.old }
    ensures { AddsSome W.taken W.failures text.old text.new }
{
    let (Some(fixups), true) = (&tables.fixups, options.relocations) else {
        return;
    };
    let fixups = fixups.as_slice();
    let width = fixups.iter().fold(
        6,
        |width, fixup| hex_width(u64::from(fixup.field)).max(width),
    );
    write_heading(text, options, b"Base relocations", fixups.len());
    let mut at = 0;
    while at < fixups.len() {
        if text.has_failed() {
            return;
        }
        let len = page_len(&fixups[at..]);
        write_page(text, width, &fixups[at..at + len]);
        at += len;
    }
}
