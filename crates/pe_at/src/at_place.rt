//! What stands at a place of an image.

ghost use Rattle.std.specs.Prelude.{◌≡◌, ◌<◌, length, IfOk, OnErr};
ghost use Rattle.pe_image.specs.ImageTests.{image_tests};
ghost use Rattle.pe_reach.specs.Views.{seen_of};
ghost use Rattle.pe_text.specs.Outcome.{IsOutcomeOf};
ghost use Rattle.pe_text.specs.TextWriter.{IsReady};
ghost use Rattle.pe_page.specs.Page.{AddsSome};

use crate::at_headers::write_by_headers;
use crate::at_image::AtImage;
use crate::at_object::symbol_cells;
use crate::file_places::write_unlaid;
use crate::header_places::header_row;
use crate::leaf_place::write_leaf_at;
use crate::no_place::NoPlace;
use crate::placed_symbols::{PlacedSymbol, nearest_symbol};
use crate::row_name::{RowName, row_cells};
use crate::spot::{OUTSIDE, Spot, offset_in_section};
use crate::table_places::{is_within, table_row};
use coff_read::ImageStrings;
use pe_head::Headers;
use pe_image::Tables;
use pe_layout::{Layout, Located};
use pe_page::Cell::{self, Plain};
use pe_page::{NOTHING, SectionNames, SectionPlace, outcome_of, permissions, write_cells};
use pe_reach::ViewFile;
use pe_record_pages::function_cells;
use pe_tables::{Exports, Fixup, FixupKind, Import, Target};
use pe_text::Part::{Decimal, Hex, Hex2, Text};
use pe_text::{Outcome, Sink, TextWriter, refuse, write_parts};
use pe_view::{Fault, Place};
use std::alloc::{AllocError, Allocator};

/// How many bytes are shown.
const SHOWN: u32 = 16;

/// The least RVA to which a file offset is mapped.
fn laid_at(layout: &Layout, offset: u64) -> Option<u32> {
    if offset < u64::from(layout.size_of_headers()) {
        return Some(offset as u32);
    }
    for index in 0..layout.section_count() {
        let section = layout.section(index)?;
        let start = u64::from(section.pointer_to_raw_data);
        if offset >= start && offset - start < u64::from(section.rawlen()) {
            let behind = u32::try_from(offset - start).ok()?;
            return section.virtual_address.checked_add(behind);
        }
    }
    None
}

/// The RVA of a place of the image.
fn rva_of(layout: &Layout, place: Place) -> Option<u32> {
    let rva = match place {
        Place::Rva(rva) => rva,
        Place::File(offset) => laid_at(layout, offset)?,
        Place::Address(address) => {
            u32::try_from(address.checked_sub(layout.image_base())?).ok()?
        }
        Place::Item(_) => return None,
    };
    layout.contains(rva, 1).then_some(rva)
}

/// The first RVA and the flags of the section that contains an RVA.
fn section_of(layout: &Layout, rva: u32) -> Option<(u32, u32)> {
    let index = match layout.locate(rva) {
        Located::Raw { section, .. } | Located::Zero { section } => section,
        _ => return None,
    };
    let section = layout.section(usize::from(index))?;
    Some((section.virtual_address, section.characteristics))
}

/// The ordinal and the RVA of the last export at or before an RVA, but not before the section's first byte.
fn nearest_export<A: Allocator + Copy>(
    exports: &Exports<A>,
    first: u32,
    rva: u32,
) -> Option<(u64, u32)> {
    let mut nearest = None;
    for (ordinal, target) in exports.ordinals() {
        let Target::Rva(at) = *target else {
            continue;
        };
        let is_nearer = match nearest {
            Some((_, before)) => before < at,
            None => true,
        };
        if at >= first && at <= rva && is_nearer {
            nearest = Some((*ordinal, at));
        }
    }
    nearest
}

/// The first name of an ordinal.
fn name_of<'a, A: Allocator + Copy>(exports: &Exports<'a, A>, ordinal: u64) -> Option<&'a [u8]> {
    for ((name, _), it) in exports.names().iter().zip(exports.name_ordinals()) {
        if *it == ordinal {
            return Some(name);
        }
    }
    None
}

/// The last export at or before an RVA in its section, like `  export crc32+0x10`, and its RVA.
fn export_cells<'a, A: Allocator + Copy>(
    exports: &Exports<'a, A>,
    first: u32,
    rva: u32,
) -> ([Cell<'a>; 5], Option<u32>) {
    let Some((ordinal, at)) = nearest_export(exports, first, rva) else {
        return ([NOTHING; 5], None);
    };
    let (number, name) = match name_of(exports, ordinal) {
        Some(name) => (NOTHING, Cell::Name(name)),
        None => (Plain(Text(b"#")), Plain(Decimal(ordinal))),
    };
    let (plus, distance) = match rva.saturating_sub(at) {
        0 => (NOTHING, NOTHING),
        distance => (Plain(Text(b"+0x")), Plain(Hex(u64::from(distance), 1))),
    };
    let cells = [Plain(Text(b"  export ")), number, name, plus, distance];
    (cells, Some(at))
}

/// The last symbol at or before an RVA in its section, if it is after the RVA of the last export, like `  symbol crc32+0x10`.
fn nearer_symbol_cells<'a>(
    symbols: &[PlacedSymbol<'a>],
    first: u32,
    rva: u32,
    exported: Option<u32>,
) -> [Cell<'a>; 4] {
    let from = match exported {
        Some(at) => first.max(at.saturating_add(1)),
        None => first,
    };
    symbol_cells(nearest_symbol(symbols, from, rva), u64::from(rva))
}

/// The first import whose slot contains an RVA.
fn import_around<'a>(imports: &[Import<'a>], width: u32, rva: u32) -> Option<Import<'a>> {
    for import in imports {
        if is_within(rva, import.slot, width) {
            return Some(*import);
        }
    }
    None
}

/// An import after some words, like `  slot of KERNEL32.dll Sleep`.
fn import_cells<'a>(words: &'static [u8], import: Option<Import<'a>>) -> [Cell<'a>; 4] {
    match import {
        Some(import) => [
            Plain(Text(words)),
            Cell::Name(import.module),
            Plain(Text(b" ")),
            Cell::Key(import.key),
        ],
        None => [NOTHING; 4],
    }
}

/// The import or the delay-loaded import whose slot contains an RVA.
fn slot_cells<'a, A: Allocator + Copy>(image: &AtImage<'a, A>, rva: u32) -> [Cell<'a>; 4] {
    let width = image.layout.slot_width();
    let import = match &image.tables.imports {
        Some(imports) => import_around(imports.as_slice(), width, rva),
        None => None,
    };
    match import {
        Some(_) => import_cells(b"  slot of ", import),
        None => import_cells(
            b"  delay-load slot of ",
            import_around(image.delayed.as_slice(), width, rva),
        ),
    }
}

/// The target of an address in a field while the image is at its ImageBase, like ` that points to RVA 0x1350 .text+0x350`.
fn target_cells<'a>(layout: &Layout, names: &SectionNames<'a>, address: u64) -> [Cell<'a>; 4] {
    match rva_of(layout, Place::Address(address)) {
        Some(rva) => {
            let number = Plain(Hex(u64::from(rva), 1));
            [
                Plain(Text(b" that points to RVA 0x")),
                number,
                Plain(Text(b" ")),
                Cell::Place(names.place(layout, rva)),
            ]
        }
        None => {
            let number = Plain(Hex(address, 1));
            [Plain(Text(b" that holds 0x")), number, NOTHING, NOTHING]
        }
    }
}

/// The base relocation whose field contains an RVA, like `  field of 8 bytes that points to RVA 0x1350 .text+0x350`.
fn field_cells<'a>(
    layout: &Layout,
    names: &SectionNames<'a>,
    fixups: &[Fixup],
    rva: u32,
) -> [Cell<'a>; 7] {
    for fixup in fixups {
        if is_within(rva, fixup.field, fixup.kind.width()) {
            let address = match fixup.kind {
                FixupKind::Bits32 => layout.u32_at(fixup.field).map(u64::from),
                FixupKind::Bits64 => layout.u64_at(fixup.field),
                FixupKind::High | FixupKind::Low => None,
            };
            let [to, number, gap, place] = match address {
                Some(address) => target_cells(layout, names, address),
                None => [NOTHING; 4],
            };
            return [
                Plain(Text(b"  field of ")),
                Plain(Decimal(u64::from(fixup.kind.width()))),
                Plain(Text(b" bytes")),
                to,
                number,
                gap,
                place,
            ];
        }
    }
    [NOTHING; 7]
}

/// The place of an RVA, like `RVA 0x251e4  address 0x241bb51e4  file 0x1ffe4  .idata+0x1e4 rw-`. `flags` are those of its section.
pub(crate) fn where_cells<'a>(
    base: u64,
    rva: u32,
    place: SectionPlace<'a>,
    flags: Option<u32>,
) -> [Cell<'a>; 10] {
    let address = base.wrapping_add(u64::from(rva));
    let (in_file, file) = match place.file {
        Some(file) => (Plain(Text(b"  file 0x")), Plain(Hex(file, 1))),
        None => (Plain(Text(b"  not in the file")), NOTHING),
    };
    let (gap, use_words) = match flags {
        Some(flags) => (Plain(Text(b" ")), Plain(Text(permissions(flags)))),
        None => (NOTHING, NOTHING),
    };
    [
        Plain(Text(b"RVA 0x")),
        Plain(Hex(u64::from(rva), 1)),
        Plain(Text(b"  address 0x")),
        Plain(Hex(address, 1)),
        in_file,
        file,
        Plain(Text(b"  ")),
        Cell::Place(place),
        gap,
        use_words,
    ]
}

/// What stands at an RVA in the headers or a table, like `descriptor 3 of the import table`.
fn row_at<A: Allocator + Copy>(
    layout: &Layout,
    headers: &Headers,
    tables: &Tables<A>,
    rva: u32,
) -> Option<RowName> {
    let named = match layout.locate(rva) {
        Located::Header { file } => header_row(headers, file),
        _ => None,
    };
    match named {
        Some(row) => Some(row),
        None => table_row(layout, headers, tables, rva),
    }
}

/// Adds the 16 bytes from an RVA on, or fewer at the end of the image.
fn write_bytes<W: Sink>(text: &mut TextWriter<W>, layout: &Layout, rva: u32)
    requires { IsReady W.failures text.old }
    ensures { AddsSome W.taken W.failures text.old text.new }
{
    let end = rva.saturating_add(SHOWN).min(layout.size());
    text.text(b"\n ");
    for at in rva..end {
        let byte = layout.byte(at).unwrap_or(0);
        write_parts(text, &[Text(b" "), Hex2(byte)]);
    }
    text.text(b"\n");
}

/// Adds what is at an RVA of an image with its first byte at `base`, without the end of the line.
fn write_line<A: Allocator + Copy, W: Sink>(
    text: &mut TextWriter<W>,
    image: &AtImage<A>,
    headers: &Headers,
    names: &SectionNames,
    base: u64,
    rva: u32,
)
    requires { IsReady W.failures text.old }
    ensures { AddsSome W.taken W.failures text.old text.new }
{
    let layout = &image.layout;
    let tables = &image.tables;
    let section = section_of(layout, rva);
    let (first, flags) = match section {
        Some((first, flags)) => (first, Some(flags)),
        None => (u32::MAX, None),
    };
    let (export, exported) = match &tables.exports {
        Some(exports) => export_cells(exports, first, rva),
        None => ([NOTHING; 5], None),
    };
    let slot = slot_cells(image, rva);
    let field = match &tables.fixups {
        Some(fixups) => field_cells(layout, names, fixups, rva),
        None => [NOTHING; 7],
    };
    let place = names.place(layout, rva);
    write_cells(text, &where_cells(base, rva, place, flags));
    write_cells(text, &export);
    write_cells(
        text,
        &nearer_symbol_cells(&image.symbols, first, rva, exported),
    );
    write_cells(text, &slot);
    write_cells(text, &field);
    write_cells(text, &function_cells(layout, rva));
    write_cells(text, &row_cells(row_at(layout, headers, tables, rva)));
    write_leaf_at(text, layout, &image.leaves, rva);
}

/// Adds what is at an RVA of an image whose first byte is at the address `base`: a line without its end, as [`at`](crate::at) writes it
/// for an image at its ImageBase.
pub fn write_place<A: Allocator + Copy, W: Sink>(
    text: &mut TextWriter<W>,
    image: &AtImage<A>,
    base: u64,
    rva: u32,
)
    requires { IsReady W.failures text.old }
    ensures { AddsSome W.taken W.failures text.old text.new }
{
    let headers = image.layout.headers();
    let names = SectionNames::new(image.file, &headers);
    write_line(text, image, &headers, &names, base, rva);
}

/// Adds what is at an RVA of an image at its ImageBase, and the bytes from there on.
fn write_at<A: Allocator + Copy, W: Sink>(
    text: &mut TextWriter<W>,
    image: &AtImage<A>,
    headers: &Headers,
    names: &SectionNames,
    rva: u32,
)
    requires { IsReady W.failures text.old }
    ensures { AddsSome W.taken W.failures text.old text.new }
{
    write_line(text, image, headers, names, image.layout.image_base(), rva);
    write_bytes(text, &image.layout, rva);
}

/// The RVA of a spot of the image, or what is said of one that has none.
fn rva_at(
    layout: &Layout,
    headers: &Headers,
    strings: Option<ImageStrings>,
    spot: &Spot,
) -> Result<u32, NoPlace> {
    match spot {
        Spot::At(place) => match rva_of(layout, *place) {
            Some(rva) => Ok(rva),
            None => Err(NoPlace::Words(OUTSIDE)),
        },
        Spot::In { section, offset } => {
            match offset_in_section(headers, strings, section, *offset) {
                Ok((_, rva)) => Ok(rva),
                Err(none) => Err(none),
            }
        }
    }
}

/// Adds what is at a spot of an image.
fn write_spot<A: Allocator + Copy, W: Sink>(
    text: &mut TextWriter<W>,
    image: &AtImage<A>,
    headers: &Headers,
    names: &SectionNames,
    spot: &Spot,
)
    requires { IsReady W.failures text.old }
    ensures { AddsSome W.taken W.failures text.old text.new }
{
    match rva_at(&image.layout, headers, image.file.strings(headers), spot) {
        Ok(rva) => write_at(text, image, headers, names, rva),
        Err(none) => write_unlaid(text, image.file, headers, spot, &none),
    }
}

/// Adds what is at each of some spots of an image.
fn write_spots<A: Allocator + Copy, W: Sink>(
    text: &mut TextWriter<W>,
    image: &AtImage<A>,
    spots: &[Spot],
)
    requires { IsReady W.failures text.old }
    ensures { AddsSome W.taken W.failures text.old text.new }
{
    let headers = image.layout.headers();
    let names = SectionNames::new(image.file, &headers);
    for spot in spots {
        write_spot(text, image, &headers, &names, spot);
    }
}

/// Adds the line of the first fault of an image's tables, if there is one.
fn write_fault<W: Sink>(text: &mut TextWriter<W>, fault: Option<Fault>)
    requires { IsReady W.failures text.old }
    ensures { AddsSome W.taken W.failures text.old text.new }
{
    if let Some(fault) = fault {
        refuse(text, fault);
    }
}

/// Adds what is at some spots of an image that is laid out, after the line of its fault if it has one.
fn write_laid_out<A: Allocator + Copy, W: Sink>(
    text: &mut TextWriter<W>,
    image: &AtImage<A>,
    spots: &[Spot],
)
    requires { IsReady W.failures text.old }
    ensures { AddsSome W.taken W.failures text.old text.new }
{
    write_fault(text, image.tables.fault);
    write_spots(text, image, spots);
}

/// Adds the line of one of faults 1 to 15, and what the headers say of some spots if they have no fault.
fn write_refused<W: Sink>(text: &mut TextWriter<W>, file: ViewFile, fault: Fault, spots: &[Spot])
    requires { IsReady W.failures text.old }
    ensures { AddsSome W.taken W.failures text.old text.new }
{
    match file.headers() {
        Ok(headers) => {
            write_fault(text, Some(fault));
            write_by_headers(text, file, &headers, spots);
        }
        Err(_) => write_fault(text, Some(fault)),
    }
}

/// Checks an image's file, and adds what is at some spots of it. It allocates only before it adds the first byte.
pub(crate) fn write_image_spots<A: Allocator + Copy, W: Sink>(
    alloc: A,
    text: &mut TextWriter<W>,
    file: ViewFile,
    spots: &[Spot],
) -> Result<Outcome, AllocError>
    requires { IsReady W.failures text.old }
    ensures judged { IfOk result (IsOutcomeOf (image_tests 0 (seen_of file.entry))) }
    ensures adds { IfOk result (λ _. AddsSome W.taken W.failures text.old text.new) }
    ensures same { text.new.writer.ghost_name ≡ text.old.writer.ghost_name }
    ensures adds_none { OnErr result (text.new ≡ text.old) }
    ensures reads { OnErr result (0 < length (seen_of file.entry)) }
{
    match file.lay_out() {
        Ok(layout) => {
            let image = AtImage::new(alloc, file, layout)?;
            write_laid_out(text, &image, spots);
            Ok(outcome_of(image.tables.fault))
        }
        Err(fault) => {
            write_refused(text, file, fault, spots);
            Ok(Outcome::Refused(fault))
        }
    }
}
