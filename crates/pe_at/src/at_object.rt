//! What stands at a place of an object.

ghost use Rattle.std.specs.Prelude.{◌≡◌, ◌<◌, length, IfOk, OnErr};
ghost use Rattle.coff_read.specs.EitherObject.{form_in};
ghost use Rattle.coff_read.specs.FormFaults.{object_tests};
ghost use Rattle.pe_text.specs.Outcome.{IsOutcomeOf};
ghost use Rattle.pe_text.specs.TextWriter.{IsReady};
ghost use Rattle.pe_page.specs.Page.{AddsSome};

use crate::no_place::NoPlace;
use crate::object_places::place_row;
use crate::placed_symbols::STATIC;
use crate::relocation_width::relocation_width;
use crate::row_name::row_cells;
use crate::spot::{OUTSIDE_SECTION, SectionSearch, Spot};
use coff_read::{
    BigSection, BigSymbol, EitherObject, FileSection, RawData, Relocation, relocation_type_name,
};
use pe_page::Cell::{self, Plain};
use pe_page::{NOTHING, SymbolNames, permissions, read_sections, sizes_of, write_cells};
use pe_text::Part::{Decimal, Hex, Hex2, Text};
use pe_text::{Outcome, Sink, TextWriter, refuse, write_parts};
use pe_view::{Fault, Place};
use std::alloc::{AllocError, Allocator};

/// How many bytes are shown.
const SHOWN: usize = 16;

/// What is said of a place that is not in the object's file.
const OUTSIDE_FILE: &[u8] = b"the place is outside the file\n";

/// What is said of an RVA or an address.
const NO_RVA: &[u8] =
    b"an object has no RVAs: SECTION+OFFSET or an offset in its file is a place\n";

/// An object that was read.
#[derive(Drop)]
struct ReadObject<'o, 'a, A: Allocator> {
    file: &'a [u8],
    object: &'o EitherObject<'a>,
    sections: &'o [FileSection<'a>],
    names: &'o SymbolNames<'a, A>,
}

/// A place of an object.
#[derive(Clone, Copy)]
enum ObjectPlace {
    /// The index of a section, and an offset in it.
    Section(usize, u64),
    /// An offset in the file that is in no section.
    File(u64),
}

impl<'o, 'a, A: Allocator + Copy> ReadObject<'o, 'a, A> {
    /// The file offset of the raw data of a section.
    fn pointer(&self, index: usize) -> u64 {
        match self.object.section_header(index) {
            Some(header) => u64::from(header.pointer_to_raw_data),
            None => 0,
        }
    }

    /// The index of the first section whose raw data has a file offset, and how far it is in that.
    fn section_at(&self, offset: u64) -> Option<(usize, u64)> {
        for (index, section) in self.sections.iter().enumerate() {
            let start = self.pointer(index);
            let (_, in_file) = sizes_of(&section.raw);
            if offset >= start && offset - start < in_file {
                return Some((index, offset - start));
            }
        }
        None
    }

    /// The place that has a file offset.
    fn place_at(&self, offset: u64) -> Result<ObjectPlace, NoPlace> {
        match self.section_at(offset) {
            Some((index, behind)) => Ok(ObjectPlace::Section(index, behind)),
            None if offset < self.file.len() as u64 => Ok(ObjectPlace::File(offset)),
            None => Err(NoPlace::Words(OUTSIDE_FILE)),
        }
    }

    /// The place at an offset of the section that is called so.
    fn place_in(&self, section: &[u8], offset: u32) -> Result<ObjectPlace, NoPlace> {
        let mut search = SectionSearch::new(section);
        for (index, section) in self.sections.iter().enumerate() {
            search.look_at(index, index.saturating_add(1), section.name);
        }
        let index = match search.end(offset) {
            Ok(index) => index,
            Err(none) => return Err(none),
        };
        match self.sections.get(index) {
            Some(section) if u64::from(offset) < sizes_of(&section.raw).0 => {
                Ok(ObjectPlace::Section(index, u64::from(offset)))
            }
            _ => Err(NoPlace::Words(OUTSIDE_SECTION)),
        }
    }

    /// The place that a user says, or what is said if there is none.
    fn place_of(&self, spot: &Spot) -> Result<ObjectPlace, NoPlace> {
        match spot {
            Spot::At(Place::File(offset)) => self.place_at(*offset),
            Spot::At(_) => Err(NoPlace::Words(NO_RVA)),
            Spot::In { section, offset } => self.place_in(section, *offset),
        }
    }

    /// The first relocation of a section that patches an offset in it.
    fn relocation_at(&self, section: &FileSection, offset: u64) -> Option<Relocation> {
        for index in 0..section.relocations.len() {
            let relocation = section.relocations.get(index)?;
            let width = relocation_width(self.object.machine(), relocation.kind);
            let start = u64::from(relocation.address);
            let at = offset.saturating_add(u64::from(section.virtual_address));
            if at >= start && at - start < u64::from(width) {
                return Some(relocation);
            }
        }
        None
    }
}

/// Whether a symbol stands for a whole section.
fn is_of_section(symbol: &BigSymbol, section: &FileSection) -> bool {
    symbol.class == STATIC && symbol.value == 0 && symbol.name == section.name
}

/// The value and the name of the last symbol at or before an offset in a section. Of symbols at the same place it is the first that
/// does not stand for the whole section, if there is one.
fn nearest_symbol<'a, A: Allocator + Copy>(
    alloc: A,
    object: &EitherObject<'a>,
    index: usize,
    section: &FileSection,
    offset: u64,
) -> Option<(u32, &'a [u8])> {
    let number = index.saturating_add(1);
    let mut nearest = None;
    let mut has_special = false;
    for (_, symbol) in object.each_symbol(alloc) {
        let BigSection::Section(its_number) = symbol.section else {
            continue;
        };
        if its_number as usize != number || u64::from(symbol.value) > offset {
            continue;
        }
        let is_special = !is_of_section(&symbol, section);
        let is_nearer = match nearest {
            Some((value, _)) if value == symbol.value => is_special && !has_special,
            Some((value, _)) => value < symbol.value,
            None => true,
        };
        if is_nearer {
            nearest = Some((symbol.value, symbol.name));
            has_special = is_special;
        }
    }
    nearest
}

/// Where an offset in a section is, like `section 1  .text+0x10 r-x  file 0x9c`.
fn where_cells<'a>(
    index: usize,
    section: &FileSection<'a>,
    pointer: u64,
    offset: u64,
) -> [Cell<'a>; 10] {
    let (in_file, file) = match section.raw {
        RawData::Bytes(_) => (
            Plain(Text(b"  file 0x")),
            Plain(Hex(pointer.saturating_add(offset), 1)),
        ),
        RawData::Absent(_) => (Plain(Text(b"  not in the file")), NOTHING),
    };
    [
        Plain(Text(b"section ")),
        Plain(Decimal((index as u64).saturating_add(1))),
        Plain(Text(b"  ")),
        Cell::Section(section.name),
        Plain(Text(b"+0x")),
        Plain(Hex(offset, 1)),
        Plain(Text(b" ")),
        Plain(Text(permissions(section.flags))),
        in_file,
        file,
    ]
}

/// The relocation that patches a place, like `  relocation REL32 #34 printf`.
fn relocation_cells<'a>(
    machine: u16,
    relocation: Option<Relocation>,
    name: Option<&'a [u8]>,
) -> [Cell<'a>; 7] {
    let Some(relocation) = relocation else {
        return [NOTHING; 7];
    };
    let (gap, name) = match name {
        Some(name) => (Plain(Text(b" ")), Cell::Name(name)),
        None => (NOTHING, NOTHING),
    };
    let (prefix, number) = match relocation_type_name(machine, relocation.kind) {
        Some(name) => (Plain(Text(name.as_bytes())), NOTHING),
        None => (
            Plain(Text(b"0x")),
            Plain(Hex(u64::from(relocation.kind), 4)),
        ),
    };
    [
        Plain(Text(b"  relocation ")),
        prefix,
        number,
        Plain(Text(b" #")),
        Plain(Decimal(u64::from(relocation.symbol))),
        gap,
        name,
    ]
}

/// The value and the name of the last symbol at or before a place, like `  symbol main+0x10`.
pub(crate) fn symbol_cells(nearest: Option<(u32, &[u8])>, offset: u64) -> [Cell<'_>; 4] {
    let Some((value, name)) = nearest else {
        return [NOTHING; 4];
    };
    let (plus, distance) = match offset.saturating_sub(u64::from(value)) {
        0 => (NOTHING, NOTHING),
        distance => (Plain(Text(b"+0x")), Plain(Hex(distance, 1))),
    };
    [Plain(Text(b"  symbol ")), Cell::Name(name), plus, distance]
}

/// Adds the first 16 of some bytes, or all if they are fewer.
fn write_bytes<W: Sink>(text: &mut TextWriter<W>, bytes: &[u8])
    requires { IsReady W.failures text.old }
    ensures { AddsSome W.taken W.failures text.old text.new }
{
    text.text(b"\n ");
    for byte in bytes.get(..SHOWN).unwrap_or(bytes) {
        write_parts(text, &[Text(b" "), Hex2(*byte)]);
    }
    text.text(b"\n");
}

/// Adds the 16 bytes from an offset on, or fewer at the end of the bytes, in a row of their own; none if there is none.
fn write_bytes_from<W: Sink>(text: &mut TextWriter<W>, bytes: &[u8], offset: u64)
    requires { IsReady W.failures text.old }
    ensures { AddsSome W.taken W.failures text.old text.new }
{
    let start = usize::try_from(offset).unwrap_or(usize::MAX);
    match bytes.get(start..) {
        Some(rest) if !rest.is_empty() => write_bytes(text, rest),
        _ => text.text(b"\n"),
    }
}

/// Adds what is at an offset in a section of an object.
fn write_in_section<A: Allocator + Copy, W: Sink>(
    alloc: A,
    text: &mut TextWriter<W>,
    read: &ReadObject<A>,
    index: usize,
    section: &FileSection,
    offset: u64,
)
    requires { IsReady W.failures text.old }
    ensures { AddsSome W.taken W.failures text.old text.new }
{
    let bytes: &[u8] = match section.raw {
        RawData::Bytes(bytes) => bytes,
        RawData::Absent(_) => b"",
    };
    let relocation = read.relocation_at(section, offset);
    let name = match relocation {
        Some(relocation) => read.names.get(relocation.symbol),
        None => None,
    };
    let nearest = nearest_symbol(alloc, read.object, index, section, offset);
    write_cells(
        text,
        &where_cells(index, section, read.pointer(index), offset),
    );
    write_cells(
        text,
        &relocation_cells(read.object.machine(), relocation, name),
    );
    write_cells(text, &symbol_cells(nearest, offset));
    write_bytes_from(text, bytes, offset);
}

/// Adds what is at an offset of an object's file that is in no section.
fn write_in_file<A: Allocator + Copy, W: Sink>(
    text: &mut TextWriter<W>,
    read: &ReadObject<A>,
    offset: u64,
)
    requires { IsReady W.failures text.old }
    ensures { AddsSome W.taken W.failures text.old text.new }
{
    let row = place_row(read.file, read.object, offset);
    write_cells(text, &[Plain(Text(b"file 0x")), Plain(Hex(offset, 1))]);
    write_cells(text, &row_cells(row));
    write_bytes_from(text, read.file, offset);
}

/// Adds what is at a place of an object.
fn write_place<A: Allocator + Copy, W: Sink>(
    alloc: A,
    text: &mut TextWriter<W>,
    read: &ReadObject<A>,
    place: ObjectPlace,
)
    requires { IsReady W.failures text.old }
    ensures { AddsSome W.taken W.failures text.old text.new }
{
    match place {
        ObjectPlace::Section(index, offset) => match read.sections.get(index) {
            Some(section) => write_in_section(alloc, text, read, index, section, offset),
            None => text.text(OUTSIDE_FILE),
        },
        ObjectPlace::File(offset) => write_in_file(text, read, offset),
    }
}

/// Adds what is at a spot of an object.
fn write_spot<A: Allocator + Copy, W: Sink>(
    alloc: A,
    text: &mut TextWriter<W>,
    read: &ReadObject<A>,
    spot: &Spot,
)
    requires { IsReady W.failures text.old }
    ensures { AddsSome W.taken W.failures text.old text.new }
{
    match read.place_of(spot) {
        Ok(place) => write_place(alloc, text, read, place),
        Err(none) => none.write(text),
    }
}

/// Adds what is at each of some spots of an object.
fn write_spots<A: Allocator + Copy, W: Sink>(
    alloc: A,
    text: &mut TextWriter<W>,
    read: &ReadObject<A>,
    spots: &[Spot],
)
    requires { IsReady W.failures text.old }
    ensures { AddsSome W.taken W.failures text.old text.new }
{
    for spot in spots {
        write_spot(alloc, text, read, spot);
    }
}

/// Adds the line of the fault of an object.
fn write_refused<W: Sink>(text: &mut TextWriter<W>, fault: Fault)
    requires { IsReady W.failures text.old }
    ensures { AddsSome W.taken W.failures text.old text.new }
{
    refuse(text, fault);
}

/// Checks an object's file, and adds what is at some spots of it. It returns out of memory only before it adds the first byte; an
/// allocation that fails later only costs time.
pub(crate) fn write_object_spots<A: Allocator + Copy, W: Sink>(
    alloc: A,
    text: &mut TextWriter<W>,
    file: &[u8],
    spots: &[Spot],
) -> Result<Outcome, AllocError>
    requires { IsReady W.failures text.old }
    ensures judged { IfOk result (IsOutcomeOf (object_tests (form_in file.now) file.now)) }
    ensures adds { IfOk result (λ _. AddsSome W.taken W.failures text.old text.new) }
    ensures same { text.new.writer.ghost_name ≡ text.old.writer.ghost_name }
    ensures adds_none { OnErr result (text.new ≡ text.old) }
    ensures reads { OnErr result (0 < length file.now) }
{
    match EitherObject::new(file) {
        Ok(object) => {
            let sections = read_sections(alloc, &object)?;
            let names = SymbolNames::new(alloc, &object, true)?;
            let read = ReadObject {
                file,
                object: &object,
                sections: &sections,
                names: &names,
            };
            write_spots(alloc, text, &read, spots);
            Ok(Outcome::Done)
        }
        Err(fault) => {
            write_refused(text, fault);
            Ok(Outcome::Refused(fault))
        }
    }
}
