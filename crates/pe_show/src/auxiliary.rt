//! The auxiliary records of symbols.

ghost use Rattle.std.specs.Prelude.{◌≡◌, option_map};
ghost use Rattle.pe_head.specs.Names.{name_in};
ghost use Rattle.pe_text.specs.TextWriter.{IsReady};
ghost use Rattle.pe_page.specs.Page.{AddsSome};
ghost use Rattle.pe_show.specs.Words.{selection_names, search_names};

use coff_read::{Aux, BigAux, BigSymbol, EitherObject, Symbol};
use pe_head::{Named, name_among};
use pe_page::Cell::{self, Plain};
use pe_page::write_cells;
use pe_text::Part::{Hex, Name, Text};
use pe_text::{Sink, TextWriter};

/// The COMDAT selections, without IMAGE_COMDAT_SELECT_ ("PE Format", COMDAT Sections).
static SELECTIONS: [Named; 6] = [
    (1, "NODUPLICATES"),
    (2, "ANY"),
    (3, "SAME_SIZE"),
    (4, "EXACT_MATCH"),
    (5, "ASSOCIATIVE"),
    (6, "LARGEST"),
];

/// How weak externals are searched for, without IMAGE_WEAK_EXTERN_SEARCH_ ("PE Format", Auxiliary Format 3: Weak Externals).
static SEARCHES: [Named; 3] = [(1, "NOLIBRARY"), (2, "LIBRARY"), (3, "ALIAS")];

/// The name of a COMDAT selection, if it has one.
fn selection_name(selection: u8) -> Option<&'static str>
    ensures { option_map (λ name. name.now) result ≡ name_in selection_names selection }
{
    name_among(&SELECTIONS, u32::from(selection))
}

/// The name of how a weak external is searched for, if it has one.
fn search_name(search: u32) -> Option<&'static str>
    ensures { option_map (λ name. name.now) result ≡ name_in search_names search }
{
    name_among(&SEARCHES, search)
}

/// A name after a blank, if there is one.
fn after_blank(name: Option<&'static str>) -> Cell<'static> {
    match name {
        Some(name) => Plain(Name(Some(name.as_bytes()))),
        None => Plain(Name(None)),
    }
}

/// A number in decimal.
fn number(number: u32) -> Cell<'static> {
    Cell::Right(number as u64, 1)
}

/// Adds the COMDAT selection of a section, and the section that an associative one goes with.
fn write_selection<W: Sink>(text: &mut TextWriter<W>, selection: u8, section: u32)
    requires { IsReady W.failures text.old }
    ensures { AddsSome W.taken W.failures text.old text.new }
{
    if selection == 0 {
        return;
    }
    let name = after_blank(selection_name(selection));
    write_cells(
        text,
        &[Plain(Text(b", COMDAT ")), number(selection as u32), name],
    );
    if selection == 5 {
        write_cells(text, &[Plain(Text(b" with section ")), number(section)]);
    }
}

/// Adds the bytes of a record without a shape.
fn write_raw<W: Sink>(text: &mut TextWriter<W>, bytes: &[u8])
    requires { IsReady W.failures text.old }
    ensures { AddsSome W.taken W.failures text.old text.new }
{
    text.text(b"bytes");
    for byte in bytes {
        write_cells(text, &[Plain(Text(b" ")), Plain(Hex(*byte as u64, 2))]);
    }
}

/// Adds what the auxiliary record of a section says.
fn write_section<W: Sink>(
    text: &mut TextWriter<W>,
    length: u32,
    relocations: u16,
    line_numbers: u16,
    checksum: u32,
    section: u32,
    selection: u8,
)
    requires { IsReady W.failures text.old }
    ensures { AddsSome W.taken W.failures text.old text.new }
{
    write_cells(
        text,
        &[
            Plain(Text(b"section of 0x")),
            Plain(Hex(length as u64, 1)),
            Plain(Text(b" bytes, relocations ")),
            number(relocations as u32),
            Plain(Text(b", line numbers ")),
            number(line_numbers as u32),
            Plain(Text(b", checksum 0x")),
            Plain(Hex(checksum as u64, 8)),
        ],
    );
    write_selection(text, selection, section);
}

/// Adds what an auxiliary record says.
fn write_record<W: Sink>(text: &mut TextWriter<W>, record: &Aux)
    requires { IsReady W.failures text.old }
    ensures { AddsSome W.taken W.failures text.old text.new }
{
    match record {
        Aux::Function {
            tag_index,
            total_size,
            pointer_to_linenumber,
            pointer_to_next_function,
        } => write_cells(
            text,
            &[
                Plain(Text(b"function of 0x")),
                Plain(Hex(*total_size as u64, 1)),
                Plain(Text(b" bytes, begins #")),
                number(*tag_index),
                Plain(Text(b", line numbers at 0x")),
                Plain(Hex(*pointer_to_linenumber as u64, 1)),
                Plain(Text(b", next #")),
                number(*pointer_to_next_function),
            ],
        ),
        Aux::Lines { line, next } => write_cells(
            text,
            &[
                Plain(Text(b"line ")),
                number(*line as u32),
                Plain(Text(b", next #")),
                number(*next),
            ],
        ),
        Aux::Weak { tag_index, search } => write_cells(
            text,
            &[
                Plain(Text(b"else #")),
                number(*tag_index),
                Plain(Text(b", search ")),
                number(*search),
                after_blank(search_name(*search)),
            ],
        ),
        Aux::File { name } => write_cells(text, &[Plain(Text(b"file ")), Cell::Name(name)]),
        Aux::Section {
            length,
            relocations,
            line_numbers,
            checksum,
            number: section,
            selection,
        } => write_section(
            text,
            *length,
            *relocations,
            *line_numbers,
            *checksum,
            *section as u32,
            *selection,
        ),
        Aux::Raw { bytes } => write_raw(text, bytes),
    }
}

/// Adds what an auxiliary record of an object of either form says.
fn write_either_record<W: Sink>(text: &mut TextWriter<W>, record: &BigAux)
    requires { IsReady W.failures text.old }
    ensures { AddsSome W.taken W.failures text.old text.new }
{
    match record {
        BigAux::Section {
            length,
            relocations,
            line_numbers,
            checksum,
            number: section,
            selection,
        } => write_section(
            text,
            *length,
            *relocations,
            *line_numbers,
            *checksum,
            *section,
            *selection,
        ),
        BigAux::Other(record) => write_record(text, record),
    }
}

/// Adds the row of an auxiliary record: its index, and what it says.
fn write_row<W: Sink>(text: &mut TextWriter<W>, width: usize, index: u64, record: &BigAux)
    requires { IsReady W.failures text.old }
    ensures { AddsSome W.taken W.failures text.old text.new }
{
    write_cells(text, &[Cell::Right(index, width), Plain(Text(b"    "))]);
    write_either_record(text, record);
    text.text(b"\n");
}

/// The index of auxiliary record `k` of the symbol whose own record has this index.
fn index_of(index: u32, k: usize) -> u64 {
    (index as u64).saturating_add(k as u64).saturating_add(1)
}

/// Adds a row for each auxiliary record of a symbol of an object, with the index of the record. `width` is that of the column of
/// indices, and `index` the one of the symbol's own record.
pub(crate) fn write_object_records<'a, W: Sink>(
    text: &mut TextWriter<W>,
    width: usize,
    index: u32,
    object: &EitherObject<'a>,
    symbol: &BigSymbol<'a>,
)
    requires { IsReady W.failures text.old }
    ensures { AddsSome W.taken W.failures text.old text.new }
{
    for k in 0..object.aux_count(symbol) {
        let Some(record) = object.aux_record(symbol, k) else {
            return;
        };
        write_row(text, width, index_of(index, k), &record);
    }
}

/// Adds a row for each auxiliary record of a symbol of an image, as [`write_object_records`] does.
pub(crate) fn write_records<W: Sink>(
    text: &mut TextWriter<W>,
    width: usize,
    index: u32,
    symbol: &Symbol,
)
    requires { IsReady W.failures text.old }
    ensures { AddsSome W.taken W.failures text.old text.new }
{
    for k in 0..symbol.aux_count() {
        let Some(record) = symbol.aux_record(k) else {
            return;
        };
        write_row(text, width, index_of(index, k), &BigAux::Other(record));
    }
}
