//! The symbols of an object.

ghost use Rattle.std.specs.Prelude.{◌≡◌, ◌==◌, ◌<◌, ◌≤◌, AllPairs, length, option_map};
ghost use Rattle.std.specs.List.{find};
ghost use Rattle.std.specs.List.Sorted.{IsPartitionPoint};
ghost use Rattle.coff_read.specs.BigView.{belongs_view};
ghost use Rattle.pe_text.specs.TextWriter.{IsReady, Adds};
ghost use Rattle.pe_page.specs.Page.{AddsSome};
ghost use Rattle.pe_show.specs.Rows.{class_text, function_text, number_text, symbol_row};
ghost use Rattle.pe_show.specs.Words.{section_name_at, section_number, symbol_section_text};

use crate::auxiliary::write_object_records;
use coff_read::{BigSection, BigSymbol, EitherObject, FileSection, storage_class_name};
use pe_page::{
    SymbolNames, blanks, decimal_width, write_column, write_heading, write_name, write_right,
};
use pe_text::{ShowOptions, Sink, TextWriter};
use std::alloc::{AllocError, Allocator};

/// The name of a symbol's section, or a word for symbols outside sections ("PE Format", Section Number Values).
pub(crate) fn section_words<'a>(sections: &[FileSection<'a>], section: BigSection) -> &'a [u8]
    ensures { result.now ≡ symbol_section_text (section_name_at sections.now) (belongs_view section) }
{
    match section {
        BigSection::Undefined => b"UNDEFINED",
        BigSection::Absolute => b"ABSOLUTE",
        BigSection::Debug => b"DEBUG",
        BigSection::Section(number) => match sections.get((number as usize).saturating_sub(1)) {
            Some(section) => section.name,
            None => b"",
        },
    }
}

/// The number of a symbol's section, if it has one.
pub(crate) fn number_of(section: BigSection) -> Option<u32>
    ensures { result ≡ section_number (belongs_view section) }
{
    match section {
        BigSection::Section(number) => Some(number),
        _ => None,
    }
}

/// Adds the number of a section in a column of its own, or blanks.
fn write_number<W: Sink>(text: &mut TextWriter<W>, number: Option<u32>, width: usize)
    requires { IsReady W.failures text.old }
    ensures { Adds W.taken W.failures text.old text.new (number_text number width) }
{
    match number {
        Some(number) => write_right(text, number as u64, width),
        None => text.text(blanks(width)),
    }
}

/// Adds the name of a storage class, or its number if the format has no name for it, in 13 columns.
fn write_class<W: Sink>(text: &mut TextWriter<W>, name: Option<&str>, class: u8)
    requires { IsReady W.failures text.old }
    ensures { Adds W.taken W.failures text.old text.new (class_text (option_map (λ name. name.now) name.entry) class) }
{
    match name {
        Some(name) => write_column(text, name.as_bytes(), 13),
        None => {
            text.text(b"class ");
            write_right(text, class as u64, 7);
        }
    }
}

/// The word for a function in 12 columns, or blanks.
fn function_word(kind: u16) -> &'static [u8]
    ensures { result.now ≡ function_text kind }
{
    if kind == 0x20 {
        b"  function  "
    } else {
        b"            "
    }
}

/// The widths of the columns of symbols: of indices, and of the numbers of sections.
#[derive(Clone, Copy)]
pub(crate) struct Widths {
    pub index: usize,
    pub number: usize,
}

/// Adds the row of a symbol.
pub(crate) fn write_symbol<W: Sink>(
    text: &mut TextWriter<W>,
    widths: Widths,
    index: u32,
    number: Option<u32>,
    section: &[u8],
    class: Option<&str>,
    symbol: &BigSymbol,
)
    requires { IsReady W.failures text.old }
    ensures { Adds W.taken W.failures text.old text.new (symbol_row index widths.index symbol.now.value number widths.number section.now (option_map (λ name. name.now) class.entry) symbol.now.class symbol.now.kind symbol.now.name.now) }
{
    write_right(text, index as u64, widths.index);
    text.text(b"  0x");
    text.hex(8, symbol.value as u64);
    text.text(b"  ");
    write_number(text, number, widths.number);
    text.text(b" ");
    write_column(text, section, 12);
    text.text(b"  ");
    write_class(text, class, symbol.class);
    text.text(function_word(symbol.kind));
    write_name(text, symbol.name);
    text.text(b"\n");
}

/// The number of records in an object's symbol table, as its header has it.
fn record_count(object: &EitherObject) -> u64 {
    match object {
        EitherObject::Plain(object) => object.header().number_of_symbols as u64,
        EitherObject::Big(object) => object.header().number_of_symbols as u64,
    }
}

/// The widths of the columns of an object's symbols.
fn widths_of(object: &EitherObject, sections: &[FileSection]) -> Widths {
    Widths {
        index: decimal_width(record_count(object)).max(4),
        number: decimal_width(sections.len() as u64),
    }
}

/// Adds a row for each symbol of an object and for each of its auxiliary records, with the index of its record, if the options
/// select them.
pub(crate) fn write_symbols<A: Allocator + Copy, W: Sink>(
    alloc: A,
    text: &mut TextWriter<W>,
    options: &ShowOptions,
    object: &EitherObject,
    sections: &[FileSection],
)
    requires { IsReady W.failures text.old }
    ensures { AddsSome W.taken W.failures text.old text.new }
{
    if !options.symbols {
        return;
    }
    let widths = widths_of(object, sections);
    write_heading(text, options, b"Symbols", object.symbol_count());
    for (index, symbol) in object.each_symbol(alloc) {
        if text.has_failed() {
            return;
        }
        let section = section_words(sections, symbol.section);
        write_symbol(
            text,
            widths,
            index,
            number_of(symbol.section),
            section,
            storage_class_name(symbol.class),
            &symbol,
        );
        write_object_records(text, widths.index, index, object, &symbol);
    }
}
