//! The symbols of an image.

ghost use Rattle.std.specs.Prelude.{◌≡◌};
ghost use Rattle.coff_read.specs.BigView.{belongs_view};
ghost use Rattle.pe_text.specs.TextWriter.{IsReady};
ghost use Rattle.pe_page.specs.Page.{AddsSome};
ghost use Rattle.pe_page.specs.Places.{name_at};
ghost use Rattle.pe_show.specs.Words.{symbol_section_text};

use crate::auxiliary::write_records;
use crate::symbols::{Widths, number_of, section_words, write_symbol};
use coff_read::{BigSection, ImageSymbols, WideSymbol, storage_class_name};
use pe_head::Headers;
use pe_page::{SectionNames, decimal_width, write_heading};
use pe_reach::ViewFile;
use pe_text::{ShowOptions, Sink, TextWriter};
use std::alloc::Allocator;

/// The name of a symbol's section, or a word for symbols outside sections.
fn section_name<'a>(names: &SectionNames<'a>, section: BigSection) -> &'a [u8]
    ensures { result.now ≡ symbol_section_text (name_at names.now.names.items) (belongs_view section) }
{
    match number_of(section) {
        Some(number) => names.get((number as usize).saturating_sub(1)),
        None => section_words(&[], section),
    }
}

/// How many symbols are left.
fn count_of<A: Allocator + Copy>(symbols: ImageSymbols<A>) -> usize {
    let mut count: usize = 0;
    for _symbol in symbols {
        count = count.saturating_add(1);
    }
    count
}

/// The widths of the columns of an image's symbols.
fn widths_of(headers: &Headers) -> Widths {
    Widths {
        index: decimal_width(u64::from(headers.number_of_symbols)).max(4),
        number: decimal_width(u64::from(headers.number_of_sections)),
    }
}

/// Adds a row for each symbol that is left and for each of its auxiliary records, with the index of its record.
fn write_rows<A: Allocator + Copy, W: Sink>(
    text: &mut TextWriter<W>,
    widths: Widths,
    symbols: ImageSymbols<A>,
    names: &SectionNames,
)
    requires { IsReady W.failures text.old }
    ensures { AddsSome W.taken W.failures text.old text.new }
{
    for (index, symbol) in symbols {
        if text.has_failed() {
            return;
        }
        let wide = symbol.wide();
        let section = section_name(names, wide.section);
        write_symbol(
            text,
            widths,
            index,
            number_of(wide.section),
            section,
            storage_class_name(wide.class),
            &wide,
        );
        write_records(text, widths.index, index, &symbol);
    }
}

/// Adds the symbols of an image whose file was read whole, if the options select them and it has a symbol table.
pub(crate) fn write_image_symbols<A: Allocator + Copy, W: Sink>(
    alloc: A,
    text: &mut TextWriter<W>,
    options: &ShowOptions,
    file: ViewFile,
    headers: &Headers,
    names: &SectionNames,
)
    requires { IsReady W.failures text.old }
    ensures { AddsSome W.taken W.failures text.old text.new }
{
    if !options.symbols || headers.pointer_to_symbol_table == 0 {
        return;
    }
    let bytes = file.beginning();
    let count = count_of(ImageSymbols::new(alloc, bytes, headers));
    write_heading(text, options, b"Symbols", count);
    let symbols = ImageSymbols::new(alloc, bytes, headers);
    write_rows(text, widths_of(headers), symbols, names);
}
