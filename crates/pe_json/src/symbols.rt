//! The list of an object's symbols.

ghost use Rattle.std.specs.Prelude.{◌≡◌, ◌∷◌, ◌++◌, ◌<◌, ◌^◌, ◌&&◌, [], codes, map, true};
ghost use Rattle.coff_read.specs.BigLeft.{indexed};
ghost use Rattle.coff_read.specs.BigView.{belongs_view, big_symbol_view};
ghost use Rattle.coff_read.specs.EitherObject.{form_of, file_of};
ghost use Rattle.coff_read.specs.FormReading.{symbol_indexes};
ghost use Rattle.pe_text.specs.TextWriter.{IsReady, Adds};
ghost use Rattle.pe_json.specs.JsonText.{list};
ghost use Rattle.pe_json.specs.Listed.{items_text, more};
ghost use Rattle.pe_json.specs.ObjectLine.{symbol_name, section_of_symbol, symbol_fields, symbol_row};

use crate::auxiliary::write_aux_list;
use crate::string::{write_name, write_number, write_text_if};
use coff_read::{BigSection, BigSymbol, EitherObject, storage_class_name};
use pe_text::{Sink, TextWriter};

/// Adds the section of a symbol: its number from 1, or a word.
fn write_section<W: Sink>(text: &mut TextWriter<W>, section: BigSection)
    requires { IsReady W.failures text.old }
    ensures { Adds W.taken W.failures text.old text.new (codes "," ++ section_of_symbol (belongs_view section)) }
{
    match section {
        BigSection::Undefined => text.text(b",\"section\":\"UNDEFINED\""),
        BigSection::Absolute => text.text(b",\"section\":\"ABSOLUTE\""),
        BigSection::Debug => text.text(b",\"section\":\"DEBUG\""),
        BigSection::Section(number) => {
            write_number(text, b",\"section_number\":", number as u64)
        }
    }
}

/// Adds the name of a symbol.
fn write_symbol_name<W: Sink>(text: &mut TextWriter<W>, symbol: &BigSymbol)
    requires { IsReady W.failures text.old }
    ensures { Adds W.taken W.failures text.old text.new (more (symbol_name (big_symbol_view symbol.now))) }
{
    write_name(text, b",\"name\":\"", b",\"name_hex\":\"", symbol.name);
}

/// Adds the fields of a symbol after its name.
fn write_fields<W: Sink>(text: &mut TextWriter<W>, symbol: &BigSymbol)
    requires { IsReady W.failures text.old }
    ensures { Adds W.taken W.failures text.old text.new (more (symbol_fields (big_symbol_view symbol.now))) }
{
    write_number(text, b",\"value\":", symbol.value as u64);
    write_section(text, symbol.section);
    write_number(text, b",\"type\":", symbol.kind as u64);
    write_number(text, b",\"storage_class\":", symbol.class as u64);
}

/// Adds a symbol of a big object, or of a plain one or an image, with the index of its record, and its auxiliary records ("PE Format",
/// COFF Symbol Table).
fn write_symbol<W: Sink>(text: &mut TextWriter<W>, is_big: bool, index: u32, symbol: &BigSymbol)
    requires { IsReady W.failures text.old }
    ensures { Adds W.taken W.failures text.old text.new (symbol_row is_big index (big_symbol_view symbol.now)) }
{
    write_number(text, b"{\"index\":", index as u64);
    write_symbol_name(text, symbol);
    write_fields(text, symbol);
    write_text_if(
        text,
        b",\"storage_class_name\":",
        storage_class_name(symbol.class),
    );
    write_aux_list(text, is_big, index as u64 + 1, symbol);
    text.text(b"}");
}

/// Adds a symbol, after a comma unless it is the first of the list.
pub(crate) fn write_next<W: Sink>(
    text: &mut TextWriter<W>,
    first: bool,
    is_big: bool,
    index: u32,
    symbol: &BigSymbol,
)
    requires { IsReady W.failures text.old }
    ensures { Adds W.taken W.failures text.old text.new (items_text first (symbol_row is_big index (big_symbol_view symbol.now) ∷ [])) }
{
    if first {
        write_symbol(text, is_big, index, symbol);
    } else {
        text.text(b",");
        write_symbol(text, is_big, index, symbol);
    }
}

/// Adds the symbols in table order.
fn write_rows<W: Sink>(text: &mut TextWriter<W>, object: &EitherObject)
    requires { IsReady W.failures text.old }
    ensures { Adds W.taken W.failures text.old text.new
        (items_text true (map (λ item. symbol_row (form_of object.now) item.0 item.1) (indexed (form_of object.now) (file_of object.now) (symbol_indexes (form_of object.now) (file_of object.now))))) }
{
    let mut first = true;
    for (index, symbol) in object.symbols() {
        if text.has_failed() {
            return;
        }
        write_next(text, first, object.is_big(), index, &symbol);
        first = false;
    }
}

/// Adds the list of an object's symbols.
pub(crate) fn write_symbols<W: Sink>(text: &mut TextWriter<W>, object: &EitherObject)
    requires { IsReady W.failures text.old }
    ensures { Adds W.taken W.failures text.old text.new
        (list (map (λ item. symbol_row (form_of object.now) item.0 item.1) (indexed (form_of object.now) (file_of object.now) (symbol_indexes (form_of object.now) (file_of object.now))))) }
{
    text.text(b"[");
    write_rows(text, object);
    text.text(b"]");
}
