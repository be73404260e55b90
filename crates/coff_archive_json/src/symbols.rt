//! The lists of an archive's symbols.

ghost use Rattle.std.specs.Prelude.{◌≡◌, ◌∷◌, [], codes, map, option_map, true};
ghost use Rattle.coff_archive.specs.SymbolsLeft.{symbol_view, symbols_left};
ghost use Rattle.pe_json.specs.JsonText.{number_if};
ghost use Rattle.pe_json.specs.Listed.{items_text, more};
ghost use Rattle.pe_text.specs.TextWriter.{IsReady, Adds};
ghost use Rattle.coff_archive_json.specs.SymbolRows.{symbol_row, symbols_value_if};

use coff_archive::{ArchiveSymbol, Symbols};
use pe_json::{write_name, write_number};
use pe_text::{Sink, TextWriter};

/// Adds the offset of the member that defines a symbol, if there is one.
fn write_offset_if<W: Sink>(text: &mut TextWriter<W>, offset: Option<u64>)
    requires { IsReady W.failures text.old }
    ensures { Adds W.taken W.failures text.old text.new (more (number_if (codes "offset") offset)) }
{
    let Some(offset) = offset else {
        return;
    };
    write_number(text, b",\"offset\":", offset);
}

/// Adds a symbol.
fn write_symbol<W: Sink>(text: &mut TextWriter<W>, symbol: &ArchiveSymbol)
    requires { IsReady W.failures text.old }
    ensures { Adds W.taken W.failures text.old text.new (symbol_row (symbol_view symbol.now)) }
{
    write_name(text, b"{\"name\":\"", b"{\"name_hex\":\"", symbol.name);
    write_offset_if(text, symbol.member);
    text.text(b"}");
}

/// Adds a symbol, after a comma unless it is the first of the list.
fn write_next<W: Sink>(text: &mut TextWriter<W>, first: bool, symbol: &ArchiveSymbol)
    requires { IsReady W.failures text.old }
    ensures { Adds W.taken W.failures text.old text.new (items_text first (symbol_row (symbol_view symbol.now) ∷ [])) }
{
    if first {
        write_symbol(text, symbol);
    } else {
        text.text(b",");
        write_symbol(text, symbol);
    }
}

/// Adds the symbols in table order. After a failed write the next is not looked for.
fn write_rows<W: Sink>(text: &mut TextWriter<W>, symbols: Symbols)
    requires { IsReady W.failures text.old }
    ensures { Adds W.taken W.failures text.old text.new (items_text true (map symbol_row (symbols_left symbols.entry))) }
{
    let mut first = true;
    for symbol in symbols {
        write_next(text, first, &symbol);
        first = false;
        if text.has_failed() {
            return;
        }
    }
}

/// Adds the list of a linker member's symbols after its key, which ends with what comes before the first symbol, if there is one.
pub(crate) fn write_symbols_if<W: Sink>(
    text: &mut TextWriter<W>,
    key: &[u8],
    symbols: Option<Symbols>,
)
    requires { IsReady W.failures text.old }
    ensures { Adds W.taken W.failures text.old text.new (symbols_value_if key.now (option_map symbols_left symbols.entry)) }
{
    let Some(symbols) = symbols else {
        return;
    };
    text.text(key);
    if text.has_failed() {
        return;
    }
    write_rows(text, symbols);
    text.text(b"]");
}
