//! The list of an image's symbols.

ghost use Rattle.std.specs.Prelude.{◌≡◌, ◌==◌, ◌||◌, map, not, true};
ghost use Rattle.coff_read.specs.ImageSymbolsLeft.{image_symbols_left};
ghost use Rattle.pe_text.specs.TextWriter.{IsReady, Adds};
ghost use Rattle.pe_view.specs.View.{bytes_of};
ghost use Rattle.pe_json.specs.Listed.{items_text, more};
ghost use Rattle.pe_json.specs.SymbolRows.{indexed_row, symbol_members, symbols_unless};

use crate::symbols::write_next;
use coff_read::{ImageSymbols, WideSymbol};
use pe_head::Headers;
use pe_text::{Sink, TextWriter};
use pe_view::View;
use std::alloc::Allocator;

/// Adds the symbols that are left, in table order.
fn write_rows<A: Allocator + Copy, W: Sink>(text: &mut TextWriter<W>, symbols: ImageSymbols<A>)
    requires { IsReady W.failures text.old }
    ensures { Adds W.taken W.failures text.old text.new (items_text true (map indexed_row (image_symbols_left symbols.entry))) }
{
    let mut first = true;
    for (index, symbol) in symbols {
        if text.has_failed() {
            return;
        }
        write_next(text, first, false, index, &symbol.wide());
        first = false;
    }
}

/// Adds the member that lists the symbols that are left, unless it is left out.
fn write_unless<A: Allocator + Copy, W: Sink>(
    text: &mut TextWriter<W>,
    is_left_out: bool,
    symbols: ImageSymbols<A>,
)
    requires { IsReady W.failures text.old }
    ensures { Adds W.taken W.failures text.old text.new (more (symbols_unless is_left_out (image_symbols_left symbols.entry))) }
{
    if is_left_out {
        return;
    }
    text.text(b",\"symbols\":[");
    write_rows(text, symbols);
    text.text(b"]");
}

/// Whether the symbols of an image are left out: they are not wanted, or it has no symbol table.
fn is_left_out(wanted: bool, headers: &Headers) -> bool
    ensures { result ≡ (not wanted || (headers.now.pointer_to_symbol_table == 0)) }
{
    !wanted || headers.pointer_to_symbol_table == 0
}

/// Adds the member that lists the symbols of an image with these headers, if they are wanted and it has a symbol table. Memory is taken
/// to remember where strings end; without it, strings are searched again.
pub(crate) fn write_image_symbols<A: Allocator + Copy, W: Sink>(
    alloc: A,
    text: &mut TextWriter<W>,
    wanted: bool,
    file: View,
    headers: &Headers,
)
    requires { IsReady W.failures text.old }
    ensures { Adds W.taken W.failures text.old text.new (more (symbol_members wanted (bytes_of file.entry) headers.now)) }
{
    write_unless(
        text,
        is_left_out(wanted, headers),
        ImageSymbols::new(alloc, file, headers),
    );
}
