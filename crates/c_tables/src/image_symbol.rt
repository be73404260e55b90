//! The symbols of an image: rows of the shape that those of an object have.

ghost use Rattle.std.specs.Prelude.{◌≡◌, length, map};
ghost use Rattle.coff_read.specs.ImageSymbols.{image_symbols};
ghost use Rattle.coff_read.specs.ImageSymbolsLeft.{image_symbols_left};
ghost use Rattle.pe_records_c.specs.Rows.{TellsTable, filled};
ghost use Rattle.pe_records_c.specs.SymbolRows.{symbol_row, symbol_text};
ghost use Rattle.pe_view.specs.View.{bytes_of};

use crate::row::put_row;
use coff_read::ImageSymbols;
use pe_head::Headers;
use pe_records_c::row::table_status;
use pe_records_c::symbol::ObjectSymbolRow;
use pe_view::View;
use std::alloc::Global;

/// Fills the rows with the symbols that are left, and returns how many these are.
fn put_symbols<'a>(rows: &mut [ObjectSymbolRow<'a>], symbols: ImageSymbols<'a, Global>) -> usize
    ensures rows { map symbol_text rows.new ≡ filled symbol_row (image_symbols_left symbols.entry) (map symbol_text rows.old) }
    ensures count { result ≡ length (image_symbols_left symbols.entry) }
{
    let mut count = 0;
    for (index, symbol) in symbols {
        put_row(rows, count, ObjectSymbolRow::of(index, symbol));
        count += 1;
    }
    count
}

/// Reports the symbols of the image in a file with these headers, and returns the status, 0 or 4. Memory is taken to remember where
/// strings end; without it, strings are searched again.
pub fn tell_image_symbols<'a>(
    alloc: Global,
    file: View<'a>,
    headers: &Headers,
    rows: &mut [ObjectSymbolRow<'a>],
    count: &mut usize,
) -> u32
    ensures { TellsTable symbol_text symbol_row (image_symbols (bytes_of file.entry) headers.now) rows.old rows.new count.new result }
{
    *count = put_symbols(rows, ImageSymbols::new(alloc, file, headers));
    table_status(*count, rows.len())
}
