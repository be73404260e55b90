//! The symbols of an image: `petool_image_symbols`.

ghost use Rattle.coff_read.specs.ImageSymbols.{image_symbols};
ghost use Rattle.pe_head.specs.Head.{head_of};
ghost use Rattle.pe_head.specs.HeaderFaults.{head_tests};
ghost use Rattle.pe_records_c.specs.Rows.{ReadsTable};
ghost use Rattle.pe_records_c.specs.SymbolRows.{symbol_row, symbol_text};

use c_tables::file::file_headers;
use c_tables::image_symbol::tell_image_symbols;
use pe_records_c::fault::{FaultRecord, refuse};
use pe_records_c::symbol::ObjectSymbolRow;
use pe_view::View;
use std::alloc::Global;

/// Reads the symbols of an image's file, in table order, into the caller's rows: those whose records the file holds.
///
/// The status is 0; 4 if there are more symbols than rows, which then hold the first of them; or 1 with the first of faults 1 to 12.
/// The count is that of all symbols; 1 leaves it and the rows unchanged. Memory is taken to remember where strings end; without it,
/// strings are searched again. ("PE Format": COFF Symbol Table.)
#[unsafe(no_mangle)]
pub extern "C" fn petool_image_symbols<'a>(
    alloc: Global,
    file: &'a [u8],
    rows: &mut [ObjectSymbolRow<'a>],
    count: &mut usize,
    fault: &mut FaultRecord,
) -> u32
    ensures { ReadsTable ⊥ (head_tests 0 file.now) symbol_text symbol_row (image_symbols file.now (head_of file.now))
        rows.old rows.new count.old count.new fault.old fault.new result }
{
    match file_headers(file) {
        Ok(headers) => tell_image_symbols(alloc, View::new(file), &headers, rows, count),
        Err(first) => refuse(first, fault),
    }
}
