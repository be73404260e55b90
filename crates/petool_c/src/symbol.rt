//! Symbols of an object: `petool_object_symbols`.

ghost use Rattle.std.specs.Prelude.{◌≡◌, ◌≢◌};
ghost use Rattle.pe_view.specs.Faults.{first_standing};
ghost use Rattle.coff_read.specs.ObjectFaults.{object_tests};
ghost use Rattle.pe_records_c.specs.Faults.{IsRefusedBy};
ghost use Rattle.pe_records_c.specs.Rows.{TellsTable};
ghost use Rattle.pe_records_c.specs.SymbolRows.{symbol_row, symbol_text, symbols_of};

use coff_read::ObjectFile;
use pe_records_c::fault::{FaultRecord, refuse};
use pe_records_c::symbol::{ObjectSymbolRow, tell_symbols};
use std::alloc::Global;

/// Reads the symbols of an object, in table order, into the caller's rows, as `petool_object_sections` does.
#[unsafe(no_mangle)]
pub extern "C" fn petool_object_symbols<'a>(
    alloc: Global,
    file: &'a [u8],
    rows: &mut [ObjectSymbolRow<'a>],
    count: &mut usize,
    fault: &mut FaultRecord,
) -> u32
    ensures refused { IsRefusedBy (first_standing (object_tests file.now)) fault.old fault.new result }
    ensures table { result ≢ 1 → TellsTable symbol_text symbol_row (symbols_of file.now) rows.old rows.new count.new result }
    ensures rows_kept { result ≡ 1 → rows.new ≡ rows.old }
    ensures count_kept { result ≡ 1 → count.new ≡ count.old }
{
    match ObjectFile::new(file) {
        Ok(object) => tell_symbols(alloc, &object, rows, count),
        Err(first) => refuse(first, fault),
    }
}
