//! `ArchiveSymbolRow`: a symbol of a linker member, as C has it.

ghost use Rattle.std.specs.Prelude.{◌≡◌, length, map};
ghost use Rattle.coff_archive.specs.ArchiveFile.{file_of, is_thin};
ghost use Rattle.coff_archive.specs.SymbolsLeft.{symbol_view, symbols_left};
ghost use Rattle.c_tables.specs.ArchiveSymbolRows.{TellsSymbols, linker_numbered, linker_symbols, symbol_row, symbol_text};
ghost use Rattle.pe_records_c.specs.Rows.{filled};

use crate::field::FieldRow;
use crate::row::put_row;
use coff_archive::{Archive, ArchiveSymbol, Linker, Symbols};
use pe_records_c::row::{Row, table_status};
use pe_records_c::status;

/// A symbol of a linker member.
#[repr(C)]
#[derive(Clone, Copy)]
pub struct ArchiveSymbolRow<'a> {
    /// The name.
    pub name: &'a [u8],
    /// The file offset of the header of the member that defines it; absent if the second linker member has no offset of its index.
    pub member: FieldRow,
}

impl<'a> ArchiveSymbolRow<'a> {
    /// A symbol as C has it.
    fn of(symbol: &ArchiveSymbol<'a>) -> ArchiveSymbolRow<'a>
        ensures { symbol_text result ≡ symbol_row (symbol_view symbol.entry.now) }
    {
        ArchiveSymbolRow {
            name: symbol.name,
            member: FieldRow::of(&symbol.member),
        }
    }
}

/// The linker member of a number: 1 the first, 2 the second.
pub fn linker_numbered(number: u32) -> Option<Linker>
    ensures { result ≡ linker_numbered number }
{
    match number {
        1 => Some(Linker::First),
        2 => Some(Linker::Second),
        _ => None,
    }
}

/// Fills the first rows with symbols, as many as fit, and returns how many there are.
fn put_symbols<'a>(rows: &mut [ArchiveSymbolRow<'a>], symbols: Symbols<'a>) -> usize
    ensures rows { map symbol_text rows.new ≡ filled symbol_row (symbols_left symbols.entry) (map symbol_text rows.old) }
    ensures count { result ≡ length (symbols_left symbols.entry) }
{
    let mut count = 0;
    for symbol in symbols {
        put_row(rows, count, ArchiveSymbolRow::of(&symbol));
        count += 1;
    }
    count
}

/// Reports the symbols of a linker member of an archive: fills the rows, counts the symbols, and returns the status, 0 or 4; or 3 if the
/// archive has no such member, which leaves rows and count unchanged.
pub fn tell_symbols<'a>(
    archive: &Archive<'a>,
    linker: Linker,
    rows: &mut [ArchiveSymbolRow<'a>],
    count: &mut usize,
) -> u32
    ensures { TellsSymbols (linker_symbols linker (is_thin archive.entry.now) (file_of archive.entry.now)) rows.old rows.new count.old count.new result }
{
    match archive.symbols(linker) {
        Some(symbols) => {
            *count = put_symbols(rows, symbols);
            table_status(*count, rows.len())
        }
        None => status::ABSENT,
    }
}
