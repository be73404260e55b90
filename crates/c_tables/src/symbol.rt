//! `EitherObjectSymbolRow`: a symbol of an object of either form, as C has it.

ghost use Rattle.std.specs.Prelude.{◌≡◌, length};
ghost use Rattle.c_tables.specs.SymbolRows.{symbol_row, symbol_text, symbols_of};
ghost use Rattle.coff_read.specs.BigView.{big_symbol_view};
ghost use Rattle.coff_read.specs.EitherObject.{file_of, form_of};
ghost use Rattle.pe_records_c.specs.Rows.{Fills, TellsTable};

use coff_read::{BigSymbol, EitherObject};
use pe_records_c::row::table_status;
use std::alloc::Global;

/// A symbol of an object of either form.
#[repr(C)]
#[derive(Clone, Copy)]
pub struct EitherObjectSymbolRow<'a> {
    /// The name, also if it is in the string table.
    pub name: &'a [u8],
    /// The auxiliary records: of a plain object 18 bytes each, of a big one 20.
    pub aux: &'a [u8],
    /// The index of the symbol's record, to which relocations refer.
    pub index: u32,
    /// The value, whose meaning depends on the section and the storage class.
    pub value: u32,
    /// The number of its section, counted from 1; or 0 UNDEFINED, 0xffff_ffff ABSOLUTE, 0xffff_fffe DEBUG, in both forms.
    pub section_number: u32,
    /// The type.
    pub kind: u16,
    /// The storage class.
    pub class: u8,
}

impl<'a> EitherObjectSymbolRow<'a> {
    /// A symbol as C has it.
    fn of(index: u32, symbol: BigSymbol<'a>) -> EitherObjectSymbolRow<'a>
        ensures { symbol_text result ≡ symbol_row (index, big_symbol_view symbol.entry) }
    {
        EitherObjectSymbolRow {
            name: symbol.name,
            aux: symbol.aux,
            index,
            value: symbol.value,
            section_number: symbol.section.number(),
            kind: symbol.kind,
            class: symbol.class,
        }
    }
}

/// How many symbols an object has.
fn symbol_count(object: &EitherObject) -> usize
    ensures { result ≡ length (symbols_of (form_of object.now) (file_of object.now)) }
{
    object.symbol_count()
}

/// Fills the first rows with an object's symbols.
fn put_symbols<'a>(alloc: Global, rows: &mut [EitherObjectSymbolRow<'a>], object: &EitherObject<'a>)
    ensures { Fills (λ symbol row. symbol_text row ≡ symbol_row symbol) (symbols_of (form_of object.now) (file_of object.now)) rows.old rows.new }
{
    let mut symbols = object.each_symbol(alloc);
    let count = rows.len().min(symbol_count(object));
    for index in 0..count {
        match symbols.next() {
            Some((number, symbol)) => rows[index] = EitherObjectSymbolRow::of(number, symbol),
            None => return,
        }
    }
}

/// Reports the symbols of an object, and returns the status, 0 or 4. Memory is taken to remember where strings end; without it,
/// strings are searched again. Symbols without a row are not decoded.
pub fn tell_symbols<'a>(
    alloc: Global,
    object: &EitherObject<'a>,
    rows: &mut [EitherObjectSymbolRow<'a>],
    count: &mut usize,
) -> u32
    ensures { TellsTable symbol_text symbol_row (symbols_of (form_of object.now) (file_of object.now)) rows.old rows.new count.new result }
{
    *count = symbol_count(object);
    put_symbols(alloc, rows, object);
    table_status(*count, rows.len())
}
