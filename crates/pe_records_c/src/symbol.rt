//! `ObjectSymbolRow`: a symbol of an object as C has it.

ghost use Rattle.std.specs.Prelude.{◌≡◌, length};
ghost use Rattle.coff_read.specs.ObjectFile.{file_of};
ghost use Rattle.coff_read.specs.ObjectView.{symbol_view};
ghost use Rattle.pe_records_c.specs.Rows.{Fills, TellsTable};
ghost use Rattle.pe_records_c.specs.SymbolRows.{symbol_row, symbol_text, symbols_of};

use crate::row::table_status;
use coff_read::{ObjectFile, Symbol};
use std::alloc::Global;

/// A symbol of an object.
#[repr(C)]
#[derive(Clone, Copy)]
pub struct ObjectSymbolRow<'a> {
    /// The name, also if it is in the string table.
    pub name: &'a [u8],
    /// The auxiliary records, 18 bytes each.
    pub aux: &'a [u8],
    /// The index of the symbol's record, to which relocations refer.
    pub index: u32,
    /// The value, whose meaning depends on the section and the storage class.
    pub value: u32,
    /// The number of its section, counted from 1; or 0 UNDEFINED, 0xffff ABSOLUTE, 0xfffe DEBUG.
    pub section_number: u16,
    /// The type.
    pub kind: u16,
    /// The storage class.
    pub class: u8,
}

impl<'a> ObjectSymbolRow<'a> {
    /// A symbol as C has it.
    pub fn of(index: u32, symbol: Symbol<'a>) -> ObjectSymbolRow<'a>
        ensures { symbol_text result ≡ symbol_row (index, symbol_view symbol.entry) }
    {
        ObjectSymbolRow {
            name: symbol.name,
            aux: symbol.aux,
            index,
            value: symbol.value,
            section_number: symbol.section.number(),
            kind: symbol.kind,
            class: symbol.class,
        }
    }
}

/// How many symbols an object has.
fn symbol_count(object: &ObjectFile) -> usize
    ensures { result ≡ length (symbols_of (file_of object.now)) }
{
    object.symbol_count()
}

/// Fills the first rows with an object's symbols.
fn put_symbols<'a>(alloc: Global, rows: &mut [ObjectSymbolRow<'a>], object: &ObjectFile<'a>)
    ensures { Fills (λ symbol row. symbol_text row ≡ symbol_row symbol) (symbols_of (file_of object.now)) rows.old rows.new }
{
    let mut symbols = object.each_symbol(alloc);
    let count = rows.len().min(symbol_count(object));
    for index in 0..count {
        match symbols.next() {
            Some((number, symbol)) => rows[index] = ObjectSymbolRow::of(number, symbol),
            None => return,
        }
    }
}

/// Reports the symbols of an object, and returns the status, 0 or 4.
pub fn tell_symbols<'a>(
    alloc: Global,
    object: &ObjectFile<'a>,
    rows: &mut [ObjectSymbolRow<'a>],
    count: &mut usize,
) -> u32
    ensures { TellsTable symbol_text symbol_row (symbols_of (file_of object.now)) rows.old rows.new count.new result }
{
    *count = symbol_count(object);
    put_symbols(alloc, rows, object);
    table_status(*count, rows.len())
}
