//! `Symbol`: a symbol of an object with its auxiliary records; and faults 69 to 71 of symbols.

ghost use Rattle.std.specs.Prelude.{◌≡◌, ◌+◌, ◌*◌, ◌≤◌, ◌<◌, ◌^◌, [], map, length, None, IfOk};
ghost use Rattle.std.specs.List.{flat_map};
ghost use Rattle.std.specs.Option.{unwrap_or};
ghost use Rattle.pe_view.specs.Faults.{Answers, first_standing};
ghost use Rattle.pe_view.specs.TextEnds.{AreEndsOf};
ghost use Rattle.pe_view.specs.View.{bytes_of, size_of};
ghost use Rattle.coff_read.specs.Field.{field};
ghost use Rattle.coff_read.specs.FormFaults as form_faults;
ghost use Rattle.coff_read.specs.FormReading as form;
ghost use Rattle.coff_read.specs.Forms.{Plain, symbol_len};
ghost use Rattle.coff_read.specs.Names.{symbol_name};
ghost use Rattle.coff_read.specs.ObjectView.{symbol_view};
ghost use Rattle.coff_read.specs.Reading.{section_of_number, symbol_at, record_start, symbol_indexes};
ghost use Rattle.coff_read.specs.TablesPlace.{AreTables};

use crate::error::file_fault;
use crate::fields::{u8_in, u16_in, u32_in};
use crate::names::{has_no_text, name_kept, symbol_name_field};
use crate::tables::{SYMBOL_LEN, Tables};
use crate::widths::{aux_in, debug_number, number_in, symbol_len as record_len};
use pe_view::{Fault, TextEnds, View};
use std::alloc::{AllocError, Allocator};

/// The section of a symbol.
#[derive(Clone, Copy, Debug, PartialEq, Eq)]
pub enum SymbolSection {
    /// None in this object: another object defines it.
    Undefined,
    /// None: its value is a number and no address.
    Absolute,
    /// None: it describes the source.
    Debug,
    /// The section with this number, counted from 1.
    Section(u16),
}

impl SymbolSection {
    ghost use Rattle.coff_read.specs.Records.{section_number};

    /// The field SectionNumber of a symbol's record.
    pub fn number(self) -> u16
        ensures { result ≡ section_number self }
    {
        match self {
            SymbolSection::Undefined => 0,
            SymbolSection::Absolute => 0xffff,
            SymbolSection::Debug => 0xfffe,
            SymbolSection::Section(number) => number,
        }
    }
}

/// A symbol with its auxiliary records ("PE Format", COFF Symbol Table).
#[derive(Clone, Copy, Debug, PartialEq, Eq)]
pub struct Symbol<'a> {
    /// The symbol's name, taken from the string table if it is there.
    pub name: &'a [u8],
    /// The value, whose meaning depends on the section and the class.
    pub value: u32,
    /// The section that it belongs to.
    pub section: SymbolSection,
    /// The type.
    pub kind: u16,
    /// The storage class.
    pub class: u8,
    /// The auxiliary records, 18 bytes each.
    pub aux: &'a [u8],
}

/// The section of a SectionNumber.
pub fn section_of_number(number: u16) -> SymbolSection
    ensures { result ≡ section_of_number number }
{
    match number {
        0 => SymbolSection::Undefined,
        0xffff => SymbolSection::Absolute,
        0xfffe => SymbolSection::Debug,
        number => SymbolSection::Section(number),
    }
}

/// The file offset of a record of the symbol table.
pub(crate) fn record_at<const BIG: bool>(view: View, tables: Tables, k: u64) -> u64
    requires tables { AreTables BIG (bytes_of view) tables }
    requires inside { k < tables.records }
    ensures value { result ≡ tables.symbols + symbol_len BIG * k }
    ensures start { result ≡ form.record_start BIG (bytes_of view.entry) k }
    ensures within { result + symbol_len BIG ≤ size_of view.entry }
{
    tables.symbols + record_len::<BIG>() * k
}

/// The index of the record after the symbol of a record and its auxiliary records, or the first of faults 69 to 71.
fn check_symbol<const BIG: bool>(view: View, tables: Tables, k: u64) -> Result<u64, Fault>
    requires tables { AreTables BIG (bytes_of view) tables }
    requires inside { k < tables.records }
    ensures within { IfOk result (λ next. next ≤ tables.records) }
    ensures exact { Answers (form_faults.symbol_tests BIG (bytes_of view.entry) k) (λ next. next ≡ k + 1 + form.aux_count BIG (bytes_of view.entry) k) result }
{
    let at = record_at::<BIG>(view, tables, k);
    if has_no_text::<BIG>(tables, symbol_name_field(view, at)) {
        return Err(file_fault(69, at));
    }
    let next = k + 1 + u64::from(aux_in::<BIG>(view, at));
    if next > tables.records {
        return Err(file_fault(70, at));
    }
    let number = number_in::<BIG>(view, at);
    if u64::from(number) > tables.sections && number < debug_number::<BIG>() {
        return Err(file_fault(71, at));
    }
    Ok(next)
}

/// The number of symbols, or the first of faults 69 to 71. Each comes after the auxiliary records of the one before.
pub(crate) fn check_symbols<const BIG: bool>(view: View, tables: Tables) -> Result<u64, Fault>
    requires { AreTables BIG (bytes_of view) tables }
    ensures { Answers (flat_map (form_faults.symbol_tests BIG (bytes_of view.entry)) (form.symbol_indexes BIG (bytes_of view.entry))) (λ count. count ≡ length (form.symbol_indexes BIG (bytes_of view.entry))) result }
{
    let mut count = 0;
    let mut k = 0;
    while k < tables.records {
        k = check_symbol::<BIG>(view, tables, k)?;
        count += 1;
    }
    Ok(count)
}

/// The symbol with a name, whose record is at a file offset.
pub(crate) fn symbol_at<'a>(view: View<'a>, at: u64, name: &'a [u8]) -> Symbol<'a>
    requires inside { at + 18 + 18 * field (bytes_of view) at 17 1 ≤ size_of view }
    requires small { size_of view ≤ 2 ^ 32 }
    requires name { name.now ≡ unwrap_or (symbol_name (bytes_of view) at) [] }
    ensures symbol { symbol_view result ≡ symbol_at (bytes_of view.entry) at }
    ensures aux { length result.aux.now ≡ 18 * field (bytes_of view.entry) at 17 1 }
{
    let aux = u64::from(u8_in(view, at, 17));
    Symbol {
        name,
        value: u32_in(view, at, 8),
        section: section_of_number(u16_in(view, at, 12)),
        kind: u16_in(view, at, 14),
        class: u8_in(view, at, 16),
        aux: view.slice(at + SYMBOL_LEN, SYMBOL_LEN * aux).unwrap(),
    }
}

/// A list of the `count` symbols in table order, if none has one of faults 69 to 71.
pub(crate) fn read_symbols<'a, A: Allocator + Copy>(
    alloc: A,
    ends: &mut TextEnds<A>,
    view: View<'a>,
    tables: Tables,
    count: usize,
) -> Result<Vec<Symbol<'a>, A>, AllocError>
    requires tables { AreTables Plain (bytes_of view) tables }
    requires none { first_standing (flat_map (form_faults.symbol_tests Plain (bytes_of view)) (form.symbol_indexes Plain (bytes_of view))) ≡ None }
    requires known { AreEndsOf (bytes_of view) ends.old }
    ensures { IfOk result (λ symbols. map symbol_view symbols.items ≡ map (λ k. symbol_at (bytes_of view.entry) (record_start (bytes_of view.entry) k)) (symbol_indexes (bytes_of view.entry))) }
{
    let mut symbols = Vec::with_capacity(alloc, count)?;
    let mut k = 0;
    while k < tables.records {
        let at = tables.symbols + SYMBOL_LEN * k;
        let name = name_kept::<A, false>(ends, view, tables, symbol_name_field(view, at));
        let symbol = symbol_at(view, at, name);
        k += 1 + symbol.aux.len() as u64 / SYMBOL_LEN;
        symbols.push(symbol)?;
    }
    Ok(symbols)
}
