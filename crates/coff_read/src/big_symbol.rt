//! `BigSymbol`: a symbol of a big object with its auxiliary records.

ghost use Rattle.std.specs.Prelude.{◌≡◌, ◌+◌, ◌*◌, ◌≤◌, ◌<◌, ◌^◌, [], map, None, IfOk};
ghost use Rattle.std.specs.List.{flat_map};
ghost use Rattle.std.specs.Option.{unwrap_or};
ghost use Rattle.pe_view.specs.Faults.{first_standing};
ghost use Rattle.pe_view.specs.TextEnds.{AreEndsOf};
ghost use Rattle.pe_view.specs.View.{bytes_of, size_of};
ghost use Rattle.coff_read.specs.BigView.{belongs_view, big_symbol_view};
ghost use Rattle.coff_read.specs.FormFaults.{symbol_tests};
ghost use Rattle.coff_read.specs.FormReading.{section_of_number, symbol_at, symbol_name, record_start, aux_of, symbol_indexes};
ghost use Rattle.coff_read.specs.Forms.{Big};
ghost use Rattle.coff_read.specs.TablesPlace.{AreTables};

use crate::fields::{u8_in, u16_in, u32_in};
use crate::names::{name_kept, symbol_name_field};
use crate::symbol::record_at;
use crate::tables::Tables;
use crate::widths::aux_in;
use pe_view::{TextEnds, View};
use std::alloc::{AllocError, Allocator};

/// The size in bytes of a symbol table record of a big object.
const BIG_SYMBOL_LEN: u64 = 20;

/// The section of a symbol of a big object, whose SectionNumber has 32 bits.
#[derive(Clone, Copy, Debug, PartialEq, Eq)]
pub enum BigSection {
    /// None in this object: another object defines it.
    Undefined,
    /// None: its value is a number and no address.
    Absolute,
    /// None: it describes the source.
    Debug,
    /// The section with this number, counted from 1.
    Section(u32),
}

impl BigSection {
    ghost use Rattle.coff_read.specs.FormRecords.{section_number};

    /// The field SectionNumber of a symbol's record.
    pub fn number(self) -> u32
        ensures { result ≡ section_number Big (belongs_view self) }
    {
        match self {
            BigSection::Undefined => 0,
            BigSection::Absolute => 0xffff_ffff,
            BigSection::Debug => 0xffff_fffe,
            BigSection::Section(number) => number,
        }
    }
}

/// A symbol of a big object with its auxiliary records. "PE Format", COFF Symbol Table, describes its fields; SectionNumber has
/// 32 bits here.
#[derive(Clone, Copy, Debug, PartialEq, Eq)]
pub struct BigSymbol<'a> {
    /// The symbol's name, taken from the string table if it is there.
    pub name: &'a [u8],
    /// The value, whose meaning depends on the section and the class.
    pub value: u32,
    /// The section that it belongs to.
    pub section: BigSection,
    /// The type.
    pub kind: u16,
    /// The storage class.
    pub class: u8,
    /// The auxiliary records, 20 bytes each.
    pub aux: &'a [u8],
}

/// The section of a SectionNumber of 32 bits.
fn section_of_number(number: u32) -> BigSection
    ensures { belongs_view result ≡ section_of_number Big number }
{
    match number {
        0 => BigSection::Undefined,
        0xffff_ffff => BigSection::Absolute,
        0xffff_fffe => BigSection::Debug,
        number => BigSection::Section(number),
    }
}

/// The symbol with a name, whose record is at a file offset.
pub(crate) fn big_symbol_at<'a>(view: View<'a>, at: u64, name: &'a [u8]) -> BigSymbol<'a>
    requires inside { at + 20 + 20 * aux_of Big (bytes_of view) at ≤ size_of view }
    requires small { size_of view ≤ 2 ^ 32 }
    requires name { name.now ≡ unwrap_or (symbol_name Big (bytes_of view) at) [] }
    ensures { big_symbol_view result ≡ symbol_at Big (bytes_of view.entry) at }
{
    let aux = u64::from(u8_in(view, at, 19));
    BigSymbol {
        name,
        value: u32_in(view, at, 8),
        section: section_of_number(u32_in(view, at, 12)),
        kind: u16_in(view, at, 16),
        class: u8_in(view, at, 18),
        aux: view
            .slice(at + BIG_SYMBOL_LEN, BIG_SYMBOL_LEN * aux)
            .unwrap(),
    }
}

/// A list of the `count` symbols in table order, if none has one of faults 69 to 71.
pub(crate) fn read_big_symbols<'a, A: Allocator + Copy>(
    alloc: A,
    ends: &mut TextEnds<A>,
    view: View<'a>,
    tables: Tables,
    count: usize,
) -> Result<Vec<BigSymbol<'a>, A>, AllocError>
    requires tables { AreTables Big (bytes_of view) tables }
    requires none { first_standing (flat_map (symbol_tests Big (bytes_of view)) (symbol_indexes Big (bytes_of view))) ≡ None }
    requires known { AreEndsOf (bytes_of view) ends.old }
    ensures { IfOk result (λ symbols. map big_symbol_view symbols.items ≡ map (λ k. symbol_at Big (bytes_of view.entry) (record_start Big (bytes_of view.entry) k)) (symbol_indexes Big (bytes_of view.entry))) }
{
    let mut symbols = Vec::with_capacity(alloc, count)?;
    let mut k = 0;
    while k < tables.records {
        let at = record_at::<true>(view, tables, k);
        let name = name_kept::<A, true>(ends, view, tables, symbol_name_field(view, at));
        symbols.push(big_symbol_at(view, at, name))?;
        k += 1 + u64::from(aux_in::<true>(view, at));
    }
    Ok(symbols)
}
