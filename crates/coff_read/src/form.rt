//! `has_bad_part` and `has_bad_item`: whether a section or a symbol of an object does not fit the format, which is part of fault 85.

ghost use Rattle.std.specs.Prelude.{◌≡◌, ◌||◌, length, map, nat_le};
ghost use Rattle.std.specs.List.{list_any};
ghost use Rattle.coff_read.specs.BigView.{belongs_view, big_symbol_view};
ghost use Rattle.coff_read.specs.Form.{is_bad_raw, is_bad_section, is_bad_symbol};
ghost use Rattle.coff_read.specs.FormRecords as form;
ghost use Rattle.coff_read.specs.ObjectView.{raw_view, section_view, object_view};

use crate::big_symbol::{BigSection, BigSymbol};
use crate::object::Object;
use crate::relocation::Relocation;
use crate::section::{ObjSection, RawData, UNINITIALIZED_DATA};
use crate::wide_symbol::WideSymbol;
use std::alloc::Allocator;

/// Whether a relocation names no record.
fn is_bad_relocation(relocation: &Relocation, records: u64) -> bool
    ensures { result ≡ nat_le records relocation.now.symbol }
{
    u64::from(relocation.symbol) >= records
}

/// Whether a section's bytes can't be stored as they are: none at all, or those of uninitialized data.
fn is_bad_raw(raw: RawData, flags: u32) -> bool
    ensures { result ≡ is_bad_raw (raw_view raw.entry) flags }
{
    match raw {
        RawData::Bytes(bytes) => bytes.is_empty() || flags & UNINITIALIZED_DATA != 0,
        RawData::Absent(_) => false,
    }
}

/// Whether a section does not fit the format; `records` is how many records the symbol table has.
fn is_bad_section<A: Allocator>(section: &ObjSection<A>, records: u64) -> bool
    ensures { result ≡ is_bad_section records (section_view section.now) }
{
    is_bad_raw(section.raw, section.flags)
        || section
            .relocations
            .iter()
            .any(|relocation| is_bad_relocation(relocation, records))
}

/// The greatest number of a section; the two above it are reserved.
fn last_number(big: bool) -> u32
    ensures { result ≡ form.last_number big }
{
    if big { 0xffff_fffd } else { 0xfffd }
}

/// Whether a symbol's section number is that of none of `count` sections, or reserved.
fn is_bad_number(big: bool, section: BigSection, count: usize) -> bool
    ensures { result ≡ form.is_bad_number big count (belongs_view section) }
{
    match section {
        BigSection::Section(number) => {
            number == 0 || number as usize > count || number > last_number(big)
        }
        _ => false,
    }
}

/// Whether auxiliary records are not whole, or more than a symbol's record counts.
fn is_bad_aux(big: bool, len: usize) -> bool
    ensures { result ≡ form.is_bad_aux big len }
{
    if big {
        len % 20 != 0 || len > 5100
    } else {
        len % 18 != 0 || len > 4590
    }
}

/// Whether a symbol of an object with `count` sections does not fit the form.
fn is_bad_symbol(big: bool, symbol: BigSymbol, count: usize) -> bool
    ensures { result ≡ form.is_bad_symbol big count (big_symbol_view symbol.entry) }
{
    is_bad_number(big, symbol.section, count) || is_bad_aux(big, symbol.aux.len())
}

/// Whether one of the sections does not fit the format.
fn any_bad_section<A: Allocator>(sections: &[ObjSection<A>], records: u64) -> bool
    ensures { result ≡ list_any (is_bad_section records) (map section_view sections.now) }
{
    sections
        .iter()
        .any(|section| is_bad_section(section, records))
}

/// Whether one of the symbols does not fit the form.
fn any_bad_symbol<S: WideSymbol>(big: bool, symbols: &[S], count: usize) -> bool
    ensures { result ≡ list_any (form.is_bad_symbol big count) (map S.view symbols.now) }
{
    symbols
        .iter()
        .any(|symbol| is_bad_symbol(big, symbol.wide(), count))
}

/// Whether a section or a symbol of an object that is written plain or big does not fit the form: a part of fault 85. `records` is
/// how many records the symbols have.
pub fn has_bad_item<A: Allocator, S: WideSymbol>(
    big: bool,
    sections: &[ObjSection<A>],
    symbols: &[S],
    records: u64,
) -> bool
    ensures { result ≡ (list_any (is_bad_section records) (map section_view sections.now) || list_any (form.is_bad_symbol big (length sections.now)) (map S.view symbols.now)) }
{
    any_bad_section(sections, records) || any_bad_symbol(big, symbols, sections.len())
}

/// Whether a section or a symbol of an object does not fit the format: a part of fault 85. `records` is how many records the
/// symbols have.
pub fn has_bad_part<A: Allocator>(object: &Object<A>, records: u64) -> bool
    ensures { result ≡ (list_any (is_bad_section records) (object_view object.now).sections || list_any (is_bad_symbol (length (object_view object.now).sections)) (object_view object.now).symbols) }
{
    has_bad_item(
        false,
        object.sections.as_slice(),
        object.symbols.as_slice(),
        records,
    )
}
