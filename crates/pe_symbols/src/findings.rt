//! `symbol_findings`: the findings of an image's symbol table.

ghost use Rattle.std.specs.Prelude.{◌≡◌, ◌≢◌, ◌+◌, ◌-◌, ◌*◌, ◌^◌, ◌<◌, ◌≤◌, [], IfOk, OnErr, length, nat_lt};
ghost use Rattle.std.specs.List.{flat_map};
ghost use Rattle.coff_read.specs.Field.{field};
ghost use Rattle.coff_read.specs.ImageSymbols.{image_symbols, records_held};
ghost use Rattle.coff_read.specs.Reading.{section_of_number};
ghost use Rattle.coff_read.specs.Records.{Symbol};
ghost use Rattle.pe_view.specs.Standing.{Adds, standing};
ghost use Rattle.pe_view.specs.View.{bytes_of, size_of};
ghost use Rattle.pe_symbols.specs.SymbolTests.{is_stray, symbol_tests, table_tests, image_symbol_tests};

use coff_read::{ImageStrings, SymbolSection, records_held, section_of_number};
use pe_head::Headers;
use pe_records::finding::add;
use pe_view::{Fault, Place, View};
use std::alloc::{AllocError, Allocator};

/// The length of a record in bytes.
const RECORD_LEN: u64 = 18;

/// Whether the number of a symbol's section is that of none of so many.
fn is_stray(sections: u16, section: SymbolSection) -> bool
    ensures { result ≡ is_stray sections section }
{
    match section {
        SymbolSection::Section(number) => sections < number,
        SymbolSection::Undefined | SymbolSection::Absolute | SymbolSection::Debug => false,
    }
}

/// The section number of the symbol whose record is at a file offset.
#[tactic(auto, unfolding(coff_read::specs::Field::field))]
fn section_at(file: View, at: u64) -> u16
    requires { at + 18 ≤ size_of file }
    ensures { result ≡ field (bytes_of file.entry) at 12 2 }
{
    file.u16_at(at + 12).unwrap()
}

/// How many auxiliary records the symbol counts whose record is at a file offset.
#[tactic(auto, unfolding(coff_read::specs::Field::field))]
fn aux_counted_at(file: View, at: u64) -> u8
    requires { at + 18 ≤ size_of file }
    ensures { result ≡ field (bytes_of file.entry) at 17 1 }
{
    file.slice(at + 17, 1).unwrap()[0]
}

/// Adds the findings of the symbol whose record has this index and counts so many auxiliary records, where the file holds `held` records.
fn find_symbol<A: Allocator>(
    findings: &mut Vec<Fault, A>,
    image: u16,
    file: View,
    headers: &Headers,
    held: u64,
    index: u64,
    counted: u8,
) -> Result<(), AllocError>
    requires held { held ≡ records_held (bytes_of file) headers.now }
    requires small { held < 2 ^ 32 }
    requires within { index < held }
    requires inside { headers.now.pointer_to_symbol_table + 18 * index + 18 ≤ size_of file }
    requires counted { counted ≡ field (bytes_of file) (headers.now.pointer_to_symbol_table + 18 * index) 17 1 }
    ensures { (symbol : Symbol) → symbol.section ≡ section_of_number (field (bytes_of file.entry) (headers.now.pointer_to_symbol_table + 18 * index) 12 2)
        → Adds (symbol_tests image (bytes_of file.entry) headers.now (index, symbol)) findings.old.items findings.new.items result }
{
    let at = u64::from(headers.pointer_to_symbol_table) + RECORD_LEN * index;
    let section = section_of_number(section_at(file, at));
    let rules = [
        (263, is_stray(headers.number_of_sections, section)),
        (264, held < index + 1 + u64::from(counted)),
    ];
    add(findings, image, Place::File(at), &rules)
}

/// Adds the findings of each symbol. Names are not read.
fn find_symbols<A: Allocator>(
    findings: &mut Vec<Fault, A>,
    image: u16,
    file: View,
    headers: &Headers,
) -> Result<(), AllocError>
    ensures { Adds (flat_map (symbol_tests image (bytes_of file.entry) headers.now) (image_symbols (bytes_of file.entry) headers.now)) findings.old.items findings.new.items result }
{
    let held = records_held(file, headers);
    let mut index = 0;
    while index < held {
        let at = u64::from(headers.pointer_to_symbol_table) + RECORD_LEN * index;
        let counted = aux_counted_at(file, at);
        find_symbol(findings, image, file, headers, held, index, counted)?;
        index += 1 + u64::from(counted).min(held - index - 1);
    }
    Ok(())
}

/// Adds the findings of an image's symbol table.
fn find_table<A: Allocator>(
    findings: &mut Vec<Fault, A>,
    image: u16,
    file: View,
    headers: &Headers,
) -> Result<(), AllocError>
    ensures { Adds (table_tests image (bytes_of file.entry) headers.now) findings.old.items findings.new.items result }
{
    let start = u64::from(headers.pointer_to_symbol_table);
    let end = start + RECORD_LEN * u64::from(headers.number_of_symbols);
    let is_cut = file.len() < end;
    add(findings, image, Place::File(start), &[(261, is_cut)])?;
    let strays = !is_cut && ImageStrings::new(file, headers).is_none();
    add(findings, image, Place::File(end), &[(262, strays)])?;
    find_symbols(findings, image, file, headers)
}

/// The findings 261 to 264 of an image with this number, whose file has these headers: of its symbol table, of its string table, and
/// then of each symbol whose record the file holds, in table order. Without a symbol table there are none.
///
/// The error is that no memory is left for a finding. It never comes if there is none.
pub fn symbol_findings<A: Allocator>(
    alloc: A,
    image: u16,
    file: View,
    headers: &Headers,
) -> Result<Vec<Fault, A>, AllocError>
    ensures all { IfOk result (λ findings. findings.items ≡ standing (image_symbol_tests image (bytes_of file.entry) headers.now)) }
    ensures memory { OnErr result (standing (image_symbol_tests image (bytes_of file.entry) headers.now) ≢ []) }
{
    let mut findings = Vec::new(alloc);
    if headers.pointer_to_symbol_table != 0 {
        find_table(&mut findings, image, file, headers)?;
    }
    Ok(findings)
}
