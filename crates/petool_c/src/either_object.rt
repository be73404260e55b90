//! Objects of either form, plain or big: `petool_either_object_check`, `_sections`, `_relocations`, `_all_relocations` and
//! `_symbols`.

ghost use Rattle.std.specs.Prelude.{◌≡◌, ◌≢◌, ◌⊎◌, drop, slice_get};
ghost use Rattle.pe_view.specs.Faults.{first_standing};
ghost use Rattle.c_tables.specs.Relocations.{relocations_of};
ghost use Rattle.c_tables.specs.SymbolRows.{symbol_row, symbol_text, symbols_of};
ghost use Rattle.coff_read.specs.EitherObject.{form_in};
ghost use Rattle.coff_read.specs.FormFaults.{object_tests};
ghost use Rattle.coff_read.specs.FormReading.{object_of};
ghost use Rattle.pe_records_c.specs.Faults.{IsRefusedBy};
ghost use Rattle.pe_records_c.specs.ObjectRows.{section_text, section_row, relocation_row, TellsRelocations};
ghost use Rattle.pe_records_c.specs.Rows.{TellsTable};

use c_tables::relocation::{tell_all_relocations, tell_relocations};
use c_tables::section::tell_sections;
use c_tables::symbol::{EitherObjectSymbolRow, tell_symbols};
use coff_read::EitherObject;
use pe_records_c::fault::{FaultRecord, refuse};
use pe_records_c::object::{ObjectRelocationRow, ObjectSectionRow};
use pe_records_c::status;
use std::alloc::Global;

/// Checks an object's file of either form, and says whether it is a big object: one that begins with Machine 0 and 0xffff sections is
/// checked as a big one, and any other as a plain one.
///
/// The status is 0, or 1 with the first of faults 61 to 72, which leaves `big` unchanged. Allocates nothing. ("PE Format": COFF File
/// Header, Section Table, COFF Relocations, COFF Symbol Table, COFF String Table.)
#[unsafe(no_mangle)]
pub extern "C" fn petool_either_object_check(
    file: &[u8],
    big: &mut bool,
    fault: &mut FaultRecord,
) -> u32
    ensures status { (result ≡ 0) ⊎ (result ≡ 1) }
    ensures refused { IsRefusedBy (first_standing (object_tests (form_in file.now) file.now)) fault.old fault.new result }
    ensures big { result ≡ 0 → big.new ≡ form_in file.now }
    ensures big_kept { result ≢ 0 → big.new ≡ big.old }
{
    match EitherObject::new(file) {
        Ok(object) => {
            *big = object.is_big();
            status::DONE
        }
        Err(first) => refuse(first, fault),
    }
}

/// Reads the sections of an object of either form, in table order, into the caller's rows, as `petool_object_sections` does.
#[unsafe(no_mangle)]
pub extern "C" fn petool_either_object_sections<'a>(
    alloc: Global,
    file: &'a [u8],
    rows: &mut [ObjectSectionRow<'a>],
    count: &mut usize,
    fault: &mut FaultRecord,
) -> u32
    ensures refused { IsRefusedBy (first_standing (object_tests (form_in file.now) file.now)) fault.old fault.new result }
    ensures table { result ≢ 1 → TellsTable section_text section_row (object_of (form_in file.now) file.now).sections rows.old rows.new count.new result }
    ensures rows_kept { result ≡ 1 → rows.new ≡ rows.old }
    ensures count_kept { result ≡ 1 → count.new ≡ count.old }
{
    match EitherObject::new(file) {
        Ok(object) => tell_sections(alloc, &object, rows, count),
        Err(first) => refuse(first, fault),
    }
}

/// Reads the relocations of one section of an object of either form, counted from 0, in table order, into the caller's rows, as
/// `petool_object_relocations` does.
#[unsafe(no_mangle)]
pub extern "C" fn petool_either_object_relocations(
    file: &[u8],
    section: usize,
    rows: &mut [ObjectRelocationRow],
    count: &mut usize,
    fault: &mut FaultRecord,
) -> u32
    ensures refused { IsRefusedBy (first_standing (object_tests (form_in file.now) file.now)) fault.old fault.new result }
    ensures table { result ≢ 1 → TellsRelocations (slice_get (object_of (form_in file.now) file.now).sections section) rows.old rows.new count.old count.new result }
    ensures rows_kept { result ≡ 1 → rows.new ≡ rows.old }
    ensures count_kept { result ≡ 1 → count.new ≡ count.old }
{
    match EitherObject::new(file) {
        Ok(object) => tell_relocations(&object, section, rows, count),
        Err(first) => refuse(first, fault),
    }
}

/// Reads the relocations of all sections of an object of either form, section by section, after the first `skipped` ones, into the
/// caller's rows, as `petool_object_all_relocations` does.
#[unsafe(no_mangle)]
pub extern "C" fn petool_either_object_all_relocations(
    alloc: Global,
    file: &[u8],
    skipped: usize,
    rows: &mut [ObjectRelocationRow],
    count: &mut usize,
    fault: &mut FaultRecord,
) -> u32
    ensures refused { IsRefusedBy (first_standing (object_tests (form_in file.now) file.now)) fault.old fault.new result }
    ensures table { result ≢ 1 → TellsTable (λ row. row) relocation_row (drop skipped (relocations_of (form_in file.now) file.now)) rows.old rows.new count.new result }
    ensures rows_kept { result ≡ 1 → rows.new ≡ rows.old }
    ensures count_kept { result ≡ 1 → count.new ≡ count.old }
{
    match EitherObject::new(file) {
        Ok(object) => tell_all_relocations(alloc, &object, skipped, rows, count),
        Err(first) => refuse(first, fault),
    }
}

/// Reads the symbols of an object of either form, in table order, into the caller's rows, as `petool_object_symbols` does. Section
/// numbers have 32 bits in the rows of both forms.
#[unsafe(no_mangle)]
pub extern "C" fn petool_either_object_symbols<'a>(
    alloc: Global,
    file: &'a [u8],
    rows: &mut [EitherObjectSymbolRow<'a>],
    count: &mut usize,
    fault: &mut FaultRecord,
) -> u32
    ensures refused { IsRefusedBy (first_standing (object_tests (form_in file.now) file.now)) fault.old fault.new result }
    ensures table { result ≢ 1 → TellsTable symbol_text symbol_row (symbols_of (form_in file.now) file.now) rows.old rows.new count.new result }
    ensures rows_kept { result ≡ 1 → rows.new ≡ rows.old }
    ensures count_kept { result ≡ 1 → count.new ≡ count.old }
{
    match EitherObject::new(file) {
        Ok(object) => tell_symbols(alloc, &object, rows, count),
        Err(first) => refuse(first, fault),
    }
}
