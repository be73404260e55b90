//! Objects: `petool_object_check`, `_headers`, `_sections`, `_relocations` and `_all_relocations`.

ghost use Rattle.std.specs.Prelude.{◌≡◌, ◌≢◌, ◌⊎◌, drop, slice_get};
ghost use Rattle.pe_view.specs.Faults.{first_standing};
ghost use Rattle.coff_read.specs.ObjectFaults.{object_tests};
ghost use Rattle.coff_read.specs.Headers.{file_header, section_headers};
ghost use Rattle.coff_read.specs.Reading.{object_of};
ghost use Rattle.pe_records_c.specs.Faults.{IsRefusedBy};
ghost use Rattle.pe_records_c.specs.ObjectHeaderRows.{object_header_record, section_header_row};
ghost use Rattle.pe_records_c.specs.ObjectRows.{section_text, section_row, relocation_row, relocations_of, TellsRelocations};
ghost use Rattle.pe_records_c.specs.Rows.{filled, TellsTable};

use coff_read::ObjectFile;
use pe_records_c::fault::{FaultRecord, refuse};
use pe_records_c::object::{
    ObjectRelocationRow, ObjectSectionRow, tell_all_relocations, tell_relocations, tell_sections,
};
use pe_records_c::object_headers::{
    ObjectHeaderRecord, SectionHeaderRow, object_header_record, put_section_headers,
};
use pe_records_c::status;
use std::alloc::Global;

/// Checks an object's file.
///
/// The status is 0, or 1 with the first of faults 61 to 72. Allocates nothing. ("PE Format": COFF File Header, Section Table, COFF
/// Relocations, COFF Symbol Table, COFF String Table.)
#[unsafe(no_mangle)]
pub extern "C" fn petool_object_check(file: &[u8], fault: &mut FaultRecord) -> u32
    ensures status { (result ≡ 0) ⊎ (result ≡ 1) }
    ensures refused { IsRefusedBy (first_standing (object_tests file.now)) fault.old fault.new result }
{
    match ObjectFile::new(file) {
        Ok(_) => status::DONE,
        Err(first) => refuse(first, fault),
    }
}

/// Reads the COFF file header of an object, and as many of its section headers as fit into the rows.
///
/// The status is 0, or 1 with the first of faults 61 to 72, which leaves the header and the rows unchanged. Allocates nothing.
/// ("PE Format": COFF File Header, Section Table.)
#[unsafe(no_mangle)]
pub extern "C" fn petool_object_headers(
    file: &[u8],
    header: &mut ObjectHeaderRecord,
    sections: &mut [SectionHeaderRow],
    fault: &mut FaultRecord,
) -> u32
    ensures status { (result ≡ 0) ⊎ (result ≡ 1) }
    ensures refused { IsRefusedBy (first_standing (object_tests file.now)) fault.old fault.new result }
    ensures header { result ≡ 0 → header.new ≡ object_header_record (file_header file.now) }
    ensures sections { result ≡ 0 → sections.new ≡ filled section_header_row (section_headers file.now) sections.old }
    ensures header_kept { result ≢ 0 → header.new ≡ header.old }
    ensures sections_kept { result ≢ 0 → sections.new ≡ sections.old }
{
    let object = match ObjectFile::new(file) {
        Ok(object) => object,
        Err(first) => return refuse(first, fault),
    };
    *header = object_header_record(&object);
    put_section_headers(sections, &object);
    status::DONE
}

/// Reads the sections of an object, in table order, into the caller's rows.
///
/// The status is 0; 4 if there are more sections than rows, which then hold the first sections; or 1 with the first of faults 61
/// to 72. The count is that of all sections; 1 leaves it and the rows unchanged. Memory is allocated to remember where strings
/// end, so that a string that many share is searched once; if that fails, strings are searched again, and the status is the same.
#[unsafe(no_mangle)]
pub extern "C" fn petool_object_sections<'a>(
    alloc: Global,
    file: &'a [u8],
    rows: &mut [ObjectSectionRow<'a>],
    count: &mut usize,
    fault: &mut FaultRecord,
) -> u32
    ensures refused { IsRefusedBy (first_standing (object_tests file.now)) fault.old fault.new result }
    ensures table { result ≢ 1 → TellsTable section_text section_row (object_of file.now).sections rows.old rows.new count.new result }
    ensures rows_kept { result ≡ 1 → rows.new ≡ rows.old }
    ensures count_kept { result ≡ 1 → count.new ≡ count.old }
{
    match ObjectFile::new(file) {
        Ok(object) => tell_sections(alloc, &object, rows, count),
        Err(first) => refuse(first, fault),
    }
}

/// Reads the relocations of one section of an object, counted from 0, in table order, into the caller's rows.
///
/// The status is 0; 4 if there are more relocations than rows, which then hold the first relocations; 3 if there is no such
/// section; or 1 with the first of faults 61 to 72. The count is that of the section's relocations; 1 and 3 leave it and the rows
/// unchanged. Allocates nothing.
#[unsafe(no_mangle)]
pub extern "C" fn petool_object_relocations(
    file: &[u8],
    section: usize,
    rows: &mut [ObjectRelocationRow],
    count: &mut usize,
    fault: &mut FaultRecord,
) -> u32
    ensures refused { IsRefusedBy (first_standing (object_tests file.now)) fault.old fault.new result }
    ensures table { result ≢ 1 → TellsRelocations (slice_get (object_of file.now).sections section) rows.old rows.new count.old count.new result }
    ensures rows_kept { result ≡ 1 → rows.new ≡ rows.old }
    ensures count_kept { result ≡ 1 → count.new ≡ count.old }
{
    match ObjectFile::new(file) {
        Ok(object) => tell_relocations(&object, section, rows, count),
        Err(first) => refuse(first, fault),
    }
}

/// Reads the relocations of all sections of an object, section by section, after the first `skipped` ones, into the caller's rows.
///
/// The status is 0; 4 if more relocations come after the skipped ones than there are rows, which then hold the first of these; or 1
/// with the first of faults 61 to 72. The count is that of the relocations after the skipped ones; 1 leaves it and the rows
/// unchanged. Relocations without a row, and skipped ones, are not decoded. Memory is allocated as by `petool_object_sections`.
#[unsafe(no_mangle)]
pub extern "C" fn petool_object_all_relocations(
    alloc: Global,
    file: &[u8],
    skipped: usize,
    rows: &mut [ObjectRelocationRow],
    count: &mut usize,
    fault: &mut FaultRecord,
) -> u32
    ensures refused { IsRefusedBy (first_standing (object_tests file.now)) fault.old fault.new result }
    ensures table { result ≢ 1 → TellsTable (λ row. row) relocation_row (drop skipped (relocations_of file.now)) rows.old rows.new count.new result }
    ensures rows_kept { result ≡ 1 → rows.new ≡ rows.old }
    ensures count_kept { result ≡ 1 → count.new ≡ count.old }
{
    match ObjectFile::new(file) {
        Ok(object) => tell_all_relocations(alloc, &object, skipped, rows, count),
        Err(first) => refuse(first, fault),
    }
}
