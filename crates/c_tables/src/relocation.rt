//! Relocations of an object of either form, as C has them.

ghost use Rattle.std.specs.Prelude.{◌≡◌, ◌++◌, drop, length, slice_get};
ghost use Rattle.c_tables.specs.Relocations.{relocations_of};
ghost use Rattle.coff_read.specs.EitherObject.{file_of, form_of};
ghost use Rattle.coff_read.specs.FileView.{relocations_view};
ghost use Rattle.coff_read.specs.FormReading.{object_of};
ghost use Rattle.pe_records_c.specs.ObjectRows.{FillsRelocations, TellsRelocations, relocation_row};
ghost use Rattle.pe_records_c.specs.Rows.{TellsTable};

use coff_read::EitherObject;
use pe_records_c::object::{ObjectRelocationRow, put_more_relocations, put_relocations};
use pe_records_c::row::table_status;
use pe_records_c::status;
use std::alloc::Global;

/// Reports the relocations of a section, and returns the status: 0 or 4, or 3 if there is no such section.
pub fn tell_relocations(
    object: &EitherObject,
    section: usize,
    rows: &mut [ObjectRelocationRow],
    count: &mut usize,
) -> u32
    ensures { TellsRelocations (slice_get (object_of (form_of object.now) (file_of object.now)).sections section) rows.old rows.new count.old count.new result }
{
    match object.section(section) {
        Some(section) => {
            let relocations = section.relocations;
            *count = relocations.len();
            put_relocations(rows, &relocations, 0);
            table_status(*count, rows.len())
        }
        None => status::ABSENT,
    }
}

/// Fills the first rows with the relocations of all sections after the first `skipped` ones, and returns how many come after these.
fn put_all_relocations(
    alloc: Global,
    rows: &mut [ObjectRelocationRow],
    object: &EitherObject,
    skipped: usize,
) -> usize
    ensures rows { FillsRelocations (drop skipped (relocations_of (form_of object.now) (file_of object.now))) rows.old rows.new }
    ensures count { result ≡ length (drop skipped (relocations_of (form_of object.now) (file_of object.now))) }
{
    let mut earlier: usize = 0;
    for section in object.each_section(alloc) {
        put_more_relocations(rows, earlier, &section.relocations, skipped);
        earlier += section.relocations.len();
    }
    earlier.saturating_sub(skipped)
}

/// Reports the relocations of all sections of an object, section by section, after the first `skipped` ones, and returns the
/// status, 0 or 4. Relocations without a row, and skipped ones, are not decoded.
pub fn tell_all_relocations(
    alloc: Global,
    object: &EitherObject,
    skipped: usize,
    rows: &mut [ObjectRelocationRow],
    count: &mut usize,
) -> u32
    ensures { TellsTable (λ row. row) relocation_row (drop skipped (relocations_of (form_of object.now) (file_of object.now))) rows.old rows.new count.new result }
{
    *count = put_all_relocations(alloc, rows, object, skipped);
    table_status(*count, rows.len())
}
