//! Sections of an object of either form, as C has them.

ghost use Rattle.std.specs.Prelude.{◌≡◌};
ghost use Rattle.coff_read.specs.EitherObject.{file_of, form_of};
ghost use Rattle.coff_read.specs.FormReading.{object_of};
ghost use Rattle.pe_records_c.specs.ObjectRows.{section_row, section_text};
ghost use Rattle.pe_records_c.specs.Rows.{Fills, TellsTable};

use coff_read::EitherObject;
use pe_records_c::object::ObjectSectionRow;
use pe_records_c::row::table_status;
use std::alloc::Global;

/// Fills the first rows with an object's sections.
fn put_sections<'a>(alloc: Global, rows: &mut [ObjectSectionRow<'a>], object: &EitherObject<'a>)
    ensures { Fills (λ section row. section_text row ≡ section_row section) (object_of (form_of object.now) (file_of object.now)).sections rows.old rows.new }
{
    let mut sections = object.each_section(alloc);
    let count = rows.len().min(object.section_count());
    for index in 0..count {
        match sections.next() {
            Some(section) => rows[index] = ObjectSectionRow::of(section),
            None => return,
        }
    }
}

/// Reports the sections of an object, and returns the status, 0 or 4. Memory is taken to remember where strings end; without it,
/// strings are searched again. Sections without a row are not decoded.
pub fn tell_sections<'a>(
    alloc: Global,
    object: &EitherObject<'a>,
    rows: &mut [ObjectSectionRow<'a>],
    count: &mut usize,
) -> u32
    ensures { TellsTable section_text section_row (object_of (form_of object.now) (file_of object.now)).sections rows.old rows.new count.new result }
{
    *count = object.section_count();
    put_sections(alloc, rows, object);
    table_status(*count, rows.len())
}
