//! Structures by their fields: `petool_load_configuration` and `petool_clr`.

ghost use Rattle.pe_layout.specs.Image.{image_of_file};
ghost use Rattle.pe_layout.specs.SectionFaults.{layout_tests};
ghost use Rattle.pe_records_c.specs.Rows.{ReadsTable};
ghost use Rattle.c_tables.specs.FieldRows.{clr_values, field_row, load_values};

use c_tables::field::{FieldRow, tell_clr, tell_load_configuration};
use pe_image::lay_out;
use pe_records_c::fault::{FaultRecord, refuse};

/// Reads the fields of the load configuration of an image, in the order of "PE Format", into the caller's rows: 52 of them, of which
/// those that end after its own field Size, or after the bytes that the file holds in one run, are absent. An image that has no load
/// configuration, or of which the file does not hold the field Size, has no rows.
///
/// The status is 0; 4 if there are more fields than rows, which then hold the first of them; or 1 with the first of faults 1 to 15.
/// The count is that of all fields; 1 leaves it and the rows unchanged. Allocates nothing. ("PE Format": Load Configuration Layout.)
#[unsafe(no_mangle)]
pub extern "C" fn petool_load_configuration(
    file: &[u8],
    rows: &mut [FieldRow],
    count: &mut usize,
    fault: &mut FaultRecord,
) -> u32
    ensures { ReadsTable ⊥ (layout_tests 0 file.now) (λ row. row) field_row (load_values (image_of_file 0 file.now))
        rows.old rows.new count.old count.new fault.old fault.new result }
{
    match lay_out(file, 0) {
        Ok(layout) => tell_load_configuration(&layout, rows, count),
        Err(first) => refuse(first, fault),
    }
}

/// Reads the fields of the CLR header of an image, in order (ECMA-335, II.25.3.3), into the caller's rows: 19 of them, of which those
/// that end after its own field cb, or after the bytes that the file holds in one run, are absent. An image that has no CLR header, or
/// of which the file does not hold the field cb, has no rows.
///
/// The statuses are those of [`petool_load_configuration`].
#[unsafe(no_mangle)]
pub extern "C" fn petool_clr(
    file: &[u8],
    rows: &mut [FieldRow],
    count: &mut usize,
    fault: &mut FaultRecord,
) -> u32
    ensures { ReadsTable ⊥ (layout_tests 0 file.now) (λ row. row) field_row (clr_values (image_of_file 0 file.now))
        rows.old rows.new count.old count.new fault.old fault.new result }
{
    match lay_out(file, 0) {
        Ok(layout) => tell_clr(&layout, rows, count),
        Err(first) => refuse(first, fault),
    }
}
