//! Functions of the exception table: `petool_functions`.

ghost use Rattle.pe_head.specs.Head.{head_of};
ghost use Rattle.pe_layout.specs.Image.{image_of_file};
ghost use Rattle.pe_layout.specs.SectionFaults.{layout_tests};
ghost use Rattle.pe_records_c.specs.Rows.{ReadsTable};
ghost use Rattle.c_tables.specs.FunctionRows.{function_rows};

use c_tables::function::{FunctionRow, tell_functions};
use pe_image::lay_out;
use pe_records_c::fault::{FaultRecord, refuse};

/// Reads the functions of the exception table of an image, in table order, into the caller's rows: those that are whole in the
/// directory's Size and in the bytes that the file holds in one run. The table of a machine other than AMD64, ARM64 and ARMNT has
/// another form, and no rows.
///
/// The status is 0; 4 if there are more functions than rows, which then hold the first of them; or 1 with the first of faults 1 to
/// 15. The count is that of all functions; 1 leaves it and the rows unchanged. Allocates nothing. ("PE Format": The .pdata Section.)
#[unsafe(no_mangle)]
pub extern "C" fn petool_functions(
    file: &[u8],
    rows: &mut [FunctionRow],
    count: &mut usize,
    fault: &mut FaultRecord,
) -> u32
    ensures { ReadsTable ⊥ (layout_tests 0 file.now) (λ row. row) (λ row. row) (function_rows (head_of file.now).machine (image_of_file 0 file.now))
        rows.old rows.new count.old count.new fault.old fault.new result }
{
    match lay_out(file, 0) {
        Ok(layout) => tell_functions(&layout, rows, count),
        Err(first) => refuse(first, fault),
    }
}
