//! Bound imports: `petool_bound_imports`.

ghost use Rattle.pe_layout.specs.Image.{image_of_file};
ghost use Rattle.pe_layout.specs.SectionFaults.{layout_tests};
ghost use Rattle.pe_records_c.specs.Rows.{ReadsTable};
ghost use Rattle.c_tables.specs.BoundImportRows.{bound_import_row, bound_imports};

use c_tables::bound_import::BoundImportRow;
use c_tables::items::put_items;
use pe_image::lay_out;
use pe_records::BoundImports;
use pe_records_c::fault::{FaultRecord, refuse};

/// Reads the records of the bound import table of an image, in table order and before the first that is all zeros, into the caller's
/// rows: those that are whole in the directory's Size and in the bytes that the file holds in one run.
///
/// The status is 0; 4 if there are more records than rows, which then hold the first of them; or 1 with the first of faults 1 to 15.
/// The count is that of all records; 1 leaves it and the rows unchanged. Allocates nothing. ("PE Format": Bound Import Table.)
#[unsafe(no_mangle)]
pub extern "C" fn petool_bound_imports(
    file: &[u8],
    rows: &mut [BoundImportRow],
    count: &mut usize,
    fault: &mut FaultRecord,
) -> u32
    ensures { ReadsTable ⊥ (layout_tests 0 file.now) (λ row. row) bound_import_row (bound_imports (image_of_file 0 file.now))
        rows.old rows.new count.old count.new fault.old fault.new result }
{
    match lay_out(file, 0) {
        Ok(layout) => put_items(rows, &BoundImports::of(&layout), count),
        Err(first) => refuse(first, fault),
    }
}
