//! Debug data: `petool_debug` and `petool_pdb`.

ghost use Rattle.pe_layout.specs.Image.{image_of_file};
ghost use Rattle.pe_layout.specs.SectionFaults.{layout_tests};
ghost use Rattle.pe_records_c.specs.Rows.{ReadsTable};
ghost use Rattle.c_tables.specs.DebugRows.{debug_entries, debug_row};
ghost use Rattle.c_tables.specs.PdbRows.{pdb_of, pdb_text};
ghost use Rattle.c_tables.specs.Told.{ReadsRecord};

use c_tables::debug::DebugRow;
use c_tables::items::put_items;
use c_tables::pdb::{PdbRecord, tell_pdb};
use pe_image::lay_out;
use pe_records::{DebugEntry, Records};
use pe_records_c::fault::{FaultRecord, refuse};

/// Reads the entries of the debug directory of an image, in table order, into the caller's rows: those that are whole in the
/// directory's Size and in the bytes that the file holds in one run.
///
/// The status is 0; 4 if there are more entries than rows, which then hold the first of them; or 1 with the first of faults 1 to 15.
/// The count is that of all entries; 1 leaves it and the rows unchanged. Allocates nothing. ("PE Format": Debug Directory.)
#[unsafe(no_mangle)]
pub extern "C" fn petool_debug(
    file: &[u8],
    rows: &mut [DebugRow],
    count: &mut usize,
    fault: &mut FaultRecord,
) -> u32
    ensures { ReadsTable ⊥ (layout_tests 0 file.now) (λ row. row) debug_row (debug_entries (image_of_file 0 file.now))
        rows.old rows.new count.old count.new fault.old fault.new result }
{
    let layout = match lay_out(file, 0) {
        Ok(layout) => layout,
        Err(first) => return refuse(first, fault),
    };
    let entries: Records<DebugEntry> = Records::of(&layout);
    put_items(rows, &entries, count)
}

/// Which PDB file belongs to an image: the one that the first entry of the debug directory names that names one.
///
/// The status is 0; 3 if no entry names a PDB file; or 1 with the first of faults 1 to 15. All but 0 leave the record unchanged.
/// Allocates nothing. ("PE Format": Debug Directory.)
#[unsafe(no_mangle)]
pub extern "C" fn petool_pdb<'a>(
    file: &'a [u8],
    pdb: &mut PdbRecord<'a>,
    fault: &mut FaultRecord,
) -> u32
    ensures { ReadsRecord (layout_tests 0 file.now) pdb_text (pdb_of (image_of_file 0 file.now) file.now) pdb.old pdb.new fault.old fault.new result }
{
    match lay_out(file, 0) {
        Ok(layout) => tell_pdb(&layout, file, pdb),
        Err(first) => refuse(first, fault),
    }
}
