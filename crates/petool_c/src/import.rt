//! Imports: `petool_imports`.
//!
//! describe/describe.py writes this file.

ghost use Rattle.pe_layout.specs.Image.{image_of_file};
ghost use Rattle.pe_tables.specs.Imports.{imports_of};
ghost use Rattle.pe_records_c.specs.ImportRows.{import_text, import_row};
ghost use Rattle.pe_records_c.specs.Rows.{ReadsTable};
ghost use Rattle.pe_records_c.specs.TableTests.{file_import_tests};
ghost use Rattle.pe_image.specs.Wants.{ImportsTakeMemory};
ghost use Rattle.pe_records_c.specs.Wants.{IsLaidOutAnd};

use pe_records_c::fault::{FaultRecord, refuse_for};
use pe_records_c::import::ImportRow;
use pe_records_c::reading::imports_in;
use pe_records_c::row::put_table;
use std::alloc::Global;

/// Reads the imports of an image, in the order of its import table, into the caller's rows.
///
/// The status is 0; 4 if there are more imports than rows, which then hold the first of them; 1 with the first of faults 1 to 15
/// and 24 to 32; or 2, out of memory: memory is allocated after faults 1 to 15 and the first import. The count is that of all
/// imports; 1 and 2 leave it and the rows unchanged. ("PE Format": The .idata Section.)
#[unsafe(no_mangle)]
pub extern "C" fn petool_imports<'a>(
    alloc: Global,
    file: &'a [u8],
    rows: &mut [ImportRow<'a>],
    count: &mut usize,
    fault: &mut FaultRecord,
) -> u32
    ensures { ReadsTable (IsLaidOutAnd ImportsTakeMemory file.now) (file_import_tests file.now) import_text import_row (imports_of (image_of_file 0 file.now))
        rows.old rows.new count.old count.new fault.old fault.new result }
{
    match imports_in(alloc, file) {
        Ok(imports) => put_table(rows, imports.as_slice(), count),
        Err(refusal) => refuse_for(refusal, fault),
    }
}
