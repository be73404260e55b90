//! Base relocations: `petool_fixups`.
//!
//! describe/describe.py writes this file.

ghost use Rattle.pe_layout.specs.Image.{image_of_file};
ghost use Rattle.pe_tables.specs.Fixups.{fixups_of};
ghost use Rattle.pe_records_c.specs.FixupRows.{fixup_row};
ghost use Rattle.pe_records_c.specs.Rows.{ReadsTable};
ghost use Rattle.pe_records_c.specs.TableTests.{file_relocation_tests};
ghost use Rattle.pe_image.specs.Wants.{FixupsTakeMemory};
ghost use Rattle.pe_records_c.specs.Wants.{IsLaidOutAnd};

use pe_records_c::fault::{FaultRecord, refuse_for};
use pe_records_c::fixup::FixupRow;
use pe_records_c::reading::fixups_in;
use pe_records_c::row::put_table;
use std::alloc::Global;

/// Reads the base relocations of an image, in the order of its base relocation table, into the caller's rows.
///
/// The status is 0; 4 if there are more base relocations than rows, which then hold the first of them; 1 with the first of faults 1
/// to 15 and 24 to 38; or 2, out of memory: memory is allocated as for the imports, or after the head of the first block. The count
/// is that of all base relocations; 1 and 2 leave it and the rows unchanged. ("PE Format": The .reloc Section.)
#[unsafe(no_mangle)]
pub extern "C" fn petool_fixups(
    alloc: Global,
    file: &[u8],
    rows: &mut [FixupRow],
    count: &mut usize,
    fault: &mut FaultRecord,
) -> u32
    ensures { ReadsTable (IsLaidOutAnd FixupsTakeMemory file.now) (file_relocation_tests file.now) (λ row. row) fixup_row (fixups_of (image_of_file 0 file.now))
        rows.old rows.new count.old count.new fault.old fault.new result }
{
    match fixups_in(alloc, file) {
        Ok(fixups) => put_table(rows, fixups.as_slice(), count),
        Err(refusal) => refuse_for(refusal, fault),
    }
}
