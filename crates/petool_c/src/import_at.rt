//! The import of a slot: `petool_import_at`.

ghost use Rattle.std.specs.Prelude.{◌≡◌};
ghost use Rattle.pe_image.specs.Wants.{ImportsTakeMemory};
ghost use Rattle.pe_layout.specs.Image.{image_of_file};
ghost use Rattle.pe_tables.specs.Imports.{imports_of};
ghost use Rattle.pe_records_c.specs.Faults.{IsAccepted, IsAnswered, IsRefused};
ghost use Rattle.pe_records_c.specs.ImportRows.{import_of_slot, TellsImport};
ghost use Rattle.pe_records_c.specs.TableTests.{file_import_tests};
ghost use Rattle.pe_records_c.specs.Wants.{IsLaidOutAnd};

use pe_records_c::fault::{FaultRecord, refuse_for};
use pe_records_c::import::{ImportRow, put_import};
use pe_records_c::reading::imports_in;
use std::alloc::Global;

/// The import of an image whose slot is at an RVA, such as the place of a fault of a set's imports (48 to 50).
///
/// The status is 0; 3 if there is none; 1 with the first fault of the headers and sections (1 to 15) and of the imports (24 to 32);
/// or 2, out of memory: memory is allocated after faults 1 to 15 and the first import. All but 0 leave the record unchanged. Each
/// call reads the table again. ("PE Format": The .idata Section.)
#[unsafe(no_mangle)]
pub extern "C" fn petool_import_at<'a>(
    alloc: Global,
    file: &'a [u8],
    slot: u32,
    found: &mut ImportRow<'a>,
    fault: &mut FaultRecord,
) -> u32
    ensures faults { IsAnswered (IsLaidOutAnd ImportsTakeMemory file.now) (file_import_tests file.now) fault.old fault.new result }
    ensures found { IsAccepted result → TellsImport (import_of_slot (imports_of (image_of_file 0 file.now)) slot) found.old found.new result }
    ensures kept { IsRefused result → found.new ≡ found.old }
{
    match imports_in(alloc, file) {
        Ok(imports) => put_import(imports.as_slice(), slot, found),
        Err(refusal) => refuse_for(refusal, fault),
    }
}
