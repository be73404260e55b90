//! Exports: `petool_exports`, `petool_export_names`, `petool_export_by_name` and `petool_export_by_ordinal`.

ghost use Rattle.std.specs.Prelude.{◌≡◌};
ghost use Rattle.pe_layout.specs.Image.{image_of_file};
ghost use Rattle.pe_tables.specs.Exports.{exports_of, target_at};
ghost use Rattle.pe_tables.specs.Key.{Name, Ordinal};
ghost use Rattle.pe_records_c.specs.ExportRows.{export_text, export_by_ordinal, export_by_name, named, TellsTarget};
ghost use Rattle.pe_records_c.specs.Faults.{IsAccepted, IsAnswered, IsRefused};
ghost use Rattle.pe_records_c.specs.Rows.{ReadsTable};
ghost use Rattle.pe_records_c.specs.TableTests.{file_export_tests};
ghost use Rattle.pe_image.specs.Wants.{ExportsTakeMemory};
ghost use Rattle.pe_records_c.specs.Wants.{IsLaidOutAnd};

use pe_records_c::export::{ExportRow, TargetRecord, export_at, put_names, put_target};
use pe_records_c::fault::{FaultRecord, refuse_for};
use pe_records_c::reading::exports_in;
use pe_records_c::row::put_table;
use std::alloc::Global;

/// Reads the exports of an image by ordinal, in the order of the export address table, into the caller's rows.
///
/// The status is 0; 4 if there are more exports than rows, which then hold the first exports; 1 with the first fault of the
/// headers and sections (1 to 15) and of the export table (16 to 22); or 2, out of memory, which comes only if the file has none
/// of faults 1 to 18 and the table has a name or an entry. The count is that of all exports; 1 and 2 leave it and the rows
/// unchanged. ("PE Format": The .edata Section.)
#[unsafe(no_mangle)]
pub extern "C" fn petool_exports<'a>(
    alloc: Global,
    file: &'a [u8],
    rows: &mut [ExportRow<'a>],
    count: &mut usize,
    fault: &mut FaultRecord,
) -> u32
    ensures { ReadsTable (IsLaidOutAnd ExportsTakeMemory file.now) (file_export_tests file.now) export_text export_by_ordinal (exports_of (image_of_file 0 file.now)).ordinals
        rows.old rows.new count.old count.new fault.old fault.new result }
{
    match exports_in(alloc, file) {
        Ok(exports) => put_table(rows, exports.ordinals(), count),
        Err(refusal) => refuse_for(refusal, fault),
    }
}

/// Reads the exports of an image by name, in the order of the name pointer table and each name once, with its ordinal, into the caller's rows.
///
/// The statuses are those of [`petool_exports`].
#[unsafe(no_mangle)]
pub extern "C" fn petool_export_names<'a>(
    alloc: Global,
    file: &'a [u8],
    rows: &mut [ExportRow<'a>],
    count: &mut usize,
    fault: &mut FaultRecord,
) -> u32
    ensures { ReadsTable (IsLaidOutAnd ExportsTakeMemory file.now) (file_export_tests file.now) export_text export_by_name (named (exports_of (image_of_file 0 file.now)))
        rows.old rows.new count.old count.new fault.old fault.new result }
{
    match exports_in(alloc, file) {
        Ok(exports) => put_names(rows, exports.names(), exports.name_ordinals(), count),
        Err(refusal) => refuse_for(refusal, fault),
    }
}

/// What a name of an image exports; if the name is repeated, what it exports at its first place.
///
/// The status is 0; 3 if there is no export of this name; 1 with the first fault of the headers and sections (1 to 15) and of the
/// export table (16 to 22); or 2, out of memory, under the condition of [`petool_exports`]. All but 0 leave the target unchanged.
/// Each call reads the table again.
#[unsafe(no_mangle)]
pub extern "C" fn petool_export_by_name<'a>(
    alloc: Global,
    file: &'a [u8],
    name: &[u8],
    target: &mut TargetRecord<'a>,
    fault: &mut FaultRecord,
) -> u32
    ensures faults { IsAnswered (IsLaidOutAnd ExportsTakeMemory file.now) (file_export_tests file.now) fault.old fault.new result }
    ensures target { IsAccepted result → TellsTarget (target_at (exports_of (image_of_file 0 file.now)) (Name name.now)) target.old target.new result }
    ensures kept { IsRefused result → target.new ≡ target.old }
{
    match exports_in(alloc, file) {
        Ok(exports) => put_target(exports.by_name(name), target),
        Err(refusal) => refuse_for(refusal, fault),
    }
}

/// What an ordinal of an image exports, with the statuses of [`petool_export_by_name`].
#[unsafe(no_mangle)]
pub extern "C" fn petool_export_by_ordinal<'a>(
    alloc: Global,
    file: &'a [u8],
    ordinal: u64,
    target: &mut TargetRecord<'a>,
    fault: &mut FaultRecord,
) -> u32
    ensures faults { IsAnswered (IsLaidOutAnd ExportsTakeMemory file.now) (file_export_tests file.now) fault.old fault.new result }
    ensures target { IsAccepted result → TellsTarget (target_at (exports_of (image_of_file 0 file.now)) (Ordinal ordinal)) target.old target.new result }
    ensures kept { IsRefused result → target.new ≡ target.old }
{
    match exports_in(alloc, file) {
        Ok(exports) => put_target(export_at(&exports, ordinal), target),
        Err(refusal) => refuse_for(refusal, fault),
    }
}
