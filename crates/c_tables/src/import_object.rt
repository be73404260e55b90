//! `ImportObjectRecord`: a short import object, as C has it.

ghost use Rattle.std.specs.Prelude.{◌≡◌};
ghost use Rattle.coff_archive.specs.ImportView.{import_view};
ghost use Rattle.c_tables.specs.ImportRecords.{import_checks, import_record, import_text, import_told};
ghost use Rattle.c_tables.specs.Told.{ReadsRecord};

use coff_archive::{Import, import_object, is_import};
use pe_records_c::fault::{FaultRecord, refuse};
use pe_records_c::status;

/// A short import object, which an import library has for each name that a DLL exports.
#[repr(C)]
#[derive(Clone, Copy)]
pub struct ImportObjectRecord<'a> {
    /// The public symbol.
    pub symbol: &'a [u8],
    /// The DLL.
    pub module: &'a [u8],
    /// The name that is imported; empty if the import is by ordinal.
    pub name: &'a [u8],
    /// When it was made, as its maker wrote it.
    pub time_date_stamp: u32,
    /// The processor.
    pub machine: u16,
    /// The ordinal, or the hint.
    pub ordinal: u16,
    /// What is imported: 0 code, 1 data, 2 a constant.
    pub kind: u8,
    /// 0 by ordinal; else how the name is made.
    pub name_type: u8,
}

impl<'a> ImportObjectRecord<'a> {
    /// A short import object as C has it.
    fn of(import: &Import<'a>) -> ImportObjectRecord<'a>
        ensures { import_text result ≡ import_record (import_view import.entry.now) }
    {
        ImportObjectRecord {
            symbol: import.symbol,
            module: import.module,
            name: import.import_name().unwrap_or(&[]),
            time_date_stamp: import.time_stamp,
            machine: import.machine,
            ordinal: import.ordinal,
            kind: import.kind,
            name_type: import.name_type,
        }
    }
}

/// Stores the short import object that bytes hold, and returns the status: 0; 3 if they begin as none; or 1 with the first of findings 331
/// to 333 at offset 0. All but 0 leave the record unchanged.
pub fn tell_import<'a>(
    bytes: &'a [u8],
    told: &mut ImportObjectRecord<'a>,
    fault: &mut FaultRecord,
) -> u32
    ensures { ReadsRecord (import_checks bytes.entry.now) import_text (import_told bytes.entry.now) told.old told.new fault.old fault.new result }
{
    if !is_import(bytes) {
        return status::ABSENT;
    }
    match import_object(bytes, 0) {
        Ok(import) => {
            *told = ImportObjectRecord::of(&import);
            status::DONE
        }
        Err(first) => refuse(first, fault),
    }
}
