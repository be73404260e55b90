//! `BoundImportRow`: a record of the bound import table, as C has it.

ghost use Rattle.std.specs.Prelude.{◌≡◌};
ghost use Rattle.pe_view.specs.View.{bytes_of};
ghost use Rattle.pe_records.specs.BoundImports.{bound_imports_in};
ghost use Rattle.c_tables.specs.BoundImportRows.{bound_import_row};

use crate::items::Items;
use pe_records::{BoundImport, BoundImports};
use pe_records_c::row::Row;

/// A record of the bound import table: of a module, or of a module that it forwards to.
#[repr(C)]
#[derive(Clone, Copy)]
pub struct BoundImportRow {
    /// The time stamp of the module when it was bound.
    pub time_date_stamp: u32,
    /// Where the module's name is, from the beginning of the table.
    pub offset_module_name: u16,
    /// The number of records after this one for modules that it forwards to; reserved in a record of those.
    pub number_of_module_forwarder_refs: u16,
}

impl Row<BoundImport> for BoundImportRow {
    ghost tells = { λ item row. row ≡ bound_import_row item };

    fn of(item: &BoundImport) -> Self {
        BoundImportRow {
            time_date_stamp: item.time_date_stamp,
            offset_module_name: item.offset_module_name,
            number_of_module_forwarder_refs: item.number_of_module_forwarder_refs,
        }
    }
}

impl<'a> Items<BoundImport> for BoundImports<'a> {
    ghost items = { λ imports. bound_imports_in (bytes_of imports.table) };

    fn count(&self) -> u32 {
        self.len()
    }

    fn item(&self, index: u32) -> Option<BoundImport> {
        self.get(index)
    }
}
