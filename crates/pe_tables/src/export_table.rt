//! The export directory table, and faults 16 to 18.

ghost use Rattle.std.specs.Prelude.{◌≡◌, ◌≢◌, ◌+◌, ◌^◌, ◌<◌, ◌≤◌};
ghost use Rattle.pe_layout.specs.Layout.{image_of};
ghost use Rattle.pe_view.specs.Faults.{AnswersOrWants};
ghost use Rattle.pe_tables.specs.Exports.{table_at};
ghost use Rattle.pe_tables.specs.ExportFaults.{is_outside, directory_tests, IsInside};
ghost use Rattle.pe_view.specs.declared.refusal.Refusal.{Refusal};

use crate::error::{TableError, fault_at};
use pe_layout::Layout;

/// The most entries of an export address table, and of a name pointer table.
const ENTRY_LIMIT: u32 = 65_536;

/// The fields that are read of the export directory table ("PE Format", Export Directory Table).
#[derive(Clone, Copy)]
pub(crate) struct Table {
    /// Its own RVA.
    pub rva: u32,
    /// The ordinal of the address table's first entry.
    pub ordinal_base: u32,
    /// How many entries the address table has.
    pub entry_count: u32,
    /// How many entries the name pointer table has, and the ordinal table.
    pub name_count: u32,
    /// The RVA of the export address table.
    pub addresses: u32,
    /// The RVA of the name pointer table.
    pub names: u32,
    /// The RVA of the ordinal table.
    pub ordinals: u32,
}

/// The table at an RVA.
fn table_at(layout: &Layout, rva: u32) -> Table
    requires inside { rva + 40 ≤ (image_of layout.now).size }
    requires small { rva + 40 < 2 ^ 32 }
    ensures { result ≡ table_at (image_of layout.now) rva }
{
    let field = |offset: u32| layout.u32_at(rva + offset).unwrap();
    Table {
        rva,
        ordinal_base: field(16),
        entry_count: field(20),
        name_count: field(24),
        addresses: field(28),
        names: field(32),
        ordinals: field(36),
    }
}

/// Whether `count` entries of `width` bytes at an RVA are not all in the image; false for no entries.
fn is_outside(layout: &Layout, rva: u32, width: u32, count: u32) -> bool
    ensures { result ≡ is_outside (image_of layout.now) rva width count }
{
    count != 0 && !layout.contains(rva, u64::from(width) * u64::from(count))
}

/// Reads the table at an RVA, whose own tables lie in the image, or returns the first of faults 16 to 18.
pub(crate) fn read_table(layout: &Layout, rva: u32) -> Result<Table, TableError>
    ensures exact { AnswersOrWants (directory_tests (image_of layout.now) (table_at (image_of layout.now) rva))
        (λ table. (table ≡ table_at (image_of layout.now) rva) × IsInside (image_of layout.now) table) result }
    ensures no_memory { result ≢ Err Refusal.Memory }
{
    if u64::from(rva) + 40 > u64::from(layout.size()) {
        return Err(fault_at(16, layout, rva));
    }
    let table = table_at(layout, rva);
    if is_outside(layout, table.addresses, 4, table.entry_count) {
        return Err(fault_at(17, layout, rva + 28));
    }
    if is_outside(layout, table.names, 4, table.name_count) {
        return Err(fault_at(17, layout, rva + 32));
    }
    if is_outside(layout, table.ordinals, 2, table.name_count) {
        return Err(fault_at(17, layout, rva + 36));
    }
    if table.entry_count > ENTRY_LIMIT {
        return Err(fault_at(18, layout, rva + 20));
    }
    if table.name_count > ENTRY_LIMIT {
        return Err(fault_at(18, layout, rva + 24));
    }
    Ok(table)
}
