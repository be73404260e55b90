//! `LoadTable`: the tables that the load configuration leads to.

ghost use Rattle.std.specs.Prelude.{◌≡◌, ◌<◌, ◌≤◌};
ghost use Rattle.pe_view.specs.View.{bytes_of};
ghost use Rattle.pe_layout.specs.Layout.{image_of};
ghost use Rattle.pe_records.specs.LoadTables.{fields_of, load_table_in, stride_in, table_passes};
ghost use Rattle.pe_records.specs.Structure.{address_width};

use crate::address::rva_of;
use crate::structure::{Field, Structure, Width};
use pe_layout::Layout;

/// Which table of the load configuration.
#[derive(Clone, Copy, Debug, PartialEq, Eq)]
pub enum LoadTableKind {
    /// SEHandlerTable: the exception handlers of a PE32 image.
    Handlers,
    /// GuardCFFunctionTable: the functions that indirect calls may lead to.
    Functions,
    /// GuardEHContinuationTable: where exceptions may continue.
    EhContinuations,
    /// GuardAddressTakenIatEntryTable: the import address table entries that indirect calls may lead to.
    IatEntries,
    /// GuardLongJumpTargetTable: where long jumps may lead to.
    LongJumpTargets,
}

/// A table of the load configuration.
#[derive(Clone, Copy, Debug, PartialEq, Eq)]
pub struct LoadTable {
    /// The address of its first entry; 0 if there is no table.
    pub address: u64,
    /// The number of entries.
    pub count: u64,
    /// The size of an entry: an RVA of 4 bytes, and in the guard tables as many more as the top four bits of GuardFlags say.
    pub stride: u64,
}

/// The fields of the address and of the number of entries.
fn fields_of(kind: LoadTableKind) -> (Field, Field)
    ensures { result ≡ fields_of kind }
{
    match kind {
        LoadTableKind::Handlers => (
            Field(64, 96, Width::Address),
            Field(68, 104, Width::Address),
        ),
        LoadTableKind::Functions => (
            Field(80, 128, Width::Address),
            Field(84, 136, Width::Address),
        ),
        LoadTableKind::EhContinuations => (
            Field(164, 264, Width::Address),
            Field(168, 272, Width::Address),
        ),
        LoadTableKind::IatEntries => (
            Field(104, 160, Width::Address),
            Field(108, 168, Width::Address),
        ),
        LoadTableKind::LongJumpTargets => (
            Field(112, 176, Width::Address),
            Field(116, 184, Width::Address),
        ),
    }
}

/// The size of an entry.
fn stride(structure: &Structure, kind: LoadTableKind) -> u64
    ensures value { result ≡ stride_in (address_width structure.now.is_plus) (bytes_of structure.now.bytes) kind }
    ensures some { 0 < result }
{
    if kind == LoadTableKind::Handlers {
        return 4;
    }
    match structure.field(Field(88, 144, Width::Four)) {
        None => 4,
        Some(flags) => 4 + flags / 0x1000_0000,
    }
}

/// A table of the load configuration, or `None` if that has not both fields.
pub fn load_table(structure: &Structure, kind: LoadTableKind) -> Option<LoadTable>
    ensures { result ≡ load_table_in (address_width structure.now.is_plus) (bytes_of structure.now.bytes) kind }
{
    let (address, count) = fields_of(kind);
    let address = structure.field(address)?;
    let count = structure.field(count)?;
    Some(LoadTable {
        address,
        count,
        stride: stride(structure, kind),
    })
}

/// Whether a table with entries is not all in bytes that the file holds in one run.
pub(crate) fn table_passes(layout: &Layout, structure: &Structure, kind: LoadTableKind) -> bool
    ensures { result ≡ table_passes (image_of layout.now) (load_table_in (address_width structure.now.is_plus) (bytes_of structure.now.bytes) kind) }
{
    let Some(table) = load_table(structure, kind) else {
        return false;
    };
    if table.address == 0 || table.count == 0 {
        return false;
    }
    match rva_of(layout, table.address) {
        None => true,
        Some(rva) => layout.raw_bytes(rva).len() as u64 / table.stride < table.count,
    }
}
