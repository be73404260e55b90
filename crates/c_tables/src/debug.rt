//! `DebugRow`: an entry of the debug directory, as C has it.

ghost use Rattle.std.specs.Prelude.{◌≡◌};
ghost use Rattle.c_tables.specs.DebugRows.{debug_row};

use pe_records::DebugEntry;
use pe_records_c::row::Row;

/// An entry of the debug directory. Offsets and sizes count bytes.
#[repr(C)]
#[derive(Clone, Copy)]
pub struct DebugRow {
    /// Reserved.
    pub characteristics: u32,
    /// When the data was made, in seconds since 1970, or a hash.
    pub time_date_stamp: u32,
    /// The major version of the data's format.
    pub major_version: u16,
    /// The minor version of the data's format.
    pub minor_version: u16,
    /// The type of the data: 2 a CodeView record, which names the PDB file.
    pub kind: u32,
    /// The size of the data.
    pub size_of_data: u32,
    /// The RVA of the data; 0 if it is not laid out.
    pub address_of_raw_data: u32,
    /// The file offset of the data; 0 if the file does not hold it.
    pub pointer_to_raw_data: u32,
}

impl Row<DebugEntry> for DebugRow {
    ghost tells = { λ item row. row ≡ debug_row item };

    fn of(item: &DebugEntry) -> Self {
        DebugRow {
            characteristics: item.characteristics,
            time_date_stamp: item.time_date_stamp,
            major_version: item.major_version,
            minor_version: item.minor_version,
            kind: item.kind,
            size_of_data: item.size_of_data,
            address_of_raw_data: item.address_of_raw_data,
            pointer_to_raw_data: item.pointer_to_raw_data,
        }
    }
}
