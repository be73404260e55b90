//! `Directory`: the RVA and size of a table; `directory_index`: the index of each table's directory.

/// Where a table is in the laid-out image ("PE Format", Optional Header Data Directories).
#[derive(Clone, Copy, Debug, Default, PartialEq, Eq)]
pub struct Directory {
    /// The table's RVA. For the certificate table it is a file offset.
    pub rva: u32,
    /// The table's size in bytes.
    pub size: u32,
}

/// The index of each table's data directory.
pub mod directory_index {
    /// The export table, `.edata`.
    pub const EXPORT: usize = 0;
    /// The import table, `.idata`.
    pub const IMPORT: usize = 1;
    /// The resource table, `.rsrc`.
    pub const RESOURCE: usize = 2;
    /// The exception table, `.pdata`.
    pub const EXCEPTION: usize = 3;
    /// The attribute certificate table, whose RVA field is a file offset.
    pub const CERTIFICATE: usize = 4;
    /// The base relocation table, `.reloc`.
    pub const BASE_RELOCATION: usize = 5;
    /// The debug data, `.debug`.
    pub const DEBUG: usize = 6;
    /// Reserved; formerly the architecture.
    pub const ARCHITECTURE: usize = 7;
    /// The RVA of the value for the global pointer register.
    pub const GLOBAL_POINTER: usize = 8;
    /// The thread local storage table, `.tls`.
    pub const TLS: usize = 9;
    /// The load configuration table.
    pub const LOAD_CONFIGURATION: usize = 10;
    /// The bound import table.
    pub const BOUND_IMPORT: usize = 11;
    /// The import address table.
    pub const IMPORT_ADDRESS_TABLE: usize = 12;
    /// The delay import descriptors.
    pub const DELAY_IMPORT: usize = 13;
    /// The CLR runtime header, `.cormeta`.
    pub const CLR: usize = 14;
    /// Reserved.
    pub const RESERVED: usize = 15;
}
