//! `ShowOptions`: which tables a page lists row by row, and whether it has colours.

/// What a page on a file shows in addition to its headers, its sections and the counts of its tables.
#[derive(Clone, Copy, Debug, Default, PartialEq, Eq)]
pub struct ShowOptions {
    /// The exports, a row each.
    pub exports: bool,
    /// The imports, a row each.
    pub imports: bool,
    /// The base relocations of an image, by page; the relocations of an object, a row each.
    pub relocations: bool,
    /// The symbols of an object or of an image, a row each.
    pub symbols: bool,
    /// The entries of the debug directory, a row each.
    pub debug: bool,
    /// The functions of the exception table, a row each.
    pub functions: bool,
    /// The unwind information of each function of an AMD64 or ARM64 image, below its row.
    pub unwind: bool,
    /// The fields of the TLS directory, and its callbacks, a row each.
    pub tls: bool,
    /// The fields of the load configuration, a row each.
    pub load: bool,
    /// The resources, a row each, with version information and the manifest.
    pub resources: bool,
    /// CheckSum as it is to be, the certificates, whether the digest that they sign is the file's, and the Rich header.
    pub trust: bool,
    /// Headings are bold, and a refusal is red.
    pub is_coloured: bool,
}

impl ShowOptions {
    /// All rows of all tables, without colours.
    pub const ALL_ROWS: ShowOptions = ShowOptions {
        exports: true,
        imports: true,
        relocations: true,
        symbols: true,
        debug: true,
        functions: true,
        unwind: true,
        tls: true,
        load: true,
        resources: true,
        trust: true,
        is_coloured: false,
    };
}
