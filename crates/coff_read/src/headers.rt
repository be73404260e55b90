//! `FileHeader`: the COFF file header of an object. Each field is as stored in the file.

ghost use Rattle.std.specs.Prelude.{◌≡◌, ◌≤◌};
ghost use Rattle.pe_view.specs.View.{bytes_of, size_of};
ghost use Rattle.coff_read.specs.Headers.{file_header};

use crate::fields::{u16_in, u32_in};
use pe_view::View;

/// The COFF file header of an object ("PE Format", COFF File Header).
#[derive(Clone, Copy, Debug, PartialEq, Eq)]
pub struct FileHeader {
    /// The processor that the object is for.
    pub machine: u16,
    /// The number of section headers.
    pub number_of_sections: u16,
    /// When the object was created, as stored in the file.
    pub time_date_stamp: u32,
    /// The file offset of the symbol table; 0 if there is none.
    pub pointer_to_symbol_table: u32,
    /// The number of records in the symbol table, auxiliary records counted.
    pub number_of_symbols: u32,
    /// The size of the optional header in bytes.
    pub size_of_optional_header: u16,
    /// Flags of the object.
    pub characteristics: u16,
}

/// The COFF file header of a file that has one.
pub(crate) fn file_header(view: View) -> FileHeader
    requires { 20 ≤ size_of view }
    ensures { result ≡ file_header (bytes_of view.entry) }
{
    FileHeader {
        machine: u16_in(view, 0, 0),
        number_of_sections: u16_in(view, 0, 2),
        time_date_stamp: u32_in(view, 0, 4),
        pointer_to_symbol_table: u32_in(view, 0, 8),
        number_of_symbols: u32_in(view, 0, 12),
        size_of_optional_header: u16_in(view, 0, 16),
        characteristics: u16_in(view, 0, 18),
    }
}
