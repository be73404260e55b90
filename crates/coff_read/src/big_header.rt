//! `BigFileHeader`: the header of a big object. Each field is as stored in the file.

ghost use Rattle.std.specs.Prelude.{◌≡◌, ◌≤◌};
ghost use Rattle.pe_view.specs.View.{bytes_of, size_of};
ghost use Rattle.coff_read.specs.BigObjectFile.{big_file_header};

use crate::fields::{u16_in, u32_in};
use pe_view::View;

/// The header of a big object, which "PE Format" does not describe: `ANON_OBJECT_HEADER_BIGOBJ`, without its two signatures and its
/// class, which are those of every big object.
#[derive(Clone, Copy, Debug, PartialEq, Eq)]
pub struct BigFileHeader {
    /// The version of the header: 2 or more.
    pub version: u16,
    /// The processor that the object is for.
    pub machine: u16,
    /// When the object was created, as stored in the file.
    pub time_date_stamp: u32,
    /// The size of data after the header in other objects of this kind, as stored in the file.
    pub size_of_data: u32,
    /// Flags of the header, as stored in the file.
    pub flags: u32,
    /// The size of the object's metadata in bytes, as stored in the file.
    pub meta_data_size: u32,
    /// The file offset of the object's metadata, as stored in the file.
    pub meta_data_offset: u32,
    /// The number of section headers.
    pub number_of_sections: u32,
    /// The file offset of the symbol table; 0 if there is none.
    pub pointer_to_symbol_table: u32,
    /// The number of records in the symbol table, auxiliary records counted.
    pub number_of_symbols: u32,
}

/// The header of a file that has one of a big object.
pub(crate) fn big_file_header(view: View) -> BigFileHeader
    requires { 56 ≤ size_of view }
    ensures { result ≡ big_file_header (bytes_of view.entry) }
{
    BigFileHeader {
        version: u16_in(view, 0, 4),
        machine: u16_in(view, 0, 6),
        time_date_stamp: u32_in(view, 0, 8),
        size_of_data: u32_in(view, 0, 28),
        flags: u32_in(view, 0, 32),
        meta_data_size: u32_in(view, 0, 36),
        meta_data_offset: u32_in(view, 0, 40),
        number_of_sections: u32_in(view, 0, 44),
        pointer_to_symbol_table: u32_in(view, 0, 48),
        number_of_symbols: u32_in(view, 0, 52),
    }
}
