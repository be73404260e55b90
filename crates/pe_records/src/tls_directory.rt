//! `TlsDirectory`: the TLS directory.

ghost use Rattle.std.specs.Prelude.{◌≡◌};
ghost use Rattle.pe_view.specs.View.{bytes_of};
ghost use Rattle.pe_layout.specs.Layout.{image_of};
ghost use Rattle.pe_records.specs.Structure.{address_width};
ghost use Rattle.pe_records.specs.TlsFields.{tls_in, tls_of};

use crate::structure::{Field, Structure, Width};
use pe_head::directory_index;
use pe_layout::Layout;

/// The TLS directory of an image ("PE Format", The TLS Directory). Addresses are those at ImageBase, and 0 where there is none. A field
/// is `None` if the file does not hold all of it.
#[derive(Clone, Copy, Debug, PartialEq, Eq)]
pub struct TlsDirectory {
    /// The address of the first byte of the template for the data of a thread.
    pub start_address_of_raw_data: Option<u64>,
    /// The address after the last byte of the template.
    pub end_address_of_raw_data: Option<u64>,
    /// The address of the index that the loader assigns.
    pub address_of_index: Option<u64>,
    /// The address of the callbacks.
    pub address_of_callbacks: Option<u64>,
    /// How many zero bytes follow the template.
    pub size_of_zero_fill: Option<u64>,
    /// The alignment, as in the flags of a section.
    pub characteristics: Option<u64>,
}

/// The fields of a TLS directory.
pub(crate) fn fields(structure: &Structure) -> TlsDirectory
    ensures { result ≡ tls_in (address_width structure.now.is_plus) (bytes_of structure.now.bytes) }
{
    TlsDirectory {
        start_address_of_raw_data: structure.field(Field(0, 0, Width::Address)),
        end_address_of_raw_data: structure.field(Field(4, 8, Width::Address)),
        address_of_index: structure.field(Field(8, 16, Width::Address)),
        address_of_callbacks: structure.field(Field(12, 24, Width::Address)),
        size_of_zero_fill: structure.field(Field(16, 32, Width::Four)),
        characteristics: structure.field(Field(20, 36, Width::Four)),
    }
}

/// The TLS directory of an image, if it is present. Its directory's Size is not used.
pub fn tls(layout: &Layout) -> Option<TlsDirectory>
    ensures { result ≡ tls_of (image_of layout.now) }
{
    let directory = layout.directory(directory_index::TLS)?;
    Some(fields(&Structure::of(layout, directory.rva, 40)))
}
