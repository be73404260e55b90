//! Addresses of an image that is at its ImageBase.

ghost use Rattle.std.specs.Prelude.{◌≡◌};
ghost use Rattle.pe_view.specs.View.{bytes_of};
ghost use Rattle.pe_layout.specs.Layout.{image_of};
ghost use Rattle.pe_records.specs.Address.{leads_nowhere, passes, rva_of};
ghost use Rattle.pe_records.specs.Structure.{address_width, number_in};

use pe_layout::Layout;
use pe_view::View;

/// The address at an offset, of 8 bytes in PE32+ and 4 in PE32, or `None` if it passes the end.
pub(crate) fn address_at(bytes: View, offset: u64, is_plus: bool) -> Option<u64>
    ensures { result ≡ number_in (address_width is_plus) (bytes_of bytes.entry) offset }
{
    if is_plus {
        return bytes.u64_at(offset);
    }
    bytes.u32_at(offset).map(u64::from)
}

/// The RVA that an address leads to, or `None` if it is not in the image.
pub(crate) fn rva_of(layout: &Layout, address: u64) -> Option<u32>
    ensures { result ≡ rva_of (image_of layout.now) address }
{
    let base = layout.image_base();
    if address < base {
        return None;
    }
    let offset = address - base;
    if offset >= u64::from(layout.size()) {
        return None;
    }
    Some(offset as u32)
}

/// Whether there is an address that leads to no byte of the image. 0 is none.
pub(crate) fn leads_nowhere(layout: &Layout, address: Option<u64>) -> bool
    ensures { result ≡ leads_nowhere (image_of layout.now) address }
{
    match address {
        None => false,
        Some(address) => address != 0 && rva_of(layout, address).is_none(),
    }
}

/// Whether there is an address that is neither in the image nor its end. 0 is none.
pub(crate) fn passes(layout: &Layout, address: Option<u64>) -> bool
    ensures { result ≡ passes (image_of layout.now) address }
{
    let base = layout.image_base();
    match address {
        None => false,
        Some(address) => {
            address != 0 && (address < base || address - base > u64::from(layout.size()))
        }
    }
}
