//! Addresses of an image that is at its ImageBase.

ghost use Rattle.std.specs.Prelude.{◌≡◌, ◌<◌, ◌^◌, IfSome};
ghost use Rattle.pe_layout.specs.Layout.{image_of};
ghost use Rattle.pe_records.specs.Address.{rva_of};

use pe_layout::Layout;

/// The RVA that an address leads to, or `None` if it is not in the image.
pub(crate) fn rva_of(layout: &Layout, address: u64) -> Option<u32>
    ensures rva { result ≡ rva_of (image_of layout.now) address }
    ensures small { IfSome result (λ rva. rva < 2 ^ 31) }
{
    let base = layout.image_base();
    if address < base {
        return None;
    }
    let offset = address - base;
    if offset >= u64::from(layout.size()) {
        return None;
    }
    Some(offset as u32)
}
