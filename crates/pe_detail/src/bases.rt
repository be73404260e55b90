//! The numbers of the faults of an image's base: 45 and 46.

ghost use Rattle.std.specs.Prelude.{◌≡◌};
ghost use Rattle.pe_layout.specs.Layout.{image_of};
ghost use Rattle.pe_detail.specs.FaultDetail.{base_detail};

use crate::detail::Detail;
use pe_layout::Layout;

/// The numbers of a fault of an image's base.
pub(crate) fn base_detail(layout: &Layout, number: u16) -> Option<Detail>
    ensures { result ≡ base_detail (image_of layout.now) number }
{
    match number {
        45 => Some(Detail::ImageSize(layout.size() as u64)),
        46 => Some(Detail::ImageBase(layout.image_base())),
        _ => None,
    }
}
