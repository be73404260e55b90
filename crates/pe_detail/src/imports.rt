//! The numbers of the faults of imports: 24 to 32.

ghost use Rattle.std.specs.Prelude.{◌≡◌, ◌<◌, ◌^◌};
ghost use Rattle.pe_layout.specs.Layout.{image_of};
ghost use Rattle.pe_detail.specs.ImportDetail.{module_detail, name_detail, bits_detail, stamp_detail, import_detail};

use crate::detail::Detail;
use crate::numbers::{entry_in, no_text, past_image, u32_in};
use pe_layout::Layout;

/// The most imports of an image.
const IMPORT_LIMIT: u64 = 1_048_576;

/// The size of an import directory entry in bytes.
const DESCRIPTOR_LEN: u64 = 20;

/// The numbers of fault 25.
fn module_detail(layout: &Layout, at: u64) -> Option<Detail>
    ensures { result ≡ module_detail (image_of layout.now) at }
{
    let rva = u32_in(layout, at)?;
    Some(no_text(layout, rva))
}

/// The numbers of fault 27.
fn name_detail(layout: &Layout, at: u64) -> Option<Detail>
    ensures { result ≡ name_detail (image_of layout.now) at }
{
    let value = entry_in(layout, at)?;
    Some(no_text(layout, value % 0x8000_0000 + 2))
}

/// The numbers of fault 28.
fn bits_detail(layout: &Layout, at: u64) -> Option<Detail>
    ensures { result ≡ bits_detail (image_of layout.now) at }
{
    let value = entry_in(layout, at)?;
    Some(Detail::HighBits(value / 0x8000_0000))
}

/// The numbers of fault 32.
fn stamp_detail(layout: &Layout, at: u64) -> Option<Detail>
    requires { at < 2 ^ 32 }
    ensures { result ≡ stamp_detail (image_of layout.now) at }
{
    let stamp = u32_in(layout, at + 4)?;
    Some(Detail::TimeStamp(stamp))
}

/// The numbers of a fault of the imports at an RVA.
pub(crate) fn import_detail(layout: &Layout, number: u16, at: u64) -> Option<Detail>
    requires { at < 2 ^ 32 }
    ensures { result ≡ import_detail (image_of layout.now) number at }
{
    match number {
        24 => Some(past_image(layout, at, DESCRIPTOR_LEN)),
        25 => module_detail(layout, at),
        26 => Some(past_image(layout, at, layout.slot_width() as u64)),
        27 => name_detail(layout, at),
        28 => bits_detail(layout, at),
        31 => Some(Detail::Limit {
            count: IMPORT_LIMIT + 1,
            limit: IMPORT_LIMIT,
        }),
        32 => stamp_detail(layout, at),
        _ => None,
    }
}
