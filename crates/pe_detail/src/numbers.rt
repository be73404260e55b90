//! The numbers of an image by RVA, and why an RVA has no string.

ghost use Rattle.std.specs.Prelude.{◌≡◌, ◌<◌, ◌^◌, IfSome};
ghost use Rattle.pe_layout.specs.Layout.{image_of};
ghost use Rattle.pe_detail.specs.Numbers.{number_in, past_image, no_text};

use crate::detail::Detail;
use pe_layout::Layout;

/// The number in the 2 bytes at an RVA, if they are in the image.
pub(crate) fn u16_in(layout: &Layout, rva: u64) -> Option<u64>
    ensures value { result ≡ number_in 2 (image_of layout.now) rva }
    ensures small { IfSome result (λ number. number < 2 ^ 16) }
{
    if rva > layout.size() as u64 {
        return None;
    }
    match layout.u16_at(rva as u32) {
        Some(number) => Some(number as u64),
        None => None,
    }
}

/// The number in the 4 bytes at an RVA, if they are in the image.
pub(crate) fn u32_in(layout: &Layout, rva: u64) -> Option<u64>
    ensures value { result ≡ number_in 4 (image_of layout.now) rva }
    ensures small { IfSome result (λ number. number < 2 ^ 32) }
{
    if rva > layout.size() as u64 {
        return None;
    }
    match layout.u32_at(rva as u32) {
        Some(number) => Some(number as u64),
        None => None,
    }
}

/// The number at an RVA in as many bytes as an import lookup entry has, if they are in the image.
pub(crate) fn entry_in(layout: &Layout, rva: u64) -> Option<u64>
    ensures { result ≡ number_in (image_of layout.now).slot_width (image_of layout.now) rva }
{
    if layout.slot_width() == 4 {
        return u32_in(layout, rva);
    }
    if rva > layout.size() as u64 {
        return None;
    }
    layout.u64_at(rva as u32)
}

/// Bytes that extend past the end of the image.
pub(crate) fn past_image(layout: &Layout, rva: u64, size: u64) -> Detail
    ensures { result ≡ past_image (image_of layout.now) rva size }
{
    Detail::PastImage {
        size,
        rva,
        image_end: layout.size() as u64,
    }
}

/// Why there is no string at an RVA: it is past the end of the image, or no zero byte follows.
pub(crate) fn no_text(layout: &Layout, rva: u64) -> Detail
    requires { rva < 2 ^ 32 }
    ensures { result ≡ no_text (image_of layout.now) rva }
{
    let image_end = layout.size() as u64;
    if rva >= image_end {
        return Detail::Outside { rva, image_end };
    }
    let left = layout.raw_bytes(rva as u32).len() as u64;
    Detail::Unended {
        rva,
        end: rva + left,
    }
}
