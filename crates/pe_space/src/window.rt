//! Numbers written over windows of an image's bytes.

ghost use Rattle.std.specs.Prelude.{◌≡◌, ◌≤◌};
ghost use Rattle.pe_space.specs.Windows.{laid_on};

/// How many bytes before a byte a field or slot that covers it may begin, since both take at most 8 bytes.
pub(crate) const REACH: u32 = 7;

/// Writes the lowest `width` bytes of a number, which belong at RVA `place`, into a window of the bytes from RVA `start` on, as
/// far as they are inside it.
pub(crate) fn lay_on(window: &mut [u8], start: u32, place: u32, value: u64, width: usize)
    requires { width ≤ 8 }
    ensures { window.new ≡ laid_on start place width value window.old }
{
    let bytes = value.to_le_bytes();
    let (start, place) = (start as usize, place as usize);
    let first = start.max(place);
    let end = (start + window.len()).min(place + width);
    if first < end {
        window[first - start..end - start].copy_from_slice(&bytes[first - place..end - place]);
    }
}
