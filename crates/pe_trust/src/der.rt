//! `first_element`: the first element of bytes in DER.

ghost use Rattle.std.specs.Prelude.{◌≡◌, ◌+◌, ◌*◌, ◌^◌, ◌<◌, ◌≤◌, length, option_map};
ghost use Rattle.pe_trust.specs.Der.{element_of, long_element, sized_element};
ghost use Rattle.pe_trust.specs.DerView.{element_view};

use byteorder::{BigEndian, ByteOrder};

/// An element, and the bytes behind it.
#[derive(Clone, Copy)]
pub(crate) struct Element<'a> {
    pub(crate) tag: u8,
    pub(crate) content: &'a [u8],
    pub(crate) rest: &'a [u8],
}

/// The element with this tag and a content of this size, if there are as many bytes.
fn sized_element(tag: u8, size: u64, behind: &[u8]) -> Option<Element>
    ensures { option_map element_view result ≡ sized_element tag size behind.now }
{
    if size > behind.len() as u64 {
        return None;
    }
    let (content, rest) = behind.split_at(size as usize);
    Some(Element { tag, content, rest })
}

/// The element whose length has bytes of its own.
fn long_element(tag: u8, count: u8, behind: &[u8]) -> Option<Element>
    ensures { option_map element_view result ≡ long_element tag count behind.now }
{
    let count = usize::from(count);
    if count < 1 || count > 4 || count > behind.len() {
        return None;
    }
    let (digits, behind) = behind.split_at(count);
    sized_element(tag, BigEndian::read_uint(digits, count), behind)
}

/// The first element, or `None` if its tag has more than one byte, its length is indefinite or has more than 4 bytes, or its content
/// passes the end.
pub(crate) fn first_element(bytes: &[u8]) -> Option<Element>
    ensures { option_map element_view result ≡ element_of bytes.now }
{
    let (tag, behind) = bytes.split_first()?;
    let (first, behind) = behind.split_first()?;
    if tag % 32 == 31 {
        return None;
    }
    if *first < 128 {
        return sized_element(*tag, u64::from(*first), behind);
    }
    long_element(*tag, *first - 128, behind)
}
