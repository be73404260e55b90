//! Texts and numbers in the fields of an archive.

ghost use Rattle.std.specs.Prelude.{◌≡◌, ◌==◌, ◌+◌, ◌^◌, ◌<◌, ◌≤◌, length, option_map, true, SomeIff, IfSome, Some, None, if◌then◌else◌};
ghost use Rattle.std.specs.List.{list_all};
ghost use Rattle.pe_view.specs.Text.{text_between};
ghost use Rattle.pe_view.specs.View.{bytes_of, size_of};
ghost use Rattle.coff_archive.specs.Bytes.{before, up_to, is_blank, is_digit, is_number, number_in, decimal, digits_value, big};

use bstr::ByteSlice;
use byteorder::{BigEndian, ByteOrder};
use pe_view::{View, laws};

/// The bytes before the first of a value, where one is.
pub(crate) fn before(bytes: &[u8], byte: u8) -> Option<&[u8]>
    ensures { option_map (λ text. text.now) result ≡ before (λ b. b == byte) bytes.now }
{
    let len = bytes.find_byte(byte)?;
    Some(&bytes[..len])
}

/// The bytes before the first blank, or all of them.
pub(crate) fn up_to_blank(bytes: &[u8]) -> &[u8]
    ensures value { result.now ≡ up_to is_blank bytes.now }
    ensures shorter { length result.now ≤ length bytes.now }
{
    match before(bytes, b' ') {
        Some(text) => text,
        None => bytes,
    }
}

/// Whether a byte is a digit of a radix.
pub(crate) fn is_digit(radix: u8, byte: u8) -> bool
    requires { radix ≤ 10 }
    ensures { result ≡ is_digit radix byte }
{
    byte >= b'0' && byte < b'0' + radix
}

/// The number that digits write.
fn digits_value(radix: u8, digits: &[u8]) -> u64
    requires radix { 1 ≤ radix }
    requires digits { list_all (is_digit radix) digits.now ≡ true }
    requires small { digits_value radix 0 digits.now < 2 ^ 64 }
    ensures { result ≡ digits_value radix 0 digits.now }
{
    let mut value = 0;
    for digit in digits {
        value = value * radix as u64 + u64::from(*digit - b'0');
    }
    value
}

/// Whether bytes are all digits of a radix.
fn all_digits(radix: u8, bytes: &[u8]) -> bool
    requires { radix ≤ 10 }
    ensures { result ≡ list_all (is_digit radix) bytes.now }
{
    bytes.iter().all(|byte| is_digit(radix, *byte))
}

/// Whether bytes are all blanks.
fn all_blank(bytes: &[u8]) -> bool
    ensures { result ≡ list_all is_blank bytes.now }
{
    bytes.iter().all(|byte| *byte == b' ')
}

/// The number that a field holds in digits of a radix, filled up with blanks.
pub(crate) fn number_in(radix: u8, field: &[u8]) -> Option<u64>
    requires radix { 1 ≤ radix }
    requires ten { radix ≤ 10 }
    requires short { length field.now ≤ 16 }
    ensures { result ≡ number_in radix field.now }
{
    let digits = up_to_blank(field);
    if digits.is_empty() {
        return None;
    }
    if !all_digits(radix, digits) {
        return None;
    }
    if !all_blank(&field[digits.len()..]) {
        return None;
    }
    Some(digits_value(radix, digits))
}

/// The number that a field holds in decimal digits, filled up with blanks.
pub(crate) fn decimal(field: &[u8]) -> Option<u64>
    requires { length field.now ≤ 16 }
    ensures { result ≡ decimal field.now }
{
    number_in(10, field)
}

/// The bytes from an offset up to the first zero byte before an end.
pub(crate) fn text_in<'a>(view: View<'a>, offset: u64, end: u64) -> Option<&'a [u8]>
    ensures value { option_map (λ text. text.now) result ≡ text_between (bytes_of view.entry) offset end }
    ensures inside { IfSome result (λ text. offset + length text.now < end) }
{
    laws::texts_are_parts();
    view.until_zero(offset, end)
}

/// The number in the 4 bytes at an offset, the highest byte first.
pub(crate) fn big_at(view: View, offset: u64) -> Option<u32>
    ensures { SomeIff result (offset + 4 ≤ size_of view.entry) (big (bytes_of view.entry) offset) }
{
    let bytes = view.slice(offset, 4)?;
    Some(BigEndian::read_u32(bytes))
}
