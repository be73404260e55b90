//! `check_sum`: the CheckSum that an image's file is to have.

ghost use Rattle.std.specs.Prelude.{◌≡◌, ◌+◌, ◌*◌, ◌/◌, ◌^◌, ◌<◌, ◌≤◌, length};
ghost use Rattle.pe_view.specs.View.{bytes_of, size_of};
ghost use Rattle.pe_view.specs.Number.{num, byte_of};
ghost use Rattle.pe_trust.specs.CheckSum.{span, byte_without, four_at, folded, word_sum, check_sum_of};

use byteorder::{ByteOrder, LittleEndian};
use pe_head::Headers;
use pe_view::View;

/// The sum of the numbers in four bytes each, `count` of them from number `first` on.
fn sum_of_fours(bytes: &[u8], first: usize, count: usize) -> u64
    requires small { count ≤ 2 ^ 30 }
    requires inside { 4 * (first + count) ≤ length bytes.now }
    ensures value { result ≡ span (λ i. num (byte_of bytes.now) (4 * i) 4) first count }
    ensures fits { result + count ≤ 2 ^ 32 * count }
{
    let mut sum = 0;
    for i in 0..count {
        let at = 4 * (first + i);
        sum += u64::from(LittleEndian::read_u32(&bytes[at..at + 4]));
    }
    sum
}

/// The byte at an offset, and 0 in the field of four bytes and past the end.
pub(crate) fn byte_without(bytes: &[u8], field: u64, offset: u64) -> u64
    requires { field < 2 ^ 33 }
    ensures value { result ≡ byte_without bytes.now field offset }
    ensures fits { result < 256 }
{
    if field <= offset && offset < field + 4 {
        return 0;
    }
    match bytes.get(offset as usize) {
        Some(byte) => u64::from(*byte),
        None => 0,
    }
}

/// Number `index` of those in four bytes each, without the field.
fn four_without(bytes: &[u8], field: u64, index: usize) -> u64
    requires here { field < 2 ^ 33 }
    requires small { index < 2 ^ 33 }
    ensures value { result ≡ four_at bytes.now field index }
    ensures fits { result < 2 ^ 32 }
{
    let at = 4 * index as u64;
    let low = byte_without(bytes, field, at) + 256 * byte_without(bytes, field, at + 1);
    let high = byte_without(bytes, field, at + 2) + 256 * byte_without(bytes, field, at + 3);
    low + 65536 * high
}

/// The sum of a file's numbers in four bytes each, without the field and with zeros past the end.
fn sum_without(bytes: &[u8], field: u64) -> u64
    requires here { field < 2 ^ 33 }
    requires small { length bytes.now ≤ 2 ^ 32 }
    ensures value { result ≡ span (four_at bytes.now field) 0 (length bytes.now / 4 + 1) }
{
    let whole = bytes.len() / 4;
    let before = whole.min((field / 4) as usize);
    let behind = whole.min(before + 2);
    let mut sum = sum_of_fours(bytes, 0, before);
    for i in before..behind {
        sum += four_without(bytes, field, i);
    }
    sum += sum_of_fours(bytes, behind, whole - behind);
    sum + four_without(bytes, field, whole)
}

/// What a sum of 16-bit numbers comes to where each carry is added again.
fn fold(sum: u64) -> u64
    ensures value { result ≡ folded sum }
    ensures fits { result ≤ 65535 }
{
    if sum == 0 {
        return 0;
    }
    (sum - 1) % 65535 + 1
}

/// All bytes of a file.
pub(crate) fn all_bytes(file: View) -> &[u8]
    ensures { result.now ≡ bytes_of file.entry }
{
    let len = file.len();
    file.slice(0, len).unwrap()
}

/// The CheckSum that an image's file is to have, of a file of at most 2^32 bytes.
pub fn check_sum(file: View, headers: &Headers) -> u32
    requires { size_of file ≤ 2 ^ 32 }
    ensures { result ≡ check_sum_of (bytes_of file.entry) (headers.now.pe_offset + 88) }
{
    let bytes = all_bytes(file);
    let sum = fold(sum_without(bytes, u64::from(headers.pe_offset) + 88)) + file.len();
    (sum % 0x1_0000_0000) as u32
}
