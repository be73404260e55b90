//! `View`: the bytes of a file, read by offset and never past their end.

ghost use Rattle.std.specs.Prelude.{◌≡◌, ◌+◌, ◌≤◌, ◌↔◌, IsSome, IfSome, SomeIff, IsTrue, option_map};
ghost use Rattle.pe_view.specs.View.{bytes_of, size_of};
ghost use Rattle.pe_view.specs.Number.{num, byte_of, part};
ghost use Rattle.pe_view.specs.Text.{text_between};

use bstr::ByteSlice;
use byteorder::{ByteOrder, LittleEndian};

/// The bytes of a whole file, read by offset and never past their end.
///
/// Offsets and lengths count bytes, and every `u64` is a valid argument: no sum overflows. No call allocates; slices that calls
/// return are parts of the file.
#[derive(Clone, Copy, Debug)]
pub struct View<'a> {
    bytes: &'a [u8],
}

impl<'a> View<'a> {
    /// The view of a file with these bytes.
    pub fn new(bytes: &'a [u8]) -> Self
        ensures { bytes_of result ≡ bytes.entry.now }
    {
        View { bytes }
    }

    /// The file's length in bytes.
    pub fn len(&self) -> u64
        ensures { result ≡ size_of self.now }
    {
        self.bytes.len() as u64
    }

    /// Whether the file is empty.
    pub fn is_empty(&self) -> bool
        ensures { IsTrue result ↔ (size_of self.now ≡ 0) }
    {
        self.bytes.is_empty()
    }

    /// The little-endian number in the 2 bytes at `offset`, or `None` if they pass the end.
    pub fn u16_at(&self, offset: u64) -> Option<u16>
        ensures { SomeIff result (offset + 2 ≤ size_of self.now) (num (byte_of (bytes_of self.now)) offset 2) }
    {
        let bytes = self.slice(offset, 2)?;
        Some(LittleEndian::read_u16(bytes))
    }

    /// The little-endian number in the 4 bytes at `offset`, or `None` if they pass the end.
    pub fn u32_at(&self, offset: u64) -> Option<u32>
        ensures { SomeIff result (offset + 4 ≤ size_of self.now) (num (byte_of (bytes_of self.now)) offset 4) }
    {
        let bytes = self.slice(offset, 4)?;
        Some(LittleEndian::read_u32(bytes))
    }

    /// The little-endian number in the 8 bytes at `offset`, or `None` if they pass the end.
    pub fn u64_at(&self, offset: u64) -> Option<u64>
        ensures { SomeIff result (offset + 8 ≤ size_of self.now) (num (byte_of (bytes_of self.now)) offset 8) }
    {
        let bytes = self.slice(offset, 8)?;
        Some(LittleEndian::read_u64(bytes))
    }

    /// The `len` bytes at `offset`, or `None` if they pass the end.
    pub fn slice(&self, offset: u64, len: u64) -> Option<&'a [u8]>
        ensures inside { IsSome result ↔ (offset + len ≤ size_of self.now) }
        ensures value { IfSome result (λ bytes. bytes.now ≡ part (bytes_of self.now) offset len) }
    {
        let size = self.len();
        if offset > size || len > size - offset {
            return None;
        }
        let start = offset as usize;
        Some(&self.bytes[start..start + len as usize])
    }

    /// The bytes from `offset` up to the first zero byte before `end`, or `None` if there is no such zero byte or `end` is past
    /// the end of the file.
    pub fn until_zero(&self, offset: u64, end: u64) -> Option<&'a [u8]>
        ensures { option_map (λ bytes. bytes.now) result ≡ text_between (bytes_of self.now) offset end }
    {
        if end < offset {
            return None;
        }
        let bytes = self.slice(offset, end - offset)?;
        let len = bytes.find_byte(0)?;
        Some(&bytes[..len])
    }
}
