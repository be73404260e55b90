//! The bytes of headers, and of what stands between members.

ghost use Rattle.std.specs.Prelude.{◌≡◌, ◌+◌, ◌-◌, ◌%◌, ◌≤◌, ◌<◌, ◌^◌, ◌++◌, [], ◌∷◌, length, replicate, OnOk};
ghost use Rattle.std.specs.Fmt.{decimal};
ghost use Rattle.coff_library.specs.Written.{padded, header, header_fields, pad, name_text, record_of};

use crate::layout::is_long;
use itoa::Buffer;
use std::alloc::{AllocError, Allocator};

/// Adds blanks, at most sixteen.
fn push_blanks<A: Allocator>(bytes: &mut Vec<u8, A>, count: usize) -> Result<(), AllocError>
    requires { count ≤ 16 }
    ensures { OnOk result (bytes.new.items ≡ bytes.old.items ++ replicate count 32) }
{
    bytes.extend_from_slice(&[b' '; 16][..count])
}

/// Adds a text, filled up with blanks to a width.
#[tactic(auto, unfolding(crate::specs::Written::padded))]
fn push_padded<A: Allocator>(
    bytes: &mut Vec<u8, A>,
    text: &[u8],
    width: usize,
) -> Result<(), AllocError>
    requires fits { length text.now ≤ width }
    requires narrow { width ≤ 16 }
    ensures { OnOk result (bytes.new.items ≡ bytes.old.items ++ padded width text.now) }
{
    bytes.extend_from_slice(text)?;
    push_blanks(bytes, width - text.len())
}

/// Adds a number, filled up with blanks to ten digits.
fn push_size<A: Allocator>(bytes: &mut Vec<u8, A>, size: u64) -> Result<(), AllocError>
    requires { size < 2 ^ 32 }
    ensures { OnOk result (bytes.new.items ≡ bytes.old.items ++ padded 10 (decimal size)) }
{
    let mut buffer = Buffer::new();
    push_padded(bytes, buffer.format(size).as_bytes(), 10)
}

/// Adds the fields of a header behind its name field, for a member of a size.
#[tactic(auto, unfolding(crate::specs::Written::header_fields, crate::specs::Written::padded))]
fn push_fields<A: Allocator>(bytes: &mut Vec<u8, A>, size: u64) -> Result<(), AllocError>
    requires { size < 2 ^ 32 }
    ensures { OnOk result (bytes.new.items ≡ bytes.old.items ++ header_fields size) }
{
    bytes.extend_from_slice(b"0           0     0     644     ")?;
    push_size(bytes, size)?;
    bytes.extend_from_slice(b"`\n")
}

/// Adds a header with a text in its name field, and of a size.
#[tactic(auto, unfolding(crate::specs::Written::header))]
pub(crate) fn push_header<A: Allocator>(
    bytes: &mut Vec<u8, A>,
    name: &[u8],
    size: u64,
) -> Result<(), AllocError>
    requires name { length name.now ≤ 16 }
    requires size { size < 2 ^ 32 }
    ensures { OnOk result (bytes.new.items ≡ bytes.old.items ++ header name.now size) }
{
    push_padded(bytes, name, 16)?;
    push_fields(bytes, size)
}

/// Adds a line end behind a member of an odd size.
pub(crate) fn push_pad<A: Allocator>(bytes: &mut Vec<u8, A>, size: u64) -> Result<(), AllocError>
    ensures { OnOk result (bytes.new.items ≡ bytes.old.items ++ pad size) }
{
    if size % 2 == 0 {
        return Ok(());
    }
    bytes.extend_from_slice(b"\n")
}

/// Adds a name field that holds an offset of the member `//`.
#[tactic(auto, unfolding(crate::specs::Written::padded))]
fn push_offset<A: Allocator>(bytes: &mut Vec<u8, A>, offset: u64) -> Result<(), AllocError>
    requires { offset < 2 ^ 32 }
    ensures { OnOk result (bytes.new.items ≡ bytes.old.items ++ padded 16 (47 ∷ decimal offset)) }
{
    let mut buffer = Buffer::new();
    let digits = buffer.format(offset).as_bytes();
    bytes.extend_from_slice(b"/")?;
    bytes.extend_from_slice(digits)?;
    push_blanks(bytes, 15 - digits.len())
}

/// Adds a name field that holds a name.
#[tactic(auto, unfolding(crate::specs::Written::padded))]
fn push_short_name<A: Allocator>(bytes: &mut Vec<u8, A>, name: &[u8]) -> Result<(), AllocError>
    requires { length name.now ≤ 15 }
    ensures { OnOk result (bytes.new.items ≡ bytes.old.items ++ padded 16 (name.now ++ 47 ∷ [])) }
{
    bytes.extend_from_slice(name)?;
    bytes.extend_from_slice(b"/")?;
    push_blanks(bytes, 15 - name.len())
}

/// Adds the name field of a member, where the next long name stands at an offset of the member `//`.
fn push_name<A: Allocator>(bytes: &mut Vec<u8, A>, name: &[u8], next: u64) -> Result<(), AllocError>
    requires { next < 2 ^ 32 }
    ensures { OnOk result (bytes.new.items ≡ bytes.old.items ++ padded 16 (name_text next name.now)) }
{
    if is_long(name) {
        push_offset(bytes, next)
    } else {
        push_short_name(bytes, name)
    }
}

/// Adds a member, where the next long name stands at an offset of the member `//`.
#[tactic(auto, unfolding(crate::specs::Written::header))]
pub(crate) fn push_member<A: Allocator>(
    bytes: &mut Vec<u8, A>,
    name: &[u8],
    next: u64,
    contents: &[u8],
) -> Result<(), AllocError>
    requires next { next < 2 ^ 32 }
    requires size { length contents.now < 2 ^ 32 }
    ensures { OnOk result (bytes.new.items ≡ bytes.old.items ++ record_of (name_text next name.now) contents.now) }
{
    push_name(bytes, name, next)?;
    push_fields(bytes, contents.len() as u64)?;
    bytes.extend_from_slice(contents)?;
    push_pad(bytes, contents.len() as u64)
}
