//! `bitmap_file`: a bitmap as a file, with the header that its resource leaves out.

ghost use Rattle.std.specs.Prelude.{◌≡◌, ◌^◌, ◌≤◌, ◌<◌, IfOk, option_map};
ghost use Rattle.pe_view.specs.View.{bytes_of, size_of};
ghost use Rattle.pe_resource_files.specs.Bitmap.{colours_of, colour_count, masks_len, pixels_start, bitmap_file};
ghost use Rattle.pe_resource_files.specs.File.{pieces_of};

use crate::file::{ResourceFile, parts_of_one};
use pe_numbers::Number::{U16, U32};
use pe_numbers::push_record;
use pe_view::View;
use std::alloc::{AllocError, Allocator};

/// How many bytes the header of the file has.
const FILE_HEADER_LEN: u32 = 14;

/// How many bytes BITMAPCOREHEADER has.
const CORE_LEN: u32 = 12;

/// How many bytes BITMAPINFOHEADER has; the headers that came after it are longer.
const INFO_LEN: u32 = 40;

/// How many colours there are for so many bits a pixel, if these have a table.
fn colours_of(bits: u16) -> u32
    ensures value { result ≡ colours_of bits }
    ensures few { result ≤ 2 ^ 8 }
{
    match bits {
        1..=8 => 1 << bits,
        _ => 0,
    }
}

/// How many colours the table of a bitmap has, by a header of at least 40 bytes.
fn colour_count(bytes: View) -> u32
    requires { 40 ≤ size_of bytes }
    ensures { result ≡ colour_count (bytes_of bytes.entry) }
{
    match bytes.u32_at(32).unwrap() {
        0 => colours_of(bytes.u16_at(14).unwrap()),
        used => used,
    }
}

/// How many bytes of masks come after a header of at least 40 bytes.
fn masks_len(bytes: View) -> u32
    requires { 40 ≤ size_of bytes }
    ensures value { result ≡ masks_len (bytes_of bytes.entry) }
    ensures few { result ≤ 16 }
{
    match (bytes.u32_at(0).unwrap(), bytes.u32_at(16).unwrap()) {
        (INFO_LEN, 3) => 12,
        (INFO_LEN, 6) => 16,
        _ => 0,
    }
}

/// Where the pixels of a bitmap begin in its resource, unless this has no header that is known.
fn pixels_start(bytes: View) -> Option<u64>
    ensures { result ≡ pixels_start (bytes_of bytes.entry) }
{
    if bytes.len() < u64::from(CORE_LEN) {
        return None;
    }
    let header = bytes.u32_at(0)?;
    if header == CORE_LEN {
        let colours = colours_of(bytes.u16_at(10)?);
        return Some(u64::from(CORE_LEN + 3 * colours));
    }
    if bytes.len() < u64::from(INFO_LEN) || header < INFO_LEN {
        return None;
    }
    Some(u64::from(header) + u64::from(masks_len(bytes)) + 4 * u64::from(colour_count(bytes)))
}

/// A bitmap as a file, unless its resource has no header that is known, or ends before the pixels.
pub(crate) fn bitmap_file<'a, A: Allocator + Copy>(
    alloc: A,
    bytes: &'a [u8],
) -> Result<Option<ResourceFile<'a, A>>, AllocError>
    ensures { IfOk result (λ file. option_map pieces_of file ≡ bitmap_file bytes.now) }
{
    let view = View::new(bytes);
    let Some(start) = pixels_start(view) else {
        return Ok(None);
    };
    if start > view.len() || view.len() >= u64::from(u32::MAX - FILE_HEADER_LEN) + 1 {
        return Ok(None);
    }
    let mut front = Vec::new(alloc);
    push_record::<14, A>(
        &mut front,
        &[
            U16(0x4d42),
            U32(FILE_HEADER_LEN + bytes.len() as u32),
            U32(0),
            U32(FILE_HEADER_LEN + start as u32),
        ],
    )?;
    Ok(Some(ResourceFile {
        front,
        parts: parts_of_one(alloc, bytes)?,
    }))
}
