//! Bytes of an open image: `petool_image_read`, `_read_text`, `_locate` and `_rebase`.

ghost use Rattle.std.specs.Prelude.{◌≡◌, ◌↔◌, false, length};
ghost use Rattle.pe_opened.specs.Held.{file_in};
ghost use Rattle.pe_records_c.specs.Images.{IsBytesOf, IsTextOf, IsOffsetOf, IsRebaseOf};

use crate::lending::with_image;
use pe_opened::ImageHandle;
use pe_records_c::fault::FaultRecord;
use pe_records_c::opened::{tell_bytes, tell_offset, tell_text};
use pe_records_c::opened_rebase::tell_rebased;
use pe_records_c::text::TextRecord;
use std::alloc::Global;

/// Fills a buffer with the bytes of an open image from an RVA on, as the file lays them out: raw data, or 0.
///
/// The status is 0; 3 if the bytes do not all lie inside the image; or 6 if it is closed. All but 0 leave the buffer unchanged.
/// Allocates nothing.
#[unsafe(no_mangle)]
pub extern "C" fn petool_image_read(
    alloc: Global,
    image: &mut ImageHandle,
    rva: u32,
    buffer: &mut [u8],
) -> u32
    ensures exact { IsBytesOf (file_in image.old.image) rva (length buffer.old) buffer.old buffer.new result }
    ensures closed { (result ≡ 6) ↔ (image.old.is_open ≡ false) }
    ensures image_kept { file_in image.new.image ≡ file_in image.old.image }
    ensures open_kept { image.new.is_open ≡ image.old.is_open }
{
    with_image!(alloc, image, |opened| tell_bytes(opened, rva, buffer))
}

/// The zero-terminated string at an RVA of an open image, without its zero byte, as a slice of the file.
///
/// The status is 0; 3 if the string does not end inside the headers or the section in which it begins, or begins past the image;
/// or 6 if the image is closed. All but 0 leave `text` unchanged. Allocates nothing.
#[unsafe(no_mangle)]
pub extern "C" fn petool_image_read_text(
    alloc: Global,
    image: &mut ImageHandle,
    rva: u32,
    text: &mut TextRecord<'static>,
) -> u32
    ensures exact { IsTextOf (file_in image.old.image) rva text.old text.new result }
    ensures closed { (result ≡ 6) ↔ (image.old.is_open ≡ false) }
    ensures image_kept { file_in image.new.image ≡ file_in image.old.image }
    ensures open_kept { image.new.is_open ≡ image.old.is_open }
{
    with_image!(alloc, image, |opened| tell_text(opened, rva, text))
}

/// The file offset of the byte at an RVA of an open image.
///
/// The status is 0; 3 if the file does not hold the byte, which lies in zero fill, in a gap, or past the image; or 6 if the image
/// is closed. All but 0 leave the offset unchanged. Allocates nothing.
#[unsafe(no_mangle)]
pub extern "C" fn petool_image_locate(
    alloc: Global,
    image: &mut ImageHandle,
    rva: u32,
    offset: &mut u64,
) -> u32
    ensures exact { IsOffsetOf (file_in image.old.image) rva offset.old offset.new result }
    ensures closed { (result ≡ 6) ↔ (image.old.is_open ≡ false) }
    ensures image_kept { file_in image.new.image ≡ file_in image.old.image }
    ensures open_kept { image.new.is_open ≡ image.old.is_open }
{
    with_image!(alloc, image, |opened| tell_offset(opened, rva, offset))
}

/// Writes the file of an open image for another base into a buffer of the file's length, as [`petool_rebase`](crate::rebase::petool_rebase)
/// does; the tables are not read again.
///
/// The status is 0; 1 with the first fault of the base (44 to 46) and of what cannot be written (51, 52); 2, out of memory; 5 if the
/// buffer does not have the file's length; or 6 if the image is closed. All but 0 leave the buffer unchanged.
#[unsafe(no_mangle)]
pub extern "C" fn petool_image_rebase(
    alloc: Global,
    image: &mut ImageHandle,
    base: u64,
    buffer: &mut [u8],
    fault: &mut FaultRecord,
) -> u32
    ensures exact { IsRebaseOf (file_in image.old.image) base buffer.old buffer.new fault.old fault.new result }
    ensures closed { image.old.is_open ≡ false → result ≡ 6 }
    ensures image_kept { file_in image.new.image ≡ file_in image.old.image }
    ensures open_kept { image.new.is_open ≡ image.old.is_open }
{
    with_image!(
        alloc,
        image,
        |opened| tell_rebased(alloc, opened, base, buffer, fault)
    )
}
