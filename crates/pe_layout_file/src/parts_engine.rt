//! `lay_out_parts`: the laid-out image of a file of a known size, of which no more is read than is written.

ghost use Rattle.std.specs.Prelude.{◌-◌, ◌^◌, ◌<◌, ◌≤◌, IfNone, IfOk, IsErrOf};
ghost use Rattle.pe_reach.specs.PartsRead.{AreNotRead};
ghost use Rattle.pe_layout_file.specs.ByParts.{FailsByParts, Moves, WritesByParts};

use crate::engine::ImageFile;
use crate::parts_writer::write_image_parts;
use pe_reach::{Beginning, PartSource, read_beginning};
use pe_text::{Sink, ToolError};
use std::alloc::Allocator;

/// How many bytes are read and written at a time.
const BUFFER: usize = 1 << 16;

/// Writes the laid-out image of a file of `len` bytes as [`crate::lay_out`] does. The first 4,096 bytes of the file are read, and then
/// the raw data of each section when it is written, at most 65,536 bytes at a time; no more is held in memory.
///
/// `None` if the file has fewer than 65,536 bytes, or ends before its first 4,096 bytes do, or these have not all headers, or it has
/// one of faults 1 to 15: it must be read another way then, and nothing was written. So it is never [`ImageFile::Refused`].
///
/// On the error `Write` a beginning of the image was written, on `Memory` nothing; on `Read` a beginning or nothing. `Read` also comes
/// if the file ends before it should; `Memory` only if it has 65,536 bytes. Condition: each device has counted fewer than 2^64 - 1
/// failures so far.
pub fn lay_out_parts<A: Allocator + Copy, R: PartSource, W: Sink>(
    alloc: A,
    reader: &mut R,
    len: u64,
    most: u64,
    writer: &mut W,
) -> Result<Option<ImageFile>, ToolError>
    requires reads { R.failures reader.old < 2 ^ 64 - 1 }
    requires writes { W.failures writer.old < 2 ^ 64 - 1 }
    ensures image { Moves (R.parts reader.old) (R.parts reader.new) (W.taken writer.old) (W.taken writer.new) (WritesByParts most len result) }
    ensures counts { FailsByParts len (R.parts reader.old) (R.parts reader.new) (R.failures reader.old) (R.failures reader.new)
        (W.failures writer.old) (W.failures writer.new) result }
    ensures left { IfOk result (λ image. IfNone image (AreNotRead len (R.parts reader.old) (R.parts reader.new))) }
    ensures memory { IsErrOf result ToolError.Memory → 2 ^ 16 ≤ len }
{
    pe_layout::laws::bytes_by_pieces();
    pe_layout::laws::sections_are_apart();
    let Some(Beginning { headers, bytes }) = read_beginning(alloc, reader, len)? else {
        return Ok(None);
    };
    if u64::from(headers.size_of_image) > most {
        return Ok(Some(ImageFile::TooLarge(headers.size_of_image)));
    }
    let mut buffer = bytes;
    if buffer.resize(BUFFER, 0).is_err() {
        return Err(ToolError::Memory);
    }
    if !write_image_parts(reader, len, &headers, &mut buffer, writer)? {
        return Err(ToolError::Read);
    }
    Ok(Some(ImageFile::Written))
}
