//! `write_image_parts`: the bytes of an image, of which the raw data of sections are read as they are written.

ghost use Rattle.std.specs.Prelude.{◌≡◌, ◌+◌, ◌-◌, ◌^◌, ◌<◌, ◌≤◌, ◌++◌, IfOk, false, length, replicate, take};
ghost use Rattle.pe_view.specs.Number.{part};
ghost use Rattle.pe_head.specs.Section.{rawlen};
ghost use Rattle.pe_layout.specs.Plain.{plain_bytes};
ghost use Rattle.pe_reach.specs.PartsRead.{BeginAll, EndsEarly};
ghost use Rattle.pe_layout_file.specs.ByParts.{CountsBy, Moves, WritesOf};
ghost use Rattle.pe_layout_file.specs.Pieces.{BeginsWith, IsHeld, LiesInEach};

use crate::copying::copy_range;
use crate::zeros::write_zeros;
use pe_head::{Headers, SectionHeader};
use pe_reach::PartSource;
use pe_text::{Sink, ToolError, write_all};

/// Writes the zero bytes from an RVA on up to a section, and then its raw data. Returns whether the file has all of these.
fn write_section_parts<R: PartSource, W: Sink>(
    reader: &mut R,
    section: &SectionHeader,
    rva: u32,
    buffer: &mut [u8],
    writer: &mut W,
) -> Result<bool, ToolError>
    requires reads { R.failures reader.old < 2 ^ 64 - 1 }
    requires writes { W.failures writer.old < 2 ^ 64 - 1 }
    requires room { 0 < length buffer.old }
    requires behind { rva ≤ section.now.virtual_address }
    ensures copies { Moves (R.parts reader.old) (R.parts reader.new) (W.taken writer.old) (W.taken writer.new)
        (WritesOf (λ file. IsHeld (length file) section.now)
        (λ file. replicate (section.now.virtual_address - rva) 0 ++ part file section.now.pointer_to_raw_data (rawlen section.now)) result) }
    ensures counts { CountsBy (R.failures reader.old) (R.failures reader.new)
        (W.failures writer.old) (W.failures writer.new) result }
    ensures early { IfOk result (λ has_all. has_all ≡ false → (0 < rawlen section.now)
        × EndsEarly (section.now.pointer_to_raw_data + rawlen section.now) (R.parts reader.old) (R.parts reader.new)) }
    ensures room { length buffer.new ≡ length buffer.old }
{
    if write_zeros(writer, section.virtual_address - rva).is_err() {
        return Err(ToolError::Write);
    }
    copy_range(
        reader,
        section.pointer_to_raw_data,
        section.rawlen(),
        buffer,
        writer,
    )
}

/// Writes the bytes of the image of a file of `len` bytes which has these headers, and whose first bytes are those of the buffer.
/// Returns whether the file has all raw data; otherwise a beginning of the image was written.
pub(crate) fn write_image_parts<R: PartSource, W: Sink>(
    reader: &mut R,
    len: u64,
    headers: &Headers,
    buffer: &mut [u8],
    writer: &mut W,
) -> Result<bool, ToolError>
    requires reads { R.failures reader.old < 2 ^ 64 - 1 }
    requires writes { W.failures writer.old < 2 ^ 64 - 1 }
    requires room { 4096 ≤ length buffer.old }
    requires begins { BeginAll len headers.now (take 4096 buffer.old) }
    requires lies { LiesInEach len headers.now (take 4096 buffer.old) }
    ensures copies { Moves (R.parts reader.old) (R.parts reader.new) (W.taken writer.old) (W.taken writer.new)
        (WritesOf (BeginsWith len (take 4096 buffer.old)) (λ file. plain_bytes headers.now file 0 headers.now.size_of_image) result) }
    ensures counts { CountsBy (R.failures reader.old) (R.failures reader.new)
        (W.failures writer.old) (W.failures writer.new) result }
    ensures early { IfOk result (λ has_all. has_all ≡ false → EndsEarly len (R.parts reader.old) (R.parts reader.new)) }
{
    let header_bytes = headers.size_of_headers as usize;
    if write_all(writer, &buffer[..header_bytes]).is_err() {
        return Err(ToolError::Write);
    }
    let mut rva = headers.size_of_headers;
    for section in headers.sections.as_slice() {
        if !write_section_parts(reader, section, rva, buffer, writer)? {
            return Ok(false);
        }
        rva = section.virtual_address + section.rawlen();
    }
    match write_zeros(writer, headers.size_of_image - rva) {
        Ok(()) => Ok(true),
        Err(_) => Err(ToolError::Write),
    }
}
