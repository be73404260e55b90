//! `copy_range`: bytes of a source, written as they are read.

ghost use Rattle.std.specs.Prelude.{◌≡◌, ◌+◌, ◌-◌, ◌^◌, ◌<◌, ◌≤◌, IfOk, false, length};
ghost use Rattle.pe_view.specs.Number.{part};
ghost use Rattle.pe_reach.specs.PartsRead.{EndsEarly};
ghost use Rattle.pe_layout_file.specs.ByParts.{CountsBy, Moves, WritesOf};
ghost use Rattle.pe_layout_file.specs.Copied.{CopiesPiece};

use pe_reach::PartSource;
use pe_text::{Sink, ToolError, write_all};

/// Reads bytes at a file offset into the beginning of the buffer, and writes them. Returns how many there were; 0, for a non-empty
/// buffer, says that the file ends there or before.
fn copy_piece<R: PartSource, W: Sink>(
    reader: &mut R,
    offset: u64,
    buffer: &mut [u8],
    writer: &mut W,
) -> Result<usize, ToolError>
    requires reads { R.failures reader.old < 2 ^ 64 - 1 }
    requires writes { W.failures writer.old < 2 ^ 64 - 1 }
    ensures copies { CopiesPiece offset (length buffer.new) (R.parts reader.old) (R.parts reader.new)
        (W.taken writer.old) (W.taken writer.new) result }
    ensures counts { CountsBy (R.failures reader.old) (R.failures reader.new)
        (W.failures writer.old) (W.failures writer.new) result }
{
    let Ok(count) = reader.read_at(offset, buffer) else {
        return Err(ToolError::Read);
    };
    match write_all(writer, &buffer[..count]) {
        Ok(()) => Ok(count),
        Err(_) => Err(ToolError::Write),
    }
}

/// Writes the `count` bytes of a file from an offset on, as many at a time as the buffer has room for. Returns whether the file has
/// all of them; otherwise those that it has were written.
pub(crate) fn copy_range<R: PartSource, W: Sink>(
    reader: &mut R,
    offset: u32,
    count: u32,
    buffer: &mut [u8],
    writer: &mut W,
) -> Result<bool, ToolError>
    requires reads { R.failures reader.old < 2 ^ 64 - 1 }
    requires writes { W.failures writer.old < 2 ^ 64 - 1 }
    requires room { 0 < length buffer.old }
    ensures copies { Moves (R.parts reader.old) (R.parts reader.new) (W.taken writer.old) (W.taken writer.new)
        (WritesOf (λ file. 0 < count → offset + count ≤ length file) (λ file. part file offset count) result) }
    ensures counts { CountsBy (R.failures reader.old) (R.failures reader.new)
        (W.failures writer.old) (W.failures writer.new) result }
    ensures early { IfOk result (λ has_all. has_all ≡ false → (0 < count) × EndsEarly (offset + count) (R.parts reader.old) (R.parts reader.new)) }
    ensures room { length buffer.new ≡ length buffer.old }
{
    let start = u64::from(offset);
    let mut done = 0;
    while done < count {
        let len = buffer.len().min((count - done) as usize);
        let more = copy_piece(reader, start + done as u64, &mut buffer[..len], writer)?;
        if more == 0 {
            return Ok(false);
        }
        done += more as u32;
    }
    Ok(true)
}
