//! `lay_out` and `lay_out_file`: the engine of `petool layout`, which writes the laid-out image of a file.

ghost use Rattle.std.specs.Prelude.{◌-◌, ◌^◌, ◌<◌, ◌↔◌, IsErrOf};
ghost use Rattle.pe_layout_file.specs.ImageFile.{PutsImage, RanLayout};

use crate::image_writer::write_image;
use pe_layout::Layout;
use pe_text::{Failed, Sink, Source, ToolError, read_whole};
use pe_view::{Fault, View};
use std::alloc::Allocator;

/// What became of the laid-out image of a file.
#[derive(Clone, Copy, Debug, PartialEq, Eq)]
pub enum ImageFile {
    /// All its bytes were written.
    Written,
    /// It has more bytes than may be written: its size. Nothing was written.
    TooLarge(u32),
    /// The file has this fault, the first of faults 1 to 15. Nothing was written.
    Refused(Fault),
}

/// Writes the laid-out image of a file, unless it has more than `most` bytes: SizeOfImage bytes, those of the headers and of the
/// sections' raw data from the file, and 0 for all others.
///
/// Each piece of the file is written from where it stands, in the order of the RVAs; nothing is allocated. On the error the beginning
/// of the image was written. Condition: the writer has counted fewer than 2^64 - 1 failures so far.
pub fn lay_out<W: Sink>(file: &[u8], most: u64, writer: &mut W) -> Result<ImageFile, Failed>
    requires { W.failures writer.old < 2 ^ 64 - 1 }
    ensures { PutsImage most file.now (W.taken writer.old) (W.taken writer.new)
        (W.failures writer.old) (W.failures writer.new) result }
{
    pe_layout::laws::bytes_by_pieces();
    pe_layout::laws::sections_are_apart();
    let file = View::new(file);
    let layout = match Layout::new(file, 0) {
        Ok(layout) => layout,
        Err(fault) => return Ok(ImageFile::Refused(fault)),
    };
    if u64::from(layout.size()) > most {
        return Ok(ImageFile::TooLarge(layout.size()));
    }
    write_image(writer, &layout.headers(), file)?;
    Ok(ImageFile::Written)
}

/// Reads a whole file, and writes its laid-out image as [`lay_out`] does.
///
/// The file is read to its end, or to 2^32 + 1 bytes; what is held in memory is the file alone. On the error `Write` the beginning of
/// the image was written, on `Read` and `Memory` nothing; `Memory` never comes if the reader returned no byte. Condition: each device
/// has counted fewer than 2^64 - 1 failures so far.
pub fn lay_out_file<A: Allocator + Copy, R: Source, W: Sink>(
    alloc: A,
    reader: &mut R,
    most: u64,
    writer: &mut W,
) -> Result<ImageFile, ToolError>
    requires reads { R.failures reader.old < 2 ^ 64 - 1 }
    requires writes { W.failures writer.old < 2 ^ 64 - 1 }
    ensures ran { RanLayout most (R.given reader.old) (R.given reader.new)
        (W.taken writer.old) (W.taken writer.new) (R.ended reader.new) result }
    ensures read { IsErrOf result ToolError.Read ↔ (R.failures reader.old < R.failures reader.new) }
    ensures write { IsErrOf result ToolError.Write ↔ (W.failures writer.old < W.failures writer.new) }
{
    let file = read_whole(alloc, reader)?;
    match lay_out(&file, most, writer) {
        Ok(image) => Ok(image),
        Err(_) => Err(ToolError::Write),
    }
}
