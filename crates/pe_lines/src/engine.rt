//! `check` and `dump`: the engines that check an image, and that write its dump.

ghost use Rattle.std.specs.Prelude.{◌-◌, ◌^◌, ◌<◌, ◌↔◌, length, IsErrOf};
ghost use Rattle.pe_text.specs.Engine.{Puts, Ran};
ghost use Rattle.pe_lines.specs.Reports.{IsCheckText, IsDumpText};

use crate::dump_lines::write_dump;
use crate::format::write_accepted_line;
use pe_image::read_image;
use pe_tables::TableError;
use pe_text::{
    Outcome, Report, Sink, Source, TextWriter, ToolError, refuse, run_report, write_report,
};
use std::alloc::{AllocError, Allocator};

/// The report of [`check`]: the line of an accepted image, or its first fault.
pub(crate) struct CheckReport;

impl Report for CheckReport {
    ghost is_text = { IsCheckText };

    fn write<A: Allocator + Copy, W: Sink>(
        &self,
        alloc: A,
        text: &mut TextWriter<W>,
        file: &[u8],
    ) -> Result<Outcome, AllocError> {
        match read_image(alloc, file, 0) {
            Ok(image) => {
                write_accepted_line(text, &image.layout.headers());
                Ok(Outcome::Done)
            }
            Err(TableError::Fault(fault)) => Ok(refuse(text, fault)),
            Err(TableError::Memory) => Err(AllocError),
        }
    }
}

/// The report of [`dump`]: the content of an accepted image, or its first fault.
pub(crate) struct DumpReport;

impl Report for DumpReport {
    ghost is_text = { IsDumpText };

    fn write<A: Allocator + Copy, W: Sink>(
        &self,
        alloc: A,
        text: &mut TextWriter<W>,
        file: &[u8],
    ) -> Result<Outcome, AllocError> {
        match read_image(alloc, file, 0) {
            Ok(image) => {
                write_dump(
                    text,
                    &image.layout.headers(),
                    &image.exports,
                    &image.imports,
                    &image.fixups,
                );
                Ok(Outcome::Done)
            }
            Err(TableError::Fault(fault)) => Ok(refuse(text, fault)),
            Err(TableError::Memory) => Err(AllocError),
        }
    }
}

/// Checks the image whose file comes from the reader, and writes one line: `accepted PE32 sections N` (or `PE32+`), or the image's
/// first fault.
///
/// The file is read to its end, or to 2^32 + 1 bytes; the line is written only after all faults were tested. On the error `Write`
/// the beginning of the line was written, on `Read` and `Memory` nothing; `Memory` never comes if the reader returned no byte.
/// Condition: each device has counted fewer than 2^64 - 1 failures so far.
pub fn check<A: Allocator + Copy, R: Source, W: Sink>(
    alloc: A,
    reader: &mut R,
    writer: &mut W,
) -> Result<Outcome, ToolError>
    requires reads { R.failures reader.old < 2 ^ 64 - 1 }
    requires writes { W.failures writer.old < 2 ^ 64 - 1 }
    ensures ran { Ran IsCheckText (R.given reader.old) (R.given reader.new)
        (W.taken writer.old) (W.taken writer.new) (R.ended reader.new) result }
    ensures read { IsErrOf result ToolError.Read ↔ (R.failures reader.old < R.failures reader.new) }
    ensures write { IsErrOf result ToolError.Write ↔ (W.failures writer.old < W.failures writer.new) }
{
    run_report(&CheckReport, alloc, reader, writer)
}

/// Writes a line for each header field, directory, section, export, import and base relocation of an image, or the image's first
/// fault; in all else like [`check`].
pub fn dump<A: Allocator + Copy, R: Source, W: Sink>(
    alloc: A,
    reader: &mut R,
    writer: &mut W,
) -> Result<Outcome, ToolError>
    requires reads { R.failures reader.old < 2 ^ 64 - 1 }
    requires writes { W.failures writer.old < 2 ^ 64 - 1 }
    ensures ran { Ran IsDumpText (R.given reader.old) (R.given reader.new)
        (W.taken writer.old) (W.taken writer.new) (R.ended reader.new) result }
    ensures read { IsErrOf result ToolError.Read ↔ (R.failures reader.old < R.failures reader.new) }
    ensures write { IsErrOf result ToolError.Write ↔ (W.failures writer.old < W.failures writer.new) }
{
    run_report(&DumpReport, alloc, reader, writer)
}

/// The output of [`check`] for a file that was read whole, and that its caller keeps. On the error `Write` the beginning of the
/// output was written, on `Memory` nothing; `Read` never comes, and `Memory` not for an empty file. Condition: the writer has counted
/// fewer than 2^64 - 1 failures so far.
pub fn check_text<A: Allocator + Copy, W: Sink>(
    alloc: A,
    file: &[u8],
    writer: &mut W,
) -> Result<Outcome, ToolError>
    requires { W.failures writer.old < 2 ^ 64 - 1 }
    ensures puts { Puts (IsCheckText file.now) (W.taken writer.old) (W.taken writer.new)
        (W.failures writer.old) (W.failures writer.new) result }
    ensures memory { IsErrOf result ToolError.Memory → 0 < length file.now }
{
    write_report(&CheckReport, alloc, writer, file)
}

/// The output of [`dump`] for a file that was read whole, and that its caller keeps. On the error `Write` the beginning of the
/// output was written, on `Memory` nothing; `Read` never comes, and `Memory` not for an empty file. Condition: the writer has counted
/// fewer than 2^64 - 1 failures so far.
pub fn dump_text<A: Allocator + Copy, W: Sink>(
    alloc: A,
    file: &[u8],
    writer: &mut W,
) -> Result<Outcome, ToolError>
    requires { W.failures writer.old < 2 ^ 64 - 1 }
    ensures puts { Puts (IsDumpText file.now) (W.taken writer.old) (W.taken writer.new)
        (W.failures writer.old) (W.failures writer.new) result }
    ensures memory { IsErrOf result ToolError.Memory → 0 < length file.now }
{
    write_report(&DumpReport, alloc, writer, file)
}
