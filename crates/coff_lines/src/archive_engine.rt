//! `dump_archive`: the engine of `petool archive`, which writes an archive's dump.

ghost use Rattle.std.specs.Prelude.{◌-◌, ◌^◌, ◌<◌, ◌↔◌, length, IsErrOf};
ghost use Rattle.pe_text.specs.Engine.{Puts, Ran};
ghost use Rattle.coff_lines.specs.ArchiveLines.{IsArchiveText, outcome_by};

use crate::archive_lines::write_archive;
use crate::member_faults::outcome_by;
use coff_archive::open_archive;
use pe_text::{
    Outcome, Report, Sink, Source, TextWriter, ToolError, refuse, run_report, write_report,
};
use std::alloc::{AllocError, Allocator};

/// The report of [`dump_archive`]: the dump of an archive, or why the file is refused as a whole.
struct DumpArchive;

impl Report for DumpArchive {
    ghost is_text = { IsArchiveText };

    fn write<A: Allocator + Copy, W: Sink>(
        &self,
        _alloc: A,
        text: &mut TextWriter<W>,
        file: &[u8],
    ) -> Result<Outcome, AllocError> {
        match open_archive(file) {
            Ok(archive) => Ok(outcome_by(write_archive(text, &archive))),
            Err(fault) => Ok(refuse(text, fault)),
        }
    }
}

/// Writes a line for each member of an archive of COFF objects ("PE Format", Archive (Library) File Format), and after it what
/// [`dump_object`](crate::dump_object) writes of the member, or the line of a short import object.
///
/// A file that is too large or begins with no archive's signature is refused by fault 1 or 300. Otherwise the outcome is the first of
/// findings 301 to 304, 307 and 331 to 333 of all members; the dump goes on after it, but for 301 to 303, after which no member can be
/// found. It takes the time of the objects, and of an object that is no import object one pass more over its tables for its faults.
///
/// The file is read to its end, or to 2^32 + 1 bytes. Memory is allocated only for the file's bytes. On the error `Write` the beginning
/// of the text was written, on `Read` and `Memory` nothing; `Memory` never comes if the reader returned no byte. Condition: each device
/// has counted fewer than 2^64 - 1 failures so far.
pub fn dump_archive<A: Allocator + Copy, R: Source, W: Sink>(
    alloc: A,
    reader: &mut R,
    writer: &mut W,
) -> Result<Outcome, ToolError>
    requires reads { R.failures reader.old < 2 ^ 64 - 1 }
    requires writes { W.failures writer.old < 2 ^ 64 - 1 }
    ensures ran { Ran IsArchiveText (R.given reader.old) (R.given reader.new)
        (W.taken writer.old) (W.taken writer.new) (R.ended reader.new) result }
    ensures read { IsErrOf result ToolError.Read ↔ (R.failures reader.old < R.failures reader.new) }
    ensures write { IsErrOf result ToolError.Write ↔ (W.failures writer.old < W.failures writer.new) }
{
    run_report(&DumpArchive, alloc, reader, writer)
}

/// The output of [`dump_archive`] for a file that was read whole, and that its caller keeps. On the error `Write` the beginning of the
/// output was written, on `Memory` nothing; `Read` never comes, and `Memory` not for an empty file. Condition: the writer has counted
/// fewer than 2^64 - 1 failures so far.
pub fn archive_text<A: Allocator + Copy, W: Sink>(
    alloc: A,
    file: &[u8],
    writer: &mut W,
) -> Result<Outcome, ToolError>
    requires { W.failures writer.old < 2 ^ 64 - 1 }
    ensures puts { Puts (IsArchiveText file.now) (W.taken writer.old) (W.taken writer.new)
        (W.failures writer.old) (W.failures writer.new) result }
    ensures memory { IsErrOf result ToolError.Memory → 0 < length file.now }
{
    write_report(&DumpArchive, alloc, writer, file)
}
