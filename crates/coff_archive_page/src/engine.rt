//! `show_archive`: the engine of `petool show` for archives, which writes the page of an archive.

ghost use Rattle.std.specs.Prelude.{◌-◌, ◌^◌, ◌<◌, ◌↔◌, length, IsErrOf};
ghost use Rattle.pe_text.specs.Engine.{Puts, Ran};
ghost use Rattle.coff_archive_page.specs.ArchiveJudged.{IsArchiveJudged};

use crate::page_rows::show_file;
use pe_page::Page;
use pe_text::{Outcome, Report, Sink, Source, TextWriter, ToolError, run_report, write_report};
use std::alloc::{AllocError, Allocator};

/// The report that the page of an archive is.
#[derive(Drop)]
struct ArchivePage<'p>(Page<'p>);

impl<'p> Report for ArchivePage<'p> {
    ghost is_text = { IsArchiveJudged };

    fn write<A: Allocator + Copy, W: Sink>(
        &self,
        alloc: A,
        text: &mut TextWriter<W>,
        file: &[u8],
    ) -> Result<Outcome, AllocError> {
        show_file(alloc, &self.0, text, file)
    }
}

/// Writes a readable page on the archive of COFF objects whose file comes from the reader: how many members and symbols it has, a row
/// for each member, the symbols of its linker member under the members that they name if the options select them, its findings 301 to
/// 306, the first of 331 to 333 of each import object, and its first fault in words.
///
/// A file that is too large or begins with no archive's signature is refused by fault 1 or 300, and the page shows no more. Otherwise
/// the outcome is that of the archive's dump: the first of findings 301 to 304, 307 and 331 to 333 of all members. A name that is not
/// plain text is shown in quotes, with `\x` and two digits for a byte that is not printable; names are cut after 4,096 bytes, and those
/// of DLLs after 255, and have `..` behind them then.
///
/// The symbols are those of the second linker member, or of the first if the archive has no second. They are sorted by the members that
/// they name, so that the page takes the time of the file, and that of sorting them; and memory for each member and symbol.
///
/// The file is read to its end, or to 2^32 + 1 bytes; the page is written only after all faults were tested. On the error `Write`
/// the beginning of the page was written, on `Read` and `Memory` nothing; `Memory` never comes if the reader returned no byte.
/// Condition: each device has counted fewer than 2^64 - 1 failures so far.
pub fn show_archive<A: Allocator + Copy, R: Source, W: Sink>(
    alloc: A,
    page: &Page,
    reader: &mut R,
    writer: &mut W,
) -> Result<Outcome, ToolError>
    requires reads { R.failures reader.old < 2 ^ 64 - 1 }
    requires writes { W.failures writer.old < 2 ^ 64 - 1 }
    ensures ran { Ran IsArchiveJudged (R.given reader.old) (R.given reader.new)
        (W.taken writer.old) (W.taken writer.new) (R.ended reader.new) result }
    ensures read { IsErrOf result ToolError.Read ↔ (R.failures reader.old < R.failures reader.new) }
    ensures write { IsErrOf result ToolError.Write ↔ (W.failures writer.old < W.failures writer.new) }
{
    run_report(&ArchivePage(*page), alloc, reader, writer)
}

/// The page of [`show_archive`] for a file that was read whole, and that its caller keeps. On the error `Write` the beginning of the
/// page was written, on `Memory` nothing; `Read` never comes, and `Memory` not for an empty file. Condition: the writer has counted
/// fewer than 2^64 - 1 failures so far.
pub fn show_archive_text<A: Allocator + Copy, W: Sink>(
    alloc: A,
    page: &Page,
    file: &[u8],
    writer: &mut W,
) -> Result<Outcome, ToolError>
    requires { W.failures writer.old < 2 ^ 64 - 1 }
    ensures puts { Puts (IsArchiveJudged file.now) (W.taken writer.old) (W.taken writer.new)
        (W.failures writer.old) (W.failures writer.new) result }
    ensures memory { IsErrOf result ToolError.Memory → 0 < length file.now }
{
    write_report(&ArchivePage(*page), alloc, writer, file)
}
