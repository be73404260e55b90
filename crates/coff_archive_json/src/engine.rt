//! `archive_json`: the engine of `petool json` for an archive, which writes its lines.

ghost use Rattle.std.specs.Prelude.{◌≡◌, ◌-◌, ◌^◌, ◌<◌, ◌↔◌, length, IsErrOf};
ghost use Rattle.std.specs.Option.{option_or};
ghost use Rattle.pe_view.specs.Faults.{first_standing};
ghost use Rattle.coff_archive.specs.FileTests.{file_tests, is_thin_file};
ghost use Rattle.coff_lines.specs.ArchiveLines.{archive_fault, outcome_by};
ghost use Rattle.pe_text.specs.Engine.{Puts, Ran};
ghost use Rattle.pe_text.specs.TextWriter.{IsReady, Adds};
ghost use Rattle.coff_archive_json.specs.ArchiveJson.{archive_lines, lines_unless, IsArchiveJson};

use crate::line::write_refused_line;
use crate::lines::write_archive;
use coff_archive::open_archive;
use coff_lines::outcome_by;
use pe_text::{Outcome, Sink, Source, TextWriter, ToolError, read_whole};
use std::alloc::Allocator;

/// Adds the lines of an archive's file, or the one that says why it is none.
fn write_lines<W: Sink>(text: &mut TextWriter<W>, name: &[u8], file: &[u8]) -> Outcome
    requires { IsReady W.failures text.old }
    ensures verdict { result ≡ outcome_by (option_or (first_standing (file_tests file.now)) (archive_fault (is_thin_file file.now) file.now)) }
    ensures adds { Adds W.taken W.failures text.old text.new
        (lines_unless name.now (archive_lines name.now (is_thin_file file.now) file.now) (first_standing (file_tests file.now))) }
{
    match open_archive(file) {
        Ok(archive) => outcome_by(write_archive(text, name, &archive)),
        Err(fault) => {
            write_refused_line(text, name, &fault);
            Outcome::Refused(fault)
        }
    }
}

/// The lines of [`archive_json`] for a file that was read whole, and that its caller keeps. No memory is taken. On the error `Write` the
/// beginning of the lines was written, on `Memory` nothing; `Read` never comes, and `Memory` not for an empty file. Condition: the writer
/// has counted fewer than 2^64 - 1 failures so far.
pub fn archive_json_text<A: Allocator + Copy, W: Sink>(
    _alloc: A,
    name: &[u8],
    file: &[u8],
    writer: &mut W,
) -> Result<Outcome, ToolError>
    requires { W.failures writer.old < 2 ^ 64 - 1 }
    ensures puts { Puts (IsArchiveJson name.now file.now) (W.taken writer.old) (W.taken writer.new)
        (W.failures writer.old) (W.failures writer.new) result }
    ensures memory { IsErrOf result ToolError.Memory → 0 < length file.now }
{
    let mut text = TextWriter::new(writer);
    let outcome = write_lines(&mut text, name, file);
    match text.finish() {
        Ok(()) => Ok(outcome),
        Err(_) => Err(ToolError::Write),
    }
}

/// Writes a line of JSON for each member of an archive of COFF objects ("PE Format", Archive (Library) File Format), with what the
/// member holds as [`pe_json::json`] tells it of an object, and last a line for the archive. `name` is that of the archive in each line.
///
/// A file that is too large or begins with no archive's signature is refused by fault 1 or 300, and has one line, which says so.
/// Otherwise the outcome is the first of findings 301 to 304, 307 and 331 to 333 of all members; the lines go on after it, but for 301 to
/// 303, after which no member can be found. It takes the time of the objects, and of an object that is no import object one pass more
/// over its tables for its faults.
///
/// The file is read to its end, or to 2^32 + 1 bytes. Memory is allocated only for the file's bytes. On the error `Write` the beginning
/// of the lines was written, on `Read` and `Memory` nothing; `Memory` never comes if the reader returned no byte. Condition: each device
/// has counted fewer than 2^64 - 1 failures so far.
pub fn archive_json<A: Allocator + Copy, R: Source, W: Sink>(
    alloc: A,
    name: &[u8],
    reader: &mut R,
    writer: &mut W,
) -> Result<Outcome, ToolError>
    requires reads { R.failures reader.old < 2 ^ 64 - 1 }
    requires writes { W.failures writer.old < 2 ^ 64 - 1 }
    ensures ran { Ran (IsArchiveJson name.now) (R.given reader.old) (R.given reader.new)
        (W.taken writer.old) (W.taken writer.new) (R.ended reader.new) result }
    ensures read { IsErrOf result ToolError.Read ↔ (R.failures reader.old < R.failures reader.new) }
    ensures write { IsErrOf result ToolError.Write ↔ (W.failures writer.old < W.failures writer.new) }
{
    let file = read_whole(alloc, reader)?;
    archive_json_text(alloc, name, &file, writer)
}
