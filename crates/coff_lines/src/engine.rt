//! `dump_object`: the engine of `petool object`, which writes an object's dump.

ghost use Rattle.std.specs.Prelude.{◌-◌, ◌^◌, ◌<◌, ◌↔◌, length, IsErrOf};
ghost use Rattle.pe_text.specs.Engine.{Puts, Ran};
ghost use Rattle.coff_read.specs.ObjectFile.{file_of};
ghost use Rattle.coff_read.specs.Reading.{object_of};
ghost use Rattle.coff_lines.specs.ObjectReport.{IsObjectText};
ghost use Rattle.coff_lines.specs.PlainLines.{object_text};
ghost use Rattle.pe_text.specs.TextWriter.{IsReady, Adds};

use crate::object_lines::write_object;
use coff_read::laws::plain_objects_are_of_the_plain_form;
use coff_read::{EitherObject, ObjectFile};
use pe_text::{
    Outcome, Report, Sink, Source, TextWriter, ToolError, refuse, run_report, write_report,
};
use std::alloc::{AllocError, Allocator};

/// Adds the lines of the dump of a plain object.
fn write_plain_object<W: Sink>(text: &mut TextWriter<W>, object: ObjectFile)
    requires { IsReady W.failures text.old }
    ensures { Adds W.taken W.failures text.old text.new (object_text (object_of (file_of object.entry))) }
{
    plain_objects_are_of_the_plain_form();
    write_object(text, &EitherObject::Plain(object));
}

/// The report of [`dump_object`]: the dump of an accepted object, or the object's first fault.
struct DumpObject;

impl Report for DumpObject {
    ghost is_text = { IsObjectText };

    fn write<A: Allocator + Copy, W: Sink>(
        &self,
        _alloc: A,
        text: &mut TextWriter<W>,
        file: &[u8],
    ) -> Result<Outcome, AllocError> {
        match ObjectFile::new(file) {
            Ok(object) => {
                write_plain_object(text, object);
                Ok(Outcome::Done)
            }
            Err(fault) => Ok(refuse(text, fault)),
        }
    }
}

/// Writes a line for each of three header fields, and for each section, relocation, symbol and auxiliary record of an object, or
/// the object's first fault.
///
/// The file is read to its end, or to 2^32 + 1 bytes; the text is written only after all faults were tested. Memory is allocated
/// only for the file's bytes. On the error `Write` the beginning of the text was written, on `Read` and `Memory` nothing; `Memory`
/// never comes if the reader returned no byte. Condition: each device has counted fewer than 2^64 - 1 failures so far.
pub fn dump_object<A: Allocator + Copy, R: Source, W: Sink>(
    alloc: A,
    reader: &mut R,
    writer: &mut W,
) -> Result<Outcome, ToolError>
    requires reads { R.failures reader.old < 2 ^ 64 - 1 }
    requires writes { W.failures writer.old < 2 ^ 64 - 1 }
    ensures ran { Ran IsObjectText (R.given reader.old) (R.given reader.new)
        (W.taken writer.old) (W.taken writer.new) (R.ended reader.new) result }
    ensures read { IsErrOf result ToolError.Read ↔ (R.failures reader.old < R.failures reader.new) }
    ensures write { IsErrOf result ToolError.Write ↔ (W.failures writer.old < W.failures writer.new) }
{
    run_report(&DumpObject, alloc, reader, writer)
}

/// The output of [`dump_object`] for a file that was read whole, and that its caller keeps. On the error `Write` the beginning of the
/// output was written, on `Memory` nothing; `Read` never comes, and `Memory` not for an empty file. Condition: the writer has counted
/// fewer than 2^64 - 1 failures so far.
pub fn object_text<A: Allocator + Copy, W: Sink>(
    alloc: A,
    file: &[u8],
    writer: &mut W,
) -> Result<Outcome, ToolError>
    requires { W.failures writer.old < 2 ^ 64 - 1 }
    ensures puts { Puts (IsObjectText file.now) (W.taken writer.old) (W.taken writer.new)
        (W.failures writer.old) (W.failures writer.new) result }
    ensures memory { IsErrOf result ToolError.Memory → 0 < length file.now }
{
    write_report(&DumpObject, alloc, writer, file)
}
