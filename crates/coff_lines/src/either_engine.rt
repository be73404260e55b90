//! `dump_either_object`: the engine of `petool object --big`, which writes the dump of an object of either form.

ghost use Rattle.std.specs.Prelude.{◌-◌, ◌^◌, ◌<◌, ◌↔◌, length, IsErrOf};
ghost use Rattle.pe_text.specs.Engine.{Puts, Ran};
ghost use Rattle.coff_lines.specs.EitherReport.{IsEitherObjectText};

use crate::object_lines::write_object;
use coff_read::EitherObject;
use pe_text::{
    Outcome, Report, Sink, Source, TextWriter, ToolError, refuse, run_report, write_report,
};
use std::alloc::{AllocError, Allocator};

/// The report of [`dump_either_object`]: the dump of an accepted object of either form, or the object's first fault.
struct DumpEitherObject;

impl Report for DumpEitherObject {
    ghost is_text = { IsEitherObjectText };

    fn write<A: Allocator + Copy, W: Sink>(
        &self,
        _alloc: A,
        text: &mut TextWriter<W>,
        file: &[u8],
    ) -> Result<Outcome, AllocError> {
        match EitherObject::new(file) {
            Ok(object) => {
                write_object(text, &object);
                Ok(Outcome::Done)
            }
            Err(fault) => Ok(refuse(text, fault)),
        }
    }
}

/// Writes what [`dump_object`](crate::dump_object) writes, also of a big object (`/bigobj`): a file that begins with Machine 0 and
/// 0xffff sections is read as one, and any other as a plain object. The lines of both forms are alike; Characteristics, which a big
/// object does not store, is 0.
///
/// The file is read to its end, or to 2^32 + 1 bytes; the text is written only after all faults were tested. Memory is allocated
/// only for the file's bytes. On the error `Write` the beginning of the text was written, on `Read` and `Memory` nothing; `Memory`
/// never comes if the reader returned no byte. Condition: each device has counted fewer than 2^64 - 1 failures so far.
pub fn dump_either_object<A: Allocator + Copy, R: Source, W: Sink>(
    alloc: A,
    reader: &mut R,
    writer: &mut W,
) -> Result<Outcome, ToolError>
    requires reads { R.failures reader.old < 2 ^ 64 - 1 }
    requires writes { W.failures writer.old < 2 ^ 64 - 1 }
    ensures ran { Ran IsEitherObjectText (R.given reader.old) (R.given reader.new)
        (W.taken writer.old) (W.taken writer.new) (R.ended reader.new) result }
    ensures read { IsErrOf result ToolError.Read ↔ (R.failures reader.old < R.failures reader.new) }
    ensures write { IsErrOf result ToolError.Write ↔ (W.failures writer.old < W.failures writer.new) }
{
    run_report(&DumpEitherObject, alloc, reader, writer)
}

/// The output of [`dump_either_object`] for a file that was read whole, and that its caller keeps. On the error `Write` the beginning
/// of the output was written, on `Memory` nothing; `Read` never comes, and `Memory` not for an empty file. Condition: the writer has
/// counted fewer than 2^64 - 1 failures so far.
pub fn either_object_text<A: Allocator + Copy, W: Sink>(
    alloc: A,
    file: &[u8],
    writer: &mut W,
) -> Result<Outcome, ToolError>
    requires { W.failures writer.old < 2 ^ 64 - 1 }
    ensures puts { Puts (IsEitherObjectText file.now) (W.taken writer.old) (W.taken writer.new)
        (W.failures writer.old) (W.failures writer.new) result }
    ensures memory { IsErrOf result ToolError.Memory → 0 < length file.now }
{
    write_report(&DumpEitherObject, alloc, writer, file)
}
