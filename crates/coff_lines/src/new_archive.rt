//! `create_archive`: the engine of `petool archive --create`, which writes a new archive.

ghost use Rattle.std.specs.Prelude.{◌-◌, ◌^◌, ◌<◌, ◌↔◌, map, IsErrOf};
ghost use Rattle.coff_library.specs.Members.{member_view};
ghost use Rattle.coff_lines.specs.NewArchive.{IsNewArchive};
ghost use Rattle.pe_text.specs.Engine.{Puts};

use coff_library::{NewMember, write_archive};
use pe_text::{Outcome, Sink, ToolError, write_all};
use pe_view::Refusal;
use std::alloc::Allocator;

/// Writes the archive that [`write_archive`] makes of members, or nothing if they have a fault, which is the outcome.
///
/// On the error `Write` the beginning of the archive was written, on `Memory` nothing; `Read` never comes. Condition: the writer has
/// counted fewer than 2^64 - 1 failures so far.
pub fn create_archive<A: Allocator + Copy, W: Sink>(
    alloc: A,
    members: &[NewMember],
    writer: &mut W,
) -> Result<Outcome, ToolError>
    requires { W.failures writer.old < 2 ^ 64 - 1 }
    ensures puts { Puts (IsNewArchive (map member_view members.now)) (W.taken writer.old) (W.taken writer.new)
        (W.failures writer.old) (W.failures writer.new) result }
    ensures write { IsErrOf result ToolError.Write ↔ (W.failures writer.old < W.failures writer.new) }
{
    let bytes = match write_archive(alloc, members) {
        Ok(bytes) => bytes,
        Err(Refusal::Fault(fault)) => return Ok(Outcome::Refused(fault)),
        Err(Refusal::Memory) => return Err(ToolError::Memory),
    };
    match write_all(writer, &bytes) {
        Ok(()) => Ok(Outcome::Done),
        Err(_) => Err(ToolError::Write),
    }
}
