//! `dump_object_sized` and `dump_either_object_sized`: the engines of `petool object` over a file of a known size.

ghost use Rattle.std.specs.Prelude.{◌-◌, ◌^◌, ◌<◌, ◌↔◌, IsErrOf};
ghost use Rattle.coff_lines.specs.EitherReport.{IsEitherObjectText};
ghost use Rattle.coff_lines.specs.ObjectReport.{IsObjectText};
ghost use Rattle.pe_reach.specs.Sized.{RanSized};

use coff_lines::{dump_either_object, dump_object};
use pe_reach::object_size_fault;
use pe_text::{Outcome, Sink, Source, ToolError, write_refusal};
use std::alloc::Allocator;

/// [`dump_object`] for a file of `len` bytes: nothing is read of one that is larger than any object's file may be.
///
/// The text, the errors and the conditions are those of [`dump_object`].
pub fn dump_object_sized<A: Allocator + Copy, R: Source, W: Sink>(
    alloc: A,
    reader: &mut R,
    len: u64,
    writer: &mut W,
) -> Result<Outcome, ToolError>
    requires reads { R.failures reader.old < 2 ^ 64 - 1 }
    requires writes { W.failures writer.old < 2 ^ 64 - 1 }
    ensures ran { RanSized IsObjectText len (R.given reader.old) (R.given reader.new)
        (W.taken writer.old) (W.taken writer.new) (R.ended reader.new) result }
    ensures read { IsErrOf result ToolError.Read ↔ (R.failures reader.old < R.failures reader.new) }
    ensures write { IsErrOf result ToolError.Write ↔ (W.failures writer.old < W.failures writer.new) }
{
    match object_size_fault(len) {
        Some(fault) => write_refusal(writer, fault),
        None => dump_object(alloc, reader, writer),
    }
}

/// [`dump_either_object`] for a file of `len` bytes: nothing is read of one that is larger than any object's file may be.
///
/// The text, the errors and the conditions are those of [`dump_either_object`].
pub fn dump_either_object_sized<A: Allocator + Copy, R: Source, W: Sink>(
    alloc: A,
    reader: &mut R,
    len: u64,
    writer: &mut W,
) -> Result<Outcome, ToolError>
    requires reads { R.failures reader.old < 2 ^ 64 - 1 }
    requires writes { W.failures writer.old < 2 ^ 64 - 1 }
    ensures ran { RanSized IsEitherObjectText len (R.given reader.old) (R.given reader.new)
        (W.taken writer.old) (W.taken writer.new) (R.ended reader.new) result }
    ensures read { IsErrOf result ToolError.Read ↔ (R.failures reader.old < R.failures reader.new) }
    ensures write { IsErrOf result ToolError.Write ↔ (W.failures writer.old < W.failures writer.new) }
{
    match object_size_fault(len) {
        Some(fault) => write_refusal(writer, fault),
        None => dump_either_object(alloc, reader, writer),
    }
}
