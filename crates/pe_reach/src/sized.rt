//! `run_sized`: the engine of a report over a file of a known size.

ghost use Rattle.std.specs.Prelude.{◌-◌, ◌^◌, ◌<◌, ◌↔◌, IsErrOf};
ghost use Rattle.pe_reach.specs.Sized.{Follows, RefusesByFaults, RanSized};

use crate::reach::early_fault;
use crate::reading::{read_begin, read_rest};
use pe_text::{Outcome, Report, Sink, Source, ToolError, write_refusal, write_report};
use std::alloc::Allocator;

/// Reads as much of a file of `len` bytes as decides its answers, checks it, and writes its text. The text is that of each file of
/// `len` bytes that begins with what was read, unless the file was read whole. Of a file that is too large nothing is read, and of
/// one that does not begin with `MZ` only the first bytes.
///
/// On the error `Write` the beginning of the text was written, on `Read` and `Memory` nothing; `Memory` never comes if the reader
/// returned no byte. Conditions: the report writes the same text for files with the same answers, and refuses a file exactly by its
/// first fault; and each device has counted fewer than 2^64 - 1 failures so far.
pub fn run_sized<T: Report, A: Allocator + Copy, R: Source, W: Sink>(
    report: &T,
    alloc: A,
    reader: &mut R,
    len: u64,
    writer: &mut W,
) -> Result<Outcome, ToolError>
    requires follows { Follows T.is_text }
    requires refuses { RefusesByFaults T.is_text }
    requires reads { R.failures reader.old < 2 ^ 64 - 1 }
    requires writes { W.failures writer.old < 2 ^ 64 - 1 }
    ensures ran { RanSized T.is_text len (R.given reader.old) (R.given reader.new)
        (W.taken writer.old) (W.taken writer.new) (R.ended reader.new) result }
    ensures read { IsErrOf result ToolError.Read ↔ (R.failures reader.old < R.failures reader.new) }
    ensures write { IsErrOf result ToolError.Write ↔ (W.failures writer.old < W.failures writer.new) }
{
    if let Some(fault) = early_fault(&[], len) {
        return write_refusal(writer, fault);
    }
    let first = read_begin(alloc, reader)?;
    if !first.has_ended {
        if let Some(fault) = early_fault(&first.bytes, len) {
            return write_refusal(writer, fault);
        }
    }
    let file = read_rest(reader, first, len)?;
    write_report(report, alloc, writer, &file)
}
