//! `check_sized` and `dump_sized`: `check` and `dump` for a file of a known size, of which only a beginning is read.

ghost use Rattle.std.specs.Prelude.{◌-◌, ◌^◌, ◌<◌, ◌↔◌, IsErrOf};
ghost use Rattle.pe_reach.specs.Sized.{RanSized};
ghost use Rattle.pe_lines.specs.Reports.{IsCheckText, IsDumpText};

use crate::engine::{CheckReport, DumpReport};
use crate::laws::texts_agree;
use pe_reach::run_sized;
use pe_text::{Outcome, Sink, Source, ToolError};
use std::alloc::Allocator;

/// [`check`](crate::check) for a file of `len` bytes. It is read up to the end of the bytes that its headers name, and the output
/// is that of each file of `len` bytes that begins so; or it is read whole, if its first 4,096 bytes do not say where that end is.
/// Of a file that is too large or does not begin with `MZ` no more than these bytes are read.
///
/// The errors and conditions are those of [`check`](crate::check).
pub fn check_sized<A: Allocator + Copy, R: Source, W: Sink>(
    alloc: A,
    reader: &mut R,
    len: u64,
    writer: &mut W,
) -> Result<Outcome, ToolError>
    requires reads { R.failures reader.old < 2 ^ 64 - 1 }
    requires writes { W.failures writer.old < 2 ^ 64 - 1 }
    ensures ran { RanSized IsCheckText len (R.given reader.old) (R.given reader.new)
        (W.taken writer.old) (W.taken writer.new) (R.ended reader.new) result }
    ensures read { IsErrOf result ToolError.Read ↔ (R.failures reader.old < R.failures reader.new) }
    ensures write { IsErrOf result ToolError.Write ↔ (W.failures writer.old < W.failures writer.new) }
{
    texts_agree();
    run_sized(&CheckReport, alloc, reader, len, writer)
}

/// [`dump`](crate::dump) for a file of `len` bytes, in all else like [`check_sized`].
pub fn dump_sized<A: Allocator + Copy, R: Source, W: Sink>(
    alloc: A,
    reader: &mut R,
    len: u64,
    writer: &mut W,
) -> Result<Outcome, ToolError>
    requires reads { R.failures reader.old < 2 ^ 64 - 1 }
    requires writes { W.failures writer.old < 2 ^ 64 - 1 }
    ensures ran { RanSized IsDumpText len (R.given reader.old) (R.given reader.new)
        (W.taken writer.old) (W.taken writer.new) (R.ended reader.new) result }
    ensures read { IsErrOf result ToolError.Read ↔ (R.failures reader.old < R.failures reader.new) }
    ensures write { IsErrOf result ToolError.Write ↔ (W.failures writer.old < W.failures writer.new) }
{
    texts_agree();
    run_sized(&DumpReport, alloc, reader, len, writer)
}
