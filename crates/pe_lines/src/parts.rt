//! `check_parts` and `dump_parts`: `check` and `dump` for a file of a known size, of which only the headers and the sections with
//! tables are read.

ghost use Rattle.std.specs.Prelude.{◌-◌, ◌^◌, ◌<◌, ◌⊎◌, ◌↔◌, IfOk, IfNone, IsErrOf};
ghost use Rattle.pe_reach.specs.PartsRan.{RanByParts};
ghost use Rattle.pe_reach.specs.PartsRead.{AreNotRead, AreUndecided};
ghost use Rattle.pe_lines.specs.Reports.{IsCheckText, IsDumpText};

use crate::dump_lines::write_dump;
use crate::format::write_accepted_line;
use pe_head::Headers;
use pe_parts::PackedTables;
use pe_reach::{PartSource, TablesReport, run_parts};
use pe_text::{Outcome, Sink, TextWriter, ToolError};
use std::alloc::Allocator;

/// The report of [`check_parts`]: the line of an accepted image.
struct AcceptedReport;

impl TablesReport for AcceptedReport {
    ghost is_text = { IsCheckText };

    fn write<A: Allocator + Copy, W: Sink>(
        &self,
        text: &mut TextWriter<W>,
        headers: &Headers,
        _tables: &PackedTables<A>,
    ) {
        write_accepted_line(text, headers);
    }
}

/// The report of [`dump_parts`]: the content of an accepted image.
struct ContentReport;

impl TablesReport for ContentReport {
    ghost is_text = { IsDumpText };

    fn write<A: Allocator + Copy, W: Sink>(
        &self,
        text: &mut TextWriter<W>,
        headers: &Headers,
        tables: &PackedTables<A>,
    ) {
        write_dump(
            text,
            headers,
            &tables.exports,
            &tables.imports,
            &tables.fixups,
        );
    }
}

/// [`check`](crate::check) for an image's file of `len` bytes, of which the headers are read and the sections in which its tables
/// begin. The output is that of each file of `len` bytes that has these parts. `Ok(None)` means that the parts were not read, as by
/// [`read_parts`](pe_reach::read_parts), or do not decide the tables: nothing was written, and
/// [`check_sized`](crate::check_sized) is for this file.
///
/// On the error `Write` the beginning of the line was written, on `Read` and `Memory` nothing. Condition: each device has counted
/// fewer than 2^64 - 1 failures so far.
pub fn check_parts<A: Allocator + Copy, R: PartSource, W: Sink>(
    alloc: A,
    reader: &mut R,
    len: u64,
    writer: &mut W,
) -> Result<Option<Outcome>, ToolError>
    requires reads { R.failures reader.old < 2 ^ 64 - 1 }
    requires writes { W.failures writer.old < 2 ^ 64 - 1 }
    ensures ran { RanByParts IsCheckText len (R.parts reader.old) (R.parts reader.new) (W.taken writer.old) (W.taken writer.new) result }
    ensures left { IfOk result (λ outcome. IfNone outcome
        (AreNotRead len (R.parts reader.old) (R.parts reader.new) ⊎ AreUndecided len (R.parts reader.old) (R.parts reader.new))) }
    ensures read { IsErrOf result ToolError.Read ↔ (R.failures reader.old < R.failures reader.new) }
    ensures write { IsErrOf result ToolError.Write ↔ (W.failures writer.old < W.failures writer.new) }
{
    run_parts(&AcceptedReport, alloc, reader, len, writer)
}

/// [`dump`](crate::dump) for an image's file of `len` bytes, in all else like [`check_parts`].
pub fn dump_parts<A: Allocator + Copy, R: PartSource, W: Sink>(
    alloc: A,
    reader: &mut R,
    len: u64,
    writer: &mut W,
) -> Result<Option<Outcome>, ToolError>
    requires reads { R.failures reader.old < 2 ^ 64 - 1 }
    requires writes { W.failures writer.old < 2 ^ 64 - 1 }
    ensures ran { RanByParts IsDumpText len (R.parts reader.old) (R.parts reader.new) (W.taken writer.old) (W.taken writer.new) result }
    ensures left { IfOk result (λ outcome. IfNone outcome
        (AreNotRead len (R.parts reader.old) (R.parts reader.new) ⊎ AreUndecided len (R.parts reader.old) (R.parts reader.new))) }
    ensures read { IsErrOf result ToolError.Read ↔ (R.failures reader.old < R.failures reader.new) }
    ensures write { IsErrOf result ToolError.Write ↔ (W.failures writer.old < W.failures writer.new) }
{
    run_parts(&ContentReport, alloc, reader, len, writer)
}
