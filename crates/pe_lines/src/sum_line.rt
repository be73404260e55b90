//! `sum` and `sum_sized`: the engine that computes the CheckSum of an image's file.

ghost use Rattle.std.specs.Prelude.{◌≡◌, ◌-◌, ◌^◌, ◌<◌, ◌↔◌, length, IsErrOf};
ghost use Rattle.pe_text.specs.Engine.{Puts, Ran};
ghost use Rattle.pe_text.specs.TextWriter.{IsReady, Adds};
ghost use Rattle.pe_reach.specs.Sized.{RanSized};
ghost use Rattle.pe_lines.specs.SumLine.{IsSumText, sum_line};

use pe_head::read_headers;
use pe_reach::size_fault;
use pe_text::Part::{Hex8, Text};
use pe_text::{
    Outcome, Report, Sink, Source, TextWriter, ToolError, refuse, run_report, write_parts,
    write_refusal, write_report,
};
use pe_trust::check_sum;
use pe_view::View;
use std::alloc::{AllocError, Allocator};

/// Adds the line of CheckSum: what the field holds, and what it is to hold.
#[tactic(auto, unfolding(crate::specs::SumLine::sum_line))]
fn write_sum_line<W: Sink>(line: &mut TextWriter<W>, field: u32, computed: u32)
    requires { IsReady W.failures line.old }
    ensures { Adds W.taken W.failures line.old line.new (sum_line field computed) }
{
    write_parts(
        line,
        &[
            Text(b"check sum 0x"),
            Hex8(field as u64),
            Text(b" computed 0x"),
            Hex8(computed as u64),
            Text(b"\n"),
        ],
    );
}

/// The report of [`sum`]: the line of CheckSum, or the first fault of the headers.
struct SumReport;

impl Report for SumReport {
    ghost is_text = { IsSumText };

    fn write<A: Allocator + Copy, W: Sink>(
        &self,
        _alloc: A,
        text: &mut TextWriter<W>,
        file: &[u8],
    ) -> Result<Outcome, AllocError> {
        let view = View::new(file);
        match read_headers(view, 0) {
            Ok(headers) => {
                write_sum_line(text, headers.check_sum, check_sum(view, &headers));
                Ok(Outcome::Done)
            }
            Err(fault) => Ok(refuse(text, fault)),
        }
    }
}

/// Computes the CheckSum of the image whose file comes from the reader, and writes one line: `check sum 0x` with 8 digits of the
/// field, and ` computed 0x` with 8 digits of what it is to be; or the first fault of the headers. What else is wrong with the image
/// does not matter, and a field that is wrong is no fault.
///
/// The file is read to its end, or to 2^32 + 1 bytes. On the error `Write` the beginning of the line was written, on `Read` and
/// `Memory` nothing; `Memory` never comes if the reader returned no byte. Condition: each device has counted fewer than 2^64 - 1
/// failures so far.
pub fn sum<A: Allocator + Copy, R: Source, W: Sink>(
    alloc: A,
    reader: &mut R,
    writer: &mut W,
) -> Result<Outcome, ToolError>
    requires reads { R.failures reader.old < 2 ^ 64 - 1 }
    requires writes { W.failures writer.old < 2 ^ 64 - 1 }
    ensures ran { Ran IsSumText (R.given reader.old) (R.given reader.new)
        (W.taken writer.old) (W.taken writer.new) (R.ended reader.new) result }
    ensures read { IsErrOf result ToolError.Read ↔ (R.failures reader.old < R.failures reader.new) }
    ensures write { IsErrOf result ToolError.Write ↔ (W.failures writer.old < W.failures writer.new) }
{
    run_report(&SumReport, alloc, reader, writer)
}

/// [`sum`] for a file of `len` bytes: nothing is read of one that is larger than any image's file may be.
///
/// The line, the errors and the conditions are those of [`sum`].
pub fn sum_sized<A: Allocator + Copy, R: Source, W: Sink>(
    alloc: A,
    reader: &mut R,
    len: u64,
    writer: &mut W,
) -> Result<Outcome, ToolError>
    requires reads { R.failures reader.old < 2 ^ 64 - 1 }
    requires writes { W.failures writer.old < 2 ^ 64 - 1 }
    ensures ran { RanSized IsSumText len (R.given reader.old) (R.given reader.new)
        (W.taken writer.old) (W.taken writer.new) (R.ended reader.new) result }
    ensures read { IsErrOf result ToolError.Read ↔ (R.failures reader.old < R.failures reader.new) }
    ensures write { IsErrOf result ToolError.Write ↔ (W.failures writer.old < W.failures writer.new) }
{
    match size_fault(len) {
        Some(fault) => write_refusal(writer, fault),
        None => sum(alloc, reader, writer),
    }
}

/// The output of [`sum`] for a file that was read whole, and that its caller keeps. On the error, which is `Write`, the beginning of
/// the line was written. Condition: the writer has counted fewer than 2^64 - 1 failures so far.
pub fn sum_text<A: Allocator + Copy, W: Sink>(
    alloc: A,
    file: &[u8],
    writer: &mut W,
) -> Result<Outcome, ToolError>
    requires { W.failures writer.old < 2 ^ 64 - 1 }
    ensures puts { Puts (IsSumText file.now) (W.taken writer.old) (W.taken writer.new)
        (W.failures writer.old) (W.failures writer.new) result }
    ensures memory { IsErrOf result ToolError.Memory → 0 < length file.now }
{
    write_report(&SumReport, alloc, writer, file)
}
