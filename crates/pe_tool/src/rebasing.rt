//! `rebase`, `rebase_summed` and their sisters for a known size: write the file of an image for another base to one output, and a line about it to another.

ghost use Rattle.std.specs.Prelude.{◌≡◌, ◌-◌, ◌^◌, ◌<◌, ◌⊎◌, ◌↔◌, Some, Err, IsErrOf, true, false};
ghost use Rattle.pe_view.specs.declared.fault.Fault as code_fault;
ghost use Rattle.pe_view.specs.declared.refusal.Refusal.{Refusal};
ghost use Rattle.pe_view.specs.Faults.{AnswersOrWants, first_standing};
ghost use Rattle.pe_layout.specs.SectionFaults.{layout_tests};
ghost use Rattle.pe_write.specs.Summed.{rebased_as};
ghost use Rattle.pe_write.specs.RebaseFaults.{rebase_tests};
ghost use Rattle.pe_text.specs.TextWriter.{IsReady, Adds};
ghost use Rattle.pe_tool.specs.RebaseRun.{PutsLine, RebaseRan, RefusesSize, outcome_line, rebased_line};

use pe_reach::size_fault;
use pe_text::Part::{Hex16, Text};
use pe_text::{
    Outcome, Sink, Source, TextWriter, ToolError, read_whole, write_all, write_fault_line,
    write_parts,
};
use pe_write::{WriteError, rebase_file, rebase_file_summed};
use std::alloc::Allocator;

/// Adds the line `rebased` with the base.
#[tactic(auto, unfolding(crate::specs::RebaseRun::rebased_line))]
fn write_rebased_line<W: Sink>(line: &mut TextWriter<W>, base: u64)
    requires { IsReady W.failures line.old }
    ensures { Adds W.taken W.failures line.old line.new (rebased_line base) }
{
    write_parts(line, &[Text(b"rebased 0x"), Hex16(base), Text(b"\n")]);
}

/// Adds the line of an outcome.
fn write_outcome<W: Sink>(line: &mut TextWriter<W>, base: u64, outcome: &Outcome)
    requires { IsReady W.failures line.old }
    ensures { Adds W.taken W.failures line.old line.new (outcome_line base outcome.now) }
{
    match outcome {
        Outcome::Done => write_rebased_line(line, base),
        Outcome::Refused(fault) => write_fault_line(line, fault),
    }
}

/// Writes the line of an outcome, and returns the outcome.
fn tell<W: Sink>(writer: &mut W, base: u64, outcome: Outcome) -> Result<Outcome, ToolError>
    requires { W.failures writer.old < 2 ^ 64 - 1 }
    ensures { PutsLine base outcome (record { taken = W.taken writer.old; taken' = W.taken writer.new; count = W.failures writer.old; count' = W.failures writer.new }) result }
{
    let mut text = TextWriter::new(writer);
    write_outcome(&mut text, base, &outcome);
    match text.finish() {
        Ok(()) => Ok(outcome),
        Err(_) => Err(ToolError::Write),
    }
}

/// The file of an image for another base, with its CheckSum if that is asked for.
fn new_file<A: Allocator + Copy>(
    alloc: A,
    file: &[u8],
    base: u64,
    check_sum: bool,
) -> Result<Vec<u8, A>, WriteError>
    ensures exact { AnswersOrWants (rebase_tests file.now base) (λ bytes. bytes.items ≡ rebased_as check_sum file.now base) result }
    ensures early { (fault : code_fault.Fault) → first_standing (layout_tests 0 file.now) ≡ Some fault → result ≡ Err (Refusal.Fault fault) }
{
    if check_sum {
        rebase_file_summed(alloc, file, base)
    } else {
        rebase_file(alloc, file, base)
    }
}

/// Writes the new file to `out` and its line to `writer`, or the line of the first fault.
fn write_rebased<A: Allocator + Copy, R: Source, O: Sink, W: Sink>(
    alloc: A,
    reader: &mut R,
    base: u64,
    check_sum: bool,
    out: &mut O,
    writer: &mut W,
) -> Result<Outcome, ToolError>
    requires reads { R.failures reader.old < 2 ^ 64 - 1 }
    requires outs { O.failures out.old < 2 ^ 64 - 1 }
    requires writes { W.failures writer.old < 2 ^ 64 - 1 }
    ensures ran { RebaseRan check_sum base (R.given reader.old) (R.given reader.new)
        (record { taken = O.taken out.old; taken' = O.taken out.new; count = O.failures out.old; count' = O.failures out.new })
        (record { taken = W.taken writer.old; taken' = W.taken writer.new; count = W.failures writer.old; count' = W.failures writer.new })
        (R.ended reader.new) result }
    ensures read { IsErrOf result ToolError.Read ↔ (R.failures reader.old < R.failures reader.new) }
    ensures write { IsErrOf result ToolError.Write ↔ ((O.failures out.old < O.failures out.new) ⊎ (W.failures writer.old < W.failures writer.new)) }
{
    let file = read_whole(alloc, reader)?;
    let bytes = match new_file(alloc, &file, base, check_sum) {
        Ok(bytes) => bytes,
        Err(WriteError::Fault(fault)) => return tell(writer, base, Outcome::Refused(fault)),
        Err(WriteError::Memory) => return Err(ToolError::Memory),
    };
    match write_all(out, &bytes) {
        Ok(()) => tell(writer, base, Outcome::Done),
        Err(_) => Err(ToolError::Write),
    }
}

/// The same for a file of `len` bytes.
fn write_rebased_sized<A: Allocator + Copy, R: Source, O: Sink, W: Sink>(
    alloc: A,
    reader: &mut R,
    len: u64,
    base: u64,
    check_sum: bool,
    out: &mut O,
    writer: &mut W,
) -> Result<Outcome, ToolError>
    requires reads { R.failures reader.old < 2 ^ 64 - 1 }
    requires outs { O.failures out.old < 2 ^ 64 - 1 }
    requires writes { W.failures writer.old < 2 ^ 64 - 1 }
    ensures ran { RebaseRan check_sum base (R.given reader.old) (R.given reader.new)
        (record { taken = O.taken out.old; taken' = O.taken out.new; count = O.failures out.old; count' = O.failures out.new })
        (record { taken = W.taken writer.old; taken' = W.taken writer.new; count = W.failures writer.old; count' = W.failures writer.new })
        (R.ended reader.new) result
        ⊎ RefusesSize base len (R.given reader.old) (R.given reader.new)
        (record { taken = O.taken out.old; taken' = O.taken out.new; count = O.failures out.old; count' = O.failures out.new })
        (record { taken = W.taken writer.old; taken' = W.taken writer.new; count = W.failures writer.old; count' = W.failures writer.new })
        result }
    ensures read { IsErrOf result ToolError.Read ↔ (R.failures reader.old < R.failures reader.new) }
    ensures write { IsErrOf result ToolError.Write ↔ ((O.failures out.old < O.failures out.new) ⊎ (W.failures writer.old < W.failures writer.new)) }
{
    match size_fault(len) {
        Some(fault) => tell(writer, base, Outcome::Refused(fault)),
        None => write_rebased(alloc, reader, base, check_sum, out, writer),
    }
}

/// Writes to `out` the file of an image for another base, which `pe_write::rebase_file` makes from the file that comes from the
/// reader, and then to `writer` the line `rebased 0x` with 16 digits of the base; or writes to `writer` the line of the first
/// fault, and nothing to `out`.
///
/// The file is read to its end, or to 2^32 + 1 bytes; output is written only after all faults were tested. On the error `Write`
/// either `out` got the beginning of the new file and `writer` nothing, or `out` got the whole new file (nothing if there is a
/// fault) and `writer` the beginning of its line: the output that failed is the one that has counted one more failure. On `Read`
/// and `Memory` nothing was written; `Memory` never comes if the reader returned no byte. Condition: each device has counted fewer
/// than 2^64 - 1 failures so far.
pub fn rebase<A: Allocator + Copy, R: Source, O: Sink, W: Sink>(
    alloc: A,
    reader: &mut R,
    base: u64,
    out: &mut O,
    writer: &mut W,
) -> Result<Outcome, ToolError>
    requires reads { R.failures reader.old < 2 ^ 64 - 1 }
    requires outs { O.failures out.old < 2 ^ 64 - 1 }
    requires writes { W.failures writer.old < 2 ^ 64 - 1 }
    ensures ran { RebaseRan false base (R.given reader.old) (R.given reader.new)
        (record { taken = O.taken out.old; taken' = O.taken out.new; count = O.failures out.old; count' = O.failures out.new })
        (record { taken = W.taken writer.old; taken' = W.taken writer.new; count = W.failures writer.old; count' = W.failures writer.new })
        (R.ended reader.new) result }
    ensures read { IsErrOf result ToolError.Read ↔ (R.failures reader.old < R.failures reader.new) }
    ensures write { IsErrOf result ToolError.Write ↔ ((O.failures out.old < O.failures out.new) ⊎ (W.failures writer.old < W.failures writer.new)) }
{
    write_rebased(alloc, reader, base, false, out, writer)
}

/// [`rebase`] for a file of `len` bytes: nothing is read of one that is larger than any image's file may be, and nothing is written
/// to `out`.
///
/// The outputs, the errors and the conditions are those of [`rebase`].
pub fn rebase_sized<A: Allocator + Copy, R: Source, O: Sink, W: Sink>(
    alloc: A,
    reader: &mut R,
    len: u64,
    base: u64,
    out: &mut O,
    writer: &mut W,
) -> Result<Outcome, ToolError>
    requires reads { R.failures reader.old < 2 ^ 64 - 1 }
    requires outs { O.failures out.old < 2 ^ 64 - 1 }
    requires writes { W.failures writer.old < 2 ^ 64 - 1 }
    ensures ran { RebaseRan false base (R.given reader.old) (R.given reader.new)
        (record { taken = O.taken out.old; taken' = O.taken out.new; count = O.failures out.old; count' = O.failures out.new })
        (record { taken = W.taken writer.old; taken' = W.taken writer.new; count = W.failures writer.old; count' = W.failures writer.new })
        (R.ended reader.new) result
        ⊎ RefusesSize base len (R.given reader.old) (R.given reader.new)
        (record { taken = O.taken out.old; taken' = O.taken out.new; count = O.failures out.old; count' = O.failures out.new })
        (record { taken = W.taken writer.old; taken' = W.taken writer.new; count = W.failures writer.old; count' = W.failures writer.new })
        result }
    ensures read { IsErrOf result ToolError.Read ↔ (R.failures reader.old < R.failures reader.new) }
    ensures write { IsErrOf result ToolError.Write ↔ ((O.failures out.old < O.failures out.new) ⊎ (W.failures writer.old < W.failures writer.new)) }
{
    write_rebased_sized(alloc, reader, len, base, false, out, writer)
}

/// [`rebase`], but the new file has its CheckSum, as `pe_write::rebase_file_summed` writes it.
///
/// The outputs, the errors and the conditions are those of [`rebase`].
pub fn rebase_summed<A: Allocator + Copy, R: Source, O: Sink, W: Sink>(
    alloc: A,
    reader: &mut R,
    base: u64,
    out: &mut O,
    writer: &mut W,
) -> Result<Outcome, ToolError>
    requires reads { R.failures reader.old < 2 ^ 64 - 1 }
    requires outs { O.failures out.old < 2 ^ 64 - 1 }
    requires writes { W.failures writer.old < 2 ^ 64 - 1 }
    ensures ran { RebaseRan true base (R.given reader.old) (R.given reader.new)
        (record { taken = O.taken out.old; taken' = O.taken out.new; count = O.failures out.old; count' = O.failures out.new })
        (record { taken = W.taken writer.old; taken' = W.taken writer.new; count = W.failures writer.old; count' = W.failures writer.new })
        (R.ended reader.new) result }
    ensures read { IsErrOf result ToolError.Read ↔ (R.failures reader.old < R.failures reader.new) }
    ensures write { IsErrOf result ToolError.Write ↔ ((O.failures out.old < O.failures out.new) ⊎ (W.failures writer.old < W.failures writer.new)) }
{
    write_rebased(alloc, reader, base, true, out, writer)
}

/// [`rebase_sized`], but the new file has its CheckSum.
///
/// The outputs, the errors and the conditions are those of [`rebase`].
pub fn rebase_summed_sized<A: Allocator + Copy, R: Source, O: Sink, W: Sink>(
    alloc: A,
    reader: &mut R,
    len: u64,
    base: u64,
    out: &mut O,
    writer: &mut W,
) -> Result<Outcome, ToolError>
    requires reads { R.failures reader.old < 2 ^ 64 - 1 }
    requires outs { O.failures out.old < 2 ^ 64 - 1 }
    requires writes { W.failures writer.old < 2 ^ 64 - 1 }
    ensures ran { RebaseRan true base (R.given reader.old) (R.given reader.new)
        (record { taken = O.taken out.old; taken' = O.taken out.new; count = O.failures out.old; count' = O.failures out.new })
        (record { taken = W.taken writer.old; taken' = W.taken writer.new; count = W.failures writer.old; count' = W.failures writer.new })
        (R.ended reader.new) result
        ⊎ RefusesSize base len (R.given reader.old) (R.given reader.new)
        (record { taken = O.taken out.old; taken' = O.taken out.new; count = O.failures out.old; count' = O.failures out.new })
        (record { taken = W.taken writer.old; taken' = W.taken writer.new; count = W.failures writer.old; count' = W.failures writer.new })
        result }
    ensures read { IsErrOf result ToolError.Read ↔ (R.failures reader.old < R.failures reader.new) }
    ensures write { IsErrOf result ToolError.Write ↔ ((O.failures out.old < O.failures out.new) ⊎ (W.failures writer.old < W.failures writer.new)) }
{
    write_rebased_sized(alloc, reader, len, base, true, out, writer)
}
