//! `run_report`: reads a whole file, checks it and writes the text of a `Report`.

ghost use Rattle.std.specs.Prelude.{◌≡◌, ◌-◌, ◌^◌, ◌<◌, ◌↔◌, ℕ, List, length, IfOk, OnErr, IsErrOf};
ghost use Rattle.pe_text.specs.declared.outcome.Outcome.{Outcome};
ghost use Rattle.pe_text.specs.Engine.{IsRefusal, Puts, Ran};
ghost use Rattle.pe_text.specs.FaultLine.{fault_line};
ghost use Rattle.pe_text.specs.TextWriter.{IsReady, Adds};

use crate::device::{Sink, Source};
use crate::fault_line::write_fault_line;
use crate::outcome::{Outcome, ToolError};
use crate::text_writer::TextWriter;
use crate::whole_file::read_whole;
use pe_view::Fault;
use std::alloc::{AllocError, Allocator};

/// The text that an engine writes for a file.
pub trait Report {
    // whether a file has this outcome and this text
    ghost is_text: { List ℕ → Outcome → List ℕ → Type 0 };

    /// Checks the file, and only then adds the text. If it is out of memory it adds nothing; that never happens for an empty file.
    fn write<A: Allocator + Copy, W: Sink>(
        &self,
        alloc: A,
        text: &mut TextWriter<W>,
        file: &[u8],
    ) -> Result<Outcome, AllocError>
        requires { IsReady W.failures text.old }
        ensures same { text.new.writer.ghost_name ≡ text.old.writer.ghost_name }
        ensures adds { IfOk result (λ outcome. (added : List ℕ) × is_text file.now outcome added × Adds W.taken W.failures text.old text.new added) }
        ensures adds_none { OnErr result (text.new.writer.now ≡ text.old.writer.now) }
        ensures reads { OnErr result (0 < length file.now) };
}

/// Adds the line of the fault that refuses a file.
pub fn refuse<W: Sink>(text: &mut TextWriter<W>, fault: Fault) -> Outcome
    requires { IsReady W.failures text.old }
    ensures adds { Adds W.taken W.failures text.old text.new (fault_line fault) }
    ensures outcome { result ≡ Outcome.Refused fault }
{
    write_fault_line(text, &fault);
    Outcome::Refused(fault)
}

/// Checks a file, and writes its text. On the error `Write` the beginning of the text was written, on `Memory` nothing; it is never
/// `Read`. Condition: the writer has counted fewer than 2^64 - 1 failures so far.
pub fn write_report<T: Report, A: Allocator + Copy, W: Sink>(
    report: &T,
    alloc: A,
    writer: &mut W,
    file: &[u8],
) -> Result<Outcome, ToolError>
    requires { W.failures writer.old < 2 ^ 64 - 1 }
    ensures puts { Puts (T.is_text file.now) (W.taken writer.old) (W.taken writer.new)
        (W.failures writer.old) (W.failures writer.new) result }
    ensures memory { IsErrOf result ToolError.Memory → 0 < length file.now }
{
    let mut text = TextWriter::new(writer);
    let Ok(outcome) = report.write(alloc, &mut text, file) else {
        return Err(ToolError::Memory);
    };
    match text.finish() {
        Ok(()) => Ok(outcome),
        Err(_) => Err(ToolError::Write),
    }
}

/// Writes the line of a file that is refused by this fault. On the error, which is `Write`, the beginning of the line was written.
/// Condition: the writer has counted fewer than 2^64 - 1 failures so far.
pub fn write_refusal<W: Sink>(writer: &mut W, fault: Fault) -> Result<Outcome, ToolError>
    requires { W.failures writer.old < 2 ^ 64 - 1 }
    ensures puts { Puts (IsRefusal fault) (W.taken writer.old) (W.taken writer.new)
        (W.failures writer.old) (W.failures writer.new) result }
    ensures memory { IsErrOf result ToolError.Memory → ⊥ }
{
    let mut text = TextWriter::new(writer);
    let outcome = refuse(&mut text, fault);
    match text.finish() {
        Ok(()) => Ok(outcome),
        Err(_) => Err(ToolError::Write),
    }
}

/// Reads a whole file, checks it, and writes its text.
///
/// The file is read to its end, or to 2^32 + 1 bytes. On the error `Write` the beginning of the text was written, on `Read` and
/// `Memory` nothing; `Memory` never comes if the reader returned no byte. Condition: each device has counted fewer than 2^64 - 1
/// failures so far.
pub fn run_report<T: Report, A: Allocator + Copy, R: Source, W: Sink>(
    report: &T,
    alloc: A,
    reader: &mut R,
    writer: &mut W,
) -> Result<Outcome, ToolError>
    requires reads { R.failures reader.old < 2 ^ 64 - 1 }
    requires writes { W.failures writer.old < 2 ^ 64 - 1 }
    ensures ran { Ran T.is_text (R.given reader.old) (R.given reader.new)
        (W.taken writer.old) (W.taken writer.new) (R.ended reader.new) result }
    ensures read { IsErrOf result ToolError.Read ↔ (R.failures reader.old < R.failures reader.new) }
    ensures write { IsErrOf result ToolError.Write ↔ (W.failures writer.old < W.failures writer.new) }
{
    let file = read_whole(alloc, reader)?;
    write_report(report, alloc, writer, &file)
}
