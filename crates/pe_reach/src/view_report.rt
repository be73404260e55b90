//! `ViewReport`, a report on what views see of a file; and `run_view`, its engine over a file of a known size.

ghost use Rattle.std.specs.Prelude.{◌≡◌, ◌-◌, ◌^◌, ◌<◌, ◌↔◌, ℕ, List, length, IfSome, IfOk, OnErr, IsErrOf};
ghost use Rattle.pe_text.specs.declared.outcome.Outcome.{Outcome};
ghost use Rattle.pe_text.specs.Engine.{Puts};
ghost use Rattle.pe_text.specs.TextWriter.{IsReady, Adds};
ghost use Rattle.pe_reach.specs.Reach.{Begins};
ghost use Rattle.pe_reach.specs.Sized.{RefusesBy, RanSized};
ghost use Rattle.pe_reach.specs.Views.{FollowsLooks, seen_of};

use crate::reading::read_begin;
use crate::view_file::ViewFile;
use crate::view_reading::read_seen;
use pe_text::{Outcome, ReadBytes, Report, Sink, Source, TextWriter, ToolError, write_report};
use pe_view::Fault;
use std::alloc::{AllocError, Allocator};

/// The text that an engine writes for what views see of a file.
pub trait ViewReport {
    // whether a file has this outcome and this text
    ghost is_text: { List ℕ → Outcome → List ℕ → Type 0 };

    /// Checks the file, and only then adds the text. If it is out of memory it adds nothing; that never happens for an empty file.
    fn write<A: Allocator + Copy, W: Sink>(
        &self,
        alloc: A,
        text: &mut TextWriter<W>,
        file: ViewFile,
    ) -> Result<Outcome, AllocError>
        requires { IsReady W.failures text.old }
        ensures same { text.new.writer.ghost_name ≡ text.old.writer.ghost_name }
        ensures adds { IfOk result (λ outcome. (added : List ℕ) × is_text (seen_of file.entry) outcome added × Adds W.taken W.failures text.old text.new added) }
        ensures adds_none { OnErr result (text.new.writer.now ≡ text.old.writer.now) }
        ensures reads { OnErr result (0 < length (seen_of file.entry)) };

    /// The fault of each file of `len` bytes that begins with these, if they and the size decide it. `None` does not mean that it has
    /// no fault.
    fn early_fault(&self, begin: &[u8], len: u64) -> Option<Fault>
        ensures { IfSome result (λ fault. (file : List ℕ) → Begins begin.now len file → RefusesBy (is_text file) fault) };

    /// Whether the text shows what comes after the end that the headers of an image name, so that all bytes are read.
    fn needs_all(&self) -> bool;

    /// Adds the text of a file that is refused by an early fault, and of which only its first bytes were read.
    fn refuse<W: Sink>(&self, text: &mut TextWriter<W>, file: ViewFile, fault: Fault)
        requires { IsReady W.failures text.old }
        ensures { (added : List ℕ) × Adds W.taken W.failures text.old text.new added };
}

/// The report on a file of which all was read.
#[derive(Drop)]
pub struct WholeView<'t, T>(pub &'t T);

impl<'t, T: ViewReport> Report for WholeView<'t, T> {
    ghost is_text = { T.is_text };

    fn write<A: Allocator + Copy, W: Sink>(
        &self,
        alloc: A,
        text: &mut TextWriter<W>,
        file: &[u8],
    ) -> Result<Outcome, AllocError> {
        self.0.write(alloc, text, ViewFile::whole(file))
    }
}

/// The report on a file of `len` bytes of which a beginning was read.
#[derive(Drop)]
struct SizedView<'t, T> {
    report: &'t T,
    len: u64,
}

impl<'t, T: ViewReport> Report for SizedView<'t, T> {
    ghost is_text = { T.is_text };

    fn write<A: Allocator + Copy, W: Sink>(
        &self,
        alloc: A,
        text: &mut TextWriter<W>,
        file: &[u8],
    ) -> Result<Outcome, AllocError> {
        self.report
            .write(alloc, text, ViewFile::new(file, self.len))
    }
}

/// The early fault of a file of `len` bytes with these first bytes, if more follow them.
fn early_fault_of<T: ViewReport, A: Allocator>(
    report: &T,
    first: &ReadBytes<A>,
    len: u64,
) -> Option<Fault>
    ensures { IfSome result (λ fault. (file : List ℕ) → Begins first.now.bytes.items len file → RefusesBy (T.is_text file) fault) }
{
    if first.has_ended {
        return None;
    }
    report.early_fault(&first.bytes, len)
}

/// Writes the text of a file that is refused by an early fault. On the error, which is `Write`, the beginning of the text was
/// written.
fn write_refused<T: ViewReport, W: Sink>(
    report: &T,
    writer: &mut W,
    file: ViewFile,
    fault: Fault,
) -> Result<Outcome, ToolError>
    requires { W.failures writer.old < 2 ^ 64 - 1 }
    ensures puts { Puts (λ outcome text. outcome ≡ Outcome.Refused fault) (W.taken writer.old) (W.taken writer.new)
        (W.failures writer.old) (W.failures writer.new) result }
    ensures memory { IsErrOf result ToolError.Memory → ⊥ }
{
    let mut text = TextWriter::new(writer);
    report.refuse(&mut text, file, fault);
    match text.finish() {
        Ok(()) => Ok(Outcome::Refused(fault)),
        Err(_) => Err(ToolError::Write),
    }
}

/// Reads as much of a file of `len` bytes as views show of it, checks it, and writes its text. The outcome is that of each file of
/// `len` bytes that begins with what was read, unless the file was read whole, as it is if the report needs all bytes. Of a file that its
/// first 4,096 bytes refuse no more are read.
///
/// On the error `Write` the beginning of the text was written, on `Read` and `Memory` nothing; `Memory` never comes if the reader
/// returned no byte. Conditions: the report writes the same texts for files that look alike, and each device has counted fewer than
/// 2^64 - 1 failures so far.
pub fn run_view<T: ViewReport, A: Allocator + Copy, R: Source, W: Sink>(
    report: &T,
    alloc: A,
    reader: &mut R,
    len: u64,
    writer: &mut W,
) -> Result<Outcome, ToolError>
    requires follows { FollowsLooks T.is_text }
    requires reads { R.failures reader.old < 2 ^ 64 - 1 }
    requires writes { W.failures writer.old < 2 ^ 64 - 1 }
    ensures ran { RanSized T.is_text len (R.given reader.old) (R.given reader.new)
        (W.taken writer.old) (W.taken writer.new) (R.ended reader.new) result }
    ensures read { IsErrOf result ToolError.Read ↔ (R.failures reader.old < R.failures reader.new) }
    ensures write { IsErrOf result ToolError.Write ↔ (W.failures writer.old < W.failures writer.new) }
{
    let first = read_begin(alloc, reader)?;
    if let Some(fault) = early_fault_of(report, &first, len) {
        return write_refused(report, writer, ViewFile::new(&first.bytes, len), fault);
    }
    let seen = read_seen(reader, first, len, report.needs_all())?;
    let report = SizedView {
        report,
        len: seen.len,
    };
    write_report(&report, alloc, writer, &seen.bytes)
}
