//! `TablesReport`, a report on an image's headers and tables; and `run_parts`, its engine over parts of a file.

ghost use Rattle.std.specs.Prelude.{◌≡◌, ◌-◌, ◌^◌, ◌<◌, ◌≤◌, ◌⊎◌, ◌↔◌, ℕ, List, IfOk, IfNone, IsErrOf};
ghost use Rattle.pe_text.specs.declared.outcome.Outcome.{Outcome};
ghost use Rattle.pe_text.specs.Engine.{Puts};
ghost use Rattle.pe_text.specs.TextWriter.{IsReady, Adds};
ghost use Rattle.pe_reach.specs.PartsRan.{IsTextOfTables, RanByParts};
ghost use Rattle.pe_reach.specs.PartsRead.{AreNotRead, AreUndecided};

use crate::part_source::PartSource;
use crate::parts_reading::{Parts, read_parts};
use pe_head::Headers;
use pe_parts::{PackedTables, read_packed};
use pe_text::{Outcome, Sink, TextWriter, ToolError};
use std::alloc::Allocator;

/// The text that an engine writes for an image without a fault, from its headers and tables.
pub trait TablesReport {
    // whether a file has this outcome and this text
    ghost is_text: { List ℕ → Outcome → List ℕ → Type 0 };

    /// Adds the text.
    fn write<A: Allocator + Copy, W: Sink>(
        &self,
        text: &mut TextWriter<W>,
        headers: &Headers,
        tables: &PackedTables<A>,
    )
        requires { IsReady W.failures text.old }
        ensures same { text.new.writer.ghost_name ≡ text.old.writer.ghost_name }
        ensures adds { (added : List ℕ) × IsTextOfTables is_text headers.now tables.now Outcome.Done added × Adds W.taken W.failures text.old text.new added };
}

/// Writes the text of an image without a fault. On the error, which is `Write`, the beginning of the text was written.
fn write_tables<T: TablesReport, A: Allocator + Copy, W: Sink>(
    report: &T,
    writer: &mut W,
    headers: &Headers,
    tables: &PackedTables<A>,
) -> Result<Outcome, ToolError>
    requires { W.failures writer.old < 2 ^ 64 - 1 }
    ensures { Puts (IsTextOfTables T.is_text headers.now tables.now) (W.taken writer.old) (W.taken writer.new)
        (W.failures writer.old) (W.failures writer.new) result }
{
    let mut text = TextWriter::new(writer);
    report.write(&mut text, headers, tables);
    match text.finish() {
        Ok(()) => Ok(Outcome::Done),
        Err(_) => Err(ToolError::Write),
    }
}

/// Reads the headers of an image's file of `len` bytes and the sections in which its tables begin, checks the image, and writes its
/// text. The text is that of each file of `len` bytes that has these parts. `Ok(None)` means that the file has fewer than 65,536
/// bytes or ends early, that its first 4,096 bytes have not all headers or it has one of faults 1 to 15, or that the parts do not decide
/// its tables: nothing was written, and the file must be read another way.
///
/// On the error `Write` the beginning of the text was written, on `Read` and `Memory` nothing; a file of fewer than 65,536 bytes takes
/// no memory. Condition: each device has counted fewer than 2^64 - 1 failures so far.
pub fn run_parts<T: TablesReport, A: Allocator + Copy, R: PartSource, W: Sink>(
    report: &T,
    alloc: A,
    reader: &mut R,
    len: u64,
    writer: &mut W,
) -> Result<Option<Outcome>, ToolError>
    requires reads { R.failures reader.old < 2 ^ 64 - 1 }
    requires writes { W.failures writer.old < 2 ^ 64 - 1 }
    ensures ran { RanByParts T.is_text len (R.parts reader.old) (R.parts reader.new) (W.taken writer.old) (W.taken writer.new) result }
    ensures left { IfOk result (λ outcome. IfNone outcome
        (AreNotRead len (R.parts reader.old) (R.parts reader.new) ⊎ AreUndecided len (R.parts reader.old) (R.parts reader.new))) }
    ensures memory { IsErrOf result ToolError.Memory → 2 ^ 16 ≤ len }
    ensures read { IsErrOf result ToolError.Read ↔ (R.failures reader.old < R.failures reader.new) }
    ensures write { IsErrOf result ToolError.Write ↔ (W.failures writer.old < W.failures writer.new) }
{
    let Some(parts) = read_parts(alloc, reader, len)? else {
        return Ok(None);
    };
    let Parts {
        headers,
        packed,
        bytes,
    } = parts;
    match read_packed(alloc, &bytes, &packed, 0) {
        Ok(Some(tables)) => match write_tables(report, writer, &headers, &tables) {
            Ok(outcome) => Ok(Some(outcome)),
            Err(error) => Err(error),
        },
        Ok(None) => Ok(None),
        Err(_) => Err(ToolError::Memory),
    }
}
