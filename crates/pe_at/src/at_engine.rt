//! `at` and `at_each`: the engines of `petool at`, which shows what is at places of an image or an object.

ghost use Rattle.std.specs.Prelude.{◌-◌, ◌^◌, ◌<◌, ◌↔◌, length, IsErrOf};
ghost use Rattle.pe_reach.specs.Sized.{RanSized};
ghost use Rattle.pe_text.specs.Engine.{Puts, Ran};
ghost use Rattle.pe_page.specs.Judged.{IsImageJudged, IsJudged};

use crate::at_object::write_object_spots;
use crate::at_place::write_image_spots;
use crate::spot::Spot;
use pe_page::outcomes_agree;
use pe_reach::{ViewFile, ViewReport, WholeView, early_fault, run_view, view_fault};
use pe_text::{Outcome, Sink, Source, TextWriter, ToolError, refuse, run_report, write_report};
use pe_view::{Fault, Place};
use std::alloc::{AllocError, Allocator};

/// The report of [`at`].
#[derive(Clone, Copy)]
struct AtReport {
    place: Place,
}

impl ViewReport for AtReport {
    ghost is_text = { IsImageJudged };

    fn write<A: Allocator + Copy, W: Sink>(
        &self,
        alloc: A,
        text: &mut TextWriter<W>,
        file: ViewFile,
    ) -> Result<Outcome, AllocError> {
        write_image_spots(alloc, text, file, &[Spot::At(self.place)])
    }

    fn early_fault(&self, begin: &[u8], len: u64) -> Option<Fault> {
        early_fault(begin, len)
    }

    fn needs_all(&self) -> bool {
        false
    }

    fn refuse<W: Sink>(&self, text: &mut TextWriter<W>, _file: ViewFile, fault: Fault) {
        refuse(text, fault);
    }
}

/// The report of [`at_each`].
#[derive(Clone, Copy)]
struct SpotsReport<'s> {
    spots: &'s [Spot<'s>],
}

impl<'s> ViewReport for SpotsReport<'s> {
    ghost is_text = { IsJudged };

    fn write<A: Allocator + Copy, W: Sink>(
        &self,
        alloc: A,
        text: &mut TextWriter<W>,
        file: ViewFile,
    ) -> Result<Outcome, AllocError> {
        match file.object() {
            Some(object) => write_object_spots(alloc, text, object, self.spots),
            None => write_image_spots(alloc, text, file, self.spots),
        }
    }

    fn early_fault(&self, begin: &[u8], len: u64) -> Option<Fault> {
        view_fault(begin, len)
    }

    fn needs_all(&self) -> bool {
        false
    }

    fn refuse<W: Sink>(&self, text: &mut TextWriter<W>, _file: ViewFile, fault: Fault) {
        refuse(text, fault);
    }
}

/// Writes what is at a place of the image whose file comes from the reader. The place is an RVA, an address with the image at its
/// ImageBase, or a file offset. The output is the RVA, the address, the file offset and the section with its permissions; the last
/// export at or before it in the section, and the last symbol if that is nearer; the import whose slot contains it; the base relocation whose field contains it, with the
/// field's target; the field of a header or the row of a table there; and 16 bytes. For a refused image the line of the first fault
/// comes first, and what the fault does not let be read is left out.
///
/// Reading, writing and errors are those of `show` of `pe_show`.
pub fn at<A: Allocator + Copy, R: Source, W: Sink>(
    alloc: A,
    place: Place,
    reader: &mut R,
    writer: &mut W,
) -> Result<Outcome, ToolError>
    requires reads { R.failures reader.old < 2 ^ 64 - 1 }
    requires writes { W.failures writer.old < 2 ^ 64 - 1 }
    ensures ran { Ran IsImageJudged (R.given reader.old) (R.given reader.new)
        (W.taken writer.old) (W.taken writer.new) (R.ended reader.new) result }
    ensures read { IsErrOf result ToolError.Read ↔ (R.failures reader.old < R.failures reader.new) }
    ensures write { IsErrOf result ToolError.Write ↔ (W.failures writer.old < W.failures writer.new) }
{
    run_report(&WholeView(&AtReport { place }), alloc, reader, writer)
}

/// [`at`] for a file of `len` bytes, of which no more is read than `show_sized` of `pe_show` reads.
pub fn at_sized<A: Allocator + Copy, R: Source, W: Sink>(
    alloc: A,
    place: Place,
    reader: &mut R,
    len: u64,
    writer: &mut W,
) -> Result<Outcome, ToolError>
    requires reads { R.failures reader.old < 2 ^ 64 - 1 }
    requires writes { W.failures writer.old < 2 ^ 64 - 1 }
    ensures ran { RanSized IsImageJudged len (R.given reader.old) (R.given reader.new)
        (W.taken writer.old) (W.taken writer.new) (R.ended reader.new) result }
    ensures read { IsErrOf result ToolError.Read ↔ (R.failures reader.old < R.failures reader.new) }
    ensures write { IsErrOf result ToolError.Write ↔ (W.failures writer.old < W.failures writer.new) }
{
    outcomes_agree();
    run_view(&AtReport { place }, alloc, reader, len, writer)
}

/// Writes what is at each of some spots of the image or object whose file comes from the reader, in their order. A file that begins
/// like an object is checked as an object, any other as an image, of which [`at`] writes the same. Of an object it is the section and
/// the offset in it, the file offset, the relocation that patches the place, the last symbol at or before it in the section, and 16
/// bytes; or what stands at an offset of the file that is in no section. For a refused object it is the line of the first fault.
///
/// Reading, writing and errors are those of `show` of `pe_show`.
pub fn at_each<A: Allocator + Copy, R: Source, W: Sink>(
    alloc: A,
    spots: &[Spot],
    reader: &mut R,
    writer: &mut W,
) -> Result<Outcome, ToolError>
    requires reads { R.failures reader.old < 2 ^ 64 - 1 }
    requires writes { W.failures writer.old < 2 ^ 64 - 1 }
    ensures ran { Ran IsJudged (R.given reader.old) (R.given reader.new)
        (W.taken writer.old) (W.taken writer.new) (R.ended reader.new) result }
    ensures read { IsErrOf result ToolError.Read ↔ (R.failures reader.old < R.failures reader.new) }
    ensures write { IsErrOf result ToolError.Write ↔ (W.failures writer.old < W.failures writer.new) }
{
    run_report(&WholeView(&SpotsReport { spots }), alloc, reader, writer)
}

/// [`at_each`] for a file of `len` bytes, of which no more is read than `show_sized` of `pe_show` reads.
pub fn at_each_sized<A: Allocator + Copy, R: Source, W: Sink>(
    alloc: A,
    spots: &[Spot],
    reader: &mut R,
    len: u64,
    writer: &mut W,
) -> Result<Outcome, ToolError>
    requires reads { R.failures reader.old < 2 ^ 64 - 1 }
    requires writes { W.failures writer.old < 2 ^ 64 - 1 }
    ensures ran { RanSized IsJudged len (R.given reader.old) (R.given reader.new)
        (W.taken writer.old) (W.taken writer.new) (R.ended reader.new) result }
    ensures read { IsErrOf result ToolError.Read ↔ (R.failures reader.old < R.failures reader.new) }
    ensures write { IsErrOf result ToolError.Write ↔ (W.failures writer.old < W.failures writer.new) }
{
    outcomes_agree();
    run_view(&SpotsReport { spots }, alloc, reader, len, writer)
}

/// The output of [`at_each`] for a file that was read whole, and that its caller keeps. On the error `Write` the beginning of the
/// output was written, on `Memory` nothing; `Read` never comes, and `Memory` not for an empty file. Condition: the writer has counted
/// fewer than 2^64 - 1 failures so far.
pub fn at_each_text<A: Allocator + Copy, W: Sink>(
    alloc: A,
    spots: &[Spot],
    file: &[u8],
    writer: &mut W,
) -> Result<Outcome, ToolError>
    requires { W.failures writer.old < 2 ^ 64 - 1 }
    ensures puts { Puts (IsJudged file.now) (W.taken writer.old) (W.taken writer.new)
        (W.failures writer.old) (W.failures writer.new) result }
    ensures memory { IsErrOf result ToolError.Memory → 0 < length file.now }
{
    write_report(&WholeView(&SpotsReport { spots }), alloc, writer, file)
}
