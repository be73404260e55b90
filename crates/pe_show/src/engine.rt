//! `show`: the engine of `petool show`, which writes the page of an image or an object.

ghost use Rattle.std.specs.Prelude.{◌-◌, ◌^◌, ◌<◌, ◌↔◌, length, IsErrOf};
ghost use Rattle.pe_reach.specs.Sized.{RanSized};
ghost use Rattle.pe_text.specs.Engine.{Puts, Ran};
ghost use Rattle.pe_page.specs.Judged.{IsJudged};

use crate::image::{show_image, write_unread};
use crate::object::{show_object, write_refused};
use pe_page::{Page, outcomes_agree};
use pe_reach::{ViewFile, ViewReport, WholeView, run_view, view_fault};
use pe_text::{
    Outcome, ShowOptions, Sink, Source, TextWriter, ToolError, run_report, write_report,
};
use pe_view::Fault;
use std::alloc::{AllocError, Allocator};

/// The report that a page is.
#[derive(Drop)]
struct PageReport<'p>(Page<'p>);

impl<'p> ViewReport for PageReport<'p> {
    ghost is_text = { IsJudged };

    fn write<A: Allocator + Copy, W: Sink>(
        &self,
        alloc: A,
        text: &mut TextWriter<W>,
        file: ViewFile,
    ) -> Result<Outcome, AllocError> {
        match file.object() {
            Some(object) => show_object(alloc, &self.0, text, object),
            None => show_image(alloc, &self.0, text, file),
        }
    }

    fn early_fault(&self, begin: &[u8], len: u64) -> Option<Fault> {
        view_fault(begin, len)
    }

    fn needs_all(&self) -> bool {
        self.0.options.trust || self.0.options.symbols
    }

    fn refuse<W: Sink>(&self, text: &mut TextWriter<W>, file: ViewFile, fault: Fault) {
        let outcome = Outcome::Refused(fault);
        match file.object() {
            Some(_) => write_refused(text, &self.0, outcome, file),
            None => write_unread(text, &self.0, file, outcome),
        }
    }
}

/// Writes a readable page on the image or object whose file comes from the reader: its headers, its sections, the tables that the
/// options select, and its first fault in words. `name` is that of the file. The page has [`Page::WIDTH`] columns.
///
/// A file that begins like an object is checked as an object, any other as an image. For a refused image the page shows what comes
/// before its fault. A name that is not plain text is shown in quotes, with `\x` and two digits for a byte that is not printable;
/// names are cut after 4,096 bytes, those of sections after 40 and those of imported modules after 255, and have `..` behind them
/// then.
///
/// The file is read to its end, or to 2^32 + 1 bytes; the page is written only after all faults were tested. On the error `Write`
/// the beginning of the page was written, on `Read` and `Memory` nothing; `Memory` never comes if the reader returned no byte.
/// Condition: each device has counted fewer than 2^64 - 1 failures so far.
pub fn show<A: Allocator + Copy, R: Source, W: Sink>(
    alloc: A,
    name: &[u8],
    options: &ShowOptions,
    reader: &mut R,
    writer: &mut W,
) -> Result<Outcome, ToolError>
    requires reads { R.failures reader.old < 2 ^ 64 - 1 }
    requires writes { W.failures writer.old < 2 ^ 64 - 1 }
    ensures ran { Ran IsJudged (R.given reader.old) (R.given reader.new)
        (W.taken writer.old) (W.taken writer.new) (R.ended reader.new) result }
    ensures read { IsErrOf result ToolError.Read ↔ (R.failures reader.old < R.failures reader.new) }
    ensures write { IsErrOf result ToolError.Write ↔ (W.failures writer.old < W.failures writer.new) }
{
    show_page(alloc, &page_of(name, options), reader, writer)
}

/// A page of the width that it has if nothing says how wide the terminal is.
fn page_of<'p>(name: &'p [u8], options: &'p ShowOptions) -> Page<'p> {
    Page {
        name,
        options,
        width: Page::WIDTH,
    }
}

/// [`show`] for a page of any width.
///
/// The page, the errors and the conditions are those of [`show`].
pub fn show_page<A: Allocator + Copy, R: Source, W: Sink>(
    alloc: A,
    page: &Page,
    reader: &mut R,
    writer: &mut W,
) -> Result<Outcome, ToolError>
    requires reads { R.failures reader.old < 2 ^ 64 - 1 }
    requires writes { W.failures writer.old < 2 ^ 64 - 1 }
    ensures ran { Ran IsJudged (R.given reader.old) (R.given reader.new)
        (W.taken writer.old) (W.taken writer.new) (R.ended reader.new) result }
    ensures read { IsErrOf result ToolError.Read ↔ (R.failures reader.old < R.failures reader.new) }
    ensures write { IsErrOf result ToolError.Write ↔ (W.failures writer.old < W.failures writer.new) }
{
    run_report(&WholeView(&PageReport(*page)), alloc, reader, writer)
}

/// [`show`] for a file of `len` bytes. Of an image no more is read than the bytes before the end that its headers name, and those
/// before the end of its string table if a name of a section may be in it; the outcome is that of each file of `len` bytes that
/// begins so. Of a file that its size or its first bytes refuse, as [`pe_reach::view_fault`] says, at most 4,096 bytes are read. An
/// object, a file whose first 4,096 bytes do not say where that end is, and one of which the options select what it says of itself or its
/// symbols, is read whole.
///
/// The page, the errors and the conditions are those of [`show`].
pub fn show_sized<A: Allocator + Copy, R: Source, W: Sink>(
    alloc: A,
    name: &[u8],
    options: &ShowOptions,
    reader: &mut R,
    len: u64,
    writer: &mut W,
) -> Result<Outcome, ToolError>
    requires reads { R.failures reader.old < 2 ^ 64 - 1 }
    requires writes { W.failures writer.old < 2 ^ 64 - 1 }
    ensures ran { RanSized IsJudged len (R.given reader.old) (R.given reader.new)
        (W.taken writer.old) (W.taken writer.new) (R.ended reader.new) result }
    ensures read { IsErrOf result ToolError.Read ↔ (R.failures reader.old < R.failures reader.new) }
    ensures write { IsErrOf result ToolError.Write ↔ (W.failures writer.old < W.failures writer.new) }
{
    show_page_sized(alloc, &page_of(name, options), reader, len, writer)
}

/// [`show_sized`] for a page of any width.
///
/// The page, the errors and the conditions are those of [`show`].
pub fn show_page_sized<A: Allocator + Copy, R: Source, W: Sink>(
    alloc: A,
    page: &Page,
    reader: &mut R,
    len: u64,
    writer: &mut W,
) -> Result<Outcome, ToolError>
    requires reads { R.failures reader.old < 2 ^ 64 - 1 }
    requires writes { W.failures writer.old < 2 ^ 64 - 1 }
    ensures ran { RanSized IsJudged len (R.given reader.old) (R.given reader.new)
        (W.taken writer.old) (W.taken writer.new) (R.ended reader.new) result }
    ensures read { IsErrOf result ToolError.Read ↔ (R.failures reader.old < R.failures reader.new) }
    ensures write { IsErrOf result ToolError.Write ↔ (W.failures writer.old < W.failures writer.new) }
{
    outcomes_agree();
    run_view(&PageReport(*page), alloc, reader, len, writer)
}

/// The page of [`show_page`] for a file that was read whole, and that its caller keeps. On the error `Write` the beginning of the page
/// was written, on `Memory` nothing; `Read` never comes, and `Memory` not for an empty file. Condition: the writer has counted fewer
/// than 2^64 - 1 failures so far.
pub fn show_page_text<A: Allocator + Copy, W: Sink>(
    alloc: A,
    page: &Page,
    file: &[u8],
    writer: &mut W,
) -> Result<Outcome, ToolError>
    requires { W.failures writer.old < 2 ^ 64 - 1 }
    ensures puts { Puts (IsJudged file.now) (W.taken writer.old) (W.taken writer.new)
        (W.failures writer.old) (W.failures writer.new) result }
    ensures memory { IsErrOf result ToolError.Memory → 0 < length file.now }
{
    write_report(&WholeView(&PageReport(*page)), alloc, writer, file)
}
