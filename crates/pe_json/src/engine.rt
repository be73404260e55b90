//! `json`: the engine of `petool json`, which checks a file as an image or an object and writes its line.

ghost use Rattle.std.specs.Prelude.{◌≡◌, ◌++◌, ◌-◌, ◌^◌, ◌<◌, ◌≤◌, ◌↔◌, length, None, Some, IfOk, IfSome, OnErr, IsErrOf};
ghost use Rattle.coff_read.specs.EitherObject.{form_in};
ghost use Rattle.coff_read.specs.FormFaults.{object_tests};
ghost use Rattle.pe_image.specs.ImageOf.{IsImageOf};
ghost use Rattle.pe_image.specs.ImageTests.{image_tests};
ghost use Rattle.pe_json.specs.ExportRows.{AreNamesOf};
ghost use Rattle.pe_json.specs.FileLine.{image_members, refused_beyond, image_file_line, object_file_line, file_line};
ghost use Rattle.pe_json.specs.ImageRecords.{own_findings};
ghost use Rattle.pe_json.specs.JsonReport.{file_tests, IsLine, IsLineOf, IsUnreadLine, RanSized};
ghost use Rattle.pe_json.specs.Refused.{refused_line};
ghost use Rattle.pe_head.specs.Head.{head_of};
ghost use Rattle.pe_layout.specs.Layout.{IsLayoutOf};
ghost use Rattle.pe_layout.specs.SectionFaults.{layout_tests};
ghost use Rattle.pe_reach.specs.Views.{seen_of, told_of};
ghost use Rattle.pe_tables.specs.ExportsView.{exports_view, by_ordinal_view};
ghost use Rattle.pe_text.specs.Engine.{Puts, Ran};
ghost use Rattle.pe_text.specs.Outcome.{IsOutcomeOf};
ghost use Rattle.pe_text.specs.TextWriter.{IsReady, Adds};
ghost use Rattle.pe_view.specs.Faults.{first_standing};

use crate::beyond::Beyond;
use crate::findings::{findings_of, own_findings};
use crate::image::{Content, write_image, write_plain_image};
use crate::object::write_object;
use crate::refused::{RefusedImage, refuse, refuse_laid_out, refuse_unlaid};
use coff_read::EitherObject;
use pe_delay::read_delay_imports;
use pe_image::Image;
use pe_layout::Layout;
use pe_reach::laws::faults_agree;
use pe_reach::{ViewFile, read_rest, read_view, read_whole_tables};
use pe_resources::leaves;
use pe_tables::{Exports, NamesByOrdinal, TableError};
use pe_text::{Outcome, Sink, Source, TextWriter, ToolError, read_whole};
use pe_view::Fault;
use std::alloc::{AllocError, Allocator};

/// Checks an object, and adds its line.
fn write_object_line<W: Sink>(text: &mut TextWriter<W>, name: &[u8], file: &[u8]) -> Outcome
    requires { IsReady W.failures text.old }
    ensures verdict { IsOutcomeOf (object_tests (form_in file.now) file.now) result }
    ensures adds { Adds W.taken W.failures text.old text.new (object_file_line name.now file.now result) }
{
    match EitherObject::new(file) {
        Ok(object) => {
            write_object(text, name, &object);
            Outcome::Done
        }
        Err(fault) => {
            refuse(text, name, ViewFile::whole(file), &fault);
            Outcome::Refused(fault)
        }
    }
}

/// The names of an image's exports by their ordinals; none if the exports have a fault.
fn names_of<A: Allocator + Copy>(
    alloc: A,
    exports: &Option<Exports<A>>,
) -> Result<NamesByOrdinal<A>, AllocError>
    ensures { IfOk result (λ names. IfSome exports.now (λ exports. AreNamesOf (exports_view exports) (by_ordinal_view names))) }
{
    match exports {
        Some(exports) => NamesByOrdinal::new(alloc, exports),
        None => Ok(NamesByOrdinal::none(alloc)),
    }
}

/// Adds the line of a refused image that is laid out. All memory is taken before its first byte.
fn write_laid_out<A: Allocator + Copy, W: Sink>(
    alloc: A,
    text: &mut TextWriter<W>,
    image: RefusedImage,
    layout: &Layout,
) -> Result<(), AllocError>
    requires ready { IsReady W.failures text.old }
    requires small { length (seen_of image.file) ≤ 2 ^ 32 }
    requires headers { image.headers.now ≡ head_of (seen_of image.file) }
    requires found { image.findings.now ≡ own_findings image.beyond (seen_of image.file) image.headers.now }
    requires layout { IsLayoutOf (seen_of image.file) 0 layout.now }
    requires sound { first_standing (layout_tests 0 (seen_of image.file)) ≡ None }
    ensures adds { IfOk result (λ _. Adds W.taken W.failures text.old text.new
        (refused_line image.entry.name.now (seen_of image.entry.file) (told_of image.entry.file) image.entry.fault.now
        (image_members (seen_of image.entry.file) ++ refused_beyond image.entry.beyond (seen_of image.entry.file)))) }
    ensures same { text.new.writer.ghost_name ≡ text.old.writer.ghost_name }
    ensures unwritten { OnErr result (text.new.writer.now ≡ text.old.writer.now) }
{
    let tables = read_whole_tables(alloc, layout)?;
    let names = names_of(alloc, &tables.exports)?;
    refuse_laid_out(text, image, &tables, &names);
    Ok(())
}

/// Adds the line of a refused image: its fault, what has none, and what its file says of itself if that is asked for. All memory is
/// taken before its first byte.
fn write_refused<A: Allocator + Copy, W: Sink>(
    alloc: A,
    text: &mut TextWriter<W>,
    name: &[u8],
    beyond: Option<Beyond>,
    file: ViewFile,
    fault: &Fault,
) -> Result<(), AllocError>
    requires { IsReady W.failures text.old }
    ensures adds { IfOk result (λ _. Adds W.taken W.failures text.old text.new
        (refused_line name.now (seen_of file.entry) (told_of file.entry) fault.now
        (image_members (seen_of file.entry) ++ refused_beyond beyond (seen_of file.entry)))) }
    ensures same { text.new.writer.ghost_name ≡ text.old.writer.ghost_name }
    ensures unwritten { OnErr result (text.new.writer.now ≡ text.old.writer.now) }
    ensures memory { OnErr result (0 < length (seen_of file.entry)) }
{
    let Ok(headers) = file.headers() else {
        refuse(text, name, file, fault);
        return Ok(());
    };
    let findings = own_findings(alloc, beyond, file.beginning(), &headers)?;
    let image = RefusedImage {
        name,
        file,
        fault,
        headers: &headers,
        beyond,
        findings: &findings,
    };
    match file.lay_out() {
        Ok(layout) => write_laid_out(alloc, text, image, &layout),
        Err(_) => {
            refuse_unlaid(text, image);
            Ok(())
        }
    }
}

/// Adds the line of an image without a fault, with what is told beyond its profile if that is asked for. Memory without
/// which there is no line is taken before its first byte.
fn write_accepted<A: Allocator + Copy, W: Sink>(
    alloc: A,
    text: &mut TextWriter<W>,
    name: &[u8],
    beyond: Option<Beyond>,
    file: ViewFile,
    image: &Image<A>,
) -> Result<(), AllocError>
    requires ready { IsReady W.failures text.old }
    requires image { IsImageOf 0 (seen_of file) image.now }
    requires small { length (seen_of file) ≤ 2 ^ 32 }
    ensures adds { IfOk result (λ _. Adds W.taken W.failures text.old text.new
        (image_file_line beyond name.now (told_of file.entry) (seen_of file.entry) Outcome.Done)) }
    ensures same { text.new.writer.ghost_name ≡ text.old.writer.ghost_name }
    ensures unwritten { OnErr result (text.new.writer.now ≡ text.old.writer.now) }
{
    let names = NamesByOrdinal::new(alloc, &image.exports)?;
    let headers = image.layout.headers();
    let content = Content {
        headers: &headers,
        strings: file.strings(&headers),
        exports: &image.exports,
        names: &names,
        imports: &image.imports,
        fixups: &image.fixups,
    };
    let Some(beyond) = beyond else {
        write_plain_image(text, name, content);
        return Ok(());
    };
    let bytes = file.beginning();
    let tree = leaves(alloc, &image.layout)?;
    let delayed = read_delay_imports(alloc, &image.layout)?;
    let found = findings_of(alloc, &image.layout, bytes, tree.findings.as_slice())?;
    write_image(
        alloc,
        text,
        name,
        content,
        beyond,
        bytes,
        &image.layout,
        delayed.as_slice(),
        tree.leaves.as_slice(),
        found.as_slice(),
    );
    Ok(())
}

/// Checks an image, and adds its line.
fn write_image_line<A: Allocator + Copy, W: Sink>(
    alloc: A,
    text: &mut TextWriter<W>,
    name: &[u8],
    beyond: Option<Beyond>,
    file: ViewFile,
) -> Result<Outcome, AllocError>
    requires { IsReady W.failures text.old }
    ensures verdict { IfOk result (IsOutcomeOf (image_tests 0 (seen_of file.entry))) }
    ensures adds { IfOk result (λ outcome. Adds W.taken W.failures text.old text.new
        (image_file_line beyond name.now (told_of file.entry) (seen_of file.entry) outcome)) }
    ensures same { text.new.writer.ghost_name ≡ text.old.writer.ghost_name }
    ensures unwritten { OnErr result (text.new.writer.now ≡ text.old.writer.now) }
    ensures memory { OnErr result (0 < length (seen_of file.entry)) }
{
    match file.read_image(alloc) {
        Ok(image) => {
            write_accepted(alloc, text, name, beyond, file, &image)?;
            Ok(Outcome::Done)
        }
        Err(TableError::Fault(fault)) => {
            write_refused(alloc, text, name, beyond, file, &fault)?;
            Ok(Outcome::Refused(fault))
        }
        Err(TableError::Memory) => Err(AllocError),
    }
}

/// Checks a file as an object if it begins like one, else as an image, and adds its line.
fn write_line<A: Allocator + Copy, W: Sink>(
    alloc: A,
    text: &mut TextWriter<W>,
    name: &[u8],
    beyond: Option<Beyond>,
    file: ViewFile,
) -> Result<Outcome, AllocError>
    requires { IsReady W.failures text.old }
    ensures verdict { IfOk result (IsOutcomeOf (file_tests (seen_of file.entry))) }
    ensures adds { IfOk result (λ outcome. Adds W.taken W.failures text.old text.new
        (file_line beyond name.now (told_of file.entry) (seen_of file.entry) outcome)) }
    ensures same { text.new.writer.ghost_name ≡ text.old.writer.ghost_name }
    ensures unwritten { OnErr result (text.new.writer.now ≡ text.old.writer.now) }
    ensures memory { OnErr result (0 < length (seen_of file.entry)) }
{
    match file.object() {
        Some(object) => Ok(write_object_line(text, name, object)),
        None => write_image_line(alloc, text, name, beyond, file),
    }
}

/// The line of [`json`] for a file as a view has it. On the error `Write` the beginning of the line was written, on `Memory` nothing;
/// `Read` never comes, and `Memory` not if the view has no byte. Condition: the writer has counted fewer than 2^64 - 1 failures so far.
pub fn print_line<A: Allocator + Copy, W: Sink>(
    alloc: A,
    writer: &mut W,
    name: &[u8],
    beyond: Option<Beyond>,
    file: ViewFile,
) -> Result<Outcome, ToolError>
    requires { W.failures writer.old < 2 ^ 64 - 1 }
    ensures puts { Puts (IsLine beyond name.now (told_of file.entry) (seen_of file.entry)) (W.taken writer.old) (W.taken writer.new)
        (W.failures writer.old) (W.failures writer.new) result }
    ensures memory { IsErrOf result ToolError.Memory → 0 < length (seen_of file.entry) }
{
    let mut text = TextWriter::new(writer);
    let Ok(outcome) = write_line(alloc, &mut text, name, beyond, file) else {
        return Err(ToolError::Memory);
    };
    match text.finish() {
        Ok(()) => Ok(outcome),
        Err(_) => Err(ToolError::Write),
    }
}

/// Writes the line of a file that its first bytes refuse.
fn print_refused<W: Sink>(
    writer: &mut W,
    name: &[u8],
    file: ViewFile,
    fault: Fault,
) -> Result<Outcome, ToolError>
    requires { W.failures writer.old < 2 ^ 64 - 1 }
    ensures puts { Puts (IsUnreadLine name.now (told_of file.entry) (seen_of file.entry) fault) (W.taken writer.old) (W.taken writer.new)
        (W.failures writer.old) (W.failures writer.new) result }
    ensures memory { IsErrOf result ToolError.Memory → ⊥ }
{
    let mut text = TextWriter::new(writer);
    refuse(&mut text, name, file, &fault);
    match text.finish() {
        Ok(()) => Ok(Outcome::Refused(fault)),
        Err(_) => Err(ToolError::Write),
    }
}

/// Writes one JSON object and a line feed for the image or object whose file comes from the reader: its content; or its first
/// fault, and of an image what has no fault, as [`crate`] says. `name` is that of the file in the line. With `beyond` the line of an image
/// has what that asks for too; of a refused one whose headers have no fault, what its file says of itself.
///
/// A file that begins like a COFF object is tested for the object faults of docs/FAULTS.md, and any other for the image faults.
/// `Done` means that it has none of these, and `Refused` has the first that it has.
///
/// At most 2^32 + 1 bytes are read; an outcome and `Write` come only after that many, or after the reader's end. The error is
/// `Read` or `Write` exactly if a call of that device failed, and `Memory` never comes if the reader returned no byte. On `Write`
/// the beginning of the line was written, on `Read` and `Memory` nothing. Condition: each device has counted fewer than 2^64 - 1
/// failures so far.
pub fn json<A: Allocator + Copy, R: Source, W: Sink>(
    alloc: A,
    name: &[u8],
    beyond: Option<Beyond>,
    reader: &mut R,
    writer: &mut W,
) -> Result<Outcome, ToolError>
    requires reads { R.failures reader.old < 2 ^ 64 - 1 }
    requires writes { W.failures writer.old < 2 ^ 64 - 1 }
    ensures ran { Ran (IsLineOf beyond name.now) (R.given reader.old) (R.given reader.new)
        (W.taken writer.old) (W.taken writer.new) (R.ended reader.new) result }
    ensures read { IsErrOf result ToolError.Read ↔ (R.failures reader.old < R.failures reader.new) }
    ensures write { IsErrOf result ToolError.Write ↔ (W.failures writer.old < W.failures writer.new) }
{
    let file = read_whole(alloc, reader)?;
    print_line(alloc, writer, name, beyond, ViewFile::whole(&file))
}

/// [`json`] for a file of `len` bytes. Of an image no more is read than the bytes before the end that its headers name, and those
/// before the end of its string table if a name of a section may be in it. The outcome is that of each file of `len` bytes that
/// begins so, and so is the line of an image without a fault; that of a refused one is what is told of the bytes that were read. Of
/// a file that its size or its first bytes refuse, as [`pe_reach::view_fault`] says, at most 4,096 bytes are read. An object, a file whose
/// first 4,096 bytes do not say where that end is, and with `beyond` any other file, is read whole.
///
/// The errors and the conditions are those of [`json`].
pub fn json_sized<A: Allocator + Copy, R: Source, W: Sink>(
    alloc: A,
    name: &[u8],
    beyond: Option<Beyond>,
    reader: &mut R,
    len: u64,
    writer: &mut W,
) -> Result<Outcome, ToolError>
    requires reads { R.failures reader.old < 2 ^ 64 - 1 }
    requires writes { W.failures writer.old < 2 ^ 64 - 1 }
    ensures ran { RanSized beyond name.now len (R.given reader.old) (R.given reader.new)
        (W.taken writer.old) (W.taken writer.new) (R.ended reader.new) result }
    ensures read { IsErrOf result ToolError.Read ↔ (R.failures reader.old < R.failures reader.new) }
    ensures write { IsErrOf result ToolError.Write ↔ (W.failures writer.old < W.failures writer.new) }
{
    let seen = read_view(alloc, reader, len)?;
    faults_agree();
    if let Some(fault) = seen.refused() {
        return print_refused(writer, name, seen.file(), fault);
    }
    if beyond.is_none() {
        return print_line(alloc, writer, name, None, seen.file());
    }
    let file = read_rest(reader, seen)?;
    print_line(alloc, writer, name, beyond, ViewFile::whole(&file))
}
