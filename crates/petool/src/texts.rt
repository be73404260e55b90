//! Engines run with standard output as their output.

ghost use Rattle.std.specs.Prelude.{◌-◌, ◌^◌, ◌<◌, ◌≤◌, OnOk};

use crate::headed::{Headed, Heading};
use crate::kept::{Kept, Reads, is_archive, read_kept};
use crate::output::Output;
use coff_archive_json::{archive_json, archive_json_text};
use coff_archive_page::{show_archive, show_archive_text};
use coff_lines::{archive_text, either_object_text, object_text};
use pe_at::{Spot, at_each_sized, at_each_text, at_map};
use pe_detail::{Detail, fault_detail};
use pe_json::{Beyond, json_parts, json_sized, print_line};
use pe_lines::{
    check_parts, check_sized, check_text, dump_parts, dump_sized, dump_text, sum_sized, sum_text,
};
use pe_map_lines::{map_report, map_report_delayed, map_report_unbound};
use pe_reach::{PartSource, Placed, ViewFile, size_fault};
use pe_resource_files::{resource_list_sized, resource_list_text};
use pe_show::{Page, ShowOptions, show_page_sized, show_page_text};
use pe_space::{Policy, SetEntry};
use pe_text::{Counted, Outcome, READ_LIMIT, Sink, Source, ToolError, read_up_to, write_refusal};
use pe_tool::{dump_either_object_sized, dump_object_sized};
use pe_view::{Fault, View};
use std::alloc::Allocator;
use std::io;
use std::io::{BufWriter, Error, Read, Seek, Write};

/// The size of the buffer for standard output, in bytes.
pub const OUTPUT_BUFFER: usize = 1 << 16;

/// The engines that read one file.
#[derive(Clone, Copy)]
pub enum Engine<'e> {
    /// `pe_lines::check`
    Check,
    /// `pe_lines::dump`
    Dump,
    /// `coff_lines::dump_object`
    Object,
    /// `coff_lines::dump_either_object`
    EitherObject,
    /// `coff_lines::dump_archive`
    Archive,
    /// `pe_show::show_page`, or of an archive `coff_archive_page::show_archive`
    Show {
        options: ShowOptions,
        /// How many columns pages have.
        width: usize,
    },
    /// `pe_json::json`, or of an archive `coff_archive_json::archive_json`
    Json {
        /// What lines have beyond the profile.
        beyond: Option<Beyond>,
    },
    /// `pe_lines::sum`
    Sum,
    /// `pe_at::at_each`
    At(&'e [Spot<'e>]),
    /// `pe_resource_files::resource_list`
    Resources,
}

/// What the report of `map` has.
#[derive(Clone, Copy)]
pub(crate) struct MapReport {
    /// The window whose bytes it has, if any: the address of the first, and how many.
    pub window: Option<(u64, u32)>,
    /// Whether delay-loaded imports are bound too.
    pub is_delayed: bool,
    /// Whether it has the imports that are bound to nothing.
    pub is_unbound: bool,
}

/// What to print.
#[derive(Drop)]
pub(crate) enum Text<'a, F> {
    /// The output of an engine for an open file, cut after `most` bytes. `size` is the file's size, if that is known; `is_headed`
    /// says whether a heading comes before the output.
    File {
        engine: Engine<'a>,
        name: &'a [u8],
        size: Option<u64>,
        is_headed: bool,
        most: Option<u64>,
        file: F,
    },
    /// The report of `map`.
    Map {
        set: &'a [SetEntry<'a>],
        policy: Policy,
        report: MapReport,
    },
    /// What is at addresses of the address space of a set.
    AtMap {
        set: &'a [SetEntry<'a>],
        policy: Policy,
        addresses: &'a [u64],
    },
    /// The line of the fault by which `map` refuses a set of files.
    Refusal(Fault),
}

/// An engine's result, and the system's error if standard output failed.
#[derive(Clone, Copy)]
pub(crate) struct Printed {
    pub answer: Result<Outcome, ToolError>,
    /// The numbers that the rule of the fault compares, if the file was read whole.
    pub detail: Option<Detail>,
    pub error: Option<Error>,
    /// Whether the output was longer than allowed, and was cut at the limit, with a note.
    pub is_cut: bool,
}

/// The greatest number of bytes to print.
fn most_of<F>(text: &Text<'_, F>) -> u64 {
    match text {
        Text::File {
            most: Some(most),
            ..
        } => *most,
        _ => u64::MAX,
    }
}

/// The end of the colours of output that was cut.
fn colours_end<F>(text: &Text<'_, F>) -> &'static str {
    match text {
        Text::File {
            engine: Engine::Show { options, .. },
            ..
        } if options.is_coloured => "\x1b[0m",
        _ => "",
    }
}

/// Writes the note after output that was cut.
fn write_note(output: &mut Output<impl Write>, colours_end: &str, most: u64) -> io::Result<()> {
    output.lift();
    write!(output, "{colours_end}\n(cut after {most} bytes)\n")
}

/// What comes before the output for a file: its name, or a blank line before a page.
fn heading_of<'n>(engine: Engine, name: &'n [u8], is_headed: bool) -> Heading<'n> {
    match engine {
        _ if !is_headed => Heading::Nothing,
        Engine::Check | Engine::Sum => Heading::Name(name),
        _ => Heading::BlankLine,
    }
}

/// The engines whose output has no faults in words.
#[derive(Clone, Copy)]
enum Lines<'e> {
    Check,
    Dump,
    Object,
    EitherObject,
    Sum,
    At(&'e [Spot<'e>]),
    Resources,
}

/// The result of an engine, and the numbers that the rule of the fault compares, if they are known.
type Judged = (Result<Outcome, ToolError>, Option<Detail>);

/// Writes the output of an engine for a file that was read whole.
fn lines_of<A: Allocator + Copy, W: Sink>(
    alloc: A,
    lines: Lines<'_>,
    file: &[u8],
    writer: &mut W,
) -> Result<Outcome, ToolError>
    requires { W.failures writer.old < 2 ^ 64 - 1 }
{
    match lines {
        Lines::Check => check_text(alloc, file, writer),
        Lines::Dump => dump_text(alloc, file, writer),
        Lines::Object => object_text(alloc, file, writer),
        Lines::EitherObject => either_object_text(alloc, file, writer),
        Lines::Sum => sum_text(alloc, file, writer),
        Lines::At(spots) => at_each_text(alloc, spots, file, writer),
        Lines::Resources => resource_list_text(alloc, file, writer),
    }
}

/// The numbers that the rule of the fault compares, by which a file that was read whole was refused.
fn detail_in(file: &[u8], answer: Result<Outcome, ToolError>) -> Option<Detail> {
    match answer {
        Ok(Outcome::Refused(fault)) => fault_detail(View::new(file), file.len() as u64, &fault),
        _ => None,
    }
}

/// What an engine reads files as.
fn reads_of(lines: Lines<'_>) -> Reads {
    match lines {
        Lines::Check | Lines::Dump | Lines::Sum | Lines::Resources => Reads::Images,
        Lines::Object | Lines::EitherObject => Reads::Objects,
        Lines::At(_) => Reads::All,
    }
}

/// Reads a file, which has `size` bytes if that is known, and writes the output of an engine.
fn write_lines<A: Allocator + Copy, R: Source, W: Sink>(
    alloc: A,
    lines: Lines<'_>,
    reader: &mut R,
    size: Option<u64>,
    writer: &mut W,
) -> Judged
    requires reads { R.failures reader.old < 2 ^ 64 - 1 }
    requires writes { W.failures writer.old < 2 ^ 64 - 1 }
{
    match read_kept(alloc, reads_of(lines), reader, size) {
        Ok(Kept::Whole(file)) => {
            let answer = lines_of(alloc, lines, &file, writer);
            (answer, detail_in(&file, answer))
        }
        Ok(Kept::Refused { first, len, fault }) => {
            let detail = fault_detail(View::new(&first), len, &fault);
            (write_refusal(writer, fault), detail)
        }
        Err(failure) => (Err(failure), None),
    }
}

/// How many bytes the signature of an archive has.
const SIGNATURE_LEN: usize = 8;

/// Writes the dump of an archive. Of another file no more is read than its first bytes.
fn write_archive<A: Allocator + Copy, R: Source, W: Sink>(
    alloc: A,
    reader: &mut R,
    writer: &mut W,
) -> Result<Outcome, ToolError>
    requires reads { R.failures reader.old < 2 ^ 64 - 1 }
    requires writes { W.failures writer.old < 2 ^ 64 - 1 }
{
    let beginning = read_up_to(reader, Vec::new(alloc), SIGNATURE_LEN)?;
    if !is_archive(&beginning.bytes) {
        return archive_text(alloc, &beginning.bytes, writer);
    }
    let file = read_up_to(reader, beginning.bytes, READ_LIMIT)?;
    archive_text(alloc, &file.bytes, writer)
}

/// Writes the page of a file that was read whole.
fn page_of<A: Allocator + Copy, W: Sink>(
    alloc: A,
    page: &Page,
    file: &[u8],
    writer: &mut W,
) -> Result<Outcome, ToolError>
    requires { W.failures writer.old < 2 ^ 64 - 1 }
{
    if is_archive(file) {
        show_archive_text(alloc, page, file, writer)
    } else {
        show_page_text(alloc, page, file, writer)
    }
}

/// Writes the lines of JSON of a file that was read whole.
fn json_of<A: Allocator + Copy, W: Sink>(
    alloc: A,
    name: &[u8],
    beyond: Option<Beyond>,
    file: &[u8],
    writer: &mut W,
) -> Result<Outcome, ToolError>
    requires { W.failures writer.old < 2 ^ 64 - 1 }
{
    if is_archive(file) {
        archive_json_text(alloc, name, file, writer)
    } else {
        print_line(alloc, writer, name, beyond, ViewFile::whole(file))
    }
}

/// Reads a file of an unknown size, and writes its page.
fn write_page<A: Allocator + Copy, R: Source, W: Sink>(
    alloc: A,
    page: &Page,
    reader: &mut R,
    writer: &mut W,
) -> Result<Outcome, ToolError>
    requires reads { R.failures reader.old < 2 ^ 64 - 1 }
    requires writes { W.failures writer.old < 2 ^ 64 - 1 }
{
    match read_kept(alloc, Reads::All, reader, None)? {
        Kept::Whole(file) => page_of(alloc, page, &file, writer),
        Kept::Refused {
            first,
            len,
            fault: _,
        } => {
            let mut reader = Counted::new(first.as_slice());
            show_page_sized(alloc, page, &mut reader, len, writer)
        }
    }
}

/// Reads a file of an unknown size, and writes its lines of JSON.
fn write_json<A: Allocator + Copy, R: Source, W: Sink>(
    alloc: A,
    name: &[u8],
    beyond: Option<Beyond>,
    reader: &mut R,
    writer: &mut W,
) -> Result<Outcome, ToolError>
    requires reads { R.failures reader.old < 2 ^ 64 - 1 }
    requires writes { W.failures writer.old < 2 ^ 64 - 1 }
{
    match read_kept(alloc, Reads::All, reader, None)? {
        Kept::Whole(file) => json_of(alloc, name, beyond, &file, writer),
        Kept::Refused {
            first,
            len,
            fault: _,
        } => {
            let mut reader = Counted::new(first.as_slice());
            json_sized(alloc, name, beyond, &mut reader, len, writer)
        }
    }
}

/// Runs an engine over a file whose size is not known, which is read to its end.
fn write_whole<A: Allocator + Copy, R: Source, W: Sink>(
    alloc: A,
    engine: Engine,
    name: &[u8],
    reader: &mut R,
    writer: &mut W,
) -> Judged
    requires reads { R.failures reader.old < 2 ^ 64 - 1 }
    requires writes { W.failures writer.old < 2 ^ 64 - 1 }
{
    match engine {
        Engine::Check => write_lines(alloc, Lines::Check, reader, None, writer),
        Engine::Dump => write_lines(alloc, Lines::Dump, reader, None, writer),
        Engine::Object => write_lines(alloc, Lines::Object, reader, None, writer),
        Engine::EitherObject => write_lines(alloc, Lines::EitherObject, reader, None, writer),
        Engine::Archive => (write_archive(alloc, reader, writer), None),
        Engine::Show { options, width } => {
            let page = Page {
                name,
                options: &options,
                width,
            };
            (write_page(alloc, &page, reader, writer), None)
        }
        Engine::Json { beyond } => (write_json(alloc, name, beyond, reader, writer), None),
        Engine::Sum => write_lines(alloc, Lines::Sum, reader, None, writer),
        Engine::At(spots) => write_lines(alloc, Lines::At(spots), reader, None, writer),
        Engine::Resources => write_lines(alloc, Lines::Resources, reader, None, writer),
    }
}

/// Whether a file of `size` bytes has more than an image or an object may have.
fn is_too_large(size: u64) -> bool {
    size_fault(size).is_some()
}

/// Runs an engine over a file of `size` bytes, of which no more is read than its output needs.
fn write_sized<A: Allocator + Copy, R: Source, W: Sink>(
    alloc: A,
    engine: Engine,
    name: &[u8],
    reader: &mut R,
    size: u64,
    writer: &mut W,
) -> Judged
    requires reads { R.failures reader.old < 2 ^ 64 - 1 }
    requires writes { W.failures writer.old < 2 ^ 64 - 1 }
{
    match engine {
        Engine::Check => (check_sized(alloc, reader, size, writer), None),
        Engine::Dump => (dump_sized(alloc, reader, size, writer), None),
        Engine::Object if is_too_large(size) => {
            (dump_object_sized(alloc, reader, size, writer), None)
        }
        Engine::Object => write_lines(alloc, Lines::Object, reader, Some(size), writer),
        Engine::EitherObject if is_too_large(size) => (
            dump_either_object_sized(alloc, reader, size, writer),
            None,
        ),
        Engine::EitherObject => write_lines(alloc, Lines::EitherObject, reader, Some(size), writer),
        Engine::Archive => match size_fault(size) {
            Some(fault) => (write_refusal(writer, fault), None),
            None => (write_archive(alloc, reader, writer), None),
        },
        Engine::Show { options, width } => {
            let page = Page {
                name,
                options: &options,
                width,
            };
            (show_page_sized(alloc, &page, reader, size, writer), None)
        }
        Engine::Json { beyond } => (json_sized(alloc, name, beyond, reader, size, writer), None),
        Engine::Sum if is_too_large(size) => (sum_sized(alloc, reader, size, writer), None),
        Engine::Sum => write_lines(alloc, Lines::Sum, reader, Some(size), writer),
        Engine::At(spots) => (at_each_sized(alloc, spots, reader, size, writer), None),
        Engine::Resources if is_too_large(size) => {
            (resource_list_sized(alloc, reader, size, writer), None)
        }
        Engine::Resources => write_lines(alloc, Lines::Resources, reader, Some(size), writer),
    }
}

/// Runs an engine over those parts of a file of `size` bytes from which its output may be known. `None` means that they do not
/// decide it, and that nothing was written.
fn write_parts<A: Allocator + Copy, R: PartSource, W: Sink>(
    alloc: A,
    engine: Engine,
    name: &[u8],
    reader: &mut R,
    size: u64,
    writer: &mut W,
) -> Result<Option<Outcome>, ToolError>
    requires reads { R.failures reader.old < 2 ^ 64 - 1 }
    requires writes { W.failures writer.old < 2 ^ 64 - 1 }
    ensures { OnOk result (W.failures writer.new ≤ W.failures writer.old) }
{
    match engine {
        Engine::Check => check_parts(alloc, reader, size, writer),
        Engine::Dump => dump_parts(alloc, reader, size, writer),
        Engine::Json { beyond: None } => json_parts(alloc, name, reader, size, writer),
        _ => Ok(None),
    }
}

/// Runs an engine over parts of an open file of `size` bytes, as [`write_parts`] does.
fn try_parts<A: Allocator + Copy, F: Read + Seek, W: Sink>(
    alloc: A,
    engine: Engine,
    name: &[u8],
    file: &mut F,
    size: u64,
    writer: &mut W,
) -> Result<Option<Outcome>, ToolError>
    requires { W.failures writer.old < 2 ^ 64 - 1 }
    ensures { OnOk result (W.failures writer.new ≤ W.failures writer.old) }
{
    let mut reader = Placed::new(file);
    write_parts(alloc, engine, name, &mut reader, size, writer)
}

/// Whether an engine has an archive in its own form, and not as a file that is neither image nor object.
fn tells_archives(engine: Engine) -> bool {
    matches!(engine, Engine::Show { .. } | Engine::Json { .. })
}

/// Whether an open file is an archive that an engine tells in its own form. Its first bytes are read for that, and it begins again.
fn is_told_archive<A: Allocator + Copy, F: Read + Seek>(
    alloc: A,
    engine: Engine,
    file: &mut F,
    size: u64,
) -> Result<bool, ToolError> {
    if !tells_archives(engine) || is_too_large(size) {
        return Ok(false);
    }
    let beginning = read_up_to(
        &mut Counted::new(&mut *file),
        Vec::new(alloc),
        SIGNATURE_LEN,
    )?;
    match file.rewind() {
        Ok(()) => Ok(is_archive(&beginning.bytes)),
        Err(_) => Err(ToolError::Read),
    }
}

/// Runs an engine over an archive.
fn write_told_archive<A: Allocator + Copy, R: Source, W: Sink>(
    alloc: A,
    engine: Engine,
    name: &[u8],
    reader: &mut R,
    writer: &mut W,
) -> Result<Outcome, ToolError>
    requires reads { R.failures reader.old < 2 ^ 64 - 1 }
    requires writes { W.failures writer.old < 2 ^ 64 - 1 }
{
    match engine {
        Engine::Json { .. } => archive_json(alloc, name, reader, writer),
        Engine::Show { options, width } => {
            let page = Page {
                name,
                options: &options,
                width,
            };
            show_archive(alloc, &page, reader, writer)
        }
        _ => write_archive(alloc, reader, writer),
    }
}

/// Runs an engine over a file of `size` bytes, of which it may need only some parts.
fn write_regular<A: Allocator + Copy>(
    alloc: A,
    engine: Engine,
    name: &[u8],
    mut file: impl Read + Seek + Drop,
    size: u64,
    writer: impl Write + Drop,
) -> Judged {
    let mut writer = Counted::new(writer);
    match is_told_archive(alloc, engine, &mut file, size) {
        Ok(true) => {
            let mut reader = Counted::new(file);
            return (
                write_told_archive(alloc, engine, name, &mut reader, &mut writer),
                None,
            );
        }
        Ok(false) => {}
        Err(error) => return (Err(error), None),
    }
    let tried = try_parts(alloc, engine, name, &mut file, size, &mut writer);
    if let Ok(Some(outcome)) = tried {
        return (Ok(outcome), None);
    }
    if let Err(error) = tried {
        return (Err(error), None);
    }
    if file.rewind().is_err() {
        return (Err(ToolError::Read), None);
    }
    let mut reader = Counted::new(file);
    write_sized(alloc, engine, name, &mut reader, size, &mut writer)
}

/// Writes the report of a set.
fn write_map<A: Allocator + Copy, W: Sink>(
    alloc: A,
    set: &[SetEntry],
    policy: Policy,
    report: MapReport,
    writer: &mut W,
) -> Result<Outcome, ToolError>
    requires { W.failures writer.old < 2 ^ 64 - 1 }
{
    let MapReport {
        window,
        is_delayed,
        is_unbound,
    } = report;
    if is_delayed {
        map_report_delayed(alloc, set, policy, is_unbound, window, writer)
    } else if is_unbound {
        map_report_unbound(alloc, set, policy, window, writer)
    } else {
        map_report(alloc, set, policy, window, writer)
    }
}

/// Runs an engine.
fn write_text<A: Allocator + Copy>(
    alloc: A,
    text: Text<'_, impl Read + Seek + Drop>,
    writer: impl Write + Drop,
) -> Judged {
    match text {
        Text::File {
            engine,
            name,
            size,
            is_headed,
            most: _,
            file,
        } => {
            let writer = Headed::new(writer, heading_of(engine, name, is_headed));
            match size {
                Some(size) => write_regular(alloc, engine, name, file, size, writer),
                None => {
                    let mut reader = Counted::new(file);
                    write_whole(alloc, engine, name, &mut reader, &mut Counted::new(writer))
                }
            }
        }
        Text::Map {
            set,
            policy,
            report,
        } => {
            let mut writer = Counted::new(writer);
            (write_map(alloc, set, policy, report, &mut writer), None)
        }
        Text::AtMap {
            set,
            policy,
            addresses,
        } => {
            let mut writer = Counted::new(writer);
            (at_map(alloc, set, policy, addresses, &mut writer), None)
        }
        Text::Refusal(fault) => (write_refusal(&mut Counted::new(writer), fault), None),
    }
}

/// The result of an engine, once its output is flushed.
pub(crate) fn flushed(
    answer: Result<Outcome, ToolError>,
    output: &mut Output<impl Write>,
) -> Printed {
    let answer = match output.flush() {
        Ok(()) => answer,
        Err(_) => Err(ToolError::Write),
    };
    Printed {
        answer,
        detail: None,
        error: output.error(),
        is_cut: output.is_cut() && output.error().is_none(),
    }
}

/// The result if memory for a buffer ran out.
pub(crate) const NO_ROOM: Printed = Printed {
    answer: Err(ToolError::Memory),
    detail: None,
    error: None,
    is_cut: false,
};

/// Runs an engine, and writes its output, up to its limit, to standard output.
pub(crate) fn print_text<R: Print + Alloc>(
    rt: &R,
    text: Text<'_, impl Read + Seek + Drop>,
) -> Printed
where
    R::A: Copy,
{
    let Ok(buffer) = BufWriter::with_capacity(rt.alloc(), OUTPUT_BUFFER, io::writer(rt)) else {
        return NO_ROOM;
    };
    let (most, colours_end) = (most_of(&text), colours_end(&text));
    let mut output = Output::limited(buffer, most);
    let (answer, detail) = write_text(rt.alloc(), text, &mut output);
    if output.is_cut() {
        let _ = write_note(&mut output, colours_end, most);
    }
    Printed {
        detail,
        ..flushed(answer, &mut output)
    }
}
