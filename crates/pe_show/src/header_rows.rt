//! The rows of a page for an image's headers.

ghost use Rattle.std.specs.Prelude.{◌≡◌, flat_map, option_map};
ghost use Rattle.pe_text.specs.Part.{part_text};
ghost use Rattle.pe_text.specs.TextWriter.{IsReady};
ghost use Rattle.pe_page.specs.Page.{AddsSome};
ghost use Rattle.pe_show.specs.Rows.{type_text};
ghost use Rattle.pe_show.specs.Words.{image_text, kind_text, no_date_text};

use pe_head::{FlagKind, Headers, Magic, characteristic, machine_name, subsystem_name};
use pe_page::Cell::{self, Plain};
use pe_page::{FlagRow, Kind, NOTHING, Page, SectionPlace, write_cells};
use pe_text::Part::{self, Decimal, Hex, Hex4, Hex8, Text};
use pe_text::{Sink, TextWriter, write_parts};

/// A value's name, or its number if the format has no name for it.
fn named(name: Option<&'static str>, value: u16) -> [Part<'static>; 2]
    ensures { flat_map part_text result ≡ type_text (option_map (λ name. name.now) name.entry) value }
{
    match name {
        Some(name) => [Text(name.as_bytes()), Text(b"")],
        None => [Text(b"0x"), Hex4(value)],
    }
}

/// What a file is: these words, and the name of the machine that it is for, or its number if the format has no name for it.
pub(crate) fn kind_of(words: &'static [u8], machine: u16) -> Kind
    ensures { flat_map part_text result ≡ kind_text words.now machine }
{
    match machine_name(machine) {
        Some(name) => [Text(words), Text(name.as_bytes()), Text(b""), Text(b", ")],
        None => [Text(words), Text(b"0x"), Hex4(machine), Text(b", ")],
    }
}

/// What an image is, before the machine that it is for.
fn image_words(headers: &Headers) -> &'static [u8]
    ensures { result.now ≡ image_text headers.now }
{
    let is_library = headers.characteristics & characteristic::DLL != 0;
    match (headers.magic, is_library) {
        (Magic::Pe32, false) => b"PE32 program for ",
        (Magic::Pe32, true) => b"PE32 library for ",
        (Magic::Pe32Plus, false) => b"PE32+ program for ",
        (Magic::Pe32Plus, true) => b"PE32+ library for ",
    }
}

/// What an image is: `PE32+ library for AMD64, `.
pub(crate) fn image_kind(headers: &Headers) -> Kind
    ensures { flat_map part_text result ≡ kind_text (image_text headers.now) headers.now.machine }
{
    kind_of(image_words(headers), headers.machine)
}

/// The first time stamp that may be a date: the beginning of 1990. The format is younger.
const FIRST_DATE: u32 = 631_152_000;

/// The last time stamp that may be a date: the last second that 31 bits count, in 2038.
const LAST_DATE: u32 = 0x7fff_ffff;

/// Why a time stamp is no date, if it is none.
fn no_date(seconds: u32, is_reproducible: bool) -> Option<&'static [u8]>
    ensures { option_map (λ words. words.now) result ≡ no_date_text seconds is_reproducible }
{
    if is_reproducible {
        Some(b"reproducible build")
    } else if seconds < FIRST_DATE {
        Some(b"before 1990")
    } else if seconds > LAST_DATE {
        Some(b"past 2038-01-19")
    } else {
        None
    }
}

/// Adds the row of a time stamp; 0 and the greatest number mean none. That of a reproducible build is a part of a hash.
pub(crate) fn write_stamp<W: Sink>(text: &mut TextWriter<W>, seconds: u32, is_reproducible: bool)
    requires { IsReady W.failures text.old }
    ensures { AddsSome W.taken W.failures text.old text.new }
{
    let is_set = seconds != 0 && seconds != u32::MAX;
    let digits = Plain(Hex8(u64::from(seconds)));
    let [first, second, third, last] = match no_date(seconds, is_reproducible) {
        _ if !is_set => [Plain(Text(b"not set (0x")), digits, NOTHING, NOTHING],
        Some(reason) => [
            Plain(Text(b"0x")),
            digits,
            Plain(Text(b" (no date: ")),
            Plain(Text(reason)),
        ],
        None => [Cell::Date(seconds), Plain(Text(b" (0x")), digits, NOTHING],
    };
    write_cells(
        text,
        &[
            Plain(Text(b"\n  Time stamp   ")),
            first,
            second,
            third,
            last,
            Plain(Text(b")\n")),
        ],
    );
}

/// The row of flags behind words.
fn flag_row(page: &Page, words: &[u8]) -> FlagRow {
    FlagRow {
        column: words.len(),
        indent: words.len(),
        width: page.width,
    }
}

/// Adds the row of a field of flags. Those that do not fit are on further rows, below the first.
pub(crate) fn write_flag_row<W: Sink>(
    text: &mut TextWriter<W>,
    page: &Page,
    words: &[u8],
    kind: FlagKind,
    flags: u16,
)
    requires { IsReady W.failures text.old }
    ensures { AddsSome W.taken W.failures text.old text.new }
{
    write_cells(
        text,
        &[
            Plain(Text(words)),
            Plain(Text(if flags == 0 { b" none" } else { b"" })),
            Cell::Flags(kind, u32::from(flags), flag_row(page, words)),
            Plain(Text(b"\n")),
        ],
    );
}

/// Adds the rows of the linker and of versions.
fn write_versions<W: Sink>(text: &mut TextWriter<W>, headers: &Headers)
    requires { IsReady W.failures text.old }
    ensures { AddsSome W.taken W.failures text.old text.new }
{
    let [subsystem, number] = named(subsystem_name(headers.subsystem), headers.subsystem);
    let version = |part: u16| Decimal(u64::from(part));
    write_parts(
        text,
        &[
            Text(b"  Linker       "),
            version(u16::from(headers.major_linker_version)),
            Text(b"."),
            version(u16::from(headers.minor_linker_version)),
            Text(b"\n  Subsystem    "),
            subsystem,
            number,
            Text(b" "),
            version(headers.major_subsystem_version),
            Text(b"."),
            version(headers.minor_subsystem_version),
            Text(b" (operating system "),
            version(headers.major_operating_system_version),
            Text(b"."),
            version(headers.minor_operating_system_version),
            Text(b", image "),
            version(headers.major_image_version),
            Text(b"."),
            version(headers.minor_image_version),
            Text(b")\n"),
        ],
    );
}

/// Adds the row of the entry point: its RVA, and its place if the image is laid out.
fn write_entry<W: Sink>(text: &mut TextWriter<W>, rva: u32, place: Option<SectionPlace>)
    requires { IsReady W.failures text.old }
    ensures { AddsSome W.taken W.failures text.old text.new }
{
    match place {
        _ if rva == 0 => text.text(b"  Entry        none\n"),
        None => write_parts(
            text,
            &[
                Text(b"  Entry        0x"),
                Hex(u64::from(rva), 1),
                Text(b"\n"),
            ],
        ),
        Some(place) => {
            let (words, file) = match place.file {
                Some(file) => (Plain(Text(b"  file 0x")), Plain(Hex(file, 1))),
                None => (NOTHING, NOTHING),
            };
            write_cells(
                text,
                &[
                    Plain(Text(b"  Entry        0x")),
                    Plain(Hex(u64::from(rva), 1)),
                    Plain(Text(b"  ")),
                    Cell::Place(place),
                    words,
                    file,
                    Plain(Text(b"\n")),
                ],
            );
        }
    }
}

/// Adds the row of the image's base and size.
fn write_base<W: Sink>(text: &mut TextWriter<W>, headers: &Headers)
    requires { IsReady W.failures text.old }
    ensures { AddsSome W.taken W.failures text.old text.new }
{
    let is_stripped = headers.characteristics & characteristic::RELOCS_STRIPPED != 0;
    write_parts(
        text,
        &[
            Text(b"  Base         0x"),
            Hex(headers.image_base, 1),
            Text(b", 0x"),
            Hex(u64::from(headers.size_of_image), 1),
            Text(if is_stripped {
                b" bytes; must stand there\n"
            } else {
                b" bytes; may be moved\n"
            }),
        ],
    );
}

/// Adds the rows of sizes and of the checksum.
fn write_sizes<W: Sink>(text: &mut TextWriter<W>, headers: &Headers)
    requires { IsReady W.failures text.old }
    ensures { AddsSome W.taken W.failures text.old text.new }
{
    write_parts(
        text,
        &[
            Text(b"  Alignment    0x"),
            Hex(u64::from(headers.section_alignment), 1),
            Text(b" in memory, 0x"),
            Hex(u64::from(headers.file_alignment), 1),
            Text(b" in the file; headers 0x"),
            Hex(u64::from(headers.size_of_headers), 1),
            Text(b" bytes\n  Stack        0x"),
            Hex(headers.size_of_stack_reserve, 1),
            Text(b" reserved, 0x"),
            Hex(headers.size_of_stack_commit, 1),
            Text(b" committed; heap 0x"),
            Hex(headers.size_of_heap_reserve, 1),
            Text(b", 0x"),
            Hex(headers.size_of_heap_commit, 1),
            Text(b"\n  CheckSum     0x"),
            Hex8(u64::from(headers.check_sum)),
            Text(b"\n"),
        ],
    );
}

/// Adds the rows of an image's headers. `place` is that of the entry point, if the image is laid out; `is_reproducible` says whether
/// its time stamp is that of a reproducible build.
pub(crate) fn write_headers<W: Sink>(
    text: &mut TextWriter<W>,
    page: &Page,
    headers: &Headers,
    place: Option<SectionPlace>,
    is_reproducible: bool,
)
    requires { IsReady W.failures text.old }
    ensures { AddsSome W.taken W.failures text.old text.new }
{
    write_stamp(text, headers.time_date_stamp, is_reproducible);
    write_versions(text, headers);
    write_base(text, headers);
    write_entry(text, headers.address_of_entry_point, place);
    write_sizes(text, headers);
    write_flag_row(
        text,
        page,
        b"  Image flags ",
        FlagKind::File,
        headers.characteristics,
    );
    write_flag_row(
        text,
        page,
        b"  DLL flags   ",
        FlagKind::Dll,
        headers.dll_characteristics,
    );
}
