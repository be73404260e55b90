//! The table of an image's data directories, with a summary of each table that was read.

ghost use Rattle.pe_text.specs.TextWriter.{IsReady};
ghost use Rattle.pe_page.specs.Page.{AddsSome};

use crate::fixups::same_page;
use crate::imports::{module_len, module_name, same_module};
use pe_head::{Directory, directory_index, directory_name};
use pe_image::Tables;
use pe_layout::Layout;
use pe_page::Cell::{self, Plain};
use pe_page::{
    NOTHING, Page, SectionNames, count_width, module_width, plural, section_width, write_cells,
    write_heading,
};
use pe_record_pages::{ShownImage, write_table_summary};
use pe_tables::{Exports, Fixup, Import, Target};
use pe_text::Part::{Hex, Text};
use pe_text::{Sink, TextWriter, hex_width};
use std::alloc::Allocator;

/// What comes before the first module if the modules that imports come from are on a row of their own.
const BELOW: &[u8] = b":\n      ";

/// How many directories are present, and the widths of their columns.
#[derive(Clone, Copy)]
struct Widths {
    count: usize,
    name: usize,
    rva: u8,
    size: u8,
    section: usize,
}

/// Whether a directory has a table.
fn is_present(directory: &Directory) -> bool {
    directory.rva != 0 || directory.size != 0
}

/// The name of a directory's table.
fn name_of(index: usize) -> &'static [u8] {
    match directory_name(u32::try_from(index).unwrap_or(u32::MAX)) {
        Some(name) => name.as_bytes(),
        None => b"",
    }
}

/// The name of the section in which a directory's table begins, or `file offset` for certificates, whose place is one.
fn section_of<'a>(
    layout: &Layout,
    names: &SectionNames<'a>,
    index: usize,
    directory: &Directory,
) -> &'a [u8] {
    if index == directory_index::CERTIFICATE {
        b"file offset"
    } else {
        names.place(layout, directory.rva).name
    }
}

/// The number and the widths of the directories that are present.
fn widths_of(layout: &Layout, names: &SectionNames) -> Widths {
    let mut widths = Widths {
        count: 0,
        name: 6,
        rva: 6,
        size: 5,
        section: 12,
    };
    let headers = layout.headers();
    for (index, directory) in headers.directories.as_slice().iter().enumerate() {
        if is_present(directory) {
            widths.count = widths.count.saturating_add(1);
            widths.name = widths.name.max(name_of(index).len());
            widths.rva = widths.rva.max(hex_width(u64::from(directory.rva)));
            widths.size = widths.size.max(hex_width(u64::from(directory.size)));
            let section = section_of(layout, names, index, directory);
            widths.section = widths.section.max(section_width(section));
        }
    }
    widths
}

/// Adds the numbers of exports and of forwarders.
fn write_export_count<A: Allocator + Copy, W: Sink>(text: &mut TextWriter<W>, exports: &Exports<A>)
    requires { IsReady W.failures text.old }
    ensures { AddsSome W.taken W.failures text.old text.new }
{
    let forwarders = exports
        .ordinals()
        .iter()
        .filter(|export| matches!(export.1, Target::Forward { .. }))
        .count();
    write_cells(
        text,
        &[
            Cell::Count(exports.ordinals().len() as u64),
            plural(exports.ordinals().len(), b" export, ", b" exports, "),
            Cell::Count(forwarders as u64),
            plural(forwarders, b" forwarder\n", b" forwarders\n"),
        ],
    );
}

/// The end of the row of the imports if it does not name all modules: where they are.
fn elsewhere(page: &Page) -> &'static [u8] {
    if page.options.imports {
        b" below\n"
    } else {
        b": --imports\n"
    }
}

/// How many columns a module takes that imports come from: `, KERNEL32.dll 12`.
fn run_width(run: &[Import]) -> usize {
    let name = match run.first() {
        Some(import) => module_width(module_name(import)),
        None => 0,
    };
    name.saturating_add(3)
        .saturating_add(count_width(run.len() as u64))
}

/// How many columns the modules take that imports come from, and how many they are: as often as others come between its imports a
/// module counts again.
fn runs_of(imports: &[Import]) -> (usize, usize) {
    let mut columns: usize = 0;
    let mut count: usize = 0;
    for run in imports.chunk_by(same_module) {
        columns = columns.saturating_add(run_width(run));
        count = count.saturating_add(1);
    }
    (columns, count)
}

/// Where the modules that imports come from are named, how many of them, and how many they are.
#[derive(Clone, Copy)]
struct Listing {
    /// Whether they are on a row of their own.
    is_below: bool,
    named: usize,
    count: usize,
}

/// How many of `count` modules fit on a row of their own, if all take so many columns: all, or as many as fit with the number of the
/// others behind them.
fn named_below(page: &Page, imports: &[Import], columns: usize, count: usize) -> usize {
    // six blanks begin the row, and the first has no comma and no blank before it
    let room = page.width.saturating_sub(4);
    if columns <= room {
        return count;
    }
    let end = elsewhere(page).len().saturating_add(9);
    let mut left = room.saturating_sub(end.saturating_add(count_width(count as u64)));
    let mut named: usize = 0;
    for run in imports.chunk_by(same_module) {
        let width = run_width(run);
        if width > left {
            return named;
        }
        left -= width;
        named = named.saturating_add(1);
    }
    named
}

/// How the modules are named that imports come from: on the row of the imports if all fit into `room` columns, otherwise on a row of
/// their own.
fn listing_of(page: &Page, imports: &[Import], room: usize) -> Listing {
    let (columns, count) = runs_of(imports);
    if columns <= room {
        return Listing {
            is_below: false,
            named: count,
            count,
        };
    }
    Listing {
        is_below: true,
        named: named_below(page, imports, columns, count),
        count,
    }
}

/// What comes before a module that is named.
fn before_run(listing: Listing, place: usize) -> &'static [u8] {
    match (place, listing.is_below) {
        (0, true) => BELOW,
        (0, false) => b": ",
        _ => b", ",
    }
}

/// Adds a module that imports come from after `before`, and how many of the imports these are.
fn write_run<W: Sink>(text: &mut TextWriter<W>, before: &'static [u8], run: &[Import])
    requires { IsReady W.failures text.old }
    ensures { AddsSome W.taken W.failures text.old text.new }
{
    let name = match run.first() {
        Some(import) => module_name(import),
        None => b"",
    };
    write_cells(
        text,
        &[
            Plain(Text(before)),
            Cell::Module(name),
            Plain(Text(b" ")),
            Cell::Count(run.len() as u64),
        ],
    );
}

/// Adds the modules that imports come from, as many as are named.
fn write_runs<W: Sink>(text: &mut TextWriter<W>, imports: &[Import], listing: Listing)
    requires { IsReady W.failures text.old }
    ensures { AddsSome W.taken W.failures text.old text.new }
{
    let mut at = 0;
    for place in 0..listing.named {
        let len = module_len(&imports[at..]);
        write_run(text, before_run(listing, place), &imports[at..at + len]);
        at += len;
    }
}

/// Adds the end of the list of modules: how many are not named, if some are not, and where they are.
fn write_more<W: Sink>(text: &mut TextWriter<W>, page: &Page, listing: Listing)
    requires { IsReady W.failures text.old }
    ensures { AddsSome W.taken W.failures text.old text.new }
{
    let more = listing.count.saturating_sub(listing.named);
    if more == 0 {
        text.text(b"\n");
        return;
    }
    let (words, noun) = if listing.named == 0 {
        (
            Plain(Text(b" from ")),
            plural(more, b" module", b" modules"),
        )
    } else {
        (Plain(Text(b" and ")), Plain(Text(b" more")))
    };
    write_cells(
        text,
        &[
            words,
            Cell::Count(more as u64),
            noun,
            Plain(Text(elsewhere(page))),
        ],
    );
}

/// The noun behind a number of imports.
fn import_noun(count: usize) -> &'static [u8] {
    if count == 1 { b" import" } else { b" imports" }
}

/// Adds the number of imports, for which `room` columns are left, and how many come from each module, as far as that fits.
fn write_import_count<W: Sink>(
    text: &mut TextWriter<W>,
    page: &Page,
    imports: &[Import],
    room: usize,
)
    requires { IsReady W.failures text.old }
    ensures { AddsSome W.taken W.failures text.old text.new }
{
    let noun = import_noun(imports.len());
    write_cells(
        text,
        &[Cell::Count(imports.len() as u64), Plain(Text(noun))],
    );
    let words = count_width(imports.len() as u64).saturating_add(noun.len());
    let room = room.saturating_sub(words);
    let listing = listing_of(page, imports, room);
    write_runs(text, imports, listing);
    write_more(text, page, listing);
}

/// The cells for the number of pages of base relocations, or that their pages do not ascend.
fn page_cells(fixups: &[Fixup]) -> [Cell<'static>; 3] {
    if !fixups.iter().is_sorted_by_key(|fixup| fixup.field >> 12) {
        let words = Plain(Text(b", not in the order of their pages\n"));
        return [words, NOTHING, NOTHING];
    }
    let pages = fixups.chunk_by(same_page).count();
    [
        Plain(Text(b" in ")),
        Cell::Count(pages as u64),
        plural(pages, b" page\n", b" pages\n"),
    ]
}

/// Adds the numbers of base relocations and of their pages.
fn write_fixup_count<W: Sink>(text: &mut TextWriter<W>, fixups: &[Fixup])
    requires { IsReady W.failures text.old }
    ensures { AddsSome W.taken W.failures text.old text.new }
{
    let [words, pages, end] = page_cells(fixups);
    write_cells(
        text,
        &[
            Cell::Count(fixups.len() as u64),
            plural(fixups.len(), b" fixup", b" fixups"),
            words,
            pages,
            end,
        ],
    );
}

/// Adds a summary of a directory's table, for which `room` columns are left.
fn write_summary<A: Allocator + Copy, W: Sink>(
    text: &mut TextWriter<W>,
    page: &Page,
    image: &ShownImage,
    index: usize,
    tables: &Tables<A>,
    room: usize,
)
    requires { IsReady W.failures text.old }
    ensures { AddsSome W.taken W.failures text.old text.new }
{
    match (index, &tables.exports, &tables.imports, &tables.fixups) {
        (directory_index::EXPORT, Some(exports), _, _) => write_export_count(text, exports),
        (directory_index::IMPORT, _, Some(imports), _) => {
            write_import_count(text, page, imports, room);
        }
        (directory_index::BASE_RELOCATION, _, _, Some(fixups)) => write_fixup_count(text, fixups),
        _ => write_table_summary(text, image, index),
    }
}

/// How many columns of a page are left after those of a directory.
fn room_of(page: &Page, widths: &Widths) -> usize {
    let digits = usize::from(widths.rva) + usize::from(widths.size);
    let names = widths.name.saturating_add(widths.section);
    page.width
        .saturating_sub(names.saturating_add(digits).saturating_add(22))
}

/// Adds the row of a directory, if it is present.
fn write_directory<A: Allocator + Copy, W: Sink>(
    text: &mut TextWriter<W>,
    page: &Page,
    image: &ShownImage,
    widths: &Widths,
    index: usize,
    directory: &Directory,
    section: &[u8],
    tables: &Tables<A>,
)
    requires { IsReady W.failures text.old }
    ensures { AddsSome W.taken W.failures text.old text.new }
{
    if !is_present(directory) {
        return;
    }
    write_cells(
        text,
        &[
            Cell::Right(index as u64, 4),
            Plain(Text(b"  ")),
            Cell::Column(name_of(index), widths.name),
            Plain(Text(b"   0x")),
            Plain(Hex(u64::from(directory.rva), widths.rva)),
            Plain(Text(b"   0x")),
            Plain(Hex(u64::from(directory.size), widths.size)),
            Plain(Text(b"   ")),
            Cell::Column(section, widths.section),
            Plain(Text(b"   ")),
        ],
    );
    write_summary(text, page, image, index, tables, room_of(page, widths));
}

/// Adds the table of the data directories that are present.
pub(crate) fn write_directories<A: Allocator + Copy, W: Sink>(
    text: &mut TextWriter<W>,
    page: &Page,
    image: &ShownImage,
    names: &SectionNames,
    tables: &Tables<A>,
)
    requires { IsReady W.failures text.old }
    ensures { AddsSome W.taken W.failures text.old text.new }
{
    let headers = image.layout.headers();
    let widths = widths_of(image.layout, names);
    write_heading(text, page.options, b"Tables", widths.count);
    for (index, directory) in headers.directories.as_slice().iter().enumerate() {
        let section = section_of(image.layout, names, index, directory);
        write_directory(
            text, page, image, &widths, index, directory, section, tables,
        );
    }
}
