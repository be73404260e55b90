//! The debug directory of an image: what it says of time stamps and of the PDB file, and a row for each entry.

ghost use Rattle.pe_text.specs.TextWriter.{IsReady};
ghost use Rattle.pe_page.specs.Page.{AddsSome};

use crate::debug_data::write_data;
use crate::pdb::{Pdb, pdb_of};
use crate::shown_image::ShownImage;
use pe_layout::Layout;
use pe_page::Cell::{self, Plain};
use pe_page::{NOTHING, decimal_width, plural, write_cells, write_heading};
use pe_reach::ViewFile;
use pe_records::{DebugEntry, Records, debug_type, debug_type_name};
use pe_text::Part::{Decimal, Hex, Text};
use pe_text::{ShowOptions, Sink, TextWriter};

/// The column of the types of entries.
const TYPE_WIDTH: usize = 21;

/// Whether entry `index` has this type.
fn has_type(entries: &Records<DebugEntry>, index: u32, kind: u32) -> bool {
    match entries.get(index) {
        Some(entry) => entry.kind == kind,
        None => false,
    }
}

/// Whether the debug directory has an entry of a reproducible build: then the time stamps of the image are no dates.
pub fn is_reproducible(layout: &Layout) -> bool {
    let entries: Records<DebugEntry> = Records::of(layout);
    for index in 0..entries.len() {
        if has_type(&entries, index, debug_type::REPRO) {
            return true;
        }
    }
    false
}

/// The PDB file that entry `index` names, if it names one.
fn pdb_at<'a>(
    entries: &Records<'a, DebugEntry>,
    index: u32,
    file: ViewFile<'a>,
) -> Option<Pdb<'a>> {
    match entries.get(index) {
        Some(entry) => pdb_of(&entry, file.beginning()),
        None => None,
    }
}

/// The PDB file of an image, which the first entry names that names one.
pub fn image_pdb<'a>(layout: &Layout<'a>, file: ViewFile<'a>) -> Option<Pdb<'a>> {
    let entries: Records<DebugEntry> = Records::of(layout);
    for index in 0..entries.len() {
        let pdb = pdb_at(&entries, index, file);
        if pdb.is_some() {
            return pdb;
        }
    }
    None
}

/// Adds the summary of the debug directory: how many entries it has, and the name of the PDB file.
pub(crate) fn write_debug_summary<W: Sink>(text: &mut TextWriter<W>, image: &ShownImage)
    requires { IsReady W.failures text.old }
    ensures { AddsSome W.taken W.failures text.old text.new }
{
    let entries: Records<DebugEntry> = Records::of(image.layout);
    let count = entries.len();
    let [words, name] = match image_pdb(image.layout, image.file) {
        Some(pdb) => [Plain(Text(b", PDB ")), Cell::Name(pdb.file_name())],
        None => [NOTHING, NOTHING],
    };
    write_cells(
        text,
        &[
            Cell::Count(u64::from(count)),
            plural(count as usize, b" entry", b" entries"),
            words,
            name,
        ],
    );
}

/// The cells for the type of an entry: its name or its number, and blanks up to the next column.
fn type_cells(kind: u32) -> [Cell<'static>; 3] {
    match debug_type_name(kind) {
        Some(name) => [
            Plain(Text(name.as_bytes())),
            NOTHING,
            Cell::Blanks(TYPE_WIDTH.saturating_sub(name.len())),
        ],
        None => {
            let number = u64::from(kind);
            let width = decimal_width(number).saturating_add(5);
            [
                Plain(Text(b"type ")),
                Plain(Decimal(number)),
                Cell::Blanks(TYPE_WIDTH.saturating_sub(width)),
            ]
        }
    }
}

/// Adds the row of an entry.
fn write_entry<W: Sink>(text: &mut TextWriter<W>, file: ViewFile, index: u32, entry: &DebugEntry)
    requires { IsReady W.failures text.old }
    ensures { AddsSome W.taken W.failures text.old text.new }
{
    let [kind, number, gap] = type_cells(entry.kind);
    write_cells(
        text,
        &[
            Cell::Right(u64::from(index), 4),
            Plain(Text(b"  ")),
            kind,
            number,
            gap,
            Plain(Text(b"  0x")),
            Plain(Hex(u64::from(entry.address_of_raw_data), 6)),
            Plain(Text(b"   0x")),
            Plain(Hex(u64::from(entry.pointer_to_raw_data), 6)),
            Plain(Text(b"   0x")),
            Plain(Hex(u64::from(entry.size_of_data), 4)),
        ],
    );
    write_data(text, file, entry);
    text.text(b"\n");
}

/// Adds the row of entry `index`, if there is one.
fn write_row<W: Sink>(
    text: &mut TextWriter<W>,
    file: ViewFile,
    entries: &Records<DebugEntry>,
    index: u32,
)
    requires { IsReady W.failures text.old }
    ensures { AddsSome W.taken W.failures text.old text.new }
{
    if let Some(entry) = entries.get(index) {
        write_entry(text, file, index, &entry);
    }
}

/// Adds a row for each entry of the debug directory, if the options select them.
pub fn write_debug<W: Sink>(text: &mut TextWriter<W>, options: &ShowOptions, image: &ShownImage)
    requires { IsReady W.failures text.old }
    ensures { AddsSome W.taken W.failures text.old text.new }
{
    let entries: Records<DebugEntry> = Records::of(image.layout);
    if !options.debug || entries.is_empty() {
        return;
    }
    write_heading(text, options, b"Debug directory", entries.len() as usize);
    text.text(b"   #  type                   RVA        file       bytes\n");
    for index in 0..entries.len() {
        if text.has_failed() {
            return;
        }
        write_row(text, image.file, &entries, index);
    }
}
