//! The cells of a row of a page, and how they are written.

ghost use Rattle.std.specs.Prelude.{◌≡◌, length, decimal};
ghost use Rattle.pe_text.specs.TextWriter.{IsReady, Adds};
ghost use Rattle.pe_page.specs.Page.{AddsSome};
ghost use Rattle.pe_page.specs.Rows.{blanks, right_text, column_text};

use crate::date::write_date;
use crate::flags::{FlagRow, write_flags};
use crate::key::write_key;
use crate::name::{section_width, write_module_name, write_name, write_section_name};
use crate::place::SectionPlace;
use itoa::Buffer;
use pe_head::FlagKind;
use pe_tables::Key;
use pe_text::Part::{self, Text};
use pe_text::{Sink, TextWriter, write_part, write_parts};

/// A cell of a row.
#[derive(Clone, Copy)]
pub enum Cell<'a> {
    /// A part of any line.
    Plain(Part<'a>),
    /// A name from the file.
    Name(&'a [u8]),
    /// The name of a section.
    Section(&'a [u8]),
    /// The name of an imported module.
    Module(&'a [u8]),
    /// The name of a section or a short word, padded with blanks to a width.
    Column(&'a [u8], usize),
    /// A number of blanks.
    Blanks(usize),
    /// A number in decimal, its digits in groups of three.
    Count(u64),
    /// A number in decimal, padded with blanks on the left to a width.
    Right(u64, usize),
    /// A time stamp as a date.
    Date(u32),
    /// The flags that are set in a field, by name.
    Flags(FlagKind, u32, FlagRow),
    /// The name of an export or import, or `#` and an ordinal.
    Key(Key<'a>),
    /// The place of an RVA, like `.text+0x350`.
    Place(SectionPlace<'a>),
}

/// An empty cell.
pub const NOTHING: Cell<'static> = Cell::Plain(Text(b""));

/// The singular or plural of a noun, for a count.
pub fn plural(count: usize, one: &'static [u8], more: &'static [u8]) -> Cell<'static> {
    Cell::Plain(Text(if count == 1 { one } else { more }))
}

/// The most blanks in sequence. It is enough, since names of sections are cut to fewer columns.
const BLANKS: [u8; 256] = [b' '; 256];

/// A number of blanks, at most 256.
pub fn blanks(count: usize) -> &'static [u8]
    ensures { result.now ≡ blanks count }
{
    &BLANKS[..count.min(BLANKS.len())]
}

/// How many digits a number has in decimal.
pub fn decimal_width(number: u64) -> usize
    ensures { result ≡ length (decimal number) }
{
    Buffer::new().format(number).len()
}

/// How many columns a number takes in decimal with a comma before each group of three digits.
pub fn count_width(number: u64) -> usize {
    let digits = decimal_width(number);
    digits.saturating_add(digits.saturating_sub(1) / 3)
}

/// Adds a number in decimal, with a comma before each group of three digits: `135,168`.
fn write_count<W: Sink>(text: &mut TextWriter<W>, number: u64)
    requires { IsReady W.failures text.old }
    ensures { AddsSome W.taken W.failures text.old text.new }
{
    let mut buffer = Buffer::new();
    let digits = buffer.format(number).as_bytes();
    let (first, others) = digits.split_at(((digits.len() + 2) % 3 + 1).min(digits.len()));
    text.text(first);
    for group in others.chunks(3) {
        write_parts(text, &[Text(b","), Text(group)]);
    }
}

/// Adds a number in decimal, padded with blanks on the left to a width.
pub fn write_right<W: Sink>(text: &mut TextWriter<W>, number: u64, width: usize)
    requires { IsReady W.failures text.old }
    ensures { Adds W.taken W.failures text.old text.new (right_text number width) }
{
    let mut buffer = Buffer::new();
    let digits = buffer.format(number).as_bytes();
    text.text(blanks(width.saturating_sub(digits.len())));
    text.text(digits);
}

/// Adds the name of a section or a short word, padded with blanks to a width.
pub fn write_column<W: Sink>(text: &mut TextWriter<W>, name: &[u8], width: usize)
    requires { IsReady W.failures text.old }
    ensures { Adds W.taken W.failures text.old text.new (column_text name.now width) }
{
    write_section_name(text, name);
    text.text(blanks(width.saturating_sub(section_width(name))));
}

/// Adds a cell.
fn write_cell<W: Sink>(text: &mut TextWriter<W>, cell: &Cell)
    requires { IsReady W.failures text.old }
    ensures { AddsSome W.taken W.failures text.old text.new }
{
    match cell {
        Cell::Plain(part) => write_part(text, part),
        Cell::Name(name) => write_name(text, name),
        Cell::Section(name) => write_section_name(text, name),
        Cell::Module(name) => write_module_name(text, name),
        Cell::Column(name, width) => write_column(text, name, *width),
        Cell::Blanks(count) => text.text(blanks(*count)),
        Cell::Count(number) => write_count(text, *number),
        Cell::Right(number, width) => write_right(text, *number, *width),
        Cell::Date(seconds) => write_date(text, *seconds),
        Cell::Flags(kind, flags, row) => write_flags(text, *kind, *flags, row),
        Cell::Key(key) => write_key(text, *key),
        Cell::Place(place) => place.write(text),
    }
}

/// Adds cells in order.
pub fn write_cells<W: Sink>(text: &mut TextWriter<W>, cells: &[Cell])
    requires { IsReady W.failures text.old }
    ensures { AddsSome W.taken W.failures text.old text.new }
{
    for cell in cells {
        write_cell(text, cell);
    }
}
