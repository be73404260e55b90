//! The load configuration of an image, one field per row.

ghost use Rattle.pe_text.specs.TextWriter.{IsReady};
ghost use Rattle.pe_page.specs.Page.{AddsSome};

use crate::shown_image::ShownImage;
use pe_layout::Layout;
use pe_page::Cell::{self, Plain};
use pe_page::{write_cells, write_heading};
use pe_records::{LOAD_FIELD_COUNT, Structure, load_configuration, load_field, load_field_name};
use pe_text::Part::{Decimal, Hex, Text};
use pe_text::{ShowOptions, Sink, TextWriter, write_parts};

/// The column of the names of fields.
const NAME_WIDTH: usize = 40;

/// The number in field `index`, if the structure has it.
fn number_of(structure: &Structure, index: usize) -> Option<u64> {
    structure.field(load_field(index)?)
}

/// Adds the summary of the load configuration: how many bytes it says that it has.
pub(crate) fn write_load_size<W: Sink>(text: &mut TextWriter<W>, layout: &Layout)
    requires { IsReady W.failures text.old }
    ensures { AddsSome W.taken W.failures text.old text.new }
{
    let size = match load_configuration(layout) {
        Some(structure) => number_of(&structure, 0),
        None => None,
    };
    match size {
        Some(size) => write_parts(text, &[Decimal(size), Text(b" bytes")]),
        None => text.text(b"no field"),
    }
}

/// How many fields a structure has.
fn count_of(structure: &Structure) -> usize {
    (0..LOAD_FIELD_COUNT)
        .filter(|index| number_of(structure, *index).is_some())
        .count()
}

/// The name of a field.
fn name_of(index: usize) -> &'static [u8] {
    match load_field_name(u32::try_from(index).unwrap_or(u32::MAX)) {
        Some(name) => name.as_bytes(),
        None => b"",
    }
}

/// Adds the row of field `index`, if the structure has it.
fn write_field<W: Sink>(text: &mut TextWriter<W>, structure: &Structure, index: usize)
    requires { IsReady W.failures text.old }
    ensures { AddsSome W.taken W.failures text.old text.new }
{
    let Some(number) = number_of(structure, index) else {
        return;
    };
    let name = name_of(index);
    write_cells(
        text,
        &[
            Plain(Text(b"  ")),
            Plain(Text(name)),
            Cell::Blanks(NAME_WIDTH.saturating_sub(name.len())),
            Plain(Text(b"  0x")),
            Plain(Hex(number, 1)),
            Plain(Text(b"\n")),
        ],
    );
}

/// Adds a row for each field of the load configuration, if the options select them.
pub fn write_load_configuration<W: Sink>(
    text: &mut TextWriter<W>,
    options: &ShowOptions,
    image: &ShownImage,
)
    requires { IsReady W.failures text.old }
    ensures { AddsSome W.taken W.failures text.old text.new }
{
    let Some(structure) = load_configuration(image.layout) else {
        return;
    };
    if !options.load {
        return;
    }
    write_heading(text, options, b"Load configuration", count_of(&structure));
    for index in 0..LOAD_FIELD_COUNT {
        write_field(text, &structure, index);
    }
}
