//! The TLS directory of an image, and its callbacks.

ghost use Rattle.pe_text.specs.TextWriter.{IsReady};
ghost use Rattle.pe_page.specs.Page.{AddsSome};

use crate::shown_image::ShownImage;
use pe_layout::Layout;
use pe_page::Cell::{self, Plain};
use pe_page::{SectionNames, SectionPlace, plural, write_cells, write_plain_heading};
use pe_records::{TlsCallbacks, tls};
use pe_text::Part::{Hex, Text};
use pe_text::{ShowOptions, Sink, TextWriter, write_parts};

/// The number of callbacks of an image.
fn callback_count(layout: &Layout) -> u32 {
    match TlsCallbacks::of(layout) {
        Some(callbacks) => callbacks.len(),
        None => 0,
    }
}

/// Adds the summary of the TLS directory: how many callbacks it has.
pub(crate) fn write_callback_count<W: Sink>(text: &mut TextWriter<W>, layout: &Layout)
    requires { IsReady W.failures text.old }
    ensures { AddsSome W.taken W.failures text.old text.new }
{
    let count = callback_count(layout);
    write_cells(
        text,
        &[
            Cell::Count(u64::from(count)),
            plural(count as usize, b" callback", b" callbacks"),
        ],
    );
}

/// Adds the row of a field, if the directory has it.
fn write_field<W: Sink>(text: &mut TextWriter<W>, name: &[u8], value: Option<u64>)
    requires { IsReady W.failures text.old }
    ensures { AddsSome W.taken W.failures text.old text.new }
{
    if let Some(value) = value {
        write_parts(
            text,
            &[
                Text(b"  "),
                Text(name),
                Text(b"  0x"),
                Hex(value, 1),
                Text(b"\n"),
            ],
        );
    }
}

/// Adds the rows of the fields.
fn write_fields<W: Sink>(text: &mut TextWriter<W>, layout: &Layout)
    requires { IsReady W.failures text.old }
    ensures { AddsSome W.taken W.failures text.old text.new }
{
    let Some(directory) = tls(layout) else {
        return;
    };
    write_field(
        text,
        b"StartAddressOfRawData",
        directory.start_address_of_raw_data,
    );
    write_field(
        text,
        b"EndAddressOfRawData  ",
        directory.end_address_of_raw_data,
    );
    write_field(text, b"AddressOfIndex       ", directory.address_of_index);
    write_field(
        text,
        b"AddressOfCallBacks   ",
        directory.address_of_callbacks,
    );
    write_field(text, b"SizeOfZeroFill       ", directory.size_of_zero_fill);
    write_field(text, b"Characteristics      ", directory.characteristics);
}

/// The place of an address, which is that of the image at its ImageBase.
fn place_of<'a>(layout: &Layout, names: &SectionNames<'a>, address: u64) -> SectionPlace<'a> {
    let offset = address.wrapping_sub(layout.image_base());
    names.place(layout, u32::try_from(offset).unwrap_or(u32::MAX))
}

/// Adds the row of callback `index`.
fn write_callback<W: Sink>(
    text: &mut TextWriter<W>,
    layout: &Layout,
    names: &SectionNames,
    callbacks: &TlsCallbacks,
    index: u32,
)
    requires { IsReady W.failures text.old }
    ensures { AddsSome W.taken W.failures text.old text.new }
{
    let Some(address) = callbacks.get(index) else {
        return;
    };
    write_cells(
        text,
        &[
            Plain(Text(b"  callback 0x")),
            Plain(Hex(address, 1)),
            Plain(Text(b"  ")),
            Cell::Place(place_of(layout, names, address)),
            Plain(Text(b"\n")),
        ],
    );
}

/// Adds a row for each callback.
fn write_callbacks<W: Sink>(text: &mut TextWriter<W>, layout: &Layout, names: &SectionNames)
    requires { IsReady W.failures text.old }
    ensures { AddsSome W.taken W.failures text.old text.new }
{
    let Some(callbacks) = TlsCallbacks::of(layout) else {
        return;
    };
    for index in 0..callbacks.len() {
        if text.has_failed() {
            return;
        }
        write_callback(text, layout, names, &callbacks, index);
    }
}

/// Adds the fields of the TLS directory and a row for each callback, if the options select them.
pub fn write_tls<W: Sink>(
    text: &mut TextWriter<W>,
    options: &ShowOptions,
    image: &ShownImage,
    names: &SectionNames,
)
    requires { IsReady W.failures text.old }
    ensures { AddsSome W.taken W.failures text.old text.new }
{
    if !options.tls || tls(image.layout).is_none() {
        return;
    }
    write_plain_heading(text, options, b"TLS directory");
    write_fields(text, image.layout);
    write_callbacks(text, image.layout, names);
}
