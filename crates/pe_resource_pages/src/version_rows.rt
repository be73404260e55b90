//! The version information of an image: its fixed part, and a row for each string.

ghost use Rattle.pe_text.specs.TextWriter.{IsReady};
ghost use Rattle.pe_page.specs.Page.{AddsSome};

use crate::version_numbers::write_number;
use crate::wide_text::{write_short_text, write_wide_text};
use pe_page::write_plain_heading;
use pe_text::Part::{Hex, Text};
use pe_text::{ShowOptions, Sink, TextWriter, write_parts};
use pe_version::{FixedInfo, VersionString, fixed_info, version_strings};

/// Adds the row of a version of four numbers.
fn write_version_row<W: Sink>(text: &mut TextWriter<W>, label: &[u8], version: [u16; 4])
    requires { IsReady W.failures text.old }
    ensures { AddsSome W.taken W.failures text.old text.new }
{
    text.text(label);
    write_number(text, version);
    text.text(b"\n");
}

/// Adds the row of another field.
fn write_field<W: Sink>(text: &mut TextWriter<W>, label: &[u8], value: u32)
    requires { IsReady W.failures text.old }
    ensures { AddsSome W.taken W.failures text.old text.new }
{
    write_parts(
        text,
        &[
            Text(label),
            Text(b"0x"),
            Hex(u64::from(value), 1),
            Text(b"\n"),
        ],
    );
}

/// Adds the rows of the fields of the fixed part, by their names in VS_FIXEDFILEINFO.
fn write_fields<W: Sink>(text: &mut TextWriter<W>, info: &FixedInfo)
    requires { IsReady W.failures text.old }
    ensures { AddsSome W.taken W.failures text.old text.new }
{
    write_version_row(text, b"  FileVersion     ", info.file_version());
    write_version_row(text, b"  ProductVersion  ", info.product_version());
    write_field(text, b"  FileFlagsMask   ", info.flags_mask);
    write_field(text, b"  FileFlags       ", info.flags);
    write_field(text, b"  FileOS          ", info.system);
    write_field(text, b"  FileType        ", info.kind);
    write_field(text, b"  FileSubtype     ", info.subkind);
}

/// Adds the rows of the fixed part, if it is as it must be.
fn write_fixed<W: Sink>(text: &mut TextWriter<W>, version: &[u8])
    requires { IsReady W.failures text.old }
    ensures { AddsSome W.taken W.failures text.old text.new }
{
    match fixed_info(version) {
        Some(info) => write_fields(text, &info),
        None => text.text(b""),
    }
}

/// Adds the row of a string: its table, which names a language and a code page, its key and its value.
fn write_string<W: Sink>(text: &mut TextWriter<W>, string: &VersionString)
    requires { IsReady W.failures text.old }
    ensures { AddsSome W.taken W.failures text.old text.new }
{
    text.text(b"  ");
    write_short_text(text, string.table);
    text.text(b"  ");
    write_short_text(text, string.key);
    text.text(b"  ");
    write_wide_text(text, string.value);
    text.text(b"\n");
}

/// Adds a row for each string.
fn write_strings<W: Sink>(text: &mut TextWriter<W>, version: &[u8])
    requires { IsReady W.failures text.old }
    ensures { AddsSome W.taken W.failures text.old text.new }
{
    for string in version_strings(version) {
        if text.has_failed() {
            return;
        }
        write_string(text, &string);
    }
}

/// Adds the version information of an image.
pub(crate) fn write_version<W: Sink>(
    text: &mut TextWriter<W>,
    options: &ShowOptions,
    version: Option<&[u8]>,
)
    requires { IsReady W.failures text.old }
    ensures { AddsSome W.taken W.failures text.old text.new }
{
    let Some(version) = version else {
        return;
    };
    write_plain_heading(text, options, b"Version information");
    write_fixed(text, version);
    write_strings(text, version);
}
