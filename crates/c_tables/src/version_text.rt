//! `VersionTextRow`: a string of version information, as C has it.

ghost use Rattle.std.specs.Prelude.{◌≡◌, find, length, map, option_map};
ghost use Rattle.std.specs.Str.{bytes_eq};
ghost use Rattle.pe_layout.specs.Layout.{image_of};
ghost use Rattle.pe_records_c.specs.Rows.{TellsTable, filled};
ghost use Rattle.c_tables.specs.Told.{TellsRecord};
ghost use Rattle.pe_version.specs.Parts.{utf16};
ghost use Rattle.pe_version.specs.StringsLeft.{string_view, strings_left};
ghost use Rattle.c_tables.specs.Kinds.{version_data};
ghost use Rattle.c_tables.specs.Texts.{text_bytes};
ghost use Rattle.c_tables.specs.VersionRows.{strings_in, value_of, version_strings, version_text};

use crate::row::put_row;
use crate::text::put_text;
use crate::version::version_data;
use pe_layout::Layout;
use pe_records_c::row::table_status;
use pe_records_c::text::TextRecord;
use pe_version::{VersionString, VersionStrings, version_strings};

/// A string of version information. All texts are in UTF-16, little endian, without the zero unit after them.
#[repr(C)]
#[derive(Clone, Copy)]
pub struct VersionTextRow<'a> {
    /// 8 hexadecimal digits: the language and the code page.
    pub table: &'a [u8],
    /// What the string is, such as ProductVersion.
    pub key: &'a [u8],
    /// The string.
    pub value: &'a [u8],
}

impl<'a> VersionTextRow<'a> {
    /// A string as C has it.
    fn of(string: &VersionString<'a>) -> VersionTextRow<'a>
        ensures { version_text result ≡ string_view string.entry.now }
    {
        VersionTextRow {
            table: string.table,
            key: string.key,
            value: string.value,
        }
    }
}

/// Fills the first rows with strings, as many as fit, and returns how many there are.
fn put_strings<'a>(rows: &mut [VersionTextRow<'a>], strings: VersionStrings<'a>) -> usize
    ensures rows { map version_text rows.new ≡ filled (λ text. text) (strings_left strings.entry) (map version_text rows.old) }
    ensures count { result ≡ length (strings_left strings.entry) }
{
    let mut count = 0;
    for string in strings {
        put_row(rows, count, VersionTextRow::of(&string));
        count += 1;
    }
    count
}

/// Fills the first rows with the strings in the bytes of version information, if there is any, and returns how many there are.
fn put_version<'a>(rows: &mut [VersionTextRow<'a>], bytes: Option<&'a [u8]>) -> usize
    ensures rows { map version_text rows.new ≡ filled (λ text. text) (strings_in (option_map (λ bytes. bytes.now) bytes.entry)) (map version_text rows.old) }
    ensures count { result ≡ length (strings_in (option_map (λ bytes. bytes.now) bytes.entry)) }
{
    match bytes {
        Some(bytes) => put_strings(rows, version_strings(bytes)),
        None => 0,
    }
}

/// Reports the strings of an image's version information: fills the rows, counts the strings, and returns the status, 0 or 4.
pub fn tell_version_strings<'a>(
    layout: &Layout<'a>,
    rows: &mut [VersionTextRow<'a>],
    count: &mut usize,
) -> u32
    ensures { TellsTable version_text (λ text. text) (version_strings (image_of layout.entry.now)) rows.old rows.new count.new result }
{
    *count = put_version(rows, version_data(layout));
    table_status(*count, rows.len())
}

/// Whether UTF-16 units are a text in ASCII.
fn is_utf16(units: &[u8], text: &[u8]) -> bool
    ensures { result ≡ bytes_eq units.now (utf16 text.now) }
{
    if units.len() != 2 * text.len() {
        return false;
    }
    for index in 0..text.len() {
        if units[2 * index] != text[index] {
            return false;
        }
        if units[2 * index + 1] != 0 {
            return false;
        }
    }
    true
}

/// What the first string with a key in ASCII says.
fn value_of<'a>(strings: VersionStrings<'a>, key: &[u8]) -> Option<&'a [u8]>
    ensures { option_map (λ value. value.now) result ≡ value_of key.now (strings_left strings.entry) }
{
    for string in strings {
        if is_utf16(string.key, key) {
            return Some(string.value);
        }
    }
    None
}

/// What the first string with a key in ASCII says in the bytes of version information, if there is any.
fn version_value<'a>(bytes: Option<&'a [u8]>, key: &[u8]) -> Option<&'a [u8]>
    ensures { option_map (λ value. value.now) result ≡ value_of key.now (strings_in (option_map (λ bytes. bytes.now) bytes.entry)) }
{
    match bytes {
        Some(bytes) => value_of(version_strings(bytes), key),
        None => None,
    }
}

/// Stores what the first string of an image's version information with a key in ASCII says, and returns the status: 0, or 3 if there is
/// none, which leaves the record unchanged.
pub fn tell_version_string<'a>(layout: &Layout<'a>, key: &[u8], text: &mut TextRecord<'a>) -> u32
    ensures { TellsRecord text_bytes (value_of key.now (version_strings (image_of layout.entry.now))) text.old text.new result }
{
    put_text(version_value(version_data(layout), key), text)
}
