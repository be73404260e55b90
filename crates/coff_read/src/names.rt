//! Names of sections and symbols, read from their fields and from the string table.

ghost use Rattle.std.specs.Prelude.{◌≡◌, ◌+◌, ◌*◌, ◌≤◌, ◌<◌, ◌^◌, ◌==◌, ℕ, List, [], length, is_none, option_map, true, Some, None, if◌then◌else◌};
ghost use Rattle.std.specs.List.{list_all};
ghost use Rattle.std.specs.Option.{unwrap_or};
ghost use Rattle.pe_view.specs.View.{bytes_of, size_of};
ghost use Rattle.pe_view.specs.TextEnds.{AreEndsOf};
ghost use Rattle.coff_read.specs.NameField.{name_in};
ghost use Rattle.coff_read.specs.FormReading.{string_at, section_name, symbol_name};
ghost use Rattle.coff_read.specs.Forms.{Form};
ghost use Rattle.coff_read.specs.Names.{is_digit, decimal_value, up_to_zero, is_number_field, is_long, is_long_section_name, name_offset};
ghost use Rattle.coff_read.specs.TablesPlace.{AreTables};

use crate::fields::u32_in;
use crate::tables::Tables;
use pe_view::{TextEnds, View};
use std::alloc::Allocator;

/// The size of a name field in bytes.
pub const NAME_LEN: usize = 8;

/// The contents of the name field of a section or of a symbol.
#[derive(Clone, Copy)]
pub(crate) enum NameField<'a> {
    /// The name.
    Inline(&'a [u8]),
    /// The offset of the name in the string table.
    Offset(u32),
}

/// Whether a symbol's name is stored in the string table.
pub fn is_long(name: &[u8]) -> bool
    ensures { result ≡ is_long name.now }
{
    name.len() > NAME_LEN
}

/// Whether a section's name is stored in the string table.
pub fn is_long_section_name(name: &[u8]) -> bool
    ensures { result ≡ is_long_section_name name.now }
{
    is_long(name) || name.first() == Some(&b'/')
}

/// The bytes before the first zero byte, or all of them.
pub(crate) fn up_to_zero(bytes: &[u8]) -> &[u8]
    ensures value { result.now ≡ up_to_zero bytes.now }
    ensures shorter { length result.now ≤ length bytes.now }
{
    let view = View::new(bytes);
    match view.until_zero(0, view.len()) {
        Some(text) => text,
        None => bytes,
    }
}

/// The number that decimal digits write.
fn decimal_value(digits: &[u8]) -> u32
    requires digits { list_all is_digit digits.now ≡ true }
    requires small { decimal_value 0 digits.now < 2 ^ 32 }
    ensures { result ≡ decimal_value 0 digits.now }
{
    let mut value = 0;
    for digit in digits {
        value = value * 10 + u32::from(*digit - b'0');
    }
    value
}

/// Whether bytes are all decimal digits.
fn all_digits(bytes: &[u8]) -> bool
    ensures { result ≡ list_all is_digit bytes.now }
{
    bytes.iter().all(|byte| byte.is_ascii_digit())
}

/// Whether bytes are all zero.
fn all_zero(bytes: &[u8]) -> bool
    ensures { result ≡ list_all (λ byte. byte == 0) bytes.now }
{
    bytes.iter().all(|byte| *byte == 0)
}

/// The number in a name field after its `/`: decimal digits, padded with zero bytes.
fn number_in(bytes: &[u8]) -> Option<u32>
    requires { length bytes.now ≤ 7 }
    ensures { result ≡ (if is_number_field bytes.now then Some (decimal_value 0 (up_to_zero bytes.now)) else None) }
{
    let digits = up_to_zero(bytes);
    if digits.is_empty() {
        return None;
    }
    if !all_digits(digits) {
        return None;
    }
    if !all_zero(&bytes[digits.len()..]) {
        return None;
    }
    Some(decimal_value(digits))
}

/// The offset into the string table in a section's name field, if it has one.
pub(crate) fn name_offset(field: &[u8]) -> Option<u32>
    requires { length field.now ≤ 8 }
    ensures { result ≡ name_offset field.now }
{
    match field.split_first() {
        Some((b'/', rest)) => number_in(rest),
        _ => None,
    }
}

/// The string at an offset of the string table.
fn string_at<'a, const BIG: bool>(view: View<'a>, tables: Tables, offset: u32) -> Option<&'a [u8]>
    requires { AreTables BIG (bytes_of view) tables }
    ensures { option_map (λ text. text.now) result ≡ string_at BIG (bytes_of view.entry) offset }
{
    if offset < 4 {
        return None;
    }
    let start = tables.strings + u64::from(offset);
    view.until_zero(start, tables.strings + tables.strings_size)
}

/// Whether a name's offset leads to no string of the string table.
pub(crate) fn has_no_text<const BIG: bool>(tables: Tables, field: NameField) -> bool
    ensures { (file : List ℕ) → AreTables BIG file tables → result ≡ is_none (name_in BIG file field.entry) }
{
    match field {
        NameField::Inline(_) => false,
        NameField::Offset(offset) => offset < 4 || tables.texts <= u64::from(offset),
    }
}

/// The name of a field, which is empty if it leads to no string. A string of the string table is searched for its terminator.
pub(crate) fn name_of<'a, const BIG: bool>(
    view: View<'a>,
    tables: Tables,
    field: NameField<'a>,
) -> &'a [u8]
    requires { AreTables BIG (bytes_of view) tables }
    ensures { result.now ≡ unwrap_or (name_in BIG (bytes_of view.entry) field.entry) [] }
{
    match field {
        NameField::Inline(name) => name,
        NameField::Offset(offset) => string_at::<BIG>(view, tables, offset).unwrap_or(&[]),
    }
}

/// The name of a field, as [`name_of`] returns it. Where strings of the string table end is remembered.
pub(crate) fn name_kept<'a, A: Allocator + Copy, const BIG: bool>(
    ends: &mut TextEnds<A>,
    view: View<'a>,
    tables: Tables,
    field: NameField<'a>,
) -> &'a [u8]
    requires tables { AreTables BIG (bytes_of view) tables }
    requires known { AreEndsOf (bytes_of view) ends.old }
    ensures name { result.now ≡ unwrap_or (name_in BIG (bytes_of view.entry) field.entry) [] }
    ensures known { AreEndsOf (bytes_of view.entry) ends.new }
{
    match field {
        NameField::Inline(name) => name,
        NameField::Offset(0..4) => &[],
        NameField::Offset(offset) => {
            let start = tables.strings + u64::from(offset);
            let end = tables.strings + tables.strings_size;
            ends.until_zero(view, start, end).unwrap_or(&[])
        }
    }
}

/// The contents of the name field of the section whose header is at a file offset.
pub(crate) fn section_name_field<'a>(view: View<'a>, h: u64) -> NameField<'a>
    requires { h + 40 ≤ size_of view }
    ensures { (big : Form) → name_in big (bytes_of view.entry) result ≡ section_name big (bytes_of view.entry) h }
{
    let field = view.slice(h, NAME_LEN as u64).unwrap();
    match name_offset(field) {
        Some(offset) => NameField::Offset(offset),
        None => NameField::Inline(up_to_zero(field)),
    }
}

/// The contents of the name field of the symbol whose record is at a file offset.
pub(crate) fn symbol_name_field<'a>(view: View<'a>, at: u64) -> NameField<'a>
    requires { at + 18 ≤ size_of view }
    ensures { (big : Form) → name_in big (bytes_of view.entry) result ≡ symbol_name big (bytes_of view.entry) at }
{
    if u32_in(view, at, 0) != 0 {
        return NameField::Inline(up_to_zero(view.slice(at, NAME_LEN as u64).unwrap()));
    }
    match u32_in(view, at, 4) {
        0 => NameField::Inline(&[]),
        offset => NameField::Offset(offset),
    }
}
