//! `section_name`: the name of an image's section; long names are in a string table.

ghost use Rattle.std.specs.Prelude.{◌≡◌, ◌≤◌, length, option_map};
ghost use Rattle.coff_read.specs.ImageNames.{table_of, long_name, section_name};
ghost use Rattle.coff_read.specs.Names.{name_offset};

use crate::image_strings::ImageStrings;
use crate::names::{NAME_LEN, name_offset, up_to_zero};

/// The string of the string table whose offset a field gives: `/`, then only decimal digits.
fn long_name<'a>(strings: Option<ImageStrings<'a>>, field: &[u8]) -> Option<&'a [u8]>
    requires { length field.now ≤ 8 }
    ensures { option_map (λ text. text.now) result ≡ long_name (option_map table_of strings.entry) (name_offset field.now) }
{
    strings?.text_at(name_offset(field)?)
}

/// The name of an image's section: the string of its string table whose offset the field gives, otherwise the field up to its first
/// zero byte. Each call searches for the end of a long name.
pub fn section_name<'a>(strings: Option<ImageStrings<'a>>, field: &'a [u8; NAME_LEN]) -> &'a [u8]
    ensures { result.now ≡ section_name (option_map table_of strings.entry) field.now }
{
    let short = up_to_zero(field);
    long_name(strings, short).unwrap_or(short)
}
