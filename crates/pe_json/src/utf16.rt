//! Texts in UTF-16 as strings of a line of JSON.

ghost use Rattle.std.specs.Prelude.{[], ◌∷◌, option_map};
ghost use Rattle.pe_text.specs.TextWriter.{IsReady, Adds};
ghost use Rattle.pe_version.specs.UnitsLeft.{characters_left};
ghost use Rattle.pe_json.specs.Shown.{shown, shown_string};
ghost use Rattle.pe_json.specs.Strings.{value_if};
ghost use Rattle.pe_json.specs.Utf16.{utf8_characters, utf8_text};

use crate::string::write_character;
use pe_text::{Sink, TextWriter};
use pe_version::{DecodeUtf16, decode_utf16};

/// Adds a character of a text.
fn write_decoded<W: Sink>(text: &mut TextWriter<W>, character: char)
    requires { IsReady W.failures text.old }
    ensures { Adds W.taken W.failures text.old text.new (shown (utf8_characters (character ∷ []))) }
{
    write_character(text, character);
}

/// Adds characters of a string.
fn write_characters<W: Sink>(text: &mut TextWriter<W>, characters: DecodeUtf16)
    requires { IsReady W.failures text.old }
    ensures { Adds W.taken W.failures text.old text.new (shown (utf8_characters (characters_left characters.entry))) }
{
    for character in characters {
        write_decoded(text, character);
    }
}

/// Adds a text in quotes. After a failed write it is not read: texts may be long, and many.
pub(crate) fn write_units<W: Sink>(text: &mut TextWriter<W>, units: &[u8])
    requires { IsReady W.failures text.old }
    ensures { Adds W.taken W.failures text.old text.new (shown_string (utf8_text units.now)) }
{
    if text.has_failed() {
        return;
    }
    text.text(b"\"");
    write_characters(text, decode_utf16(units));
    text.text(b"\"");
}

/// Adds a text after its key, if there is one.
pub(crate) fn write_units_if<W: Sink>(text: &mut TextWriter<W>, key: &[u8], units: Option<&[u8]>)
    requires { IsReady W.failures text.old }
    ensures { Adds W.taken W.failures text.old text.new (value_if key.now (option_map utf8_text (option_map (λ units. units.now) units.entry))) }
{
    let Some(units) = units else {
        return;
    };
    text.text(key);
    write_units(text, units);
}
