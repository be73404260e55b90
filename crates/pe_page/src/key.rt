//! The key of an export or import on a page.

ghost use Rattle.pe_text.specs.TextWriter.{IsReady, Adds};
ghost use Rattle.pe_page.specs.Rows.{key_text};

use crate::name::write_name;
use pe_tables::Key;
use pe_text::{Sink, TextWriter};

/// Adds a name, or `#` and an ordinal.
pub fn write_key<W: Sink>(text: &mut TextWriter<W>, key: Key)
    requires { IsReady W.failures text.old }
    ensures { Adds W.taken W.failures text.old text.new (key_text key.entry) }
{
    match key {
        Key::Ordinal(ordinal) => {
            text.text(b"#");
            text.decimal(ordinal as u64);
        }
        Key::Name(name) => write_name(text, name),
    }
}
