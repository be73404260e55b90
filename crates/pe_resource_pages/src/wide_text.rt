//! Texts of UTF-16 units in UTF-8, and how a page shows them.

ghost use Rattle.pe_text.specs.TextWriter.{IsReady};
ghost use Rattle.pe_page.specs.Page.{AddsSome};

use arrayvec::ArrayVec;
use pe_page::{Cell, write_cells};
use pe_text::{Sink, TextWriter};
use pe_version::decode_utf16;

/// How many bytes are kept of a text that a page shows whole: one more than it shows of any, and the rest of the character in which
/// that is.
const KEPT: usize = 4096 + 4;

/// The same of a text that is short in most files, of which a page shows 255 bytes.
pub(crate) const SHORT_KEPT: usize = 255 + 4;

/// Adds a character if there is room, and returns whether there was.
fn add<const ROOM: usize>(text: &mut ArrayVec<u8, ROOM>, character: char) -> bool {
    let mut room = [0; 4];
    let bytes = character.encode_utf8(&mut room).as_bytes();
    text.try_extend_from_slice(bytes).is_ok()
}

/// The text of UTF-16 units, which are given by their bytes: all of it, or more than `ROOM` - 4 bytes if it is longer. No more is
/// decoded. U+FFFD stands for a unit that is no text.
pub(crate) fn text_beginning<const ROOM: usize>(units: &[u8]) -> ArrayVec<u8, ROOM> {
    let mut text = ArrayVec::new();
    for character in decode_utf16(units) {
        if !add(&mut text, character) {
            break;
        }
    }
    text
}

/// Adds a text as any name, at most 4,096 bytes of it.
pub(crate) fn write_wide_text<W: Sink>(text: &mut TextWriter<W>, units: &[u8])
    requires { IsReady W.failures text.old }
    ensures { AddsSome W.taken W.failures text.old text.new }
{
    let beginning = text_beginning::<KEPT>(units);
    write_cells(text, &[Cell::Name(beginning.as_slice())]);
}

/// Adds a text that is short in most files, at most 255 bytes of it.
pub(crate) fn write_short_text<W: Sink>(text: &mut TextWriter<W>, units: &[u8])
    requires { IsReady W.failures text.old }
    ensures { AddsSome W.taken W.failures text.old text.new }
{
    let beginning = text_beginning::<SHORT_KEPT>(units);
    write_cells(text, &[Cell::Module(beginning.as_slice())]);
}
