//! What leads to a leaf of the resource tree, in words: `version/1/1033`.

ghost use Rattle.pe_text.specs.TextWriter.{IsReady};
ghost use Rattle.pe_page.specs.Page.{AddsSome};

use crate::resource_types::{resource_type_name, resource_type_number};
use crate::wide_text::{SHORT_KEPT, text_beginning};
use pe_layout::Layout;
use pe_page::is_safe_text;
use pe_resources::{Path, name_text};
use pe_text::{Sink, TextWriter};
use std::str;

/// The most bytes of a text that are shown.
const SHOWN: usize = 255;

/// Whether a byte of a text may stand between the slashes of a path.
fn is_apart(byte: u8) -> bool {
    matches!(byte, b' ' | b'"' | b'/' | b'\\')
}

/// Whether a text can stand in a path as it is: it is taken for no number, and does not end there.
fn is_word(text: &[u8]) -> bool {
    match text.first() {
        Some(first) => {
            !first.is_ascii_digit()
                && is_safe_text(text)
                && !text.iter().any(|byte| is_apart(*byte))
        }
        None => false,
    }
}

/// Whether a text is the word of a type that has a number.
fn is_type_word(text: &[u8]) -> bool {
    match str::from_utf8(text) {
        Ok(word) => resource_type_number(word).is_some(),
        Err(_) => false,
    }
}

/// Where a name stands in a path.
#[derive(Clone, Copy, PartialEq, Eq)]
enum Level {
    /// At the front, where a word may stand for the number of a type.
    Type,
    /// Behind a slash.
    Below,
}

/// Whether a text can stand at a place in a path as it is: it is taken for nothing else there.
fn stands_for_itself(text: &[u8], level: Level) -> bool {
    is_word(text) && !(level == Level::Type && is_type_word(text))
}

/// Adds a text as a part of a path: as it is if it stands for itself there, otherwise in quotes.
fn write_word<W: Sink>(text: &mut TextWriter<W>, name: &[u8], level: Level)
    requires { IsReady W.failures text.old }
    ensures { AddsSome W.taken W.failures text.old text.new }
{
    if stands_for_itself(name, level) {
        text.text(name);
    } else {
        text.quoted(name);
    }
}

/// Adds at most so many bytes of a text as are shown, and a mark if it has more.
fn write_text<W: Sink>(text: &mut TextWriter<W>, name: &[u8], level: Level)
    requires { IsReady W.failures text.old }
    ensures { AddsSome W.taken W.failures text.old text.new }
{
    let shown = &name[..name.len().min(SHOWN)];
    write_word(text, shown, level);
    text.text(if shown.len() < name.len() { b".." } else { b"" });
}

/// Adds a text, given as its UTF-16 units, as a part of a path. It stands apart, so that a number takes no room for a text.
#[inline(never)]
fn write_units<W: Sink>(text: &mut TextWriter<W>, units: &[u8], level: Level)
    requires { IsReady W.failures text.old }
    ensures { AddsSome W.taken W.failures text.old text.new }
{
    let beginning = text_beginning::<SHORT_KEPT>(units);
    write_text(text, beginning.as_slice(), level);
}

/// Adds the name of an entry: its id, or its text; `?` for a text that the file does not hold.
fn write_name<W: Sink>(text: &mut TextWriter<W>, layout: &Layout, name: u32, level: Level)
    requires { IsReady W.failures text.old }
    ensures { AddsSome W.taken W.failures text.old text.new }
{
    if name < 0x8000_0000 {
        text.decimal(u64::from(name));
        return;
    }
    match name_text(layout, name) {
        Some(units) => write_units(text, units, level),
        None => text.text(b"?"),
    }
}

/// Adds a type: by the name that winuser.h has for it, otherwise as any name.
pub(crate) fn write_type<W: Sink>(text: &mut TextWriter<W>, layout: &Layout, kind: u32)
    requires { IsReady W.failures text.old }
    ensures { AddsSome W.taken W.failures text.old text.new }
{
    match resource_type_name(kind) {
        Some(name) => text.text(name.as_bytes()),
        None => write_name(text, layout, kind, Level::Type),
    }
}

/// Adds a type, if there is one.
fn write_first<W: Sink>(text: &mut TextWriter<W>, layout: &Layout, kind: Option<u32>)
    requires { IsReady W.failures text.old }
    ensures { AddsSome W.taken W.failures text.old text.new }
{
    if let Some(kind) = kind {
        write_type(text, layout, kind);
    }
}

/// Adds a slash and a name, if there is one.
fn write_next<W: Sink>(text: &mut TextWriter<W>, layout: &Layout, name: Option<u32>)
    requires { IsReady W.failures text.old }
    ensures { AddsSome W.taken W.failures text.old text.new }
{
    if let Some(name) = name {
        text.text(b"/");
        write_name(text, layout, name, Level::Below);
    }
}

/// Adds the name of a leaf below its type, and nothing if the type itself is the leaf.
pub(crate) fn write_leaf_name<W: Sink>(text: &mut TextWriter<W>, layout: &Layout, path: &Path)
    requires { IsReady W.failures text.old }
    ensures { AddsSome W.taken W.failures text.old text.new }
{
    match path.name {
        Some(name) => write_name(text, layout, name, Level::Below),
        None => text.text(b"-"),
    }
}

/// Adds what leads to a leaf: its type, its name and its language with slashes between them, like `version/1/1033`. Types are
/// named by winuser.h, in lower case and without RT_; what is named by a number is that in decimal; a text is as it is, or in quotes
/// if it begins with a digit or has blanks, quotes, slashes or characters that are not to be written to a terminal, or is a type's and
/// one of the words of winuser.h in letters of either case, and cut after 255 bytes with `..` behind it. `?` stands for a text that the
/// file does not hold. A leaf above the third level has fewer parts.
pub fn write_leaf_path<W: Sink>(text: &mut TextWriter<W>, layout: &Layout, path: &Path)
    requires { IsReady W.failures text.old }
    ensures { AddsSome W.taken W.failures text.old text.new }
{
    write_first(text, layout, path.kind);
    write_next(text, layout, path.name);
    write_next(text, layout, path.language);
}
