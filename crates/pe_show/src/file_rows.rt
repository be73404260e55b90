//! The rows of a page for what an image's file has apart from the headers and the sections.

ghost use Rattle.pe_text.specs.TextWriter.{IsReady};
ghost use Rattle.pe_page.specs.Page.{AddsSome};

use crate::memory_layout::is_as_in_memory;
use pe_head::Headers;
use pe_page::Cell::{self, Plain};
use pe_page::{plural, write_cells};
use pe_reach::ViewFile;
use pe_text::Part::{Hex, Text};
use pe_text::{Sink, TextWriter};
use pe_trust::file_end;

/// The end of the row of the symbol table: whether it is read.
fn end_of(is_read: bool) -> &'static [u8] {
    if is_read { b"\n" } else { b", not read\n" }
}

/// Adds the row of the symbol table, if there is one.
fn write_symbol_table<W: Sink>(text: &mut TextWriter<W>, headers: &Headers, is_read: bool)
    requires { IsReady W.failures text.old }
    ensures { AddsSome W.taken W.failures text.old text.new }
{
    let count = headers.number_of_symbols;
    if headers.pointer_to_symbol_table == 0 || count == 0 {
        return;
    }
    write_cells(
        text,
        &[
            Plain(Text(b"  Symbols      ")),
            Cell::Count(u64::from(count)),
            plural(count as usize, b" record", b" records"),
            Plain(Text(b" at file 0x")),
            Plain(Hex(u64::from(headers.pointer_to_symbol_table), 1)),
            Plain(Text(end_of(is_read))),
        ],
    );
}

/// Adds the row of what comes after the headers and all sections in a file of `len` bytes, if something does.
fn write_overlay<W: Sink>(text: &mut TextWriter<W>, headers: &Headers, len: u64)
    requires { IsReady W.failures text.old }
    ensures { AddsSome W.taken W.failures text.old text.new }
{
    let end = file_end(headers);
    if len <= end {
        return;
    }
    let count = len - end;
    write_cells(
        text,
        &[
            Plain(Text(b"  Overlay      ")),
            Cell::Count(count),
            plural(count as usize, b" byte", b" bytes"),
            Plain(Text(b" after the sections, from file 0x")),
            Plain(Hex(end, 1)),
            Plain(Text(b"\n")),
        ],
    );
}

/// Adds the row that a file has its image as it is laid out in memory, if it shows that.
fn write_layout<W: Sink>(text: &mut TextWriter<W>, headers: &Headers, file: ViewFile)
    requires { IsReady W.failures text.old }
    ensures { AddsSome W.taken W.failures text.old text.new }
{
    if is_as_in_memory(headers, file) {
        text.text(
            b"  Layout       that of memory, it seems: SizeOfImage bytes, and zeros in place of raw data, where tables are read\n",
        );
    }
}

/// Adds the rows of the symbol table, which is read or not, of what comes after the sections, and of the layout, if an image's file has
/// them.
pub(crate) fn write_others<W: Sink>(
    text: &mut TextWriter<W>,
    headers: &Headers,
    file: ViewFile,
    is_read: bool,
)
    requires { IsReady W.failures text.old }
    ensures { AddsSome W.taken W.failures text.old text.new }
{
    write_symbol_table(text, headers, is_read);
    write_overlay(text, headers, file.len());
    write_layout(text, headers, file);
}
