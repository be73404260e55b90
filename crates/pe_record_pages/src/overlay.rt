//! The row of a page for the overlay of an image's file.

ghost use Rattle.pe_text.specs.TextWriter.{IsReady};
ghost use Rattle.pe_page.specs.Page.{AddsSome};

use pe_head::Headers;
use pe_page::Cell::{self, Plain};
use pe_page::{plural, write_cells};
use pe_text::Part::{Hex, Text};
use pe_text::{Sink, TextWriter};
use pe_trust::{OverlayKind, file_end, overlay_kind};
use pe_view::View;

/// What an overlay begins with, in words.
fn kind_words(kind: OverlayKind) -> &'static [u8] {
    match kind {
        OverlayKind::Certificates => b"the certificate table",
        OverlayKind::SymbolTable => b"the symbol table",
        OverlayKind::Nsis => b"the data of an NSIS installer",
        OverlayKind::SevenZip => b"a 7-Zip archive",
        OverlayKind::Zip => b"a ZIP archive",
        OverlayKind::Rar => b"a RAR archive",
        OverlayKind::Cabinet => b"a cabinet",
        OverlayKind::CompoundFile => b"a compound file",
        OverlayKind::Executable => b"an executable file",
        OverlayKind::Other => b"other data",
    }
}

/// Adds the row of the overlay of an image's file, if it has one: its size, its place, and what it begins with.
pub(crate) fn write_overlay<W: Sink>(text: &mut TextWriter<W>, file: View, headers: &Headers)
    requires { IsReady W.failures text.old }
    ensures { AddsSome W.taken W.failures text.old text.new }
{
    let Some(kind) = overlay_kind(file, headers) else {
        return;
    };
    let end = file_end(headers);
    let count = file.len().saturating_sub(end);
    write_cells(
        text,
        &[
            Plain(Text(b"  Overlay      ")),
            Cell::Count(count),
            plural(count as usize, b" byte", b" bytes"),
            Plain(Text(b" at file 0x")),
            Plain(Hex(end, 1)),
            Plain(Text(b", begins with ")),
            Plain(Text(kind_words(kind))),
            Plain(Text(b"\n")),
        ],
    );
}
