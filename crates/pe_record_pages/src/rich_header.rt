//! The rows of a page for the Rich header of an image's file.

ghost use Rattle.pe_text.specs.TextWriter.{IsReady};
ghost use Rattle.pe_page.specs.Page.{AddsSome};

use pe_head::Headers;
use pe_page::Cell::{self, Plain};
use pe_page::{plural, write_cells};
use pe_text::Part::{Decimal, Hex, Hex4, Hex8, Text};
use pe_text::{Sink, TextWriter};
use pe_trust::{RichHeader, RichPair, rich_header};
use pe_view::View;

/// Adds the row of a header: the number of its pairs, its place, and its key, which is a sum.
fn write_summary<W: Sink>(text: &mut TextWriter<W>, header: &RichHeader)
    requires { IsReady W.failures text.old }
    ensures { AddsSome W.taken W.failures text.old text.new }
{
    let is_right = header.key() == header.check_sum();
    write_cells(
        text,
        &[
            Plain(Text(b"  Rich header  ")),
            Cell::Count(u64::from(header.len())),
            plural(header.len() as usize, b" tool", b" tools"),
            Plain(Text(b" at file 0x")),
            Plain(Hex(header.offset(), 1)),
            Plain(Text(b", key 0x")),
            Plain(Hex8(u64::from(header.key()))),
            Plain(Text(if is_right { b", right\n" } else { b", wrong\n" })),
        ],
    );
}

/// Adds the row of a pair: the numbers of a tool and of its build, and how many objects it made.
fn write_pair<W: Sink>(text: &mut TextWriter<W>, pair: &RichPair)
    requires { IsReady W.failures text.old }
    ensures { AddsSome W.taken W.failures text.old text.new }
{
    write_cells(
        text,
        &[
            Plain(Text(b"    product 0x")),
            Plain(Hex4(pair.product)),
            Plain(Text(b" build ")),
            Plain(Decimal(u64::from(pair.build))),
            Plain(Text(b", ")),
            Cell::Count(u64::from(pair.count)),
            plural(pair.count as usize, b" object\n", b" objects\n"),
        ],
    );
}

/// Adds the row of pair `index`, if there is one.
fn write_row<W: Sink>(text: &mut TextWriter<W>, header: &RichHeader, index: u32)
    requires { IsReady W.failures text.old }
    ensures { AddsSome W.taken W.failures text.old text.new }
{
    if let Some(pair) = header.get(index) {
        write_pair(text, &pair);
    }
}

/// Adds a row for each pair.
fn write_pairs<W: Sink>(text: &mut TextWriter<W>, header: &RichHeader)
    requires { IsReady W.failures text.old }
    ensures { AddsSome W.taken W.failures text.old text.new }
{
    for index in 0..header.len() {
        if text.has_failed() {
            return;
        }
        write_row(text, header, index);
    }
}

/// Adds the rows of the Rich header of an image's file, if it has one.
pub(crate) fn write_rich_header<W: Sink>(text: &mut TextWriter<W>, file: View, headers: &Headers)
    requires { IsReady W.failures text.old }
    ensures { AddsSome W.taken W.failures text.old text.new }
{
    if let Some(header) = rich_header(file, headers) {
        write_summary(text, &header);
        write_pairs(text, &header);
    }
}
