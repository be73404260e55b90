//! `Page`: the name, the options and the width of a page; and the first row of a page, and the headings of its tables.

ghost use Rattle.pe_text.specs.TextWriter.{IsReady};
ghost use Rattle.pe_page.specs.Page.{AddsSome};

use crate::cell::Cell::{self, Plain};
use crate::cell::write_cells;
use crate::style::{end_style, heading_style, refusal_style};
use pe_text::Part::{self, Text};
use pe_text::{Outcome, ShowOptions, Sink, TextWriter, write_parts};

/// The file, the options and the width of a page.
#[derive(Clone, Copy)]
pub struct Page<'p> {
    /// The file's name.
    pub name: &'p [u8],
    /// What to show.
    pub options: &'p ShowOptions,
    /// How many columns lists may take: the modules that an image imports from are counted after those that fit, and flags go on on a
    /// further row. Other rows are as long as they are.
    pub width: usize,
}

impl Page<'_> {
    /// The width of a page if nothing says how wide the terminal is.
    pub const WIDTH: usize = 100;
}

/// What a file is, in four parts: `PE32+ library for AMD64`.
pub type Kind = [Part<'static>; 4];

/// Adds the first row: the file's name, whether it is accepted, what it is, and its size in bytes.
pub fn write_title<W: Sink>(
    text: &mut TextWriter<W>,
    page: &Page,
    outcome: Outcome,
    kind: Kind,
    len: u64,
)
    requires { IsReady W.failures text.old }
    ensures { AddsSome W.taken W.failures text.old text.new }
{
    let (style, word) = match outcome {
        Outcome::Done => (heading_style(page.options), Text(b": accepted: ")),
        Outcome::Refused(_) => (refusal_style(page.options), Text(b": refused: ")),
    };
    write_cells(text, &[Plain(style), Cell::Name(page.name), Plain(word)]);
    write_parts(text, &kind);
    write_cells(
        text,
        &[
            Cell::Count(len),
            Plain(Text(if len == 1 { b" byte" } else { b" bytes" })),
            Plain(end_style(page.options)),
            Plain(Text(b"\n")),
        ],
    );
}

/// Adds the heading of a part that is no list, after an empty row: `Identity`.
pub fn write_plain_heading<W: Sink>(text: &mut TextWriter<W>, options: &ShowOptions, words: &[u8])
    requires { IsReady W.failures text.old }
    ensures { AddsSome W.taken W.failures text.old text.new }
{
    write_parts(
        text,
        &[
            Text(b"\n"),
            heading_style(options),
            Text(words),
            end_style(options),
            Text(b"\n"),
        ],
    );
}

/// Adds the heading of a table, after an empty row: `Sections (12)`.
pub fn write_heading<W: Sink>(
    text: &mut TextWriter<W>,
    options: &ShowOptions,
    words: &[u8],
    count: usize,
)
    requires { IsReady W.failures text.old }
    ensures { AddsSome W.taken W.failures text.old text.new }
{
    write_cells(
        text,
        &[
            Plain(Text(b"\n")),
            Plain(heading_style(options)),
            Plain(Text(words)),
            Plain(Text(b" (")),
            Cell::Count(count as u64),
            Plain(Text(b")")),
            Plain(end_style(options)),
            Plain(Text(b"\n")),
        ],
    );
}
