//! The tree of resources: a row for each type, and below it one for each leaf.

ghost use Rattle.pe_text.specs.TextWriter.{IsReady};
ghost use Rattle.pe_page.specs.Page.{AddsSome};

use crate::languages::language_tag;
use crate::leaf_path::{write_leaf_name, write_type};
use pe_layout::Layout;
use pe_page::Cell::{self, Plain};
use pe_page::{plural, write_cells, write_heading};
use pe_resources::Leaf;
use pe_text::Part::{Hex, Text};
use pe_text::{ShowOptions, Sink, TextWriter, write_parts};

/// Adds the type of a leaf, or `-` if it has none.
fn write_kind<W: Sink>(text: &mut TextWriter<W>, layout: &Layout, kind: Option<u32>)
    requires { IsReady W.failures text.old }
    ensures { AddsSome W.taken W.failures text.old text.new }
{
    match kind {
        Some(kind) => write_type(text, layout, kind),
        None => text.text(b"-"),
    }
}

/// Adds the row of the type of a leaf.
fn write_type_row<W: Sink>(text: &mut TextWriter<W>, layout: &Layout, leaf: &Leaf)
    requires { IsReady W.failures text.old }
    ensures { AddsSome W.taken W.failures text.old text.new }
{
    text.text(b"  ");
    write_kind(text, layout, leaf.path.kind);
    text.text(b"\n");
}

/// Adds a language: by its tag, or by its number.
fn write_language<W: Sink>(text: &mut TextWriter<W>, language: Option<u32>)
    requires { IsReady W.failures text.old }
    ensures { AddsSome W.taken W.failures text.old text.new }
{
    let Some(language) = language else {
        text.text(b"-");
        return;
    };
    match language_tag(language) {
        Some(tag) => text.text(tag.as_bytes()),
        None => write_parts(text, &[Text(b"language 0x"), Hex(u64::from(language), 4)]),
    }
}

/// Adds the code page of a leaf, if it has one.
fn write_code_page<W: Sink>(text: &mut TextWriter<W>, code_page: u32)
    requires { IsReady W.failures text.old }
    ensures { AddsSome W.taken W.failures text.old text.new }
{
    if code_page != 0 {
        text.text(b", code page ");
        text.decimal(u64::from(code_page));
    }
}

/// Adds the row of a leaf: its name, its language, where its data are, and how many bytes.
fn write_leaf_row<W: Sink>(text: &mut TextWriter<W>, layout: &Layout, leaf: &Leaf)
    requires { IsReady W.failures text.old }
    ensures { AddsSome W.taken W.failures text.old text.new }
{
    text.text(b"    ");
    write_leaf_name(text, layout, &leaf.path);
    text.text(b"  ");
    write_language(text, leaf.path.language);
    write_cells(
        text,
        &[
            Plain(Text(b"  0x")),
            Plain(Hex(u64::from(leaf.rva), 6)),
            Plain(Text(b"  ")),
            Cell::Count(u64::from(leaf.size)),
            plural(leaf.size as usize, b" byte", b" bytes"),
        ],
    );
    write_code_page(text, leaf.code_page);
    text.text(b"\n");
}

/// Adds the row of the type of a leaf, if that is another than `before`.
fn write_other_type<W: Sink>(
    text: &mut TextWriter<W>,
    layout: &Layout,
    before: Option<u32>,
    leaf: &Leaf,
)
    requires { IsReady W.failures text.old }
    ensures { AddsSome W.taken W.failures text.old text.new }
{
    if before != leaf.path.kind {
        write_type_row(text, layout, leaf);
    }
}

/// Adds the row of a leaf, and before it one of its type, if that is another than `before`.
fn write_leaf<W: Sink>(text: &mut TextWriter<W>, layout: &Layout, before: Option<u32>, leaf: &Leaf)
    requires { IsReady W.failures text.old }
    ensures { AddsSome W.taken W.failures text.old text.new }
{
    write_other_type(text, layout, before, leaf);
    write_leaf_row(text, layout, leaf);
}

/// Adds the rows of leaves, and one before the first of each type.
fn write_leaves<W: Sink>(text: &mut TextWriter<W>, layout: &Layout, leaves: &[Leaf])
    requires { IsReady W.failures text.old }
    ensures { AddsSome W.taken W.failures text.old text.new }
{
    let mut before = None;
    for leaf in leaves {
        if text.has_failed() {
            return;
        }
        write_leaf(text, layout, before, leaf);
        before = leaf.path.kind;
    }
}

/// Adds the tree of resources, if there are any.
pub(crate) fn write_tree<W: Sink>(
    text: &mut TextWriter<W>,
    options: &ShowOptions,
    layout: &Layout,
    leaves: &[Leaf],
)
    requires { IsReady W.failures text.old }
    ensures { AddsSome W.taken W.failures text.old text.new }
{
    if leaves.is_empty() {
        return;
    }
    write_heading(text, options, b"Resources", leaves.len());
    write_leaves(text, layout, leaves);
}
