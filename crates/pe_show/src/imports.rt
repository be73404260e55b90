//! The imports of an image, by module.

ghost use Rattle.std.specs.Prelude.{◌<◌, ◌≤◌, length};
ghost use Rattle.pe_text.specs.TextWriter.{IsReady, Adds};
ghost use Rattle.pe_page.specs.Page.{AddsSome};
ghost use Rattle.pe_show.specs.Rows.{import_row};

use pe_image::Tables;
use pe_page::Cell::{self, Plain};
use pe_page::{module_beginning, write_cells, write_heading, write_key};
use pe_tables::Import;
use pe_text::Part::Text;
use pe_text::{ShowOptions, Sink, TextWriter, hex_width};
use std::alloc::Allocator;

/// The name of an import's module, as much of it as decides how it is shown.
pub(crate) fn module_name<'a>(import: &Import<'a>) -> &'a [u8] {
    module_beginning(import.module)
}

/// Whether two imports are from modules with the same shown name.
pub(crate) fn same_module(import: &Import, other: &Import) -> bool {
    module_name(import) == module_name(other)
}

/// How many imports from the first on are from the same module.
pub(crate) fn module_len(imports: &[Import]) -> usize
    ensures some { 0 < length imports.now → 0 < result }
    ensures within { result ≤ length imports.now }
{
    let len = match imports.chunk_by(same_module).next() {
        Some(module) => module.len(),
        None => 0,
    };
    len.max(1).min(imports.len())
}

/// Adds the row of an import: its slot, and its name or ordinal.
fn write_import<W: Sink>(text: &mut TextWriter<W>, width: u8, import: &Import)
    requires { IsReady W.failures text.old }
    ensures { Adds W.taken W.failures text.old text.new (import_row width import.now) }
{
    text.text(b"    0x");
    text.hex_at_least(width, import.slot as u64);
    text.text(b"  ");
    write_key(text, import.key);
    text.text(b"\n");
}

/// Adds the row of a module, and a row for each of its consecutive imports.
fn write_module<W: Sink>(text: &mut TextWriter<W>, width: u8, imports: &[Import])
    requires { IsReady W.failures text.old }
    ensures { AddsSome W.taken W.failures text.old text.new }
{
    let name = match imports.first() {
        Some(import) => module_name(import),
        None => b"",
    };
    write_cells(
        text,
        &[
            Plain(Text(b"  ")),
            Cell::Module(name),
            Plain(Text(b" (")),
            Cell::Count(imports.len() as u64),
            Plain(Text(b")\n")),
        ],
    );
    for import in imports {
        if text.has_failed() {
            return;
        }
        write_import(text, width, import);
    }
}

/// Adds imports under their modules, and a heading before them.
fn write_listed<W: Sink>(
    text: &mut TextWriter<W>,
    options: &ShowOptions,
    title: &[u8],
    imports: &[Import],
)
    requires { IsReady W.failures text.old }
    ensures { AddsSome W.taken W.failures text.old text.new }
{
    let width = imports.iter().fold(
        6,
        |width, import| hex_width(u64::from(import.slot)).max(width),
    );
    write_heading(text, options, title, imports.len());
    let mut at = 0;
    while at < imports.len() {
        if text.has_failed() {
            return;
        }
        let len = module_len(&imports[at..]);
        write_module(text, width, &imports[at..at + len]);
        at += len;
    }
}

/// Adds the imports under their modules, if the options select them and they were read.
pub(crate) fn write_imports<A: Allocator + Copy, W: Sink>(
    text: &mut TextWriter<W>,
    options: &ShowOptions,
    tables: &Tables<A>,
)
    requires { IsReady W.failures text.old }
    ensures { AddsSome W.taken W.failures text.old text.new }
{
    if let (Some(imports), true) = (&tables.imports, options.imports) {
        write_listed(text, options, b"Imports", imports.as_slice());
    }
}

/// Adds the delay-loaded imports under their modules, if the options select imports and there are any.
pub(crate) fn write_delayed<W: Sink>(
    text: &mut TextWriter<W>,
    options: &ShowOptions,
    delayed: &[Import],
)
    requires { IsReady W.failures text.old }
    ensures { AddsSome W.taken W.failures text.old text.new }
{
    if options.imports && !delayed.is_empty() {
        write_listed(text, options, b"Delay-loaded imports", delayed);
    }
}
