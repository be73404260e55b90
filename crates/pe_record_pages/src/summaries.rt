//! The summaries of the tables beyond the profile, at their directories.

ghost use Rattle.pe_text.specs.TextWriter.{IsReady};
ghost use Rattle.pe_page.specs.Page.{AddsSome};

use crate::debug::write_debug_summary;
use crate::findings::write_mark;
use crate::functions::write_function_count;
use crate::load_configuration::write_load_size;
use crate::shown_image::ShownImage;
use crate::tls::write_callback_count;
use pe_head::directory_index;
use pe_layout::Layout;
use pe_page::Cell::{self, Plain};
use pe_page::{plural, write_cells};
use pe_records::{BoundImports, Structure, clr_field, clr_header};
use pe_resource_pages::write_resource_summary;
use pe_text::Part::{Decimal, Text};
use pe_text::{Sink, TextWriter, write_parts};

/// Adds the number of records of the bound import table.
fn write_bound_count<W: Sink>(text: &mut TextWriter<W>, layout: &Layout)
    requires { IsReady W.failures text.old }
    ensures { AddsSome W.taken W.failures text.old text.new }
{
    let count = BoundImports::of(layout).len();
    write_cells(
        text,
        &[
            Cell::Count(u64::from(count)),
            plural(count as usize, b" record", b" records"),
        ],
    );
}

/// Adds the number of delay-loaded imports.
fn write_delayed_count<W: Sink>(text: &mut TextWriter<W>, image: &ShownImage)
    requires { IsReady W.failures text.old }
    ensures { AddsSome W.taken W.failures text.old text.new }
{
    write_cells(
        text,
        &[
            Cell::Count(image.delayed.len() as u64),
            plural(image.delayed.len(), b" import", b" imports"),
        ],
    );
}

/// The number in field `index` of a CLR header.
fn clr_number(header: &Structure, index: usize) -> Option<u64> {
    header.field(clr_field(index)?)
}

/// The version of the runtime that a CLR header names.
fn runtime_version(layout: &Layout) -> Option<(u64, u64)> {
    let header = clr_header(layout)?;
    let major = clr_number(&header, 1)?;
    let minor = clr_number(&header, 2)?;
    Some((major, minor))
}

/// Adds the version of the runtime that the CLR header names.
fn write_runtime<W: Sink>(text: &mut TextWriter<W>, layout: &Layout)
    requires { IsReady W.failures text.old }
    ensures { AddsSome W.taken W.failures text.old text.new }
{
    match runtime_version(layout) {
        Some((major, minor)) => write_parts(
            text,
            &[
                Text(b"runtime "),
                Decimal(major),
                Text(b"."),
                Decimal(minor),
            ],
        ),
        None => text.text(b"no version"),
    }
}

/// Adds the summary of the table of directory `index`, if the table is read.
fn write_known<W: Sink>(text: &mut TextWriter<W>, image: &ShownImage, index: usize)
    requires { IsReady W.failures text.old }
    ensures { AddsSome W.taken W.failures text.old text.new }
{
    match index {
        directory_index::RESOURCE => write_resource_summary(text, &image.resources),
        directory_index::DEBUG => write_debug_summary(text, image),
        directory_index::EXCEPTION => write_function_count(text, image.layout),
        directory_index::TLS => write_callback_count(text, image.layout),
        directory_index::LOAD_CONFIGURATION => write_load_size(text, image.layout),
        directory_index::BOUND_IMPORT => write_bound_count(text, image.layout),
        directory_index::DELAY_IMPORT => write_delayed_count(text, image),
        directory_index::CLR => write_runtime(text, image.layout),
        _ => text.text(b"not read"),
    }
}

/// Adds the summary of the table of directory `index`, which is not one of the profile, and how many findings it has.
pub fn write_table_summary<W: Sink>(text: &mut TextWriter<W>, image: &ShownImage, index: usize)
    requires { IsReady W.failures text.old }
    ensures { AddsSome W.taken W.failures text.old text.new }
{
    write_known(text, image, index);
    write_mark(text, image, index);
}
