//! The summary of the resources at their directory.

ghost use Rattle.pe_text.specs.TextWriter.{IsReady};
ghost use Rattle.pe_page.specs.Page.{AddsSome};

use crate::image_resources::ShownResources;
use crate::version_numbers::write_number;
use crate::version_text::{FILE_DESCRIPTION, version_text};
use crate::wide_text::write_short_text;
use pe_page::{Cell, plural, write_cells};
use pe_text::{Sink, TextWriter};
use pe_version::fixed_info;

/// Adds the file version, if the version information has one.
fn write_version<W: Sink>(text: &mut TextWriter<W>, version: &[u8])
    requires { IsReady W.failures text.old }
    ensures { AddsSome W.taken W.failures text.old text.new }
{
    let Some(info) = fixed_info(version) else {
        return;
    };
    text.text(b", version ");
    write_number(text, info.file_version());
}

/// Adds what the file is by its own words, if the version information says it.
fn write_description<W: Sink>(text: &mut TextWriter<W>, version: &[u8])
    requires { IsReady W.failures text.old }
    ensures { AddsSome W.taken W.failures text.old text.new }
{
    let Some(units) = version_text(version, &FILE_DESCRIPTION) else {
        return;
    };
    text.text(b" '");
    write_short_text(text, units);
    text.text(b"'");
}

/// Adds the summary of the resource directory, like `12 leaves, version 10.0.1.5 'Wine kernel DLL'`.
pub fn write_resource_summary<W: Sink>(text: &mut TextWriter<W>, resources: &ShownResources)
    requires { IsReady W.failures text.old }
    ensures { AddsSome W.taken W.failures text.old text.new }
{
    let count = resources.leaves.len();
    write_cells(
        text,
        &[
            Cell::Count(count as u64),
            plural(count, b" leaf", b" leaves"),
        ],
    );
    if let Some(version) = resources.version {
        write_version(text, version);
        write_description(text, version);
    }
}
