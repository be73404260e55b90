//! The delay-loaded imports of an image.

ghost use Rattle.std.specs.Prelude.{◌≡◌, map};
ghost use Rattle.pe_delay.specs.Imports.{delay_imports_of};
ghost use Rattle.pe_layout.specs.Layout.{image_of};
ghost use Rattle.pe_tables.specs.ImportView.{import_view};
ghost use Rattle.pe_text.specs.TextWriter.{IsReady, Adds};
ghost use Rattle.pe_json.specs.DelayRows.{delay_members};
ghost use Rattle.pe_json.specs.Listed.{more};

use crate::tables::write_imports;
use pe_head::directory_index;
use pe_layout::Layout;
use pe_tables::Import;
use pe_text::{Sink, TextWriter};

/// Adds the member that lists the delay-loaded imports, if the image has a delay-load directory table.
pub(crate) fn write_delay_imports<W: Sink>(
    text: &mut TextWriter<W>,
    layout: &Layout,
    imports: &[Import],
)
    requires ready { IsReady W.failures text.old }
    requires imported { map import_view imports.now ≡ delay_imports_of (image_of layout.now) }
    ensures { Adds W.taken W.failures text.old text.new (more (delay_members (image_of layout.now))) }
{
    let Some(_directory) = layout.directory(directory_index::DELAY_IMPORT) else {
        return;
    };
    text.text(b",\"delay_imports\":");
    write_imports(text, imports);
}
