//! The manifest of an image, as C has it.

ghost use Rattle.std.specs.Prelude.{◌≡◌, option_map};
ghost use Rattle.pe_layout.specs.Layout.{image_of};
ghost use Rattle.c_tables.specs.Kinds.{manifest_data};
ghost use Rattle.c_tables.specs.Texts.{text_bytes};
ghost use Rattle.c_tables.specs.Told.{TellsRecord};

use crate::text::put_text;
use pe_layout::Layout;
use pe_records_c::text::TextRecord;
use pe_resources::{leaf_data, manifest};

/// The bytes of an image's manifest, if it has one that the file holds in one run.
fn manifest_data<'a>(layout: &Layout<'a>) -> Option<&'a [u8]>
    ensures { option_map (λ bytes. bytes.now) result ≡ manifest_data (image_of layout.entry.now) }
{
    match manifest(layout) {
        Some(leaf) => leaf_data(layout, &leaf),
        None => None,
    }
}

/// Stores the manifest of an image, and returns the status: 0, or 3 if there is none that the file holds in one run, which leaves the
/// record unchanged.
pub fn tell_manifest<'a>(layout: &Layout<'a>, text: &mut TextRecord<'a>) -> u32
    ensures { TellsRecord text_bytes (manifest_data (image_of layout.entry.now)) text.old text.new result }
{
    put_text(manifest_data(layout), text)
}
