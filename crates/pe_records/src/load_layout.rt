//! `load_configuration`: the load configuration, and its fields.

ghost use Rattle.std.specs.Prelude.{◌≡◌, IfSome, option_map, slice_get};
ghost use Rattle.pe_view.specs.View.{bytes_of};
ghost use Rattle.pe_layout.specs.Layout.{image_of};
ghost use Rattle.pe_records.specs.LoadConfiguration.{load_bytes, size_at};
ghost use Rattle.pe_records.specs.LoadFields.{load_fields};
ghost use Rattle.pe_records.specs.Structure.{address_width};

use crate::structure::{Field, Structure, Width};
use pe_head::directory_index;
use pe_layout::Layout;
use pe_view::View;

/// The number of fields of the load configuration.
pub const LOAD_FIELD_COUNT: usize = 52;

/// The fields of the load configuration, in the order of "PE Format" (Load Configuration Layout).
const FIELDS: [Field; LOAD_FIELD_COUNT] = [
    Field(0, 0, Width::Four),
    Field(4, 4, Width::Four),
    Field(8, 8, Width::Two),
    Field(10, 10, Width::Two),
    Field(12, 12, Width::Four),
    Field(16, 16, Width::Four),
    Field(20, 20, Width::Four),
    Field(24, 24, Width::Address),
    Field(28, 32, Width::Address),
    Field(32, 40, Width::Address),
    Field(36, 48, Width::Address),
    Field(40, 56, Width::Address),
    Field(48, 64, Width::Address),
    Field(44, 72, Width::Four),
    Field(52, 76, Width::Two),
    Field(54, 78, Width::Two),
    Field(56, 80, Width::Address),
    Field(60, 88, Width::Address),
    Field(64, 96, Width::Address),
    Field(68, 104, Width::Address),
    Field(72, 112, Width::Address),
    Field(76, 120, Width::Address),
    Field(80, 128, Width::Address),
    Field(84, 136, Width::Address),
    Field(88, 144, Width::Four),
    Field(92, 148, Width::Two),
    Field(94, 150, Width::Two),
    Field(96, 152, Width::Four),
    Field(100, 156, Width::Four),
    Field(104, 160, Width::Address),
    Field(108, 168, Width::Address),
    Field(112, 176, Width::Address),
    Field(116, 184, Width::Address),
    Field(120, 192, Width::Address),
    Field(124, 200, Width::Address),
    Field(128, 208, Width::Address),
    Field(132, 216, Width::Address),
    Field(136, 224, Width::Four),
    Field(140, 228, Width::Two),
    Field(142, 230, Width::Two),
    Field(144, 232, Width::Address),
    Field(148, 240, Width::Four),
    Field(152, 244, Width::Four),
    Field(156, 248, Width::Address),
    Field(160, 256, Width::Address),
    Field(164, 264, Width::Address),
    Field(168, 272, Width::Address),
    Field(172, 280, Width::Address),
    Field(176, 288, Width::Address),
    Field(180, 296, Width::Address),
    Field(184, 304, Width::Address),
    Field(188, 312, Width::Address),
];

/// Field `index` of the load configuration, counted from 0.
pub fn load_field(index: usize) -> Option<Field>
    ensures { result ≡ slice_get load_fields index }
{
    if index >= LOAD_FIELD_COUNT {
        return None;
    }
    Some(FIELDS[index])
}

/// The load configuration of an image: of the bytes that the file holds in one run, as many as its own field Size says. The Size of
/// its directory is not used. `None` if the directory is not present, or the file does not hold the field Size.
pub fn load_configuration<'a>(layout: &Layout<'a>) -> Option<Structure<'a>>
    ensures bytes { option_map (λ structure. bytes_of structure.bytes) result ≡ load_bytes (image_of layout.now) }
    ensures width { IfSome result (λ structure. address_width structure.is_plus ≡ (image_of layout.now).slot_width) }
{
    let directory = layout.directory(directory_index::LOAD_CONFIGURATION)?;
    let size = size_at(layout, directory.rva)?;
    Some(Structure::of(layout, directory.rva, size))
}

/// The field Size of the load configuration at an RVA.
pub(crate) fn size_at(layout: &Layout, rva: u32) -> Option<u32>
    ensures { result ≡ size_at (image_of layout.now) rva }
{
    View::new(layout.raw_bytes(rva)).u32_at(0)
}
