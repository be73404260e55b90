//! `clr_header`: the CLR header, its fields, and its findings.

ghost use Rattle.std.specs.Prelude.{◌≡◌, ◌+◌, ◌<◌, ◌^◌, IfSome, option_map, slice_get};
ghost use Rattle.pe_view.specs.View.{bytes_of};
ghost use Rattle.pe_view.specs.Standing.{Adds};
ghost use Rattle.pe_layout.specs.Layout.{image_of};
ghost use Rattle.pe_records.specs.ClrHeader.{any_directory_passes, clr_bytes, clr_fields, clr_tests, directory_passes};
ghost use Rattle.pe_records.specs.Structure.{address_width};

use crate::finding::add;
use crate::load_layout::size_at;
use crate::structure::{Field, Structure, Width};
use pe_head::directory_index;
use pe_layout::Layout;
use pe_view::{Fault, Place, View};
use std::alloc::{AllocError, Allocator};

/// The number of fields of the CLR header.
pub const CLR_FIELD_COUNT: usize = 19;

/// The fields of the CLR header (ECMA-335, II.25.3.3), in order: cb, the two parts of the runtime's version, the RVA and the size of
/// the metadata, Flags, EntryPointToken, and the RVAs and sizes of the resources, the strong name, the table of code managers, the
/// fixups of vtables, the jumps of exports, and the native header.
const FIELDS: [Field; CLR_FIELD_COUNT] = [
    Field(0, 0, Width::Four),
    Field(4, 4, Width::Two),
    Field(6, 6, Width::Two),
    Field(8, 8, Width::Four),
    Field(12, 12, Width::Four),
    Field(16, 16, Width::Four),
    Field(20, 20, Width::Four),
    Field(24, 24, Width::Four),
    Field(28, 28, Width::Four),
    Field(32, 32, Width::Four),
    Field(36, 36, Width::Four),
    Field(40, 40, Width::Four),
    Field(44, 44, Width::Four),
    Field(48, 48, Width::Four),
    Field(52, 52, Width::Four),
    Field(56, 56, Width::Four),
    Field(60, 60, Width::Four),
    Field(64, 64, Width::Four),
    Field(68, 68, Width::Four),
];

/// Field `index` of the CLR header, from 0, or `None` if there is none.
pub fn clr_field(index: usize) -> Option<Field>
    ensures { result ≡ slice_get clr_fields index }
{
    if index >= CLR_FIELD_COUNT {
        return None;
    }
    Some(FIELDS[index])
}

/// The CLR header of an image: of the bytes that the file holds in one run, as many as its own field cb says. `None` if the directory
/// is not present, or the file does not hold the field cb.
pub fn clr_header<'a>(layout: &Layout<'a>) -> Option<Structure<'a>>
    ensures bytes { option_map (λ structure. bytes_of structure.bytes) result ≡ clr_bytes (image_of layout.now) }
    ensures width { IfSome result (λ structure. address_width structure.is_plus ≡ (image_of layout.now).slot_width) }
{
    let directory = layout.directory(directory_index::CLR)?;
    let size = size_at(layout, directory.rva)?;
    Some(Structure::of(layout, directory.rva, size))
}

/// Adds the findings of an image's CLR header.
pub(crate) fn find_clr<A: Allocator>(
    findings: &mut Vec<Fault, A>,
    layout: &Layout,
) -> Result<(), AllocError>
    ensures { Adds (clr_tests (image_of layout.now)) findings.old.items findings.new.items result }
{
    let Some(directory) = layout.directory(directory_index::CLR) else {
        return Ok(());
    };
    let rva = directory.rva;
    let Some(size) = size_at(layout, rva) else {
        return add(findings, layout.image(), Place::Rva(rva), &[(251, true)]);
    };
    let bytes = Structure::of(layout, rva, size).bytes;
    let rules = [
        (251, layout.raw_bytes(rva).len() < size as usize),
        (252, any_directory_passes(layout, bytes)),
    ];
    add(findings, layout.image(), Place::Rva(rva), &rules)
}

/// Whether the RVA and the size at an offset are those of bytes that are not all in the image.
fn directory_passes(layout: &Layout, bytes: View, offset: u64) -> bool
    requires { offset < 2 ^ 32 }
    ensures { result ≡ directory_passes (image_of layout.now) (bytes_of bytes.entry) offset }
{
    let Some(rva) = bytes.u32_at(offset) else {
        return false;
    };
    let Some(size) = bytes.u32_at(offset + 4) else {
        return false;
    };
    rva != 0 && !layout.contains(rva, u64::from(size))
}

/// Whether one of the seven directories of a header is not all in the image.
fn any_directory_passes(layout: &Layout, bytes: View) -> bool
    ensures { result ≡ any_directory_passes (image_of layout.now) (bytes_of bytes.entry) }
{
    let metadata = directory_passes(layout, bytes, 8);
    let resources = directory_passes(layout, bytes, 24);
    let strong_name = directory_passes(layout, bytes, 32);
    let code_managers = directory_passes(layout, bytes, 40);
    let vtable_fixups = directory_passes(layout, bytes, 48);
    let export_jumps = directory_passes(layout, bytes, 56);
    let native_header = directory_passes(layout, bytes, 64);
    metadata
        || resources
        || strong_name
        || code_managers
        || vtable_fixups
        || export_jumps
        || native_header
}
