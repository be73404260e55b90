//! Tables of an open image: `petool_image_export_by_name`, `_export_by_ordinal`, `_import_at`, `_exports`, `_export_names`,
//! `_imports` and `_fixups`.

ghost use Rattle.std.specs.Prelude.{◌≡◌, ◌≢◌, ◌↔◌, false};
ghost use Rattle.pe_tables.specs.Key.{Name, Ordinal};
ghost use Rattle.pe_opened.specs.Held.{file_in};
ghost use Rattle.pe_records_c.specs.ExportRows.{export_text, export_by_ordinal, export_by_name};
ghost use Rattle.pe_records_c.specs.FixupRows.{fixup_row};
ghost use Rattle.pe_records_c.specs.Images.{TellsTargetOf, TellsImportOf, opened_ordinals, opened_names, opened_imports, opened_fixups};
ghost use Rattle.pe_records_c.specs.ImportRows.{import_text, import_row};
ghost use Rattle.pe_records_c.specs.Rows.{TellsTable};

use crate::lending::with_image;
use pe_opened::ImageHandle;
use pe_records_c::export::{ExportRow, TargetRecord};
use pe_records_c::fixup::FixupRow;
use pe_records_c::import::ImportRow;
use pe_records_c::opened::{
    tell_exports, tell_fixups, tell_import, tell_imports, tell_name, tell_names, tell_ordinal,
};
use std::alloc::Global;

/// What a name of an open image exports; if the name is repeated, what it exports at its first place.
///
/// The status is 0; 3 if there is no export of this name; or 6 if the image is closed. All but 0 leave the target unchanged.
/// Allocates nothing, and reads no table again: the name is looked up in the index that the image keeps.
#[unsafe(no_mangle)]
pub extern "C" fn petool_image_export_by_name(
    alloc: Global,
    image: &mut ImageHandle,
    name: &[u8],
    target: &mut TargetRecord<'static>,
) -> u32
    ensures exact { TellsTargetOf (file_in image.old.image) (Name name.now) target.old target.new result }
    ensures closed { (result ≡ 6) ↔ (image.old.is_open ≡ false) }
    ensures image_kept { file_in image.new.image ≡ file_in image.old.image }
    ensures open_kept { image.new.is_open ≡ image.old.is_open }
{
    with_image!(alloc, image, |opened| tell_name(opened, name, target))
}

/// What an ordinal of an open image exports, with the statuses of [`petool_image_export_by_name`].
#[unsafe(no_mangle)]
pub extern "C" fn petool_image_export_by_ordinal(
    alloc: Global,
    image: &mut ImageHandle,
    ordinal: u64,
    target: &mut TargetRecord<'static>,
) -> u32
    ensures exact { TellsTargetOf (file_in image.old.image) (Ordinal ordinal) target.old target.new result }
    ensures closed { (result ≡ 6) ↔ (image.old.is_open ≡ false) }
    ensures image_kept { file_in image.new.image ≡ file_in image.old.image }
    ensures open_kept { image.new.is_open ≡ image.old.is_open }
{
    with_image!(alloc, image, |opened| tell_ordinal(opened, ordinal, target))
}

/// The import of an open image whose slot is at an RVA.
///
/// The status is 0; 3 if there is none; or 6 if the image is closed. All but 0 leave the record unchanged. Allocates nothing, and
/// looks at the imports one by one.
#[unsafe(no_mangle)]
pub extern "C" fn petool_image_import_at(
    alloc: Global,
    image: &mut ImageHandle,
    slot: u32,
    found: &mut ImportRow<'static>,
) -> u32
    ensures exact { TellsImportOf (file_in image.old.image) slot found.old found.new result }
    ensures closed { (result ≡ 6) ↔ (image.old.is_open ≡ false) }
    ensures image_kept { file_in image.new.image ≡ file_in image.old.image }
    ensures open_kept { image.new.is_open ≡ image.old.is_open }
{
    with_image!(alloc, image, |opened| tell_import(opened, slot, found))
}

/// Copies the exports by ordinal of an open image, in the order of the export address table, into the caller's rows.
///
/// The status is 0; 4 if there are more exports than rows, which then hold the first exports; or 6 if the image is closed. The
/// count is that of all exports; 6 leaves it and the rows unchanged. Allocates nothing.
#[unsafe(no_mangle)]
pub extern "C" fn petool_image_exports(
    alloc: Global,
    image: &mut ImageHandle,
    rows: &mut [ExportRow<'static>],
    count: &mut usize,
) -> u32
    ensures table { result ≢ 6 → TellsTable export_text export_by_ordinal (opened_ordinals (file_in image.old.image)) rows.old rows.new count.new result }
    ensures rows_kept { result ≡ 6 → rows.new ≡ rows.old }
    ensures count_kept { result ≡ 6 → count.new ≡ count.old }
    ensures closed { (result ≡ 6) ↔ (image.old.is_open ≡ false) }
    ensures image_kept { file_in image.new.image ≡ file_in image.old.image }
    ensures open_kept { image.new.is_open ≡ image.old.is_open }
{
    with_image!(alloc, image, |opened| tell_exports(opened, rows, count))
}

/// Copies the exports by name of an open image, in the order of the name pointer table and each name once, as
/// [`petool_image_exports`] does.
#[unsafe(no_mangle)]
pub extern "C" fn petool_image_export_names(
    alloc: Global,
    image: &mut ImageHandle,
    rows: &mut [ExportRow<'static>],
    count: &mut usize,
) -> u32
    ensures table { result ≢ 6 → TellsTable export_text export_by_name (opened_names (file_in image.old.image)) rows.old rows.new count.new result }
    ensures rows_kept { result ≡ 6 → rows.new ≡ rows.old }
    ensures count_kept { result ≡ 6 → count.new ≡ count.old }
    ensures closed { (result ≡ 6) ↔ (image.old.is_open ≡ false) }
    ensures image_kept { file_in image.new.image ≡ file_in image.old.image }
    ensures open_kept { image.new.is_open ≡ image.old.is_open }
{
    with_image!(alloc, image, |opened| tell_names(opened, rows, count))
}

/// Copies the imports of an open image, in the order of its import table, as [`petool_image_exports`] does.
#[unsafe(no_mangle)]
pub extern "C" fn petool_image_imports(
    alloc: Global,
    image: &mut ImageHandle,
    rows: &mut [ImportRow<'static>],
    count: &mut usize,
) -> u32
    ensures table { result ≢ 6 → TellsTable import_text import_row (opened_imports (file_in image.old.image)) rows.old rows.new count.new result }
    ensures rows_kept { result ≡ 6 → rows.new ≡ rows.old }
    ensures count_kept { result ≡ 6 → count.new ≡ count.old }
    ensures closed { (result ≡ 6) ↔ (image.old.is_open ≡ false) }
    ensures image_kept { file_in image.new.image ≡ file_in image.old.image }
    ensures open_kept { image.new.is_open ≡ image.old.is_open }
{
    with_image!(alloc, image, |opened| tell_imports(opened, rows, count))
}

/// Copies the base relocations of an open image, in the order of their table, as [`petool_image_exports`] does.
#[unsafe(no_mangle)]
pub extern "C" fn petool_image_fixups(
    alloc: Global,
    image: &mut ImageHandle,
    rows: &mut [FixupRow],
    count: &mut usize,
) -> u32
    ensures table { result ≢ 6 → TellsTable (λ row. row) fixup_row (opened_fixups (file_in image.old.image)) rows.old rows.new count.new result }
    ensures rows_kept { result ≡ 6 → rows.new ≡ rows.old }
    ensures count_kept { result ≡ 6 → count.new ≡ count.old }
    ensures closed { (result ≡ 6) ↔ (image.old.is_open ≡ false) }
    ensures image_kept { file_in image.new.image ≡ file_in image.old.image }
    ensures open_kept { image.new.is_open ≡ image.old.is_open }
{
    with_image!(alloc, image, |opened| tell_fixups(opened, rows, count))
}
