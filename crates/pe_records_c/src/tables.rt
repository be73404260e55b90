//! `put_image`: all tables of an image at once, and `CountsRecord`, how many items each of them has.

ghost use Rattle.std.specs.Prelude.{◌≡◌, length, map, if◌then◌else◌};
ghost use Rattle.pe_tables.specs.ExportsView.{exports_view};
ghost use Rattle.pe_tables.specs.ImportView.{import_view};
ghost use Rattle.pe_records_c.specs.Counts.{have_room};
ghost use Rattle.pe_records_c.specs.ExportRows.{export_text, export_by_ordinal, export_by_name, named};
ghost use Rattle.pe_records_c.specs.FixupRows.{fixup_row};
ghost use Rattle.pe_records_c.specs.ImportRows.{import_text, import_row};
ghost use Rattle.pe_records_c.specs.Rows.{filled};

use crate::export::{ExportRow, fill_names};
use crate::fixup::FixupRow;
use crate::import::ImportRow;
use crate::row::fill_rows;
use crate::status;
use pe_image::Image;
use pe_tables::{Exports, Fixup, Import};
use std::alloc::Global;

/// How many items each table of an image has.
#[repr(C)]
#[derive(Clone, Copy)]
pub struct CountsRecord {
    /// The exports by ordinal.
    pub exports: usize,
    /// The exports by name.
    pub names: usize,
    /// The imports.
    pub imports: usize,
    /// The base relocations.
    pub fixups: usize,
}

/// Fills the first rows with the exports by ordinal.
fn put_ordinals<'a>(rows: &mut [ExportRow<'a>], exports: &Exports<'a, Global>)
    ensures { map export_text rows.new ≡ filled export_by_ordinal (exports_view exports.now).ordinals (map export_text rows.old) }
{
    fill_rows(rows, exports.ordinals());
}

/// Fills the first rows with the exports by name.
fn put_names<'a>(rows: &mut [ExportRow<'a>], exports: &Exports<'a, Global>)
    ensures { map export_text rows.new ≡ filled export_by_name (named (exports_view exports.now)) (map export_text rows.old) }
{
    fill_names(rows, exports.names(), exports.name_ordinals());
}

/// Fills the first rows with imports.
fn put_imports<'a>(rows: &mut [ImportRow<'a>], imports: &[Import<'a>])
    ensures { map import_text rows.new ≡ filled import_row (map import_view imports.now) (map import_text rows.old) }
{
    fill_rows(rows, imports);
}

/// Fills the first rows with base relocations.
fn put_fixups(rows: &mut [FixupRow], fixups: &[Fixup])
    ensures { rows.new ≡ filled fixup_row fixups.now rows.old }
{
    fill_rows(rows, fixups);
}

/// How many items each table of an image has.
fn counts_in(image: &Image<Global>) -> CountsRecord
    ensures exports { result.exports ≡ length (exports_view image.now.exports).ordinals }
    ensures names { result.names ≡ length (exports_view image.now.exports).names }
    ensures imports { result.imports ≡ length (map import_view image.now.imports.items) }
    ensures fixups { result.fixups ≡ length image.now.fixups.items }
{
    CountsRecord {
        exports: image.exports.ordinals().len(),
        names: image.exports.names().len(),
        imports: image.imports.len(),
        fixups: image.fixups.len(),
    }
}

/// The status of tables in this many rows each: 0 if they all fit, otherwise 4.
fn tables_status(
    counts: CountsRecord,
    exports: usize,
    names: usize,
    imports: usize,
    fixups: usize,
) -> u32
    ensures { result ≡ (if have_room counts exports names imports fixups then 0 else 4) }
{
    let exported = counts.exports <= exports && counts.names <= names;
    if exported && counts.imports <= imports && counts.fixups <= fixups {
        status::DONE
    } else {
        status::SMALL
    }
}

/// Reports the tables of an image, and returns the status: 0, or 4 if a table has more items than rows.
pub fn put_image<'a>(
    image: &Image<'a, Global>,
    exports: &mut [ExportRow<'a>],
    names: &mut [ExportRow<'a>],
    imports: &mut [ImportRow<'a>],
    fixups: &mut [FixupRow],
    counts: &mut CountsRecord,
) -> u32
    ensures exports { map export_text exports.new ≡ filled export_by_ordinal (exports_view image.now.exports).ordinals (map export_text exports.old) }
    ensures names { map export_text names.new ≡ filled export_by_name (named (exports_view image.now.exports)) (map export_text names.old) }
    ensures imports { map import_text imports.new ≡ filled import_row (map import_view image.now.imports.items) (map import_text imports.old) }
    ensures fixups { fixups.new ≡ filled fixup_row image.now.fixups.items fixups.old }
    ensures exports_count { counts.new.exports ≡ length (exports_view image.now.exports).ordinals }
    ensures names_count { counts.new.names ≡ length (exports_view image.now.exports).names }
    ensures imports_count { counts.new.imports ≡ length (map import_view image.now.imports.items) }
    ensures fixups_count { counts.new.fixups ≡ length image.now.fixups.items }
    ensures status { result ≡ (if have_room counts.new (length exports.new) (length names.new) (length imports.new) (length fixups.new) then 0 else 4) }
{
    put_ordinals(exports, &image.exports);
    put_names(names, &image.exports);
    put_imports(imports, image.imports.as_slice());
    put_fixups(fixups, image.fixups.as_slice());
    *counts = counts_in(image);
    tables_status(
        *counts,
        exports.len(),
        names.len(),
        imports.len(),
        fixups.len(),
    )
}
