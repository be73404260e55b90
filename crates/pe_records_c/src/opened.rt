//! What the calls of an opened image report: exports, imports, base relocations, and what is at an RVA.

ghost use Rattle.std.specs.Prelude.{◌≡◌, ◌≢◌, length, option_map};
ghost use Rattle.pe_head.specs.Head.{head_of};
ghost use Rattle.pe_layout.specs.Image.{image_of_file};
ghost use Rattle.pe_layout.specs.Locating.{located, file_offset};
ghost use Rattle.pe_tables.specs.Exports.{exports_of, target_at};
ghost use Rattle.pe_tables.specs.Fixups.{fixups_of};
ghost use Rattle.pe_tables.specs.Imports.{imports_of};
ghost use Rattle.pe_tables.specs.Key.{Name, Ordinal, target_view};
ghost use Rattle.pe_records_c.specs.ExportRows.{TellsTarget, export_text, export_by_ordinal, export_by_name, named};
ghost use Rattle.pe_records_c.specs.FixupRows.{fixup_row};
ghost use Rattle.pe_records_c.specs.Images.{IsRead, IsText, IsOffset};
ghost use Rattle.pe_records_c.specs.ImportRows.{import_text, import_row, import_of_slot, TellsImport};
ghost use Rattle.pe_records_c.specs.Rows.{TellsTable};

use crate::export::{ExportRow, TargetRecord, put_names, put_target, target_of_ordinal};
use crate::fixup::FixupRow;
use crate::import::{ImportRow, put_import};
use crate::row::put_table;
use crate::status;
use crate::text::TextRecord;
use pe_layout::Located;
use pe_opened::OpenedImage;
use pe_tables::Target;

/// Reports what a name exports, and returns the status, 0 or 3.
pub fn tell_name<'a>(image: &OpenedImage<'a>, name: &[u8], target: &mut TargetRecord<'a>) -> u32
    ensures target { TellsTarget (target_at (exports_of (image_of_file 0 image.now)) (Name name.now)) target.old target.new result }
    ensures open { result ≢ 6 }
{
    put_target(image.by_name(name), target)
}

/// What an ordinal exports, as [`crate::export::export_at`].
fn opened_at<'a>(image: &OpenedImage<'a>, ordinal: u64) -> Option<Target<'a>>
    ensures { option_map target_view result ≡ target_at (exports_of (image_of_file 0 image.now)) (Ordinal ordinal) }
{
    if ordinal < 1 << 32 {
        image.by_ordinal(ordinal as u32)
    } else {
        target_of_ordinal(image.ordinals(), ordinal)
    }
}

/// Reports what an ordinal exports, and returns the status, 0 or 3.
pub fn tell_ordinal<'a>(image: &OpenedImage<'a>, ordinal: u64, target: &mut TargetRecord<'a>) -> u32
    ensures target { TellsTarget (target_at (exports_of (image_of_file 0 image.now)) (Ordinal ordinal)) target.old target.new result }
    ensures open { result ≢ 6 }
{
    put_target(opened_at(image, ordinal), target)
}

/// Reports the exports by ordinal: fills the rows, counts the exports, and returns the status, 0 or 4.
pub fn tell_exports<'a>(
    image: &OpenedImage<'a>,
    rows: &mut [ExportRow<'a>],
    count: &mut usize,
) -> u32
    ensures table { TellsTable export_text export_by_ordinal (exports_of (image_of_file 0 image.now)).ordinals rows.old rows.new count.new result }
    ensures open { result ≢ 6 }
{
    put_table(rows, image.ordinals(), count)
}

/// Reports the exports by name: fills the rows, counts the names, and returns the status, 0 or 4.
pub fn tell_names<'a>(image: &OpenedImage<'a>, rows: &mut [ExportRow<'a>], count: &mut usize) -> u32
    ensures table { TellsTable export_text export_by_name (named (exports_of (image_of_file 0 image.now))) rows.old rows.new count.new result }
    ensures open { result ≢ 6 }
{
    put_names(rows, image.names(), image.name_ordinals(), count)
}

/// Reports the imports: fills the rows, counts the imports, and returns the status, 0 or 4.
pub fn tell_imports<'a>(
    image: &OpenedImage<'a>,
    rows: &mut [ImportRow<'a>],
    count: &mut usize,
) -> u32
    ensures table { TellsTable import_text import_row (imports_of (image_of_file 0 image.now)) rows.old rows.new count.new result }
    ensures open { result ≢ 6 }
{
    put_table(rows, image.imports(), count)
}

/// Reports the import whose slot is at an RVA, and returns the status, 0 or 3.
pub fn tell_import<'a>(image: &OpenedImage<'a>, slot: u32, found: &mut ImportRow<'a>) -> u32
    ensures found { TellsImport (import_of_slot (imports_of (image_of_file 0 image.now)) slot) found.old found.new result }
    ensures open { result ≢ 6 }
{
    put_import(image.imports(), slot, found)
}

/// Reports the base relocations: fills the rows, counts them, and returns the status, 0 or 4.
pub fn tell_fixups(image: &OpenedImage, rows: &mut [FixupRow], count: &mut usize) -> u32
    ensures table { TellsTable (λ row. row) fixup_row (fixups_of (image_of_file 0 image.now)) rows.old rows.new count.new result }
    ensures open { result ≢ 6 }
{
    put_table(rows, image.fixups(), count)
}

/// Fills a buffer with the bytes from an RVA on, and returns the status: 0, or 3 if they do not all lie inside the image, which
/// leaves the buffer unchanged.
pub fn tell_bytes(image: &OpenedImage, rva: u32, buffer: &mut [u8]) -> u32
    ensures read { IsRead image.now rva (length buffer.old) buffer.old buffer.new result }
    ensures open { result ≢ 6 }
{
    if image.read(rva, buffer) {
        status::DONE
    } else {
        status::ABSENT
    }
}

/// Reports the zero-terminated string at an RVA, and returns the status: 0, or 3 if there is none.
pub fn tell_text<'a>(image: &OpenedImage<'a>, rva: u32, text: &mut TextRecord<'a>) -> u32
    ensures text { IsText ((image_of_file 0 image.now).text rva) text.old text.new result }
    ensures open { result ≢ 6 }
{
    match image.text(rva) {
        Some(bytes) => {
            *text = TextRecord { bytes };
            status::DONE
        }
        None => status::ABSENT,
    }
}

/// Reports the file offset of the byte at an RVA, and returns the status: 0, or 3 if the file does not hold it.
pub fn tell_offset(image: &OpenedImage, rva: u32, offset: &mut u64) -> u32
    ensures place { IsOffset (file_offset (located (head_of image.now) rva)) offset.old offset.new result }
    ensures open { result ≢ 6 }
{
    match image.locate(rva) {
        Located::Header { file } | Located::Raw { section: _, file } => {
            *offset = file;
            status::DONE
        }
        Located::Zero { section: _ } | Located::Gap | Located::Outside => status::ABSENT,
    }
}
