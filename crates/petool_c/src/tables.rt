//! All tables of an image at once: `petool_tables`.

ghost use Rattle.std.specs.Prelude.{◌≡◌, length, map, if◌then◌else◌};
ghost use Rattle.pe_layout.specs.Image.{image_of_file};
ghost use Rattle.pe_tables.specs.Exports.{exports_of};
ghost use Rattle.pe_tables.specs.Fixups.{fixups_of};
ghost use Rattle.pe_tables.specs.Imports.{imports_of};
ghost use Rattle.pe_image.specs.ImageTests.{image_tests};
ghost use Rattle.pe_records_c.specs.Counts.{AreCounts, have_room};
ghost use Rattle.pe_records_c.specs.ExportRows.{export_text, export_by_ordinal, export_by_name, named};
ghost use Rattle.pe_records_c.specs.Faults.{IsAccepted, IsAnswered, IsRefused};
ghost use Rattle.pe_records_c.specs.FixupRows.{fixup_row};
ghost use Rattle.pe_records_c.specs.ImportRows.{import_text, import_row};
ghost use Rattle.pe_records_c.specs.Rows.{filled};
ghost use Rattle.pe_records_c.specs.Wants.{IsLaidOut};

use pe_image::read_image;
use pe_records_c::export::ExportRow;
use pe_records_c::fault::{FaultRecord, refuse_for};
use pe_records_c::fixup::FixupRow;
use pe_records_c::import::ImportRow;
use pe_records_c::tables::{CountsRecord, put_image};
use std::alloc::Global;

/// Reads all tables of an image at once into the caller's rows: exports by ordinal and by name, imports and base relocations.
///
/// The status is 0; 4 if a table has more items than rows, which then hold its first items; 1 with the first of the image faults;
/// or 2, out of memory, but never for a file with one of faults 1 to 15. The counts are those of all items; 1 and 2 leave them and
/// all rows unchanged.
#[unsafe(no_mangle)]
pub extern "C" fn petool_tables<'a>(
    alloc: Global,
    file: &'a [u8],
    exports: &mut [ExportRow<'a>],
    names: &mut [ExportRow<'a>],
    imports: &mut [ImportRow<'a>],
    fixups: &mut [FixupRow],
    counts: &mut CountsRecord,
    fault: &mut FaultRecord,
) -> u32
    ensures faults { IsAnswered (IsLaidOut file.now) (image_tests 0 file.now) fault.old fault.new result }
    ensures exports { IsAccepted result → map export_text exports.new ≡ filled export_by_ordinal (exports_of (image_of_file 0 file.now)).ordinals (map export_text exports.old) }
    ensures names { IsAccepted result → map export_text names.new ≡ filled export_by_name (named (exports_of (image_of_file 0 file.now))) (map export_text names.old) }
    ensures imports { IsAccepted result → map import_text imports.new ≡ filled import_row (imports_of (image_of_file 0 file.now)) (map import_text imports.old) }
    ensures fixups { IsAccepted result → fixups.new ≡ filled fixup_row (fixups_of (image_of_file 0 file.now)) fixups.old }
    ensures counts { IsAccepted result → AreCounts (image_of_file 0 file.now) counts.new }
    ensures status { IsAccepted result → result ≡ (if have_room counts.new (length exports.new) (length names.new) (length imports.new) (length fixups.new) then 0 else 4) }
    ensures exports_kept { IsRefused result → exports.new ≡ exports.old }
    ensures names_kept { IsRefused result → names.new ≡ names.old }
    ensures imports_kept { IsRefused result → imports.new ≡ imports.old }
    ensures fixups_kept { IsRefused result → fixups.new ≡ fixups.old }
    ensures counts_kept { IsRefused result → counts.new ≡ counts.old }
{
    match read_image(alloc, file, 0) {
        Ok(image) => put_image(&image, exports, names, imports, fixups, counts),
        Err(refusal) => refuse_for(refusal, fault),
    }
}
