//! Resources: `petool_resources` and `petool_manifest`.

ghost use Rattle.std.specs.Prelude.{◌≢◌, None};
ghost use Rattle.pe_layout.specs.Image.{image_of_file};
ghost use Rattle.pe_layout.specs.SectionFaults.{layout_tests};
ghost use Rattle.pe_records_c.specs.Rows.{ReadsTable};
ghost use Rattle.pe_records_c.specs.Wants.{IsLaidOutAnd};
ghost use Rattle.pe_resources.specs.Walk.{leaves_of};
ghost use Rattle.c_tables.specs.Kinds.{manifest_data};
ghost use Rattle.c_tables.specs.ResourceRows.{resource_row, resource_text};
ghost use Rattle.c_tables.specs.Texts.{text_bytes};
ghost use Rattle.c_tables.specs.Told.{ReadsRecord};

use c_tables::manifest::tell_manifest;
use c_tables::resource::{ResourceRow, tell_resources};
use pe_image::lay_out;
use pe_records_c::fault::{FaultRecord, refuse};
use pe_records_c::status;
use pe_records_c::text::TextRecord;
use std::alloc::Global;

/// Reads the leaves of the resource tree of an image, in the order of the tree, into the caller's rows. The tree is read as three
/// levels: types, names and languages. A directory that has a byte in common with one that was read before it is not read again, so
/// that there are at most as many leaves as the file has bytes for, 8 for each.
///
/// The status is 0; 4 if there are more leaves than rows, which then hold the first of them; 1 with the first of faults 1 to 15; or 2,
/// out of memory, which comes only if the file has none of these faults, and the image has a resource directory. The count is that of
/// all leaves; 1 and 2 leave it and the rows unchanged. ("PE Format": The .rsrc Section.)
#[unsafe(no_mangle)]
pub extern "C" fn petool_resources<'a>(
    alloc: Global,
    file: &'a [u8],
    rows: &mut [ResourceRow<'a>],
    count: &mut usize,
    fault: &mut FaultRecord,
) -> u32
    ensures { ReadsTable (IsLaidOutAnd (λ i. i.directory 2 ≢ None) file.now) (layout_tests 0 file.now) resource_text (resource_row (image_of_file 0 file.now))
        (leaves_of (image_of_file 0 file.now)) rows.old rows.new count.old count.new fault.old fault.new result }
{
    let layout = match lay_out(file, 0) {
        Ok(layout) => layout,
        Err(first) => return refuse(first, fault),
    };
    match tell_resources(alloc, &layout, rows, count) {
        Ok(status) => status,
        Err(_) => status::MEMORY,
    }
}

/// The manifest of an image, as a slice of the file: the data of the resource of type 24 and name 1, else of name 2, else of the first
/// name, in its first language.
///
/// The status is 0; 3 if there is none, or the file does not hold all of it in one run; or 1 with the first of faults 1 to 15. All but
/// 0 leave the record unchanged. Allocates nothing.
#[unsafe(no_mangle)]
pub extern "C" fn petool_manifest<'a>(
    file: &'a [u8],
    manifest: &mut TextRecord<'a>,
    fault: &mut FaultRecord,
) -> u32
    ensures { ReadsRecord (layout_tests 0 file.now) text_bytes (manifest_data (image_of_file 0 file.now)) manifest.old manifest.new fault.old fault.new result }
{
    match lay_out(file, 0) {
        Ok(layout) => tell_manifest(&layout, manifest),
        Err(first) => refuse(first, fault),
    }
}
