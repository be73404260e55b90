//! Version information: `petool_version`, `petool_version_strings` and `petool_version_string`.

ghost use Rattle.pe_layout.specs.Image.{image_of_file};
ghost use Rattle.pe_layout.specs.SectionFaults.{layout_tests};
ghost use Rattle.pe_records_c.specs.Rows.{ReadsTable};
ghost use Rattle.c_tables.specs.Texts.{text_bytes};
ghost use Rattle.c_tables.specs.VersionRows.{value_of, version_strings, version_text, version_told};
ghost use Rattle.c_tables.specs.Told.{ReadsRecord};

use c_tables::version::{VersionInfoRecord, tell_version};
use c_tables::version_text::{VersionTextRow, tell_version_string, tell_version_strings};
use pe_image::lay_out;
use pe_records_c::fault::{FaultRecord, refuse};
use pe_records_c::text::TextRecord;

/// The fixed part of an image's version information (VS_FIXEDFILEINFO), which is the data of the first resource of type 16.
///
/// The status is 0; 3 if there is none, its key or its signature is another, or the file does not hold all of the data in one run; or 1
/// with the first of faults 1 to 15. All but 0 leave the record unchanged. Allocates nothing.
#[unsafe(no_mangle)]
pub extern "C" fn petool_version(
    file: &[u8],
    version: &mut VersionInfoRecord,
    fault: &mut FaultRecord,
) -> u32
    ensures { ReadsRecord (layout_tests 0 file.now) (λ r. r) (version_told (image_of_file 0 file.now)) version.old version.new fault.old fault.new result }
{
    match lay_out(file, 0) {
        Ok(layout) => tell_version(&layout, version),
        Err(first) => refuse(first, fault),
    }
}

/// Reads the strings of an image's version information, of each table in its order, into the caller's rows.
///
/// The status is 0; 4 if there are more strings than rows, which then hold the first of them; or 1 with the first of faults 1 to 15.
/// The count is that of all strings; 1 leaves it and the rows unchanged. Allocates nothing.
#[unsafe(no_mangle)]
pub extern "C" fn petool_version_strings<'a>(
    file: &'a [u8],
    rows: &mut [VersionTextRow<'a>],
    count: &mut usize,
    fault: &mut FaultRecord,
) -> u32
    ensures { ReadsTable ⊥ (layout_tests 0 file.now) version_text (λ text. text) (version_strings (image_of_file 0 file.now))
        rows.old rows.new count.old count.new fault.old fault.new result }
{
    match lay_out(file, 0) {
        Ok(layout) => tell_version_strings(&layout, rows, count),
        Err(first) => refuse(first, fault),
    }
}

/// What the first string of an image's version information says whose key is this text in ASCII.
///
/// The status is 0; 3 if no string has this key; or 1 with the first of faults 1 to 15. All but 0 leave the value unchanged. Allocates
/// nothing.
#[unsafe(no_mangle)]
pub extern "C" fn petool_version_string<'a>(
    file: &'a [u8],
    key: &[u8],
    value: &mut TextRecord<'a>,
    fault: &mut FaultRecord,
) -> u32
    ensures { ReadsRecord (layout_tests 0 file.now) text_bytes (value_of key.now (version_strings (image_of_file 0 file.now))) value.old value.new fault.old fault.new result }
{
    match lay_out(file, 0) {
        Ok(layout) => tell_version_string(&layout, key, value),
        Err(first) => refuse(first, fault),
    }
}
