//! `VersionInfoRecord`: the fixed part of version information, as C has it.

ghost use Rattle.std.specs.Prelude.{◌≡◌, option_map};
ghost use Rattle.pe_layout.specs.Layout.{image_of};
ghost use Rattle.c_tables.specs.Kinds.{version_data};
ghost use Rattle.c_tables.specs.VersionRows.{version_record, version_told};
ghost use Rattle.c_tables.specs.Told.{TellsRecord};

use crate::told::put_record;
use pe_layout::Layout;
use pe_resources::{leaf_data, version};
use pe_version::{FixedInfo, fixed_info};

/// The fixed part of version information (VS_FIXEDFILEINFO).
#[repr(C)]
#[derive(Clone, Copy)]
pub struct VersionInfoRecord {
    /// The version of the file, from its first number to its last.
    pub file_version: [u16; 4],
    /// The version of the product, from its first number to its last.
    pub product_version: [u16; 4],
    /// Which flags are valid.
    pub flags_mask: u32,
    /// The flags: 1 a debug build, 2 a prerelease, 8 a private build.
    pub flags: u32,
    /// The operating system that the file is for: 0x40004 Windows.
    pub system: u32,
    /// What the file is: 1 a program, 2 a library, 3 a driver.
    pub kind: u32,
    /// The kind of driver or font.
    pub subkind: u32,
}

/// The fixed part of version information as C has it.
fn version_record(fixed: &FixedInfo) -> VersionInfoRecord
    ensures { result ≡ version_record fixed.now }
{
    VersionInfoRecord {
        file_version: fixed.file_version(),
        product_version: fixed.product_version(),
        flags_mask: fixed.flags_mask,
        flags: fixed.flags,
        system: fixed.system,
        kind: fixed.kind,
        subkind: fixed.subkind,
    }
}

/// The bytes of an image's version information, if it has any that the file holds in one run.
pub(crate) fn version_data<'a>(layout: &Layout<'a>) -> Option<&'a [u8]>
    ensures { option_map (λ bytes. bytes.now) result ≡ version_data (image_of layout.entry.now) }
{
    match version(layout) {
        Some(leaf) => leaf_data(layout, &leaf),
        None => None,
    }
}

/// The fixed part of an image's version information as C has it, if there is one.
fn version_in(layout: &Layout) -> Option<VersionInfoRecord>
    ensures { result ≡ version_told (image_of layout.now) }
{
    match version_data(layout) {
        Some(bytes) => match fixed_info(bytes) {
            Some(fixed) => Some(version_record(&fixed)),
            None => None,
        },
        None => None,
    }
}

/// Stores the fixed part of an image's version information, and returns the status: 0, or 3 if there is none, which leaves the record
/// unchanged.
pub fn tell_version(layout: &Layout, told: &mut VersionInfoRecord) -> u32
    ensures { TellsRecord (λ r. r) (version_told (image_of layout.now)) told.old told.new result }
{
    put_record(version_in(layout), told)
}
