//! `name_of`: the names of values and flags, by what they are of.

ghost use Rattle.std.specs.Prelude.{◌≡◌, option_map};
ghost use Rattle.pe_records_c.specs.ValueNames.{value_name};

use pe_head::{FlagKind, directory_name, flag_name, machine_name, subsystem_name};

/// What has names.
pub mod named {
    /// The machine of a COFF file header.
    pub const MACHINE: u32 = 0;
    /// The subsystem of an image.
    pub const SUBSYSTEM: u32 = 1;
    /// A flag of Characteristics in a COFF file header.
    pub const FLAG: u32 = 2;
    /// A flag of DllCharacteristics.
    pub const DLL_FLAG: u32 = 3;
    /// A flag of a section.
    pub const SECTION_FLAG: u32 = 4;
    /// The table of a data directory, by its index.
    pub const DIRECTORY: u32 = 5;
}

/// The name of a machine, if the value is one of 16 bits that has a name.
fn machine_named(value: u32) -> Option<&'static str>
    ensures { option_map (λ name. name.now) result ≡ value_name 0 value }
{
    if value < 1 << 16 {
        machine_name(value as u16)
    } else {
        None
    }
}

/// The name of a subsystem, if the value is one of 16 bits that has a name.
fn subsystem_named(value: u32) -> Option<&'static str>
    ensures { option_map (λ name. name.now) result ≡ value_name 1 value }
{
    if value < 1 << 16 {
        subsystem_name(value as u16)
    } else {
        None
    }
}

/// The name of a value of this kind, or `None` if it has none or there is no such kind.
pub fn name_of(kind: u32, value: u32) -> Option<&'static str>
    ensures { option_map (λ name. name.now) result ≡ value_name kind value }
{
    match kind {
        named::MACHINE => machine_named(value),
        named::SUBSYSTEM => subsystem_named(value),
        named::FLAG => flag_name(FlagKind::File, value),
        named::DLL_FLAG => flag_name(FlagKind::Dll, value),
        named::SECTION_FLAG => flag_name(FlagKind::Section, value),
        named::DIRECTORY => directory_name(value),
        _ => None,
    }
}
