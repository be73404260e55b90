//! The names of values and flags, as "PE Format" has them.

ghost use Rattle.std.specs.Prelude.{◌≡◌, ◌==◌, option_map, map};
ghost use Rattle.std.specs.List.{find};
ghost use Rattle.pe_head.specs.Names.{name_in, name_view, machine_names, subsystem_names, characteristic_names, dll_characteristic_names, section_flag_names, flag_names, directory_names};

use crate::coff::{characteristic, machine};
use crate::directory::directory_index;
use crate::optional::{dll_characteristic, subsystem};
use crate::section::section_flag;

/// A value or a flag, and its name.
pub type Named = (u32, &'static str);

/// The machines, without IMAGE_FILE_MACHINE_ ("PE Format", Machine Types).
static MACHINES: [Named; 34] = [
    (0, "UNKNOWN"),
    (machine::I386 as u32, "I386"),
    (0x160, "R3000BE"),
    (0x162, "R3000"),
    (0x166, "R4000"),
    (0x168, "R10000"),
    (0x169, "WCEMIPSV2"),
    (0x184, "ALPHA"),
    (0x1a2, "SH3"),
    (0x1a3, "SH3DSP"),
    (0x1a6, "SH4"),
    (0x1a8, "SH5"),
    (machine::ARM as u32, "ARM"),
    (0x1c2, "THUMB"),
    (machine::ARMNT as u32, "ARMNT"),
    (0x1d3, "AM33"),
    (0x1f0, "POWERPC"),
    (0x1f1, "POWERPCFP"),
    (0x200, "IA64"),
    (0x266, "MIPS16"),
    (0x284, "ALPHA64"),
    (0x366, "MIPSFPU"),
    (0x466, "MIPSFPU16"),
    (0xebc, "EBC"),
    (0x5032, "RISCV32"),
    (0x5064, "RISCV64"),
    (0x5128, "RISCV128"),
    (0x6232, "LOONGARCH32"),
    (0x6264, "LOONGARCH64"),
    (machine::AMD64 as u32, "AMD64"),
    (0x9041, "M32R"),
    (0xa641, "ARM64EC"),
    (0xa64e, "ARM64X"),
    (machine::ARM64 as u32, "ARM64"),
];

/// The subsystems, without IMAGE_SUBSYSTEM_ ("PE Format", Windows Subsystem).
static SUBSYSTEMS: [Named; 14] = [
    (subsystem::UNKNOWN as u32, "UNKNOWN"),
    (subsystem::NATIVE as u32, "NATIVE"),
    (subsystem::WINDOWS_GUI as u32, "WINDOWS_GUI"),
    (subsystem::WINDOWS_CUI as u32, "WINDOWS_CUI"),
    (subsystem::OS2_CUI as u32, "OS2_CUI"),
    (subsystem::POSIX_CUI as u32, "POSIX_CUI"),
    (subsystem::NATIVE_WINDOWS as u32, "NATIVE_WINDOWS"),
    (subsystem::WINDOWS_CE_GUI as u32, "WINDOWS_CE_GUI"),
    (subsystem::EFI_APPLICATION as u32, "EFI_APPLICATION"),
    (
        subsystem::EFI_BOOT_SERVICE_DRIVER as u32,
        "EFI_BOOT_SERVICE_DRIVER",
    ),
    (subsystem::EFI_RUNTIME_DRIVER as u32, "EFI_RUNTIME_DRIVER"),
    (subsystem::EFI_ROM as u32, "EFI_ROM"),
    (subsystem::XBOX as u32, "XBOX"),
    (
        subsystem::WINDOWS_BOOT_APPLICATION as u32,
        "WINDOWS_BOOT_APPLICATION",
    ),
];

/// The flags of Characteristics, without IMAGE_FILE_ ("PE Format", Characteristics).
static CHARACTERISTICS: [Named; 15] = [
    (characteristic::RELOCS_STRIPPED as u32, "RELOCS_STRIPPED"),
    (characteristic::EXECUTABLE_IMAGE as u32, "EXECUTABLE_IMAGE"),
    (
        characteristic::LINE_NUMS_STRIPPED as u32,
        "LINE_NUMS_STRIPPED",
    ),
    (
        characteristic::LOCAL_SYMS_STRIPPED as u32,
        "LOCAL_SYMS_STRIPPED",
    ),
    (
        characteristic::AGGRESSIVE_WS_TRIM as u32,
        "AGGRESSIVE_WS_TRIM",
    ),
    (
        characteristic::LARGE_ADDRESS_AWARE as u32,
        "LARGE_ADDRESS_AWARE",
    ),
    (
        characteristic::BYTES_REVERSED_LO as u32,
        "BYTES_REVERSED_LO",
    ),
    (characteristic::MACHINE_32BIT as u32, "32BIT_MACHINE"),
    (characteristic::DEBUG_STRIPPED as u32, "DEBUG_STRIPPED"),
    (
        characteristic::REMOVABLE_RUN_FROM_SWAP as u32,
        "REMOVABLE_RUN_FROM_SWAP",
    ),
    (
        characteristic::NET_RUN_FROM_SWAP as u32,
        "NET_RUN_FROM_SWAP",
    ),
    (characteristic::SYSTEM as u32, "SYSTEM"),
    (characteristic::DLL as u32, "DLL"),
    (characteristic::UP_SYSTEM_ONLY as u32, "UP_SYSTEM_ONLY"),
    (
        characteristic::BYTES_REVERSED_HI as u32,
        "BYTES_REVERSED_HI",
    ),
];

/// The flags of DllCharacteristics, without IMAGE_DLLCHARACTERISTICS_ ("PE Format", DLL Characteristics).
static DLL_CHARACTERISTICS: [Named; 11] = [
    (
        dll_characteristic::HIGH_ENTROPY_VA as u32,
        "HIGH_ENTROPY_VA",
    ),
    (dll_characteristic::DYNAMIC_BASE as u32, "DYNAMIC_BASE"),
    (
        dll_characteristic::FORCE_INTEGRITY as u32,
        "FORCE_INTEGRITY",
    ),
    (dll_characteristic::NX_COMPAT as u32, "NX_COMPAT"),
    (dll_characteristic::NO_ISOLATION as u32, "NO_ISOLATION"),
    (dll_characteristic::NO_SEH as u32, "NO_SEH"),
    (dll_characteristic::NO_BIND as u32, "NO_BIND"),
    (dll_characteristic::APPCONTAINER as u32, "APPCONTAINER"),
    (dll_characteristic::WDM_DRIVER as u32, "WDM_DRIVER"),
    (dll_characteristic::GUARD_CF as u32, "GUARD_CF"),
    (
        dll_characteristic::TERMINAL_SERVER_AWARE as u32,
        "TERMINAL_SERVER_AWARE",
    ),
];

/// The flags of a section, without IMAGE_SCN_ ("PE Format", Section Flags).
static SECTION_FLAGS: [Named; 20] = [
    (section_flag::TYPE_NO_PAD, "TYPE_NO_PAD"),
    (section_flag::CODE, "CNT_CODE"),
    (section_flag::INITIALIZED_DATA, "CNT_INITIALIZED_DATA"),
    (section_flag::UNINITIALIZED_DATA, "CNT_UNINITIALIZED_DATA"),
    (section_flag::LNK_OTHER, "LNK_OTHER"),
    (section_flag::LNK_INFO, "LNK_INFO"),
    (section_flag::LNK_REMOVE, "LNK_REMOVE"),
    (section_flag::LNK_COMDAT, "LNK_COMDAT"),
    (section_flag::GPREL, "GPREL"),
    (section_flag::PURGEABLE, "MEM_PURGEABLE"),
    (section_flag::LOCKED, "MEM_LOCKED"),
    (section_flag::PRELOAD, "MEM_PRELOAD"),
    (section_flag::LNK_NRELOC_OVFL, "LNK_NRELOC_OVFL"),
    (section_flag::DISCARDABLE, "MEM_DISCARDABLE"),
    (section_flag::NOT_CACHED, "MEM_NOT_CACHED"),
    (section_flag::NOT_PAGED, "MEM_NOT_PAGED"),
    (section_flag::SHARED, "MEM_SHARED"),
    (section_flag::EXECUTE, "MEM_EXECUTE"),
    (section_flag::READ, "MEM_READ"),
    (section_flag::WRITE, "MEM_WRITE"),
];

/// The directories, by their indexes ("PE Format", Optional Header Data Directories).
static DIRECTORIES: [Named; 16] = [
    (directory_index::EXPORT as u32, "export"),
    (directory_index::IMPORT as u32, "import"),
    (directory_index::RESOURCE as u32, "resource"),
    (directory_index::EXCEPTION as u32, "exception"),
    (directory_index::CERTIFICATE as u32, "certificate"),
    (directory_index::BASE_RELOCATION as u32, "base relocation"),
    (directory_index::DEBUG as u32, "debug"),
    (directory_index::ARCHITECTURE as u32, "architecture"),
    (directory_index::GLOBAL_POINTER as u32, "global pointer"),
    (directory_index::TLS as u32, "TLS"),
    (
        directory_index::LOAD_CONFIGURATION as u32,
        "load configuration",
    ),
    (directory_index::BOUND_IMPORT as u32, "bound import"),
    (
        directory_index::IMPORT_ADDRESS_TABLE as u32,
        "import address",
    ),
    (directory_index::DELAY_IMPORT as u32, "delay import"),
    (directory_index::CLR as u32, "CLR"),
    (directory_index::RESERVED as u32, "reserved"),
];

/// The row with this value.
fn row_of(names: &'static [Named], value: u32) -> Option<&'static Named>
    ensures { option_map (λ row. row.now) result ≡ find (λ row. row.0 == value) names.now }
{
    names.iter().find(|row| row.0 == value)
}

/// The name of a value in a table of names, or `None` if it has none.
#[tactic(auto, using(crate::proofs::Named::named))]
pub fn name_among(names: &'static [Named], value: u32) -> Option<&'static str>
    ensures { option_map (λ name. name.now) result ≡ name_in (map name_view names.now) value }
{
    match row_of(names, value) {
        Some((_, name)) => Some(name),
        None => None,
    }
}

/// The name of a machine, like `AMD64`, or `None` if "PE Format" has none for this value.
pub fn machine_name(machine: u16) -> Option<&'static str>
    ensures { option_map (λ name. name.now) result ≡ name_in machine_names machine }
{
    name_among(&MACHINES, u32::from(machine))
}

/// The name of a subsystem, like `WINDOWS_GUI`, or `None` if "PE Format" has none for this value.
pub fn subsystem_name(subsystem: u16) -> Option<&'static str>
    ensures { option_map (λ name. name.now) result ≡ name_in subsystem_names subsystem }
{
    name_among(&SUBSYSTEMS, u32::from(subsystem))
}

/// The name of one flag of Characteristics, like `DLL`, or `None` if "PE Format" has none.
pub fn characteristic_name(flag: u16) -> Option<&'static str>
    ensures { option_map (λ name. name.now) result ≡ name_in characteristic_names flag }
{
    name_among(&CHARACTERISTICS, u32::from(flag))
}

/// The name of one flag of DllCharacteristics, like `NX_COMPAT`, or `None` if "PE Format" has none.
pub fn dll_characteristic_name(flag: u16) -> Option<&'static str>
    ensures { option_map (λ name. name.now) result ≡ name_in dll_characteristic_names flag }
{
    name_among(&DLL_CHARACTERISTICS, u32::from(flag))
}

/// The name of one flag of a section, like `MEM_READ`, or `None` if "PE Format" has none. Bits 20 to 23, the alignment of an
/// object's section, are a number and have no name.
pub fn section_flag_name(flag: u32) -> Option<&'static str>
    ensures { option_map (λ name. name.now) result ≡ name_in section_flag_names flag }
{
    name_among(&SECTION_FLAGS, flag)
}

/// The field that flags belong to.
#[derive(Clone, Copy, PartialEq, Eq)]
pub enum FlagKind {
    /// The Characteristics of a COFF file header.
    File,
    /// The DllCharacteristics of an optional header.
    Dll,
    /// The Characteristics of a section.
    Section,
}

/// The name of one flag of a field, or `None` if "PE Format" has none for this value.
#[tactic(auto, unfolding(crate::specs::Names::characteristic_names, crate::specs::Names::dll_characteristic_names, crate::specs::Names::section_flag_names))]
pub fn flag_name(kind: FlagKind, flag: u32) -> Option<&'static str>
    ensures { option_map (λ name. name.now) result ≡ name_in (flag_names kind) flag }
{
    match kind {
        FlagKind::File => name_among(&CHARACTERISTICS, flag),
        FlagKind::Dll => name_among(&DLL_CHARACTERISTICS, flag),
        FlagKind::Section => name_among(&SECTION_FLAGS, flag),
    }
}

/// The name of a directory's table, like `base relocation`, or `None` from index 16 on.
pub fn directory_name(index: u32) -> Option<&'static str>
    ensures { option_map (λ name. name.now) result ≡ name_in directory_names index }
{
    name_among(&DIRECTORIES, index)
}
