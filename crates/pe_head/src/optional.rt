//! `Magic`: the two forms of the optional header; and values of its fields Subsystem and DllCharacteristics.

/// The form of the optional header ("PE Format", Optional Header).
#[derive(Clone, Copy, Debug, PartialEq, Eq)]
pub enum Magic {
    /// PE32, with 32-bit addresses: the field Magic is 0x10b.
    Pe32,
    /// PE32+, with 64-bit addresses: the field Magic is 0x20b.
    Pe32Plus,
}

impl Magic {
    ghost use Rattle.std.specs.Prelude.{◌≡◌};
    ghost use Rattle.pe_head.specs.Optional.{magic_number, fixed_size_of, image_base_offset, image_base_width};

    /// The value of the field Magic: 0x10b or 0x20b.
    pub fn number(self) -> u16
        ensures { result ≡ magic_number self }
    {
        match self {
            Magic::Pe32 => 0x10b,
            Magic::Pe32Plus => 0x20b,
        }
    }

    /// The size in bytes of the optional header before its data directories: 96 or 112.
    pub fn fixed_size(self) -> u64
        ensures { result ≡ fixed_size_of self }
    {
        match self {
            Magic::Pe32 => 96,
            Magic::Pe32Plus => 112,
        }
    }

    /// The offset of ImageBase in the optional header: 28 or 24.
    pub fn image_base_offset(self) -> u64
        ensures { result ≡ image_base_offset self }
    {
        match self {
            Magic::Pe32 => 28,
            Magic::Pe32Plus => 24,
        }
    }

    /// The size of ImageBase in bytes: 4 or 8.
    pub fn image_base_width(self) -> u64
        ensures { result ≡ image_base_width self }
    {
        match self {
            Magic::Pe32 => 4,
            Magic::Pe32Plus => 8,
        }
    }
}

/// Values of the optional header's field Subsystem ("PE Format", Windows Subsystem).
pub mod subsystem {
    /// An unknown subsystem.
    pub const UNKNOWN: u16 = 0;
    /// Device drivers and native Windows processes.
    pub const NATIVE: u16 = 1;
    /// The Windows graphical user interface.
    pub const WINDOWS_GUI: u16 = 2;
    /// The Windows console.
    pub const WINDOWS_CUI: u16 = 3;
    /// The OS/2 console.
    pub const OS2_CUI: u16 = 5;
    /// The POSIX console.
    pub const POSIX_CUI: u16 = 7;
    /// A native Windows 9x driver.
    pub const NATIVE_WINDOWS: u16 = 8;
    /// Windows CE.
    pub const WINDOWS_CE_GUI: u16 = 9;
    /// An application of the Extensible Firmware Interface.
    pub const EFI_APPLICATION: u16 = 10;
    /// An EFI driver with boot services.
    pub const EFI_BOOT_SERVICE_DRIVER: u16 = 11;
    /// An EFI driver with run-time services.
    pub const EFI_RUNTIME_DRIVER: u16 = 12;
    /// An EFI ROM image.
    pub const EFI_ROM: u16 = 13;
    /// XBOX.
    pub const XBOX: u16 = 14;
    /// A Windows boot application.
    pub const WINDOWS_BOOT_APPLICATION: u16 = 16;
}

/// Flags of the optional header's field DllCharacteristics ("PE Format", DLL Characteristics).
pub mod dll_characteristic {
    /// The image can handle a 64-bit address space with high-entropy randomization.
    pub const HIGH_ENTROPY_VA: u16 = 0x0020;
    /// The image can be relocated at load time.
    pub const DYNAMIC_BASE: u16 = 0x0040;
    /// Code integrity checks are enforced.
    pub const FORCE_INTEGRITY: u16 = 0x0080;
    /// The image is compatible with non-executable data.
    pub const NX_COMPAT: u16 = 0x0100;
    /// The image is aware of isolation, but must not be isolated.
    pub const NO_ISOLATION: u16 = 0x0200;
    /// The image does not use structured exception handling.
    pub const NO_SEH: u16 = 0x0400;
    /// The image must not be bound.
    pub const NO_BIND: u16 = 0x0800;
    /// The image must run in an AppContainer.
    pub const APPCONTAINER: u16 = 0x1000;
    /// The image is a WDM driver.
    pub const WDM_DRIVER: u16 = 0x2000;
    /// The image supports Control Flow Guard.
    pub const GUARD_CF: u16 = 0x4000;
    /// The image is aware of Terminal Server.
    pub const TERMINAL_SERVER_AWARE: u16 = 0x8000;
}
