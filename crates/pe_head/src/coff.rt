//! Values of the COFF header's fields Machine (`machine`) and Characteristics (`characteristic`).

/// Values of the COFF header's field Machine ("PE Format", Machine Types).
pub mod machine {
    /// Intel 386 and later.
    pub const I386: u16 = 0x14c;
    /// x64.
    pub const AMD64: u16 = 0x8664;
    /// ARM64, little-endian.
    pub const ARM64: u16 = 0xaa64;
    /// ARM, little-endian.
    pub const ARM: u16 = 0x1c0;
    /// ARM Thumb-2, little-endian.
    pub const ARMNT: u16 = 0x1c4;
}

/// Flags of the COFF header's field Characteristics ("PE Format", Characteristics).
pub mod characteristic {
    /// The image has no base relocations and must be loaded at its ImageBase.
    pub const RELOCS_STRIPPED: u16 = 0x0001;
    /// The image can be run.
    pub const EXECUTABLE_IMAGE: u16 = 0x0002;
    /// COFF line numbers were removed.
    pub const LINE_NUMS_STRIPPED: u16 = 0x0004;
    /// COFF symbols of local names were removed.
    pub const LOCAL_SYMS_STRIPPED: u16 = 0x0008;
    /// Obsolete: trim the working set.
    pub const AGGRESSIVE_WS_TRIM: u16 = 0x0010;
    /// The image can handle addresses above 2 GiB.
    pub const LARGE_ADDRESS_AWARE: u16 = 0x0020;
    /// Obsolete: little-endian.
    pub const BYTES_REVERSED_LO: u16 = 0x0080;
    /// The machine has 32-bit words.
    pub const MACHINE_32BIT: u16 = 0x0100;
    /// Debug information was removed.
    pub const DEBUG_STRIPPED: u16 = 0x0200;
    /// Copy the image to the swap file if it is on removable media.
    pub const REMOVABLE_RUN_FROM_SWAP: u16 = 0x0400;
    /// Copy the image to the swap file if it is on a network.
    pub const NET_RUN_FROM_SWAP: u16 = 0x0800;
    /// The image is a system file, not a user program.
    pub const SYSTEM: u16 = 0x1000;
    /// The image is a dynamic-link library.
    pub const DLL: u16 = 0x2000;
    /// Run the image on a uniprocessor machine only.
    pub const UP_SYSTEM_ONLY: u16 = 0x4000;
    /// Obsolete: big-endian.
    pub const BYTES_REVERSED_HI: u16 = 0x8000;
}
