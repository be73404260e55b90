//! How many bytes a relocation of an object patches.

use pe_head::machine;

/// The width of the field of a relocation's type in bytes, by the machine ("PE Format", Type Indicators): 0 for a type that patches
/// nothing, and 1 for one that is not known, so that its place is known.
pub(crate) fn relocation_width(machine: u16, kind: u16) -> u32 {
    match machine {
        machine::AMD64 => amd64_width(kind),
        machine::I386 => i386_width(kind),
        machine::ARM | machine::ARMNT => arm_width(kind),
        machine::ARM64 => arm64_width(kind),
        _ => 1,
    }
}

/// The width for AMD64: ABSOLUTE and PAIR have none, ADDR64 has 8 bytes, SECTION 2, and SECREL7 one.
fn amd64_width(kind: u16) -> u32 {
    match kind {
        0x0 | 0xf => 0,
        0x1 => 8,
        0xa => 2,
        0xc => 1,
        0x2..=0x10 => 4,
        _ => 1,
    }
}

/// The width for I386: ABSOLUTE has none, DIR16, REL16, SEG12 and SECTION have 2 bytes, and SECREL7 one.
fn i386_width(kind: u16) -> u32 {
    match kind {
        0x0 => 0,
        0x1 | 0x2 | 0x9 | 0xa => 2,
        0xd => 1,
        0x6 | 0x7 | 0xb | 0xc | 0x14 => 4,
        _ => 1,
    }
}

/// The width for ARM: ABSOLUTE and PAIR have none, SECTION has 2 bytes, and a MOV32 is of two instructions.
fn arm_width(kind: u16) -> u32 {
    match kind {
        0x0 | 0x16 => 0,
        0xe => 2,
        0x10 | 0x11 => 8,
        0x1..=0x4 | 0xa | 0xf | 0x12 | 0x14 | 0x15 => 4,
        _ => 1,
    }
}

/// The width for ARM64: ABSOLUTE has none, SECTION has 2 bytes, and ADDR64 8.
fn arm64_width(kind: u16) -> u32 {
    match kind {
        0x0 => 0,
        0xd => 2,
        0xe => 8,
        0x1..=0x11 => 4,
        _ => 1,
    }
}
