//! `shift_field` and others: the numbers in fields relocated from one base to another; and `write_low`, which stores a number's
//! bytes.

ghost use Rattle.std.specs.Prelude.{◌≡◌, ◌+◌, ◌≤◌, length, pos, ◌-ℤ◌};
ghost use Rattle.pe_tables.specs.Fixups.{width_of};
ghost use Rattle.pe_tables.specs.Patch.{patch, bytes, shifted_at};
ghost use Rattle.pe_tables.specs.Relocated.{shift};
ghost use Rattle.pe_tables.specs.declared.fixups.FixupKind.TheVariants.{Bits32, Bits64, High, Low};

use crate::fixups::FixupKind;
use byteorder::{ByteOrder, LittleEndian};

/// Writes the lowest `width` bytes of a number at an offset, little-endian.
pub fn write_low(memory: &mut [u8], place: usize, value: u64, width: usize)
    requires narrow { width ≤ 8 }
    requires inside { place + width ≤ length memory.old }
    ensures { memory.new ≡ patch memory.old place (bytes width value) }
{
    memory[place..place + width].copy_from_slice(&value.to_le_bytes()[..width]);
}

/// The number of a HIGH field, relocated from one base to another: the difference of the bases divided by 65,536, rounded down, is
/// added, and the sum wraps.
pub fn shift_high(number: u16, from: u64, to: u64) -> u16
    ensures { result ≡ shift High number (pos to -ℤ pos from) }
{
    number.wrapping_add((to.wrapping_sub(from) / 65536 % (1 << 16)) as u16)
}

/// The number of a LOW field, relocated from one base to another. The sum wraps.
pub fn shift_low(number: u16, from: u64, to: u64) -> u16
    ensures { result ≡ shift Low number (pos to -ℤ pos from) }
{
    number.wrapping_add((to.wrapping_sub(from) % (1 << 16)) as u16)
}

/// The number of a field of 4 bytes, relocated from one base to another. The sum wraps.
pub fn shift_32(number: u32, from: u64, to: u64) -> u32
    ensures { result ≡ shift Bits32 number (pos to -ℤ pos from) }
{
    number.wrapping_add((to.wrapping_sub(from) % (1 << 32)) as u32)
}

/// The number of a field of 8 bytes, relocated from one base to another. The sum wraps.
pub fn shift_64(number: u64, from: u64, to: u64) -> u64
    ensures { result ≡ shift Bits64 number (pos to -ℤ pos from) }
{
    number.wrapping_add(to.wrapping_sub(from))
}

/// Relocates the field at an offset from one base to another ("PE Format", Base Relocation Types).
pub fn shift_field(memory: &mut [u8], place: usize, kind: FixupKind, from: u64, to: u64)
    requires { place + width_of kind ≤ length memory.old }
    ensures { memory.new ≡ shifted_at (pos to -ℤ pos from) kind place memory.old }
{
    let field = &mut memory[place..];
    match kind {
        FixupKind::High => {
            let number = LittleEndian::read_u16(field);
            LittleEndian::write_u16(field, shift_high(number, from, to));
        }
        FixupKind::Low => {
            let number = LittleEndian::read_u16(field);
            LittleEndian::write_u16(field, shift_low(number, from, to));
        }
        FixupKind::Bits32 => {
            let number = LittleEndian::read_u32(field);
            LittleEndian::write_u32(field, shift_32(number, from, to));
        }
        FixupKind::Bits64 => {
            let number = LittleEndian::read_u64(field);
            LittleEndian::write_u64(field, shift_64(number, from, to));
        }
    }
}
