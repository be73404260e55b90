//! Numbers in the widths of the format's fields, and their bytes.

ghost use Rattle.std.specs.Prelude.{◌≡◌, ◌+◌, ◌≤◌, ◌<◌, ◌^◌, ◌++◌, drop, length, OnErr, OnOk};
ghost use Rattle.std.specs.Vec.{vec_capacity, vec_len};
ghost use Rattle.std.specs.List.{AllByRecursion};
ghost use Rattle.pe_numbers.specs.Numbers.{NumberFits, number_bytes, numbers_bytes, numbers_size, width_of};

use std::alloc::{AllocError, Allocator};

/// A number with the width of its field.
#[derive(Clone, Copy, Debug, PartialEq, Eq)]
pub enum Number {
    /// Of one byte.
    U8(u8),
    /// Of two bytes.
    U16(u16),
    /// Of four bytes.
    U32(u32),
    /// Of eight bytes.
    U64(u64),
}

/// Writes a number's bytes to the front of `room`, the lowest first, and returns how many there are. Inlined, so that the width is
/// a constant wherever the caller knows the kind of number.
#[inline(always)]
#[tactic(auto, unfolding(crate::specs::Numbers::number_bytes))]
fn write_number(room: &mut [u8], number: Number) -> usize
    requires { width_of number ≤ length room.old }
    ensures width { result ≡ width_of number }
    ensures bytes { room.new ≡ number_bytes number ++ drop (width_of number) room.old }
    ensures fits { NumberFits number }
{
    match number {
        Number::U8(number) => {
            room[0] = number;
            1
        }
        Number::U16(number) => {
            room[..2].copy_from_slice(&number.to_le_bytes());
            2
        }
        Number::U32(number) => {
            room[..4].copy_from_slice(&number.to_le_bytes());
            4
        }
        Number::U64(number) => {
            room[..8].copy_from_slice(&number.to_le_bytes());
            8
        }
    }
}

/// Appends a number's bytes, the lowest first.
fn push_number<A: Allocator>(bytes: &mut Vec<u8, A>, number: Number) -> Result<(), AllocError>
    ensures bytes { OnOk result (bytes.new.items ≡ bytes.old.items ++ number_bytes number) }
    ensures fits { NumberFits number }
    ensures len { OnOk result (vec_len bytes.new ≡ vec_len bytes.old + width_of number) }
    ensures capacity { vec_capacity bytes.old ≤ vec_capacity bytes.new }
    ensures full { OnErr result (vec_capacity bytes.old < vec_len bytes.old + width_of number) }
{
    let mut room = [0; 8];
    let width = write_number(&mut room, number);
    bytes.extend_from_slice(&room[..width])
}

/// Appends the bytes of numbers in sequence, the lowest byte of each first. It fails only if the capacity is too small for all of
/// them; then the bytes of some may have been appended.
pub fn push_numbers<A: Allocator>(
    bytes: &mut Vec<u8, A>,
    numbers: &[Number],
) -> Result<(), AllocError>
    ensures fits { OnOk result (AllByRecursion NumberFits numbers.now) }
    ensures bytes { OnOk result (bytes.new.items ≡ bytes.old.items ++ numbers_bytes numbers.now) }
    ensures full { OnErr result (vec_capacity bytes.old < vec_len bytes.old + numbers_size numbers.now) }
{
    for number in numbers {
        push_number(bytes, *number)?;
    }
    Ok(())
}

/// Writes the bytes of numbers in sequence into `room`, which they fill, the lowest byte of each first. Inlined, since callers know
/// the widths.
#[inline(always)]
pub fn write_numbers(room: &mut [u8], numbers: &[Number])
    requires { length room.old ≡ numbers_size numbers.now }
    ensures fits { AllByRecursion NumberFits numbers.now }
    ensures bytes { room.new ≡ numbers_bytes numbers.now }
{
    let mut start = 0;
    for number in numbers {
        start += write_number(&mut room[start..], *number);
    }
}

/// Appends the bytes of numbers that take `N` bytes together, as [`push_numbers`] does, but all at once. It fails only if the
/// capacity is too small for them. Inlined, since callers know the widths.
#[inline(always)]
pub fn push_record<const N: usize, A: Allocator>(
    bytes: &mut Vec<u8, A>,
    numbers: &[Number],
) -> Result<(), AllocError>
    requires size { numbers_size numbers.now ≡ N }
    requires small { N < 2 ^ 32 }
    ensures fits { AllByRecursion NumberFits numbers.now }
    ensures bytes { OnOk result (bytes.new.items ≡ bytes.old.items ++ numbers_bytes numbers.now) }
    ensures full { OnErr result (vec_capacity bytes.old < vec_len bytes.old + N) }
{
    let mut record = [0; N];
    write_numbers(&mut record, numbers);
    bytes.extend_from_slice(&record)
}
