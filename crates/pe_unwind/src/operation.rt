//! `Operation`: an operation of the prologue of a function, as its unwind codes have it.

ghost use Rattle.std.specs.Prelude.{◌≡◌, ◌+◌, ◌*◌, ◌≤◌, ◌<◌, ◌^◌};
ghost use Rattle.pe_layout.specs.Image.{fault_at};
ghost use Rattle.pe_layout.specs.Layout.{image_of};
ghost use Rattle.pe_unwind.specs.Operations.{is_far, is_known, is_near, operand_at, read_operation, slot_count};

use pe_layout::Layout;
use pe_view::{Fault, Place};

/// Unwind operations (x64 exception handling, Unwind operation code).
pub mod operation_code {
    /// Pushes a register; its number is the information.
    pub const PUSH_NONVOL: u8 = 0;
    /// Allocates memory on the stack.
    pub const ALLOC_LARGE: u8 = 1;
    /// Allocates 8 to 128 bytes on the stack.
    pub const ALLOC_SMALL: u8 = 2;
    /// Sets the frame register.
    pub const SET_FPREG: u8 = 3;
    /// Saves a register, whose number is the information, at an offset on the stack.
    pub const SAVE_NONVOL: u8 = 4;
    /// The same, with an offset of 32 bits.
    pub const SAVE_NONVOL_FAR: u8 = 5;
    /// An epilog of the function; in version 2 only.
    pub const EPILOG: u8 = 6;
    /// Saves an XMM register, whose number is the information, at an offset on the stack.
    pub const SAVE_XMM128: u8 = 8;
    /// The same, with an offset of 32 bits.
    pub const SAVE_XMM128_FAR: u8 = 9;
    /// An interrupt or exception pushed a machine frame; with an error code if the information is 1.
    pub const PUSH_MACHFRAME: u8 = 10;
}

/// An operation of the prologue of a function (x64 exception handling, struct UNWIND_CODE).
#[derive(Clone, Copy, Debug, PartialEq, Eq)]
pub struct Operation {
    /// The RVA of its first slot.
    pub at: u32,
    /// The offset in the prologue of the end of its instruction; of EPILOG the size of the epilog.
    pub offset: u8,
    /// What it does, as in [`operation_code`].
    pub code: u8,
    /// Its information, whose meaning depends on what it does: a register, or a number up to 15.
    pub info: u8,
    /// The size that it allocates, or the offset at which it saves, in bytes; of EPILOG how far an epilog begins before the end of the
    /// function, or 0; 0 for other operations.
    pub operand: u32,
}

/// Whether an operation is known in a version.
fn is_known(version: u8, code: u8, info: u8) -> bool
    ensures { result ≡ is_known version code info }
{
    if code == operation_code::EPILOG && version == 1 {
        return false;
    }
    if code == 7 || code > operation_code::PUSH_MACHFRAME {
        return false;
    }
    !(code == operation_code::ALLOC_LARGE && info > 1)
}

/// Whether a number of 4 bytes follows the slot of an operation.
fn is_far(code: u8, info: u8) -> bool
    ensures { result ≡ is_far code info }
{
    match code {
        operation_code::ALLOC_LARGE => info == 1,
        operation_code::SAVE_NONVOL_FAR | operation_code::SAVE_XMM128_FAR => true,
        _ => false,
    }
}

/// Whether 2 bytes follow the slot of an operation.
fn is_near(code: u8, info: u8) -> bool
    ensures { result ≡ is_near code info }
{
    match code {
        operation_code::ALLOC_LARGE => info != 1,
        operation_code::SAVE_NONVOL | operation_code::EPILOG | operation_code::SAVE_XMM128 => true,
        _ => false,
    }
}

/// How many slots an operation takes.
pub(crate) fn slot_count(code: u8, info: u8) -> u32
    ensures value { result ≡ slot_count code info }
    ensures some { 1 ≤ result }
    ensures few { result ≤ 3 }
{
    if is_far(code, info) {
        3
    } else if is_near(code, info) {
        2
    } else {
        1
    }
}

/// The size or the offset of the operation whose first slot is at an RVA.
fn operand_at(layout: &Layout, at: u32, code: u8, info: u8) -> u32
    requires inside { at + 2 * slot_count code info ≤ (image_of layout.now).size }
    requires small { at + 2 * slot_count code info ≤ 2 ^ 31 }
    ensures { result ≡ operand_at (image_of layout.now) at code info }
{
    if is_far(code, info) {
        return layout.u32_at(at + 2).unwrap();
    }
    match code {
        operation_code::ALLOC_LARGE | operation_code::SAVE_NONVOL => {
            8 * u32::from(layout.u16_at(at + 2).unwrap())
        }
        operation_code::SAVE_XMM128 => 16 * u32::from(layout.u16_at(at + 2).unwrap()),
        operation_code::EPILOG => {
            let low = layout.byte(at + 2).unwrap();
            let high = layout.byte(at + 3).unwrap();
            u32::from(low) + 256 * u32::from(high / 16)
        }
        operation_code::ALLOC_SMALL => 8 * u32::from(info) + 8,
        _ => 0,
    }
}

/// A finding of the operation at an RVA.
fn fault_at(layout: &Layout, number: u16, at: u32) -> Fault
    ensures { result ≡ fault_at number (image_of layout.now) at }
{
    Fault {
        number,
        image: layout.image(),
        place: Place::Rva(at),
    }
}

/// The operation whose first slot is at an RVA, of unwind information that has so many slots left. The error is finding 118 or 119.
pub(crate) fn read_operation(
    layout: &Layout,
    version: u8,
    left: u32,
    at: u32,
) -> Result<Operation, Fault>
    ensures { result ≡ read_operation (image_of layout.now) version left at }
{
    let mut slot = [0; 2];
    if !layout.fill(at, &mut slot) {
        return Err(fault_at(layout, 118, at));
    }
    let [offset, operation] = slot;
    let code = operation % 16;
    let info = operation / 16;
    if !is_known(version, code, info) {
        return Err(fault_at(layout, 119, at));
    }
    let slots = slot_count(code, info);
    if left < slots || !layout.contains(at, 2 * u64::from(slots)) {
        return Err(fault_at(layout, 118, at));
    }
    Ok(Operation {
        at,
        offset,
        code,
        info,
        operand: operand_at(layout, at, code, info),
    })
}
