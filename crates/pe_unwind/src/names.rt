//! The names of unwind operations and of registers.

ghost use Rattle.std.specs.Prelude.{◌≡◌, option_map};
ghost use Rattle.pe_head.specs.Names.{name_in};
ghost use Rattle.pe_unwind.specs.OperationNames.{operation_names, register_names};

use pe_head::{Named, name_among};

/// The operations, without UWOP_ (x64 exception handling, Unwind operation code).
static OPERATIONS: [Named; 10] = [
    (0, "PUSH_NONVOL"),
    (1, "ALLOC_LARGE"),
    (2, "ALLOC_SMALL"),
    (3, "SET_FPREG"),
    (4, "SAVE_NONVOL"),
    (5, "SAVE_NONVOL_FAR"),
    (6, "EPILOG"),
    (8, "SAVE_XMM128"),
    (9, "SAVE_XMM128_FAR"),
    (10, "PUSH_MACHFRAME"),
];

/// The general registers, by number (x64 exception handling, Operation info).
static REGISTERS: [Named; 16] = [
    (0, "RAX"),
    (1, "RCX"),
    (2, "RDX"),
    (3, "RBX"),
    (4, "RSP"),
    (5, "RBP"),
    (6, "RSI"),
    (7, "RDI"),
    (8, "R8"),
    (9, "R9"),
    (10, "R10"),
    (11, "R11"),
    (12, "R12"),
    (13, "R13"),
    (14, "R14"),
    (15, "R15"),
];

/// The name of an operation, like `PUSH_NONVOL`, or `None` if there is none for this number.
pub fn operation_name(code: u8) -> Option<&'static str>
    ensures { option_map (λ name. name.now) result ≡ name_in operation_names code }
{
    name_among(&OPERATIONS, u32::from(code))
}

/// The name of a general register, like `RBP`, or `None` if there is none of this number.
pub fn register_name(register: u8) -> Option<&'static str>
    ensures { option_map (λ name. name.now) result ≡ name_in register_names register }
{
    name_among(&REGISTERS, u32::from(register))
}
