//! `MovedRecord`, as C has it.
//!
//! describe/describe.py writes this file.

ghost use Rattle.std.specs.Prelude.{◌≡◌};
ghost use Rattle.pe_records_c.specs.MovedRows.{moved_record};

use pe_space::Moved;

/// What a move wrote.
#[repr(C)]
#[derive(Clone, Copy)]
pub struct MovedRecord {
    /// How many fields of the image.
    pub fields: u32,
    /// How many bound slots, of all images.
    pub slots: u32,
}

/// The record for C of `Moved`.
pub fn moved_record(moved: &Moved) -> MovedRecord
    ensures { result ≡ moved_record moved.now }
{
    MovedRecord {
        fields: moved.fields,
        slots: moved.slots,
    }
}
