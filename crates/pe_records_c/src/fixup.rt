//! `FixupRow`, as C has it.
//!
//! describe/describe.py writes this file.

ghost use Rattle.std.specs.Prelude.{◌≡◌};
ghost use Rattle.pe_records_c.specs.FixupRows.{fixup_row};

use crate::row::Row;
use pe_tables::{Fixup, FixupKind};

/// A base relocation: a field that changes with the base.
#[repr(C)]
#[derive(Clone, Copy)]
pub struct FixupRow {
    /// The RVA of the table's entry.
    pub entry: u32,
    /// The RVA of the field.
    pub field: u32,
    /// The entry's type: 1 HIGH and 2 LOW of 2 bytes, 3 HIGHLOW of 4, 10 DIR64 of 8.
    pub kind: u32,
}

impl Row<Fixup> for FixupRow {
    ghost tells = { λ item row. row ≡ fixup_row item };

    fn of(item: &Fixup) -> Self {
        FixupRow {
            entry: item.entry,
            field: item.field,
            kind: match item.kind {
                FixupKind::High => 1,
                FixupKind::Low => 2,
                FixupKind::Bits32 => 3,
                FixupKind::Bits64 => 10,
            },
        }
    }
}
