//! The machine of a member in a column of its own.

use pe_head::machine_name;
use pe_page::Cell::{self, Plain};
use pe_page::NOTHING;
use pe_text::Part::{Hex4, Text};

/// How many columns the name of a machine takes, or its number if the format has no name for it, with two blanks; none if there is
/// no machine.
pub(crate) fn machine_width(machine: Option<u16>) -> usize {
    let Some(machine) = machine else {
        return 0;
    };
    match machine_name(machine) {
        Some(name) => name.len().saturating_add(2),
        None => 8,
    }
}

/// The cells of the name of a machine, or of its number, or of none, padded with blanks to a width.
pub(crate) fn machine_cells(machine: Option<u16>, width: usize) -> [Cell<'static>; 3] {
    let blanks = Cell::Blanks(width.saturating_sub(machine_width(machine)));
    let Some(machine) = machine else {
        return [NOTHING, NOTHING, blanks];
    };
    match machine_name(machine) {
        Some(name) => [Plain(Text(name.as_bytes())), Plain(Text(b"  ")), blanks],
        None => [Plain(Text(b"0x")), Plain(Hex4(machine)), blanks],
    }
}
