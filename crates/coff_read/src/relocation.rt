//! `Relocation`: a relocation of a section, read from its record; and fault 72.

ghost use Rattle.std.specs.Prelude.{◌≡◌, ◌+◌, ◌*◌, ◌≤◌, ◌<◌, ⊤};
ghost use Rattle.pe_view.specs.View.{bytes_of, size_of};
ghost use Rattle.pe_view.specs.Faults.{Answers};
ghost use Rattle.coff_read.specs.Field.{field};
ghost use Rattle.coff_read.specs.FormFaults.{relocation_tests};
ghost use Rattle.coff_read.specs.Reading.{relocation_at, relocation_start};
ghost use Rattle.coff_read.specs.TablesPlace.{AreTables};

use crate::error::file_fault;
use crate::fields::{u16_in, u32_in};
use crate::tables::Tables;
use pe_view::{Fault, View};

/// The size of a relocation in bytes.
pub const RELOCATION_LEN: u64 = 10;

/// A relocation of a section ("PE Format", COFF Relocations).
#[derive(Clone, Copy, Debug, PartialEq, Eq)]
pub struct Relocation {
    /// Where the reference is: its offset in the section plus the section's VirtualAddress, which is usually 0.
    pub address: u32,
    /// The index of the symbol's record in the symbol table, auxiliary records counted.
    pub symbol: u32,
    /// How the reference is computed, by the machine's list of types.
    pub kind: u16,
}

/// The relocation whose record is at a file offset.
pub(crate) fn relocation_at(view: View, at: u64) -> Relocation
    requires { at + 10 ≤ size_of view }
    ensures { result ≡ relocation_at (bytes_of view.entry) at }
{
    Relocation {
        address: u32_in(view, at, 0),
        symbol: u32_in(view, at, 4),
        kind: u16_in(view, at, 8),
    }
}

/// Tests fault 72 of the relocations of the section whose header is at file offset `h`.
pub(crate) fn check_relocations<const BIG: bool>(
    view: View,
    tables: Tables,
    h: u64,
) -> Result<(), Fault>
    requires tables { AreTables BIG (bytes_of view) tables }
    requires inside { h + 40 ≤ size_of view }
    requires fits { 0 < field (bytes_of view) h 32 2 → relocation_start (bytes_of view) h (field (bytes_of view) h 32 2) ≤ size_of view }
    ensures { Answers (relocation_tests BIG (bytes_of view.entry) h) (λ _. ⊤) result }
{
    let start = u64::from(u32_in(view, h, 24));
    let count = u64::from(u16_in(view, h, 32));
    for k in 0..count {
        let at = start + RELOCATION_LEN * k;
        if u64::from(u32_in(view, at, 4)) >= tables.records {
            return Err(file_fault(72, at));
        }
    }
    Ok(())
}
