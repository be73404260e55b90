//! `ValueRow`: a number that the rule of a fault compares, as C has it.

ghost use Rattle.std.specs.Prelude.{◌≡◌};
ghost use Rattle.pe_detail.specs.DetailWords.{part_view};
ghost use Rattle.pe_records_c.specs.Faults.{fault_of};
ghost use Rattle.pe_records_c.specs.Rows.{TellsTable};
ghost use Rattle.pe_records_c.specs.ValueRows.{value_text, value_of, fault_values};

use crate::fault::{FaultRecord, fault_of};
use crate::row::{Row, put_table};
use pe_detail::{Amount, DetailPart, DetailText, fault_detail};
use pe_view::View;

/// What a number is.
pub mod amount {
    /// There is no number.
    pub const NOTHING: u32 = 0;
    /// A size or a count.
    pub const COUNT: u32 = 1;
    /// A file offset, an RVA, an address or a field.
    pub const PLACE: u32 = 2;
}

/// Words, and the number after them with its name.
#[repr(C)]
#[derive(Clone, Copy)]
pub struct ValueRow<'a> {
    /// The words before the number.
    pub words: &'a [u8],
    /// The number's name; empty if there is no number.
    pub name: &'a [u8],
    /// The number; 0 if there is none.
    pub number: u64,
    /// What the number is: one of [`amount`].
    pub kind: u32,
}

impl Row<DetailPart> for ValueRow<'static> {
    ghost tells = { λ item row. value_text row ≡ value_of (part_view item) };

    fn of(item: &DetailPart) -> Self {
        let (kind, number) = match item.amount {
            Amount::Nothing => (amount::NOTHING, 0),
            Amount::Count(number) => (amount::COUNT, number),
            Amount::Place(number) => (amount::PLACE, number),
        };
        ValueRow {
            words: item.words.as_bytes(),
            name: item.name.as_bytes(),
            number,
            kind,
        }
    }
}

/// Reports the numbers that the rule of a fault compares, each with the words before it: fills the rows, three if it compares any,
/// of which the last may be empty, counts them, and returns the status, 0 or 4. The file is that of the image with the fault.
pub fn tell_values(
    file: &[u8],
    fault: &FaultRecord,
    rows: &mut [ValueRow<'static>],
    count: &mut usize,
) -> u32
    ensures { TellsTable value_text value_of (fault_values file.now (fault_of fault.now)) rows.old rows.new count.new result }
{
    match fault_detail(View::new(file), file.len() as u64, &fault_of(fault)) {
        Some(detail) => put_table(rows, &DetailText(detail).parts(), count),
        None => put_table::<DetailPart, ValueRow>(rows, &[], count),
    }
}
