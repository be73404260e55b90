//! `FunctionRow`: a function of the exception table, as C has it.

ghost use Rattle.std.specs.Prelude.{◌≡◌};
ghost use Rattle.pe_layout.specs.Layout.{headers_of, image_of};
ghost use Rattle.pe_records_c.specs.Rows.{TellsTable};
ghost use Rattle.c_tables.specs.FunctionRows.{function_row, arm_function_row, function_rows};

use crate::items::put_items;
use pe_layout::Layout;
use pe_records::{ArmFunction, ExceptionTable, Function, exception_table};
use pe_records_c::row::{Row, put_table};

/// A function of the exception table.
#[repr(C)]
#[derive(Clone, Copy)]
pub struct FunctionRow {
    /// The RVA of its first byte; on ARMNT with 1 added, as for all Thumb code.
    pub begin: u32,
    /// The RVA after its last byte; 0 on ARM64 and ARMNT, whose tables do not have it.
    pub end: u32,
    /// On AMD64 the RVA of its unwind information; on ARM64 and ARMNT the RVA of its unwind record if the low two bits are 0,
    /// otherwise that record, packed.
    pub unwind: u32,
    /// The machine whose form the table has: 0 AMD64, 1 ARM64 or ARMNT.
    pub kind: u32,
}

/// Whose form a table has.
pub mod function_kind {
    /// That of AMD64.
    pub const AMD64: u32 = 0;
    /// That of ARM64 and ARMNT.
    pub const ARM: u32 = 1;
}

impl Row<Function> for FunctionRow {
    ghost tells = { λ item row. row ≡ function_row item };

    fn of(item: &Function) -> Self {
        FunctionRow {
            begin: item.begin,
            end: item.end,
            unwind: item.unwind,
            kind: function_kind::AMD64,
        }
    }
}

impl Row<ArmFunction> for FunctionRow {
    ghost tells = { λ item row. row ≡ arm_function_row item };

    fn of(item: &ArmFunction) -> Self {
        FunctionRow {
            begin: item.begin,
            end: 0,
            unwind: item.unwind,
            kind: function_kind::ARM,
        }
    }
}

/// Reports the functions of the exception table: fills the rows, counts the functions, and returns the status, 0 or 4. A machine
/// whose table has another form has no functions.
pub fn tell_functions(layout: &Layout, rows: &mut [FunctionRow], count: &mut usize) -> u32
    ensures { TellsTable (λ row. row) (λ row. row) (function_rows (headers_of layout.now).machine (image_of layout.now)) rows.old rows.new count.new result }
{
    match exception_table(layout) {
        ExceptionTable::Amd64(functions) => put_items(rows, &functions, count),
        ExceptionTable::Arm(functions) => put_items(rows, &functions, count),
        ExceptionTable::Other => put_table::<Function, FunctionRow>(rows, &[], count),
    }
}
