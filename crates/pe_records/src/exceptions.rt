//! `exception_table`: the exception table of an image, by its machine.

ghost use Rattle.std.specs.Prelude.{◌≡◌};
ghost use Rattle.pe_view.specs.View.{bytes_of};
ghost use Rattle.pe_view.specs.Standing.{Adds};
ghost use Rattle.pe_layout.specs.Layout.{headers_of, image_of};
ghost use Rattle.pe_records.specs.Exceptions.{Holds, exception_tests};

use crate::arm_function::ArmFunction;
use crate::function::Function;
use crate::records::{Records, find_table};
use pe_head::machine;
use pe_layout::Layout;
use pe_view::{Fault, View};
use std::alloc::{AllocError, Allocator};

/// The functions of an exception table.
#[derive(Drop)]
pub enum ExceptionTable<'a> {
    /// Of AMD64.
    Amd64(Records<'a, Function>),
    /// Of ARM64 and ARMNT.
    Arm(Records<'a, ArmFunction>),
    /// Of another machine, whose table has another form.
    Other,
}

/// The functions of an image's exception table.
pub fn exception_table<'a>(layout: &Layout<'a>) -> ExceptionTable<'a>
    ensures { Holds (headers_of layout.now).machine (image_of layout.now) result }
{
    match layout.machine() {
        machine::AMD64 => ExceptionTable::Amd64(Records::of(layout)),
        machine::ARM64 | machine::ARMNT => ExceptionTable::Arm(Records::of(layout)),
        _ => ExceptionTable::Other,
    }
}

/// Adds the findings of an image's exception table. That of a machine with another form has none.
pub(crate) fn find_exceptions<A: Allocator>(
    findings: &mut Vec<Fault, A>,
    layout: &Layout,
    file: View,
) -> Result<(), AllocError>
    ensures { Adds (exception_tests (headers_of layout.now).machine (image_of layout.now) (bytes_of file.entry)) findings.old.items findings.new.items result }
{
    match layout.machine() {
        machine::AMD64 => find_table::<Function, _>(findings, layout, file),
        machine::ARM64 | machine::ARMNT => find_table::<ArmFunction, _>(findings, layout, file),
        _ => Ok(()),
    }
}
