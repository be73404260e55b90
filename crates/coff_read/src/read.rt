//! `read_object` and `read_big_object`: read an object file into lists, or return the first of faults 61 to 72.

ghost use Rattle.std.specs.Prelude.{◌≡◌, None, IsErrOf};
ghost use Rattle.pe_view.specs.Faults.{first_standing, AnswersOrWants};
ghost use Rattle.coff_read.specs.BigView.{big_object_view};
ghost use Rattle.coff_read.specs.FormFaults as form_faults;
ghost use Rattle.coff_read.specs.FormReading as form;
ghost use Rattle.coff_read.specs.Forms.{Big};
ghost use Rattle.coff_read.specs.ObjectFaults.{header_tests, object_tests};
ghost use Rattle.coff_read.specs.ObjectView.{object_view};
ghost use Rattle.coff_read.specs.Reading.{object_of};
ghost use Rattle.pe_view.specs.declared.refusal.Refusal.{Refusal};

use crate::big_file::BigObjectFile;
use crate::big_object::BigObject;
use crate::error::ObjectError;
use crate::file::ObjectFile;
use crate::object::Object;
use std::alloc::Allocator;

/// Reads an object; `file` is its complete file.
///
/// Faults are tested as by [`ObjectFile::new`], before anything is allocated. The error is [`ObjectError::Fault`] with the first
/// fault, or, only if there is none, [`ObjectError::Memory`] if an allocation failed. On an error all memory is freed.
///
/// Names and raw data of the object borrow from the file. ("PE Format": COFF File Header, Section Table, COFF Relocations, COFF
/// Symbol Table, COFF String Table.)
pub fn read_object<A: Allocator + Copy>(alloc: A, file: &[u8]) -> Result<Object<'_, A>, ObjectError>
    ensures exact { AnswersOrWants (object_tests file.now) (λ object. object_view object ≡ object_of file.now) result }
    ensures memory { IsErrOf result Refusal.Memory → first_standing (header_tests file.now) ≡ None }
    ensures judged { IsErrOf result Refusal.Memory → first_standing (object_tests file.now) ≡ None }
{
    let judged = ObjectFile::new(file)?;
    Ok(judged.read(alloc)?)
}

/// Reads a big object (`/bigobj`); `file` is its complete file.
///
/// Faults are tested as by [`BigObjectFile::new`], before anything is allocated. The error is [`ObjectError::Fault`] with the first
/// fault, or, only if there is none, [`ObjectError::Memory`] if an allocation failed. On an error all memory is freed.
///
/// Names and raw data of the object borrow from the file. ("PE Format": Section Table, COFF Relocations, COFF Symbol Table, COFF
/// String Table.)
pub fn read_big_object<A: Allocator + Copy>(
    alloc: A,
    file: &[u8],
) -> Result<BigObject<'_, A>, ObjectError>
    ensures exact { AnswersOrWants (form_faults.object_tests Big file.now) (λ object. big_object_view object ≡ form.object_of Big file.now) result }
    ensures judged { IsErrOf result Refusal.Memory → first_standing (form_faults.object_tests Big file.now) ≡ None }
{
    let judged = BigObjectFile::new(file)?;
    Ok(judged.read(alloc)?)
}
