//! `write_image`: the file that a plan describes, or fault 53.

ghost use Rattle.std.specs.Prelude.{◌≡◌, ℕ, None, Some, Err, [], OnOk, IfOk};
ghost use Rattle.pe_view.specs.declared.fault.Fault as code_fault;
ghost use Rattle.pe_view.specs.Faults.{first_standing, AnswersOrWants};
ghost use Rattle.pe_head.specs.Head.{head_of};
ghost use Rattle.pe_layout.specs.Plain.{plain};
ghost use Rattle.pe_layout.specs.SectionFaults.{layout_tests};
ghost use Rattle.pe_write.specs.PlanFaults.{plan_tests};
ghost use Rattle.pe_write.specs.PlanFits.{IsPlan};
ghost use Rattle.pe_write.specs.PlanHeaders.{plan_file, plan_headers, planned};
ghost use Rattle.pe_view.specs.declared.refusal.Refusal.{Refusal};

use crate::error::WriteError;
use crate::plan::Plan;
use crate::plan_data::push_data;
use crate::plan_faults::check_plan;
use crate::plan_headers::{push_headers, push_table};
use std::alloc::{AllocError, Allocator};

/// Appends the file of a plan without a fault to an empty vector.
fn push_file<A: Allocator, P: Allocator>(
    bytes: &mut Vec<u8, A>,
    plan: &Plan<'_, P>,
) -> Result<(), AllocError>
    requires empty { bytes.old.items ≡ [] }
    requires none { first_standing (plan_tests plan.now) ≡ None }
    ensures fits { OnOk result (IsPlan plan.now) }
    ensures bytes { OnOk result (bytes.new.items ≡ plan_file plan.now) }
{
    let sections = plan.sections.as_slice();
    let (alignment, headers) = (plan.file_alignment, plan.size_of_headers as usize);
    push_headers(bytes, plan)?;
    push_table(bytes, alignment, headers, sections)?;
    bytes.resize(headers, 0)?;
    push_data(bytes, alignment, sections)
}

/// The file that a plan describes.
///
/// It begins with `MZ`, zeros, and 0x40 as the offset of the signature, which follows; then come the COFF header, the optional
/// header with 16 directories, the section table, and zeros up to SizeOfHeaders. Each section that is not empty begins at the next
/// multiple of FileAlignment, and is padded with zeros to one, which gives its SizeOfRawData; an empty section has 0 in
/// SizeOfRawData and PointerToRawData. Fields that the plan does not name are 0. The file has none of faults 1 to 15.
///
/// The error is [`WriteError::Fault`] with fault 53 if FileAlignment is 0; if ImageBase does not fit into the four bytes of PE32;
/// if there are more than 96 sections; if the file would have more than 2^32 bytes; if SizeOfImage is 0 or more than 2^31; if
/// SizeOfHeaders is below the end of the section table or above SizeOfImage; or if a section extends past SizeOfImage, or begins
/// inside the headers or before the end of the previous section. It is [`WriteError::Memory`] if an allocation failed, but never
/// if fault 53 holds.
///
/// ("PE Format": MS-DOS Stub, Signature, COFF File Header, Optional Header, Section Table.)
pub fn write_image<A: Allocator + Copy, P: Allocator>(
    alloc: A,
    plan: &Plan<'_, P>,
) -> Result<Vec<u8, A>, WriteError>
    ensures exact { AnswersOrWants (plan_tests plan.now) (λ bytes. bytes.items ≡ plan_file plan.now) result }
    ensures early { (fault : code_fault.Fault) → first_standing (plan_tests plan.now) ≡ Some fault → result ≡ Err (Refusal.Fault fault) }
    ensures head { IfOk result (λ bytes. head_of bytes.items ≡ plan_headers plan.now) }
    ensures accepted { IfOk result (λ bytes. first_standing (layout_tests 0 bytes.items) ≡ None) }
    ensures planned { IfOk result (λ bytes. (r : ℕ) → plain (head_of bytes.items) bytes.items r ≡ planned plan.now r) }
{
    let size = check_plan(plan)?;
    let mut bytes = Vec::with_capacity(alloc, size)?;
    push_file(&mut bytes, plan)?;
    Ok(bytes)
}
