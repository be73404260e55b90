//! Laws about the definitions. The contract of each function here is a law, and its body only calls the laws of other crates that
//! it needs.

ghost use Rattle.std.specs.Prelude.{◌≡◌, ◌%◌, ◌<◌, ◌≤◌, ◌-◌, ℕ, List, None, Some, slice_get};
ghost use Rattle.pe_view.specs.Faults.{first_standing};
ghost use Rattle.pe_view.specs.Number.{byte_of, num};
ghost use Rattle.pe_head.specs.declared.section.SectionHeader.{SectionHeader};
ghost use Rattle.pe_head.specs.Head.{head_of};
ghost use Rattle.pe_head.specs.HeaderFaults.{head_tests};
ghost use Rattle.pe_layout.specs.Image.{image_of_file};
ghost use Rattle.pe_layout.specs.Plain.{IsIn, plain};
ghost use Rattle.pe_layout.specs.SectionFaults.{layout_tests};
ghost use Rattle.pe_tables.specs.Fixups.{fixups_of};
ghost use Rattle.pe_tables.specs.Relocated.{relocated};
ghost use Rattle.pe_trust.specs.CheckSum.{check_sum_of};
ghost use Rattle.pe_write.specs.Summed.{with_check_sum};
ghost use Rattle.pe_write.specs.PlanFaults.{plan_tests};
ghost use Rattle.pe_write.specs.PlanFits.{IsPlan};
ghost use Rattle.pe_write.specs.PlanHeaders.{header_bytes, plan_file, plan_headers, plan_sections, planned};
ghost use Rattle.pe_write.specs.declared.plan.PlanSection.{PlanSection};
ghost use Rattle.pe_write.specs.Rebase.{IsFree, check_sum_place, rebased, rebased_head};
ghost use Rattle.pe_write.specs.Rebased.{IsRebased};
ghost use Rattle.pe_write.specs.RebaseFaults.{rebase_tests};

use crate::plan::Plan;
use std::alloc::Allocator;

/// Byte by byte, the new file has the base in ImageBase, 0 in CheckSum, in the field of each fixup the number relocated to the
/// base, and everywhere else what the file had.
pub fn rebased_bytes()
    ensures { (file : List ℕ) (base : ℕ) → first_standing (rebase_tests file base) ≡ None → IsRebased file base (rebased file base) }
{
    pe_layout::laws::sections_are_apart();
    pe_tables::laws::fields_are_apart();
}

/// Laid out by the old headers, the new file gives the old image as relocated to the base, outside ImageBase and CheckSum.
pub fn rebased_is_relocated()
    ensures { (file : List ℕ) (base r : ℕ) → first_standing (rebase_tests file base) ≡ None → IsFree (head_of file) r
        → plain (head_of file) (rebased file base) r ≡ relocated (image_of_file 0 file) base r }
{
    pe_layout::laws::sections_are_apart();
    pe_tables::laws::fields_are_apart();
}

/// If the signature is not in the first 16 bytes, where ImageBase may overlap the field at 0x3c, the new file has the old headers
/// except for ImageBase and CheckSum, and none of faults 1 to 15, with every image number with which the old file has none.
pub fn rebased_headers()
    ensures head { (file : List ℕ) (base : ℕ) → first_standing (rebase_tests file base) ≡ None → 16 ≤ (head_of file).pe_offset
        → head_of (rebased file base) ≡ rebased_head (head_of file) base }
    ensures none { (file : List ℕ) (base : ℕ) → first_standing (rebase_tests file base) ≡ None → 16 ≤ (head_of file).pe_offset
        → first_standing (layout_tests 0 (rebased file base)) ≡ None }
    ensures same { (file : List ℕ) (base image : ℕ) → first_standing (rebase_tests file base) ≡ None → 16 ≤ (head_of file).pe_offset
        → first_standing (layout_tests image (rebased file base)) ≡ first_standing (layout_tests image file) }
{
    pe_layout::laws::sections_are_apart();
    pe_tables::laws::fields_are_apart();
}

/// If the signature is not in the first 16 bytes, and the fixups read as before, a rebased file relocated to any base that is a
/// multiple of 65,536, with any image number, has there the bytes of the old file relocated to it, outside ImageBase and CheckSum.
pub fn rebased_again()
    ensures { (file : List ℕ) (base image at r : ℕ) → first_standing (rebase_tests file base) ≡ None → 16 ≤ (head_of file).pe_offset
        → fixups_of (image_of_file image (rebased file base)) ≡ fixups_of (image_of_file image file) → at % 65536 ≡ 0 → IsFree (head_of file) r
        → relocated (image_of_file image (rebased file base)) at r ≡ relocated (image_of_file image file) at r }
{
    pe_layout::laws::sections_are_apart();
    pe_tables::laws::fields_are_apart();
}

/// If fault 53 does not hold for a plan whose values fit their fields, its file has the plan's headers and none of faults 1 to 15,
/// and lays out the planned bytes. Conversely, a plan with a FileAlignment whose file has none of faults 1 to 15 is not refused.
pub fn file_is_planned<A: Allocator>(plan: &Plan<'_, A>)
    ensures head { IsPlan plan.now → first_standing (plan_tests plan.now) ≡ None → head_of (plan_file plan.now) ≡ plan_headers plan.now }
    ensures accepted { IsPlan plan.now → first_standing (plan_tests plan.now) ≡ None → first_standing (layout_tests 0 (plan_file plan.now)) ≡ None }
    ensures planned { (r : ℕ) → IsPlan plan.now → first_standing (plan_tests plan.now) ≡ None
        → plain (head_of (plan_file plan.now)) (plan_file plan.now) r ≡ planned plan.now r }
    ensures exactly { IsPlan plan.now → 0 < plan.now.file_alignment → first_standing (layout_tests 0 (plan_file plan.now)) ≡ None
        → first_standing (plan_tests plan.now) ≡ None }
{}

/// If fault 53 does not hold for a plan, it lays out the headers below SizeOfHeaders, in each section the bytes that the plan
/// gives it, and 0 after them and outside sections. An RVA is in at most one section.
pub fn planned_by_places<A: Allocator>(plan: &Plan<'_, A>)
    ensures headers { (r : ℕ) → r < plan.now.size_of_headers → planned plan.now r ≡ byte_of (header_bytes plan.now) r }
    ensures sections { (r k : ℕ) (section : PlanSection) (header : SectionHeader) → first_standing (plan_tests plan.now) ≡ None
        → slice_get plan.now.sections.items k ≡ Some section → slice_get (plan_sections plan.now) k ≡ Some header → IsIn r header
        → planned plan.now r ≡ byte_of section.raw.now (r - section.virtual_address) }
    ensures gaps { (r : ℕ) → plan.now.size_of_headers ≤ r
        → ((k : ℕ) (header : SectionHeader) → slice_get (plan_sections plan.now) k ≡ Some header → ¬ (IsIn r header))
        → planned plan.now r ≡ 0 }
{}

/// The CheckSum that is written into a file is the checksum of the new file.
pub fn check_sum_is_right()
    ensures { (file : List ℕ) → first_standing (head_tests 0 file) ≡ None → let place = check_sum_place (head_of file) in
        num (byte_of (with_check_sum file)) place 4 ≡ check_sum_of (with_check_sum file) place }
{
    pe_trust::laws::own_field_does_not_count();
}
