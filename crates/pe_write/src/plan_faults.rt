//! Fault 53: why a plan is refused.

ghost use Rattle.std.specs.Prelude.{◌≡◌, ◌<◌, ◌≤◌, ◌+◌, ◌*◌, ◌^◌, ⊤, nat_lt, [], ◌∷◌};
ghost use Rattle.pe_view.specs.Faults.{Answers};
ghost use Rattle.pe_layout.specs.Piece.{end_of};
ghost use Rattle.pe_write.specs.PlanFaults.{is_misplaced, is_wide, number_tests, places_tests, plan_test, plan_tests, table_end};
ghost use Rattle.pe_write.specs.PlanFile.{file_end, headers_from, raw_end};
ghost use Rattle.pe_write.specs.PlanHeaders.{plan_size};

use crate::plan::{Plan, PlanSection};
use crate::plan_data::{raw_end, section_header};
use pe_head::{Magic, SectionHeader};
use pe_view::{Fault, Place};
use std::alloc::Allocator;

/// The greatest size of a file in bytes.
const FILE_LIMIT: usize = 1 << 32;

/// Fault 53 if the condition, one of its causes, is true.
fn check(stands: bool) -> Result<(), Fault>
    ensures { Answers (plan_test stands ∷ []) (λ _. ⊤) result }
{
    if stands {
        return Err(Fault {
            number: 53,
            image: 0,
            place: Place::Item(0),
        });
    }
    Ok(())
}

/// Whether an ImageBase does not fit into its field.
fn is_wide(magic: Magic, base: u64) -> bool
    ensures { result ≡ is_wide magic base }
{
    match magic {
        Magic::Pe32 => base > u64::from(u32::MAX),
        Magic::Pe32Plus => false,
    }
}

/// Where the section table ends in the file.
fn table_end(magic: Magic, count: usize) -> usize
    requires { count ≤ 96 }
    ensures { result ≡ table_end magic count }
{
    0x40 + 24 + magic.fixed_size() as usize + 128 + 40 * count
}

/// Tests the numbers of the headers.
fn check_numbers<P: Allocator>(plan: &Plan<'_, P>) -> Result<(), Fault>
    ensures { Answers (number_tests plan.now) (λ _. ⊤) result }
{
    let count = plan.sections.len();
    check(plan.file_alignment == 0)?;
    check(is_wide(plan.magic, plan.image_base))?;
    check(count > 96)?;
    check(plan.size_of_image == 0 || plan.size_of_image > 1 << 31)?;
    let headers = plan.size_of_headers as usize;
    check(headers < table_end(plan.magic, count) || headers > plan.size_of_image as usize)
}

/// The length of the file with the section, appended to `end` bytes, unless it is longer than a file may be.
fn checked_end(alignment: u32, end: usize, section: &PlanSection) -> Result<usize, Fault>
    requires some { 0 < alignment }
    requires held { end ≤ 2 ^ 32 }
    ensures { Answers (plan_test (nat_lt (2 ^ 32) (raw_end alignment end section.now)) ∷ []) (λ next. next ≡ raw_end alignment end section.now) result }
{
    check(section.raw.len() > FILE_LIMIT)?;
    let next = raw_end(alignment, end, section);
    check(next > FILE_LIMIT)?;
    Ok(next)
}

/// The length of the file, unless it is longer than a file may be.
fn checked_size(alignment: u32, headers: usize, sections: &[PlanSection]) -> Result<usize, Fault>
    requires some { 0 < alignment }
    requires held { headers ≤ 2 ^ 32 }
    ensures { Answers (plan_test (nat_lt (2 ^ 32) (file_end alignment headers sections.now)) ∷ []) (λ size. size ≡ file_end alignment headers sections.now) result }
{
    let mut end = headers;
    for section in sections {
        end = checked_end(alignment, end, section)?;
    }
    Ok(end)
}

/// Where a section ends in the laid-out image.
fn image_end(section: &SectionHeader) -> u64
    ensures { result ≡ end_of section.now }
{
    u64::from(section.virtual_address) + u64::from(section.extent())
}

/// Whether a section extends past the image, or begins inside the headers or before the end of the previous section.
fn is_misplaced(image: u32, headers: u32, before: u64, section: &SectionHeader) -> bool
    ensures { result ≡ is_misplaced image headers before section.now }
{
    image_end(section) > u64::from(image)
        || section.virtual_address < headers
        || u64::from(section.virtual_address) < before
}

/// Tests the place of each section in the image.
fn check_places(
    image: u32,
    headers: u32,
    alignment: u32,
    sections: &[PlanSection],
) -> Result<(), Fault>
    requires some { 0 < alignment }
    requires behind { 0 < headers }
    requires held { file_end alignment headers sections.now ≤ 2 ^ 32 }
    ensures { Answers (places_tests image headers 0 (headers_from alignment headers sections.now)) (λ _. ⊤) result }
{
    let mut end = headers as usize;
    let mut before = 0;
    for section in sections {
        let header = section_header(alignment, end, section);
        check(is_misplaced(image, headers, before, &header))?;
        before = image_end(&header);
        end = raw_end(alignment, end, section);
    }
    Ok(())
}

/// The length of a plan's file, or fault 53.
pub(crate) fn check_plan<P: Allocator>(plan: &Plan<'_, P>) -> Result<usize, Fault>
    ensures { Answers (plan_tests plan.now) (λ size. size ≡ plan_size plan.now) result }
{
    check_numbers(plan)?;
    let sections = plan.sections.as_slice();
    let (alignment, headers) = (plan.file_alignment, plan.size_of_headers);
    let size = checked_size(alignment, headers as usize, sections)?;
    check_places(plan.size_of_image, headers, alignment, sections)?;
    Ok(size)
}
