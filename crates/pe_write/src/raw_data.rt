//! Where fields and raw data are in a file: faults 51 and 52.

ghost use Rattle.std.specs.Prelude.{◌≡◌, ℕ, ◌+◌, ⊤, [], ◌∷◌, Some};
ghost use Rattle.std.specs.List.{list_any};
ghost use Rattle.pe_view.specs.Faults.{Answers};
ghost use Rattle.pe_head.specs.Section.{rawlen};
ghost use Rattle.pe_tables.specs.Fixups.{width_of};
ghost use Rattle.pe_write.specs.Rebase.{keeps, raw_section};
ghost use Rattle.pe_write.specs.RebaseFaults.{field_test, raw_meets, range_test, ranges_tests};
ghost use Rattle.pe_write.specs.Rewriting.{IsHolder};

use pe_head::{Headers, SectionHeader};
use pe_tables::Fixup;
use pe_view::{Fault, Place};

/// Whether a field is completely inside a section's raw data.
fn keeps(section: &SectionHeader, fixup: Fixup) -> bool
    ensures { result ≡ keeps fixup.field (width_of fixup.kind) section.now }
{
    let end = u64::from(section.virtual_address) + u64::from(section.rawlen());
    section.virtual_address <= fixup.field
        && u64::from(fixup.field) + u64::from(fixup.kind.width()) <= end
}

/// The section whose raw data contains all of a field.
fn raw_section(headers: &Headers, fixup: Fixup) -> Option<SectionHeader>
    ensures { result ≡ raw_section headers.now fixup }
{
    for section in headers.sections.as_slice() {
        if keeps(section, fixup) {
            return Some(*section);
        }
    }
    None
}

/// The section whose raw data contains all of a field, or fault 51. `last`, the section of the previous field, is tried first,
/// since most fields follow others of their section.
pub(crate) fn holder(
    headers: &Headers,
    last: SectionHeader,
    fixup: Fixup,
) -> Result<SectionHeader, Fault>
    requires { IsHolder headers.now last }
    ensures { Answers (field_test headers.now fixup ∷ []) (λ section. raw_section headers.now fixup ≡ Some section) result }
{
    if keeps(&last, fixup) {
        return Ok(last);
    }
    match raw_section(headers, fixup) {
        Some(section) => Ok(section),
        None => Err(Fault {
            number: 51,
            image: 0,
            place: Place::Rva(fixup.field),
        }),
    }
}

/// The file offset after a section's raw data.
fn raw_end(section: &SectionHeader) -> u64
    ensures { result ≡ section.now.pointer_to_raw_data + rawlen section.now }
{
    u64::from(section.pointer_to_raw_data) + u64::from(section.rawlen())
}

/// Whether the raw data of a section overlaps an earlier section's in the file.
fn raw_meets(section: &SectionHeader, earlier: &SectionHeader) -> bool
    ensures { result ≡ raw_meets section.now earlier.now }
{
    earlier.rawlen() > 0
        && u64::from(section.pointer_to_raw_data) < raw_end(earlier)
        && u64::from(earlier.pointer_to_raw_data) < raw_end(section)
}

/// Whether the raw data of a section overlaps some earlier section's in the file.
fn meets_any(section: &SectionHeader, earlier: &[SectionHeader]) -> bool
    ensures { result ≡ list_any (raw_meets section.now) earlier.now }
{
    earlier.iter().any(|other| raw_meets(section, other))
}

/// Whether fault 52 holds for a section after these: its raw data begins inside the headers, or overlaps theirs in the file.
fn is_crowded(headers: &Headers, before: &[SectionHeader], section: &SectionHeader) -> bool
    ensures { (k : ℕ) → result ≡ (range_test headers.now before.now k section.now).stands }
{
    section.rawlen() > 0
        && (section.pointer_to_raw_data < headers.size_of_headers || meets_any(section, before))
}

/// Tests fault 52, section by section. There are at most 96 sections, each compared with all earlier ones.
pub(crate) fn check_raw_data(headers: &Headers) -> Result<(), Fault>
    ensures { Answers (ranges_tests headers.now [] 0 headers.now.sections.items) (λ _. ⊤) result }
{
    let sections = headers.sections.as_slice();
    for (index, section) in sections.iter().enumerate() {
        if is_crowded(headers, &sections[..index], section) {
            return Err(Fault {
                number: 52,
                image: 0,
                place: Place::File(headers.section_offset(index as u8)),
            });
        }
    }
    Ok(())
}
