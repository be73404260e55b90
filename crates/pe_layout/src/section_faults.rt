//! Faults 13 to 15, of the places of sections, tested section by section.

ghost use Rattle.std.specs.Prelude.{◌≡◌, ⊤};
ghost use Rattle.pe_view.specs.Faults.{Answers};
ghost use Rattle.pe_view.specs.declared.fault.Place.TheVariants.{File};
ghost use Rattle.pe_head.specs.Head.{section_offset};
ghost use Rattle.pe_layout.specs.HeaderSource.{headers_in};
ghost use Rattle.pe_layout.specs.Piece.{end_of};
ghost use Rattle.pe_layout.specs.SectionFaults.{section_tests, placing_tests};

use crate::header_source::HeaderSource;
use pe_head::{Headers, SectionHeader};
use pe_view::{Fault, Place};

/// The RVA after a section's last byte.
pub(crate) fn end_of(section: &SectionHeader) -> u64
    ensures { result ≡ end_of section.now }
{
    u64::from(section.virtual_address) + u64::from(section.extent())
}

/// A fault of section `index`, at its header.
fn section_fault(number: u16, image: u16, headers: &HeaderSource, index: u8) -> Fault
    ensures { result ≡ record { number = number; image = image; place = File (section_offset (headers_in headers.now) index) } }
{
    Fault {
        number,
        image,
        place: Place::File(headers.section_offset(index)),
    }
}

/// The end of section `index`, or the first of faults 13 to 15 that it has, after a section that ends at `before`, in a file of
/// `size` bytes.
fn check_section(
    headers: &HeaderSource,
    index: u8,
    section: &SectionHeader,
    before: u64,
    size: u64,
    image: u16,
) -> Result<u64, Fault>
    ensures { Answers (section_tests image (headers_in headers.now) size before index section.now) (λ end. end ≡ end_of section.now) result }
{
    let start = u64::from(section.virtual_address);
    let end = end_of(section);
    let rawlen = u64::from(section.rawlen());
    if rawlen > 0 && u64::from(section.pointer_to_raw_data) + rawlen > size {
        return Err(section_fault(13, image, headers, index));
    }
    if end > u64::from(headers.size_of_image()) {
        return Err(section_fault(14, image, headers, index));
    }
    if start < u64::from(headers.size_of_headers()) || start < before {
        return Err(section_fault(15, image, headers, index));
    }
    Ok(end)
}

/// Ok if no section has one of faults 13 to 15 in a file of `size` bytes, otherwise the first such fault.
pub(crate) fn check_placing(headers: &HeaderSource, size: u64, image: u16) -> Result<(), Fault>
    ensures { Answers (placing_tests image (headers_in headers.now) size) (λ _. ⊤) result }
{
    let mut before: u64 = 0;
    for index in 0..headers.section_count() {
        let section = headers.section(index);
        before = check_section(headers, index as u8, &section, before, size, image)?;
    }
    Ok(())
}

/// Ok if no section has one of faults 13 to 15 in a file of `size` bytes, otherwise the first such fault. Only the headers count, so
/// this needs no byte of the file behind them. ("PE Format": Section Table.)
#[tactic(auto, unfolding(crate::specs::HeaderSource::headers_in))]
pub fn check_sections(headers: &Headers, size: u64, image: u16) -> Result<(), Fault>
    ensures { Answers (placing_tests image headers.now size) (λ _. ⊤) result }
{
    check_placing(&HeaderSource::Record(headers), size, image)
}
