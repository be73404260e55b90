//! What the headers say of a place of an image that is refused because of its sections.

ghost use Rattle.pe_text.specs.TextWriter.{IsReady};
ghost use Rattle.pe_page.specs.Page.{AddsSome};

use crate::at_place::where_cells;
use crate::file_places::write_unlaid;
use crate::header_places::header_row;
use crate::no_place::NoPlace;
use crate::row_name::row_cells;
use crate::spot::{OUTSIDE, Spot, offset_in_section};
use coff_read::ImageStrings;
use pe_head::{Headers, SectionHeader};
use pe_page::Cell::Plain;
use pe_page::{SectionNames, SectionPlace, write_cells};
use pe_reach::ViewFile;
use pe_text::Part::Text;
use pe_text::{Sink, TextWriter};
use pe_view::Place;

/// A place of the image: its RVA, and the index of its section if it is in one.
type Site = (u32, Option<usize>);

/// The RVA of a file offset in the raw data of a section, if it is there.
fn rva_in(section: &SectionHeader, offset: u64) -> Option<u32> {
    let start = u64::from(section.pointer_to_raw_data);
    if offset < start || offset - start >= u64::from(section.rawlen()) {
        return None;
    }
    let behind = u32::try_from(offset - start).ok()?;
    section.virtual_address.checked_add(behind)
}

/// The place that has a file offset: in the headers, or in the first section whose raw data has it.
fn site_of_offset(headers: &Headers, offset: u64) -> Option<Site> {
    if offset < u64::from(headers.size_of_headers) {
        return Some((u32::try_from(offset).ok()?, None));
    }
    for (index, section) in headers.sections.as_slice().iter().enumerate() {
        if let Some(rva) = rva_in(section, offset) {
            return Some((rva, Some(index)));
        }
    }
    None
}

/// The index of the first section that has an RVA behind the headers.
fn section_at(headers: &Headers, rva: u32) -> Option<usize> {
    if rva < headers.size_of_headers {
        return None;
    }
    for (index, section) in headers.sections.as_slice().iter().enumerate() {
        if rva >= section.virtual_address && rva - section.virtual_address < section.extent() {
            return Some(index);
        }
    }
    None
}

/// The place that has an RVA, if the image does.
fn site_of_rva(headers: &Headers, rva: u32) -> Option<Site> {
    (rva < headers.size_of_image).then_some((rva, section_at(headers, rva)))
}

/// The place that has an address.
fn site_of_address(headers: &Headers, address: u64) -> Option<Site> {
    let rva = u32::try_from(address.checked_sub(headers.image_base)?).ok()?;
    site_of_rva(headers, rva)
}

/// The place that a user says, or what is said if there is none.
fn site_of(headers: &Headers, strings: Option<ImageStrings>, spot: &Spot) -> Result<Site, NoPlace> {
    let site = match spot {
        Spot::At(Place::Rva(rva)) => site_of_rva(headers, *rva),
        Spot::At(Place::File(offset)) => site_of_offset(headers, *offset),
        Spot::At(Place::Address(address)) => site_of_address(headers, *address),
        Spot::At(Place::Item(_)) => None,
        Spot::In { section, offset } => {
            return match offset_in_section(headers, strings, section, *offset) {
                Ok((index, rva)) => Ok((rva, Some(index))),
                Err(none) => Err(none),
            };
        }
    };
    match site {
        Some(site) => Ok(site),
        None => Err(NoPlace::Words(OUTSIDE)),
    }
}

/// The file offset of a byte of a section that is `behind` its beginning, if a file of `len` bytes has it.
fn offset_of(section: &SectionHeader, behind: u32, len: u64) -> Option<u64> {
    let offset = u64::from(section.pointer_to_raw_data) + u64::from(behind);
    (behind < section.rawlen() && offset < len).then_some(offset)
}

/// Where a place lies in a file of `len` bytes, and the flags of its section.
fn place_of<'a>(
    headers: &Headers,
    names: &SectionNames<'a>,
    len: u64,
    site: Site,
) -> (SectionPlace<'a>, Option<u32>) {
    let (rva, index) = site;
    let section = match index {
        Some(index) => headers.sections.as_slice().get(index),
        None => None,
    };
    if let (Some(section), Some(index)) = (section, index) {
        let behind = rva.saturating_sub(section.virtual_address);
        let place = SectionPlace {
            name: names.get(index),
            offset: Some(behind),
            file: offset_of(section, behind, len),
        };
        return (place, Some(section.characteristics));
    }
    let is_header = rva < headers.size_of_headers;
    let place = SectionPlace {
        name: if is_header { b"headers" } else { b"no section" },
        offset: is_header.then_some(rva),
        file: is_header.then_some(u64::from(rva)),
    };
    (place, None)
}

/// Adds where a place lies, and the header field there.
fn write_site<W: Sink>(
    text: &mut TextWriter<W>,
    file: ViewFile,
    headers: &Headers,
    names: &SectionNames,
    site: Site,
)
    requires { IsReady W.failures text.old }
    ensures { AddsSome W.taken W.failures text.old text.new }
{
    let (place, flags) = place_of(headers, names, file.len(), site);
    let field = match site {
        (rva, None) if rva < headers.size_of_headers => header_row(headers, u64::from(rva)),
        _ => None,
    };
    write_cells(text, &where_cells(headers.image_base, site.0, place, flags));
    write_cells(text, &row_cells(field));
    write_cells(text, &[Plain(Text(b"\n"))]);
}

/// Adds what the headers say of a spot.
fn write_spot<W: Sink>(
    text: &mut TextWriter<W>,
    file: ViewFile,
    headers: &Headers,
    names: &SectionNames,
    spot: &Spot,
)
    requires { IsReady W.failures text.old }
    ensures { AddsSome W.taken W.failures text.old text.new }
{
    match site_of(headers, file.strings(headers), spot) {
        Ok(site) => write_site(text, file, headers, names, site),
        Err(none) => write_unlaid(text, file, headers, spot, &none),
    }
}

/// Adds what the headers say of each of some spots: the RVA, the address, the file offset, and the section or the header field.
pub(crate) fn write_by_headers<W: Sink>(
    text: &mut TextWriter<W>,
    file: ViewFile,
    headers: &Headers,
    spots: &[Spot],
)
    requires { IsReady W.failures text.old }
    ensures { AddsSome W.taken W.failures text.old text.new }
{
    let names = SectionNames::new(file, headers);
    for spot in spots {
        write_spot(text, file, headers, &names, spot);
    }
}
