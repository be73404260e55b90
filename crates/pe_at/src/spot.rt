//! `Spot`: a place of an image or an object, as its user says it.

use crate::no_place::{NoPlace, SameName};
use coff_read::{ImageStrings, section_name};
use pe_head::Headers;
use pe_view::Place;
use std::str;

/// What is said of a place that is not in the image.
pub(crate) const OUTSIDE: &[u8] = b"the place is outside the image\n";

/// What is said of an offset that is not in its section.
pub(crate) const OUTSIDE_SECTION: &[u8] = b"the place is outside the section\n";

/// What is said if no section has the number or the name.
const NO_SECTION: &[u8] = b"there is no such section\n";

/// A place of an image or an object, as its user says it.
#[derive(Clone, Copy)]
pub enum Spot<'a> {
    /// An RVA, an address with the image at its ImageBase, or a file offset. An object has only the last.
    At(Place),
    /// An offset in a section. This is its number, in decimal digits, or its name if no other section has that. An image's sections
    /// are counted from 0, an object's from 1.
    In { section: &'a [u8], offset: u32 },
}

/// The number that a section is called by, if it is all digits.
fn number_of(section: &[u8]) -> Option<usize> {
    if section.is_empty() || !section.iter().all(|byte| byte.is_ascii_digit()) {
        return None;
    }
    match str::from_utf8(section) {
        Ok(digits) => Some(digits.parse::<usize>().unwrap_or(usize::MAX)),
        Err(_) => None,
    }
}

/// A search for the section that is called by its number or its name.
#[derive(Drop)]
pub(crate) struct SectionSearch<'a> {
    section: &'a [u8],
    number: Option<usize>,
    found: Option<usize>,
    same: SameName,
}

impl<'a> SectionSearch<'a> {
    /// A search for this number or name.
    pub fn new(section: &'a [u8]) -> SectionSearch<'a> {
        SectionSearch {
            section,
            number: number_of(section),
            found: None,
            same: SameName::new(),
        }
    }

    /// Looks at the section with an index, a number and a name.
    pub fn look_at(&mut self, index: usize, number: usize, name: &[u8]) {
        let is_called = match self.number {
            Some(wanted) => wanted == number,
            None => self.section == name,
        };
        if is_called {
            self.found = Some(index);
            self.same.add(number);
        }
    }

    /// The index of the only section that was found, or what is said of an offset if there is none or more than one.
    pub fn end(self, offset: u32) -> Result<usize, NoPlace> {
        let SectionSearch { found, same, .. } = self;
        match found {
            Some(_) if same.are_several() => Err(NoPlace::Several(same, offset)),
            Some(index) => Ok(index),
            None => Err(NoPlace::Words(NO_SECTION)),
        }
    }
}

/// The index of the section of an image that is called so, of whose offset a place is asked.
fn section_called(
    headers: &Headers,
    strings: Option<ImageStrings>,
    section: &[u8],
    offset: u32,
) -> Result<usize, NoPlace> {
    let mut search = SectionSearch::new(section);
    for (index, header) in headers.sections.as_slice().iter().enumerate() {
        search.look_at(index, index, section_name(strings, &header.name));
    }
    search.end(offset)
}

/// The index of a section of an image that is called by its number or its name, and the RVA of an offset in it; or what is said if
/// there is none.
pub(crate) fn offset_in_section(
    headers: &Headers,
    strings: Option<ImageStrings>,
    section: &[u8],
    offset: u32,
) -> Result<(usize, u32), NoPlace> {
    let index = match section_called(headers, strings, section, offset) {
        Ok(index) => index,
        Err(none) => return Err(none),
    };
    let Some(header) = headers.sections.as_slice().get(index) else {
        return Err(NoPlace::Words(NO_SECTION));
    };
    match header.virtual_address.checked_add(offset) {
        Some(rva) if offset < header.extent() => Ok((index, rva)),
        _ => Err(NoPlace::Words(OUTSIDE_SECTION)),
    }
}
