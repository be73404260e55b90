//! `Layout::locate`: what is at an RVA of the image, found by a binary search among the sections.

ghost use Rattle.std.specs.Prelude.{◌≡◌, ◌≤◌, ◌<◌, ℕ};
ghost use Rattle.pe_view.specs.View.{size_of};
ghost use Rattle.pe_layout.specs.Locating.{located_in};

use crate::layout::Layout;
use crate::section_faults::end_of;
use pe_head::SectionHeader;

/// What is at an RVA of a laid-out image.
#[derive(Clone, Copy, Debug, PartialEq, Eq)]
pub enum Located {
    /// A byte of the headers, at this file offset.
    Header { file: u64 },
    /// A byte of a section's raw data: the section's index from 0, and the byte's file offset.
    Raw { section: u8, file: u64 },
    /// A byte of a section after its raw data: the section's index from 0.
    Zero { section: u8 },
    /// A byte of the image in neither the headers nor a section.
    Gap,
    /// No byte of the image.
    Outside,
}

/// Where an RVA after the headers is.
pub(crate) enum Spot {
    /// In this section.
    Section { index: u8, section: SectionHeader },
    /// In a gap, which goes on at least up to this RVA.
    Gap { end: u32 },
}

impl<'a> Layout<'a> {
    ghost use Rattle.std.specs.Prelude.{◌+◌, length, IfSome, Some};
    ghost use Rattle.pe_layout.specs.Image.{bytes_at};
    ghost use Rattle.pe_layout.specs.Piece.{section_of};
    ghost use Rattle.pe_layout.specs.Plain.{IsIn};
    ghost use Rattle.pe_layout.specs.Layout.{headers_of, image_of};
    ghost use Rattle.pe_layout.specs.Locating.{located};
    ghost use Rattle.pe_layout.specs.Sections.{IsSpot, gap_end};

    /// Where the gap ends that is before section `index`, or after the last section.
    fn gap_end(&self, index: usize) -> u32
        ensures { result ≡ gap_end (headers_of self.now) index }
    {
        if index >= self.headers.section_count() {
            return self.size_of_image();
        }
        self.headers.section(index).virtual_address
    }

    /// Where an RVA of the image after the headers is.
    ///
    /// A binary search finds the last section that begins at or before the RVA. Only its end is compared: earlier sections end at or
    /// before its beginning.
    #[inline]
    pub(crate) fn spot(&self, rva: u32) -> Spot
        requires { rva < (headers_of self.now).size_of_image }
        ensures { IsSpot (headers_of self.now) (size_of self.now.view) rva result }
    {
        let begun = self.headers.sections_begun(rva);
        if begun == 0 {
            return Spot::Gap {
                end: self.gap_end(0),
            };
        }
        let section = self.headers.section(begun - 1);
        if end_of(&section) <= u64::from(rva) {
            return Spot::Gap {
                end: self.gap_end(begun),
            };
        }
        Spot::Section {
            index: (begun - 1) as u8,
            section,
        }
    }

    /// The bytes from an RVA on that come from the file in one run, of the headers or of a section's raw data: none in zero fill,
    /// in a gap, and outside the image. A table whose records are read there is never longer than the file.
    #[tactic(auto, unfolding(crate::specs::Layout::image_of))]
    pub fn raw_bytes(&self, rva: u32) -> &'a [u8]
        ensures bytes { result.now ≡ bytes_at (image_of self.now) rva (length result.now) }
        ensures len { length result.now ≡ (image_of self.now).raw_left rva }
        ensures inside { 0 < length result.now → rva + length result.now ≤ (image_of self.now).size }
    {
        if rva >= self.size_of_image() {
            return &[];
        }
        let header_bytes = self.size_of_headers();
        if rva < header_bytes {
            let count = header_bytes - rva;
            return self.view.slice(u64::from(rva), u64::from(count)).unwrap();
        }
        match self.spot(rva) {
            Spot::Gap { end: _ } => &[],
            Spot::Section { index: _, section } => {
                let offset = rva - section.virtual_address;
                let rawlen = section.rawlen();
                if offset >= rawlen {
                    return &[];
                }
                let start = u64::from(section.pointer_to_raw_data) + u64::from(offset);
                self.view.slice(start, u64::from(rawlen - offset)).unwrap()
            }
        }
    }

    /// The section that contains an RVA, if there is one. No other section contains any of its RVAs.
    pub fn section_at(&self, rva: u32) -> Option<SectionHeader>
        ensures found { result ≡ section_of (headers_of self.now) rva }
        ensures inside { IfSome result (IsIn rva) }
        ensures alone { IfSome result (λ section. (k : ℕ) → IsIn k section → section_of (headers_of self.now) k ≡ Some section) }
    {
        if rva >= self.size_of_image() {
            return None;
        }
        match self.spot(rva) {
            Spot::Gap { end: _ } => None,
            Spot::Section { index: _, section } => Some(section),
        }
    }

    /// What is at an RVA: the piece that contains it, and the file offset of the byte if it comes from the file.
    pub fn locate(&self, rva: u32) -> Located
        ensures { result ≡ located (headers_of self.now) rva }
    {
        if rva >= self.size_of_image() {
            return Located::Outside;
        }
        if rva < self.size_of_headers() {
            return Located::Header {
                file: u64::from(rva),
            };
        }
        match self.spot(rva) {
            Spot::Gap { end: _ } => Located::Gap,
            Spot::Section { index, section } => located_in(&section, index, rva),
        }
    }
}

/// What is at an RVA of section `index`.
fn located_in(section: &SectionHeader, index: u8, rva: u32) -> Located
    requires { section.now.virtual_address ≤ rva }
    ensures { result ≡ located_in rva (Some index) (Some section.now) }
{
    let offset = rva - section.virtual_address;
    if offset < section.rawlen() {
        Located::Raw {
            section: index,
            file: u64::from(section.pointer_to_raw_data) + u64::from(offset),
        }
    } else {
        Located::Zero { section: index }
    }
}
