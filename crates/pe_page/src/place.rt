//! `SectionNames`: the long names of sections, and the places of RVAs in sections.

ghost use Rattle.std.specs.Prelude.{◌≡◌, ◌-◌, ◌≤◌, map, None, Some};
ghost use Rattle.coff_read.specs.ImageNames.{image_strings};
ghost use Rattle.pe_layout.specs.Layout.{headers_of};
ghost use Rattle.pe_layout.specs.Locating.{located};
ghost use Rattle.pe_reach.specs.Views.{seen_of};
ghost use Rattle.pe_text.specs.TextWriter.{IsReady, Adds};
ghost use Rattle.pe_page.specs.Places.{IsPlace, IsPlaceOf, name_at, names_of, start_at, offset_columns, place_columns};
ghost use Rattle.pe_page.specs.Rows.{place_text};

use crate::name::{section_beginning, section_width, write_section_name};
use arrayvec::ArrayVec;
use coff_read::section_name;
use pe_head::Headers;
use pe_layout::{Layout, Located};
use pe_reach::ViewFile;
use pe_text::{Sink, TextWriter, hex_width};

/// The names of an image's sections, by index: of each as much as decides how it is shown.
#[derive(Drop)]
pub struct SectionNames<'a> {
    names: ArrayVec<&'a [u8], 96>,
}

/// The place of an RVA.
#[derive(Clone, Copy)]
pub struct SectionPlace<'a> {
    /// The section's name, or a word for a place outside sections.
    pub name: &'a [u8],
    /// The offset in the section or in the headers; none in a gap or outside the image.
    pub offset: Option<u32>,
    /// The file offset, if it has one.
    pub file: Option<u64>,
}

/// The RVA of a section's first byte.
fn section_start(layout: &Layout, index: usize) -> u32
    ensures { result ≡ start_at (headers_of layout.now) index }
{
    match layout.section(index) {
        Some(section) => section.virtual_address,
        None => 0,
    }
}

/// A place with a name only.
fn named_place(name: &[u8]) -> SectionPlace
    ensures { IsPlace result name.now None None }
{
    SectionPlace {
        name,
        offset: None,
        file: None,
    }
}

impl<'a> SectionNames<'a> {
    /// The names of the sections of an image's file. Each long name is searched for its end once.
    pub fn new(file: ViewFile<'a>, headers: &'a Headers) -> SectionNames<'a>
        ensures { map (λ name. name.now) result.names.items ≡ names_of (image_strings (seen_of file.entry) headers.now) headers.now.sections.items }
    {
        let strings = file.strings(headers);
        let mut names = ArrayVec::new();
        for section in headers.sections.as_slice() {
            names.push(section_beginning(section_name(strings, &section.name)));
        }
        SectionNames { names }
    }

    /// The name of section `index`.
    pub fn get(&self, index: usize) -> &'a [u8]
        ensures { result.now ≡ name_at self.now.names.items index }
    {
        match self.names.as_slice().get(index) {
            Some(name) => name,
            None => b"",
        }
    }

    /// The place of an RVA of the image.
    pub fn place(&self, layout: &Layout, rva: u32) -> SectionPlace<'a>
        ensures { IsPlaceOf self.now.names.items (headers_of layout.now) rva (located (headers_of layout.now) rva) result }
    {
        match layout.locate(rva) {
            Located::Raw { section, file } => self.in_section(layout, section, rva, Some(file)),
            Located::Zero { section } => self.in_section(layout, section, rva, None),
            Located::Header { file } => SectionPlace {
                name: b"headers",
                offset: Some(rva),
                file: Some(file),
            },
            Located::Gap => named_place(b"no section"),
            Located::Outside => named_place(b"outside the image"),
        }
    }

    /// A place in a section.
    fn in_section(
        &self,
        layout: &Layout,
        index: u8,
        rva: u32,
        file: Option<u64>,
    ) -> SectionPlace<'a>
        ensures { IsPlace result (name_at self.now.names.items index) (Some (rva - start_at (headers_of layout.now) index)) file }
    {
        let index = usize::from(index);
        SectionPlace {
            name: self.get(index),
            offset: Some(rva.saturating_sub(section_start(layout, index))),
            file,
        }
    }
}

/// How many columns an offset in a section takes, including `+0x`.
fn offset_width(offset: Option<u32>) -> usize
    ensures value { result ≡ offset_columns offset }
    ensures bound { result ≤ 19 }
{
    match offset {
        Some(offset) => 3 + usize::from(hex_width(u64::from(offset))),
        None => 0,
    }
}

impl<'a> SectionPlace<'a> {
    /// Adds its name, and `+0x` and the offset if it has one, like `.text+0x350`.
    pub fn write<W: Sink>(&self, text: &mut TextWriter<W>)
        requires { IsReady W.failures text.old }
        ensures { Adds W.taken W.failures text.old text.new (place_text self.now) }
    {
        write_section_name(text, self.name);
        if let Some(offset) = self.offset {
            text.text(b"+0x");
            text.hex_at_least(1, offset as u64);
        }
    }

    /// How many columns it takes.
    pub fn width(&self) -> usize
        ensures { result ≡ place_columns self.now }
    {
        section_width(self.name) + offset_width(self.offset)
    }
}
