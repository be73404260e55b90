//! `Section`: the bytes of an image from its resource directory on.

ghost use Rattle.std.specs.Prelude.{◌≡◌, ◌+◌, ◌*◌, ◌<◌, ◌≤◌, ◌^◌, ◌&&◌, ℕ, List, length, not, option_map, slice_index_or, IfSome};
ghost use Rattle.pe_view.specs.View.{bytes_of, size_of};
ghost use Rattle.pe_layout.specs.Layout.{image_of};
ghost use Rattle.pe_layout.specs.Image.{number_at, bytes_at};
ghost use Rattle.pe_resources.specs.Entry.{entry_in};
ghost use Rattle.pe_resources.specs.Section.{is_held, entry_count, whole_count, entry_at, has_name, start_of};
ghost use Rattle.pe_resources.specs.Texts.{text_at, is_named};
ghost use Rattle.pe_resources.specs.Leaves.{leaf_at};

use crate::entry::Entry;
use crate::leaf::{Leaf, Path};
use pe_head::directory_index;
use pe_layout::Layout;
use pe_view::View;

/// The bytes of an image from its resource directory on, as far as the file holds them in one run.
#[derive(Clone, Copy)]
pub(crate) struct Section<'l, 'a> {
    pub layout: &'l Layout<'a>,
    pub start: u32,
    pub len: u32,
    pub view: View<'a>,
    ghost held: { len ≡ (image_of layout.now).raw_left start },
    ghost whole: { size_of view ≡ len },
    ghost bytes: { bytes_of view ≡ bytes_at (image_of layout.now) start len },
    ghost inside: { 0 < len → start + len ≤ (image_of layout.now).size },
}

impl<'l, 'a> Section<'l, 'a> {
    /// The bytes from an RVA on.
    pub fn at(layout: &'l Layout<'a>, start: u32) -> Section<'l, 'a>
        ensures layout { result.layout ≡ layout.entry }
        ensures start { result.start ≡ start }
    {
        let bytes = layout.raw_bytes(start);
        Section {
            layout,
            start,
            len: bytes.len() as u32,
            view: View::new(bytes),
        }
    }

    /// The bytes from an image's resource directory on, or `None` if the image has none.
    pub fn of(layout: &'l Layout<'a>) -> Option<Section<'l, 'a>>
        ensures start { option_map (λ section. section.start) result ≡ start_of (image_of layout.entry.now) }
        ensures layout { IfSome result (λ section. section.layout ≡ layout.entry) }
    {
        let directory = layout.directory(directory_index::RESOURCE)?;
        Some(Section::at(layout, directory.rva))
    }

    /// Whether the section has `len` bytes at an offset.
    pub fn holds(self, offset: u32, len: u32) -> bool
        ensures { result ≡ is_held (image_of self.entry.layout.now) self.entry.start offset len }
    {
        len <= self.len && offset <= self.len - len
    }

    /// The number in the 2 bytes at an offset.
    pub fn u16_at(self, offset: u32) -> u16
        requires { offset + 2 ≤ self.len }
        ensures { result ≡ number_at 2 (image_of self.entry.layout.now) (self.entry.start + offset) }
    {
        self.view.u16_at(offset as u64).unwrap()
    }

    /// The `len` bytes at an offset, read where they are held.
    #[inline]
    pub fn bytes(self, offset: u32, len: u32) -> &'a [u8]
        requires { offset + len ≤ self.len }
        ensures { result.now ≡ bytes_at (image_of self.entry.layout.now) (self.entry.start + offset) len }
    {
        self.view.slice(offset as u64, len as u64).unwrap()
    }

    /// How many entries the directory at an offset says to have.
    pub fn entry_count(self, offset: u32) -> u32
        requires { offset + 16 ≤ self.len }
        ensures value { result ≡ entry_count (image_of self.entry.layout.now) self.entry.start offset }
        ensures small { result < 2 ^ 17 }
    {
        let counts = View::new(self.bytes(offset + 12, 4));
        u32::from(counts.u16_at(0).unwrap()) + u32::from(counts.u16_at(2).unwrap())
    }

    /// How many of them the section has whole.
    pub fn whole_count(self, offset: u32) -> u32
        requires { offset + 16 ≤ self.len }
        ensures value { result ≡ whole_count (image_of self.entry.layout.now) self.entry.start offset }
        ensures held { offset + 16 + 8 * result ≤ self.entry.len }
    {
        let room = (self.len - offset - 16) / 8;
        self.entry_count(offset).min(room)
    }

    /// Entry `index` of the directory at an offset.
    pub fn entry(self, offset: u32, index: u32) -> Entry
        requires { offset + 16 + 8 * index + 8 ≤ self.len }
        ensures { result ≡ entry_at (image_of self.entry.layout.now) self.entry.start offset index }
    {
        Entry::of(self.bytes(offset + 16 + 8 * index, 8))
    }

    /// The first `count` entries of the directory at an offset, each by its bytes.
    #[inline]
    pub fn rows(self, offset: u32, count: u32) -> &'a [[u8; 8]]
        requires { offset + 16 + 8 * count ≤ self.len }
        ensures len { length result.now ≡ count }
        ensures rows { (k : ℕ) (d : List ℕ) → k < count → entry_in (slice_index_or result.now k d) ≡ entry_at (image_of self.entry.layout.now) self.entry.start offset k }
    {
        let (rows, _) = self.bytes(offset + 16, 8 * count).as_chunks::<8>();
        rows
    }

    /// Whether the section has the whole text at an offset: two bytes of its length, and as many UTF-16 units.
    pub fn has_text(self, offset: u32) -> bool
        ensures { result ≡ has_name (image_of self.entry.layout.now) self.entry.start offset }
    {
        if !self.holds(offset, 2) {
            return false;
        }
        self.holds(offset, 2 + 2 * u32::from(self.u16_at(offset)))
    }

    /// The UTF-16 units of the text at an offset, unless the section does not have all of it.
    pub fn text(self, offset: u32) -> Option<&'a [u8]>
        ensures { option_map (λ text. text.now) result ≡ text_at (image_of self.entry.layout.now) self.entry.start offset }
    {
        if !self.has_text(offset) {
            return None;
        }
        let len = 2 * u32::from(self.u16_at(offset));
        Some(self.bytes(offset + 2, len))
    }

    /// Whether an entry is named by a text of these units.
    pub fn is_named(self, entry: Entry, name: &[u8]) -> bool
        ensures { result ≡ is_named (image_of self.entry.layout.now) self.entry.start name.now entry }
    {
        if !entry.is_text() {
            return false;
        }
        match self.text(entry.name_offset()) {
            Some(text) => text == name,
            None => false,
        }
    }

    /// The leaf whose data entry stands at an offset.
    pub fn leaf(self, path: Path, offset: u32) -> Leaf
        requires { offset + 16 ≤ self.len }
        ensures { result ≡ leaf_at (image_of self.entry.layout.now) self.entry.start path offset }
    {
        let entry = View::new(self.bytes(offset, 16));
        Leaf {
            path,
            rva: entry.u32_at(0).unwrap(),
            size: entry.u32_at(4).unwrap(),
            code_page: entry.u32_at(8).unwrap(),
        }
    }
}
