//! `Directory`: a directory of the resource tree that is read by itself.

ghost use Rattle.std.specs.Prelude.{◌+◌, ◌*◌, ◌<◌, ◌≤◌};

use crate::entry::Entry;
use crate::leaf::{Leaf, Path};
use crate::section::Section;

/// A directory of the resource tree ("PE Format", Resource Directory Table): the entries that the file holds of it. No call allocates.
#[derive(Clone, Copy)]
pub struct Directory<'l, 'a> {
    pub(crate) section: Section<'l, 'a>,
    pub(crate) offset: u32,
    pub(crate) count: u32,
    ghost held: { 0 < count → offset + 16 + 8 * count ≤ section.len },
}

impl<'l, 'a> Directory<'l, 'a> {
    ghost use Rattle.std.specs.Prelude.{◌≡◌, ◌↔◌, ◌^◌, length, slice_get, option_map, IfSome, IsTrue};
    ghost use Rattle.pe_layout.specs.Layout.{image_of};
    ghost use Rattle.pe_resources.specs.Root.{directory_at, directory_of, entries_in, leaf_of};
    ghost use Rattle.pe_resources.specs.Single.{first_of, with_id, with_text};

    /// The directory at an offset, unless the file does not hold its first 16 bytes.
    pub(crate) fn at(section: Section<'l, 'a>, offset: u32) -> Option<Directory<'l, 'a>>
        ensures entries { option_map entries_in result ≡ directory_at (image_of section.entry.layout.now) section.entry.start offset }
        ensures section { IfSome result (λ directory. directory.section ≡ section.entry) }
    {
        if !section.holds(offset, 16) {
            return None;
        }
        Some(Directory {
            section,
            offset,
            count: section.whole_count(offset),
        })
    }

    /// The number of entries.
    pub fn len(self) -> u32
        ensures { result ≡ length (entries_in self.entry) }
    {
        self.count
    }

    /// Whether there are none.
    pub fn is_empty(self) -> bool
        ensures { IsTrue result ↔ (length (entries_in self.entry) ≡ 0) }
    {
        self.count == 0
    }

    /// Entry `index` in table order, from 0, or `None` if there is none.
    pub fn get(self, index: u32) -> Option<Entry>
        ensures { result ≡ slice_get (entries_in self.entry) index }
    {
        if index >= self.count {
            return None;
        }
        Some(self.section.entry(self.offset, index))
    }

    /// The first entry in table order.
    pub fn first(self) -> Option<Entry>
        ensures { result ≡ first_of (entries_in self.entry) }
    {
        self.get(0)
    }

    /// The first entry in table order with an id.
    pub fn by_id(self, id: u16) -> Option<Entry>
        ensures { result ≡ with_id id (entries_in self.entry) }
    {
        for index in 0..self.count {
            let entry = self.section.entry(self.offset, index);
            if entry.name == id as u32 {
                return Some(entry);
            }
        }
        None
    }

    /// The first entry in table order with a text, given as its UTF-16 units, two bytes each. An entry whose text the file does not hold
    /// has none. Costs the number of entries, and for each of them at most the length of `name`.
    pub fn by_name(self, name: &[u8]) -> Option<Entry>
        ensures { result ≡ with_text (image_of self.entry.section.layout.now) self.entry.section.start name.now (entries_in self.entry) }
    {
        for index in 0..self.count {
            let entry = self.section.entry(self.offset, index);
            if self.section.is_named(entry, name) {
                return Some(entry);
            }
        }
        None
    }

    /// The directory that an entry leads to, unless that leads to a data entry, or the file does not hold the directory's first 16
    /// bytes. The entry is one of a directory of the same tree.
    pub fn directory(self, entry: Entry) -> Option<Directory<'l, 'a>>
        ensures entries { option_map entries_in result ≡ directory_of (image_of self.entry.section.layout.now) self.entry.section.start entry }
        ensures section { IfSome result (λ directory. directory.section ≡ self.entry.section) }
    {
        if !entry.is_directory() {
            return None;
        }
        Directory::at(self.section, entry.offset())
    }

    /// The leaf that an entry leads to, as one to which the path leads, unless that leads to a directory, or the file does not hold
    /// the data entry. The entry is one of a directory of the same tree.
    pub fn leaf(self, entry: Entry, path: Path) -> Option<Leaf>
        ensures { result ≡ leaf_of (image_of self.entry.section.layout.now) self.entry.section.start path entry }
    {
        let offset = entry.offset();
        if entry.is_directory() || !self.section.holds(offset, 16) {
            return None;
        }
        Some(self.section.leaf(path, offset))
    }
}
