//! `Section::is_ascending`: whether the entries of a directory are in the order that a search by halves needs.

ghost use Rattle.std.specs.Prelude.{◌≡◌, ◌+◌, ◌*◌, ◌<◌, ◌≤◌, ◌^◌};
ghost use Rattle.pe_layout.specs.Layout.{image_of};
ghost use Rattle.pe_resources.specs.Order.{text_units, is_text_below, is_after, is_ascending};

use crate::entry::Entry;
use crate::section::Section;

/// How many units of two texts are compared: more than names have, so that long texts do not cost more for each entry.
const COMPARED: u32 = 64;

impl<'l, 'a> Section<'l, 'a> {
    /// How many units the text at an offset has: none if the section does not have all of it.
    fn text_units(self, offset: u32) -> u32
        ensures value { result ≡ text_units (image_of self.entry.layout.now) self.entry.start offset }
        ensures held { 0 < result → offset + 2 + 2 * result ≤ self.entry.len }
    {
        if self.has_text(offset) {
            u32::from(self.u16_at(offset))
        } else {
            0
        }
    }

    /// Whether the text at an offset is below that at another, as far as the units tell that are compared.
    fn is_text_below(self, first: u32, second: u32) -> bool
        requires first { first < 2 ^ 31 }
        requires second { second < 2 ^ 31 }
        ensures { result ≡ is_text_below (image_of self.entry.layout.now) self.entry.start first second }
    {
        let first_count = self.text_units(first);
        let second_count = self.text_units(second);
        for index in 0..COMPARED {
            if index >= second_count {
                return false;
            }
            if index >= first_count {
                return true;
            }
            let one = self.u16_at(first + 2 + 2 * index);
            let other = self.u16_at(second + 2 + 2 * index);
            if one != other {
                return one < other;
            }
        }
        true
    }

    /// Whether an entry may come right after another.
    fn is_after(self, before: Entry, entry: Entry) -> bool
        ensures { result ≡ is_after (image_of self.entry.layout.now) self.entry.start before entry }
    {
        if entry.is_text() {
            before.is_text() && self.is_text_below(before.name_offset(), entry.name_offset())
        } else {
            before.is_text() || before.name < entry.name
        }
    }

    /// Whether the first `count` entries of the directory at an offset ascend.
    pub fn is_ascending(self, offset: u32, count: u32) -> bool
        requires { offset + 16 + 8 * count ≤ self.len }
        ensures { result ≡ is_ascending (image_of self.entry.layout.now) self.entry.start offset count }
    {
        if count < 2 {
            return true;
        }
        let rows = self.rows(offset, count);
        let mut ascending = true;
        let mut before = Entry::of(&rows[0]);
        for index in 0..count - 1 {
            let entry = Entry::of(&rows[index as usize + 1]);
            ascending &= self.is_after(before, entry);
            before = entry;
        }
        ascending
    }
}
