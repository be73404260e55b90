//! `Found`: what has been read of a tree, and what each step of the walk adds to it.

ghost use Rattle.std.specs.Prelude.{◌≡◌, ◌+◌, ◌*◌, ◌<◌, ◌≤◌, ◌^◌, true, [], ◌∷◌, OnOk, IfOk, IfSome};
ghost use Rattle.pe_layout.specs.Layout.{image_of};
ghost use Rattle.pe_resources.specs.Found.{Shows, AreSome, Enters};
ghost use Rattle.pe_resources.specs.Walk.{Walk, asked, nothing, finding, name_tests, read_leaf};

use crate::entry::Entry;
use crate::leaf::{Leaf, Path};
use crate::section::Section;
use pe_ranges::Ranges;
use pe_view::{Fault, Place};
use std::alloc::{AllocError, Allocator};

/// What has been read of a tree.
#[derive(Drop)]
pub(crate) struct Found<A: Allocator> {
    pub leaves: Vec<Leaf, A>,
    pub findings: Vec<Fault, A>,
    /// The bytes of the directories that were entered.
    pub entered: Ranges<A>,
}

impl<A: Allocator + Copy> Found<A> {
    /// Nothing.
    pub fn new(alloc: A) -> Found<A>
        ensures shows { Shows result nothing }
        ensures some { AreSome result }
    {
        Found {
            leaves: Vec::new(alloc),
            findings: Vec::new(alloc),
            entered: Ranges::new(alloc),
        }
    }

    /// Adds a finding at an offset of the section.
    #[cold]
    #[inline(never)]
    fn tell(&mut self, section: Section, number: u16, offset: u32) -> Result<(), AllocError>
        requires small { section.start + offset < 2 ^ 32 }
        ensures shows { (w : Walk) → Shows self.old w → OnOk result (Shows self.new (asked (finding (image_of section.entry.layout.now) section.entry.start number offset true ∷ []) w)) }
        ensures entered { self.new.entered ≡ self.old.entered }
    {
        self.findings.push(Fault {
            number,
            image: section.layout.image(),
            place: Place::Rva(section.start + offset),
        })?;
        Ok(())
    }

    /// Adds a finding at an offset of the section where it stands.
    #[inline(always)]
    pub fn find(
        &mut self,
        section: Section,
        number: u16,
        offset: u32,
        stands: bool,
    ) -> Result<(), AllocError>
        requires small { section.start + offset < 2 ^ 32 }
        ensures shows { (w : Walk) → Shows self.old w → OnOk result (Shows self.new (asked (finding (image_of section.entry.layout.now) section.entry.start number offset stands ∷ []) w)) }
        ensures entered { self.new.entered ≡ self.old.entered }
    {
        if stands {
            self.tell(section, number, offset)?;
        }
        Ok(())
    }

    /// Asks finding 183 of an entry.
    #[inline]
    pub fn check_name(&mut self, section: Section, entry: Entry) -> Result<(), AllocError>
        requires small { section.start ≤ 2 ^ 31 }
        ensures shows { (w : Walk) → Shows self.old w → OnOk result (Shows self.new (asked (name_tests (image_of section.entry.layout.now) section.entry.start entry) w)) }
        ensures entered { self.new.entered ≡ self.old.entered }
    {
        let offset = entry.name_offset();
        let stands = entry.is_text() && !section.has_text(offset);
        self.find(section, 183, offset, stands)
    }

    /// Reads the data entry at an offset, below which there are so many levels.
    #[inline]
    pub fn read_leaf(
        &mut self,
        section: Section,
        below: u32,
        path: Path,
        offset: u32,
    ) -> Result<(), AllocError>
        requires small { section.start ≤ 2 ^ 31 }
        requires offset { offset < 2 ^ 31 }
        ensures shows { (w : Walk) → Shows self.old w → OnOk result (Shows self.new (read_leaf (image_of section.entry.layout.now) section.entry.start below path offset w)) }
        ensures entered { self.new.entered ≡ self.old.entered }
    {
        let held = section.holds(offset, 16);
        self.find(section, 184, offset, !held)?;
        if !held {
            return Ok(());
        }
        let leaf = section.leaf(path, offset);
        let strays = !section.layout.contains(leaf.rva, leaf.size as u64);
        self.leaves.push(leaf)?;
        self.find(section, 186, offset, below != 0)?;
        self.find(section, 188, offset, strays)?;
        Ok(())
    }

    /// Asks findings 182, 185 and 189 of the directory at an offset, and tells how many entries it has where it is entered.
    #[inline(always)]
    pub fn enter(&mut self, section: Section, offset: u32) -> Result<Option<u32>, AllocError>
        requires some { AreSome self.old }
        requires small { section.start ≤ 2 ^ 31 }
        requires offset { offset < 2 ^ 31 }
        ensures shows { (w : Walk) → Shows self.old w → IfOk result (Enters (image_of section.entry.layout.now) section.entry.start offset w self.new) }
        ensures held { IfOk result (λ entries. IfSome entries (λ count. offset + 16 + 8 * count ≤ section.entry.len)) }
        ensures some { OnOk result (AreSome self.new) }
    {
        if !section.holds(offset, 16) {
            self.find(section, 182, offset, true)?;
            return Ok(None);
        }
        let count = section.whole_count(offset);
        let is_whole = count == section.entry_count(offset);
        let len = 16 + 8 * count;
        let is_shared = self.entered.meets(offset, len);
        self.find(section, 182, offset, !is_whole)?;
        self.find(section, 185, offset, is_shared)?;
        if is_shared {
            return Ok(None);
        }
        let is_ascending = section.is_ascending(offset, count);
        self.find(section, 189, offset, !is_ascending)?;
        self.entered.add(offset, len)?;
        Ok(Some(count))
    }
}
