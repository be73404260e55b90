//! `EachBigSection`: an iterator over the sections of a big object's file that remembers where strings end.

ghost use Rattle.std.specs.Prelude.{◌≡◌, ◌≤◌, None};
ghost use Rattle.std.specs.List.{flat_map};
ghost use Rattle.pe_view.specs.Faults.{first_standing};
ghost use Rattle.pe_view.specs.TextEnds.{AreEndsOf};
ghost use Rattle.pe_view.specs.View.{bytes_of};
ghost use Rattle.coff_read.specs.FormFaults.{section_tests};
ghost use Rattle.coff_read.specs.FormReading.{section_starts};
ghost use Rattle.coff_read.specs.Forms.{Big};
ghost use Rattle.coff_read.specs.TablesPlace.{AreTables};

use crate::names::{name_kept, section_name_field};
use crate::section::{FileSection, section_at};
use crate::tables::{SECTION_LEN, Tables};
use pe_view::{TextEnds, View};
use std::alloc::Allocator;

/// The sections of a big object's file, in table order. Where strings of the string table end is remembered, so each byte of it is
/// searched at most once, and 256 more for each name, however many sections share a name. If memory for that runs out, a string is
/// searched again.
#[derive(Drop)]
pub struct EachBigSection<'a, A: Allocator> {
    pub(crate) view: View<'a>,
    pub(crate) tables: Tables,
    pub(crate) next: u64,
    pub(crate) ends: TextEnds<A>,
    ghost stand: { AreTables Big (bytes_of view) tables },
    ghost within: { next ≤ tables.sections },
    ghost sound: { first_standing (flat_map (section_tests Big (bytes_of view)) (section_starts Big (bytes_of view))) ≡ None },
    ghost known: { AreEndsOf (bytes_of view) ends },
}

impl<'a, A: Allocator + Copy> Iterator for EachBigSection<'a, A> {
    ghost use Rattle.std.specs.Iterator.{YieldsFirstBy, item_count};
    ghost use Rattle.coff_read.specs.BigLeft.{each_big_section_left};
    ghost use Rattle.coff_read.specs.FileView.{file_section_view};

    type Item = FileSection<'a>;

    ghost next_gives = { YieldsFirstBy file_section_view each_big_section_left };

    ghost remaining = { item_count each_big_section_left };

    fn next(&mut self) -> Option<FileSection<'a>> {
        if self.next >= self.tables.sections {
            return None;
        }
        let h = self.tables.headers + SECTION_LEN * self.next;
        let field = section_name_field(self.view, h);
        let name = name_kept::<A, true>(&mut self.ends, self.view, self.tables, field);
        self.next += 1;
        Some(section_at::<true>(self.view, h, name))
    }
}
