//! `EachEitherSection`: an iterator over the sections of an object's file of either form that remembers where strings end.

use crate::big_sections::EachBigSection;
use crate::section::FileSection;
use crate::sections::EachSection;
use std::alloc::Allocator;

/// The sections of an object's file of either form, in table order, as [`EachSection`] and [`EachBigSection`] return them.
#[derive(Drop)]
pub enum EachEitherSection<'a, A: Allocator> {
    /// Those of a plain object.
    Plain(EachSection<'a, A>),
    /// Those of a big object.
    Big(EachBigSection<'a, A>),
}

impl<'a, A: Allocator + Copy> Iterator for EachEitherSection<'a, A> {
    ghost use Rattle.std.specs.Iterator.{YieldsFirstBy, item_count};
    ghost use Rattle.coff_read.specs.EitherLeft.{each_either_section_left};
    ghost use Rattle.coff_read.specs.FileView.{file_section_view};

    type Item = FileSection<'a>;

    ghost next_gives = { YieldsFirstBy file_section_view each_either_section_left };

    ghost remaining = { item_count each_either_section_left };

    fn next(&mut self) -> Option<FileSection<'a>> {
        match self {
            EachEitherSection::Plain(sections) => sections.next(),
            EachEitherSection::Big(sections) => sections.next(),
        }
    }
}
