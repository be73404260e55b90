//! `EitherObject`: an object's file of either form, plain or big, which decodes sections, relocations and symbols on demand.

ghost use Rattle.std.specs.Prelude.{◌≡◌};
ghost use Rattle.pe_view.specs.View.{bytes_of};
ghost use Rattle.coff_read.specs.EitherObject.{form_in};

use crate::big_file::BigObjectFile;
use crate::big_symbol::BigSymbol;
use crate::either_sections::EachEitherSection;
use crate::either_symbols::{EachEitherSymbol, EitherSymbols};
use crate::fields::u16_in;
use crate::file::ObjectFile;
use crate::section::FileSection;
use crate::tables::HEADER_LEN;
use pe_head::SectionHeader;
use pe_view::{Fault, View};
use std::alloc::Allocator;

/// An object's file of either form without faults 61 to 72. The file says which form it has, and what both forms have is asked of
/// both alike: their symbols are [`BigSymbol`]s, whose section numbers have 32 bits.
#[derive(Clone, Copy)]
pub enum EitherObject<'a> {
    /// A plain object.
    Plain(ObjectFile<'a>),
    /// A big object (`/bigobj`).
    Big(BigObjectFile<'a>),
}

/// Whether [`EitherObject::new`] reads a file as a big object: it begins with Machine 0 and 0xffff sections, as the header of one does.
pub fn is_read_as_big(view: View) -> bool
    ensures { result ≡ form_in (bytes_of view.entry) }
{
    if view.len() < HEADER_LEN {
        return false;
    }
    u16_in(view, 0, 0) == 0 && u16_in(view, 0, 2) == 0xffff
}

impl<'a> EitherObject<'a> {
    ghost use Rattle.std.specs.Prelude.{length, option_map, slice_get};
    ghost use Rattle.pe_view.specs.Faults.{Answers};
    ghost use Rattle.coff_read.specs.BigLeft.{indexed};
    ghost use Rattle.coff_read.specs.EitherLeft.{each_either_section_left, either_symbols_left, each_either_symbol_left};
    ghost use Rattle.coff_read.specs.EitherObject.{form_of, file_of, section_headers};
    ghost use Rattle.coff_read.specs.FileView.{file_section_view};
    ghost use Rattle.coff_read.specs.FormFaults.{object_tests};
    ghost use Rattle.coff_read.specs.FormReading.{object_of, symbol_indexes};

    /// Checks a complete object's file, or returns its first fault. A file that begins with Machine 0 and 0xffff sections is checked as
    /// [`BigObjectFile::new`] checks it, and any other as [`ObjectFile::new`] does.
    pub fn new(file: &'a [u8]) -> Result<EitherObject<'a>, Fault>
        ensures { Answers (object_tests (form_in file.entry.now) file.entry.now) (λ object. (form_of object ≡ form_in file.entry.now) × (file_of object ≡ file.entry.now)) result }
    {
        if is_read_as_big(View::new(file)) {
            return Ok(EitherObject::Big(BigObjectFile::new(file)?));
        }
        Ok(EitherObject::Plain(ObjectFile::new(file)?))
    }

    /// Whether it is a big object.
    pub fn is_big(&self) -> bool
        ensures { result ≡ form_of self.now }
    {
        match self {
            EitherObject::Plain(_) => false,
            EitherObject::Big(_) => true,
        }
    }

    /// The processor that the object is for.
    pub fn machine(&self) -> u16
        ensures { result ≡ (object_of (form_of self.now) (file_of self.now)).machine }
    {
        match self {
            EitherObject::Plain(object) => object.machine(),
            EitherObject::Big(object) => object.machine(),
        }
    }

    /// When the object was created, as stored in the file.
    pub fn time_stamp(&self) -> u32
        ensures { result ≡ (object_of (form_of self.now) (file_of self.now)).time_stamp }
    {
        match self {
            EitherObject::Plain(object) => object.time_stamp(),
            EitherObject::Big(object) => object.time_stamp(),
        }
    }

    /// Flags of the object: 0 of a big one, which stores none.
    pub fn characteristics(&self) -> u16
        ensures { result ≡ (object_of (form_of self.now) (file_of self.now)).characteristics }
    {
        match self {
            EitherObject::Plain(object) => object.characteristics(),
            EitherObject::Big(_) => 0,
        }
    }

    /// The number of sections.
    pub fn section_count(&self) -> usize
        ensures { result ≡ length (object_of (form_of self.now) (file_of self.now)).sections }
    {
        match self {
            EitherObject::Plain(object) => object.section_count(),
            EitherObject::Big(object) => object.section_count(),
        }
    }

    /// Section `index` in table order, counted from 0; `None` exactly if there is no such one. A name in the string table is
    /// searched for its terminator.
    pub fn section(&self, index: usize) -> Option<FileSection<'a>>
        ensures { option_map file_section_view result ≡ slice_get (object_of (form_of self.now) (file_of self.now)).sections index }
    {
        match self {
            EitherObject::Plain(object) => object.section(index),
            EitherObject::Big(object) => object.section(index),
        }
    }

    /// The header of section `index` in table order, counted from 0, field by field; `None` exactly if there is no such one.
    pub fn section_header(&self, index: usize) -> Option<SectionHeader>
        ensures { result ≡ slice_get (section_headers (form_of self.now) (file_of self.now)) index }
    {
        match self {
            EitherObject::Plain(object) => object.section_header(index),
            EitherObject::Big(object) => object.section_header(index),
        }
    }

    /// The sections in table order, in time linear in the section table and the string table: each byte of the latter is searched
    /// at most once, and 256 more for each name.
    pub fn each_section<A: Allocator + Copy>(&self, alloc: A) -> EachEitherSection<'a, A>
        ensures { each_either_section_left result ≡ (object_of (form_of self.now) (file_of self.now)).sections }
    {
        match self {
            EitherObject::Plain(object) => EachEitherSection::Plain(object.each_section(alloc)),
            EitherObject::Big(object) => EachEitherSection::Big(object.each_section(alloc)),
        }
    }

    /// The number of symbols, without auxiliary records.
    pub fn symbol_count(&self) -> usize
        ensures { result ≡ length (object_of (form_of self.now) (file_of self.now)).symbols }
    {
        match self {
            EitherObject::Plain(object) => object.symbol_count(),
            EitherObject::Big(object) => object.symbol_count(),
        }
    }

    /// The symbols in table order, each with the index of its record.
    pub fn symbols(&self) -> EitherSymbols<'a>
        ensures { either_symbols_left result ≡ indexed (form_of self.now) (file_of self.now) (symbol_indexes (form_of self.now) (file_of self.now)) }
    {
        match self {
            EitherObject::Plain(object) => EitherSymbols::Plain(object.symbols()),
            EitherObject::Big(object) => EitherSymbols::Big(object.symbols()),
        }
    }

    /// The symbols as [`EitherObject::symbols`] returns them, in time linear in the symbol table and the string table: each byte of
    /// the latter is searched at most once, and 256 more for each name.
    pub fn each_symbol<A: Allocator + Copy>(&self, alloc: A) -> EachEitherSymbol<'a, A>
        ensures { each_either_symbol_left result ≡ indexed (form_of self.now) (file_of self.now) (symbol_indexes (form_of self.now) (file_of self.now)) }
    {
        match self {
            EitherObject::Plain(object) => EachEitherSymbol::Plain(object.each_symbol(alloc)),
            EitherObject::Big(object) => EachEitherSymbol::Big(object.each_symbol(alloc)),
        }
    }
}
