//! `ObjectFile`: an object file without faults 61 to 72, which decodes sections, relocations and symbols on demand.

ghost use Rattle.std.specs.Prelude.{◌≡◌, None, length, ⊤};
ghost use Rattle.std.specs.List.{flat_map};
ghost use Rattle.pe_view.specs.Faults.{Answers, first_standing};
ghost use Rattle.pe_view.specs.View.{bytes_of};
ghost use Rattle.coff_read.specs.FormFaults as form_faults;
ghost use Rattle.coff_read.specs.FormReading as form;
ghost use Rattle.coff_read.specs.Forms.{Plain};
ghost use Rattle.coff_read.specs.ObjectFaults.{object_tests};
ghost use Rattle.coff_read.specs.Reading.{symbol_indexes};
ghost use Rattle.coff_read.specs.TablesPlace.{AreTables};

use crate::fields::{u16_in, u32_in};
use crate::headers::{FileHeader, file_header};
use crate::names::{name_of, section_name_field};
use crate::object::Object;
use crate::relocation::check_relocations;
use crate::section::{FileSection, check_sections, read_sections, section_at};
use crate::sections::EachSection;
use crate::symbol::{check_symbols, read_symbols};
use crate::symbols::{EachSymbol, Symbols};
use crate::tables::{HEADER_LEN, SECTION_LEN, Tables, check_header, read_tables};
use pe_head::SectionHeader;
use pe_view::{Fault, TextEnds, View};
use std::alloc::{AllocError, Allocator};

/// An object file without faults 61 to 72. It stores only where the tables are: sections, relocations and symbols are decoded on
/// demand, and their names and raw data borrow from the file.
///
/// Only [`ObjectFile::read`] allocates, and, to remember where strings end, [`ObjectFile::each_section`] and
/// [`ObjectFile::each_symbol`].
#[derive(Clone, Copy)]
pub struct ObjectFile<'a> {
    pub(crate) view: View<'a>,
    pub(crate) tables: Tables,
    pub(crate) symbols: u64,
    ghost stand: { AreTables Plain (bytes_of view) tables },
    ghost counted: { symbols ≡ length (symbol_indexes (bytes_of view)) },
    ghost accepted: { first_standing (object_tests (bytes_of view)) ≡ None },
}

/// Tests fault 72 of all relocations, if no section has one of faults 64 to 69.
pub(crate) fn check_all_relocations<const BIG: bool>(
    view: View,
    tables: Tables,
) -> Result<(), Fault>
    requires tables { AreTables BIG (bytes_of view) tables }
    requires sections { first_standing (flat_map (form_faults.section_tests BIG (bytes_of view)) (form.section_starts BIG (bytes_of view))) ≡ None }
    ensures { Answers (flat_map (form_faults.relocation_tests BIG (bytes_of view.entry)) (form.section_starts BIG (bytes_of view.entry))) (λ _. ⊤) result }
{
    for i in 0..tables.sections {
        check_relocations::<BIG>(view, tables, tables.headers + SECTION_LEN * i)?;
    }
    Ok(())
}

impl<'a> ObjectFile<'a> {
    ghost use Rattle.std.specs.Prelude.{option_map, slice_get, IfOk};
    ghost use Rattle.coff_read.specs.FileView.{file_section_view};
    ghost use Rattle.coff_read.specs.Headers.{file_header, section_headers};
    ghost use Rattle.coff_read.specs.ObjectFile.{file_of};
    ghost use Rattle.coff_read.specs.ObjectView.{object_view};
    ghost use Rattle.coff_read.specs.Reading.{object_of};
    ghost use Rattle.coff_read.specs.SectionsLeft.{each_section_left};
    ghost use Rattle.coff_read.specs.SymbolsLeft.{indexed, each_symbol_left, symbols_left};

    /// Checks a complete object file, or returns its first fault.
    ///
    /// Faults are tested in this order: of the header 61, 62, 63; of the symbol table 67, 68; of each section in table order 64,
    /// 65, 66, 69; of each symbol 69, 70, 71; of each relocation, section by section, 72. Nothing is allocated. The time is linear
    /// in the tables, in which relocations that several sections share count for each of them; no string is searched for its
    /// terminator. ("PE Format": COFF File Header, Section Table, COFF Relocations, COFF Symbol Table, COFF String Table.)
    pub fn new(file: &'a [u8]) -> Result<ObjectFile<'a>, Fault>
        ensures { Answers (object_tests file.entry.now) (λ object. file_of object ≡ file.entry.now) result }
    {
        let view = View::new(file);
        check_header::<false>(view)?;
        let tables = read_tables::<false>(view)?;
        check_sections::<false>(view, tables)?;
        let symbols = check_symbols::<false>(view, tables)?;
        check_all_relocations::<false>(view, tables)?;
        Ok(ObjectFile {
            view,
            tables,
            symbols,
        })
    }

    /// The processor that the object is for.
    pub fn machine(&self) -> u16
        ensures { result ≡ (object_of (file_of self.now)).machine }
    {
        u16_in(self.view, 0, 0)
    }

    /// When the object was created, as stored in the file.
    pub fn time_stamp(&self) -> u32
        ensures { result ≡ (object_of (file_of self.now)).time_stamp }
    {
        u32_in(self.view, 0, 4)
    }

    /// Flags of the object.
    pub fn characteristics(&self) -> u16
        ensures { result ≡ (object_of (file_of self.now)).characteristics }
    {
        u16_in(self.view, 0, 18)
    }

    /// The COFF file header, field by field.
    pub fn header(&self) -> FileHeader
        ensures { result ≡ file_header (file_of self.now) }
    {
        file_header(self.view)
    }

    /// The bytes of the optional header, which most objects lack.
    pub fn optional(&self) -> &'a [u8]
        ensures { result.now ≡ (object_of (file_of self.now)).optional }
    {
        let optional = u64::from(u16_in(self.view, 0, 16));
        self.view.slice(HEADER_LEN, optional).unwrap()
    }

    /// The number of sections.
    pub fn section_count(&self) -> usize
        ensures { result ≡ length (object_of (file_of self.now)).sections }
    {
        self.tables.sections as usize
    }

    /// Section `index` in table order, counted from 0; `None` exactly if there is no such one. A name in the string table is
    /// searched for its terminator.
    pub fn section(&self, index: usize) -> Option<FileSection<'a>>
        ensures { option_map file_section_view result ≡ slice_get (object_of (file_of self.now)).sections index }
    {
        if index as u64 >= self.tables.sections {
            return None;
        }
        let h = self.tables.headers + SECTION_LEN * index as u64;
        let name = name_of::<false>(self.view, self.tables, section_name_field(self.view, h));
        Some(section_at::<false>(self.view, h, name))
    }

    /// The header of section `index` in table order, counted from 0, field by field; `None` exactly if there is no such one.
    pub fn section_header(&self, index: usize) -> Option<SectionHeader>
        ensures { result ≡ slice_get (section_headers (file_of self.now)) index }
    {
        if index as u64 >= self.tables.sections {
            return None;
        }
        let h = self.tables.headers + SECTION_LEN * index as u64;
        Some(SectionHeader::read(self.view, h))
    }

    /// The sections in table order, in time linear in the section table and the string table: each byte of the latter is searched
    /// at most once, and 256 more for each name.
    pub fn each_section<A: Allocator + Copy>(&self, alloc: A) -> EachSection<'a, A>
        ensures { each_section_left result ≡ (object_of (file_of self.now)).sections }
    {
        EachSection {
            view: self.view,
            tables: self.tables,
            next: 0,
            ends: TextEnds::new(alloc),
        }
    }

    /// The number of symbols, without auxiliary records.
    pub fn symbol_count(&self) -> usize
        ensures { result ≡ length (object_of (file_of self.now)).symbols }
    {
        self.symbols as usize
    }

    /// The symbols in table order, each with the index of its record.
    pub fn symbols(&self) -> Symbols<'a>
        ensures { symbols_left result ≡ indexed (file_of self.now) (symbol_indexes (file_of self.now)) }
    {
        Symbols {
            view: self.view,
            tables: self.tables,
            next: 0,
        }
    }

    /// The symbols as [`ObjectFile::symbols`] returns them, in time linear in the symbol table and the string table: each byte of
    /// the latter is searched at most once, and 256 more for each name.
    pub fn each_symbol<A: Allocator + Copy>(&self, alloc: A) -> EachSymbol<'a, A>
        ensures { each_symbol_left result ≡ indexed (file_of self.now) (symbol_indexes (file_of self.now)) }
    {
        EachSymbol {
            view: self.view,
            tables: self.tables,
            next: 0,
            ends: TextEnds::new(alloc),
        }
    }

    /// The object, with lists of its sections, relocations and symbols, or out of memory; then all memory is freed.
    ///
    /// Each list is allocated once. The time is linear in the tables and the string table: each byte of the latter is searched at
    /// most once, and 256 more for each name.
    pub fn read<A: Allocator + Copy>(&self, alloc: A) -> Result<Object<'a, A>, AllocError>
        ensures { IfOk result (λ object. object_view object ≡ object_of (file_of self.now)) }
    {
        let mut ends = TextEnds::new(alloc);
        Ok(Object {
            machine: self.machine(),
            time_stamp: self.time_stamp(),
            characteristics: self.characteristics(),
            optional: self.optional(),
            sections: read_sections::<A, false>(alloc, &mut ends, self.view, self.tables)?,
            symbols: read_symbols(
                alloc,
                &mut ends,
                self.view,
                self.tables,
                self.symbol_count(),
            )?,
        })
    }
}
