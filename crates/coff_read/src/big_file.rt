//! `BigObjectFile`: a big object's file without faults 61 to 72, which decodes sections, relocations and symbols on demand.

ghost use Rattle.std.specs.Prelude.{◌≡◌, None, length};
ghost use Rattle.pe_view.specs.Faults.{Answers, first_standing};
ghost use Rattle.pe_view.specs.View.{bytes_of};
ghost use Rattle.coff_read.specs.FormFaults.{object_tests};
ghost use Rattle.coff_read.specs.FormReading.{symbol_indexes};
ghost use Rattle.coff_read.specs.Forms.{Big};
ghost use Rattle.coff_read.specs.TablesPlace.{AreTables};

use crate::big_header::{BigFileHeader, big_file_header};
use crate::big_object::BigObject;
use crate::big_sections::EachBigSection;
use crate::big_symbol::read_big_symbols;
use crate::big_symbols::{BigSymbols, EachBigSymbol};
use crate::fields::{u16_in, u32_in};
use crate::file::check_all_relocations;
use crate::names::{name_of, section_name_field};
use crate::section::{FileSection, check_sections, read_sections, section_at};
use crate::symbol::check_symbols;
use crate::tables::{SECTION_LEN, Tables, check_header, read_tables};
use pe_head::SectionHeader;
use pe_view::{Fault, TextEnds, View};
use std::alloc::{AllocError, Allocator};

/// A big object's file (`/bigobj`) without faults 61 to 72. It stores only where the tables are: sections, relocations and symbols are
/// decoded on demand, and their names and raw data borrow from the file.
///
/// Only [`BigObjectFile::read`] allocates, and, to remember where strings end, [`BigObjectFile::each_section`] and
/// [`BigObjectFile::each_symbol`].
#[derive(Clone, Copy)]
pub struct BigObjectFile<'a> {
    pub(crate) view: View<'a>,
    pub(crate) tables: Tables,
    pub(crate) symbols: u64,
    ghost stand: { AreTables Big (bytes_of view) tables },
    ghost counted: { symbols ≡ length (symbol_indexes Big (bytes_of view)) },
    ghost accepted: { first_standing (object_tests Big (bytes_of view)) ≡ None },
}

impl<'a> BigObjectFile<'a> {
    ghost use Rattle.std.specs.Prelude.{option_map, slice_get, IfOk};
    ghost use Rattle.coff_read.specs.BigLeft.{indexed, each_big_section_left, big_symbols_left, each_big_symbol_left};
    ghost use Rattle.coff_read.specs.BigObjectFile.{big_file_of, big_file_header, big_section_headers};
    ghost use Rattle.coff_read.specs.BigView.{big_object_view};
    ghost use Rattle.coff_read.specs.FileView.{file_section_view};
    ghost use Rattle.coff_read.specs.FormReading.{object_of};

    /// Checks a complete big object's file, or returns its first fault.
    ///
    /// Faults are tested in the order of [`crate::ObjectFile::new`], and nothing is allocated. Fault 62 is at 0 if the file does not
    /// begin as a big object, at 4 if the version of its header is under 2, and at 12 if its class is another. The time is linear in
    /// the tables, in which relocations that several sections share count for each of them; no string is searched for its
    /// terminator. ("PE Format": Section Table, COFF Relocations, COFF Symbol Table, COFF String Table.)
    pub fn new(file: &'a [u8]) -> Result<BigObjectFile<'a>, Fault>
        ensures { Answers (object_tests Big file.entry.now) (λ object. big_file_of object ≡ file.entry.now) result }
    {
        let view = View::new(file);
        check_header::<true>(view)?;
        let tables = read_tables::<true>(view)?;
        check_sections::<true>(view, tables)?;
        let symbols = check_symbols::<true>(view, tables)?;
        check_all_relocations::<true>(view, tables)?;
        Ok(BigObjectFile {
            view,
            tables,
            symbols,
        })
    }

    /// The processor that the object is for.
    pub fn machine(&self) -> u16
        ensures { result ≡ (object_of Big (big_file_of self.now)).machine }
    {
        u16_in(self.view, 0, 6)
    }

    /// When the object was created, as stored in the file.
    pub fn time_stamp(&self) -> u32
        ensures { result ≡ (object_of Big (big_file_of self.now)).time_stamp }
    {
        u32_in(self.view, 0, 8)
    }

    /// The header, field by field.
    pub fn header(&self) -> BigFileHeader
        ensures { result ≡ big_file_header (big_file_of self.now) }
    {
        big_file_header(self.view)
    }

    /// The number of sections.
    pub fn section_count(&self) -> usize
        ensures { result ≡ length (object_of Big (big_file_of self.now)).sections }
    {
        self.tables.sections as usize
    }

    /// Section `index` in table order, counted from 0; `None` exactly if there is no such one. A name in the string table is
    /// searched for its terminator.
    pub fn section(&self, index: usize) -> Option<FileSection<'a>>
        ensures { option_map file_section_view result ≡ slice_get (object_of Big (big_file_of self.now)).sections index }
    {
        if index as u64 >= self.tables.sections {
            return None;
        }
        let h = self.tables.headers + SECTION_LEN * index as u64;
        let name = name_of::<true>(self.view, self.tables, section_name_field(self.view, h));
        Some(section_at::<true>(self.view, h, name))
    }

    /// The header of section `index` in table order, counted from 0, field by field; `None` exactly if there is no such one.
    pub fn section_header(&self, index: usize) -> Option<SectionHeader>
        ensures { result ≡ slice_get (big_section_headers (big_file_of self.now)) index }
    {
        if index as u64 >= self.tables.sections {
            return None;
        }
        let h = self.tables.headers + SECTION_LEN * index as u64;
        Some(SectionHeader::read(self.view, h))
    }

    /// The sections in table order, in time linear in the section table and the string table: each byte of the latter is searched
    /// at most once, and 256 more for each name.
    pub fn each_section<A: Allocator + Copy>(&self, alloc: A) -> EachBigSection<'a, A>
        ensures { each_big_section_left result ≡ (object_of Big (big_file_of self.now)).sections }
    {
        EachBigSection {
            view: self.view,
            tables: self.tables,
            next: 0,
            ends: TextEnds::new(alloc),
        }
    }

    /// The number of symbols, without auxiliary records.
    pub fn symbol_count(&self) -> usize
        ensures { result ≡ length (object_of Big (big_file_of self.now)).symbols }
    {
        self.symbols as usize
    }

    /// The symbols in table order, each with the index of its record.
    pub fn symbols(&self) -> BigSymbols<'a>
        ensures { big_symbols_left result ≡ indexed Big (big_file_of self.now) (symbol_indexes Big (big_file_of self.now)) }
    {
        BigSymbols {
            view: self.view,
            tables: self.tables,
            next: 0,
        }
    }

    /// The symbols as [`BigObjectFile::symbols`] returns them, in time linear in the symbol table and the string table: each byte of
    /// the latter is searched at most once, and 256 more for each name.
    pub fn each_symbol<A: Allocator + Copy>(&self, alloc: A) -> EachBigSymbol<'a, A>
        ensures { each_big_symbol_left result ≡ indexed Big (big_file_of self.now) (symbol_indexes Big (big_file_of self.now)) }
    {
        EachBigSymbol {
            view: self.view,
            tables: self.tables,
            next: 0,
            ends: TextEnds::new(alloc),
        }
    }

    /// The object, with lists of its sections, relocations and symbols, or out of memory; then all memory is freed.
    ///
    /// Each list is allocated once. The time is linear in the tables and the string table: each byte of the latter is searched at
    /// most once, and 256 more for each name.
    pub fn read<A: Allocator + Copy>(&self, alloc: A) -> Result<BigObject<'a, A>, AllocError>
        ensures { IfOk result (λ object. big_object_view object ≡ object_of Big (big_file_of self.now)) }
    {
        let mut ends = TextEnds::new(alloc);
        Ok(BigObject {
            machine: self.machine(),
            time_stamp: self.time_stamp(),
            characteristics: 0,
            optional: &[],
            sections: read_sections::<A, true>(alloc, &mut ends, self.view, self.tables)?,
            symbols: read_big_symbols(
                alloc,
                &mut ends,
                self.view,
                self.tables,
                self.symbol_count(),
            )?,
        })
    }
}
