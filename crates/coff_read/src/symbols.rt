//! `Symbols` and `EachSymbol`: iterators over the symbols of an object file. `EachSymbol` remembers where strings end.

ghost use Rattle.std.specs.Prelude.{◌≡◌, ◌≤◌, ◌-◌, None};
ghost use Rattle.std.specs.List.{flat_map};
ghost use Rattle.pe_view.specs.Faults.{first_standing};
ghost use Rattle.pe_view.specs.TextEnds.{AreEndsOf};
ghost use Rattle.pe_view.specs.View.{bytes_of};
ghost use Rattle.coff_read.specs.FormFaults.{symbol_tests};
ghost use Rattle.coff_read.specs.FormReading.{symbols_from};
ghost use Rattle.coff_read.specs.Forms.{Plain};
ghost use Rattle.coff_read.specs.TablesPlace.{AreTables};

use crate::names::{name_kept, name_of, symbol_name_field};
use crate::symbol::{Symbol, symbol_at};
use crate::tables::{SYMBOL_LEN, Tables};
use pe_view::{TextEnds, View};
use std::alloc::Allocator;

/// The symbols of an object file, in table order, each with the index of its record, which relocations refer to. A name in the
/// string table is searched for its terminator when its symbol is returned. Nothing is allocated.
#[derive(Drop)]
pub struct Symbols<'a> {
    pub(crate) view: View<'a>,
    pub(crate) tables: Tables,
    pub(crate) next: u64,
    ghost stand: { AreTables Plain (bytes_of view) tables },
    ghost within: { next ≤ tables.records },
    ghost sound: { first_standing (flat_map (symbol_tests Plain (bytes_of view)) (symbols_from Plain (bytes_of view) next (tables.records - next) 0)) ≡ None },
}

impl<'a> Iterator for Symbols<'a> {
    ghost use Rattle.std.specs.Iterator.{YieldsFirstBy, item_count};
    ghost use Rattle.coff_read.specs.SymbolsLeft.{item_view, symbols_left};

    type Item = (u32, Symbol<'a>);

    ghost next_gives = { YieldsFirstBy item_view symbols_left };

    ghost remaining = { item_count symbols_left };

    fn next(&mut self) -> Option<(u32, Symbol<'a>)> {
        let k = self.next;
        if k >= self.tables.records {
            return None;
        }
        let at = self.tables.symbols + SYMBOL_LEN * k;
        let name = name_of::<false>(self.view, self.tables, symbol_name_field(self.view, at));
        let symbol = symbol_at(self.view, at, name);
        self.next = k + 1 + symbol.aux.len() as u64 / SYMBOL_LEN;
        Some((k as u32, symbol))
    }
}

/// The symbols of an object file, as [`Symbols`] returns them. Where strings of the string table end is remembered, so each byte of
/// it is searched at most once, and 256 more for each name, however many symbols share a name. If memory for that runs out, a
/// string is searched again.
#[derive(Drop)]
pub struct EachSymbol<'a, A: Allocator> {
    pub(crate) view: View<'a>,
    pub(crate) tables: Tables,
    pub(crate) next: u64,
    pub(crate) ends: TextEnds<A>,
    ghost stand: { AreTables Plain (bytes_of view) tables },
    ghost within: { next ≤ tables.records },
    ghost sound: { first_standing (flat_map (symbol_tests Plain (bytes_of view)) (symbols_from Plain (bytes_of view) next (tables.records - next) 0)) ≡ None },
    ghost known: { AreEndsOf (bytes_of view) ends },
}

impl<'a, A: Allocator + Copy> Iterator for EachSymbol<'a, A> {
    ghost use Rattle.std.specs.Iterator.{YieldsFirstBy, item_count};
    ghost use Rattle.coff_read.specs.SymbolsLeft.{item_view, each_symbol_left};

    type Item = (u32, Symbol<'a>);

    ghost next_gives = { YieldsFirstBy item_view each_symbol_left };

    ghost remaining = { item_count each_symbol_left };

    fn next(&mut self) -> Option<(u32, Symbol<'a>)> {
        let k = self.next;
        if k >= self.tables.records {
            return None;
        }
        let at = self.tables.symbols + SYMBOL_LEN * k;
        let field = symbol_name_field(self.view, at);
        let name = name_kept::<A, false>(&mut self.ends, self.view, self.tables, field);
        let symbol = symbol_at(self.view, at, name);
        self.next += 1 + symbol.aux.len() as u64 / SYMBOL_LEN;
        Some((k as u32, symbol))
    }
}
