//! `BigSymbols` and `EachBigSymbol`: iterators over the symbols of a big object's file. `EachBigSymbol` remembers where strings end.

ghost use Rattle.std.specs.Prelude.{◌≡◌, ◌≤◌, ◌-◌, None};
ghost use Rattle.std.specs.List.{flat_map};
ghost use Rattle.pe_view.specs.Faults.{first_standing};
ghost use Rattle.pe_view.specs.TextEnds.{AreEndsOf};
ghost use Rattle.pe_view.specs.View.{bytes_of};
ghost use Rattle.coff_read.specs.FormFaults.{symbol_tests};
ghost use Rattle.coff_read.specs.FormReading.{symbols_from};
ghost use Rattle.coff_read.specs.Forms.{Big};
ghost use Rattle.coff_read.specs.TablesPlace.{AreTables};

use crate::big_symbol::{BigSymbol, big_symbol_at};
use crate::names::{name_kept, name_of, symbol_name_field};
use crate::symbol::record_at;
use crate::tables::Tables;
use crate::widths::aux_in;
use pe_view::{TextEnds, View};
use std::alloc::Allocator;

/// The symbols of a big object's file, in table order, each with the index of its record, which relocations refer to. A name in the
/// string table is searched for its terminator when its symbol is returned. Nothing is allocated.
#[derive(Drop)]
pub struct BigSymbols<'a> {
    pub(crate) view: View<'a>,
    pub(crate) tables: Tables,
    pub(crate) next: u64,
    ghost stand: { AreTables Big (bytes_of view) tables },
    ghost within: { next ≤ tables.records },
    ghost sound: { first_standing (flat_map (symbol_tests Big (bytes_of view)) (symbols_from Big (bytes_of view) next (tables.records - next) 0)) ≡ None },
}

impl<'a> Iterator for BigSymbols<'a> {
    ghost use Rattle.std.specs.Iterator.{YieldsFirstBy, item_count};
    ghost use Rattle.coff_read.specs.BigLeft.{big_item_view, big_symbols_left};

    type Item = (u32, BigSymbol<'a>);

    ghost next_gives = { YieldsFirstBy big_item_view big_symbols_left };

    ghost remaining = { item_count big_symbols_left };

    fn next(&mut self) -> Option<(u32, BigSymbol<'a>)> {
        let k = self.next;
        if k >= self.tables.records {
            return None;
        }
        let at = record_at::<true>(self.view, self.tables, k);
        let name = name_of::<true>(self.view, self.tables, symbol_name_field(self.view, at));
        let symbol = big_symbol_at(self.view, at, name);
        self.next = k + 1 + u64::from(aux_in::<true>(self.view, at));
        Some((k as u32, symbol))
    }
}

/// The symbols of a big object's file, as [`BigSymbols`] returns them. Where strings of the string table end is remembered, so each
/// byte of it is searched at most once, and 256 more for each name, however many symbols share a name. If memory for that runs out,
/// a string is searched again.
#[derive(Drop)]
pub struct EachBigSymbol<'a, A: Allocator> {
    pub(crate) view: View<'a>,
    pub(crate) tables: Tables,
    pub(crate) next: u64,
    pub(crate) ends: TextEnds<A>,
    ghost stand: { AreTables Big (bytes_of view) tables },
    ghost within: { next ≤ tables.records },
    ghost sound: { first_standing (flat_map (symbol_tests Big (bytes_of view)) (symbols_from Big (bytes_of view) next (tables.records - next) 0)) ≡ None },
    ghost known: { AreEndsOf (bytes_of view) ends },
}

impl<'a, A: Allocator + Copy> Iterator for EachBigSymbol<'a, A> {
    ghost use Rattle.std.specs.Iterator.{YieldsFirstBy, item_count};
    ghost use Rattle.coff_read.specs.BigLeft.{big_item_view, each_big_symbol_left};

    type Item = (u32, BigSymbol<'a>);

    ghost next_gives = { YieldsFirstBy big_item_view each_big_symbol_left };

    ghost remaining = { item_count each_big_symbol_left };

    fn next(&mut self) -> Option<(u32, BigSymbol<'a>)> {
        let k = self.next;
        if k >= self.tables.records {
            return None;
        }
        let at = record_at::<true>(self.view, self.tables, k);
        let field = symbol_name_field(self.view, at);
        let name = name_kept::<A, true>(&mut self.ends, self.view, self.tables, field);
        let symbol = big_symbol_at(self.view, at, name);
        self.next = k + 1 + u64::from(aux_in::<true>(self.view, at));
        Some((k as u32, symbol))
    }
}
