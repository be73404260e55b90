//! `ImageSymbols`: an iterator over the symbols of an image.

ghost use Rattle.std.specs.Prelude.{◌≡◌, ◌+◌, ◌-◌, ◌*◌, ◌≤◌, ◌<◌, ◌^◌, [], ℕ, List, Option, length, min, IfSome, option_map};
ghost use Rattle.std.proofs.Props.{props};
ghost use Rattle.std.specs.Option.{unwrap_or};
ghost use Rattle.pe_view.specs.TextEnds.{AreEndsOf};
ghost use Rattle.pe_view.specs.View.{bytes_of, size_of};
ghost use Rattle.coff_read.specs.Field.{field};
ghost use Rattle.coff_read.specs.ImageNames.{table_of};
ghost use Rattle.coff_read.specs.ImageSymbols.{records_held, image_symbol_name, image_symbol_at};
ghost use Rattle.coff_read.specs.ObjectView.{symbol_view};

use crate::fields::{u8_in, u16_in, u32_in};
use crate::image_strings::ImageStrings;
use crate::names::{NAME_LEN, up_to_zero};
use crate::symbol::{Symbol, section_of_number};
use crate::tables::SYMBOL_LEN;
use pe_head::Headers;
use pe_view::{TextEnds, View};
use std::alloc::Allocator;

/// How many records of an image's symbol table its file holds.
pub fn records_held(view: View, headers: &Headers) -> u64
    ensures value { result ≡ records_held (bytes_of view.entry) headers.now }
    ensures inside { 18 * result ≤ size_of view.entry - headers.now.pointer_to_symbol_table }
    ensures small { result < 2 ^ 32 }
{
    let start = u64::from(headers.pointer_to_symbol_table);
    let len = view.len();
    if start == 0 || len < start {
        return 0;
    }
    u64::from(headers.number_of_symbols).min((len - start) / SYMBOL_LEN)
}

/// The name of the symbol whose record is at a file offset; empty if it leads to no string. Where strings end is remembered.
fn symbol_name<'a, A: Allocator + Copy>(
    ends: &mut TextEnds<A>,
    view: View<'a>,
    strings: Option<ImageStrings<'a>>,
    at: u64,
) -> &'a [u8]
    requires inside { at + 18 ≤ size_of view }
    requires known { IfSome strings (λ strings. AreEndsOf (table_of strings) ends.old) }
    ensures name { result.now ≡ unwrap_or (image_symbol_name (bytes_of view.entry) (option_map table_of strings.entry) at) [] }
    ensures known { IfSome strings.entry (λ strings. AreEndsOf (table_of strings) ends.new) }
{
    if u32_in(view, at, 0) != 0 {
        return up_to_zero(view.slice(at, NAME_LEN as u64).unwrap());
    }
    let Some(strings) = strings else {
        return b"";
    };
    strings.text_kept(ends, u32_in(view, at, 4)).unwrap_or(b"")
}

/// The symbol with a name, whose record is at a file offset, with those of its auxiliary records that are among the next `left`
/// records.
fn symbol_at<'a>(view: View<'a>, at: u64, left: u64, name: &'a [u8]) -> Symbol<'a>
    requires inside { at + 18 + 18 * left ≤ size_of view }
    requires small { left < 2 ^ 32 }
    ensures symbol { (strings : Option (List ℕ)) → name.now ≡ unwrap_or (image_symbol_name (bytes_of view.entry) strings at) []
        → symbol_view result ≡ image_symbol_at (bytes_of view.entry) strings at left }
    ensures aux { length result.aux.now ≡ 18 * min (field (bytes_of view.entry) at 17 1) left }
{
    let aux = u64::from(u8_in(view, at, 17)).min(left);
    Symbol {
        name,
        value: u32_in(view, at, 8),
        section: section_of_number(u16_in(view, at, 12)),
        kind: u16_in(view, at, 14),
        class: u8_in(view, at, 16),
        aux: view.slice(at + SYMBOL_LEN, SYMBOL_LEN * aux).unwrap(),
    }
}

/// The symbols of an image, in table order, each with the index of its record ("PE Format", COFF Symbol Table).
///
/// An image is not refused for its symbol table. Of a table that passes the end of the file the symbols are those whose records the
/// file holds; the auxiliary records of the last may be fewer than it counts. A name that leads to no string is empty. Where strings
/// of the string table end is remembered, so each byte of it is searched at most once, and 256 more for each name. If memory for that
/// runs out, a string is searched again.
#[derive(Drop)]
pub struct ImageSymbols<'a, A: Allocator> {
    view: View<'a>,
    strings: Option<ImageStrings<'a>>,
    start: u64,
    records: u64,
    next: u64,
    ends: TextEnds<A>,
    ghost held: { 18 * records ≤ size_of view - start },
    ghost near: { start < 2 ^ 32 },
    ghost few: { records < 2 ^ 32 },
    ghost within: { next ≤ records },
    ghost known: { IfSome strings (λ strings. AreEndsOf (table_of strings) ends) } by { Prim.hlevel props },
}

impl<'a, A: Allocator + Copy> ImageSymbols<'a, A> {
    ghost use Rattle.coff_read.specs.ImageSymbols.{image_symbols};
    ghost use Rattle.coff_read.specs.ImageSymbolsLeft.{image_symbols_left};

    /// The symbols of the image in a file with these headers. Allocates nothing.
    pub fn new(alloc: A, view: View<'a>, headers: &Headers) -> ImageSymbols<'a, A>
        ensures { image_symbols_left result ≡ image_symbols (bytes_of view.entry) headers.now }
    {
        ImageSymbols {
            view,
            strings: ImageStrings::new(view, headers),
            start: u64::from(headers.pointer_to_symbol_table),
            records: records_held(view, headers),
            next: 0,
            ends: TextEnds::new(alloc),
        }
    }
}

impl<'a, A: Allocator + Copy> Iterator for ImageSymbols<'a, A> {
    ghost use Rattle.std.specs.Iterator.{YieldsFirstBy, item_count};
    ghost use Rattle.coff_read.specs.ImageSymbolsLeft.{image_symbols_left};
    ghost use Rattle.coff_read.specs.SymbolsLeft.{item_view};

    type Item = (u32, Symbol<'a>);

    ghost next_gives = { YieldsFirstBy item_view image_symbols_left };

    ghost remaining = { item_count image_symbols_left };

    fn next(&mut self) -> Option<(u32, Symbol<'a>)> {
        let k = self.next;
        if k >= self.records {
            return None;
        }
        let at = self.start + SYMBOL_LEN * k;
        let name = symbol_name(&mut self.ends, self.view, self.strings, at);
        let symbol = symbol_at(self.view, at, self.records - k - 1, name);
        self.next = k + 1 + symbol.aux.len() as u64 / SYMBOL_LEN;
        Some((k as u32, symbol))
    }
}
