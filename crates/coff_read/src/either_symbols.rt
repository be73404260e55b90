//! `EitherSymbols` and `EachEitherSymbol`: iterators over the symbols of an object's file of either form. `EachEitherSymbol` remembers
//! where strings end.

use crate::big_symbol::BigSymbol;
use crate::big_symbols::{BigSymbols, EachBigSymbol};
use crate::symbols::{EachSymbol, Symbols};
use crate::wide_symbol::widened;
use std::alloc::Allocator;

/// The symbols of an object's file of either form, in table order, each with the index of its record, as [`Symbols`] and
/// [`BigSymbols`] return them.
#[derive(Drop)]
pub enum EitherSymbols<'a> {
    /// Those of a plain object.
    Plain(Symbols<'a>),
    /// Those of a big object.
    Big(BigSymbols<'a>),
}

impl<'a> Iterator for EitherSymbols<'a> {
    ghost use Rattle.std.specs.Iterator.{YieldsFirstBy, item_count};
    ghost use Rattle.coff_read.specs.BigLeft.{big_item_view};
    ghost use Rattle.coff_read.specs.EitherLeft.{either_symbols_left};

    type Item = (u32, BigSymbol<'a>);

    ghost next_gives = { YieldsFirstBy big_item_view either_symbols_left };

    ghost remaining = { item_count either_symbols_left };

    fn next(&mut self) -> Option<(u32, BigSymbol<'a>)> {
        match self {
            EitherSymbols::Plain(symbols) => {
                let (index, symbol) = symbols.next()?;
                Some((index, widened(symbol)))
            }
            EitherSymbols::Big(symbols) => symbols.next(),
        }
    }
}

/// The symbols of an object's file of either form, in table order, each with the index of its record, as [`EachSymbol`] and
/// [`EachBigSymbol`] return them.
#[derive(Drop)]
pub enum EachEitherSymbol<'a, A: Allocator> {
    /// Those of a plain object.
    Plain(EachSymbol<'a, A>),
    /// Those of a big object.
    Big(EachBigSymbol<'a, A>),
}

impl<'a, A: Allocator + Copy> Iterator for EachEitherSymbol<'a, A> {
    ghost use Rattle.std.specs.Iterator.{YieldsFirstBy, item_count};
    ghost use Rattle.coff_read.specs.BigLeft.{big_item_view};
    ghost use Rattle.coff_read.specs.EitherLeft.{each_either_symbol_left};

    type Item = (u32, BigSymbol<'a>);

    ghost next_gives = { YieldsFirstBy big_item_view each_either_symbol_left };

    ghost remaining = { item_count each_either_symbol_left };

    fn next(&mut self) -> Option<(u32, BigSymbol<'a>)> {
        match self {
            EachEitherSymbol::Plain(symbols) => {
                let (index, symbol) = symbols.next()?;
                Some((index, widened(symbol)))
            }
            EachEitherSymbol::Big(symbols) => symbols.next(),
        }
    }
}
