//! `needs_big_form`: which form an object needs.

ghost use Rattle.std.specs.Prelude.{◌≡◌, map};
ghost use Rattle.std.specs.List.{list_any};
ghost use Rattle.coff_read.specs.BigView.{big_symbol_view};
ghost use Rattle.coff_read.specs.ObjectView.{section_view};
ghost use Rattle.coff_object.specs.NeededForm.{is_past_plain, needs_big_form};

use coff_read::{BigSection, BigSymbol, ObjSection, WideSymbol};
use std::alloc::Allocator;

/// The most sections that a plain object counts.
const MOST_PLAIN_SECTIONS: usize = 0xffff;

/// The greatest section number that a symbol of a plain object has; the two above it are reserved.
const LAST_PLAIN_NUMBER: u32 = 0xfffd;

/// Whether a symbol is of a section whose number no symbol of a plain object has.
fn is_past_plain(symbol: BigSymbol) -> bool
    ensures { result ≡ is_past_plain (big_symbol_view symbol.entry) }
{
    match symbol.section {
        BigSection::Section(number) => number > LAST_PLAIN_NUMBER,
        _ => false,
    }
}

/// Whether one of the symbols is.
fn any_past_plain<S: WideSymbol>(symbols: &[S]) -> bool
    ensures { result ≡ list_any is_past_plain (map S.view symbols.now) }
{
    symbols.iter().any(|symbol| is_past_plain(symbol.wide()))
}

/// Whether an object with these sections and symbols, which may be those of [`crate::Object`] or of [`crate::BigObject`], has no
/// plain form because of their numbers: it has over 65,535 sections, or a symbol of a section whose number is over 65,533.
///
/// [`crate::write_object`] refuses such an object, and [`crate::write_big_object`] writes it as a big object (`/bigobj`). The time is
/// linear in the symbols. ("PE Format": Section Number Values.)
pub fn needs_big_form<A: Allocator, S: WideSymbol>(
    sections: &[ObjSection<A>],
    symbols: &[S],
) -> bool
    ensures { result ≡ needs_big_form (map section_view sections.now) (map S.view symbols.now) }
{
    sections.len() > MOST_PLAIN_SECTIONS || any_past_plain(symbols)
}
