//! The tests of faults 81 to 83 of an object to be written: zero bytes in names, far names and too many relocations.

ghost use Rattle.std.specs.Prelude.{◌≡◌, map, nat_lt, position};
ghost use Rattle.coff_read.specs.BigView.{big_symbol_view};
ghost use Rattle.coff_read.specs.ObjectView.{section_view};
ghost use Rattle.coff_read.specs.Records as format;
ghost use Rattle.coff_object.specs.WriteFaults.{has_zero, has_many_relocations};

use coff_read::{BigSymbol, ObjSection, WideSymbol};
use std::alloc::Allocator;

/// Whether a name has a zero byte.
fn has_zero(name: &[u8]) -> bool
    ensures { result ≡ has_zero name.now }
{
    name.contains(&0)
}

/// The first section with a zero byte in its name.
pub(crate) fn zero_in_sections<A: Allocator>(sections: &[ObjSection<A>]) -> Option<usize>
    ensures { result ≡ position (λ (s : format.Section). has_zero s.name) (map section_view sections.now) }
{
    sections.iter().position(|section| has_zero(section.name))
}

/// The greatest offset of seven digits: a name field of eight bytes holds `/` and seven more.
const LAST_OFFSET: u64 = 9_999_999;

/// The first section whose name's offset has more than seven digits.
pub(crate) fn far_section(places: &[u64]) -> Option<usize>
    ensures { result ≡ position (nat_lt 9999999) places.now }
{
    places.iter().position(|place| *place > LAST_OFFSET)
}

/// The first section with more relocations than can be read back.
pub(crate) fn crowded_section<A: Allocator>(sections: &[ObjSection<A>]) -> Option<usize>
    ensures { result ≡ position has_many_relocations (map section_view sections.now) }
{
    sections
        .iter()
        .position(|section| section.relocations.len() > 65_534)
}

/// Whether a symbol's name has a zero byte.
fn is_broken_name(symbol: BigSymbol) -> bool
    ensures { result ≡ has_zero (big_symbol_view symbol.entry).name }
{
    has_zero(symbol.name)
}

/// The first symbol with a zero byte in its name.
pub(crate) fn zero_in_symbols<S: WideSymbol>(symbols: &[S]) -> Option<usize>
    ensures { result ≡ position (λ (s : format.Symbol). has_zero s.name) (map S.view symbols.now) }
{
    symbols
        .iter()
        .position(|symbol| is_broken_name(symbol.wide()))
}
