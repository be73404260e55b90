//! `WideSymbol`: a symbol of a plain or of a big object, as what serves both reads it.

ghost use Rattle.std.specs.Prelude.{◌≡◌};
ghost use Rattle.coff_read.specs.BigView.{belongs_view, big_symbol_view};
ghost use Rattle.coff_read.specs.ObjectView.{symbol_view};
ghost use Rattle.coff_read.specs.Records as format;

use crate::big_symbol::{BigSection, BigSymbol};
use crate::symbol::{Symbol, SymbolSection};

/// A symbol of a plain or of a big object.
pub trait WideSymbol: Copy {
    ghost view: { Self → format.Symbol };

    /// The symbol, with a section number of 32 bits.
    fn wide(&self) -> BigSymbol<'_>
        ensures { big_symbol_view result ≡ view self.now };
}

/// A section whose number has 16 bits, with one of 32 bits.
fn wide_section(section: SymbolSection) -> BigSection
    ensures { belongs_view result ≡ section }
{
    match section {
        SymbolSection::Undefined => BigSection::Undefined,
        SymbolSection::Absolute => BigSection::Absolute,
        SymbolSection::Debug => BigSection::Debug,
        SymbolSection::Section(number) => BigSection::Section(u32::from(number)),
    }
}

/// A symbol of a plain object, with a section number of 32 bits.
pub(crate) fn widened<'a>(symbol: Symbol<'a>) -> BigSymbol<'a>
    ensures { big_symbol_view result ≡ symbol_view symbol.entry }
{
    BigSymbol {
        name: symbol.name,
        value: symbol.value,
        section: wide_section(symbol.section),
        kind: symbol.kind,
        class: symbol.class,
        aux: symbol.aux,
    }
}

impl<'a> WideSymbol for Symbol<'a> {
    ghost view = { symbol_view };

    fn wide(&self) -> BigSymbol<'_> {
        widened(*self)
    }
}

impl<'a> WideSymbol for BigSymbol<'a> {
    ghost view = { big_symbol_view };

    fn wide(&self) -> BigSymbol<'_> {
        *self
    }
}
