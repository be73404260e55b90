//! Which symbols of an object are public.

ghost use Rattle.std.specs.Prelude.{◌≡◌};
ghost use Rattle.coff_read.specs.BigView.{big_symbol_view};
ghost use Rattle.coff_library.specs.PublicNames.{is_undefined, is_alias, is_public};

use coff_read::BigSymbol;
use pe_view::View;

/// Whether another object defines a symbol.
fn is_undefined(symbol: &BigSymbol) -> bool
    ensures { result ≡ is_undefined (big_symbol_view symbol.now) }
{
    symbol.section.number() == 0 && symbol.value == 0
}

/// Whether the auxiliary record of a weak external says that it is an alias.
fn is_alias(symbol: &BigSymbol) -> bool
    ensures { result ≡ is_alias (big_symbol_view symbol.now) }
{
    match View::new(symbol.aux).u32_at(4) {
        Some(search) => search == 3,
        None => false,
    }
}

/// Whether a linker looks for a symbol of an object in an archive.
pub(crate) fn is_public(symbol: &BigSymbol) -> bool
    ensures { result ≡ is_public (big_symbol_view symbol.now) }
{
    match symbol.class {
        2 => !is_undefined(symbol),
        105 => is_alias(symbol),
        _ => false,
    }
}
