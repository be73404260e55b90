//! Auxiliary symbol records of an object of either form.

ghost use Rattle.std.specs.Prelude.{◌≡◌, option_map};
ghost use Rattle.coff_read.specs.BigAuxiliary.{big_aux_view};
ghost use Rattle.coff_read.specs.BigView.{big_symbol_view};
ghost use Rattle.coff_read.specs.FormAuxiliary.{aux_record};
ghost use Rattle.coff_read.specs.FormRecords.{aux_records};
ghost use Rattle.coff_read.specs.Forms.{Plain};

use crate::auxiliary::{AUX_LEN, aux_of};
use crate::big_auxiliary::{BigAux, defines_function};
use crate::big_symbol::BigSymbol;
use crate::either_object::EitherObject;

/// How many auxiliary records a symbol of a plain object has.
fn plain_aux_count(symbol: &BigSymbol) -> usize
    ensures { result ≡ aux_records Plain (big_symbol_view symbol.now) }
{
    symbol.aux.len() / AUX_LEN
}

/// Auxiliary record `k` of a symbol of a plain object, counted from 0.
fn plain_aux_record<'a>(symbol: &BigSymbol<'a>, k: usize) -> Option<BigAux<'a>>
    ensures { option_map big_aux_view result ≡ aux_record Plain (big_symbol_view symbol.now) k }
{
    if k >= plain_aux_count(symbol) {
        return None;
    }
    let records = symbol.aux;
    let start = AUX_LEN * k;
    let is_function = defines_function(symbol);
    let bytes = &records[start..start + AUX_LEN];
    Some(BigAux::Other(aux_of(symbol.class, is_function, bytes)))
}

/// How many auxiliary records a symbol has: of a big object, or of a plain one or an image.
pub fn aux_count(is_big: bool, symbol: &BigSymbol) -> usize
    ensures { result ≡ aux_records is_big (big_symbol_view symbol.now) }
{
    if is_big {
        symbol.aux_count()
    } else {
        plain_aux_count(symbol)
    }
}

/// Auxiliary record `k` of a symbol of a big object, or of a plain one or an image, counted from 0; `None` exactly if there is no such
/// record. Allocates nothing. ("PE Format", Auxiliary Symbol Records.)
pub fn aux_record<'a>(is_big: bool, symbol: &BigSymbol<'a>, k: usize) -> Option<BigAux<'a>>
    ensures { option_map big_aux_view result ≡ aux_record is_big (big_symbol_view symbol.now) k }
{
    if is_big {
        symbol.aux_record(k)
    } else {
        plain_aux_record(symbol, k)
    }
}

impl<'a> EitherObject<'a> {
    ghost use Rattle.coff_read.specs.EitherObject.{form_of};

    /// How many auxiliary records a symbol of the object has.
    pub fn aux_count(&self, symbol: &BigSymbol) -> usize
        ensures { result ≡ aux_records (form_of self.now) (big_symbol_view symbol.now) }
    {
        aux_count(self.is_big(), symbol)
    }

    /// Auxiliary record `k` of a symbol of the object, counted from 0; `None` exactly if there is no such record. Allocates nothing.
    /// ("PE Format", Auxiliary Symbol Records.)
    pub fn aux_record(&self, symbol: &BigSymbol<'a>, k: usize) -> Option<BigAux<'a>>
        ensures { option_map big_aux_view result ≡ aux_record (form_of self.now) (big_symbol_view symbol.now) k }
    {
        aux_record(self.is_big(), symbol, k)
    }
}
