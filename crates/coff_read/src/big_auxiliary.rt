//! Auxiliary symbol records of a big object: `BigAux`, whose shape depends on the symbol before them.

ghost use Rattle.std.specs.Prelude.{◌≡◌, ◌≤◌, ◌&&◌, ◌==◌, length, option_map};
ghost use Rattle.pe_view.specs.View.{bytes_of, size_of};
ghost use Rattle.coff_read.specs.Auxiliary.{defines_function};
ghost use Rattle.coff_read.specs.BigAuxiliary.{big_aux_view, big_section_of, big_aux_of, big_aux_record};
ghost use Rattle.coff_read.specs.BigView.{big_symbol_view};
ghost use Rattle.coff_read.specs.FormRecords.{aux_records};
ghost use Rattle.coff_read.specs.Forms.{Big};

use crate::auxiliary::{Aux, FUNCTION_TYPE, aux_of};
use crate::big_symbol::{BigSection, BigSymbol};
use crate::fields::{u8_in, u16_in, u32_in};
use pe_view::View;

/// The size of an auxiliary record of a big object in bytes.
const BIG_AUX_LEN: usize = 20;

/// The class of a section's symbol: STATIC.
const STATIC: u8 = 3;

/// An auxiliary record of a big object, in the shape of its symbol's class. The fields of "PE Format", Auxiliary Symbol Records, are
/// where that has them, and the record is two bytes longer: those of a section's record hold the high half of a section number.
#[derive(Clone, Copy, Debug, PartialEq, Eq)]
pub enum BigAux<'a> {
    /// After a section's symbol: class 3 STATIC.
    Section {
        /// The size of the section in bytes.
        length: u32,
        /// How many relocations it has.
        relocations: u16,
        /// How many line numbers it has.
        line_numbers: u16,
        /// The checksum of its bytes, for COMDAT sections.
        checksum: u32,
        /// The number of the associated section, for COMDAT sections.
        number: u32,
        /// The COMDAT selection number.
        selection: u8,
    },
    /// After every other symbol: the record in the shape that it has in a plain object.
    Other(Aux<'a>),
}

/// Whether a symbol defines a function.
pub(crate) fn defines_function(symbol: &BigSymbol) -> bool
    ensures { result ≡ defines_function (big_symbol_view symbol.now) }
{
    symbol.class == 2
        && symbol.kind == FUNCTION_TYPE
        && matches!(symbol.section, BigSection::Section(_))
}

/// The record of a section's symbol.
fn big_section_of<'a>(fields: View<'a>) -> BigAux<'a>
    requires { 20 ≤ size_of fields }
    ensures { big_aux_view result ≡ big_section_of (bytes_of fields.entry) }
{
    let (low, high) = (u16_in(fields, 0, 12), u16_in(fields, 0, 16));
    BigAux::Section {
        length: u32_in(fields, 0, 0),
        relocations: u16_in(fields, 0, 4),
        line_numbers: u16_in(fields, 0, 6),
        checksum: u32_in(fields, 0, 8),
        number: u32::from(low) + 0x1_0000 * u32::from(high),
        selection: u8_in(fields, 0, 14),
    }
}

/// The record in these bytes, after a symbol.
fn big_aux_of<'a>(symbol: &BigSymbol, bytes: &'a [u8]) -> BigAux<'a>
    requires { length bytes.now ≡ 20 }
    ensures { big_aux_view result ≡ big_aux_of (big_symbol_view symbol.now) bytes.now }
{
    if symbol.class == STATIC {
        return big_section_of(View::new(bytes));
    }
    BigAux::Other(aux_of(symbol.class, defines_function(symbol), bytes))
}

impl<'a> BigSymbol<'a> {
    /// How many auxiliary records the symbol has.
    pub fn aux_count(&self) -> usize
        ensures { result ≡ aux_records Big (big_symbol_view self.now) }
    {
        self.aux.len() / BIG_AUX_LEN
    }

    /// Auxiliary record `k` of the symbol, counted from 0; `None` exactly if there is no such record. Allocates nothing. ("PE
    /// Format", Auxiliary Symbol Records.)
    pub fn aux_record(&self, k: usize) -> Option<BigAux<'a>>
        ensures { option_map big_aux_view result ≡ big_aux_record (big_symbol_view self.now) k }
    {
        if k >= self.aux_count() {
            return None;
        }
        let records = self.aux;
        let start = BIG_AUX_LEN * k;
        Some(big_aux_of(self, &records[start..start + BIG_AUX_LEN]))
    }
}
