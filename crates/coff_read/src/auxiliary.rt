//! Auxiliary symbol records: `Aux`, whose shape depends on the symbol before them.

ghost use Rattle.std.specs.Prelude.{◌≡◌, ◌≤◌, ◌&&◌, ◌==◌, length, option_map};
ghost use Rattle.pe_view.specs.View.{bytes_of, size_of};
ghost use Rattle.coff_read.specs.Auxiliary.{aux_in, aux_of, aux_record, defines_function, function_of, section_of};
ghost use Rattle.coff_read.specs.AuxiliaryView.{aux_view};
ghost use Rattle.coff_read.specs.ObjectView.{object_view, symbol_view};
ghost use Rattle.coff_read.specs.Records as format;
ghost use Rattle.coff_read.specs.Records.{aux_records};

use crate::fields::{u8_in, u16_in, u32_in};
use crate::names::up_to_zero;
use crate::object::Object;
use crate::symbol::{Symbol, SymbolSection};
use pe_view::View;
use std::alloc::Allocator;

/// The size of an auxiliary record in bytes.
pub(crate) const AUX_LEN: usize = 18;

/// The type of a function symbol.
pub(crate) const FUNCTION_TYPE: u16 = 0x20;

/// An auxiliary record ("PE Format", Auxiliary Symbol Records), in the shape of its symbol's class.
#[derive(Clone, Copy, Debug, PartialEq, Eq)]
pub enum Aux<'a> {
    /// After a function's definition: class 2 EXTERNAL, type 0x20, a section's number.
    Function {
        /// The index of the record of the function's `.bf`.
        tag_index: u32,
        /// The size of the function in bytes.
        total_size: u32,
        /// The file offset of its line numbers.
        pointer_to_linenumber: u32,
        /// The index of the record of the next function.
        pointer_to_next_function: u32,
    },
    /// After `.bf` and `.ef`: class 101 FUNCTION.
    Lines {
        /// The line in the source.
        line: u16,
        /// The index of the record of the next function's `.bf`.
        next: u32,
    },
    /// After a weak external: class 105 WEAK_EXTERNAL.
    Weak {
        /// The index of the record of the symbol that replaces it if it is not defined.
        tag_index: u32,
        /// 1 no library is searched for it, 2 libraries are searched, 3 it is an alias.
        search: u32,
    },
    /// After `.file`: class 103 FILE.
    File {
        /// The record's bytes up to its first zero byte.
        name: &'a [u8],
    },
    /// After a section's symbol: class 3 STATIC.
    Section {
        /// The size of the section in bytes.
        length: u32,
        /// How many relocations it has.
        relocations: u16,
        /// How many line numbers it has.
        line_numbers: u16,
        /// The checksum of its bytes, for COMDAT sections.
        checksum: u32,
        /// The number of the associated section, for COMDAT sections.
        number: u16,
        /// The COMDAT selection number.
        selection: u8,
    },
    /// After every other symbol.
    Raw {
        /// The record's bytes: 18, and 20 of a big object.
        bytes: &'a [u8],
    },
}

/// Whether a symbol defines a function.
fn defines_function(symbol: &Symbol) -> bool
    ensures { result ≡ defines_function (symbol_view symbol.now) }
{
    symbol.class == 2
        && symbol.kind == FUNCTION_TYPE
        && matches!(symbol.section, SymbolSection::Section(_))
}

/// The record of a function's definition.
fn function_of<'a>(fields: View<'a>) -> Aux<'a>
    requires { 18 ≤ size_of fields }
    ensures { aux_view result ≡ function_of (bytes_of fields.entry) }
{
    Aux::Function {
        tag_index: u32_in(fields, 0, 0),
        total_size: u32_in(fields, 0, 4),
        pointer_to_linenumber: u32_in(fields, 0, 8),
        pointer_to_next_function: u32_in(fields, 0, 12),
    }
}

/// The record of a section's symbol.
fn section_of<'a>(fields: View<'a>) -> Aux<'a>
    requires { 18 ≤ size_of fields }
    ensures { aux_view result ≡ section_of (bytes_of fields.entry) }
{
    Aux::Section {
        length: u32_in(fields, 0, 0),
        relocations: u16_in(fields, 0, 4),
        line_numbers: u16_in(fields, 0, 6),
        checksum: u32_in(fields, 0, 8),
        number: u16_in(fields, 0, 12),
        selection: u8_in(fields, 0, 14),
    }
}

/// The record in these bytes, after a symbol of this class, which defines a function or not.
pub(crate) fn aux_of<'a>(class: u8, is_function: bool, bytes: &'a [u8]) -> Aux<'a>
    requires { 18 ≤ length bytes.now }
    ensures { (symbol : format.Symbol) → symbol.class ≡ class → defines_function symbol ≡ is_function → aux_view result ≡ aux_of symbol bytes.now }
{
    let fields = View::new(bytes);
    match class {
        103 => Aux::File {
            name: up_to_zero(bytes),
        },
        105 => Aux::Weak {
            tag_index: u32_in(fields, 0, 0),
            search: u32_in(fields, 0, 4),
        },
        3 => section_of(fields),
        101 => Aux::Lines {
            line: u16_in(fields, 0, 4),
            next: u32_in(fields, 0, 12),
        },
        _ if is_function => function_of(fields),
        _ => Aux::Raw { bytes },
    }
}

impl<'a> Symbol<'a> {
    /// How many auxiliary records the symbol has.
    pub fn aux_count(&self) -> usize
        ensures { result ≡ aux_records (symbol_view self.now) }
    {
        self.aux.len() / AUX_LEN
    }

    /// Auxiliary record `k` of the symbol, counted from 0; `None` exactly if there is no such record. Allocates nothing. ("PE
    /// Format", Auxiliary Symbol Records.)
    pub fn aux_record(&self, k: usize) -> Option<Aux<'a>>
        ensures { option_map aux_view result ≡ aux_record (symbol_view self.now) k }
    {
        if k >= self.aux_count() {
            return None;
        }
        let records = self.aux;
        let start = AUX_LEN * k;
        let is_function = defines_function(self);
        let bytes = &records[start..start + AUX_LEN];
        Some(aux_of(self.class, is_function, bytes))
    }
}

impl<'a, A: Allocator> Object<'a, A> {
    /// Auxiliary record `k` of a symbol, the symbol counted among [`Object::symbols`] and the record among the symbol's own, both
    /// from 0; `None` exactly if there is no such record. Allocates nothing. ("PE Format", Auxiliary Symbol Records.)
    pub fn aux_view(&self, symbol: usize, k: usize) -> Option<Aux<'a>>
        ensures { option_map aux_view result ≡ aux_in (object_view self.now) symbol k }
    {
        self.symbols.as_slice().get(symbol)?.aux_record(k)
    }
}
