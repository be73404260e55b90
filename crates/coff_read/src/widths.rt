//! The widths of an object's two forms, and the fields that differ by them. The parameter `BIG` of a type or function says whether
//! the object is big.

ghost use Rattle.std.specs.Prelude.{◌≡◌, ◌+◌, ◌≤◌, ◌<◌, ◌^◌};
ghost use Rattle.pe_view.specs.View.{bytes_of, size_of};
ghost use Rattle.coff_read.specs.Field.{field};
ghost use Rattle.coff_read.specs.Forms.{header_len, sections_at, symbols_at, records_at, symbol_len, kind_at, class_at, debug_number, optional_size, section_count};
ghost use Rattle.coff_read.specs.FormReading.{aux_of, number_in};

use crate::fields::{u8_in, u16_in, u32_in};
use pe_view::View;

/// The size of the header in bytes.
pub(crate) fn header_len<const BIG: bool>() -> u64
    ensures value { result ≡ header_len BIG }
    ensures some { 20 ≤ result }
    ensures few { result ≤ 56 }
{
    if BIG { 56 } else { 20 }
}

/// The size of a symbol table record in bytes.
pub(crate) fn symbol_len<const BIG: bool>() -> u64
    ensures value { result ≡ symbol_len BIG }
    ensures some { 18 ≤ result }
    ensures few { result ≤ 20 }
{
    if BIG { 20 } else { 18 }
}

/// The offset of NumberOfSections in the header.
pub(crate) fn sections_at<const BIG: bool>() -> u64
    ensures { result ≡ sections_at BIG }
{
    if BIG { 44 } else { 2 }
}

/// The offset of PointerToSymbolTable in the header; NumberOfSymbols is after it.
pub(crate) fn symbols_at<const BIG: bool>() -> u64
    ensures value { result ≡ symbols_at BIG }
    ensures inside { result + 8 ≤ header_len BIG }
    ensures next { records_at BIG ≡ result + 4 }
{
    if BIG { 48 } else { 8 }
}

/// The number of sections.
pub(crate) fn section_count<const BIG: bool>(view: View) -> u64
    requires { header_len BIG ≤ size_of view }
    ensures value { result ≡ section_count BIG (bytes_of view.entry) }
    ensures fits { result < 2 ^ 32 }
{
    if BIG {
        u64::from(u32_in(view, 0, 44))
    } else {
        u64::from(u16_in(view, 0, 2))
    }
}

/// The size of the optional header in bytes.
pub(crate) fn optional_size<const BIG: bool>(view: View) -> u64
    requires { header_len BIG ≤ size_of view }
    ensures value { result ≡ optional_size BIG (bytes_of view.entry) }
    ensures fits { result < 2 ^ 16 }
{
    if BIG {
        0
    } else {
        u64::from(u16_in(view, 0, 16))
    }
}

/// SectionNumber of the symbol whose record is at a file offset.
pub(crate) fn number_in<const BIG: bool>(view: View, at: u64) -> u32
    requires { at + symbol_len BIG ≤ size_of view }
    ensures { result ≡ number_in BIG (bytes_of view.entry) at }
{
    if BIG {
        u32_in(view, at, 12)
    } else {
        u32::from(u16_in(view, at, 12))
    }
}

/// How many auxiliary records follow the record at a file offset.
pub(crate) fn aux_in<const BIG: bool>(view: View, at: u64) -> u8
    requires { at + symbol_len BIG ≤ size_of view }
    ensures { result ≡ aux_of BIG (bytes_of view.entry) at }
{
    if BIG {
        u8_in(view, at, 19)
    } else {
        u8_in(view, at, 17)
    }
}

/// The number -2 in the width of SectionNumber.
pub(crate) fn debug_number<const BIG: bool>() -> u32
    ensures { result ≡ debug_number BIG }
{
    if BIG { 0xffff_fffe } else { 0xfffe }
}
