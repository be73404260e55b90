//! Where the symbol table and the string table of an object file are; and faults 61 to 63, 67 and 68.

ghost use Rattle.std.specs.Prelude.{true, false, ◌≡◌, ◌+◌, ◌*◌, ◌≤◌, ◌<◌, ◌^◌, ℕ, is_none, nat_le, OnOk, ⊤};
ghost use Rattle.pe_view.specs.View.{bytes_of, size_of};
ghost use Rattle.pe_view.specs.Faults.{Answers};
ghost use Rattle.pe_view.specs.Text.{text_between};
ghost use Rattle.coff_read.specs.FormFaults.{header_tests, kind_tests, symbol_table_tests};
ghost use Rattle.coff_read.specs.FormReading.{section_start};
ghost use Rattle.coff_read.specs.Forms.{header_len, section_count};
ghost use Rattle.coff_read.specs.ObjectFaults.{is_other_header, string_table_tests};
ghost use Rattle.coff_read.specs.Strings.{size_field};
ghost use Rattle.coff_read.specs.TablesPlace.{AreTables};

use crate::error::file_fault;
use crate::fields::{u16_in, u32_in};
use crate::widths::{
    header_len, optional_size, section_count, sections_at, symbol_len, symbols_at,
};
use bstr::ByteSlice;
use pe_view::{Fault, View};

/// The most bytes of a file: 2^32.
const FILE_LIMIT: u64 = 0x1_0000_0000;

/// The size of a plain object's header in bytes.
pub(crate) const HEADER_LEN: u64 = 20;

/// The size of a section header in bytes.
pub(crate) const SECTION_LEN: u64 = 40;

/// The size in bytes of a symbol table record of a plain object and of an image.
pub(crate) const SYMBOL_LEN: u64 = 18;

/// The class of big objects, {D1BAA1C7-BAEE-4BA9-AF20-FAF66AA4DCB8}, as a file has it.
const BIG_CLASS: [u8; 16] = [
    0xc7, 0xa1, 0xba, 0xd1, 0xee, 0xba, 0xa9, 0x4b, 0xaf, 0x20, 0xfa, 0xf6, 0x6a, 0xa4, 0xdc, 0xb8,
];

/// Where the tables of an object file are, and how long they are.
#[derive(Clone, Copy)]
pub(crate) struct Tables {
    /// The offset of the first section header.
    pub headers: u64,
    /// The number of section headers.
    pub sections: u64,
    /// The offset of the symbol table's first record.
    pub symbols: u64,
    /// The number of records in the symbol table.
    pub records: u64,
    /// The offset of the string table's size field, after the symbols.
    pub strings: u64,
    /// The size of the string table in bytes, its size field counted.
    pub strings_size: u64,
    /// The size of the string table up to its last zero byte, that one counted: a string begins at each lower offset from 4 on.
    pub texts: u64,
}

/// Whether a header with these fields begins a file of another kind, which is fault 62.
pub fn is_other_header(machine: u16, sections: u16, time_stamp: u32) -> bool
    ensures { result ≡ is_other_header machine sections time_stamp }
{
    machine == 0x5a4d
        || (machine == 0x3c21 && sections == 0x7261 && time_stamp == 0x0a3e_6863)
        || (machine == 0 && sections == 0xffff)
}

/// Tests fault 62 of a plain object.
fn check_plain(view: View) -> Result<(), Fault>
    requires { 20 ≤ size_of view }
    ensures { Answers (kind_tests false (bytes_of view.entry)) (λ _. ⊤) result }
{
    if is_other_header(u16_in(view, 0, 0), u16_in(view, 0, 2), u32_in(view, 0, 4)) {
        return Err(file_fault(62, 0));
    }
    Ok(())
}

/// Tests fault 62 of a big object: that it begins as one, its version, and its class.
fn check_big(view: View) -> Result<(), Fault>
    requires { 56 ≤ size_of view }
    ensures { Answers (kind_tests true (bytes_of view.entry)) (λ _. ⊤) result }
{
    if u16_in(view, 0, 0) != 0 || u16_in(view, 0, 2) != 0xffff {
        return Err(file_fault(62, 0));
    }
    if u16_in(view, 0, 4) < 2 {
        return Err(file_fault(62, 4));
    }
    if view.slice(12, 16).unwrap() != BIG_CLASS.as_slice() {
        return Err(file_fault(62, 12));
    }
    Ok(())
}

/// Tests fault 62: that the file is of this form.
fn check_kind<const BIG: bool>(view: View) -> Result<(), Fault>
    requires { header_len BIG ≤ size_of view }
    ensures { Answers (kind_tests BIG (bytes_of view.entry)) (λ _. ⊤) result }
{
    if BIG {
        check_big(view)
    } else {
        check_plain(view)
    }
}

/// Tests faults 61 to 63.
pub(crate) fn check_header<const BIG: bool>(view: View) -> Result<(), Fault>
    ensures exact { Answers (header_tests BIG (bytes_of view.entry)) (λ _. ⊤) result }
    ensures header { OnOk result (header_len BIG ≤ size_of view.entry) }
    ensures fits { OnOk result (section_start BIG (bytes_of view.entry) (section_count BIG (bytes_of view.entry)) ≤ size_of view.entry) }
    ensures small { OnOk result (size_of view.entry ≤ 2 ^ 32) }
{
    let len = view.len();
    if len < header_len::<BIG>() || len > FILE_LIMIT {
        return Err(file_fault(61, len));
    }
    check_kind::<BIG>(view)?;
    let sections = section_count::<BIG>(view);
    if header_len::<BIG>() + optional_size::<BIG>(view) + SECTION_LEN * sections > len {
        return Err(file_fault(63, sections_at::<BIG>()));
    }
    Ok(())
}

/// The size in bytes of the string table at a file offset, or fault 68.
fn strings_size(view: View, start: u64) -> Result<u64, Fault>
    requires { start ≤ size_of view }
    ensures { Answers (string_table_tests (bytes_of view.entry) start) (λ size. size ≡ size_field (bytes_of view.entry) start) result }
{
    let left = view.len() - start;
    if left == 0 {
        return Ok(0);
    }
    if left < 4 {
        return Err(file_fault(68, start));
    }
    let size = u64::from(u32_in(view, start, 0));
    if (size != 0 && size < 4) || size > left {
        return Err(file_fault(68, start));
    }
    Ok(size)
}

/// The length of the `size` bytes at a file offset up to their last zero byte, that one counted: a terminated string begins at each
/// offset below it. The search goes backwards from the end.
pub(crate) fn texts_len(view: View, start: u64, size: u64) -> u64
    requires { start + size ≤ size_of view }
    ensures { (offset : ℕ) → is_none (text_between (bytes_of view.entry) (start + offset) (start + size)) ≡ nat_le result offset }
{
    let bytes = view.slice(start, size).unwrap();
    match bytes.rfind_byte(0) {
        Some(last) => last as u64 + 1,
        None => 0,
    }
}

/// Where the tables are, or fault 67 or 68.
pub(crate) fn read_tables<const BIG: bool>(view: View) -> Result<Tables, Fault>
    requires header { header_len BIG ≤ size_of view }
    requires fits { section_start BIG (bytes_of view) (section_count BIG (bytes_of view)) ≤ size_of view }
    requires small { size_of view ≤ 2 ^ 32 }
    ensures { Answers (symbol_table_tests BIG (bytes_of view.entry)) (AreTables BIG (bytes_of view.entry)) result }
{
    let headers = header_len::<BIG>() + optional_size::<BIG>(view);
    let sections = section_count::<BIG>(view);
    let at = symbols_at::<BIG>();
    let symbols = u64::from(u32_in(view, 0, at));
    if symbols == 0 {
        return Ok(Tables {
            headers,
            sections,
            symbols: 0,
            records: 0,
            strings: 0,
            strings_size: 0,
            texts: 0,
        });
    }
    let records = u64::from(u32_in(view, 0, at + 4));
    let strings = symbols + symbol_len::<BIG>() * records;
    if strings > view.len() {
        return Err(file_fault(67, at));
    }
    let strings_size = strings_size(view, strings)?;
    Ok(Tables {
        headers,
        sections,
        symbols,
        records,
        strings,
        strings_size,
        texts: texts_len(view, strings, strings_size),
    })
}
