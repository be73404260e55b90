//! The numbers of the faults of objects: 63 to 72.

ghost use Rattle.std.specs.Prelude.{◌≡◌, ◌≤◌, ◌<◌, ◌^◌, IfSome};
ghost use Rattle.pe_view.specs.View.{bytes_of, size_of};
ghost use Rattle.coff_read.specs.EitherObject.{form_in};
ghost use Rattle.coff_read.specs.Field.{field};
ghost use Rattle.coff_read.specs.FormReading.{symbol_pointer, record_count, strings_size};
ghost use Rattle.coff_read.specs.Forms.{header_len, sections_at, symbols_at, records_at, number_width, symbol_len, aux_at, section_count};
ghost use Rattle.pe_detail.specs.ObjectDetail.{field_in, past_file, section_table, section_table_detail, raw_detail, relocations_detail, symbols_detail, strings_detail, name_detail, auxiliary_detail, section_number_detail, symbol_index_detail, record_detail, detail_in_form, object_detail};

use crate::detail::Detail;
use coff_read::is_read_as_big;
use pe_head::FaultDetail;
use pe_view::View;

/// The size of the COFF file header in bytes.
const HEADER_LEN: u64 = 20;

/// The size of the header of a big object in bytes.
const BIG_HEADER_LEN: u64 = 56;

/// The size of a section header in bytes.
const SECTION_LEN: u64 = 40;

/// The size of a relocation in bytes.
const RELOCATION_LEN: u64 = 10;

/// The size of the header of an object in bytes.
fn header_len<const BIG: bool>() -> u64
    ensures { result ≡ header_len BIG }
{
    if BIG { BIG_HEADER_LEN } else { HEADER_LEN }
}

/// The size of a symbol table record in bytes.
fn symbol_len<const BIG: bool>() -> u64
    ensures { result ≡ symbol_len BIG }
{
    if BIG { 20 } else { 18 }
}

/// The offset of PointerToSymbolTable.
fn symbols_at<const BIG: bool>() -> u64
    ensures { result ≡ symbols_at BIG }
{
    if BIG { 48 } else { 8 }
}

/// The offset of NumberOfSymbols.
fn records_at<const BIG: bool>() -> u64
    ensures { result ≡ records_at BIG }
{
    if BIG { 52 } else { 12 }
}

/// The number in a field of 1 byte, if it is in the file.
#[tactic(auto, unfolding(coff_read::specs::Field::field))]
fn u8_in(view: View, at: u64, offset: u64) -> Option<u64>
    ensures value { result ≡ field_in (bytes_of view.entry) at offset 1 }
    ensures small { IfSome result (λ number. number < 2 ^ 8) }
{
    let bytes = view.slice(at.checked_add(offset)?, 1)?;
    Some(bytes[0] as u64)
}

/// The number in a field of 2 bytes, if it is in the file.
#[tactic(auto, unfolding(coff_read::specs::Field::field))]
fn u16_in(view: View, at: u64, offset: u64) -> Option<u64>
    ensures value { result ≡ field_in (bytes_of view.entry) at offset 2 }
    ensures small { IfSome result (λ number. number < 2 ^ 16) }
{
    let number = view.u16_at(at.checked_add(offset)?)?;
    Some(number as u64)
}

/// The number in a field of 4 bytes, if it is in the file.
#[tactic(auto, unfolding(coff_read::specs::Field::field))]
fn u32_in(view: View, at: u64, offset: u64) -> Option<u64>
    ensures value { result ≡ field_in (bytes_of view.entry) at offset 4 }
    ensures small { IfSome result (λ number. number < 2 ^ 32) }
{
    let number = view.u32_at(at.checked_add(offset)?)?;
    Some(number as u64)
}

/// The numbers of `count` records of `width` bytes at an offset, which extend past the end of a file of `size` bytes.
fn past_file(size: u64, width: u64, count: Option<u64>, offset: Option<u64>) -> Option<Detail>
    requires narrow { width < 2 ^ 8 }
    requires few { IfSome count (λ records. records < 2 ^ 32) }
    ensures { result ≡ past_file size width count offset }
{
    let records = count?;
    let offset = offset?;
    Some(Detail::Head(FaultDetail::PastFile {
        size: width * records,
        offset,
        file_size: size,
    }))
}

/// The number of sections or a section number: a field of 2 bytes, and of 4 bytes of a big object, if it is in the file.
fn number_in<const BIG: bool>(view: View, at: u64, offset: u64) -> Option<u64>
    ensures value { result ≡ field_in (bytes_of view.entry) at offset (number_width BIG) }
    ensures small { IfSome result (λ number. number < 2 ^ 32) }
{
    if BIG {
        u32_in(view, at, offset)
    } else {
        u16_in(view, at, offset)
    }
}

/// Where the section table begins, if its header says so.
fn section_table<const BIG: bool>(view: View) -> Option<u64>
    ensures value { result ≡ section_table BIG (bytes_of view.entry) }
    ensures small { IfSome result (λ at. at < 2 ^ 32) }
{
    if BIG {
        return Some(BIG_HEADER_LEN);
    }
    match u16_in(view, 0, 16) {
        Some(optional) => Some(HEADER_LEN + optional),
        None => None,
    }
}

/// The numbers of fault 63.
fn section_table_detail<const BIG: bool>(view: View, size: u64) -> Option<Detail>
    ensures { result ≡ section_table_detail BIG (bytes_of view.entry) size }
{
    let at = if BIG { 44 } else { 2 };
    let count = number_in::<BIG>(view, 0, at);
    past_file(size, SECTION_LEN, count, section_table::<BIG>(view))
}

/// The numbers of fault 64.
fn raw_detail(view: View, size: u64, header: u64) -> Option<Detail>
    ensures { result ≡ raw_detail (bytes_of view.entry) size header }
{
    past_file(size, 1, u32_in(view, header, 16), u32_in(view, header, 20))
}

/// The numbers of fault 66.
fn relocations_detail(view: View, size: u64, header: u64) -> Option<Detail>
    ensures { result ≡ relocations_detail (bytes_of view.entry) size header }
{
    let count = u16_in(view, header, 32);
    past_file(size, RELOCATION_LEN, count, u32_in(view, header, 24))
}

/// The numbers of fault 67.
fn symbols_detail<const BIG: bool>(view: View, size: u64) -> Option<Detail>
    ensures { result ≡ symbols_detail BIG (bytes_of view.entry) size }
{
    let count = u32_in(view, 0, records_at::<BIG>());
    let begin = u32_in(view, 0, symbols_at::<BIG>());
    past_file(size, symbol_len::<BIG>(), count, begin)
}

/// The numbers of fault 68.
fn strings_detail(view: View, size: u64, at: u64) -> Detail
    ensures { result ≡ strings_detail (bytes_of view.entry) size at }
{
    let stated = match u32_in(view, at, 0) {
        Some(stated) if stated < 4 => return Detail::TableSize(stated),
        Some(stated) => stated,
        None => 4,
    };
    Detail::Head(FaultDetail::PastFile {
        size: stated,
        offset: at,
        file_size: size,
    })
}

/// The number of sections.
fn section_count<const BIG: bool>(view: View) -> u64
    requires { header_len BIG ≤ size_of view }
    ensures value { result ≡ section_count BIG (bytes_of view.entry) }
    ensures small { result < 2 ^ 32 }
{
    let at = if BIG { 44 } else { 2 };
    number_in::<BIG>(view, 0, at).unwrap()
}

/// The file offset of the symbol table, or 0.
fn symbol_pointer<const BIG: bool>(view: View) -> u64
    requires { header_len BIG ≤ size_of view }
    ensures value { result ≡ symbol_pointer BIG (bytes_of view.entry) }
    ensures small { result < 2 ^ 32 }
{
    u32_in(view, 0, symbols_at::<BIG>()).unwrap()
}

/// The number of records of the symbol table: none if PointerToSymbolTable is 0.
fn record_count<const BIG: bool>(view: View) -> u64
    requires { header_len BIG ≤ size_of view }
    ensures value { result ≡ record_count BIG (bytes_of view.entry) }
    ensures small { result < 2 ^ 32 }
{
    if symbol_pointer::<BIG>(view) == 0 {
        0
    } else {
        u32_in(view, 0, records_at::<BIG>()).unwrap()
    }
}

/// The size that the string table states: 0 if there is none.
fn strings_size<const BIG: bool>(view: View) -> u64
    requires { header_len BIG ≤ size_of view }
    ensures { result ≡ strings_size BIG (bytes_of view.entry) }
{
    let pointer = symbol_pointer::<BIG>(view);
    if pointer == 0 {
        return 0;
    }
    let start = pointer + symbol_len::<BIG>() * record_count::<BIG>(view);
    u32_in(view, start, 0).unwrap_or(0)
}

/// The numbers of fault 69 of a symbol, whose first four bytes are 0, unlike those of a section's name that tells an offset.
fn name_detail<const BIG: bool>(view: View, at: u64) -> Option<Detail>
    requires { header_len BIG ≤ size_of view }
    ensures { result ≡ name_detail BIG (bytes_of view.entry) at }
{
    if u32_in(view, at, 0)? != 0 {
        return None;
    }
    let offset = u32_in(view, at, 4)?;
    Some(Detail::NameOffset {
        offset,
        size: strings_size::<BIG>(view),
    })
}

/// The numbers of fault 70.
fn auxiliary_detail<const BIG: bool>(view: View, at: u64) -> Option<Detail>
    requires { header_len BIG ≤ size_of view }
    ensures { result ≡ auxiliary_detail BIG (bytes_of view.entry) at }
{
    let offset = if BIG { 19 } else { 17 };
    let count = u8_in(view, at, offset)?;
    let record = at.saturating_sub(symbol_pointer::<BIG>(view)) / symbol_len::<BIG>();
    Some(Detail::Auxiliary {
        count,
        left: record_count::<BIG>(view).saturating_sub(record + 1),
    })
}

/// The numbers of fault 71.
fn section_number_detail<const BIG: bool>(view: View, at: u64) -> Option<Detail>
    requires { header_len BIG ≤ size_of view }
    ensures { result ≡ section_number_detail BIG (bytes_of view.entry) at }
{
    let index = number_in::<BIG>(view, at, 12)?;
    Some(Detail::Index {
        index,
        count: section_count::<BIG>(view),
    })
}

/// The numbers of fault 72.
fn symbol_index_detail<const BIG: bool>(view: View, at: u64) -> Option<Detail>
    requires { header_len BIG ≤ size_of view }
    ensures { result ≡ symbol_index_detail BIG (bytes_of view.entry) at }
{
    let index = u32_in(view, at, 4)?;
    Some(Detail::Index {
        index,
        count: record_count::<BIG>(view),
    })
}

/// The numbers of a fault at an offset of an object's file in a form, which has `size` bytes.
fn detail_in_form<const BIG: bool>(view: View, size: u64, number: u16, at: u64) -> Option<Detail>
    ensures { result ≡ detail_in_form BIG (bytes_of view.entry) size number at }
{
    if view.len() < header_len::<BIG>() {
        return None;
    }
    match number {
        63 => section_table_detail::<BIG>(view, size),
        64 => raw_detail(view, size, at),
        66 => relocations_detail(view, size, at),
        67 => symbols_detail::<BIG>(view, size),
        68 => Some(strings_detail(view, size, at)),
        69 => name_detail::<BIG>(view, at),
        70 => auxiliary_detail::<BIG>(view, at),
        71 => section_number_detail::<BIG>(view, at),
        72 => symbol_index_detail::<BIG>(view, at),
        _ => None,
    }
}

/// The numbers of a fault at an offset of an object's file, which has `size` bytes, in the form that it is read in. Of other files than
/// objects there are none.
pub(crate) fn object_detail(view: View, size: u64, number: u16, at: u64) -> Option<Detail>
    ensures { result ≡ object_detail (bytes_of view.entry) size number at }
{
    if is_read_as_big(view) {
        detail_in_form::<true>(view, size, number, at)
    } else {
        detail_in_form::<false>(view, size, number, at)
    }
}
