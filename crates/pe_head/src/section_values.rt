//! The values of the faults of section headers: 13 to 15.

ghost use Rattle.std.specs.Prelude.{◌≡◌, ◌+◌, ◌<◌, ◌^◌, IsTrue};
ghost use Rattle.pe_head.specs.Section.{extent};
ghost use Rattle.pe_view.specs.View.{bytes_of};
ghost use Rattle.pe_head.specs.Head.{section_start};
ghost use Rattle.pe_head.specs.FaultDetail.{holds_optional, section_index, raw_data_detail, section_end_detail, section_begin_detail, section_detail};

use crate::beginning::{Beginning, holds_optional, holds_section, section_in};
use crate::detail::FaultDetail;
use crate::offsets::SECTION_HEADER_SIZE;
use crate::section::SectionHeader;
use pe_view::View;

/// The RVA at which a section ends.
fn end_of(section: &SectionHeader) -> u64
    ensures { result ≡ section.now.virtual_address + extent section.now }
{
    u64::from(section.virtual_address) + u64::from(section.extent())
}

/// The values of fault 13 of section `index`.
fn raw_data_detail(first: View, file_size: u64, index: u64) -> Option<FaultDetail>
    requires { section_start (bytes_of first) index < 2 ^ 64 }
    ensures { result ≡ raw_data_detail (bytes_of first.entry) file_size index }
{
    if !holds_section(first, index) {
        return None;
    }
    let section = section_in(first, index);
    Some(FaultDetail::PastFile {
        size: u64::from(section.rawlen()),
        offset: u64::from(section.pointer_to_raw_data),
        file_size,
    })
}

/// The values of fault 14 of section `index`.
fn section_end_detail(first: View, index: u64) -> Option<FaultDetail>
    requires { section_start (bytes_of first) index < 2 ^ 64 }
    ensures { result ≡ section_end_detail (bytes_of first.entry) index }
{
    if !holds_section(first, index) {
        return None;
    }
    Some(FaultDetail::SectionEnd {
        end: end_of(&section_in(first, index)),
        image_end: Beginning::new(first, 64).size_of_image(),
    })
}

/// The values of fault 15 of section `index`: where it begins, and the end of the headers or of the previous section.
fn section_begin_detail(first: View, index: u64) -> Option<FaultDetail>
    requires { section_start (bytes_of first) index < 2 ^ 64 }
    ensures { result ≡ section_begin_detail (bytes_of first.entry) index }
{
    if !holds_section(first, index) {
        return None;
    }
    let begin = u64::from(section_in(first, index).virtual_address);
    let headers_end = Beginning::new(first, 64).size_of_headers();
    if begin < headers_end {
        return Some(FaultDetail::InHeaders { begin, headers_end });
    }
    if index == 0 {
        return None;
    }
    let section_end = end_of(&section_in(first, index - 1));
    Some(FaultDetail::InSection { begin, section_end })
}

/// The index of the section whose header is at a file offset.
fn section_index(first: View, offset: u64) -> u64
    requires { IsTrue (holds_optional (bytes_of first) 64) }
    ensures value { result ≡ section_index (bytes_of first.entry) offset }
    ensures small { section_start (bytes_of first.entry) result < 2 ^ 64 }
{
    offset.saturating_sub(Beginning::new(first, 64).table_start()) / SECTION_HEADER_SIZE
}

/// The values of a fault of the section header at a file offset.
pub(crate) fn section_detail(
    first: View,
    file_size: u64,
    number: u16,
    offset: u64,
) -> Option<FaultDetail>
    ensures { result ≡ section_detail (bytes_of first.entry) file_size number offset }
{
    if !holds_optional(first, 64) {
        return None;
    }
    let index = section_index(first, offset);
    match number {
        13 => raw_data_detail(first, file_size, index),
        14 => section_end_detail(first, index),
        15 => section_begin_detail(first, index),
        _ => None,
    }
}
