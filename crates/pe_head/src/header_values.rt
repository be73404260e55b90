//! The values of the faults of the MS-DOS header, the COFF header and the optional header: 4 and 7 to 12.

ghost use Rattle.std.specs.Prelude.{◌≡◌, IsTrue};
ghost use Rattle.pe_view.specs.View.{bytes_of};
ghost use Rattle.pe_head.specs.Head.{magic_of};
ghost use Rattle.pe_head.specs.FaultDetail.{holds_optional, signature_detail, directories_detail, optional_size_detail, optional_end_detail, sections_detail, table_end_detail, image_size_detail, headers_detail, header_detail};

use crate::beginning::{Beginning, holds_optional, optional_start};
use crate::detail::FaultDetail;
use crate::fields::{u16_in, u32_in};
use crate::offsets::{SECTION_HEADER_SIZE, SIGNATURE_OFFSET};
use crate::optional::Magic;
use pe_view::View;

/// The values of fault 4.
fn signature_detail(first: View, file_size: u64) -> Option<FaultDetail>
    ensures { result ≡ signature_detail (bytes_of first.entry) file_size }
{
    if first.len() < 64 {
        return None;
    }
    let offset = u64::from(u32_in(first, SIGNATURE_OFFSET));
    Some(FaultDetail::Signature { offset, file_size })
}

/// The form of the optional header, by Magic. Every value but that of PE32 counts as PE32+; fault 6 refuses the others.
fn magic(first: View) -> Magic
    requires { IsTrue (holds_optional (bytes_of first) 2) }
    ensures { result ≡ magic_of (bytes_of first.entry) }
{
    match u16_in(first, optional_start(first)) {
        0x10b => Magic::Pe32,
        _ => Magic::Pe32Plus,
    }
}

/// The values of fault 7 if the directories do not fit.
fn directories_detail(first: View, magic: Magic) -> Option<FaultDetail>
    requires { magic ≡ magic_of (bytes_of first) }
    ensures { result ≡ directories_detail (bytes_of first.entry) }
{
    let fixed = magic.fixed_size();
    if !holds_optional(first, fixed) {
        return None;
    }
    let beginning = Beginning::new(first, fixed);
    let count = u64::from(u32_in(first, beginning.start + fixed - 4).min(16));
    Some(FaultDetail::Directories {
        size: beginning.optional_size(),
        count,
        needed: fixed + 8 * count,
    })
}

/// The values of fault 7.
fn optional_size_detail(first: View) -> Option<FaultDetail>
    ensures { result ≡ optional_size_detail (bytes_of first.entry) }
{
    if !holds_optional(first, 2) {
        return None;
    }
    let magic = magic(first);
    let size = Beginning::new(first, 2).optional_size();
    let needed = magic.fixed_size();
    if size < needed {
        return Some(FaultDetail::FixedFields { size, needed });
    }
    directories_detail(first, magic)
}

/// The values of fault 8.
fn optional_end_detail(first: View, file_size: u64) -> Option<FaultDetail>
    ensures { result ≡ optional_end_detail (bytes_of first.entry) file_size }
{
    if !holds_optional(first, 0) {
        return None;
    }
    let beginning = Beginning::new(first, 0);
    Some(FaultDetail::PastFile {
        size: beginning.optional_size(),
        offset: beginning.start,
        file_size,
    })
}

/// The values of fault 9.
fn sections_detail(first: View) -> Option<FaultDetail>
    ensures { result ≡ sections_detail (bytes_of first.entry) }
{
    if !holds_optional(first, 0) {
        return None;
    }
    Some(FaultDetail::NumberOfSections(Beginning::new(first, 0).section_count()))
}

/// The values of fault 10.
fn table_end_detail(first: View, file_size: u64) -> Option<FaultDetail>
    ensures { result ≡ table_end_detail (bytes_of first.entry) file_size }
{
    if !holds_optional(first, 0) {
        return None;
    }
    let beginning = Beginning::new(first, 0);
    Some(FaultDetail::PastFile {
        size: SECTION_HEADER_SIZE * beginning.section_count(),
        offset: beginning.table_start(),
        file_size,
    })
}

/// The values of fault 11.
fn image_size_detail(first: View) -> Option<FaultDetail>
    ensures { result ≡ image_size_detail (bytes_of first.entry) }
{
    if !holds_optional(first, 60) {
        return None;
    }
    Some(FaultDetail::SizeOfImage(Beginning::new(first, 60).size_of_image()))
}

/// The values of fault 12: where the headers end, and the first of the three ends that breaks the rule.
fn headers_detail(first: View, file_size: u64) -> Option<FaultDetail>
    ensures { result ≡ headers_detail (bytes_of first.entry) file_size }
{
    if !holds_optional(first, 64) {
        return None;
    }
    let beginning = Beginning::new(first, 64);
    let end = beginning.size_of_headers();
    let table_end = beginning.table_end();
    if end < table_end {
        Some(FaultDetail::SectionTable { end, table_end })
    } else if end > file_size {
        Some(FaultDetail::PastFile {
            size: end,
            offset: 0,
            file_size,
        })
    } else {
        let image_end = beginning.size_of_image();
        Some(FaultDetail::HeadersEnd { end, image_end })
    }
}

/// The values of a fault of the headers.
pub(crate) fn header_detail(first: View, file_size: u64, number: u16) -> Option<FaultDetail>
    ensures { result ≡ header_detail (bytes_of first.entry) file_size number }
{
    match number {
        4 => signature_detail(first, file_size),
        7 => optional_size_detail(first),
        8 => optional_end_detail(first, file_size),
        9 => sections_detail(first),
        10 => table_end_detail(first, file_size),
        11 => image_size_detail(first),
        12 => headers_detail(first, file_size),
        _ => None,
    }
}
