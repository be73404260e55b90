//! `signed_parts`: the bytes of an image's file that an Authenticode signature signs.

ghost use Rattle.std.specs.Prelude.{◌≡◌, ◌+◌, ◌^◌, ◌<◌, option_map, slice_get, None, Some, if◌then◌else◌};
ghost use Rattle.pe_view.specs.View.{bytes_of, size_of};
ghost use Rattle.pe_head.specs.Optional.{fixed_size_of};
ghost use Rattle.pe_trust.specs.SignedBytes.{Gaps, ascending_sections, authenticode_bytes, check_sum_place, directory_place, gaps_by, gaps_in, gaps_of, gaps_view, is_unambiguous, parts_view};

use crate::raw_data::raw_data_end;
use crate::table::is_absent;
use pe_head::{Directory, Headers, Magic, directory_index};
use pe_view::View;

/// What a signature leaves out behind CheckSum, by file offsets: the entry of directory 4, and the certificate table.
#[derive(Clone, Copy)]
pub(crate) struct LeftOut {
    entry: u64,
    entry_end: u64,
    table: u64,
    table_end: u64,
}

/// The bytes that a signature signs, one behind the other.
#[derive(Clone, Copy)]
pub(crate) struct Parts<'a> {
    pub(crate) first: &'a [u8],
    pub(crate) second: &'a [u8],
    pub(crate) third: &'a [u8],
}

/// Where the entry of directory 4 stands in the file.
pub(crate) fn entry_place(pe_offset: u32, magic: Magic) -> u64
    ensures value { result ≡ pe_offset + 24 + fixed_size_of magic + 32 }
    ensures fits { result < 2 ^ 33 }
{
    let start = u64::from(pe_offset);
    match magic {
        Magic::Pe32 => start + 152,
        Magic::Pe32Plus => start + 168,
    }
}

/// What is left out of a file whose headers hold directory 4.
fn left_out_by(len: u64, entry: u64, table: Directory) -> LeftOut
    requires { entry < 2 ^ 33 }
    ensures { gaps_view result ≡ gaps_by len entry table }
{
    let start = u64::from(table.rva);
    let is_absent = is_absent(table);
    LeftOut {
        entry,
        entry_end: entry + 8,
        table: if is_absent { len } else { start },
        table_end: if is_absent {
            len
        } else {
            start + u64::from(table.size)
        },
    }
}

/// What is left out behind CheckSum.
fn left_out(len: u64, headers: &Headers) -> LeftOut
    ensures { gaps_view result ≡ gaps_of len headers.now (slice_get headers.now.directories.items 4) }
{
    let Some(table) = headers
        .directories
        .as_slice()
        .get(directory_index::CERTIFICATE)
    else {
        let end = u64::from(headers.pe_offset) + 92;
        return LeftOut {
            entry: end,
            entry_end: end,
            table: len,
            table_end: len,
        };
    };
    left_out_by(len, entry_place(headers.pe_offset, headers.magic), *table)
}

/// What is left out behind CheckSum of a file of some bytes, or `None` if what a signature signs is ambiguous: if the entry of directory 4
/// is not in the headers, raw data do not follow the headers without a gap or an overlap, or the certificate table is not behind them at
/// the end of the file.
pub(crate) fn gaps_if_unambiguous(len: u64, headers: &Headers) -> Option<LeftOut>
    ensures { option_map gaps_view result ≡ if is_unambiguous len headers.now (gaps_in len headers.now) (ascending_sections headers.now)
        then Some (gaps_in len headers.now) else None }
{
    let gaps = left_out(len, headers);
    let end = raw_data_end(headers)?;
    if gaps.entry_end > u64::from(headers.size_of_headers)
        || end > gaps.table
        || gaps.table_end != len
    {
        return None;
    }
    Some(gaps)
}

/// The bytes that a signature of an image's file signs: the file without CheckSum, the entry of directory 4, and the certificate table.
/// `None` if what a signature signs is ambiguous.
pub(crate) fn signed_parts<'a>(file: View<'a>, headers: &Headers) -> Option<Parts<'a>>
    ensures { option_map parts_view result ≡ authenticode_bytes (bytes_of file.entry) headers.now }
{
    let gaps = gaps_if_unambiguous(file.len(), headers)?;
    let field = u64::from(headers.pe_offset) + 88;
    Some(Parts {
        first: file.slice(0, field).unwrap(),
        second: file.slice(field + 4, gaps.entry - (field + 4)).unwrap(),
        third: file
            .slice(gaps.entry_end, gaps.table - gaps.entry_end)
            .unwrap(),
    })
}
