//! `RichRecord` and `RichPairRow`: the Rich header and its pairs, as C has them.

ghost use Rattle.std.specs.Prelude.{◌≡◌, map};
ghost use Rattle.pe_view.specs.View.{bytes_of};
ghost use Rattle.pe_records_c.specs.Rows.{TellsTable};
ghost use Rattle.c_tables.specs.Told.{TellsRecord};
ghost use Rattle.pe_trust.specs.RichView.{pair_view, rich_view};
ghost use Rattle.c_tables.specs.RichRows.{pair_item, pair_row, pairs_by, rich_pairs, rich_told};

use crate::items::{Items, put_items};
use crate::told::put_record;
use pe_head::Headers;
use pe_records_c::row::{Row, put_table};
use pe_trust::{RichHeader, RichPair, rich_header};
use pe_view::View;

/// The Rich header, which says with which tools of Microsoft an image was made.
#[repr(C)]
#[derive(Clone, Copy)]
pub struct RichRecord {
    /// The file offset of `DanS`, with which it begins.
    pub offset: u64,
    /// The key, with which all of it is exclusive-or'ed.
    pub key: u32,
    /// What the key is to be: a sum of the bytes before the header and of its pairs.
    pub computed: u32,
}

/// How many of an image's objects one version of a tool made.
#[repr(C)]
#[derive(Clone, Copy)]
pub struct RichPairRow {
    /// The number of the tool.
    pub product: u16,
    /// The number of its build.
    pub build: u16,
    /// How many objects it made.
    pub count: u32,
}

impl Row<RichPair> for RichPairRow {
    ghost tells = { λ item row. row ≡ pair_row (pair_view item) };

    fn of(item: &RichPair) -> Self {
        RichPairRow {
            product: item.product,
            build: item.build,
            count: item.count,
        }
    }
}

/// The pairs of a Rich header.
#[derive(Drop)]
struct Pairs<'a> {
    header: RichHeader<'a>,
}

impl<'a> Items<RichPair> for Pairs<'a> {
    ghost items = { λ p. map pair_item (pairs_by (bytes_of p.header.file) (rich_view p.header)) };

    fn count(&self) -> u32 {
        self.header.len()
    }

    fn item(&self, index: u32) -> Option<RichPair> {
        self.header.get(index)
    }
}

/// The Rich header of an image's file as C has it, if there is one.
fn rich_in(file: View, headers: &Headers) -> Option<RichRecord>
    ensures { result ≡ rich_told (bytes_of file.entry) headers.now }
{
    match rich_header(file, headers) {
        Some(header) => Some(RichRecord {
            offset: header.offset(),
            key: header.key(),
            computed: header.check_sum(),
        }),
        None => None,
    }
}

/// Stores the Rich header of an image's file, and returns the status: 0, or 3 if it has none, which leaves the record unchanged.
pub fn tell_rich(file: View, headers: &Headers, rich: &mut RichRecord) -> u32
    ensures { TellsRecord (λ r. r) (rich_told (bytes_of file.entry) headers.now) rich.old rich.new result }
{
    put_record(rich_in(file, headers), rich)
}

/// Reports the pairs of the Rich header of an image's file: fills the rows, counts the pairs, and returns the status, 0 or 4. Without a
/// Rich header there are none.
pub fn tell_rich_pairs(
    file: View,
    headers: &Headers,
    rows: &mut [RichPairRow],
    count: &mut usize,
) -> u32
    ensures { TellsTable (λ row. row) pair_row (rich_pairs (bytes_of file.entry) headers.now) rows.old rows.new count.new result }
{
    match rich_header(file, headers) {
        Some(header) => put_items(rows, &Pairs { header }, count),
        None => put_table::<RichPair, RichPairRow>(rows, &[], count),
    }
}
