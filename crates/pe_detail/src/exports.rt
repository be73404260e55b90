//! The numbers of the faults of exports: 16 to 22.

ghost use Rattle.std.specs.Prelude.{◌≡◌, ◌<◌, ◌^◌};
ghost use Rattle.pe_layout.specs.Layout.{image_of};
ghost use Rattle.pe_detail.specs.ExportDetail.{table_bytes, tables_detail, count_detail, pointer_detail, ordinal_detail, address_detail, forwarder_detail, export_detail_in, export_detail};

use crate::detail::Detail;
use crate::numbers::{no_text, past_image, u16_in, u32_in};
use pe_head::directory_index;
use pe_layout::Layout;

/// The most entries of an export address table, and of a name pointer table.
const ENTRY_LIMIT: u64 = 65_536;

/// The size of the export directory table in bytes.
const TABLE_LEN: u64 = 40;

/// The numbers of fault 17 for a table whose RVA and whose count are at these places.
fn table_bytes(layout: &Layout, at: u64, count: u64, width: u64) -> Option<Detail>
    requires { width < 2 ^ 8 }
    ensures { result ≡ table_bytes (image_of layout.now) at count width }
{
    let rva = u32_in(layout, at)?;
    let entries = u32_in(layout, count)?;
    Some(past_image(layout, rva, width * entries))
}

/// The numbers of fault 17 at an RVA field of the export directory table at `table`.
fn tables_detail(layout: &Layout, table: u64, at: u64) -> Option<Detail>
    requires { table < 2 ^ 32 }
    ensures { result ≡ tables_detail (image_of layout.now) table at }
{
    if at == table + 28 {
        table_bytes(layout, at, table + 20, 4)
    } else if at == table + 32 {
        table_bytes(layout, at, table + 24, 4)
    } else {
        table_bytes(layout, at, table + 24, 2)
    }
}

/// The numbers of fault 18.
fn count_detail(layout: &Layout, at: u64) -> Option<Detail>
    ensures { result ≡ count_detail (image_of layout.now) at }
{
    let count = u32_in(layout, at)?;
    Some(Detail::Limit {
        count,
        limit: ENTRY_LIMIT,
    })
}

/// The numbers of fault 19.
fn pointer_detail(layout: &Layout, at: u64) -> Option<Detail>
    ensures { result ≡ pointer_detail (image_of layout.now) at }
{
    let rva = u32_in(layout, at)?;
    Some(no_text(layout, rva))
}

/// The numbers of fault 20.
fn ordinal_detail(layout: &Layout, table: u64, at: u64) -> Option<Detail>
    requires { table < 2 ^ 32 }
    ensures { result ≡ ordinal_detail (image_of layout.now) table at }
{
    let index = u16_in(layout, at)?;
    let count = u32_in(layout, table + 20)?;
    Some(Detail::Index { index, count })
}

/// The numbers of fault 21.
fn address_detail(layout: &Layout, at: u64) -> Option<Detail>
    ensures { result ≡ address_detail (image_of layout.now) at }
{
    let rva = u32_in(layout, at)?;
    Some(Detail::Outside {
        rva,
        image_end: layout.size() as u64,
    })
}

/// The numbers of fault 22.
fn forwarder_detail(layout: &Layout, at: u64) -> Option<Detail>
    ensures { result ≡ forwarder_detail (image_of layout.now) at }
{
    let rva = u32_in(layout, at)?;
    match layout.name_at(rva as u32) {
        Some(text) => Some(Detail::Forwarder {
            rva,
            length: text.len() as u64,
        }),
        None => Some(no_text(layout, rva)),
    }
}

/// The numbers of a fault at an RVA, of the export directory table at `table`.
fn export_detail_in(layout: &Layout, table: u64, number: u16, at: u64) -> Option<Detail>
    requires { table < 2 ^ 32 }
    ensures { result ≡ export_detail_in (image_of layout.now) table number at }
{
    match number {
        16 => Some(past_image(layout, at, TABLE_LEN)),
        17 => tables_detail(layout, table, at),
        18 => count_detail(layout, at),
        19 => pointer_detail(layout, at),
        20 => ordinal_detail(layout, table, at),
        21 => address_detail(layout, at),
        22 => forwarder_detail(layout, at),
        _ => None,
    }
}

/// The numbers of a fault of the exports at an RVA.
pub(crate) fn export_detail(layout: &Layout, number: u16, at: u64) -> Option<Detail>
    ensures { result ≡ export_detail (image_of layout.now) number at }
{
    match layout.directory(directory_index::EXPORT) {
        Some(directory) => export_detail_in(layout, directory.rva as u64, number, at),
        None => None,
    }
}
