//! The walk over the entries of a delay import name table, which remembers where strings end.

ghost use Rattle.std.specs.Prelude.{◌≡◌, ◌+◌, ◌*◌, ◌<◌, ◌≤◌, ◌^◌};
ghost use Rattle.pe_view.specs.TextEnds.{AreEndsOf};
ghost use Rattle.pe_layout.specs.Layout.{file_of, image_of};
ghost use Rattle.pe_delay.specs.Entries.{entry_count, most_after};
ghost use Rattle.pe_delay.specs.Walk.{IsNext};

use crate::entry::{placed_value, slot_rva};
use crate::key::key_kept;
use crate::tables::Tables;
use pe_layout::Layout;
use pe_tables::Import;
use pe_view::TextEnds;
use std::alloc::Allocator;

/// The most entries that are read of all name tables of an image.
pub(crate) const ENTRY_LIMIT: u32 = 1_048_576;

/// The most entries that are read of a table where so many were read before.
pub(crate) fn most_after(layout: &Layout, read: u32) -> u32
    requires { read ≤ 1048576 }
    ensures { result ≡ most_after (image_of layout.now) read }
{
    (ENTRY_LIMIT - read).min(layout.size())
}

/// The import of entry `index` of the first `most`, or `None` if there is none.
pub(crate) fn import_at<'a, A: Allocator + Copy>(
    ends: &mut TextEnds<A>,
    layout: &Layout<'a>,
    module: &'a [u8],
    tables: &Tables,
    index: u32,
    most: u32,
) -> Option<Import<'a>>
    requires { AreEndsOf (file_of layout.now) ends.old }
    ensures known { AreEndsOf (file_of layout.now) ends.new }
    ensures next { IsNext (image_of layout.now) tables.now «module».entry.now most index result }
{
    if index >= most {
        return None;
    }
    let value = placed_value(layout, tables, index)?;
    let key = key_kept(ends, layout, tables, value)?;
    Some(Import {
        module,
        key,
        slot: slot_rva(layout, tables, index) as u32,
    })
}

/// How many entries of a table import, up to the first that does not, where `read` entries of all tables were read before.
pub(crate) fn count_entries<A: Allocator + Copy>(
    ends: &mut TextEnds<A>,
    layout: &Layout,
    tables: &Tables,
    read: u32,
) -> u32
    requires known { AreEndsOf (file_of layout.now) ends.old }
    requires few { read ≤ 1048576 }
    ensures known { AreEndsOf (file_of layout.now) ends.new }
    ensures count { result ≡ entry_count (image_of layout.now) tables.now read }
    ensures few { read + result ≤ 1048576 }
    ensures small { tables.now.names + (image_of layout.now).slot_width * result < 2 ^ 32 }
{
    let most = most_after(layout, read);
    let mut count = 0;
    while let Some(_import) = import_at(ends, layout, &[], tables, count, most) {
        count += 1;
    }
    count
}
